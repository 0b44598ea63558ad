//! A law of what version 1 saved, the contract of a function that does nothing.

ghost use Rattle.journal.specs.VersionOne.{WhatVersionOneSavedOpens};

use pep440::laws::a_canonical_text_is_read;

/// What version 1 saved of a history opens as that history, and as no other: files stand for one at most.
pub fn what_version_1_saved_opens()
    ensures law { WhatVersionOneSavedOpens }
{
    a_canonical_text_is_read();
}
