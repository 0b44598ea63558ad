// A history read from a requirements file, lock files and a journal.

ghost use Rattle.journal.specs.Opens.{Opens, Tells};

pub(crate) mod locks;
pub(crate) mod present;
pub(crate) mod steps;
mod walk;

use crate::change_history::ChangeHistory;
use crate::history_reader::present::present_of;
use crate::history_reader::steps::steps_of;
use crate::history_reader::walk::history_of;
use crate::journal::{Begin, Journal};
use edits::{Refusal, TargetName};
use lists::Seq;
use std::alloc::Global;
use std::collections::BTreeMap;

/// The history that the bytes of a requirements file, of lock files by the names of their targets, and of a
/// journal stand for.
pub(crate) fn opened(
    alloc: Global,
    requirements: &[u8],
    locks: &BTreeMap<TargetName, Seq<u8>>,
    journal: &Journal,
) -> Result<ChangeHistory, Refusal>
    ensures { Tells (Opens requirements.now locks.now.entries journal.now) result }
{
    let Begin { header, steps } = journal.begin()?;
    let state = present_of(alloc, header, requirements, locks)?;
    let changes = steps_of(alloc, header, steps)?;
    history_of(alloc, changes, state, header.cursor)
}
