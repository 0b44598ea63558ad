// What came and what went, each with its mark and its ink.

ghost use Rattle.std.specs.Prelude.{◌≡◌, ◌++◌, false, IfOk, string_bytes};
ghost use Rattle.texts.specs.DiffText.{mark};

use phrases::{Ink, Style};
use std::alloc::AllocError;

/// Whether something came or went.
#[derive(Clone, Copy, Debug, PartialEq, Eq)]
pub(crate) enum Sign {
    Came,
    Went,
}

impl Sign {
    /// Begins what came or went by its mark; the caller ends the ink behind it.
    pub(crate) fn begin(self, text: &mut String, style: Style) -> Result<(), AllocError>
        ensures plain { style.colors ≡ false →
            IfOk result (λ _. string_bytes text.new ≡ string_bytes text.old ++ mark self) }
    {
        match self {
            Sign::Came => {
                style.begin(text, Ink::Green)?;
                text.push_str("+ ")?;
                Ok(())
            }
            Sign::Went => {
                style.begin(text, Ink::Red)?;
                text.push_str("- ")?;
                Ok(())
            }
        }
    }
}
