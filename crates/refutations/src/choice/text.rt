// How choices print.

ghost use Rattle.std.specs.Prelude.{◌≡◌, IfOk, Some, string_bytes};
ghost use Rattle.std.specs.Fmt.{DisplaysOnOk};
ghost use Rattle.std.specs.Option.{option_copied};
ghost use Rattle.refutations.specs.Choices.{choice_text, extra_text};

use crate::choice::Choice;
use pep508::Name;
use std::alloc::{AllocError, Global};
use std::fmt;

/// Writes an extra that may be there in brackets.
fn write_extra<W: fmt::Write>(f: &mut fmt::Formatter<W>, extra: Option<&Name>) -> fmt::Result
    ensures { DisplaysOnOk W.write_str_gives f.old result
        (Some (extra_text (option_copied extra.entry))) f.new }
{
    match extra {
        Some(extra) => {
            let extra = extra.normal();
            write!(f, "[{extra}]")
        }
        None => Ok(()),
    }
}

impl fmt::Display for Choice {
    ghost output = { λ c. Some (choice_text c) };

    fn fmt<W: fmt::Write>(&self, f: &mut fmt::Formatter<W>) -> fmt::Result {
        let name = self.name.normal();
        let version = &self.version;
        write!(f, "{name}")?;
        write_extra(f, self.extra.as_ref())?;
        write!(f, "=={version}")
    }
}

impl Choice {
    /// The text of the choice: `name==version`, or `name[extra]==version` at the node of an extra. The
    /// version has its canonical text.
    pub fn text(&self, alloc: Global) -> Result<String, AllocError>
        ensures { IfOk result (λ text. string_bytes text ≡ choice_text self.now) }
    {
        format!(in alloc; "{self}")
    }
}
