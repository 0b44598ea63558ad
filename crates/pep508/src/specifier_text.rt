// Specifiers that a line is to get.

ghost use Rattle.lists.specs.Answers.{Answers};
ghost use Rattle.std.specs.Prelude.{◌≡◌};
ghost use Rattle.markers.specs.Faults.{memory_fault, one_line};
ghost use Rattle.markers.specs.declared.fault.Cause.TheVariants.{OutOfMemory};
ghost use Rattle.pep508.specs.Requirement.{IsSpecifier, specifier_of};

use lists::{Text, trim};
use markers::{Cause, Fault};
use pep440::SpecifierSet;
use std::alloc::Global;
use std::marker::Model;

/// A set of specifiers as it is to stand in a line: without parentheses, with no space around it, or
/// empty. In a clause it is its text.
#[derive(Drop)]
pub struct SpecifierText {
    text: Text,
}

impl Model for SpecifierText {
    ghost use Rattle.std.specs.Prelude.{List, ℕ};
    ghost use Rattle.pep508.specs.Requirement.{IsSpecifier};

    ghost Value = { List ℕ };

    ghost view = { λ s. s.text };

    ghost invariant = { λ s. IsSpecifier s.text };
}

impl SpecifierText {
    /// Reads a set of specifiers (PEP 440, "Version specifiers"); spaces and tabs around it are dropped.
    /// A text that is none is refused as `Specifier` with the cause that the set has.
    pub fn parse(alloc: Global, text: &str) -> Result<SpecifierText, Fault>
        ensures { Answers memory_fault (one_line (specifier_of text.now)) result }
    {
        match SpecifierText::read(alloc, text) {
            Ok(specifier) => Ok(specifier),
            Err(cause) => Err(Fault::at(1, cause)),
        }
    }

    /// Reads a set of specifiers, as `parse` does; the fault is its cause alone.
    fn read(alloc: Global, text: &str) -> Result<SpecifierText, Cause>
        ensures { Answers OutOfMemory (specifier_of text.now) result }
    {
        let text = trim(text);
        let _ = SpecifierSet::parse(alloc, text)?;
        let text = Text::copy_of(alloc, text)?;
        Ok(SpecifierText { text })
    }

    /// The text, as it was written.
    pub fn text(&self) -> &str
        ensures text { result.now ≡ self.now }
        ensures reads { IsSpecifier self.now }
    {
        self.text.as_str()
    }
}
