// The colours of parts of a text. Who writes a part says its ink; without colours nothing but the part is written.

ghost use Rattle.std.specs.Prelude.{◌≡◌, ◌++◌, false, IfOk, string_bytes};
ghost use Rattle.pep440.specs.Canonical.{canonical};
ghost use Rattle.phrases.specs.Plain.{change_text};

use crate::style::Style;
use pep440::Version;
use std::alloc::AllocError;

/// How a part of a text looks where there are colours.
#[derive(Clone, Copy, Debug, PartialEq, Eq)]
pub enum Ink {
    /// A name, or what is present.
    Bold,
    /// What was before a change.
    Red,
    /// What is behind a change.
    Green,
}

impl Style {
    /// What is put behind the text from here on is in this ink, where there are colours.
    pub fn begin(self, text: &mut String, ink: Ink) -> Result<(), AllocError>
        ensures plain { self.colors ≡ false → IfOk result (λ _. text.new ≡ text.old) }
    {
        if !self.colors {
            return Ok(());
        }
        text.push_str(match ink {
            Ink::Bold => "\u{1b}[1m",
            Ink::Red => "\u{1b}[31m",
            Ink::Green => "\u{1b}[32m",
        })
    }

    /// What is put behind the text from here on is in no ink.
    pub fn end(self, text: &mut String) -> Result<(), AllocError>
        ensures plain { self.colors ≡ false → IfOk result (λ _. text.new ≡ text.old) }
    {
        if !self.colors {
            return Ok(());
        }
        text.push_str("\u{1b}[0m")
    }

    /// Puts a part behind the text, in this ink where there are colours.
    pub fn add_inked(self, text: &mut String, ink: Ink, part: &str) -> Result<(), AllocError>
        ensures plain { self.colors ≡ false →
            IfOk result (λ _. string_bytes text.new ≡ string_bytes text.old ++ part.now) }
    {
        self.begin(text, ink)?;
        text.push_str(part)?;
        self.end(text)
    }

    /// Puts a name behind the text, with the text before a change and the one behind it.
    pub fn add_texts(
        self,
        text: &mut String,
        name: &str,
        old: &str,
        new: &str,
    ) -> Result<(), AllocError>
        ensures plain { self.colors ≡ false →
            IfOk result (λ _. string_bytes text.new
            ≡ string_bytes text.old ++ change_text name.now old.now new.now) }
    {
        self.add_inked(text, Ink::Bold, name)?;
        text.push_str(" ")?;
        self.add_inked(text, Ink::Red, old)?;
        text.push_str(" -> ")?;
        self.add_inked(text, Ink::Green, new)
    }

    /// The same with a version before the change and one behind it.
    pub fn add_versions(
        self,
        text: &mut String,
        name: &str,
        old: &Version,
        new: &Version,
    ) -> Result<(), AllocError>
        ensures plain { self.colors ≡ false →
            IfOk result (λ _. string_bytes text.new
            ≡ string_bytes text.old
            ++ change_text name.now (canonical old.now) (canonical new.now)) }
    {
        self.add_inked(text, Ink::Bold, name)?;
        text.push_str(" ")?;
        self.begin(text, Ink::Red)?;
        write!(text, "{old}")?;
        self.end(text)?;
        text.push_str(" -> ")?;
        self.begin(text, Ink::Green)?;
        write!(text, "{new}")?;
        self.end(text)
    }
}
