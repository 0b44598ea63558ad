// What is told beside a reply: sentences and commands. Who writes a command says so.

ghost use Rattle.std.specs.Prelude.{◌≡◌, ◌++◌, false, IfOk, None, string_bytes};

use crate::ink::Ink;
use crate::style::{Style, add_wrapped};
use std::alloc::{AllocError, Global};
use std::fmt::Display;

/// What stands before a command in its line.
const INDENT: &str = "    ";

/// Sentences and commands, in lines.
#[derive(Drop)]
pub struct Notes {
    /// All of them, as a pipe gets them.
    pub text: String,
    // the places in the text at which the lines of commands begin, in their order
    commands: Vec<usize>,
}

impl Notes {
    /// None yet.
    pub fn new(alloc: Global) -> Notes {
        Notes {
            text: String::new(alloc),
            commands: Vec::new(alloc),
        }
    }

    /// Whether nothing is told.
    pub fn is_empty(&self) -> bool {
        self.text.is_empty()
    }

    /// Forgets what was told.
    pub fn clear(&mut self) {
        self.text.clear();
        self.commands.clear();
    }

    /// Puts a part behind the text.
    pub fn push_str(&mut self, part: &str) -> Result<(), AllocError>
        ensures { IfOk result
            (λ _. string_bytes self.new.text ≡ string_bytes self.old.text ++ part.now) }
    {
        self.text.push_str(part)
    }

    /// Puts what a value is printed as behind the text: what `write!` calls.
    pub fn write_fmt<D: Display + Drop>(&mut self, value: D) -> Result<(), AllocError> {
        self.text.write_fmt(value)
    }

    /// The line that begins here is a command. Who writes it ends it.
    pub fn begin_command(&mut self) -> Result<(), AllocError> {
        self.commands.push(self.text.len())?;
        self.text.push_str(INDENT)
    }

    /// Puts what another one tells behind this.
    pub fn append(&mut self, behind: &Notes) -> Result<(), AllocError> {
        let length = self.text.len();
        for place in behind.commands.as_slice() {
            self.commands.push(length.saturating_add(*place))?;
        }
        self.text.push_str(behind.text.as_str())
    }

    /// All of it in a style. Sentences stand in lines of the width at most. A command stays whole, so that it can be taken
    /// over, and is bold.
    pub fn shown(&self, alloc: Global, style: Style) -> Result<String, AllocError>
        ensures plain { style.colors ≡ false → style.width ≡ None →
            IfOk result (λ shown. string_bytes shown ≡ string_bytes self.now.text) }
    {
        if !style.colors && style.width.is_none() {
            return self.text.clone();
        }
        let mut shown = String::new(alloc);
        let mut place: usize = 0;
        for line in self.text.as_str().split('\n') {
            // behind the last ending stands no line
            if place < self.text.len() {
                self.add_line(&mut shown, style, place, line)?;
            }
            place = place.saturating_add(line.len()).saturating_add(1);
        }
        Ok(shown)
    }

    /// The line that begins at a place.
    fn add_line(
        &self,
        shown: &mut String,
        style: Style,
        place: usize,
        line: &str,
    ) -> Result<(), AllocError> {
        if self.commands.as_slice().binary_search(&place).is_err() {
            return add_wrapped(shown, line, "", style.width.unwrap_or(usize::MAX));
        }
        shown.push_str(INDENT)?;
        style.add_inked(shown, Ink::Bold, line.strip_prefix(INDENT).unwrap_or(line))?;
        shown.push_str("\n")
    }
}
