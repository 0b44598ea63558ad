// Requirements files.

ghost use Rattle.lists.specs.Answers.{Answers};
ghost use Rattle.std.specs.Prelude.{◌≡◌, IfOk, Ok};
ghost use Rattle.std.specs.List.{AllByRecursion, concat};
ghost use Rattle.markers.specs.Faults.{memory_fault};
ghost use Rattle.pep508.specs.Lines.{AreLines};
ghost use Rattle.pep508.specs.Requirement.{IsLine, file_of, lines_read};

use crate::line::Line;
use crate::parts::split_line;
use crate::short_lines::ShortLines;
use lists::{Faithful, Seq, Text};
use markers::{Cause, Fault};
use std::alloc::{AllocError, Global};
use std::marker::Model;
use std::str;

/// A requirements file. In a clause it is the list of its lines, each with its ending; joined, they
/// are cut into these lines again.
pub struct ReqFile {
    lines: Seq<Line>,
}

impl Drop for ReqFile {
    fn drop(self) {
        let ReqFile { lines: _ } = self;
    }
}

impl Model for ReqFile {
    ghost use Rattle.std.specs.Prelude.{List, ℕ};
    ghost use Rattle.pep508.specs.Lines.{AreLines};

    ghost Value = { List (List ℕ) };

    ghost view = { λ f. f.lines };

    ghost invariant = { λ f. AreLines f.lines };

    ghost inverse = { λ l. record { lines = l } };
}

impl ReqFile {
    /// Reads a file. What is refused is the whole where it isn't UTF-8, else its first refused line.
    pub fn read(alloc: Global, bytes: &[u8]) -> Result<ReqFile, Fault>
        ensures exact { Answers memory_fault (file_of bytes.now) result }
        ensures whole { IfOk result (λ file. concat file ≡ bytes.now) }
    {
        let Ok(text) = str::from_utf8(bytes) else {
            return Err(Fault {
                line: 0,
                cause: Cause::NotUtf8,
            });
        };
        read_lines(alloc, text)
    }

    /// The file of these lines, which are as a text is cut into them. It has no refusal.
    pub fn from_lines(lines: Seq<Line>) -> ReqFile
        requires { AreLines lines }
        ensures { result ≡ lines }
    {
        ReqFile { lines }
    }

    /// The lines, in the order of the file, each with its ending.
    pub fn lines(&self) -> &[Line]
        ensures { result.now ≡ self.now }
    {
        self.lines.as_slice()
    }

    /// The bytes of the file: its lines, joined.
    pub fn bytes(&self, alloc: Global) -> Result<Text, AllocError>
        ensures { IfOk result (λ bytes. bytes ≡ concat self.now) }
    {
        let mut bytes = Text::new(alloc);
        for line in self.lines() {
            bytes.push_str(line.text())?;
        }
        Ok(bytes)
    }

    /// What holds of every file: its bytes read as its lines.
    pub fn recall_invariant(&self)
        ensures { file_of (concat self.now) ≡ Ok self.now }
    {
        recall_invariants(self.lines.as_slice());
    }
}

/// What holds of the lines: each of them is lawful.
fn recall_invariants(lines: &[Line])
    ensures { AllByRecursion IsLine lines.now }
{
    for line in lines {
        line.recall_invariant();
    }
}

/// The lines of a text, or the fault of the first that is refused.
fn read_lines(alloc: Global, text: &str) -> Result<ReqFile, Fault>
    ensures { Answers memory_fault (lines_read text.now) result }
{
    let mut lines = Seq::new(alloc);
    let mut short = ShortLines::new(alloc);
    let mut rest = text;
    while !rest.is_empty() {
        let (line, after) = split_line(rest);
        match short.read(alloc, line) {
            Ok(line) => lines.push(line)?,
            Err(cause) => return Err(Fault::at(lines.len() + 1, cause)),
        }
        rest = after;
    }
    Ok(ReqFile { lines })
}

impl Clone for ReqFile {
    ghost is_clone = { λ f g. g ≡ f };

    fn clone(&self) -> Result<ReqFile, AllocError> {
        let lines = self.lines.clone()?;
        Ok(ReqFile { lines })
    }
}

impl Faithful for ReqFile {
    ghost clone_is_source = { λ x y h. h };
}
