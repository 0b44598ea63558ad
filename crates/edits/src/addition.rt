// What an added line makes of the lines.

ghost use Rattle.std.specs.Prelude.{◌≡◌, ◌==◌, IfOk, MatchOption, None, false};
ghost use Rattle.std.specs.List.{list_any};
ghost use Rattle.pep508.specs.Parts.{IsEnding};
ghost use Rattle.pep508.specs.Required.{required_by};
ghost use Rattle.edits.specs.Addition.{line_number, requirement_in, usual_ending, with_line};
ghost use Rattle.edits.specs.Refused.{or_refused, refused_addition};
ghost use Rattle.states.specs.declared.refusal.Refusal.TheVariants.{OutOfMemory};
ghost use Rattle.lists.specs.Answers.{Answers};

use lists::{Seq, Text};
use pep508::laws::{a_file_reads_as_lines, lines_may_get_one_more};
use pep508::{Cause, Line, Name, ReqFile};
use states::Refusal;
use std::alloc::{AllocError, Global};

/// Whether an LF is among the bytes.
fn has_line_feed(bytes: &[u8]) -> bool
    ensures { result ≡ list_any (λ b. b == 10) bytes.now }
{
    bytes.iter().any(|byte| *byte == b'\n')
}

/// The line that the text is; `None` where it has an LF or is none.
pub(crate) fn line_in(alloc: Global, text: &Text) -> Result<Option<Line>, AllocError>
    ensures reads { IfOk result (λ found. MatchOption found (requirement_in text.now ≡ None)
        (λ line. (line ≡ text.now) × (requirement_in text.now ≡ required_by line))) }
    ensures one_line { IfOk result (λ found. MatchOption found Unit
        (λ line. list_any (λ b. b == 10) line ≡ false)) }
{
    if has_line_feed(text.as_str().as_bytes()) {
        return Ok(None);
    }
    match Line::read(alloc, text.as_str()) {
        Ok(line) => Ok(Some(line)),
        Err(Cause::OutOfMemory) => Err(AllocError),
        Err(_) => Ok(None),
    }
}

/// The number, from 1, of the first line on the name.
pub(crate) fn line_number(lines: &[Line], name: &Name) -> Option<usize>
    ensures { result ≡ line_number name.now lines.now }
{
    for (place, line) in lines.iter().enumerate() {
        if line.is_on(name) {
            return Some(place + 1);
        }
    }
    None
}

/// The ending of the first line that has one, else LF.
fn usual_ending(lines: &[Line]) -> &'static str
    ensures ending { result.now ≡ usual_ending lines.now }
    ensures is { IsEnding result.now }
{
    for line in lines {
        if !line.ending().is_empty() {
            return line.ending();
        }
    }
    "\n"
}

/// The lines with one more as their last, each of them with an ending.
fn lines_with(alloc: Global, lines: &[Line], line: Line) -> Result<Seq<Line>, AllocError>
    ensures { IfOk result (λ after. after ≡ with_line lines.now line) }
{
    let ending = usual_ending(lines);
    let mut after = Vec::with_capacity(alloc, lines.len() + 1)?;
    for old in lines {
        after.push(old.clone()?)?;
    }
    if let Some(last) = after.pop() {
        after.push(last.ended(ending)?)?;
    }
    after.push(line.ended(ending)?)?;
    Ok(Seq::from_vec(after))
}

/// The file with one more line as its last, each of its lines with an ending.
pub(crate) fn with_line(alloc: Global, file: &ReqFile, line: Line) -> Result<ReqFile, AllocError>
    requires { list_any (λ b. b == 10) line ≡ false }
    ensures { IfOk result (λ after. after ≡ with_line file.now line) }
{
    a_file_reads_as_lines();
    lines_may_get_one_more();
    file.recall_invariant();
    Ok(ReqFile::from_lines(lines_with(alloc, file.lines(), line)?))
}

/// The file with the text as its last line.
pub(crate) fn added(alloc: Global, file: &ReqFile, text: &Text) -> Result<ReqFile, Refusal>
    ensures { Answers OutOfMemory
        (or_refused (refused_addition file.now (requirement_in text.now)) (with_line file.now text.now))
        result }
{
    let Some(line) = line_in(alloc, text)? else {
        return Err(Refusal::BadText);
    };
    let Some(requirement) = line.requirement() else {
        return Err(Refusal::BadText);
    };
    if let Some(number) = line_number(file.lines(), requirement.name()) {
        return Err(Refusal::AlreadyPresent(number));
    }
    Ok(with_line(alloc, file, line)?)
}
