// Lines, one of them with other specifiers.

ghost use Rattle.lists.specs.Answers.{Answers};
ghost use Rattle.std.specs.Prelude.{◌≡◌, IfOk, Ok, Err, if◌then◌else◌};
ghost use Rattle.edits.specs.LinesOnName.{is_specifier, line_with, with_set_on};
ghost use Rattle.edits.specs.Refused.{or_refused, refused_constraint};
ghost use Rattle.states.specs.declared.refusal.Refusal.TheVariants.{BadText, OutOfMemory};
ghost use Rattle.markers.specs.Names.{normal_of};
ghost use Rattle.pep508.specs.Parts.{trim};

use crate::lines_on_name::name_of_one;
use lists::{Seq, Text};
use pep508::laws::{a_file_reads_as_lines, a_line_may_get_specifiers, lines_may_be_exchanged};
use pep508::{Cause, Line, Name, ReqFile, SpecifierText};
use states::Refusal;
use std::alloc::{AllocError, Global};

/// The specifiers that the text is.
fn specifiers_in(alloc: Global, text: &Text) -> Result<SpecifierText, Refusal>
    ensures { Answers OutOfMemory (if is_specifier text.now then Ok (trim text.now) else Err
        BadText) result }
{
    match SpecifierText::parse(alloc, text.as_str()) {
        Ok(specifiers) => Ok(specifiers),
        Err(fault) => match fault.cause {
            Cause::OutOfMemory => Err(Refusal::OutOfMemory),
            _ => Err(Refusal::BadText),
        },
    }
}

/// The line, with these specifiers where it is on the name.
fn line_with(
    alloc: Global,
    line: &Line,
    name: &Name,
    specifiers: &SpecifierText,
) -> Result<Line, AllocError>
    ensures { IfOk result (λ after. after ≡ line_with name.now specifiers.now line.now) }
{
    if line.is_on(name) {
        line.with_specifier(alloc, specifiers)
    } else {
        line.clone()
    }
}

/// The lines, those on the name with these specifiers.
fn lines_with(
    alloc: Global,
    lines: &[Line],
    name: &Name,
    specifiers: &SpecifierText,
) -> Result<Seq<Line>, AllocError>
    ensures { IfOk result (λ after. after ≡ with_set_on name.now specifiers.now lines.now) }
{
    let mut after = Vec::with_capacity(alloc, lines.len())?;
    for line in lines {
        after.push(line_with(alloc, line, name, specifiers)?)?;
    }
    Ok(Seq::from_vec(after))
}

/// The file, the one line on the name with these specifiers.
pub(crate) fn constrained(
    alloc: Global,
    file: &ReqFile,
    name: &Text,
    specifiers: &Text,
) -> Result<ReqFile, Refusal>
    ensures { Answers OutOfMemory
        (or_refused (refused_constraint file.now name.now specifiers.now)
        (with_set_on (normal_of name.now) (trim specifiers.now) file.now)) result }
{
    let specifiers = specifiers_in(alloc, specifiers)?;
    let name = name_of_one(alloc, file.lines(), name)?;
    let lines = lines_with(alloc, file.lines(), &name, &specifiers)?;
    a_file_reads_as_lines();
    a_line_may_get_specifiers();
    lines_may_be_exchanged();
    let _set = specifiers.text();
    file.recall_invariant();
    Ok(ReqFile::from_lines(lines))
}
