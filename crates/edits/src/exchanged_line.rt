// A file in which the line on a name is exchanged for another.

ghost use Rattle.std.specs.Prelude.{◌≡◌, ◌⊎◌, ◌++◌, IfErr, IfOk, OnOk, None, Some};
ghost use Rattle.std.specs.List.{concat};
ghost use Rattle.edits.specs.Addition.{requirement_in};
ghost use Rattle.edits.specs.ExchangedLine.{exchanged, refused_exchange, refused_other, with_line_on};
ghost use Rattle.edits.specs.Refused.{or_refused};
ghost use Rattle.lists.specs.Answers.{Answers};
ghost use Rattle.markers.specs.Names.{normal_of};
ghost use Rattle.states.specs.declared.refusal.Refusal.TheVariants.{OutOfMemory};

use crate::addition::{line_in, line_number};
use crate::lines_on_name::name_of_one;
use lists::Text;
use pep508::{Line, Name, ReqFile, Requirement};
use states::Refusal;
use std::alloc::{AllocError, Global};

/// Puts a line behind others, or the text with its ending in the place of the line on the name.
fn put_line(all: &mut Text, line: &Line, name: &Name, text: &str) -> Result<(), AllocError>
    ensures { OnOk result (all.new ≡ all.old ++ exchanged name.now text.now line.now) }
{
    if line.is_on(name) {
        all.push_str(text)?;
        all.push_str(line.ending())?;
        return Ok(());
    }
    all.push_str(line.text())?;
    Ok(())
}

/// The lines joined, with the text in the place of the line on the name. Its ending stays.
fn joined_with(alloc: Global, lines: &[Line], name: &Name, text: &str) -> Result<Text, AllocError>
    ensures { IfOk result (λ all. all ≡ concat (with_line_on name.now text.now lines.now)) }
{
    let mut all = Text::new(alloc);
    for line in lines {
        put_line(&mut all, line, name, text)?;
    }
    Ok(all)
}

/// The refusal of a requirement in the place of the one on the name, where another line has its name.
fn refused_other(lines: &[Line], name: &Name, requirement: &Requirement) -> Option<Refusal>
    ensures { result ≡ refused_other lines.now name.now requirement.now }
{
    if requirement.name().normal() == name.normal() {
        return None;
    }
    match line_number(lines, requirement.name()) {
        Some(number) => Some(Refusal::AlreadyPresent(number)),
        None => None,
    }
}

/// The name that the text is, where a requirement may stand in the place of the one line on it.
fn exchanged_name(
    alloc: Global,
    lines: &[Line],
    text: &Text,
    requirement: &Requirement,
) -> Result<Name, Refusal>
    ensures { Answers OutOfMemory
        (or_refused (refused_exchange lines.now text.now (Some requirement.now)) (normal_of text.now))
        result }
{
    let name = name_of_one(alloc, lines, text)?;
    match refused_other(lines, &name, requirement) {
        Some(refusal) => Err(refusal),
        None => Ok(name),
    }
}

/// The file with the text in the place of the one line on the name, which is told as for a constraint. The
/// line's ending stays, and so do all other lines. `BadText` where the text has an LF or is no
/// requirement, `AlreadyPresent` where another line has its name.
pub fn with_line_exchanged(
    alloc: Global,
    file: &ReqFile,
    name: &Text,
    text: &Text,
) -> Result<ReqFile, Refusal>
    ensures accepted { IfOk result
        (λ _. refused_exchange file.now name.now (requirement_in text.now) ≡ None) }
    ensures joined { IfOk result (λ after.
        concat after ≡ concat (with_line_on (normal_of name.now) text.now file.now)) }
    ensures err { IfErr result (λ refusal. (refusal ≡ OutOfMemory)
        ⊎ (refused_exchange file.now name.now (requirement_in text.now) ≡ Some refusal)) }
{
    let Some(line) = line_in(alloc, text)? else {
        return Err(Refusal::BadText);
    };
    let Some(requirement) = line.requirement() else {
        return Err(Refusal::BadText);
    };
    let name = exchanged_name(alloc, file.lines(), name, requirement)?;
    let joined = joined_with(alloc, file.lines(), &name, text.as_str())?;
    // the lines and the text read, so that memory alone can be refused
    match ReqFile::read(alloc, joined.as_str().as_bytes()) {
        Ok(after) => Ok(after),
        Err(_) => Err(Refusal::OutOfMemory),
    }
}
