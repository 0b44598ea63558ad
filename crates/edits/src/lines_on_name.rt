// The lines on a name.

ghost use Rattle.lists.specs.Answers.{Answers};
ghost use Rattle.std.specs.Prelude.{◌≡◌, Ok, Err, if◌then◌else◌};
ghost use Rattle.edits.specs.LinesOnName.{count_on};
ghost use Rattle.edits.specs.Refused.{or_refused, refused_name};
ghost use Rattle.states.specs.declared.refusal.Refusal.TheVariants.{BadText, OutOfMemory};
ghost use Rattle.markers.specs.Names.{is_name, normal_of};

use lists::Text;
use pep508::{Cause, Line, Name};
use states::Refusal;
use std::alloc::Global;

/// How many lines are on the name.
fn count_on(lines: &[Line], name: &Name) -> usize
    ensures { result ≡ count_on name.now lines.now }
{
    lines.iter().filter(|line| line.is_on(name)).count()
}

/// The name that the text is.
pub(crate) fn name_in(alloc: Global, text: &Text) -> Result<Name, Refusal>
    ensures { Answers OutOfMemory (if is_name text.now then Ok (normal_of text.now) else Err
        BadText) result }
{
    match Name::read(alloc, text.as_str()) {
        Ok(name) => Ok(name),
        Err(Cause::OutOfMemory) => Err(Refusal::OutOfMemory),
        Err(_) => Err(Refusal::BadText),
    }
}

/// The name that the text is, where just one line is on it.
pub(crate) fn name_of_one(alloc: Global, lines: &[Line], text: &Text) -> Result<Name, Refusal>
    ensures { Answers OutOfMemory (or_refused (refused_name lines.now text.now) (normal_of
        text.now)) result }
{
    let name = name_in(alloc, text)?;
    match count_on(lines, &name) {
        0 => Err(Refusal::NotPresent),
        1 => Ok(name),
        count => Err(Refusal::Ambiguous(count)),
    }
}
