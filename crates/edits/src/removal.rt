// Lines without one of them.

ghost use Rattle.lists.specs.Answers.{Answers};
ghost use Rattle.std.specs.Prelude.{◌≡◌, IfOk};
ghost use Rattle.edits.specs.LinesOnName.{without_line};
ghost use Rattle.edits.specs.Refused.{or_refused, refused_name};
ghost use Rattle.states.specs.declared.refusal.Refusal.TheVariants.{OutOfMemory};
ghost use Rattle.markers.specs.Names.{normal_of};

use crate::lines_on_name::name_of_one;
use lists::{Seq, Text};
use pep508::laws::{a_file_reads_as_lines, lines_may_be_left_out};
use pep508::{Line, Name, ReqFile};
use states::Refusal;
use std::alloc::{AllocError, Global};

/// The lines that aren't on the name.
fn lines_without(alloc: Global, lines: &[Line], name: &Name) -> Result<Seq<Line>, AllocError>
    ensures { IfOk result (λ after. after ≡ without_line name.now lines.now) }
{
    let mut after = Vec::with_capacity(alloc, lines.len())?;
    for line in lines {
        if !line.is_on(name) {
            after.push(line.clone()?)?;
        }
    }
    Ok(Seq::from_vec(after))
}

/// The file without the one line on the name that the text is.
pub(crate) fn removed(alloc: Global, file: &ReqFile, name: &Text) -> Result<ReqFile, Refusal>
    ensures { Answers OutOfMemory
        (or_refused (refused_name file.now name.now) (without_line (normal_of name.now) file.now))
        result }
{
    let name = name_of_one(alloc, file.lines(), name)?;
    let lines = lines_without(alloc, file.lines(), &name)?;
    a_file_reads_as_lines();
    lines_may_be_left_out();
    file.recall_invariant();
    Ok(ReqFile::from_lines(lines))
}
