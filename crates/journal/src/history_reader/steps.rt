// The steps of a journal.

ghost use Rattle.std.specs.Prelude.{◌+◌, ◌≤◌, IfOk, length};
ghost use Rattle.std.specs.Result.{result_map_both};
ghost use Rattle.states.specs.declared.refusal.Refusal.TheVariants as refusals;
ghost use Rattle.journal.specs.Opens.{Found, StepAt, StepLines, Tells};

use edits::{Change, Refusal};
use journal_format::{Flaw, Header, change_of_line, cut_line};
use lists::Seq;
use std::alloc::Global;

/// The step that bytes begin with, and the bytes behind its line. The line has this number in the
/// journal of this header.
fn step_at<'j>(
    alloc: Global,
    header: &Header,
    number: usize,
    bytes: &'j [u8],
) -> Result<(Change, &'j [u8]), Refusal>
    ensures step { Found (StepAt header.now bytes.now) (refusals.JournalBroken number)
        (result_map_both (λ step. (step.0, step.1.now)) (λ e. e) result) }
    ensures shorter { IfOk result (λ step. length step.1.now + 1 ≤ length bytes.now) }
{
    let Some((line, behind)) = cut_line(bytes) else {
        return Err(Refusal::JournalBroken(number));
    };
    match change_of_line(alloc, header, line) {
        Ok(change) => Ok((change, behind)),
        Err(Flaw::OutOfMemory) => Err(Refusal::OutOfMemory),
        Err(Flaw::OtherForm) => Err(Refusal::JournalBroken(number)),
    }
}

/// The changes of as many steps as the header tells, the first of them in line 2, behind which nothing
/// stands.
pub(crate) fn steps_of(alloc: Global, header: &Header, bytes: &[u8]) -> Result<Seq<Change>, Refusal>
    ensures { Tells (StepLines header.now header.now.steps 2 bytes.now) result }
{
    let steps = header.steps;
    let mut changes = Vec::new(alloc);
    let mut rest = bytes;
    for place in 0..steps {
        let (change, behind) = step_at(alloc, header, place as usize + 2, rest)?;
        changes.push(change)?;
        rest = behind;
    }
    if !rest.is_empty() {
        return Err(Refusal::JournalBroken(steps as usize + 2));
    }
    Ok(Seq::from_vec(changes))
}
