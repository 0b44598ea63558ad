// The problems of questions that are no edits of a state.

ghost use Rattle.lists.specs.Answers.{Answers};
ghost use Rattle.std.specs.Prelude.{◌≡◌, ◌⊎◌, map, IfOk, IfErr, None, Some};
ghost use Rattle.edits.specs.Addition.{requirement_in, with_line};
ghost use Rattle.edits.specs.Edits.{first_problem, lines_after};
ghost use Rattle.edits.specs.Questions as spec;
ghost use Rattle.edits.specs.Refused.{or_refused, refused_by_lines};
ghost use Rattle.states.specs.declared.refusal.Refusal.TheVariants.{OutOfMemory};

use crate::addition::{line_in, with_line};
use crate::edit_result::{lines_after, problems_for};
use crate::first_targets::FirstTargets;
use crate::kept_versions::{all_first, unlocked};
use crate::request::Edit;
use lists::{Seq, Text};
use pep440::Version;
use pep508::{Name, ReqFile};
use resolve::Problem;
use snapshot::Snapshot;
use states::{Pool, Refusal, State, Target, TargetName};
use std::alloc::Global;

/// The problems whose best solutions `init` would lock for the lines after the edit, over the snapshot:
/// for each target, under its name and in the order of names, with the versions that are handed in for it.
/// Where lines refuse the edit, that is answered.
pub fn problems_of_init<'a>(
    alloc: Global,
    lines: &ReqFile,
    edit: &Edit,
    first: FirstTargets,
    snapshot: &'a Snapshot,
) -> Result<Seq<(TargetName, Problem<'a>)>, Refusal>
    ensures ok { IfOk result (λ problems. (refused_by_lines lines.now edit.now ≡ None)
        × (problems ≡ map
        (first_problem (lines_after lines.now edit.now) first.pins snapshot.now) first.targets)) }
    ensures err { IfErr result (λ refusal. (refusal ≡ OutOfMemory)
        ⊎ (refused_by_lines lines.now edit.now ≡ Some refusal)) }
{
    let after = lines_after(alloc, lines, edit)?;
    let targets = all_first(alloc, first, snapshot)?;
    let problems = problems_for(alloc, &after, targets, &Pool::whole(snapshot))?;
    Ok(problems)
}

/// The file with the text as its last line, whether a line has its name or not.
fn with_requirement(alloc: Global, file: &ReqFile, text: &Text) -> Result<ReqFile, Refusal>
    ensures { Answers OutOfMemory
        (or_refused (spec.refused_requirement (requirement_in text.now)) (with_line file.now text.now))
        result }
{
    let Some(line) = line_in(alloc, text)? else {
        return Err(Refusal::BadText);
    };
    if line.requirement().is_none() {
        return Err(Refusal::BadText);
    }
    Ok(with_line(alloc, file, line)?)
}

/// The problems of a relock of the state with one requirement more, over the snapshot: for each target,
/// under its name and in the order of names, with the versions of its lock. `BadText` where the text has
/// an LF or is no requirement.
pub fn problems_with<'a>(
    alloc: Global,
    state: &State,
    requirement: &Text,
    snapshot: &'a Snapshot,
) -> Result<Seq<(TargetName, Problem<'a>)>, Refusal>
    ensures ok { IfOk result (λ problems. (spec.refused_requirement (requirement_in requirement.now) ≡ None)
        × (problems ≡ spec.problems_with state.now requirement.now snapshot.now)) }
    ensures err { IfErr result (λ refusal. (refusal ≡ OutOfMemory)
        ⊎ (spec.refused_requirement (requirement_in requirement.now) ≡ Some refusal)) }
{
    let more = with_requirement(alloc, state.lines(), requirement)?;
    let pool = Pool::whole(snapshot);
    let targets = unlocked(alloc, state, &Edit::Relock, &pool)?;
    let problems = problems_for(alloc, &more, targets, &pool)?;
    Ok(problems)
}

/// The problem of a relock of a target that keeps a release in the place of what its lock has of the name, over the
/// snapshot. The lines are those of the state: so the release is taken where the walk comes to its name, as an
/// upgrade takes one, and what is taken before it is kept first.
pub fn problem_keeping<'a>(
    alloc: Global,
    state: &State,
    target: &Target,
    name: &Name,
    version: &Version,
    snapshot: &'a Snapshot,
) -> Result<Problem<'a>, Refusal>
    ensures ok { IfOk result (λ problem. problem
        ≡ spec.problem_keeping state.now target.now name.now version.now snapshot.now) }
    ensures err { IfErr result (λ refusal. refusal ≡ OutOfMemory) }
{
    let mut kept = target.kept(alloc)?;
    let own = name.clone()?;
    kept.insert(own, version.clone()?)?;
    let problem = Problem::new(alloc, state.lines(), &target.environment, snapshot, kept)?;
    Ok(problem)
}
