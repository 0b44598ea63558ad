// What is told of a target that has no solution.

ghost use Rattle.std.specs.Prelude.{◌≡◌, IfOk, None};
ghost use Rattle.std.specs.List.{All};
ghost use Rattle.answers.specs.Answers.{IsSolvable};

use crate::changed_lines::changed_by;
use crate::shown::first_explained;
use edits::{Edit, Line, Problem, TargetName};
use explain::{ChangedLines, Explanation, Extent, Wording, add_refutation};
use phrases::add_target_line;
use refutations::Refutation;
use search::Unwatched;
use std::alloc::{AllocError, Global};

/// The sentences that tell why the first target without a solution has none after the edit of these lines, in lines of the
/// width at most; nothing where each one has a solution.
pub fn told_refutation(
    alloc: Global,
    lines: &[Line],
    edit: &Edit,
    problems: &[(TargetName, Problem<'_>)],
    width: usize,
) -> Result<Option<String>, AllocError>
    ensures { IfOk result (λ text. text ≡ None → All IsSolvable problems.now) }
{
    let changed = changed_by(edit);
    let mut nobody = Unwatched;
    match first_explained(alloc, problems, &mut nobody)? {
        Some((place, explanation)) => {
            let (name, problem) = &problems[place];
            let wording = Wording {
                lines: ChangedLines { lines, changed },
                extent: Extent::Short,
                width,
            };
            Ok(Some(explained_text(alloc, name, problem, &explanation, wording)?))
        }
        None => Ok(None),
    }
}

/// A refutation, below the target's name.
pub fn listed_text(
    alloc: Global,
    name: &TargetName,
    refutation: &Refutation,
) -> Result<String, AllocError> {
    let mut text = String::new(alloc);
    add_target_line(&mut text, name.as_str())?;
    add_refutation(alloc, &mut text, refutation)?;
    Ok(text)
}

/// The sentences of an explanation, below the target's name.
pub fn explained_text(
    alloc: Global,
    name: &TargetName,
    problem: &Problem<'_>,
    explanation: &Explanation,
    wording: Wording<'_>,
) -> Result<String, AllocError> {
    let mut text = String::new(alloc);
    add_target_line(&mut text, name.as_str())?;
    explanation.add_sentences(alloc, &mut text, problem, wording)?;
    Ok(text)
}
