// Rows of problems: what lines ask for over the index.

use crate::background::Background;
use crate::conflicts::{refutation_of, refutation_text};
use crate::growing_text::GrowingText;
use crate::notation::owned;
use pep440::Version;
use pep508::{Name, ReqFile};
use refutations::check;
use refute::{refute_by_sets, refute_singly};
use resolve::{Answer, Learning, Problem, Resolver};
use search::Unwatched;
use set_refutations::check_sets;
use std::alloc::Global;
use std::collections::BTreeMap;

/// What lines ask for over the index, with no versions kept.
fn problem_of<'a>(alloc: Global, background: &'a Background, lines: &str) -> Option<Problem<'a>> {
    let lines = ReqFile::read(alloc, lines.as_bytes()).ok()?;
    let kept = BTreeMap::new(alloc);
    let (environment, index) = (background.environment.as_ref()?, background.index.as_ref()?);
    Problem::new(alloc, &lines, environment, index, kept).ok()
}

/// A solution: how many nodes are needed, and each name with its version.
fn solution_text(
    alloc: Global,
    problem: &Problem<'_>,
    versions: &BTreeMap<Name, Version>,
) -> Option<String> {
    let count = problem.needed(alloc, versions).ok()?.len();
    let mut text = GrowingText::new(alloc);
    write!(text, "{count} nodes:");
    for (name, version) in versions {
        let name = name.normal();
        write!(text, " {name}={version}");
    }
    text.told()
}

/// What solves the lines. Where nothing does, a set refutation is found, which is accepted.
pub fn solve(alloc: Global, background: &Background, lines: &str) -> Option<String> {
    let problem = problem_of(alloc, background, lines)?;
    if let Answer::Solution(versions) = Learning.resolve(alloc, &problem).ok()? {
        return solution_text(alloc, &problem, &versions);
    }
    let refutation = refute_by_sets(alloc, &problem, &mut Unwatched).ok()??;
    let is_accepted = check_sets(&problem, refutation.list());
    owned(alloc, if is_accepted { "none" } else { "refused" })
}

/// The conflicts of the refutation that is found, or that there is a solution.
pub fn refute(alloc: Global, background: &Background, lines: &str) -> Option<String> {
    let problem = problem_of(alloc, background, lines)?;
    match refute_singly(alloc, &problem, &mut Unwatched).ok()? {
        Some(refutation) => refutation_text(alloc, &refutation),
        None => owned(alloc, "solvable"),
    }
}

/// Whether a list of conflicts is accepted.
pub fn accepted(
    alloc: Global,
    background: &Background,
    lines: &str,
    told: &[String],
) -> Option<String> {
    let problem = problem_of(alloc, background, lines)?;
    let is_accepted = check(&problem, &refutation_of(alloc, told)?);
    owned(alloc, if is_accepted { "accepted" } else { "refused" })
}
