// What is told of packages that an index lacks: which releases that rules out.

use crate::lacking::Lack;
use edits::{Name, Problem, Release, Requirement};
use phrases::release_runs::{Run, runs_of};
use std::alloc::{AllocError, Global};

/// How many names, or runs of releases, one sentence tells.
const MOST_PARTS: usize = 3;

/// What is told of what an index lacks: the releases that this rules out, or the package itself.
pub(crate) fn lack_text(
    alloc: Global,
    problem: &Problem<'_>,
    lack: &Lack<'_>,
) -> Result<String, AllocError> {
    if lack.positions.is_empty() {
        lacking_name(alloc, problem, lack)
    } else {
        ruled_out(alloc, problem, lack)
    }
}

/// Which releases are ruled out, for whom, and by what the index lacks.
fn ruled_out(alloc: Global, problem: &Problem<'_>, lack: &Lack<'_>) -> Result<String, AllocError> {
    let mut text = String::from_str(alloc, lack.node.name.normal())?;
    let releases = problem.releases(&lack.node.name);
    add_releases(alloc, &mut text, releases, lack.positions.as_slice())?;
    let verb = if lack.positions.len() == 1 {
        "was"
    } else {
        "were"
    };
    write!(text, " {verb} ruled out")?;
    if let Some(extra) = &lack.node.extra {
        let extra = extra.normal();
        if is_line_with(problem, &lack.node.name, extra) {
            write!(text, " for lines with [{extra}]")?;
        } else {
            write!(text, " where [{extra}] is asked for")?;
        }
    }
    add_packages(&mut text, lack.packages.as_slice())?;
    Ok(text)
}

/// Whether an active line on a name asks for an extra.
fn is_line_with(problem: &Problem<'_>, name: &Name, extra: &str) -> bool {
    for wanted in problem.active.as_slice() {
        if wanted.name() == name && has_extra(wanted, extra) {
            return true;
        }
    }
    false
}

fn has_extra(wanted: &Requirement, extra: &str) -> bool {
    wanted.extras().iter().any(|other| other.normal() == extra)
}

fn add_packages(text: &mut String, packages: &[&Name]) -> Result<(), AllocError> {
    let noun = if packages.len() == 1 {
        "package"
    } else {
        "packages"
    };
    write!(text, ": the snapshot has no {noun}")?;
    for (at, package) in packages.iter().enumerate().take(MOST_PARTS) {
        text.push_str(if at == 0 { " " } else { ", " })?;
        text.push_str(package.normal())?;
    }
    let more = packages.len().saturating_sub(MOST_PARTS);
    if more > 0 {
        write!(text, " and {more} more")?;
    }
    Ok(())
}

/// A name of which the index has no package: that of a line, or of what is locked.
fn lacking_name(
    alloc: Global,
    problem: &Problem<'_>,
    lack: &Lack<'_>,
) -> Result<String, AllocError> {
    let name = lack.node.name.normal();
    let verb = if problem.kept.get(&lack.node.name).is_some() {
        "is locked"
    } else {
        "a line asks for"
    };
    format!(in alloc; "the snapshot has no package {name}, which {verb}")
}

/// The releases at these positions, newest first, from the oldest on: by the ends of their runs, or by their number and their
/// ends where there are many runs.
fn add_releases(
    alloc: Global,
    text: &mut String,
    releases: &[Release],
    positions: &[usize],
) -> Result<(), AllocError> {
    let runs = runs_of(alloc, positions)?;
    if runs.len() > MOST_PARTS {
        let count = positions.len();
        write!(text, ": {count} releases from")?;
        return match (positions.first(), positions.last()) {
            (Some(newest), Some(oldest)) => add_run(
                text,
                releases,
                Run {
                    newest: *newest,
                    oldest: *oldest,
                },
            ),
            _ => Ok(()),
        };
    }
    let mut mark = "";
    for run in runs.as_slice() {
        text.push_str(mark)?;
        add_run(text, releases, *run)?;
        mark = ",";
    }
    Ok(())
}

fn add_run(text: &mut String, releases: &[Release], run: Run) -> Result<(), AllocError> {
    let Run { newest, oldest } = run;
    let (Some(first), Some(last)) = (releases.get(oldest), releases.get(newest)) else {
        return Ok(());
    };
    let (first, last) = (first.version(), last.version());
    if newest == oldest {
        return write!(text, " {first}");
    }
    write!(text, " {first} to {last}")
}
