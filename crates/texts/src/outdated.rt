// Which entries of a lock have newer releases, and who holds them back.

use crate::required_by::{RequiredBy, requirers_of};
use edits::{Entry, Line, Name, Problem, Release, Requirement, Target};
use lists::Seq;
use pep440::Version;
use pep508::Cause;
use problems::parts::admissions;
use std::alloc::{AllocError, Global};

/// An entry that has a newer release.
#[derive(Drop)]
pub(crate) struct Outdated<'a> {
    pub(crate) entry: &'a Entry,
    /// The newest version that all that require the entry admit; none where they admit no release of the index.
    pub(crate) admitted: Option<&'a Version>,
    /// The newest version that its name alone or one of those that require it admits.
    pub(crate) newest: &'a Version,
    /// What requires the entry and doesn't admit the newest version.
    pub(crate) holders: Vec<RequiredBy<'a>>,
}

// What requires an entry, with whether each release of its name, from the newest, is admitted.
#[derive(Drop)]
struct AdmittedBy<'a> {
    by: RequiredBy<'a>,
    admits: Seq<bool>,
}

// What the name alone and those that require an entry admit.
#[derive(Drop)]
struct Admitted<'a> {
    by_name: Seq<bool>,
    by_requirers: Vec<AdmittedBy<'a>>,
}

/// The entries of a target's lock that have newer releases in the index of the problem, in their order.
pub(crate) fn outdated_of<'a>(
    alloc: Global,
    lines: &'a [Line],
    target: &'a Target,
    problem: &'a Problem<'a>,
) -> Result<Vec<Outdated<'a>>, AllocError> {
    let requirers = requirers_of(alloc, lines, target, Some(problem))?;
    let mut found = Vec::new(alloc);
    for (entry, own) in target.lock.entries().iter().zip(requirers.as_slice()) {
        add_outdated(alloc, &mut found, problem, entry, own.as_slice())?;
    }
    Ok(found)
}

fn add_outdated<'a>(
    alloc: Global,
    found: &mut Vec<Outdated<'a>>,
    problem: &'a Problem<'a>,
    entry: &'a Entry,
    requirers: &[RequiredBy<'a>],
) -> Result<(), AllocError> {
    let releases = problem.releases(entry.name());
    if !begin_newer(releases, entry) {
        return Ok(());
    }
    let Some(by_name) = admitted_by_name(alloc, problem, entry.name())? else {
        return Ok(());
    };
    let admitted = Admitted {
        by_name,
        by_requirers: admitted_by(alloc, problem, requirers)?,
    };
    let Some(position) = newest_of(releases, &admitted) else {
        return Ok(());
    };
    match newer_at(alloc, entry, releases, position, &admitted)? {
        Some(outdated) => Ok(found.push(outdated)?),
        None => Ok(()),
    }
}

/// Whether the first of the releases is newer than what is locked.
fn begin_newer(releases: &[Release], entry: &Entry) -> bool {
    match releases.first() {
        Some(release) => release.version().cmp(entry.version()).is_gt(),
        None => false,
    }
}

/// Which releases a requirement admits that is the name alone.
fn admitted_by_name(
    alloc: Global,
    problem: &Problem<'_>,
    name: &Name,
) -> Result<Option<Seq<bool>>, AllocError> {
    match Requirement::read(alloc, name.normal()) {
        Ok(wanted) => Ok(Some(admissions(alloc, problem, &wanted)?)),
        Err(Cause::OutOfMemory) => Err(AllocError),
        // A name is a requirement.
        Err(_) => Ok(None),
    }
}

/// What those admit of which it is known what they require.
fn admitted_by<'a>(
    alloc: Global,
    problem: &Problem<'_>,
    requirers: &[RequiredBy<'a>],
) -> Result<Vec<AdmittedBy<'a>>, AllocError> {
    let mut admitted = Vec::with_capacity(alloc, requirers.len())?;
    for by in requirers {
        if let Some(wanted) = by.requirement {
            let admits = admissions(alloc, problem, wanted)?;
            admitted.push(AdmittedBy { by: *by, admits })?;
        }
    }
    Ok(admitted)
}

fn admits(releases: &Seq<bool>, position: usize) -> bool {
    match releases.as_slice().get(position) {
        Some(admits) => *admits,
        None => false,
    }
}

/// Whether the name alone or one of those that require the entry admits the release at a position.
fn does_count(admitted: &Admitted<'_>, position: usize) -> bool {
    if admits(&admitted.by_name, position) {
        return true;
    }
    for one in admitted.by_requirers.as_slice() {
        if admits(&one.admits, position) {
            return true;
        }
    }
    false
}

/// Whether all that require the entry admit the release at a position, and it counts.
fn do_admit(admitted: &Admitted<'_>, position: usize) -> bool {
    for one in admitted.by_requirers.as_slice() {
        if !admits(&one.admits, position) {
            return false;
        }
    }
    does_count(admitted, position)
}

/// The position of the newest release that counts.
fn newest_of(releases: &[Release], admitted: &Admitted<'_>) -> Option<usize> {
    for position in 0..releases.len() {
        if does_count(admitted, position) {
            return Some(position);
        }
    }
    None
}

/// The newest version that all admit that require the entry.
fn admitted_of<'a>(releases: &'a [Release], admitted: &Admitted<'_>) -> Option<&'a Version> {
    for (position, release) in releases.iter().enumerate() {
        if do_admit(admitted, position) {
            return Some(release.version());
        }
    }
    None
}

/// An entry where the release at a position is newer than what is locked.
fn newer_at<'a>(
    alloc: Global,
    entry: &'a Entry,
    releases: &'a [Release],
    position: usize,
    admitted: &Admitted<'a>,
) -> Result<Option<Outdated<'a>>, AllocError> {
    let Some(release) = releases.get(position) else {
        return Ok(None);
    };
    let newest = release.version();
    if !newest.cmp(entry.version()).is_gt() {
        return Ok(None);
    }
    Ok(Some(Outdated {
        entry,
        admitted: admitted_of(releases, admitted),
        newest,
        holders: holders_of(alloc, admitted, position)?,
    }))
}

/// What doesn't admit the release at a position.
fn holders_of<'a>(
    alloc: Global,
    admitted: &Admitted<'a>,
    position: usize,
) -> Result<Vec<RequiredBy<'a>>, AllocError> {
    let mut holders = Vec::new(alloc);
    for one in admitted.by_requirers.as_slice() {
        if !admits(&one.admits, position) {
            holders.push(one.by)?;
        }
    }
    Ok(holders)
}
