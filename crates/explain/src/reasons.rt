// Why a requirement doesn't admit releases of its name.

use crate::release_set::ReleaseSet;
use crate::verb::Verb;
use crate::wording::Extent;
use lists::Bits;
use pep508::Requirement;
use phrases::{add_clause, add_plain};
use problems::Problem;
use problems::parts::{Inadmissible, inadmissible};
use snapshot::Release;
use std::alloc::{AllocError, Global};

/// Releases that a requirement of a problem doesn't admit, by their places.
#[derive(Clone, Copy)]
pub struct Unadmitted<'a> {
    pub problem: &'a Problem<'a>,
    pub requirement: &'a Requirement,
    pub places: &'a Bits,
    pub extent: Extent,
}

/// Releases that aren't admitted for one reason. What is needed of Python is a reason of its own.
#[derive(Drop)]
struct ReasonGroup<'a> {
    reason: Inadmissible,
    first: &'a Release,
    places: Bits,
}

/// Whether a release isn't admitted for the reason of the group.
fn belongs_to(group: &ReasonGroup<'_>, reason: Inadmissible, release: &Release) -> bool {
    match (group.reason, reason) {
        (Inadmissible::Clause(place), Inadmissible::Clause(another)) => place == another,
        (Inadmissible::Python, Inadmissible::Python) => {
            python_of(group.first) == python_of(release)
        }
        (Inadmissible::Yanked, Inadmissible::Yanked) => true,
        (Inadmissible::PreRelease, Inadmissible::PreRelease) => true,
        (Inadmissible::YankedPreRelease, Inadmissible::YankedPreRelease) => true,
        _ => false,
    }
}

/// What a release needs of Python.
fn python_of(release: &Release) -> &str {
    match release.requires_python() {
        Some(python) => python.text(),
        None => "",
    }
}

/// Adds a release, with its place, to those of its reason.
fn add_to_group<'a>(
    alloc: Global,
    groups: &mut Vec<ReasonGroup<'a>>,
    reason: Inadmissible,
    release: &'a Release,
    place: usize,
) -> Result<(), AllocError> {
    let found = groups
        .iter()
        .position(|group| belongs_to(group, reason, release));
    if let Some(at) = found {
        if let Some(group) = groups.get_mut(at) {
            group.places.insert(place)?;
        }
        return Ok(());
    }
    let mut places = Bits::new(alloc);
    places.insert(place)?;
    Ok(groups.push(ReasonGroup {
        reason,
        first: release,
        places,
    })?)
}

impl Unadmitted<'_> {
    /// Tells of each of the releases why it isn't admitted. They are told by their versions, with `; `
    /// between two reasons. Behind a clause stands whose it is, where that is given.
    pub fn add_reasons(
        &self,
        alloc: Global,
        text: &mut String,
        of: &str,
    ) -> Result<(), AllocError> {
        let groups = self.groups(alloc)?;
        for (at, group) in groups.as_slice().iter().enumerate() {
            if at > 0 {
                text.push_str("; ")?;
            }
            self.add_group(alloc, text, group)?;
            if let Inadmissible::Clause(_) = group.reason {
                if !of.is_empty() {
                    write!(text, " of {of}")?;
                }
            }
        }
        Ok(())
    }

    /// The releases of the name.
    fn releases(&self) -> &[Release] {
        self.problem.releases(self.requirement.name())
    }

    /// The releases by the reason for which they aren't admitted.
    fn groups(&self, alloc: Global) -> Result<Vec<ReasonGroup<'_>>, AllocError> {
        let mut groups = Vec::new(alloc);
        let listed = self.places.places(alloc)?;
        for place in listed.as_slice() {
            if let Some(release) = self.releases().get(*place) {
                if let Some(reason) = inadmissible(self.problem, self.requirement, release) {
                    add_to_group(alloc, &mut groups, reason, release, *place)?;
                }
            }
        }
        Ok(groups)
    }

    fn add_group(
        &self,
        alloc: Global,
        text: &mut String,
        group: &ReasonGroup<'_>,
    ) -> Result<(), AllocError> {
        let releases = ReleaseSet {
            releases: self.releases(),
            places: &group.places,
            extent: self.extent,
        };
        if let Inadmissible::Clause(place) = group.reason {
            if releases.are_every(alloc)? {
                text.push_str("none matches ")?;
                return self.add_clause_at(text, place);
            }
        }
        releases.add_runs(alloc, text)?;
        releases.add_verb(alloc, text, verb_of(group.reason))?;
        self.add_condition(text, group)
    }

    fn add_clause_at(&self, text: &mut String, place: usize) -> Result<(), AllocError> {
        match self.requirement.specifiers().clauses().get(place) {
            Some(clause) => add_clause(text, clause),
            None => Ok(()),
        }
    }

    /// What stands behind the verb of a reason: what isn't met.
    fn add_condition(&self, text: &mut String, group: &ReasonGroup<'_>) -> Result<(), AllocError> {
        match group.reason {
            Inadmissible::Clause(place) => self.add_clause_at(text, place),
            Inadmissible::Python => {
                add_plain(text, python_of(group.first).trim())?;
                let problem = self.problem;
                let version = problem.environment.full_version();
                write!(text, ", the environment has {version}")
            }
            Inadmissible::Yanked => text.push_str(", and no line pins it with =="),
            Inadmissible::PreRelease => {
                text.push_str(", which counts where a line names one or no final release fits")
            }
            Inadmissible::YankedPreRelease => text.push_str(", and the lines don't let in both"),
        }
    }
}

/// The verb of a reason.
fn verb_of(reason: Inadmissible) -> Verb {
    match reason {
        Inadmissible::Clause(_) => Verb::new(" doesn't match ", " don't match "),
        Inadmissible::Python => Verb::new(" needs Python ", " need Python "),
        Inadmissible::Yanked => Verb::new(" is yanked", " are yanked"),
        Inadmissible::PreRelease => Verb::new(" is a pre-release", " are pre-releases"),
        Inadmissible::YankedPreRelease => {
            Verb::new(" is a yanked pre-release", " are yanked pre-releases")
        }
    }
}
