// Why a lock hasn't a release.

use crate::asked::{Asked, Asking};
use crate::dependencies::bare_node;
use crate::release_set::add_listed;
use crate::walk::next_name;
use crate::wording::Extent;
use lists::{Bits, copy_of};
use pep440::Version;
use pep508::Name;
use phrases::add_wrapped;
use problems::{Node, Problem};
use set_refutations::placed::{PlacedTerm, place_of};
use std::alloc::{AllocError, Global};
use std::collections::BTreeMap;

/// A release that a question is about.
#[derive(Clone, Copy)]
pub struct WantedRelease<'a> {
    pub name: &'a Name,
    pub version: &'a Version,
}

/// Where a walk takes another version than the lock has.
#[derive(Drop)]
struct Difference {
    name: Name,
    locked: Option<Version>,
    best: Option<Version>,
    /// What is taken before it, which the lock has too.
    before: BTreeMap<Name, Version>,
}

/// What a release needs of the name of another one, which isn't one of these releases.
#[derive(Drop)]
struct Need<'a> {
    of: WantedRelease<'a>,
    name: &'a Name,
    asked: Asked,
}

impl Need<'_> {
    fn add(&self, text: &mut String) -> Result<(), AllocError> {
        let name = self.of.name.normal();
        let version = self.of.version;
        write!(text, "{name} {version} needs ")?;
        self.asked.add_needed(text, self.name.normal())
    }
}

/// How many names that are taken before one are told.
const BEFORE: usize = 3;

/// Why a lock hasn't a release with which there is a solution, given the best one: the first name on
/// the walk, in its order, for which both have another version. The problem keeps the versions of the lock. Lines have the
/// width at most.
pub fn add_difference(
    alloc: Global,
    text: &mut String,
    width: usize,
    problem: &Problem<'_>,
    wanted: WantedRelease<'_>,
    best: &BTreeMap<Name, Version>,
) -> Result<(), AllocError> {
    let mut sentence = String::new(alloc);
    match first_difference(alloc, problem, best)? {
        Some(difference) => wanted.add_difference(alloc, &mut sentence, problem, &difference)?,
        None => add_same(&mut sentence, wanted)?,
    }
    add_wrapped(text, sentence.as_str(), "", width)
}

/// The first name on the walk that the lock and the best solution give another version.
fn first_difference(
    alloc: Global,
    problem: &Problem<'_>,
    best: &BTreeMap<Name, Version>,
) -> Result<Option<Difference>, AllocError> {
    let mut taken = BTreeMap::new(alloc);
    for _ in 0..best.len() {
        let Some(name) = next_name(alloc, problem, &taken)? else {
            return Ok(None);
        };
        let locked = problem.kept.get(&name);
        let chosen = best.get(&name);
        if !are_same(locked, chosen) {
            return Ok(Some(Difference {
                locked: copy_of(locked)?,
                best: copy_of(chosen)?,
                name,
                before: taken,
            }));
        }
        let Some(version) = chosen else {
            return Ok(None);
        };
        taken.insert(name, version.clone()?)?;
    }
    Ok(None)
}

fn are_same(locked: Option<&Version>, chosen: Option<&Version>) -> bool {
    match (locked, chosen) {
        (Some(locked), Some(chosen)) => locked.cmp(chosen).is_eq(),
        (None, None) => true,
        _ => false,
    }
}

/// That the lock has the release.
pub fn add_same(text: &mut String, wanted: WantedRelease<'_>) -> Result<(), AllocError> {
    let name = wanted.name.normal();
    let version = wanted.version;
    write!(text, "{name} {version} is locked.")
}

impl<'a> WantedRelease<'a> {
    /// What the best solution with it has in place of what is locked.
    fn add_difference(
        &self,
        alloc: Global,
        text: &mut String,
        problem: &Problem<'_>,
        difference: &Difference,
    ) -> Result<(), AllocError> {
        let name = self.name.normal();
        let version = self.version;
        let other = difference.name.normal();
        match (&difference.locked, &difference.best) {
            (Some(locked), _) if other == name => self.add_kept(text, locked),
            (Some(locked), Some(best)) => {
                write!(
                    text,
                    "With {name} {version} no solution keeps {other} at {locked}"
                )?;
                let kept = WantedRelease {
                    name: &difference.name,
                    version: locked,
                };
                self.add_hindrance(alloc, text, problem, kept, &difference.before)?;
                write!(text, " best one has {other} {best}.")
            }
            (None, Some(best)) => {
                write!(
                    text,
                    "With {name} {version} the best solution has {other} {best}, which isn't locked."
                )
            }
            _ => write!(
                text,
                "With {name} {version} the best solution hasn't {other}, which is locked."
            ),
        }
    }

    /// Why no solution with the release keeps another one, and how the sentence on the best one begins.
    fn add_hindrance(
        &self,
        alloc: Global,
        text: &mut String,
        problem: &Problem<'_>,
        kept: WantedRelease<'_>,
        before: &BTreeMap<Name, Version>,
    ) -> Result<(), AllocError> {
        match self.hindrance(alloc, problem, kept)? {
            Some(need) => {
                text.push_str(", which is taken first: ")?;
                need.add(text)?;
                text.push_str(". The")
            }
            None => {
                add_before(alloc, text, before)?;
                text.push_str("; the")
            }
        }
    }

    /// Why the release doesn't go with another one that is taken before it, where one of them needs the other's name in
    /// another version.
    fn hindrance<'r>(
        &self,
        alloc: Global,
        problem: &Problem<'_>,
        kept: WantedRelease<'r>,
    ) -> Result<Option<Need<'r>>, AllocError>
    where
        'a: 'r,
    {
        match kept.need(alloc, problem, *self)? {
            Some(need) => Ok(Some(need)),
            None => self.need(alloc, problem, kept),
        }
    }

    /// What the release needs of another name, where that isn't the version that the other one has.
    fn need<'r>(
        &self,
        alloc: Global,
        problem: &Problem<'_>,
        other: WantedRelease<'r>,
    ) -> Result<Option<Need<'r>>, AllocError>
    where
        'a: 'r,
    {
        let (Some(own), Some(place)) = (
            place_of(problem.releases(self.name), self.version, 0),
            place_of(problem.releases(other.name), other.version, 0),
        ) else {
            return Ok(None);
        };
        let mut places = Bits::new(alloc);
        places.insert(own)?;
        let node = Node {
            name: self.name.clone()?,
            extra: None,
        };
        let term = PlacedTerm::new(node, places);
        let asking = Asking {
            alloc,
            problem,
            extent: Extent::Short,
        };
        let asked = asking.by_term(&term, &bare_node(other.name))?;
        if asked.places.has(place) {
            return Ok(None);
        }
        Ok(Some(Need {
            of: *self,
            name: other.name,
            asked,
        }))
    }

    /// That the lock keeps a version for which nothing else would have to change.
    fn add_kept(&self, text: &mut String, locked: &Version) -> Result<(), AllocError> {
        let name = self.name.normal();
        let version = self.version;
        write!(
            text,
            "{name} stays at {locked}, since the lock has it; with {version} no name that is taken before it would change."
        )?;
        if version.cmp(locked).is_gt() {
            return write!(text, " 'upgrade {name}' takes {version} or a newer one.");
        }
        write!(text, " A requirement {name}=={version} takes it.")
    }
}

/// What is taken before a name: no solution that has it keeps the name.
fn add_before(
    alloc: Global,
    text: &mut String,
    before: &BTreeMap<Name, Version>,
) -> Result<(), AllocError> {
    let count = before.len();
    if count == 0 {
        return text.push_str(", which is taken first");
    }
    if count > BEFORE {
        return write!(text, " beside the {count} names that are taken before it");
    }
    let mut items = Vec::new(alloc);
    for (name, version) in before.iter() {
        let name = name.normal();
        items.push(format!(in alloc; "{name} {version}")?)?;
    }
    text.push_str(" beside ")?;
    add_listed(text, items.as_slice(), "and")?;
    text.push_str(if count == 1 {
        ", which is"
    } else {
        ", which are"
    })?;
    text.push_str(" taken before it")
}
