// The releases that were left out of the index, and might have mattered.

use crate::account::Account;
use crate::sentences::Sentences;
use crate::sentences::chain::Part;
use crate::sentences::steps::Step;
use crate::sides::{Party, party_of};
use pep440::{Fault, Version};
use pep508::Name;
use phrases::skipped_text::add_skipped;
use set_refutations::placed::PlacedTerm;
use snapshot::{SkipCause, Skipped};
use std::alloc::AllocError;
use std::collections::BTreeSet;

impl Sentences<'_> {
    /// The releases that were left out of the index, of the names that are told: those that might have been taken.
    pub fn add_left_out(&self, text: &mut String, parts: &[Part]) -> Result<(), AllocError> {
        let mut names = BTreeSet::new(self.alloc);
        for part in parts {
            self.add_part_names(&mut names, *part)?;
        }
        let problem = self.problem;
        for name in names.iter() {
            for (place, skipped) in problem.snapshot.skipped().iter().enumerate() {
                if self.could_matter(skipped)? {
                    self.add_skipped_at(text, place, name)?;
                }
            }
        }
        Ok(())
    }

    /// The release that was left out at a place, where it is of this name.
    fn add_skipped_at(
        &self,
        text: &mut String,
        place: usize,
        name: &Name,
    ) -> Result<(), AllocError> {
        let problem = self.problem;
        match problem
            .snapshot
            .skipped()
            .get(place..place.saturating_add(1))
        {
            Some(skipped) => add_skipped(text, skipped, name),
            None => Ok(()),
        }
    }

    /// The names that a part tells.
    fn add_part_names(&self, names: &mut BTreeSet<Name>, part: Part) -> Result<(), AllocError> {
        match part {
            Part::Step(place) => match self.steps.get(place) {
                Some(step) => self.add_names(names, step),
                None => Ok(()),
            },
            Part::Chain(first, last) => {
                for place in [first, last] {
                    if let Some(term) = self.link_at(place) {
                        names.insert(term.node.name.clone()?)?;
                    }
                }
                Ok(())
            }
        }
    }

    /// The names that a step is about.
    pub fn add_names(&self, names: &mut BTreeSet<Name>, step: &Step) -> Result<(), AllocError> {
        if let Some(conflict) = self.derived.conflicts.get(step.conflict) {
            for term in conflict.as_slice() {
                names.insert(term.node.name.clone()?)?;
            }
        }
        if let Some(exhausted) = self.derived.exhausted(step.conflict) {
            names.insert(exhausted.sought.node.name.clone()?)?;
        }
        Ok(())
    }

    /// Whether a release that was left out could have been taken: its version doesn't read, or it matches the lines that are
    /// told and all that a step says is asked of the name. One whose version another release has couldn't.
    fn could_matter(&self, skipped: &Skipped) -> Result<bool, AllocError> {
        if let SkipCause::Duplicate = skipped.cause() {
            return Ok(false);
        }
        match Version::parse(self.alloc, skipped.version()) {
            Ok(version) => {
                let name = skipped.package();
                Ok(
                    self.may_be_kept(name, &version)
                        && self.lines_match(name, &version)
                        && self.need_matches(name, &version),
                )
            }
            Err(Fault::OutOfMemory) => Err(AllocError),
            Err(_) => Ok(true),
        }
    }

    /// Whether the lock keeps no other version alone.
    fn may_be_kept(&self, name: &Name, version: &Version) -> bool {
        let problem = self.problem;
        match problem.kept.get(name) {
            Some(kept) => !problem.only_kept || kept.cmp(version).is_eq(),
            None => true,
        }
    }

    /// Whether a version matches each line on its name that is told.
    fn lines_match(&self, name: &Name, version: &Version) -> bool {
        self.cited
            .iter()
            .all(|place| self.line_matches(*place, name, version))
    }

    /// Whether a version matches a line, where that is on its name.
    fn line_matches(&self, place: usize, name: &Name, version: &Version) -> bool {
        match self.line_requirement(place) {
            Some(wanted) => wanted.name() != name || wanted.specifiers().matches(version),
            None => true,
        }
    }

    /// Whether a version matches what a step tells that is needed of its name.
    fn need_matches(&self, name: &Name, version: &Version) -> bool {
        self.steps
            .iter()
            .any(|step| self.step_matches(step, name, version))
    }

    fn step_matches(&self, step: &Step, name: &Name, version: &Version) -> bool {
        let Some(exhausted) = self.derived.exhausted(step.conflict) else {
            return false;
        };
        if exhausted.sought.node.name != *name {
            return false;
        }
        match (&step.account, exhausted.need) {
            (Account::Sides(sides), _) => sides
                .as_slice()
                .iter()
                .all(|side| self.party_matches(step, side.party, name, version)),
            (_, Some(need)) => self.party_matches(step, party_of(need), name, version),
            _ => false,
        }
    }

    /// Whether a version matches a line that is told, or what one of the releases of a term needs.
    fn party_matches(&self, step: &Step, party: Party, name: &Name, version: &Version) -> bool {
        match party {
            Party::Line(place) => self.line_matches(place, name, version),
            Party::Term(at) => match self.derived.conflicts.get(step.conflict) {
                Some(conflict) => match conflict.get(at) {
                    Some(term) => self.term_matches(term, name, version),
                    None => false,
                },
                None => false,
            },
            // `may_be_kept` asks that
            Party::Lock => true,
        }
    }

    /// Whether a version matches what one of the releases of a term needs of the name.
    fn term_matches(&self, term: &PlacedTerm, name: &Name, version: &Version) -> bool {
        let needing = self.needing(term, name);
        for (place, release) in needing.releases().iter().enumerate() {
            if term.places.has(place)
                && release.dependencies().iter().any(|dependency| {
                    needing.is_by(dependency) && dependency.specifiers().matches(version)
                })
            {
                return true;
            }
        }
        false
    }
}
