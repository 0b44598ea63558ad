// Chains: steps of one shape, each of which rests on the one before it alone.

use crate::account::{Account, Derived};
use crate::exclusion::Exclusion;
use crate::sentences::steps::Step;
use crate::sentences::{Sentences, add_node};
use crate::wording::Extent;
use phrases::add_wrapped;
use set_refutations::SetNeed;
use set_refutations::placed::PlacedTerm;
use std::alloc::AllocError;
use std::collections::BTreeMap;

/// How many steps are left out at least.
const LEFT_OUT: usize = 3;

/// A part of what is told, by the places of its steps.
#[derive(Clone, Copy)]
pub enum Part {
    Step(usize),
    /// The steps from the one to the other, which are told together.
    Chain(usize, usize),
}

/// The steps in their order. In short, those of a chain but for its first and its last are told together.
pub fn parts_of(derived: Derived<'_>, steps: &[Step]) -> Result<Vec<Part>, AllocError> {
    let uses = uses_of(derived, steps)?;
    let mut parts = Vec::new(derived.alloc);
    let mut first = 0;
    for place in 0..steps.len() {
        let is_on = derived.extent == Extent::Short && goes_on(derived, steps, &uses, place)?;
        if !is_on {
            add_parts(&mut parts, first, place)?;
            first = place.saturating_add(1);
        }
    }
    Ok(parts)
}

/// How many sentences name each conflict.
fn uses_of(derived: Derived<'_>, steps: &[Step]) -> Result<BTreeMap<usize, usize>, AllocError> {
    let mut uses = BTreeMap::new(derived.alloc);
    for step in steps {
        for exclusion in step.account.exclusions() {
            let count = uses.get(&exclusion.conflict).copied().unwrap_or(0usize);
            uses.insert(exclusion.conflict, count.saturating_add(1))?;
        }
    }
    Ok(uses)
}

/// Whether a step is a link of a chain and the next step is one that rests on it, and no other one does.
fn goes_on(
    derived: Derived<'_>,
    steps: &[Step],
    uses: &BTreeMap<usize, usize>,
    place: usize,
) -> Result<bool, AllocError> {
    let Some(step) = steps.get(place) else {
        return Ok(false);
    };
    let next = place.saturating_add(1);
    let count = uses.get(&step.conflict).copied().unwrap_or(0);
    Ok(count == 1 && is_link(derived, steps, place)? && is_link(derived, steps, next)?)
}

/// Whether a step says that some releases need a package of which the step before rules out all that they need, beside the
/// same others.
fn is_link(derived: Derived<'_>, steps: &[Step], place: usize) -> Result<bool, AllocError> {
    if place == 0 {
        return Ok(false);
    }
    let (Some(step), Some(before)) = (steps.get(place), steps.get(place.saturating_sub(1))) else {
        return Ok(false);
    };
    match (&step.account, derived.need_of(step.conflict)) {
        (Account::Needed(_, exclusions), Some(SetNeed::Term(at))) => {
            Ok(
                are_beside_alike(derived, step, before, at)
                    && !is_held(derived, step)
                    && are_by(derived, exclusions.as_slice(), step, before, at)?,
            )
        }
        _ => Ok(false),
    }
}

/// Whether the second step rules out all that is excluded in the first, but for what the releases of the term at a place
/// don't admit.
fn are_by(
    derived: Derived<'_>,
    exclusions: &[Exclusion],
    step: &Step,
    before: &Step,
    at: usize,
) -> Result<bool, AllocError> {
    let mut is_by = false;
    for exclusion in exclusions {
        if exclusion.conflict == before.conflict {
            is_by = true;
        } else if !is_unadmitted(derived, step, exclusion, at)? {
            return Ok(false);
        }
    }
    Ok(is_by)
}

/// Whether none of the releases of the term at a place admits what is excluded.
fn is_unadmitted(
    derived: Derived<'_>,
    step: &Step,
    exclusion: &Exclusion,
    at: usize,
) -> Result<bool, AllocError> {
    let (Some(conflict), Some(exhausted)) = (
        derived.conflicts.get(step.conflict),
        derived.exhausted(step.conflict),
    ) else {
        return Ok(false);
    };
    match conflict.get(at) {
        Some(term) => derived.each_refuses(term, &exhausted.sought.node.name, &exclusion.places),
        None => Ok(false),
    }
}

/// Whether the conflict of a step but for the term at a place is that of the step before but for one term.
fn are_beside_alike(derived: Derived<'_>, step: &Step, before: &Step, at: usize) -> bool {
    let (Some(conflict), Some(earlier)) = (
        derived.conflicts.get(step.conflict),
        derived.conflicts.get(before.conflict),
    ) else {
        return false;
    };
    conflict.len() == earlier.len()
        && conflict.iter().enumerate().all(|(place, term)| {
            place == at || earlier.iter().any(|other| term.is_same(other))
        })
}

fn is_held(derived: Derived<'_>, step: &Step) -> bool {
    match derived.exhausted(step.conflict) {
        Some(exhausted) => derived.problem.is_held(&exhausted.sought.node.name),
        None => false,
    }
}

/// The steps from one to another: those between the two together, where they are many.
fn add_parts(parts: &mut Vec<Part>, first: usize, last: usize) -> Result<(), AllocError> {
    let behind = first.saturating_add(1);
    if last.saturating_sub(behind) >= LEFT_OUT {
        parts.push(Part::Step(first))?;
        parts.push(Part::Chain(behind, last.saturating_sub(1)))?;
        return Ok(parts.push(Part::Step(last))?);
    }
    for place in first..last.saturating_add(1) {
        parts.push(Part::Step(place))?;
    }
    Ok(())
}

impl Sentences<'_> {
    /// The steps of a chain from the one to the other: how many packages they tell of, and from which to which.
    pub fn add_chain(
        &self,
        text: &mut String,
        first: usize,
        last: usize,
    ) -> Result<(), AllocError> {
        let from = first.saturating_add(1);
        let to = last.saturating_add(1);
        let count = to.saturating_sub(first);
        let mut sentence = format!(in self.alloc;
            "{from} to {to}. So it goes on through {count} packages, from "
        )?;
        self.add_link(&mut sentence, first)?;
        sentence.push_str(" to ")?;
        self.add_link(&mut sentence, last)?;
        sentence.push_str(": each needs the one before it, which is ruled out by the step before")?;
        if let Some(step) = self.steps.get(first) {
            if let Some(conflict) = self.derived.conflicts.get(step.conflict) {
                let need = self.derived.need_of(step.conflict);
                self.add_beside(&mut sentence, conflict.as_slice(), need, " ", "")?;
            }
        }
        sentence.push_str(".")?;
        add_wrapped(text, sentence.as_str(), "   ", self.width)
    }

    /// The node of a link.
    fn add_link(&self, text: &mut String, place: usize) -> Result<(), AllocError> {
        match self.link_at(place) {
            Some(term) => add_node(text, &term.node),
            None => Ok(()),
        }
    }

    /// The term of a step that needs what the step before rules out.
    pub fn link_at(&self, place: usize) -> Option<&PlacedTerm> {
        let step = self.steps.get(place)?;
        match self.derived.need_of(step.conflict)? {
            SetNeed::Term(at) => self.derived.conflicts.get(step.conflict)?.get(at),
            SetNeed::Line(_) => None,
        }
    }
}
