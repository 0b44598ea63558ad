// Why a release of an index counts for nothing in a problem.

use crate::absent_release::WantedRelease;
use crate::reasons::Unadmitted;
use crate::wording::Extent;
use lists::Bits;
use pep508::{Cause, Name, Requirement};
use phrases::add_wrapped;
use problems::Problem;
use problems::parts::admits;
use set_refutations::placed::place_of;
use std::alloc::{AllocError, Global};

/// A release that the index has and that counts for nothing in a problem.
#[derive(Drop)]
pub struct Uncounted {
    /// What takes every version of its name.
    every: Requirement,
    /// The place of the release.
    places: Bits,
}

/// The requirement that takes every version of a name.
fn every_version(alloc: Global, name: &Name) -> Result<Option<Requirement>, AllocError> {
    match Requirement::read(alloc, name.normal()) {
        Ok(every) => Ok(Some(every)),
        Err(Cause::OutOfMemory) => Err(AllocError),
        Err(_) => Ok(None),
    }
}

/// A release, where the index has it and it counts for nothing in the problem of the lines as they are.
pub fn uncounted_release(
    alloc: Global,
    problem: &Problem<'_>,
    wanted: WantedRelease<'_>,
) -> Result<Option<Uncounted>, AllocError> {
    let Some(place) = place_of(problem.releases(wanted.name), wanted.version, 0) else {
        return Ok(None);
    };
    let Some(every) = every_version(alloc, wanted.name)? else {
        return Ok(None);
    };
    if admits(problem, &every, wanted.version) {
        return Ok(None);
    }
    let mut places = Bits::new(alloc);
    places.insert(place)?;
    Ok(Some(Uncounted { every, places }))
}

impl Uncounted {
    /// Why it counts for nothing in the problem, which is the one that it was made for. Lines have the width at most.
    pub fn add_reasons(
        &self,
        alloc: Global,
        text: &mut String,
        width: usize,
        problem: &Problem<'_>,
    ) -> Result<(), AllocError> {
        let unadmitted = Unadmitted {
            problem,
            requirement: &self.every,
            places: &self.places,
            extent: Extent::Short,
        };
        let mut sentence = String::from_str(alloc, self.every.name().normal())?;
        sentence.push_str(" ")?;
        unadmitted.add_reasons(alloc, &mut sentence, "")?;
        sentence.push_str(".")?;
        add_wrapped(text, sentence.as_str(), "", width)
    }
}
