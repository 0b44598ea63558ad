// Requirements.

ghost use Rattle.lists.specs.Answers.{Answers};
ghost use Rattle.std.specs.Prelude.{◌≡◌, None};
ghost use Rattle.std.specs.Option.{option_copied};
ghost use Rattle.markers.specs.Faults.{memory_fault, one_line};
ghost use Rattle.markers.specs.declared.fault.Cause.TheVariants.{OutOfMemory};
ghost use Rattle.pep440.specs.Text.{pieces};
ghost use Rattle.pep508.specs.Requirement as spec;

use crate::condition::Condition;
use crate::cuts::inside;
use crate::parts::begins_with;
use crate::slices::{Slices, slices_with};
use lists::{Faithful, Seq, is_blank, trim, trim_start};
use markers::{Cause, Environment, Fault, Marker, Name};
use pep440::SpecifierSet;
use std::alloc::{AllocError, Global};
use std::marker::Model;
use std::rc::Rc;

/// The parts of a requirement.
struct Parts {
    name: Name,
    extras: Seq<Name>,
    specifiers: SpecifierSet,
    condition: Condition,
}

impl Drop for Parts {
    fn drop(self) {
        let Parts {
            name: _,
            extras: _,
            specifiers: _,
            condition: _,
        } = self;
    }
}

/// What a line or a release asks for: a project by its name, extras of it, specifiers that its
/// version has to match, and a marker that says where it counts (PEP 508, "Grammar"). Clones of a
/// requirement share it.
pub struct Requirement {
    shared: Rc<Parts>,
}

impl Drop for Requirement {
    fn drop(self) {
        let Requirement { shared: _ } = self;
    }
}

impl Model for Requirement {
    ghost use Rattle.std.specs.Coded.{codes};
    ghost use Rattle.markers.specs.Tied.MarkerCode.{tree_code};
    ghost use Rattle.pep508.specs.Requirement.{RequirementParts};

    ghost Value = { RequirementParts };

    ghost coded = { Prim.hlevel (codes, tree_code) };

    ghost view = { λ r. record {
      name = r.shared.value.name;
      extras = r.shared.value.extras;
      clauses = r.shared.value.specifiers;
      marker = r.shared.value.condition;
    } };
}

/// The names between the commas of a text, each freed of the space around it.
fn names_of(alloc: Global, text: &str) -> Result<Seq<Name>, Cause>
    ensures { Answers OutOfMemory (spec.names_of (pieces text.now)) result }
{
    let mut names = Seq::new(alloc);
    for piece in text.split(',') {
        let name = Name::read(alloc, trim(piece))?;
        let Ok(()) = names.push(name) else {
            return Err(Cause::OutOfMemory);
        };
    }
    Ok(names)
}

/// The extras of their slice.
fn extras_of(alloc: Global, extras: &str) -> Result<Seq<Name>, Cause>
    ensures { Answers OutOfMemory (spec.extras_of extras.now) result }
{
    if extras.is_empty() {
        return Ok(Seq::new(alloc));
    }
    let Some(text) = inside(b'[', b']', extras) else {
        return Err(Cause::BadName);
    };
    if is_blank(text) {
        return Ok(Seq::new(alloc));
    }
    names_of(alloc, text)
}

/// The set that a version slice is, with parentheses around it or not.
fn set_text(version: &str) -> &str
    ensures { result.now ≡ spec.set_text version.now }
{
    match inside(b'(', b')', version) {
        Some(text) => text,
        None => version,
    }
}

/// The clauses of a version slice.
fn clauses_of(alloc: Global, version: &str) -> Result<SpecifierSet, Cause>
    ensures { Answers OutOfMemory (spec.clauses_of version.now) result }
{
    if begins_with(b'@', version) {
        return Err(Cause::UrlRequirement);
    }
    let specifiers = SpecifierSet::parse(alloc, set_text(version))?;
    Ok(specifiers)
}

/// The marker of its slice.
fn condition_of(alloc: Global, marker: &str) -> Result<Condition, Cause>
    ensures { Answers OutOfMemory (spec.condition_of marker.now) result }
{
    if !begins_with(b';', marker) {
        return Ok(Condition::none());
    }
    let marker = Marker::read(alloc, &marker[1..])?;
    Ok(Condition::of_marker(alloc, marker)?)
}

/// The requirement of its slices.
fn wanted_in(alloc: Global, slices: &Slices<'_>) -> Result<Requirement, Cause>
    ensures { Answers OutOfMemory (spec.wanted_in slices.now) result }
{
    let name = Name::read(alloc, slices.name)?;
    let extras = extras_of(alloc, slices.extras)?;
    let specifiers = clauses_of(alloc, slices.version)?;
    let condition = condition_of(alloc, slices.marker)?;
    let parts = Parts {
        name,
        extras,
        specifiers,
        condition,
    };
    let shared = Rc::new(alloc, parts)?;
    Ok(Requirement { shared })
}

impl Requirement {
    /// Reads a requirement; space may stand around it. The first fault from the left is answered:
    /// `BadName` (of the name or of extras), `UrlRequirement`, `Specifier`, the marker's.
    pub fn parse(alloc: Global, text: &str) -> Result<Requirement, Fault>
        ensures { Answers memory_fault (one_line (spec.requirement_text text.now)) result }
    {
        match Requirement::read(alloc, text) {
            Ok(requirement) => Ok(requirement),
            Err(cause) => Err(Fault::at(1, cause)),
        }
    }

    /// Reads a requirement, as `parse` does; the fault is its cause alone.
    pub fn read(alloc: Global, text: &str) -> Result<Requirement, Cause>
        ensures { Answers OutOfMemory (spec.requirement_text text.now) result }
    {
        Requirement::asked_in(alloc, trim_start(text))
    }

    /// Reads a requirement that no space leads.
    #[tactic(auto, unfolding(crate::specs::Requirement::asked_in))]
    pub(crate) fn asked_in(alloc: Global, text: &str) -> Result<Requirement, Cause>
        ensures { Answers OutOfMemory (spec.asked_in text.now) result }
    {
        wanted_in(alloc, &slices_with("", text, "", ""))
    }

    /// The name, in normal form.
    pub fn name(&self) -> &Name
        ensures { result.now ≡ self.now.name }
    {
        &self.shared.as_ref().name
    }

    /// The extras in the order in which they are written.
    pub fn extras(&self) -> &[Name]
        ensures { result.now ≡ self.now.extras }
    {
        self.shared.as_ref().extras.as_slice()
    }

    /// The specifiers; none where every version is admitted.
    pub fn specifiers(&self) -> &SpecifierSet
        ensures { result.now ≡ self.now.clauses }
    {
        &self.shared.as_ref().specifiers
    }

    /// The marker, where there is one.
    pub fn marker(&self) -> Option<&Marker>
        ensures { option_copied result ≡ self.now.marker }
    {
        self.shared.as_ref().condition.marker()
    }

    /// Whether the requirement counts in an environment: it has no marker, or its marker holds with
    /// no extra.
    pub fn is_active(&self, environment: &Environment) -> bool
        ensures { result ≡ spec.is_active self.now environment.now }
    {
        match self.marker() {
            None => true,
            Some(marker) => marker.holds(environment, None),
        }
    }
}

impl Clone for Requirement {
    ghost is_clone = { λ r q. q ≡ r };

    fn clone(&self) -> Result<Requirement, AllocError> {
        let shared = self.shared.clone()?;
        Ok(Requirement { shared })
    }
}

impl Faithful for Requirement {
    ghost clone_is_source = { λ x y h. h };
}
