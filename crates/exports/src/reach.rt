// Which requirements lines can lead to, whatever the environment.

ghost use Rattle.std.specs.Prelude.{◌≡◌, ◌++◌, ◌∷◌, [], IfOk, IsTrue, OnOk};
ghost use Rattle.std.specs.List.{AllByRecursion, flat_map};
ghost use Rattle.exports.specs.Tied.Kept.{ClauseFollows};
ghost use Rattle.exports.specs.Tied.Reach.{AreAsked, Gathers, IsCovered, IsFollowed, IsWider, needs_below, needs_of, wanted_by};

use crate::implication::does_follow;
use changes::Same;
use lists::Seq;
use pep440::Clause;
use pep508::{Line, Name, Requirement};
use snapshot::{Release, Snapshot};
use std::alloc::{AllocError, Global};
use std::collections::BTreeMap;
use std::marker::Model;

/// Requirements, and at which places those on a name stand. In a clause it is the requirements. Nothing rests on the places: each one
/// that is told is tested.
pub(crate) struct Asked {
    alloc: Global,
    requirements: Seq<Requirement>,
    places: BTreeMap<Name, Vec<usize>>,
}

impl Drop for Asked {
    fn drop(self) {
        let Asked {
            alloc: _,
            requirements: _,
            places: _,
        } = self;
    }
}

impl Model for Asked {
    ghost use Rattle.std.specs.Coded.{codes};
    ghost use Rattle.std.specs.Prelude.{List};
    ghost use Rattle.markers.specs.Tied.MarkerCode.{tree_code};
    ghost use Rattle.pep508.specs.Requirement.{RequirementParts};

    ghost Value = { List RequirementParts };

    ghost coded = { Prim.hlevel (codes, tree_code) };

    ghost view = { λ a. a.requirements };
}

/// Whether the clauses are the same, to the letter.
fn is_same(clause: &Clause, wanted: &Clause) -> bool
    ensures { IsTrue result → clause.now ≡ wanted.now }
{
    clause.operator == wanted.operator && clause.version.is_same(&wanted.version)
}

/// Whether the first clause is known to match no version that the wanted one doesn't.
fn does_say(clause: &Clause, wanted: &Clause) -> bool
    ensures { IsTrue result → ClauseFollows clause.now wanted.now }
{
    if does_follow(clause, wanted) {
        return true;
    }
    is_same(clause, wanted)
}

/// Whether some clause is.
fn is_followed(clauses: &[Clause], wanted: &Clause) -> bool
    ensures { IsTrue result → IsFollowed clauses.now wanted.now }
{
    for clause in clauses {
        if does_say(clause, wanted) {
            return true;
        }
    }
    false
}

/// Whether each of some clauses is followed by one of the others.
fn are_followed(clauses: &[Clause], wide: &[Clause]) -> bool
    ensures { IsTrue result → AllByRecursion (IsFollowed clauses.now) wide.now }
{
    for wanted in wide {
        if !is_followed(clauses, wanted) {
            return false;
        }
    }
    true
}

/// Whether a requirement is on the same name as another, and is known to match each version that this one does.
fn is_wider(wide: &Requirement, wanted: &Requirement) -> bool
    ensures { IsTrue result → IsWider wide.now wanted.now }
{
    if !wide.name().is_same(wanted.name()) {
        return false;
    }
    are_followed(wanted.specifiers().clauses(), wide.specifiers().clauses())
}

/// Whether the requirement at a place, if there is one, is as wide as another.
fn covers_at(asked: &[Requirement], place: usize, wanted: &Requirement) -> bool
    ensures { IsTrue result → IsCovered asked.now wanted.now }
{
    match asked.get(place) {
        Some(wide) => is_wider(wide, wanted),
        None => false,
    }
}

/// Whether the requirement at one of these places is.
fn covers_near(asked: &[Requirement], places: &[usize], wanted: &Requirement) -> bool
    ensures { IsTrue result → IsCovered asked.now wanted.now }
{
    for place in places {
        if covers_at(asked, *place, wanted) {
            return true;
        }
    }
    false
}

impl Asked {
    fn new(alloc: Global) -> Asked
        ensures { result ≡ [] }
    {
        Asked {
            alloc,
            requirements: Seq::new(alloc),
            places: BTreeMap::new(alloc),
        }
    }

    pub(crate) fn requirements(&self) -> &[Requirement]
        ensures { result.now ≡ self.now }
    {
        self.requirements.as_slice()
    }

    /// The places of the requirements on a name.
    fn places(&self, name: &Name) -> &[usize] {
        match self.places.get(name) {
            Some(places) => places.as_slice(),
            None => &[],
        }
    }

    /// Whether one of the requirements is as wide as another.
    fn covers(&self, wanted: &Requirement) -> bool
        ensures { IsTrue result → IsCovered self.now wanted.now }
    {
        covers_near(
            self.requirements.as_slice(),
            self.places(wanted.name()),
            wanted,
        )
    }

    /// Notes at which place a requirement on a name will stand.
    fn note_place(&mut self, name: &Name) -> Result<(), AllocError>
        ensures { OnOk result (self.new ≡ self.old) }
    {
        let place = self.requirements.len();
        if let Some(places) = self.places.get_mut(name) {
            places.push(place)?;
            return Ok(());
        }
        let mut places = Vec::new(self.alloc);
        places.push(place)?;
        self.places.insert(name.clone()?, places)?;
        Ok(())
    }

    fn push(&mut self, wanted: &Requirement) -> Result<(), AllocError>
        ensures { OnOk result (self.new ≡ self.old ++ wanted.now ∷ []) }
    {
        self.note_place(wanted.name())?;
        self.requirements.push(wanted.clone()?)?;
        Ok(())
    }
}

/// Puts a requirement to the others, unless one of them is as wide.
fn gather(asked: &mut Asked, wanted: &Requirement) -> Result<(), AllocError>
    ensures { OnOk result (Gathers asked.old asked.new (wanted.now ∷ [])) }
{
    if asked.covers(wanted) {
        return Ok(());
    }
    asked.push(wanted)?;
    Ok(())
}

/// Gathers requirements.
fn gather_each(asked: &mut Asked, wanted: &[Requirement]) -> Result<(), AllocError>
    ensures { OnOk result (Gathers asked.old asked.new wanted.now) }
{
    for requirement in wanted {
        gather(asked, requirement)?;
    }
    Ok(())
}

/// Gathers what a line asks for.
fn gather_line(asked: &mut Asked, line: &Line) -> Result<(), AllocError>
    ensures { OnOk result (Gathers asked.old asked.new (wanted_by line.now)) }
{
    let Some(wanted) = line.requirement() else {
        return Ok(());
    };
    gather(asked, wanted)?;
    Ok(())
}

/// Gathers what lines ask for.
fn gather_lines(alloc: Global, lines: &[Line]) -> Result<Asked, AllocError>
    ensures { IfOk result (λ asked. Gathers [] asked (flat_map wanted_by lines.now)) }
{
    let mut asked = Asked::new(alloc);
    for line in lines {
        gather_line(&mut asked, line)?;
    }
    Ok(asked)
}

/// Gathers the dependencies of a release, if a requirement matches its version.
fn gather_needs(asked: &mut Asked, above: &Requirement, release: &Release) -> Result<(), AllocError>
    ensures { OnOk result (Gathers asked.old asked.new (needs_of above.now release.now)) }
{
    if !above.specifiers().matches(release.version()) {
        return Ok(());
    }
    gather_each(asked, release.dependencies())?;
    Ok(())
}

/// Gathers what releases depend on that a requirement matches.
fn gather_below(
    asked: &mut Asked,
    snapshot: &Snapshot,
    above: &Requirement,
) -> Result<(), AllocError>
    ensures { OnOk result (Gathers asked.old asked.new (needs_below snapshot.now above.now)) }
{
    let releases = snapshot.releases(above.name());
    for release in releases {
        gather_needs(asked, above, release)?;
    }
    Ok(())
}

/// Requirements that stand for all that lines can ask for: what lines ask for, and the dependencies of each release that one of
/// these matches. One that another stands for is left out.
pub(crate) fn asked_by(
    alloc: Global,
    lines: &[Line],
    snapshot: &Snapshot,
) -> Result<Asked, AllocError>
    ensures { IfOk result (AreAsked lines.now snapshot.now) }
{
    let mut asked = gather_lines(alloc, lines)?;
    for place in 0..usize::MAX {
        let Some(above) = asked.requirements().get(place) else {
            return Ok(asked);
        };
        let above = above.clone()?;
        gather_below(&mut asked, snapshot, &above)?;
    }
    // so many are in no memory
    Err(AllocError)
}
