// The dependencies of a release, by the extras that their markers name.

ghost use Rattle.std.specs.Prelude.{◌≡◌, ◌<◌, ℕ, IfOk, List, None, OnOk, Some, get_or, if◌then◌else◌, length};
ghost use Rattle.std.specs.List.{filter, slice_get};
ghost use Rattle.std.specs.Str.{bytes_eq};
ghost use Rattle.problems.specs.Rules.{counts};
ghost use Rattle.problems.specs.Tied.ByExtra as spec;
ghost use Rattle.problems.specs.Tied.OwnNeeds.{named_wants};

use crate::releases::counts;
use crate::wanted::push_counted;
use lists::{Lent, Seq};
use markers::marker_extras::other_extras_are_as_none;
use pep508::{Environment, Name, Requirement};
use std::alloc::{AllocError, Global};
use std::collections::BTreeMap;
use std::marker::Model;

/// The dependencies of a release in an environment, by the extras that their markers name. An extra that
/// a marker doesn't name is as none to it, so a node with an extra needs a test of those alone that name
/// it, and of those that count with none.
pub(crate) struct ByExtra<'q> {
    environment: &'q Environment,
    dependencies: &'q [Requirement],
    /// The places of those that count with no extra. They rise, and so do those below.
    bare: Seq<usize>,
    /// For each extra the places of those whose markers name it.
    named: BTreeMap<Name, Seq<usize>>,
}

impl<'q> Drop for ByExtra<'q> {
    fn drop(self) {
        let ByExtra {
            environment: _,
            dependencies: _,
            bare: _,
            named: _,
        } = self;
    }
}

impl<'q> Model for ByExtra<'q> {
    ghost use Rattle.std.specs.Coded.{codes};
    ghost use Rattle.markers.specs.Tied.MarkerCode.{tree_code};
    ghost use Rattle.problems.specs.Tied.ByExtra.{AreGrouped, Depending};

    ghost Value = { Depending };

    ghost coded = { Prim.hlevel (codes, tree_code) };

    ghost view = { λ g. record {
      environment = g.environment.now;
      dependencies = g.dependencies.now;
    } };

    ghost invariant = { λ g. AreGrouped g.environment.now g.dependencies.now g.bare g.named };
}

/// The places of the dependencies that count with no extra.
fn bare_places(
    alloc: Global,
    environment: &Environment,
    dependencies: &[Requirement],
) -> Result<Seq<usize>, AllocError>
    ensures { IfOk result
        (λ bare. bare ≡ spec.places (counts environment.now None) 0 dependencies.now) }
{
    let mut bare = Vec::new(alloc);
    for place in 0..dependencies.len() {
        let dependency = &dependencies[place];
        if counts(environment, None, dependency) {
            bare.push(place)?;
        }
    }
    Ok(Seq::from_vec(bare))
}

/// Whether a place stands at the end.
fn is_last(place: usize, listed: &[usize]) -> bool
    ensures { result ≡ spec.is_last place listed.now }
{
    match listed.last() {
        Some(last) => *last == place,
        None => false,
    }
}

/// Puts a place at the end, where it isn't there.
fn put_last(listed: &mut Seq<usize>, place: usize) -> Result<(), AllocError>
    ensures { OnOk result (listed.new ≡ spec.put_last place listed.old) }
{
    if !is_last(place, listed.as_slice()) {
        listed.push(place)?;
    }
    Ok(())
}

/// Lists a place for an extra.
fn list(
    alloc: Global,
    named: &mut BTreeMap<Name, Seq<usize>>,
    extra: &Name,
    place: usize,
) -> Result<(), AllocError>
    ensures { OnOk result ((other : List ℕ) → spec.listed_for named.new other
        ≡ (if bytes_eq extra.now other then spec.put_last place (spec.listed_for named.old other)
        else spec.listed_for named.old other)) }
{
    let mut listed = match named.remove(extra) {
        Some(listed) => listed,
        None => Seq::new(alloc),
    };
    put_last(&mut listed, place)?;
    named.insert(extra.clone()?, listed)?;
    Ok(())
}

/// Lists the place of a dependency for each extra that its marker names.
fn list_extras(
    alloc: Global,
    named: &mut BTreeMap<Name, Seq<usize>>,
    dependency: &Requirement,
    place: usize,
) -> Result<(), AllocError>
    ensures { OnOk result ((other : List ℕ) → spec.listed_for named.new other
        ≡ (if spec.names_extra other dependency.now then
        spec.put_last place (spec.listed_for named.old other)
        else spec.listed_for named.old other)) }
{
    let Some(marker) = dependency.marker() else {
        return Ok(());
    };
    let extras = marker.extras(alloc)?;
    let names = extras.as_slice();
    for extra in names {
        list(alloc, named, extra, place)?;
    }
    Ok(())
}

/// For each extra the places of the dependencies whose markers name it.
fn named_places(
    alloc: Global,
    dependencies: &[Requirement],
) -> Result<BTreeMap<Name, Seq<usize>>, AllocError>
    ensures { IfOk result (λ named. (extra : List ℕ)
        → spec.listed_for named extra ≡ spec.places (spec.names_extra extra) 0 dependencies.now) }
{
    let mut named = BTreeMap::new(alloc);
    for place in 0..dependencies.len() {
        let dependency = &dependencies[place];
        list_extras(alloc, &mut named, dependency, place)?;
    }
    Ok(named)
}

/// The first place of a list.
fn first(places: &[usize]) -> Option<usize>
    ensures { result ≡ slice_get places.now 0 }
{
    match places.first() {
        None => None,
        Some(place) => Some(*place),
    }
}

/// The lesser of the first places of two lists.
fn least(first: &[usize], second: &[usize]) -> Option<usize>
    ensures { result ≡ spec.least first.now second.now }
{
    match (first.first(), second.first()) {
        (None, None) => None,
        (None, Some(n)) => Some(*n),
        (Some(m), None) => Some(*m),
        (Some(m), Some(n)) => { if *n < *m { Some(*n) } else { Some(*m) } }
    }
}

/// The places without the first one, where it is this.
fn behind(place: usize, places: &[usize]) -> &[usize]
    ensures { result.now ≡ spec.behind place places.now }
{
    match places {
        [] => places,
        [first, rest @ ..] => { if *first == place { rest } else { places } }
    }
}

impl<'q> ByExtra<'q> {
    pub(crate) fn new(
        alloc: Global,
        environment: &'q Environment,
        dependencies: &'q [Requirement],
    ) -> Result<ByExtra<'q>, AllocError>
        ensures { IfOk result
            (λ grouped. grouped
            ≡ record { environment = environment.now; dependencies = dependencies.now }) }
    {
        let bare = bare_places(alloc, environment, dependencies)?;
        let named = named_places(alloc, dependencies)?;
        Ok(ByExtra {
            environment,
            dependencies,
            bare,
            named,
        })
    }

    /// The places of the dependencies whose markers name an extra.
    fn naming(&self, extra: &Name) -> &[usize]
        ensures { result.now ≡ spec.places (spec.names_extra extra.now) 0 self.now.dependencies }
    {
        match self.named.get(extra) {
            Some(listed) => listed.as_slice(),
            None => &[],
        }
    }

    /// The places of the dependencies that count with no extra.
    fn bare(&self) -> &[usize]
        ensures { result.now
            ≡ spec.places (counts self.now.environment None) 0 self.now.dependencies }
    {
        self.bare.as_slice()
    }

    /// The dependency at a place.
    fn at(&self, place: usize) -> &'q Requirement
        requires { place < length self.now.dependencies }
        ensures { result.now ≡ get_or self.now.dependencies place result.now }
    {
        let dependencies = self.dependencies;
        &dependencies[place]
    }

    /// The dependencies that count with an extra, in their order.
    pub(crate) fn counted(
        &self,
        alloc: Global,
        extra: &Name,
    ) -> Result<Lent<'q, Requirement>, AllocError>
        ensures { IfOk result
            (λ wanted. wanted
            ≡ filter (counts self.now.environment (Some extra.now)) self.now.dependencies) }
    {
        other_extras_are_as_none();
        let mut wanted = Lent::new(alloc);
        let mut bare = self.bare();
        let mut naming = self.naming(extra);
        'places: while let Some(place) = least(bare, naming) {
            let dependency = self.at(place);
            push_counted(&mut wanted, self.environment, Some(extra), dependency)?;
            bare = behind(place, bare);
            naming = behind(place, naming);
        }
        Ok(wanted)
    }

    /// The dependencies that name an extra and count with it, in their order.
    pub(crate) fn own(
        &self,
        alloc: Global,
        extra: &Name,
    ) -> Result<Lent<'q, Requirement>, AllocError>
        ensures { IfOk result
            (λ wanted. wanted
            ≡ named_wants self.now.environment extra.now self.now.dependencies) }
    {
        let mut wanted = Lent::new(alloc);
        let mut naming = self.naming(extra);
        'places: while let Some(place) = first(naming) {
            let dependency = self.at(place);
            push_counted(&mut wanted, self.environment, Some(extra), dependency)?;
            naming = behind(place, naming);
        }
        Ok(wanted)
    }
}
