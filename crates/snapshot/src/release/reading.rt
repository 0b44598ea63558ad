// Reading the releases of a package.

ghost use Rattle.std.specs.Prelude.{◌≡◌, ◌+◌, ◌++◌, IfOk, IsOkUnless, Ok, OnOk, not};
ghost use Rattle.std.specs.BTreeSet.{insert_key};
ghost use Rattle.std.specs.List.{list_any};
ghost use Rattle.serde_json.specs.View.{items_view, view};
ghost use Rattle.snapshot.specs.Tied.Gathering.{gathered_view, kept_view, gather_release, left_out, nothing};
ghost use Rattle.snapshot.specs.Releases.{has_version_of, newer_cmp, release_of, releases_in};
ghost use Rattle.snapshot.specs.Shape.{Gives, below, place_path};
ghost use Rattle.snapshot.specs.declared.fault.Fault.TheVariants.{OutOfMemory};

use crate::fault::Fault;
use crate::known::Known;
use crate::listed::listed_of;
use crate::release::{Newest, Release};
use crate::shape::below_place;
use crate::skipped::{SkipCause, Skipped};
use crate::usable::{ReleaseOutcome, outcome_of};
use lists::{Seq, Text};
use pep508::Name;
use serde_json::Value;
use std::alloc::{AllocError, Global};
use std::collections::BTreeSet;

/// The releases of a package that can be used, the newest first, and those that are left out.
#[derive(Drop)]
pub(crate) struct ReadReleases {
    pub(crate) releases: Seq<Release>,
    pub(crate) skipped: Seq<Skipped>,
}

/// The releases of a package that were gone through.
#[derive(Drop)]
pub(crate) struct Gathering {
    newest: BTreeSet<Newest>,
    skipped: Vec<Skipped>,
}

impl Gathering {
    /// No release.
    pub(crate) fn new(alloc: Global) -> Gathering
        ensures { gathered_view 0 result ≡ nothing }
    {
        Gathering {
            newest: BTreeSet::new(alloc),
            skipped: Vec::new(alloc),
        }
    }
}

/// What comes of the release that a value lists.
#[tactic(auto, unfolding(crate::specs::Releases::release_of))]
fn release_of(alloc: Global, known: &mut Known, value: Value) -> Result<ReleaseOutcome, Fault>
    ensures { Gives (λ o. o) (release_of (view value)) result }
{
    let listed = listed_of(alloc, value)?;
    outcome_of(alloc, known, listed)
}

/// What comes of the release that the value at `place` lists.
fn release_at_place(
    alloc: Global,
    known: &mut Known,
    place: usize,
    value: Value,
) -> Result<ReleaseOutcome, Fault>
    ensures { Gives (λ o. o) (below (place_path place) (release_of (view value))) result }
{
    below_place(alloc, place, release_of(alloc, known, value))
}

/// Inserts the release, unless one of an equal version is there, and says whether it did.
fn insert_new(newest: &mut BTreeSet<Newest>, release: Newest) -> Result<bool, Fault>
    ensures is_new { IfOk result (λ new. new
        ≡ not (list_any (has_version_of release) newest.old.keys)) }
    ensures keys { OnOk result (newest.new.keys ≡ insert_key newer_cmp newest.old.keys release) }
    ensures memory { IsOkUnless result OutOfMemory }
{
    Ok(newest.insert(release)?)
}

/// Leaves the release at `place` out.
fn leave_out(
    skipped: &mut Vec<Skipped>,
    name: &Name,
    place: usize,
    version: Text,
    cause: SkipCause,
) -> Result<(), Fault>
    ensures kept { OnOk result (skipped.new.items
        ≡ skipped.old.items ++ left_out name.now place version cause) }
    ensures memory { IsOkUnless result OutOfMemory }
{
    let name = name.clone()?;
    skipped.push(Skipped::new(name, place, version, cause))?;
    Ok(())
}

/// Puts one more release of the package to those before it: into its place, or with its version and the cause
/// to those that are left out.
pub(crate) fn add(
    gathering: &mut Gathering,
    name: &Name,
    place: usize,
    outcome: ReleaseOutcome,
) -> Result<(), Fault>
    ensures kept { OnOk result
        (gathered_view (place + 1) gathering.new
        ≡ gather_release name.now (gathered_view place gathering.old) outcome) }
    ensures memory { IsOkUnless result OutOfMemory }
{
    let ReleaseOutcome { version, release } = outcome;
    match release {
        Ok(release) => {
            if !insert_new(&mut gathering.newest, Newest::new(release))? {
                leave_out(
                    &mut gathering.skipped,
                    name,
                    place,
                    version,
                    SkipCause::Duplicate,
                )?;
            }
        }
        Err(cause) => leave_out(&mut gathering.skipped, name, place, version, cause)?,
    }
    Ok(())
}

/// The releases of the package that the values list, gone through.
fn gathered(alloc: Global, name: &Name, values: Vec<Value>) -> Result<Gathering, Fault>
    ensures { Gives kept_view (releases_in name.now (items_view values.items)) result }
{
    let mut gathering = Gathering::new(alloc);
    let mut known = Known::none(alloc);
    for (place, value) in values.into_iter().enumerate() {
        let outcome = release_at_place(alloc, &mut known, place, value)?;
        add(&mut gathering, name, place, outcome)?;
    }
    Ok(gathering)
}

/// The releases in their order.
fn in_order(alloc: Global, newest: BTreeSet<Newest>) -> Result<Seq<Release>, AllocError>
    ensures { IfOk result (λ releases. releases ≡ newest.keys) }
{
    let mut releases = Vec::with_capacity(alloc, newest.len())?;
    for release in newest {
        releases.push(release.into_release())?;
    }
    Ok(Seq::from_vec(releases))
}

/// The releases that were gone through, each kind in its order.
pub(crate) fn read_releases(alloc: Global, gathering: Gathering) -> Result<ReadReleases, AllocError>
    ensures { IfOk result (λ read. read ≡ kept_view gathering) }
{
    let Gathering { newest, skipped } = gathering;
    let releases = in_order(alloc, newest)?;
    Ok(ReadReleases {
        releases,
        skipped: Seq::from_vec(skipped),
    })
}

/// The releases of the package that the values list: those that can be used, the newest first, and those
/// that are left out.
pub(crate) fn releases_of(
    alloc: Global,
    name: &Name,
    values: Vec<Value>,
) -> Result<ReadReleases, Fault>
    ensures { Gives (λ r. r) (releases_in name.now (items_view values.items)) result }
{
    let gathering = gathered(alloc, name, values)?;
    Ok(read_releases(alloc, gathering)?)
}
