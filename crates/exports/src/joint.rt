// One lock for several targets.

ghost use Rattle.std.specs.Prelude.{◌≡◌, ◌≢◌, [], ℕ, IfErr, IfOk, List, map};
ghost use Rattle.std.specs.List.{AllByRecursion, AllPairs, Contains, list_any};
ghost use Rattle.states.specs.declared.target.Target.{Target};
ghost use Rattle.exports.specs.Joint.{Fit, IsAnywhere, IsOfSome, IsRefused, IsTold};
ghost use Rattle.exports.specs.declared.joint.JointFault.TheVariants as faults;
ghost use Rattle.exports.specs.Tied.JointPackages.{HoldsOf, asks_nothing, environments_told};

use crate::apart::first_two_unfit;
use crate::cover::{Cover, covers_of};
use crate::joint_entries::joint_entries;
use crate::joint_packages::joint_packages;
use crate::reach::asked_by;
use lists::{Seq, Text};
use markers::marker_laws::a_text_reads_as_the_marker_that_it_spells;
use pep508::ReqFile;
use pylock::JointLock;
use snapshot::Snapshot;
use states::{Target, TargetName};
use std::alloc::{AllocError, Global};

/// Why targets are not told in one lock.
pub enum JointFault {
    /// Memory was refused.
    OutOfMemory,
    /// Both targets answer each question alike that the lines can ask, and their entries differ.
    Differ(TargetName, TargetName),
}

impl From<AllocError> for JointFault {
    ghost from_gives = { λ _ fault. fault ≡ faults.OutOfMemory };

    fn from(_error: AllocError) -> JointFault {
        JointFault::OutOfMemory
    }
}

fn asks_nothing(cover: &Cover) -> bool
    ensures { result ≡ asks_nothing cover.now }
{
    cover.conditions.is_empty()
}

fn do_some_ask_nothing(covers: &[Cover]) -> bool
    ensures { result ≡ list_any asks_nothing covers.now }
{
    covers.iter().any(|cover| asks_nothing(cover))
}

/// The texts of `environments`: a marker for each target, or none if a target asks nothing.
fn environments_of(alloc: Global, covers: &[Cover]) -> Result<Seq<Text>, AllocError>
    ensures { IfOk result (λ texts. texts ≡ environments_told covers.now) }
{
    if do_some_ask_nothing(covers) {
        return Ok(Seq::new(alloc));
    }
    let mut texts = Vec::with_capacity(alloc, covers.len())?;
    for cover in covers {
        texts.push(cover.marker.clone()?)?;
    }
    Ok(Seq::from_vec(texts))
}

/// The lock of covers that fit with one another.
fn lock_of(alloc: Global, covers: &[Cover], snapshot: [u8; 32]) -> Result<JointLock, AllocError>
    ensures once { IfOk result
        (λ joint. AllPairs (λ e f. e ≢ f) (map (λ p. p.entry) joint.packages)) }
    ensures digest { IfOk result (λ joint. joint.snapshot ≡ snapshot) }
    ensures environments { IfOk result
        (λ joint. joint.environments ≡ environments_told covers.now) }
    ensures packages { IfOk result (λ joint. HoldsOf covers.now joint.packages) }
{
    let entries = joint_entries(alloc, covers)?;
    let packages = joint_packages(alloc, covers, entries.as_slice())?;
    let environments = environments_of(alloc, covers)?;
    Ok(JointLock {
        environments,
        snapshot,
        packages,
    })
}

fn differing(one: &Target, other: &Target) -> Result<JointFault, AllocError>
    ensures { IfOk result (λ fault. fault ≡ faults.Differ one.now.name other.now.name) }
{
    let name = one.name.clone()?;
    Ok(JointFault::Differ(name, other.name.clone()?))
}

/// The lock of several targets in one file. Wherever the marker of a target holds, the packages that an installer takes are exactly
/// the entries of its lock; so they are in every environment, if the lock has no `environments`. Two targets are refused if their
/// entries differ and they answer each question alike that the lines can ask over the index.
pub fn joint_lock(
    alloc: Global,
    lines: &ReqFile,
    snapshot: &Snapshot,
    targets: &[Target],
) -> Result<JointLock, JointFault>
    ensures told { IfOk result (λ joint. (target : Target)
        → Contains targets.now target → IsTold lines.now snapshot.now joint target) }
    ensures fit { IfOk result (λ _. (one other : Target)
        → Contains targets.now one → Contains targets.now other
        → Fit lines.now snapshot.now one other) }
    ensures only { IfOk result (λ joint. (text : List ℕ)
        → Contains joint.environments text
        → IsOfSome lines.now snapshot.now joint targets.now text) }
    ensures anywhere { IfOk result (λ joint. joint.environments ≡ [] → targets.now ≢ []
        → IsAnywhere lines.now snapshot.now targets.now) }
    ensures once { IfOk result
        (λ joint. AllPairs (λ e f. e ≢ f) (map (λ p. p.entry) joint.packages)) }
    ensures digest { IfOk result (λ joint. joint.snapshot ≡ snapshot.now.digest) }
    ensures refused { IfErr result (IsRefused lines.now snapshot.now targets.now) }
{
    a_text_reads_as_the_marker_that_it_spells();
    let lines = lines.lines();
    let asked = asked_by(alloc, lines, snapshot)?;
    let unfit = first_two_unfit(alloc, lines, snapshot, &asked, targets)?;
    if let Some((one, other)) = unfit {
        return Err(differing(one, other)?);
    }
    let covers = covers_of(alloc, lines, snapshot, &asked, targets)?;
    Ok(lock_of(alloc, covers.as_slice(), snapshot.digest())?)
}
