// The lock of a solution, and the state of lines with the locks of the problems of its targets.

ghost use Rattle.std.specs.Prelude.{◌≡◌, ◌≢◌, ℕ, List, [], IfOk, IsSome, MatchOption, Some, map, true};
ghost use Rattle.std.specs.Cmp.Lexicographic.{slice_cmp};
ghost use Rattle.std.specs.List.{AllZip, Contains, list_all};
ghost use Rattle.std.specs.List.Sorted.{IsStrictlySortedBy};
ghost use Rattle.std.specs.Map.{keys_of};
ghost use Rattle.std.specs.Ordering.{nat_cmp};
ghost use Rattle.markers.specs.Environment.{marker_text};
ghost use Rattle.markers.specs.Names.{is_normal};
ghost use Rattle.pep440.specs.Version.{VersionParts};
ghost use Rattle.problems.specs.Admission.{release_at};
ghost use Rattle.problems.specs.Problem.{ProblemParts};
ghost use Rattle.problems.specs.Rules.{rules_of};
ghost use Rattle.problems.specs.Solutions.{version_for};
ghost use Rattle.pylock.specs.Packages.{EntryParts};
ghost use Rattle.pylock.specs.Order.{rises};
ghost use Rattle.search.specs.Solutions.{HasNoSolution, IsBest};
ghost use Rattle.states.specs.Tied.Dependencies.{names_in, names_of};
ghost use Rattle.states.specs.Tied.Entries.{AreEntries, AreNeeds, HasRelease, entry_for};
ghost use Rattle.states.specs.Locks.{HasUnsolved, IsLockOf, IsLocked, given_for, given_of};
ghost use Rattle.states.specs.State.{IsLockFor};
ghost use Rattle.states.specs.Tied.Locks.{IsTargetFor};

use crate::dependencies::gather;
use crate::entry::entry;
use crate::pool::Pool;
use crate::state::State;
use crate::target::Target;
use crate::target_name::TargetName;
use lists::Seq;
use markers::marker_extras::other_extras_are_as_none;
use pep440::Version;
use pep440::laws::equal_versions_match_alike;
use pep508::{Environment, Name, ReqFile};
use pylock::{Entry, Lock};
use resolve::{Answer, Problem, Resolver};
use snapshot::Snapshot;
use std::alloc::{AllocError, Global};
use std::collections::{BTreeMap, BTreeSet};

/// The names in their order.
fn in_order(alloc: Global, names: BTreeSet<Name>) -> Result<Seq<Name>, AllocError>
    ensures names { IfOk result (λ ordered. ordered ≡ names.keys) }
    ensures normal { IfOk result (λ ordered. list_all is_normal ordered ≡ true) }
{
    let mut ordered = Vec::new(alloc);
    for name in names {
        name.recall_invariant();
        ordered.push(name)?;
    }
    Ok(Seq::from_vec(ordered))
}

/// The names of the set, none where there is no set.
fn dependencies(alloc: Global, names: Option<BTreeSet<Name>>) -> Result<Seq<Name>, AllocError>
    ensures names { IfOk result (λ ordered. ordered ≡ names_of names) }
    ensures normal { IfOk result (λ ordered. list_all is_normal ordered ≡ true) }
{
    match names {
        Some(names) => in_order(alloc, names),
        None => Ok(Seq::new(alloc)),
    }
}

/// The entry of each name, given what each needs.
fn entries(
    alloc: Global,
    problem: &Problem<'_>,
    versions: &BTreeMap<Name, Version>,
    mut gathered: BTreeMap<Name, BTreeSet<Name>>,
) -> Result<Seq<Entry>, AllocError>
    requires released { (name : List ℕ) (version : VersionParts)
        → version_for versions.now.entries name ≡ Some version
        → IsSome (release_at problem.now name version) }
    requires needs { (own : List ℕ) → AreNeeds own (names_in gathered own) }
    ensures entries { IfOk result (λ lock. lock
        ≡ map (entry_for problem.now (names_in gathered)) versions.now.entries) }
    ensures rising { IfOk result
        (λ _. IsStrictlySortedBy (slice_cmp nat_cmp) (keys_of versions.now.entries)) }
    ensures releases { IfOk result (λ lock. (e : EntryParts) → Contains lock e
        → HasRelease problem.now e.name e.version) }
{
    let mut lock = Vec::new(alloc);
    for (name, version) in versions {
        let dependencies = dependencies(alloc, gathered.remove(name))?;
        lock.push(entry(alloc, problem, name, version, dependencies)?)?;
    }
    Ok(Seq::from_vec(lock))
}

/// The entry of each name of a solution of the problem.
fn entries_of(
    alloc: Global,
    problem: &Problem<'_>,
    versions: &BTreeMap<Name, Version>,
) -> Result<Seq<Entry>, AllocError>
    requires { IsBest (rules_of problem.now) (version_for versions.now.entries) }
    ensures { IfOk result (λ lock. AreEntries problem.now versions.now.entries lock) }
{
    other_extras_are_as_none();
    let nodes = problem.needed(alloc, versions)?;
    let gathered = gather(alloc, problem, versions, nodes.as_slice())?;
    entries(alloc, problem, versions, gathered)
}

/// The lock of a solution of the problem in the environment over the index.
fn lock_of(
    alloc: Global,
    problem: &Problem<'_>,
    environment: &Environment,
    snapshot: &Snapshot,
    versions: &BTreeMap<Name, Version>,
) -> Result<Lock, AllocError>
    requires { IsBest (rules_of problem.now) (version_for versions.now.entries) }
    ensures entries { IfOk result
        (λ lock. AreEntries problem.now versions.now.entries lock.entries) }
    ensures environment { IfOk result (λ lock. lock.environment ≡ marker_text environment.now) }
    ensures snapshot { IfOk result (λ lock. lock.snapshot ≡ snapshot.now.digest) }
{
    let entries = entries_of(alloc, problem, versions)?;
    let environment = environment.marker_text(alloc)?;
    match Lock::new(environment, snapshot.digest(), entries) {
        Some(lock) => Ok(lock),
        None => unreachable!(),
    }
}

/// The lock of the lines' problem in the environment over the index, where these versions are kept;
/// `None` where the problem has no solution.
fn lock_for<R: Resolver>(
    alloc: Global,
    lines: &ReqFile,
    environment: &Environment,
    pool: &Pool<'_>,
    kept: BTreeMap<Name, Version>,
    resolver: &R,
) -> Result<Option<Lock>, AllocError>
    ensures { IfOk result (λ made.
        let given : ProblemParts = given_of lines.now environment.now pool.now kept.entries in
        MatchOption made (HasNoSolution (rules_of given))
        (λ lock. IsLockOf given lock × IsLockFor lines.now environment.now lock)) }
{
    equal_versions_match_alike();
    let problem = pool.problem(alloc, lines, environment, kept)?;
    match resolver.resolve(alloc, &problem)? {
        Answer::Solution(versions) => {
            let lock = lock_of(alloc, &problem, environment, pool.snapshot, &versions)?;
            lock.recall_invariant();
            Ok(Some(lock))
        }
        Answer::NoSolution => Ok(None),
    }
}

/// A target before it is locked.
pub struct Unlocked {
    /// The name.
    pub name: TargetName,
    /// The environment that the lock is made for.
    pub environment: Environment,
    /// The versions that are kept of an earlier lock.
    pub kept: BTreeMap<Name, Version>,
}

impl Drop for Unlocked {
    fn drop(self) {
        let Unlocked {
            name: _,
            environment: _,
            kept: _,
        } = self;
    }
}

impl Unlocked {
    /// The name, the environment and the versions, each moved out.
    pub fn into_parts(self) -> (TargetName, Environment, BTreeMap<Name, Version>)
        ensures { result ≡ (self.name, self.environment, self.kept) }
    {
        let Unlocked {
            name,
            environment,
            kept,
        } = self;
        (name, environment, kept)
    }
}

/// The target with its lock; `None` where its problem has no solution.
fn target_for<R: Resolver>(
    alloc: Global,
    lines: &ReqFile,
    unlocked: Unlocked,
    pool: &Pool<'_>,
    resolver: &R,
) -> Result<Option<Target>, AllocError>
    ensures { IfOk result (λ made.
        let given : List ℕ × ProblemParts = given_for lines.now pool.now unlocked in
        MatchOption made (HasNoSolution (rules_of given.1)) (IsTargetFor lines.now given)) }
{
    let (name, environment, kept) = unlocked.into_parts();
    match lock_for(alloc, lines, &environment, pool, kept, resolver)? {
        Some(lock) => Ok(Some(Target {
            name,
            environment,
            lock,
        })),
        None => Ok(None),
    }
}

/// The targets with their locks; `None` where the problem of one has no solution.
fn targets_for<R: Resolver>(
    alloc: Global,
    lines: &ReqFile,
    unlocked: Seq<Unlocked>,
    pool: &Pool<'_>,
    resolver: &R,
) -> Result<Option<Seq<Target>>, AllocError>
    ensures { IfOk result (λ made.
        let givens : List (List ℕ × ProblemParts)
        = map (given_for lines.now pool.now) unlocked in
        MatchOption made (HasUnsolved givens) (AllZip (IsTargetFor lines.now) givens)) }
{
    let mut made = Vec::with_capacity(alloc, unlocked.len())?;
    for one in unlocked.into_vec() {
        let Some(target) = target_for(alloc, lines, one, pool, resolver)? else {
            return Ok(None);
        };
        made.push(target)?;
    }
    Ok(Some(Seq::from_vec(made)))
}

/// The state of the lines with the targets, each with the lock of its problem over the index; `None`
/// where the problem of one has no solution.
pub fn locked<R: Resolver>(
    alloc: Global,
    lines: ReqFile,
    unlocked: Seq<Unlocked>,
    pool: &Pool<'_>,
    resolver: &R,
) -> Result<Option<State>, AllocError>
    requires some { unlocked ≢ [] }
    requires rising { rises (map (λ u. u.name) unlocked) ≡ true }
    ensures { IfOk result (λ made.
        let givens : List (List ℕ × ProblemParts) = map (given_for lines pool.now) unlocked in
        MatchOption made (HasUnsolved givens) (IsLocked givens lines)) }
{
    lines.recall_invariant();
    match targets_for(alloc, &lines, unlocked, pool, resolver)? {
        Some(targets) => Ok(Some(State::from_lawful(lines, targets))),
        None => Ok(None),
    }
}
