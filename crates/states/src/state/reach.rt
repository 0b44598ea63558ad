// The names that active lines lead to, through names of dependencies.

ghost use Rattle.std.specs.Prelude.{◌≡◌, ◌↔◌, ◌++◌, ◌∷◌, ◌<◌, [], length, map, IfOk, IsTrue, OnErr, OnOk, true};
ghost use Rattle.std.specs.List.{AllByRecursion, Contains, slice_index_or};
ghost use Rattle.pep508.specs.Requirement.{requirement_of};
ghost use Rattle.problems.specs.Problem.{active_in, requirements};
ghost use Rattle.problems.specs.Tied.Standing.{IsOnce};
ghost use Rattle.pylock.specs.Locks.{are_entries};
ghost use Rattle.states.specs.State.{Reached, entry_on};
ghost use Rattle.states.specs.Tied.LockForLines.{AreReached, IsGrown, needs_of};

use crate::state::lock_for_lines::entry_on;
use pep508::{Environment, Line, Name};
use pylock::Entry;
use std::alloc::{AllocError, Global};
use std::collections::BTreeSet;
use std::marker::Model;

/// Names in the order in which they were met, and a set in which each of them is found. In a clause it
/// is the list of the names.
struct Names {
    listed: Vec<Name>,
    known: BTreeSet<Name>,
}

impl Drop for Names {
    fn drop(self) {
        let Names {
            listed: _,
            known: _,
        } = self;
    }
}

impl Model for Names {
    ghost use Rattle.std.specs.Prelude.{◌≡◌, ◌≢◌, ℕ, List, []};
    ghost use Rattle.std.specs.List.{AllPairs};
    ghost use Rattle.states.specs.Names.{with_names};

    ghost Value = { List (List ℕ) };

    ghost view = { λ n. n.listed.items };

    ghost invariant = { λ n. (n.known.keys ≡ with_names [] n.listed.items)
        × AllPairs (λ name other. name ≢ other) n.listed.items };
}

impl Names {
    fn new(alloc: Global) -> Names
        ensures { result ≡ [] }
    {
        Names {
            listed: Vec::new(alloc),
            known: BTreeSet::new(alloc),
        }
    }

    fn as_slice(&self) -> &[Name]
        ensures { result.now ≡ self.now }
    {
        self.listed.as_slice()
    }

    /// How many names there are. None is there twice.
    fn len(&self) -> usize
        ensures count { result ≡ length self.now }
        ensures once { IsOnce self.now }
    {
        self.listed.len()
    }

    /// Whether the name is one of these.
    fn has(&self, name: &Name) -> bool
        ensures { IsTrue result ↔ Contains self.now name.now }
    {
        self.known.contains(name)
    }

    /// Appends a name that isn't there. Where the set has no room, it leaves the list again.
    fn push(&mut self, name: &Name) -> Result<(), AllocError>
        requires { Contains self.old name.now → ⊥ }
        ensures pushed { OnOk result (self.new ≡ self.old ++ name.now ∷ []) }
        ensures refused { OnErr result (self.new ≡ self.old) }
    {
        let key = name.clone()?;
        self.listed.push(name.clone()?)?;
        if self.known.insert(key).is_err() {
            let _ = self.listed.pop();
            return Err(AllocError);
        }
        Ok(())
    }
}

/// Appends the name, unless it is there.
fn add(names: &mut Names, name: &Name) -> Result<(), AllocError>
    ensures grown { OnOk result (IsGrown names.old names.new (name.now ∷ [])) }
    ensures once { OnOk result (Contains names.old name.now → names.new ≡ names.old) }
{
    if names.has(name) {
        return Ok(());
    }
    names.push(name)
}

/// Appends each of the names that isn't there.
fn add_all(names: &mut Names, asked: &[Name]) -> Result<(), AllocError>
    ensures { OnOk result (IsGrown names.old names.new asked.now) }
{
    for name in asked {
        add(names, name)?;
    }
    Ok(())
}

/// The same of the name that the line asks for, where it is active.
fn add_line(names: &mut Names, environment: &Environment, line: &Line) -> Result<(), AllocError>
    ensures { OnOk result (IsGrown names.old names.new
        (map (λ wanted. wanted.name) (active_in environment.now (requirement_of line.now)))) }
{
    match line.requirement() {
        Some(requirement) if requirement.is_active(environment) => add(names, requirement.name()),
        _ => Ok(()),
    }
}

/// The same of the names that the active ones of the lines ask for.
fn add_lines(names: &mut Names, environment: &Environment, lines: &[Line]) -> Result<(), AllocError>
    ensures { OnOk result (IsGrown names.old names.new
        (map (λ wanted. wanted.name) (requirements environment.now lines.now))) }
{
    for line in lines {
        add_line(names, environment, line)?;
    }
    Ok(())
}

/// The same of the names that the entry of the name at this place depends on.
fn follow(names: &mut Names, entries: &[Entry], place: usize) -> Result<(), AllocError>
    requires place { place < length names.old }
    requires rising { are_entries entries.now ≡ true }
    ensures { OnOk result (IsGrown names.old names.new
        (needs_of (entry_on entries.now (slice_index_or names.old place [])))) }
{
    match entry_on(entries, &names.as_slice()[place]) {
        Some(entry) => add_all(names, entry.dependencies()),
        None => Ok(()),
    }
}

/// The names that active lines lead to, in the order in which they are reached.
fn reached_names(
    alloc: Global,
    environment: &Environment,
    lines: &[Line],
    entries: &[Entry],
) -> Result<Names, AllocError>
    requires { are_entries entries.now ≡ true }
    ensures { IfOk result (AreReached (requirements environment.now lines.now) entries.now) }
{
    let mut names = Names::new(alloc);
    add_lines(&mut names, environment, lines)?;
    let mut followed = 0;
    while followed < names.len() {
        follow(&mut names, entries, followed)?;
        followed += 1;
    }
    Ok(names)
}

/// Whether the name of each of the entries is one of these.
fn have_names(names: &Names, entries: &[Entry]) -> bool
    ensures { IsTrue result ↔ AllByRecursion (λ e. Contains names.now e.name) entries.now }
{
    for entry in entries {
        if !names.has(entry.name()) {
            return false;
        }
    }
    true
}

/// Whether each entry is reached from an active line.
pub fn are_reached(
    alloc: Global,
    environment: &Environment,
    lines: &[Line],
    entries: &[Entry],
) -> Result<bool, AllocError>
    requires { are_entries entries.now ≡ true }
    ensures { IfOk result (λ reached. IsTrue reached
        ↔ AllByRecursion
        (λ e. Reached (requirements environment.now lines.now) entries.now e.name) entries.now) }
{
    let names = reached_names(alloc, environment, lines, entries)?;
    Ok(have_names(&names, entries))
}
