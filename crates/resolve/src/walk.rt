// A walk that gives each name in turn the first of its candidates that nothing asked for so far refuses,
// and never goes back. Where it comes to its end, it has found the best solution, and has looked only at
// what it met.

ghost use Rattle.std.specs.Prelude.{◌≡◌, ◌+◌, [], IfOk, IfSome, length, true};
ghost use Rattle.search.specs.Solutions.{IsBest};
ghost use Rattle.problems.specs.Rules.{rules_of};
ghost use Rattle.problems.specs.Solutions.{version_for};
ghost use Rattle.resolve.specs.Tied.Walking.{IsOnWay, IsPlaced, IsTurn, IsWaiting};

use crate::first_candidate::first_admitted;
use crate::followed_nodes::Following;
use lists::Lent;
use pep440::Version;
use pep508::{Name, Requirement};
use problems::laws::{own_needs_are_enough, the_rules_of_a_problem_are_lawful};
use problems::parts::admits;
use problems::{Node, Problem};
use search::laws;
use std::alloc::{AllocError, Global};
use std::collections::BTreeMap;

/// Lets a requirement wait with its name.
fn wait<'q>(
    alloc: Global,
    waiting: &mut BTreeMap<Name, Lent<'q, Requirement>>,
    wanted: &'q Requirement,
) -> Result<(), AllocError>
    ensures { IfOk result (λ _. IsWaiting waiting.old.entries waiting.new.entries wanted.now) }
{
    let name = wanted.name();
    let mut asks = match waiting.remove(name) {
        Some(asks) => asks,
        None => Lent::new(alloc),
    };
    asks.push(wanted)?;
    waiting.insert(name.clone()?, asks)?;
    Ok(())
}

/// How far a walk has come.
struct Walk<'q> {
    alloc: Global,
    following: Following<'q>,
    taken: BTreeMap<Name, Version>,
    waiting: BTreeMap<Name, Lent<'q, Requirement>>,
}

impl<'q> Drop for Walk<'q> {
    fn drop(self) {
        let Walk {
            alloc: _,
            following: _,
            taken: _,
            waiting: _,
        } = self;
    }
}

impl<'q> Walk<'q> {
    fn new(alloc: Global, problem: &'q Problem<'q>) -> Walk<'q>
        ensures problem { result.following.wants ≡ problem.now }
        ensures start { (result.following.nodes ≡ []) × (result.taken.entries ≡ [])
            × (result.waiting.entries ≡ []) }
    {
        Walk {
            alloc,
            following: Following::new(alloc, problem),
            taken: BTreeMap::new(alloc),
            waiting: BTreeMap::new(alloc),
        }
    }

    /// The versions that names have.
    fn into_taken(self) -> BTreeMap<Name, Version>
        ensures { result ≡ self.entry.taken }
    {
        let Walk {
            alloc: _,
            following: _,
            taken,
            waiting: _,
        } = self;
        taken
    }

    /// Places a requirement: it waits where its name has no version yet, and is followed where the version
    /// is one that it admits. Whether it could be placed.
    fn place(
        &mut self,
        wanted: &'q Requirement,
        asks: &mut Lent<'q, Requirement>,
    ) -> Result<bool, AllocError>
        ensures same { (self.new.following.wants ≡ self.old.following.wants)
            × (self.new.taken ≡ self.old.taken) }
        ensures placed { IfOk result
            (λ placed. placed ≡ true
            → IsPlaced self.old.following.wants self.old.taken.entries self.old.waiting.entries
            self.new.waiting.entries self.old.following.nodes self.new.following.nodes wanted.now
            asks.old asks.new) }
    {
        own_needs_are_enough();
        match self.taken.get(wanted.name()) {
            None => {
                wait(self.alloc, &mut self.waiting, wanted)?;
                Ok(true)
            }
            Some(version) => {
                if !admits(self.following.wants.problem(), wanted, version) {
                    return Ok(false);
                }
                self.following.follow_all(version, wanted, asks)?;
                Ok(true)
            }
        }
    }

    /// Places requirements, and what comes to them. Whether all could be placed.
    fn settle(&mut self, asks: Lent<'q, Requirement>) -> Result<bool, AllocError>
        requires { IsOnWay self.old.following.wants self.old.taken.entries self.old.waiting.entries
            self.old.following.nodes asks }
        ensures same { (self.new.following.wants ≡ self.old.following.wants)
            × (self.new.taken ≡ self.old.taken) }
        ensures way { IfOk result
            (λ settled. settled ≡ true
            → IsOnWay self.old.following.wants self.old.taken.entries self.new.waiting.entries
            self.new.following.nodes []) }
    {
        own_needs_are_enough();
        let mut asks = asks;
        let mut at = 0;
        while at < asks.len() {
            let wanted = asks.at(at);
            if !self.place(wanted, &mut asks)? {
                return Ok(false);
            }
            // No node is followed twice, so this ends.
            let _count = self.following.nodes.len();
            at += 1;
        }
        Ok(true)
    }

    /// Gives a name the first candidate that is admitted, and places what waited with it. Whether there was
    /// such a candidate, and all could be placed.
    fn take(&mut self, name: Name, asks: Lent<'q, Requirement>) -> Result<bool, AllocError>
        requires { IsTurn self.old.following.wants self.old.taken.entries self.old.waiting.entries
            self.old.following.nodes name asks }
        ensures same { self.new.following.wants ≡ self.old.following.wants }
        ensures way { IfOk result
            (λ settled. settled ≡ true
            → IsOnWay self.old.following.wants self.new.taken.entries self.new.waiting.entries
            self.new.following.nodes []) }
        ensures longer { IfOk result
            (λ settled. settled ≡ true
            → length self.new.taken.entries ≡ length self.old.taken.entries + 1) }
    {
        own_needs_are_enough();
        let problem = self.following.wants.problem();
        let Some(version) = first_admitted(problem, &name, &asks) else {
            return Ok(false);
        };
        let version = version.clone()?;
        self.taken.insert(name, version)?;
        self.settle(asks)
    }
}

/// The best solution where the first walk finds it. Where it gives up, nothing is known.
pub(crate) fn first_walk(
    alloc: Global,
    problem: &Problem<'_>,
) -> Result<Option<BTreeMap<Name, Version>>, AllocError>
    ensures { IfOk result
        (λ found. IfSome found
        (λ versions. IsBest (rules_of problem.now) (version_for versions.entries))) }
{
    the_rules_of_a_problem_are_lawful();
    own_needs_are_enough();
    laws::a_first_walk_finds_the_best_solution::<Name, Node, Version, Requirement>();
    let mut walk = Walk::new(alloc, problem);
    let lines = Lent::of(alloc, problem.active.as_slice())?;
    if !walk.settle(lines)? {
        return Ok(None);
    }
    'turns: while let Some((name, asks)) = walk.waiting.pop_first() {
        if !walk.take(name, asks)? {
            return Ok(None);
        }
        // Each name that is taken is needed, so this ends.
        let _count = walk.taken.len();
    }
    Ok(Some(walk.into_taken()))
}
