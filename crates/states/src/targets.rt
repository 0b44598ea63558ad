// Named environments, for each of which there is to be a lock.

ghost use Rattle.lists.specs.Answers.{Answers};
ghost use Rattle.std.specs.Prelude.{◌≡◌, ◌≢◌, ◌⊎◌, [], map, IfOk, IfErr, Ok, Err, true};
ghost use Rattle.lists.specs.Rising.{rises};
ghost use Rattle.states.specs.Targets.{targets_of, with_targets};
ghost use Rattle.states.specs.declared.refusal.Refusal.TheVariants.{OutOfMemory};

use crate::refusal::Refusal;
use crate::target_name::TargetName;
use lists::Seq;
use pep508::Environment;
use std::alloc::{AllocError, Global};
use std::collections::BTreeMap;
use std::marker::Model;

/// Named environments: one at least, in the order of their names, none of which is there twice. In a
/// clause they are the list of pairs of a name and an environment.
pub struct Targets {
    list: Seq<(TargetName, Environment)>,
}

impl Drop for Targets {
    fn drop(self) {
        let Targets { list: _ } = self;
    }
}

impl Model for Targets {
    ghost use Rattle.std.specs.Prelude.{◌≡◌, ◌≢◌, ℕ, List, [], map, true};
    ghost use Rattle.lists.specs.Rising.{rises};
    ghost use Rattle.markers.specs.Environment.{Texts};

    ghost Value = { List (List ℕ × Texts) };

    ghost view = { λ t. t.list };

    ghost invariant = { λ t. (t.list ≢ []) × (rises (map (λ p. p.0) t.list) ≡ true) };
}

/// The environments by their names; a name that is there already is refused.
fn by_name(
    alloc: Global,
    given: Seq<(TargetName, Environment)>,
) -> Result<BTreeMap<TargetName, Environment>, Refusal>
    ensures ok { IfOk result (λ found. with_targets [] given ≡ Ok found.entries) }
    ensures err { IfErr result (λ refusal. (refusal ≡ OutOfMemory)
        ⊎ (with_targets [] given ≡ Err refusal)) }
{
    let mut found = BTreeMap::new(alloc);
    for (name, environment) in given.into_vec() {
        if found.contains_key(&name) {
            return Err(Refusal::DuplicateTarget(name));
        }
        found.insert(name, environment)?;
    }
    Ok(found)
}

/// The pairs of a map in their order.
fn in_order(
    alloc: Global,
    found: BTreeMap<TargetName, Environment>,
) -> Result<Seq<(TargetName, Environment)>, AllocError>
    ensures pairs { IfOk result (λ list. list ≡ found.entries) }
    ensures rising { IfOk result (λ list. rises (map (λ p. p.0) list) ≡ true) }
{
    let mut list = Vec::with_capacity(alloc, found.len())?;
    for pair in found {
        list.push(pair)?;
    }
    Ok(Seq::from_vec(list))
}

impl Targets {
    /// The targets of these environments. Where there is none they are refused as `NoTarget`, and where
    /// a name stood before as `DuplicateTarget`, with the first such name.
    pub fn new(alloc: Global, given: Seq<(TargetName, Environment)>) -> Result<Targets, Refusal>
        ensures { Answers OutOfMemory (targets_of given) result }
    {
        if given.is_empty() {
            return Err(Refusal::NoTarget);
        }
        let found = by_name(alloc, given)?;
        let list = in_order(alloc, found)?;
        Ok(Targets { list })
    }

    /// The names with their environments, in the order of the names.
    pub fn as_slice(&self) -> &[(TargetName, Environment)]
        ensures { result.now ≡ self.now }
    {
        self.list.as_slice()
    }

    /// The names with their environments, moved out. It has no refusal.
    pub fn into_list(self) -> Seq<(TargetName, Environment)>
        ensures { result ≡ self }
    {
        let Targets { list } = self;
        list
    }

    /// What holds of all targets: there is one at least, and names rise.
    pub fn recall_invariant(&self)
        ensures some { self.now ≢ [] }
        ensures rising { rises (map (λ p. p.0) self.now) ≡ true }
    {
        let _list = &self.list;
    }
}
