// The requirements of lines and choices.

ghost use Rattle.std.specs.Prelude.{◌≡◌, ◌<◌, ◌++◌, ◌∷◌, [], IfOk, IsTrue, IsFalse, MatchOption, length, map, take, true, ◌-◌, ℕ, List};
ghost use Rattle.std.specs.List.{Contains};
ghost use Rattle.learning_search.specs.Tied.Demands as spec;
ghost use Rattle.learning_search.specs.Tied.Demands.{AreRowed, IsListed, IsWatched, row_at};
ghost use Rattle.learning_search.specs.Tied.Gathering.{choice_at, decision};
ghost use Rattle.learning_search.specs.Tied.Learned.{IsFree, demand_of, first_at};
ghost use Rattle.search.specs.Ranges.{EachBelow};
ghost use Rattle.search.specs.Table.{rules_of, required_nodes, requirement_at, in_range};

use indexmap::IndexMap;
use search::{Decision, Table};
use std::alloc::{AllocError, Global};
use std::collections::BTreeSet;

/// A requirement, and the choice that it is required by; a line's, where there is no choice.
#[derive(Clone, Copy)]
pub struct Demand {
    pub requirement: usize,
    pub by: Option<Decision>,
}

/// The first choice on a name.
pub fn first_on(taken: &[Option<Decision>], name: usize) -> Option<Decision>
    ensures { result ≡ first_at taken.now name }
{
    match taken.get(name) {
        None => None,
        Some(decision) => *decision,
    }
}

/// Whether a node has a choice.
pub fn is_chosen(choices: &IndexMap<usize, usize>, node: usize) -> bool
    ensures chosen { IsTrue result → (v : ℕ)
        × Contains (map choice_at choices.now.entries) (decision node v) }
    ensures free { IsFalse result → IsFree (map choice_at choices.now.entries) node }
{
    choices.get(&node).is_some()
}

/// The first of these nodes that is not chosen.
fn first_free(choices: &IndexMap<usize, usize>, nodes: &[usize]) -> Option<usize>
    ensures { MatchOption result ((node : ℕ) → Contains nodes.now node → (v : ℕ)
        × Contains (map choice_at choices.now.entries) (decision node v))
        (λ node. Contains nodes.now node × IsFree (map choice_at choices.now.entries) node) }
{
    for node in nodes {
        if !is_chosen(choices, *node) {
            return Some(*node);
        }
    }
    None
}

/// The first of the nodes of a requirement that is not chosen.
pub fn first_free_of(
    table: &Table,
    choices: &IndexMap<usize, usize>,
    requirement: usize,
) -> Option<usize>
    requires { requirement < length table.now.requirements }
    ensures { MatchOption result ((node : ℕ)
        → Contains (required_nodes (requirement_at table.now requirement)) node → (v : ℕ)
        × Contains (map choice_at choices.now.entries) (decision node v))
        (λ node. Contains (required_nodes (requirement_at table.now requirement)) node
        × IsFree (map choice_at choices.now.entries) node) }
{
    let required = table.requirement(requirement);
    if !is_chosen(choices, required.node) {
        return Some(required.node);
    }
    first_free(choices, required.more.as_slice())
}

/// The demands of lines and choices, in the order in which they came and for each name. Those of the
/// last choice are taken back first. And the names on which a node may have to be chosen.
pub struct Demands {
    pub listed: Vec<Demand>,
    pub rows: Vec<Vec<Demand>>,
    /// The names with no version on which something is required, and perhaps others.
    pub free: BTreeSet<usize>,
    /// The names with a version on which a node that is required has no choice, and perhaps others.
    pub names_to_check: Vec<usize>,
}

impl Drop for Demands {
    fn drop(self) {
        let Demands {
            listed: _,
            rows: _,
            free: _,
            names_to_check: _,
        } = self;
    }
}

/// The demands on a name.
pub fn row_of(rows: &[Vec<Demand>], name: usize) -> &[Demand]
    ensures { result.now ≡ row_at rows.now name }
{
    match rows.get(name) {
        None => &[],
        Some(row) => row.as_slice(),
    }
}

/// A row for each name, none of which has anything.
fn empty_rows(alloc: Global, count: usize) -> Result<Vec<Vec<Demand>>, AllocError>
    ensures length { IfOk result (λ rows. length rows.items ≡ count) }
    ensures empty { IfOk result (λ rows. (n : ℕ) → row_at rows.items n ≡ []) }
{
    let mut rows = Vec::with_capacity(alloc, count)?;
    for _ in 0..count {
        rows.push(Vec::new(alloc))?;
    }
    Ok(rows)
}

/// Appends a demand to the row of a name.
fn push_row(rows: &mut Vec<Vec<Demand>>, name: usize, demand: Demand) -> Result<(), AllocError>
    requires { name < length rows.old.items }
    ensures { IfOk result (λ _. IsListed rows.old.items rows.new.items name demand) }
{
    rows[name].push(demand)?;
    Ok(())
}

/// Drops the last demand of the row of a name.
fn pop_row(rows: &mut Vec<Vec<Demand>>, name: usize)
    requires { name < length rows.old.items }
    ensures length { length rows.new.items ≡ length rows.old.items }
    ensures own { (demand : spec.DemandValue) (front : List spec.DemandValue)
        → row_at rows.old.items name ≡ front ++ demand ∷ [] → row_at rows.new.items name ≡ front }
    ensures others { (n : ℕ) → (n ≡ name → ⊥)
        → row_at rows.new.items n ≡ row_at rows.old.items n }
{
    let _ = rows[name].pop();
}

impl Demands {
    /// No demands.
    pub fn new(alloc: Global, table: &Table) -> Result<Demands, AllocError>
        ensures rowed { IfOk result (AreRowed table.now) }
        ensures empty { IfOk result (λ demands. demands.listed.items ≡ []) }
    {
        let rows = empty_rows(alloc, table.name_count())?;
        Ok(Demands {
            listed: Vec::new(alloc),
            rows,
            free: BTreeSet::new(alloc),
            names_to_check: Vec::new(alloc),
        })
    }

    /// Appends a demand, to its row too.
    fn list(&mut self, table: &Table, name: usize, demand: Demand) -> Result<(), AllocError>
        requires rowed { AreRowed table.now self.old }
        requires known { demand.requirement < length table.now.requirements }
        requires name { name ≡ (rules_of table.now).name demand.requirement }
        requires room { name < length table.now.candidates }
        ensures rowed { IfOk result (λ _. AreRowed table.now self.new) }
        ensures listed { IfOk result (λ _. self.new.listed.items ≡ self.old.listed.items ++ demand ∷ []) }
        ensures free { self.new.free ≡ self.old.free }
        ensures names_to_check { self.new.names_to_check ≡ self.old.names_to_check }
    {
        push_row(&mut self.rows, name, demand)?;
        self.listed.push(demand)?;
        Ok(())
    }

    /// Appends a demand. Its name is one to check, if a node may have to be
    /// chosen on it.
    fn add(
        &mut self,
        table: &Table,
        choices: &IndexMap<usize, usize>,
        taken: &[Option<Decision>],
        demand: Demand,
    ) -> Result<(), AllocError>
        requires table { in_range table.now ≡ true }
        requires rowed { AreRowed table.now self.old }
        requires watched { IsWatched table.now self.old taken.now (map choice_at
            choices.now.entries) }
        requires known { demand.requirement < length table.now.requirements }
        ensures rowed { IfOk result (λ _. AreRowed table.now self.new) }
        ensures watched { IfOk result
            (λ _. IsWatched table.now self.new taken.now (map choice_at choices.now.entries)) }
        ensures listed { IfOk result (λ _. self.new.listed.items ≡ self.old.listed.items ++ demand ∷ []) }
    {
        let name = table.name_required(demand.requirement);
        self.list(table, name, demand)?;
        if first_on(taken, name).is_none() {
            self.free.insert(name)?;
            return Ok(());
        }
        if first_free_of(table, choices, demand.requirement).is_some() {
            self.names_to_check.push(name)?;
        }
        Ok(())
    }

    /// Appends the demands of a choice or a line.
    pub fn add_all(
        &mut self,
        table: &Table,
        choices: &IndexMap<usize, usize>,
        taken: &[Option<Decision>],
        requirements: &[usize],
        by: Option<Decision>,
    ) -> Result<(), AllocError>
        requires table { in_range table.now ≡ true }
        requires rowed { AreRowed table.now self.old }
        requires watched { IsWatched table.now self.old taken.now (map choice_at
            choices.now.entries) }
        requires known { EachBelow (length table.now.requirements) requirements.now }
        ensures rowed { IfOk result (λ _. AreRowed table.now self.new) }
        ensures watched { IfOk result
            (λ _. IsWatched table.now self.new taken.now (map choice_at choices.now.entries)) }
        ensures listed { IfOk result
            (λ _. self.new.listed.items ≡ self.old.listed.items ++ map (demand_of by) requirements.now) }
    {
        for requirement in requirements {
            let demand = Demand {
                requirement: *requirement,
                by,
            };
            self.add(table, choices, taken, demand)?;
        }
        Ok(())
    }

    /// Drops the last demand.
    fn drop_one(&mut self, table: &Table)
        requires table { in_range table.now ≡ true }
        requires rowed { AreRowed table.now self.old }
        ensures rowed { AreRowed table.now self.new }
        ensures listed { self.new.listed.items
            ≡ take (length self.old.listed.items - 1) self.old.listed.items }
        ensures free { self.new.free ≡ self.old.free }
        ensures names_to_check { self.new.names_to_check ≡ self.old.names_to_check }
    {
        if let Some(demand) = self.listed.pop() {
            pop_row(&mut self.rows, table.name_required(demand.requirement));
        }
    }

    /// Drops so many of the last demands.
    pub fn drop_last(&mut self, table: &Table, count: usize)
        requires table { in_range table.now ≡ true }
        requires rowed { AreRowed table.now self.old }
        ensures rowed { AreRowed table.now self.new }
        ensures listed { self.new.listed.items
            ≡ take (length self.old.listed.items - count) self.old.listed.items }
        ensures free { self.new.free ≡ self.old.free }
        ensures names_to_check { self.new.names_to_check ≡ self.old.names_to_check }
    {
        for _ in 0..count {
            self.drop_one(table);
        }
    }
}
