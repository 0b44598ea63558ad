// Nodes and requirements, gathered for a table.

ghost use Rattle.std.specs.Prelude.{◌≡◌, ◌<◌, ◌⊎◌, [], length, map, IfOk, List};
ghost use Rattle.std.specs.List.{AllZip, Contains};
ghost use Rattle.pep508.specs.Requirement.{RequirementParts};
ghost use Rattle.problems.specs.Tied.Growing.{requirements_met};
ghost use Rattle.problems.specs.Rules.{with_extra};
ghost use Rattle.problems.specs.Tied.Standing.{AllStand, IsLonger, Stands};
ghost use Rattle.problems.specs.declared.node.Node.{Node};
ghost use Rattle.resolve.specs.Tied.Building.{AreEntries, AreWants, IsGrown, IsWanted};

use lists::{Lent, Seq};
use pep508::Requirement;
use problems::laws::what_is_needed_can_be_met;
use problems::parts::{Nodes, ReleaseWants, admissions};
use problems::{Node, Problem};
use search::TableRequirement as Entry;
use std::alloc::{AllocError, Global};
use std::marker::Model;

/// The nodes and requirements that were met so far, and the table's entry of each requirement.
pub(crate) struct Gathering<'q> {
    nodes: Nodes,
    asked: Vec<&'q Requirement>,
    entries: Vec<Entry>,
}

impl<'q> Drop for Gathering<'q> {
    fn drop(self) {
        let Gathering {
            nodes: _,
            asked: _,
            entries: _,
        } = self;
    }
}

impl<'q> Model for Gathering<'q> {
    ghost use Rattle.std.specs.Coded.{codes};
    ghost use Rattle.std.specs.Prelude.{map};
    ghost use Rattle.markers.specs.Tied.MarkerCode.{tree_code};
    ghost use Rattle.resolve.specs.Tied.Building.{Gathered};

    ghost Value = { Gathered };

    ghost coded = { Prim.hlevel (codes, tree_code) };

    ghost view = { λ g. record {
      nodes = g.nodes;
      asked = map (λ wanted. wanted.now) g.asked.items;
      entries = g.entries.items;
    } };
}

/// The numbers of the nodes of a requirement's extras.
fn extras_of(
    alloc: Global,
    nodes: &mut Nodes,
    wanted: &Requirement,
) -> Result<Seq<usize>, AllocError>
    ensures longer { IfOk result (λ _. IsLonger nodes.old nodes.new) }
    ensures only { IfOk result (λ _. (node : Node) → Contains nodes.new node
        → Contains nodes.old node ⊎ Contains (map (with_extra wanted.now.name) wanted.now.extras)
        node) }
    ensures numbers { IfOk result
        (λ numbers. AllStand nodes.new numbers (map (with_extra wanted.now.name)
        wanted.now.extras)) }
{
    let extras = wanted.extras();
    let mut numbers = Vec::with_capacity(alloc, extras.len())?;
    for extra in extras {
        let number = nodes.number_of(alloc, wanted.name(), Some(extra))?;
        numbers.push(number)?;
    }
    Ok(Seq::from_vec(numbers))
}

impl<'q> Gathering<'q> {
    pub(crate) fn new(alloc: Global) -> Gathering<'q>
        ensures { result ≡ record { nodes = []; asked = []; entries = [] } }
    {
        Gathering {
            nodes: Nodes::new(alloc),
            asked: Vec::new(alloc),
            entries: Vec::new(alloc),
        }
    }

    /// The number of a requirement, which is put behind the others with its entry.
    fn ask(
        &mut self,
        alloc: Global,
        problem: &Problem<'_>,
        wanted: &'q Requirement,
    ) -> Result<usize, AllocError>
        requires met { Contains (requirements_met problem.now) wanted.now }
        requires entries { AreEntries problem.now self.old }
        ensures entries { IfOk result (λ _. AreEntries problem.now self.new) }
        ensures grown { IfOk result (λ _. IsGrown self.old self.new) }
        ensures number { IfOk result (λ number. Stands self.new.asked number wanted.now) }
    {
        let number = self.asked.len();
        let node = self.nodes.number_of(alloc, wanted.name(), None)?;
        let more = extras_of(alloc, &mut self.nodes, wanted)?;
        let admits = admissions(alloc, problem, wanted)?;
        self.entries.push(Entry { node, more, admits })?;
        self.asked.push(wanted)?;
        Ok(number)
    }

    /// The numbers of what the active lines ask for.
    pub(crate) fn ask_lines(
        &mut self,
        alloc: Global,
        problem: &'q Problem<'_>,
    ) -> Result<Seq<usize>, AllocError>
        requires entries { AreEntries problem.now self.old }
        ensures entries { IfOk result (λ _. AreEntries problem.now self.new) }
        ensures numbers { IfOk result
            (λ numbers. AllStand self.new.asked numbers problem.now.active) }
    {
        let lines = problem.active.as_slice();
        let mut numbers = Vec::with_capacity(alloc, lines.len())?;
        for wanted in lines {
            let number = self.ask(alloc, problem, wanted)?;
            numbers.push(number)?;
        }
        Ok(Seq::from_vec(numbers))
    }

    /// The numbers of what is wanted for a release.
    fn ask_release(
        &mut self,
        alloc: Global,
        problem: &Problem<'_>,
        wanted: &[&'q Requirement],
    ) -> Result<Seq<usize>, AllocError>
        requires met { (asked : RequirementParts) → Contains (map (λ w. w.now) wanted.now) asked
            → Contains (requirements_met problem.now) asked }
        requires entries { AreEntries problem.now self.old }
        ensures entries { IfOk result (λ _. AreEntries problem.now self.new) }
        ensures grown { IfOk result (λ _. IsGrown self.old self.new) }
        ensures numbers { IfOk result
            (λ numbers. AllStand self.new.asked numbers (map (λ w. w.now) wanted.now)) }
    {
        let mut numbers = Vec::with_capacity(alloc, wanted.len())?;
        for requirement in wanted {
            let number = self.ask(alloc, problem, *requirement)?;
            numbers.push(number)?;
        }
        Ok(Seq::from_vec(numbers))
    }

    /// For each release the numbers of what is wanted.
    fn ask_releases(
        &mut self,
        alloc: Global,
        problem: &Problem<'_>,
        releases: &[Lent<'q, Requirement>],
    ) -> Result<Seq<Seq<usize>>, AllocError>
        requires met { (wanted : List RequirementParts) → Contains releases.now wanted
            → (asked : RequirementParts) → Contains wanted asked
            → Contains (requirements_met problem.now) asked }
        requires entries { AreEntries problem.now self.old }
        ensures entries { IfOk result (λ _. AreEntries problem.now self.new) }
        ensures grown { IfOk result (λ _. IsGrown self.old self.new) }
        ensures rows { IfOk result (λ rows. AreWants self.new.asked rows releases.now) }
    {
        let mut rows = Vec::with_capacity(alloc, releases.len())?;
        for wanted in releases {
            let numbers = self.ask_release(alloc, problem, wanted.as_slice())?;
            rows.push(numbers)?;
        }
        Ok(Seq::from_vec(rows))
    }

    /// For each release of a node's name the numbers of its dependencies that count at the node.
    fn ask_node(
        &mut self,
        alloc: Global,
        wants: &mut ReleaseWants<'q>,
        number: usize,
    ) -> Result<Seq<Seq<usize>>, AllocError>
        requires within { number < length self.old.nodes }
        requires entries { AreEntries wants.old self.old }
        ensures same { wants.new ≡ wants.old }
        ensures entries { IfOk result (λ _. AreEntries wants.old self.new) }
        ensures grown { IfOk result (λ _. IsGrown self.old self.new) }
        ensures rows { IfOk result (λ rows. (node : _) → Stands self.old.nodes number node
            → IsWanted wants.old self.new.asked rows node) }
    {
        what_is_needed_can_be_met();
        let node = self.nodes.as_slice()[number].clone()?;
        let releases = wants.at(alloc, &node)?;
        self.ask_releases(alloc, wants.problem(), releases.as_slice())
    }

    /// Follows the nodes that are there, and those that come to them, to what is wanted at each.
    pub(crate) fn ask_nodes(
        &mut self,
        alloc: Global,
        problem: &'q Problem<'q>,
    ) -> Result<Seq<Seq<Seq<usize>>>, AllocError>
        requires entries { AreEntries problem.now self.old }
        ensures entries { IfOk result (λ _. AreEntries problem.now self.new) }
        ensures grown { IfOk result (λ _. IsGrown self.old self.new) }
        ensures wants { IfOk result
            (λ wants. AllZip (IsWanted problem.now self.new.asked) wants self.new.nodes) }
    {
        let mut releases = ReleaseWants::new(alloc, problem);
        let mut wants = Vec::new(alloc);
        'nodes: while wants.len() < self.nodes.len() {
            let rows = self.ask_node(alloc, &mut releases, wants.len())?;
            wants.push(rows)?;
        }
        Ok(Seq::from_vec(wants))
    }

    /// The nodes.
    pub(crate) fn nodes(&self) -> &[Node]
        ensures { result.now ≡ self.now.nodes }
    {
        self.nodes.as_slice()
    }

    /// The nodes, and the entries of the requirements.
    pub(crate) fn into_parts(self) -> (Seq<Node>, Seq<Entry>)
        ensures nodes { result.0 ≡ self.entry.nodes }
        ensures entries { result.1 ≡ self.entry.entries }
    {
        let Gathering {
            nodes,
            asked: _,
            entries,
        } = self;
        (nodes.into_seq(), Seq::from_vec(entries))
    }
}
