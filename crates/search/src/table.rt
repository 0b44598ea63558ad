// A table of numbers that stands for the rules of a problem.

ghost use Rattle.std.specs.Prelude.{◌≡◌, ◌<◌, Some, None, true, length, if◌then◌else◌};
ghost use Rattle.std.specs.List.{list_all};
ghost use Rattle.search.specs.Table.{TableParts, requirement_at, name_of, required_nodes, wants_at, candidates_of, all_below, is_on, requirement_in_range, in_range, admits_at};
ghost use Rattle.search.specs.Ranges.{EachBelow};

use crate::parts::TableRequirement;
use lists::Seq;
use std::marker::Model;

/// Names, nodes, requirements and candidates as numbers, each less than the length of its list.
///
/// A contract sees it as its lists, and `rules_of` those says what rules they stand for.
pub struct Table {
    nodes: Seq<usize>,
    requirements: Seq<TableRequirement>,
    candidates: Seq<Seq<usize>>,
    wants: Seq<Seq<Seq<usize>>>,
    lines: Seq<usize>,
}

impl Model for Table {
    ghost use Rattle.std.specs.Prelude.{◌≡◌, true};
    ghost use Rattle.search.specs.Table.{TableParts, in_range};

    ghost Value = { TableParts };

    ghost view = { λ t. record {
      nodes = t.nodes;
      requirements = t.requirements;
      candidates = t.candidates;
      wants = t.wants;
      lines = t.lines;
    } };

    ghost invariant = { λ t. in_range (record {
      nodes = t.nodes;
      requirements = t.requirements;
      candidates = t.candidates;
      wants = t.wants;
      lines = t.lines;
    }) ≡ true };
}

impl Drop for Table {
    fn drop(self) {
        let Table {
            nodes: _,
            requirements: _,
            candidates: _,
            wants: _,
            lines: _,
        } = self;
    }
}

/// Whether each of the numbers is less than the bound.
fn are_below(bound: usize, numbers: &[usize]) -> bool
    ensures { result ≡ all_below bound numbers.now }
{
    numbers.iter().all(|n| *n < bound)
}

/// Whether a node is in range, and on this name.
fn is_node_on(nodes: &[usize], name: usize, node: usize) -> bool
    ensures { result ≡ is_on nodes.now name node }
{
    node < nodes.len() && nodes[node] == name
}

/// Whether nodes are in range, and on this name.
fn are_nodes_on(nodes: &[usize], name: usize, required: &[usize]) -> bool
    ensures { result ≡ list_all (is_on nodes.now name) required.now }
{
    required.iter().all(|node| is_node_on(nodes, name, *node))
}

/// Whether a requirement's nodes are in range, and all on one name.
fn is_requirement_in_range(nodes: &[usize], requirement: &TableRequirement) -> bool
    ensures { result ≡ requirement_in_range nodes.now requirement.now }
{
    requirement.node < nodes.len()
        && are_nodes_on(nodes, nodes[requirement.node], requirement.more.as_slice())
}

/// Whether the nodes of all requirements are in range.
fn are_requirements_in_range(nodes: &[usize], requirements: &[TableRequirement]) -> bool
    ensures { result ≡ list_all (requirement_in_range nodes.now) requirements.now }
{
    requirements
        .iter()
        .all(|requirement| is_requirement_in_range(nodes, requirement))
}

/// Whether what one node wants is in range.
fn is_want_in_range(bound: usize, releases: &[Seq<usize>]) -> bool
    ensures { result ≡ list_all (all_below bound) releases.now }
{
    releases
        .iter()
        .all(|requirements| are_below(bound, requirements.as_slice()))
}

/// Whether what the nodes want is in range.
fn are_wants_in_range(bound: usize, wants: &[Seq<Seq<usize>>]) -> bool
    ensures { result ≡ list_all (list_all (all_below bound)) wants.now }
{
    wants
        .iter()
        .all(|releases| is_want_in_range(bound, releases.as_slice()))
}

impl Table {
    /// The table of these parts, or nothing where some number is out of its range. It has no
    /// other refusal.
    ///
    /// `nodes` has for each node its name; `candidates` for each name the places of its releases
    /// in the order in which they are preferred; `wants` for each node, and each place of a
    /// release of its name, the requirements that count there; `lines` the requirements of the
    /// lines.
    ///
    /// Names are less than the length of `candidates`, nodes than that of `nodes`, requirements
    /// than that of `requirements`; the nodes of a requirement are on one name.
    pub fn new(
        nodes: Seq<usize>,
        requirements: Seq<TableRequirement>,
        candidates: Seq<Seq<usize>>,
        wants: Seq<Seq<Seq<usize>>>,
        lines: Seq<usize>,
    ) -> Option<Table>
        ensures { let parts : TableParts = record {
          nodes = nodes;
          requirements = requirements;
          candidates = candidates;
          wants = wants;
          lines = lines;
        } in result
            ≡ (if in_range parts then Some parts else None) }
    {
        let bound = requirements.len();
        let holds = are_below(candidates.len(), nodes.as_slice())
            && are_requirements_in_range(nodes.as_slice(), requirements.as_slice())
            && are_wants_in_range(bound, wants.as_slice())
            && are_below(bound, lines.as_slice());
        if !holds {
            return None;
        }
        Some(Table {
            nodes,
            requirements,
            candidates,
            wants,
            lines,
        })
    }

    /// How many names there are.
    pub fn name_count(&self) -> usize
        ensures count { result ≡ length self.now.candidates }
        ensures known { in_range self.now ≡ true }
    {
        self.candidates.len()
    }

    /// How many nodes there are.
    pub fn node_count(&self) -> usize
        ensures { result ≡ length self.now.nodes }
    {
        self.nodes.len()
    }

    /// How many requirements there are.
    pub fn requirement_count(&self) -> usize
        ensures { result ≡ length self.now.requirements }
    {
        self.requirements.len()
    }

    /// The requirements of the lines.
    pub fn lines(&self) -> &[usize]
        ensures lines { result.now ≡ self.now.lines }
        ensures known { EachBelow (length self.now.requirements) self.now.lines }
    {
        self.lines.as_slice()
    }

    /// The name of a node.
    pub fn name_of(&self, node: usize) -> usize
        requires { node < length self.now.nodes }
        ensures name { result ≡ name_of self.now node }
        ensures known { result < length self.now.candidates }
    {
        let nodes = self.nodes.as_slice();
        nodes[node]
    }

    /// A requirement.
    pub fn requirement(&self, requirement: usize) -> &TableRequirement
        requires { requirement < length self.now.requirements }
        ensures requirement { result.now ≡ requirement_at self.now requirement }
        ensures known { EachBelow (length self.now.nodes) (required_nodes (requirement_at self.now
            requirement)) }
    {
        let requirements = self.requirements.as_slice();
        &requirements[requirement]
    }

    /// The name that a requirement is on.
    pub fn name_required(&self, requirement: usize) -> usize
        requires { requirement < length self.now.requirements }
        ensures { result ≡ name_of self.now (requirement_at self.now requirement).node }
    {
        self.name_of(self.requirement(requirement).node)
    }

    /// Whether a requirement admits the release at a place of its name.
    pub fn does_admit(&self, requirement: usize, place: usize) -> bool
        requires { requirement < length self.now.requirements }
        ensures { result ≡ admits_at self.now requirement place }
    {
        match self.requirement(requirement).admits.as_slice().get(place) {
            None => false,
            Some(admitted) => *admitted,
        }
    }

    /// The places of the candidates of a name, in the order in which they are preferred.
    pub fn candidates(&self, name: usize) -> &[usize]
        ensures { result.now ≡ candidates_of self.now name }
    {
        match self.candidates.as_slice().get(name) {
            None => &[],
            Some(places) => places.as_slice(),
        }
    }

    /// What the release at a place of a node's name wants at the node.
    pub fn wants(&self, node: usize, place: usize) -> &[usize]
        ensures wants { result.now ≡ wants_at self.now node place }
        ensures known { EachBelow (length self.now.requirements) (wants_at self.now node place) }
    {
        match self.wants.as_slice().get(node) {
            None => &[],
            Some(releases) => match releases.as_slice().get(place) {
                None => &[],
                Some(requirements) => requirements.as_slice(),
            },
        }
    }
}
