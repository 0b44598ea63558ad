// What a search derives: candidates that are excluded, and nodes that are needed.

use crate::table_term::TableTerm;

/// Why a candidate is excluded, or a node is needed.
#[derive(Debug, Clone, Copy)]
pub enum DerivationCause {
    /// A line doesn't admit it, or needs it.
    Line(usize),
    /// It doesn't admit itself.
    Own,
    /// What is left of another node, or its one candidate.
    Node(usize),
    /// A recorded incompatibility, by its place.
    Incompatibility(usize),
    /// Another candidate was chosen.
    Decision,
}

/// Candidates of a node that are excluded; or a node that is needed, then without candidates.
#[derive(Drop)]
pub struct Derivation {
    pub term: TableTerm,
    pub is_need: bool,
    pub cause: DerivationCause,
}
