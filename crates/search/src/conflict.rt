// Choices of nodes, of which conflicts are made.

/// A node with a version of its name.
#[derive(Debug, Clone, Copy)]
pub struct NodeChoice<X, V> {
    pub node: X,
    pub version: V,
}

/// A choice of a search: a node of a table, and the place of a release of its name.
pub type Decision = NodeChoice<usize, usize>;
