// What a table is made of, and what a search finds.

use lists::Seq;

/// What a line or a dependency requires.
#[derive(Debug)]
pub struct TableRequirement {
    /// The node of its name without an extra.
    pub node: usize,
    /// The nodes of its name with the extras that it requires.
    pub more: Seq<usize>,
    /// For each place of a release of its name, whether it admits the release.
    pub admits: Seq<bool>,
}

impl Drop for TableRequirement {
    fn drop(self) {
        let TableRequirement {
            node: _,
            more: _,
            admits: _,
        } = self;
    }
}

/// A name, and the place of the release that is chosen for it.
#[derive(Debug, Clone, Copy)]
pub struct TableChoice {
    pub name: usize,
    pub place: usize,
}

/// A choice of a search, and the place of its release among the name's candidates.
#[derive(Debug, Clone, Copy)]
pub struct Frame {
    pub name: usize,
    pub place: usize,
    pub turn: usize,
}

/// What a search knew before it took its last name: how many nodes and requirements, and that name.
#[derive(Clone, Copy)]
pub struct KnownBefore {
    pub last_taken: usize,
    pub nodes: usize,
    pub required: usize,
}
