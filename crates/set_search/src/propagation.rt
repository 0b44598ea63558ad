// What unit propagation has still to look at, and the conflict that it met.

use set_conflicts::flags::{flag, set_flag};
use std::alloc::{AllocError, Global};

/// What can't be.
#[derive(Debug, Clone, Copy)]
pub enum Conflict {
    /// A needed node has nothing left.
    Node(usize),
    /// All terms of a recorded incompatibility are satisfied.
    Incompatibility(usize),
}

/// The nodes to look at, the learned incompatibilities by their places, and the conflict that was
/// met.
#[derive(Drop)]
pub struct Propagation {
    queue: Vec<usize>,
    is_queued: Vec<bool>,
    learned: Vec<usize>,
    conflict: Option<Conflict>,
}

impl Propagation {
    /// Nothing to look at, of so many nodes.
    pub fn start(alloc: Global, nodes: usize) -> Result<Propagation, AllocError> {
        let is_queued = vec![in alloc; false; nodes]?;
        Ok(Propagation {
            queue: Vec::new(alloc),
            is_queued,
            learned: Vec::new(alloc),
            conflict: None,
        })
    }

    /// The conflict that was met first.
    pub fn conflict(&self) -> Option<Conflict> {
        self.conflict
    }

    /// Notes a conflict, unless one was met.
    pub fn fail(&mut self, conflict: Conflict) {
        if self.conflict.is_none() {
            self.conflict = Some(conflict);
        }
    }

    /// The learned incompatibilities, by their places.
    pub fn learned(&self) -> &[usize] {
        self.learned.as_slice()
    }

    /// Adds a learned incompatibility.
    pub fn learn(&mut self, at: usize) -> Result<(), AllocError> {
        self.learned.push(at)?;
        Ok(())
    }

    /// Adds a node to look at, unless it is one.
    pub fn wake(&mut self, node: usize) -> Result<(), AllocError> {
        if !flag(self.is_queued.as_slice(), node) {
            set_flag(&mut self.is_queued, node, true);
            self.queue.push(node)?;
        }
        Ok(())
    }

    /// Takes the next node to look at.
    pub fn pop(&mut self) -> Option<usize> {
        let node = self.queue.pop()?;
        set_flag(&mut self.is_queued, node, false);
        Some(node)
    }

    /// Forgets the conflict, and what was to be looked at.
    pub fn clear(&mut self) {
        for _ in 0..self.queue.len() {
            self.pop();
        }
        self.conflict = None;
    }
}
