// The walk: the least name that is required and not walked is next, with the first candidate that
// is left.

use crate::instance::Instance;
use lists::Bits;
use set_conflicts::flags::{flag, set_flag};
use std::alloc::{AllocError, Global};

/// A name that was walked, by a node of it, and how long the trail was before.
#[derive(Debug, Clone, Copy)]
pub struct Walked {
    pub name: usize,
    pub node: usize,
    pub trail: usize,
}

/// How long the lists of a walk were before a decision.
#[derive(Debug, Clone, Copy)]
struct WalkLevel {
    walked: usize,
    required: usize,
}

/// The names that were walked, and the nodes that lines and walked releases require.
#[derive(Drop)]
pub struct Walk {
    walked: Vec<Walked>,
    /// For each name the place that was walked.
    places: Vec<Option<usize>>,
    required: Vec<usize>,
    is_required: Vec<bool>,
    /// The names of required nodes that were not walked.
    free: Bits,
    levels: Vec<WalkLevel>,
}

impl Walk {
    /// Nothing is walked, and the lines alone require.
    pub fn start(instance: &Instance<'_>) -> Result<Walk, AllocError> {
        let alloc: Global = instance.alloc;
        let places = vec![in alloc; None; instance.table.name_count()]?;
        let is_required = vec![in alloc; false; instance.table.node_count()]?;
        let mut walk = Walk {
            walked: Vec::new(alloc),
            places,
            required: Vec::new(alloc),
            is_required,
            free: Bits::new(alloc),
            levels: Vec::new(alloc),
        };
        for line in instance.table.lines() {
            walk.require(instance, *line)?;
        }
        Ok(walk)
    }

    /// The names that were walked, in their order.
    pub fn walked(&self) -> &[Walked] {
        self.walked.as_slice()
    }

    /// The place that was walked for a name.
    fn place_of(&self, name: usize) -> Option<usize> {
        match self.places.get(name) {
            Some(place) => *place,
            None => None,
        }
    }

    /// Notes that a node is required.
    fn require_node(&mut self, instance: &Instance<'_>, node: usize) -> Result<(), AllocError> {
        if flag(self.is_required.as_slice(), node) {
            return Ok(());
        }
        set_flag(&mut self.is_required, node, true);
        self.required.push(node)?;
        if let Some(name) = instance.name_of(node) {
            if self.place_of(name).is_none() {
                self.free.insert(name)?;
            }
        }
        Ok(())
    }

    /// Notes that the nodes of a requirement are required.
    fn require(&mut self, instance: &Instance<'_>, requirement: usize) -> Result<(), AllocError> {
        if requirement >= instance.table.requirement_count() {
            return Ok(());
        }
        let required = instance.table.requirement(requirement);
        self.require_node(instance, required.node)?;
        for node in required.more.as_slice() {
            self.require_node(instance, *node)?;
        }
        Ok(())
    }

    /// Notes what a walked release requires at a node.
    fn follow(
        &mut self,
        instance: &Instance<'_>,
        node: usize,
        place: usize,
    ) -> Result<(), AllocError> {
        for requirement in instance.table.wants(node, place) {
            self.require(instance, *requirement)?;
        }
        Ok(())
    }

    /// Follows the required nodes from a place on, whose names are walked.
    fn follow_from(&mut self, instance: &Instance<'_>, from: usize) -> Result<(), AllocError> {
        let mut at = from;
        for _ in 0..instance.table.node_count() {
            let Some(node) = self.required.get(at).copied() else {
                return Ok(());
            };
            if let Some(name) = instance.name_of(node) {
                if let Some(place) = self.place_of(name) {
                    self.follow(instance, node, place)?;
                }
            }
            at = at.wrapping_add(1);
        }
        Ok(())
    }

    /// A node of a name that is required.
    fn required_node(&self, instance: &Instance<'_>, name: usize) -> Option<usize> {
        for node in instance.nodes_of(name) {
            if flag(self.is_required.as_slice(), *node) {
                return Some(*node);
            }
        }
        None
    }

    /// The next name, and a node of it that is required.
    pub fn next(&self, instance: &Instance<'_>) -> Option<(usize, usize)> {
        let name = self.free.first_from(0)?;
        let node = self.required_node(instance, name)?;
        Some((name, node))
    }

    /// Walks a name.
    pub fn push(
        &mut self,
        instance: &Instance<'_>,
        walked: Walked,
        place: usize,
    ) -> Result<(), AllocError> {
        let before = self.required.len();
        if let Some(own) = self.places.get_mut(walked.name) {
            *own = Some(place);
        }
        self.free.remove(walked.name);
        self.walked.push(walked)?;
        for node in instance.nodes_of(walked.name) {
            if flag(self.is_required.as_slice(), *node) {
                self.follow(instance, *node, place)?;
            }
        }
        self.follow_from(instance, before)
    }

    /// Begins a decision level.
    pub fn decide(&mut self) -> Result<(), AllocError> {
        let level = WalkLevel {
            walked: self.walked.len(),
            required: self.required.len(),
        };
        self.levels.push(level)?;
        Ok(())
    }

    /// Takes the last name that was walked back.
    fn pop(&mut self) -> Result<(), AllocError> {
        if let Some(walked) = self.walked.pop() {
            if let Some(place) = self.places.get_mut(walked.name) {
                *place = None;
            }
            self.free.insert(walked.name)?;
        }
        Ok(())
    }

    /// Takes the last node that was required back.
    fn pop_required(&mut self, instance: &Instance<'_>) {
        let Some(node) = self.required.pop() else {
            return;
        };
        set_flag(&mut self.is_required, node, false);
        if let Some(name) = instance.name_of(node) {
            if self.required_node(instance, name).is_none() {
                self.free.remove(name);
            }
        }
    }

    /// Takes back what was walked since the last decision.
    pub fn backtrack(&mut self, instance: &Instance<'_>) -> Result<(), AllocError> {
        let Some(level) = self.levels.pop() else {
            return Ok(());
        };
        for _ in level.walked..self.walked.len() {
            self.pop()?;
        }
        self.shorten(instance, level.required);
        Ok(())
    }

    /// Takes required nodes back, until there are so many.
    fn shorten(&mut self, instance: &Instance<'_>, length: usize) {
        for _ in length..self.required.len() {
            self.pop_required(instance);
        }
    }
}
