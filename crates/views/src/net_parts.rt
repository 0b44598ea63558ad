// What steps did together to targets, and to the entries of locks.

use edits::{Change, EntryChange, TargetChange};
use lists::{Seq, copied};
use std::alloc::{AllocError, Global};
use std::cmp::Ordering;

/// What becomes of a part of a state: of a target, or of an entry.
pub(crate) trait Part: Clone + Drop {
    /// The order in which a change tells them.
    fn order_of(&self, other: &Self) -> Ordering;

    /// The change of this one's name from what the one leads to, to what the other leads from.
    fn between(&self, next: &Self) -> Result<Self, AllocError>;

    /// The change from what this one leads from, to what the other leads to.
    fn joined(&self, next: &Self) -> Result<Self, AllocError>;

    /// Whether what it leads to is another one.
    fn is_minimal(&self, alloc: Global) -> Result<bool, AllocError>;
}

impl Part for EntryChange {
    fn order_of(&self, other: &EntryChange) -> Ordering {
        match self.target.as_str().cmp(other.target.as_str()) {
            Ordering::Equal => self.name.normal().cmp(other.name.normal()),
            order => order,
        }
    }

    fn between(&self, next: &EntryChange) -> Result<EntryChange, AllocError> {
        Ok(EntryChange {
            target: self.target.clone()?,
            name: self.name.clone()?,
            old: copied(&self.new)?,
            new: copied(&next.old)?,
        })
    }

    fn joined(&self, next: &EntryChange) -> Result<EntryChange, AllocError> {
        Ok(EntryChange {
            target: self.target.clone()?,
            name: self.name.clone()?,
            old: copied(&self.old)?,
            new: copied(&next.new)?,
        })
    }

    fn is_minimal(&self, alloc: Global) -> Result<bool, AllocError> {
        let mut entries = Vec::new(alloc);
        entries.push(self.clone()?)?;
        let none = Seq::new(alloc);
        Ok(Change::new(Seq::new(alloc), none, Seq::from_vec(entries), None).is_some())
    }
}

impl Part for TargetChange {
    fn order_of(&self, other: &TargetChange) -> Ordering {
        self.name.as_str().cmp(other.name.as_str())
    }

    fn between(&self, next: &TargetChange) -> Result<TargetChange, AllocError> {
        Ok(TargetChange {
            name: self.name.clone()?,
            old: copied(&self.new)?,
            new: copied(&next.old)?,
        })
    }

    fn joined(&self, next: &TargetChange) -> Result<TargetChange, AllocError> {
        Ok(TargetChange {
            name: self.name.clone()?,
            old: copied(&self.old)?,
            new: copied(&next.new)?,
        })
    }

    fn is_minimal(&self, alloc: Global) -> Result<bool, AllocError> {
        let mut targets = Vec::new(alloc);
        targets.push(self.clone()?)?;
        let none = Seq::new(alloc);
        Ok(Change::new(Seq::new(alloc), Seq::from_vec(targets), none, None).is_some())
    }
}

/// The changes of parts with those of a further step behind them, both in their order. None where a part of the step
/// isn't the one that stands before it.
pub(crate) fn joined_parts<P: Part>(
    alloc: Global,
    before: Vec<P>,
    step: &[P],
) -> Result<Option<Vec<P>>, AllocError> {
    let mut joined = Vec::with_capacity(alloc, before.len())?;
    let mut left = 0;
    for change in before {
        left = add_front(&mut joined, step, left, &change)?;
        match step.get(left) {
            Some(next) if change.order_of(next).is_eq() => {
                if change.between(next)?.is_minimal(alloc)? {
                    return Ok(None);
                }
                left = left.saturating_add(1);
                add_unless_same(alloc, &mut joined, change.joined(next)?)?;
            }
            _ => joined.push(change)?,
        }
    }
    for next in step.iter().skip(left) {
        joined.push(next.clone()?)?;
    }
    Ok(Some(joined))
}

/// Adds those of the step that stand in front of a change, from this place on, and tells the place behind them.
fn add_front<P: Part>(
    joined: &mut Vec<P>,
    step: &[P],
    from: usize,
    change: &P,
) -> Result<usize, AllocError> {
    let mut left = from;
    for next in step.iter().skip(from) {
        if !next.order_of(change).is_lt() {
            return Ok(left);
        }
        joined.push(next.clone()?)?;
        left = left.saturating_add(1);
    }
    Ok(left)
}

fn add_unless_same<P: Part>(
    alloc: Global,
    joined: &mut Vec<P>,
    change: P,
) -> Result<(), AllocError> {
    if change.is_minimal(alloc)? {
        joined.push(change)?;
    }
    Ok(())
}
