// The changes of a folder in memory, and what stands in a file's place after them.

ghost use Rattle.std.specs.Prelude.{◌≡◌, IfOk};
ghost use Rattle.memory_folder.specs.Changes.{at_name, changed_at, held_after};

use lists::{Seq, Text};
use std::alloc::{AllocError, Global};

/// A change that was made.
#[derive(Drop)]
pub enum Change {
    Staged(Text, Seq<u8>),
    Renamed(Text),
    Removed(Text),
    Cleared(Text),
}

/// What stands in the place of a file and beside it.
#[derive(Drop)]
pub struct Standing {
    pub placed: Option<Seq<u8>>,
    pub beside: Option<Seq<u8>>,
}

/// What stands there after these changes.
pub fn standing_after(alloc: Global, changes: &[Change], name: &str) -> Result<Standing, AllocError>
    ensures { IfOk result (λ standing. standing ≡ at_name name.now (held_after changes.now)) }
{
    let mut standing = Standing {
        placed: None,
        beside: None,
    };
    for index in 0..changes.len() {
        standing = changed(alloc, standing, &changes[index], name)?;
    }
    Ok(standing)
}

/// What stands there after one change more.
fn changed(
    alloc: Global,
    standing: Standing,
    change: &Change,
    name: &str,
) -> Result<Standing, AllocError>
    ensures { IfOk result (λ after. after ≡ changed_at name.now change.now standing) }
{
    let Standing { placed, beside } = standing;
    match change {
        Change::Staged(other, bytes) if other.as_str() == name => Ok(Standing {
            placed,
            beside: Some(Seq::from_vec(bytes.as_slice().to_vec(alloc)?)),
        }),
        Change::Renamed(other) if other.as_str() == name => Ok(Standing {
            placed: beside,
            beside: None,
        }),
        Change::Removed(other) if other.as_str() == name => Ok(Standing {
            placed: None,
            beside,
        }),
        Change::Cleared(other) if other.as_str() == name => Ok(Standing {
            placed,
            beside: None,
        }),
        _other => Ok(Standing { placed, beside }),
    }
}
