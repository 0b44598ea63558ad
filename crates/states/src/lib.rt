//! States of a requirements file with a lock for each of its targets.
//!
//! A target of the empty name, locked for the lines over an index:
//!
//! ```rust
//! let kept = BTreeMap::new(alloc);
//! let name = TargetName::empty(alloc);
//! let mut targets = Vec::new(alloc);
//! targets.push(Unlocked { name, environment, kept })?;
//! match locked(alloc, lines, Seq::from_vec(targets), &Pool::whole(index), &Learning)? {
//!     Some(state) => Ok(state.targets()[0].lock.entries().len()),
//!     None => Ok(0),
//! }
//! ```
#![tactic(auto)]

mod dependencies;
mod entry;
pub mod laws;
mod locks;
mod pool;
mod refusal;
mod state;
mod target;
mod target_name;
mod targets;

pub use crate::locks::{Unlocked, locked};
pub use crate::pool::Pool;
pub use crate::refusal::{Refusal, SavedFile};
pub use crate::state::State;
pub use crate::state::fit::first_unfit;
pub use crate::state::lock_for_lines::{are_closed, are_lines_met, is_line_met};
pub use crate::state::reach::are_reached;
pub use crate::target::Target;
pub use crate::target_name::{LockFileName, TargetName};
pub use crate::targets::Targets;
pub use pep508::{Environment, Line, Name, ReqFile};
pub use pylock::{DistributionFile, Entry, Lock};
pub use resolve::{Learning, Plain, Resolver};
pub use snapshot::Snapshot;
