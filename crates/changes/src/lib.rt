//! Changes between two states, with what stood there before: where each leads, and what leads back.
#![tactic(auto)]

mod change;
pub mod laws;
mod same;

pub use crate::change::between::change_between;
pub use crate::change::by_name::target_on;
pub use crate::change::difference::difference;
pub use crate::change::{Change, DigestChange, EntryChange, MovingState, Splice, TargetChange};
pub use crate::same::{Same, are_same};
pub use pylock::Entry;
pub use states::{State, Target, TargetName};
