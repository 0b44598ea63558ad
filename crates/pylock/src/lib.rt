//! The lock file `pylock.toml` (PEP 751): typed locks for one environment or several, and the TOML
//! table of each.
//!
//! A lock and its entries, whose names rise:
//!
//! ```rust
//! let lock = Lock::read(alloc, bytes)?;
//! Ok(rises(lock.entries()))
//! ```
#![tactic(auto)]

mod canonical_texts;
mod checks;
mod entry;
mod fault;
mod flaw;
mod forms;
mod from_table;
mod joint;
pub mod laws;
mod lock;
mod packages;
mod table;
mod text;
mod values;

pub use crate::canonical_texts::{canonical_version, lower_digest, normal_name};
pub use crate::entry::Entry;
pub use crate::fault::Fault;
pub use crate::flaw::Flaw;
pub use crate::joint::{JointLock, JointPackage, Reference};
pub use crate::lock::Lock;
pub use distributions::DistributionFile;
pub use lists::{Named, rises};
pub use pep508::{Name, Version};
