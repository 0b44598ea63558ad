//! The index: the releases that a lock may choose from, read from a JSON snapshot.
//!
//! An index, and what it leaves out:
//!
//! ```rust
//! let index = Snapshot::read(alloc, bytes)?;
//! match index.skipped() {
//!     // What was left out: of which package, at which place, and why.
//!     [skipped, ..] => Ok(skipped.package().normal() == "x" && skipped.place() == 1),
//!     [] => Ok(false),
//! }
//! ```
#![tactic(auto)]

mod chosen;
mod fault;
mod file;
mod fit;
mod known;
pub mod laws;
mod listed;
mod members;
mod package;
mod pass;
mod release;
mod shape;
mod skipped;
mod snapshot;
mod usable;

pub use crate::fault::Fault;
pub use crate::release::Release;
pub use crate::skipped::{SkipCause, Skipped};
pub use crate::snapshot::Snapshot;
pub use distributions::DistributionFile;
pub use pep440::RequiresPython;
pub use pep508::{
    Cause, Clause, Comparison, Environment, Fault as LineFault, Line, LocalPart, Marker, Name,
    Operator, Pre, ReqFile, ReqLine, Requirement, SpecifierSet, SpecifierText, Variable, Version,
    VersionFault,
};
