//! Versions and version specifiers of Python packages, after PEP 440.
//!
//! Whether a set of specifiers matches a version:
//!
//! ```rust
//! let version = Version::parse(alloc, "3.12.1rc1")?;
//! let set = SpecifierSet::parse(alloc, ">=3.8,!=3.9.*")?;
//! Ok(version.is_pre() && set.matches(&version))
//! ```
#![tactic(auto)]

mod blank;
mod display;
mod fault;
pub mod laws;
mod matching;
mod order;
mod parts;
mod reading;
mod requires_python;
mod sets;
mod spans;
mod specifier;
mod text;
mod version;
mod words;

pub use crate::fault::Fault;
pub use crate::parts::{LocalPart, Pre};
pub use crate::requires_python::RequiresPython;
pub use crate::sets::operator_of;
pub use crate::specifier::{Clause, Operator, SpecifierSet};
pub use crate::version::Version;
