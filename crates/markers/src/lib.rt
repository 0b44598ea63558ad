//! Names, environments and their markers (PEP 503, PEP 508, PEP 685).
//!
//! Whether a marker holds in an environment, with an extra:
//!
//! ```rust
//! let marker = Marker::parse(alloc, "os_name == 'posix' and extra == 'Web_UI'")?;
//! let extra = Name::parse(alloc, "web.ui")?;
//! Ok(marker.holds(environment, Some(&extra)))
//! ```
#![tactic(auto)]

mod comparison;
mod environment;
mod fault;
pub mod laws;
mod marker;
mod marker_atom;
pub mod marker_extras;
mod marker_group;
pub mod marker_laws;
mod marker_reader;
pub mod marker_relations;
mod marker_stack;
mod marker_token;
mod name;
mod value;
mod variable;

pub use crate::comparison::Comparison;
pub use crate::environment::Environment;
pub use crate::fault::{Cause, Fault};
pub use crate::marker::Marker;
pub use crate::name::{Name, is_name_byte};
pub use crate::variable::{VARIABLES, Variable};
pub use pep440::{Clause, Fault as VersionFault, LocalPart, Operator, Pre, SpecifierSet, Version};
