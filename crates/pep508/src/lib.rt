//! Dependency specifiers (PEP 508): requirements, and the lines of a requirements file.
//!
//! What a line asks for, and whether it counts in an environment:
//!
//! ```rust
//! let wanted = Requirement::parse(alloc, "Flask[async]>=2 ; python_version >= '3.9'")?;
//! Ok(wanted.name().normal() == "flask" && wanted.is_active(environment))
//! ```
#![tactic(auto)]

mod condition;
mod cuts;
mod file;
pub mod laws;
mod line;
mod parts;
mod req_line;
mod requirement;
mod short_lines;
mod slices;
mod specifier_text;

pub use crate::file::ReqFile;
pub use crate::line::Line;
pub use crate::req_line::ReqLine;
pub use crate::requirement::Requirement;
pub use crate::specifier_text::SpecifierText;
pub use markers::{
    Cause, Clause, Comparison, Environment, Fault, LocalPart, Marker, Name, Operator, Pre,
    SpecifierSet, VARIABLES, Variable, Version, VersionFault, is_name_byte,
};
