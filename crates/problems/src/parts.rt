//! Parts of a problem for who writes a resolver or a checker: which releases a requirement admits and why not, which
//! dependencies count, nodes by their numbers, and nodes and choices that are lent. Who has a problem solved needs none of it.

pub use crate::admission::{admissions, admits};
pub use crate::inadmissible::Inadmissible;
pub use crate::lent_choice::{LentChoice, LentNode};
pub use crate::node_wants::NodeWants;
pub use crate::nodes::{Nodes, is_asked};
pub use crate::reasons::inadmissible;
pub use crate::release_wants::ReleaseWants;
pub use crate::releases::{counts, has_version};
