//! The distribution files of a release: wheels and source distributions, as an index lists them and as a
//! lock keeps them (PEP 503, PEP 691, PEP 751).
#![tactic(auto)]

mod digest;
mod file;
mod form;

pub use crate::digest::digest_in;
pub use crate::file::{DistributionFile, is_size};
pub use crate::form::Form;
