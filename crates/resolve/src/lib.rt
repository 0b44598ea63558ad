//! What resolves the problem of a lock: the best solution, or that there is none.
#![tactic(auto)]

mod answer;
mod candidates;
mod first_candidate;
mod followed_nodes;
mod gathered_nodes;
pub mod laws;
mod method;
mod names;
mod resolver;
mod search_answer;
mod solution;
pub mod table;
mod walk;

pub use crate::answer::Answer;
pub use crate::resolver::{Learning, Plain, RESOLVER, Resolver};
pub use problems::{Node, Problem};
