//! Why a call ends before it is done.
//!
//! A subcommand that can't be done ends with a `Stop`.
#![tactic(auto)]

mod stop;

pub use crate::stop::{Stop, UsageText, stop_of_request, stop_of_usage, unless_refused};
