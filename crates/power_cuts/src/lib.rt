//! What a power cut in the middle of a save can do to a history: laws of the journal and its files, each the contract of a
//! function that does nothing.
#![tactic(auto)]

pub mod laws;
