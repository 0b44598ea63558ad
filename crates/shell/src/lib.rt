//! What a call is given from outside beside its files: the words of the command line, with the options that the environment
//! gives, and who reads what it writes.
#![tactic(auto)]

pub mod given_words;
pub mod repeated;
pub mod screen;
