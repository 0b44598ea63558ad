// What a resolver answers.

use pep440::Version;
use pep508::Name;
use std::collections::BTreeMap;

/// The answer to a problem.
#[derive(Drop)]
pub enum Answer {
    /// The best solution: a version for each name that is needed.
    Solution(BTreeMap<Name, Version>),
    /// No versions meet all requirements.
    NoSolution,
}
