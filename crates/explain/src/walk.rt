// The order in which a solution's names are taken.

use lists::copy_of;
use pep440::Version;
use pep508::Name;
use problems::Problem;
use std::alloc::{AllocError, Global};
use std::collections::BTreeMap;

/// The name that is taken next where these versions are taken: the least one that is needed beside them and isn't taken.
pub fn next_name(
    alloc: Global,
    problem: &Problem<'_>,
    taken: &BTreeMap<Name, Version>,
) -> Result<Option<Name>, AllocError> {
    let nodes = problem.needed(alloc, taken)?;
    let mut least: Option<&Name> = None;
    for node in nodes.as_slice() {
        let is_before = match least {
            Some(name) => node.name.cmp(name).is_lt(),
            None => true,
        };
        if is_before && !taken.contains_key(&node.name) {
            least = Some(&node.name);
        }
    }
    copy_of(least)
}
