// Extras that are asked for, and that a downgrade lost.

use edits::{Change, Name, Problem};
use pep440::Version;
use problems::Node;
use problems::parts::counts;
use std::alloc::{AllocError, Global};

/// What is told where a change took a target's package back to a release that asks for nothing by the extra of a needed node.
pub(crate) fn lost_extra(
    alloc: Global,
    problem: &Problem<'_>,
    node: &Node,
    target: &str,
    change: &Change,
) -> Result<Option<String>, AllocError> {
    let Some(extra) = &node.extra else {
        return Ok(None);
    };
    let Some((old, new)) = downgrade_of(change, target, &node.name) else {
        return Ok(None);
    };
    if !has_extra(problem, node, old) || has_extra(problem, node, new) {
        return Ok(None);
    }
    let (name, extra) = (node.name.normal(), extra.normal());
    let note = format!(in alloc;
        "{name} {new} was locked without the extra {extra}: it asks for nothing by it, unlike {name} {old}"
    )?;
    Ok(Some(note))
}

/// The versions before and behind a change that took a package of a target back.
fn downgrade_of<'a>(
    change: &'a Change,
    target: &str,
    name: &Name,
) -> Option<(&'a Version, &'a Version)> {
    let found = change.entries().iter().find(|entry| {
        entry.target.as_str() == target && entry.name == *name
    })?;
    let (Some(old), Some(new)) = (&found.old, &found.new) else {
        return None;
    };
    if old.version().cmp(new.version()).is_gt() {
        Some((old.version(), new.version()))
    } else {
        None
    }
}

/// Whether the release of a node's name with this version asks for something by the node's extra alone.
fn has_extra(problem: &Problem<'_>, node: &Node, version: &Version) -> bool {
    for wanted in problem.dependencies(&node.name, version) {
        if problem.does_count(node, wanted) && !counts(&problem.environment, None, wanted) {
            return true;
        }
    }
    false
}
