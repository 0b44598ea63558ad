// The graph of locks, as Graphviz reads it.

use crate::quoted_text::add_label;
use states::{Entry, Line, Target};
use std::alloc::{AllocError, Global};

/// A graph with the active lines and the entries of each target, and an edge from each to what it needs. A target with
/// a name is a cluster of its own. Each text of a file stands in quotes.
pub fn graph_text(alloc: Global, lines: &[Line], targets: &[Target]) -> Result<String, AllocError> {
    let mut text = String::from_str(alloc, "digraph lock {\n")?;
    text.push_str("    rankdir=LR;\n    node [shape=box, fontname=\"sans-serif\"];\n")?;
    for target in targets {
        add_target(alloc, &mut text, lines, target)?;
    }
    text.push_str("}\n")?;
    Ok(text)
}

fn add_target(
    alloc: Global,
    text: &mut String,
    lines: &[Line],
    target: &Target,
) -> Result<(), AllocError> {
    let name = target.name.as_str();
    if name.is_empty() {
        return add_lock(alloc, text, lines, target);
    }
    write!(
        text,
        "    subgraph \"cluster {name}\" {{\n    label=\"{name}\";\n"
    )?;
    add_lock(alloc, text, lines, target)?;
    text.push_str("    }\n")
}

fn add_lock(
    alloc: Global,
    text: &mut String,
    lines: &[Line],
    target: &Target,
) -> Result<(), AllocError> {
    for (place, line) in lines.iter().enumerate() {
        add_line(alloc, text, target, line, place.saturating_add(1))?;
    }
    for entry in target.lock.entries() {
        add_entry(text, target, entry)?;
    }
    Ok(())
}

/// An active line with its number, and an edge to what it asks for.
fn add_line(
    alloc: Global,
    text: &mut String,
    target: &Target,
    line: &Line,
    number: usize,
) -> Result<(), AllocError> {
    let Some(wanted) = line.requirement() else {
        return Ok(());
    };
    if !wanted.is_active(&target.environment) {
        return Ok(());
    }
    add_line_node(text, target, number)?;
    write!(text, " [shape=plaintext, label=\"line {number}: ")?;
    add_label(alloc, text, line.text().trim())?;
    text.push_str("\"];\n")?;
    add_line_node(text, target, number)?;
    add_edge(text, target, wanted.name().normal())
}

/// An entry with its version, and an edge to each that it needs.
fn add_entry(text: &mut String, target: &Target, entry: &Entry) -> Result<(), AllocError> {
    let name = entry.name().normal();
    let version = entry.version();
    add_node(text, target, name)?;
    write!(text, " [label=\"{name} {version}\"];\n")?;
    for needed in entry.dependencies() {
        add_node(text, target, name)?;
        add_edge(text, target, needed.normal())?;
    }
    Ok(())
}

/// A node is called by its target and its name. A line has a space in its name, and an entry has none.
fn add_node(text: &mut String, target: &Target, name: &str) -> Result<(), AllocError> {
    let target = target.name.as_str();
    write!(text, "    \"{target}:{name}\"")
}

fn add_line_node(text: &mut String, target: &Target, number: usize) -> Result<(), AllocError> {
    let target = target.name.as_str();
    write!(text, "    \"{target}:line {number}\"")
}

fn add_edge(text: &mut String, target: &Target, needed: &str) -> Result<(), AllocError> {
    let target = target.name.as_str();
    write!(text, " -> \"{target}:{needed}\";\n")
}
