// Conflicts as rows write them.

use crate::growing_text::GrowingText;
use lists::Seq;
use markers::Name;
use pep440::Version;
use refutations::{Choice, Refutation};
use std::alloc::Global;
use std::cmp::Ordering;
use std::collections::BTreeSet;

/// The choice that a text such as `x[e]==1` tells.
fn choice_of(alloc: Global, told: &str) -> Option<Choice> {
    let (node, version) = told.split_once("==")?;
    let (name, extra) = node.split_once('[').unwrap_or((node, ""));
    let extra = match extra {
        "" => None,
        _ => Some(Name::parse(alloc, extra.trim_end_matches(']')).ok()?),
    };
    Some(Choice {
        name: Name::parse(alloc, name).ok()?,
        extra,
        version: Version::parse(alloc, version).ok()?,
    })
}

/// How two choices are ordered.
fn sign(one: &Choice, other: &Choice) -> &'static str {
    match one.cmp(other) {
        Ordering::Less => " < ",
        Ordering::Equal => " = ",
        Ordering::Greater => " > ",
    }
}

/// Choices, and between each two how they are ordered.
pub fn choices(alloc: Global, told: &[String]) -> Option<String> {
    let mut text = GrowingText::new(alloc);
    let mut before = None;
    for one in told {
        let choice = choice_of(alloc, one.as_str())?;
        if let Some(earlier) = before.as_ref() {
            text.push_str(sign(earlier, &choice));
        }
        text.push_str(choice.text(alloc).ok()?.as_str());
        before = Some(choice);
    }
    text.told()
}

/// The choices between spaces; none for `-`.
fn conflict_of(alloc: Global, told: &str) -> Option<Seq<Choice>> {
    let mut choices = Seq::new(alloc);
    if told != "-" {
        for choice in told.split(' ') {
            choices.push(choice_of(alloc, choice)?).ok()?;
        }
    }
    Some(choices)
}

/// The list of these conflicts.
pub fn refutation_of(alloc: Global, told: &[String]) -> Option<Refutation> {
    let mut conflicts = Seq::new(alloc);
    for conflict in told {
        conflicts.push(conflict_of(alloc, conflict.as_str())?).ok()?;
    }
    Some(Refutation::new(conflicts))
}

/// The texts of the choices, in the order of their bytes.
fn texts_of(alloc: Global, conflict: &[Choice]) -> Option<BTreeSet<String>> {
    let mut choices = BTreeSet::new(alloc);
    for choice in conflict {
        choices.insert(choice.text(alloc).ok()?).ok()?;
    }
    Some(choices)
}

/// Pushes a conflict: its choices in the order of their bytes, or `-`.
fn push_conflict(alloc: Global, text: &mut GrowingText, conflict: &[Choice]) -> Option<()> {
    if conflict.is_empty() {
        text.push_str("-");
        return Some(());
    }
    let mut is_first = true;
    for choice in texts_of(alloc, conflict)? {
        text.push_str(if is_first { "" } else { " " });
        text.push_str(choice.as_str());
        is_first = false;
    }
    Some(())
}

/// The conflicts of a refutation, with a bar between two.
pub fn refutation_text(alloc: Global, refutation: &Refutation) -> Option<String> {
    let mut text = GrowingText::new(alloc);
    let mut separator = "";
    for conflict in refutation.conflicts() {
        text.push_str(separator);
        push_conflict(alloc, &mut text, conflict.as_slice())?;
        separator = " | ";
    }
    text.told()
}
