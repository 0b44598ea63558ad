// Refutations as they are written.

use refutations::{Choice, Refutation};
use std::alloc::{AllocError, Global};
use std::collections::BTreeSet;

/// Puts a line for each conflict behind the text, in their order: its choices sorted by bytes, each once,
/// with one space between two, or `-` where it has none.
pub fn add_refutation(
    alloc: Global,
    text: &mut String,
    refutation: &Refutation,
) -> Result<(), AllocError> {
    for conflict in refutation.conflicts() {
        add_conflict(alloc, text, conflict.as_slice())?;
        text.push_str("\n")?;
    }
    Ok(())
}

/// Puts a conflict behind the text: its choices in the order of their texts, with a space between two;
/// `-` where it has none.
pub fn add_conflict(
    alloc: Global,
    text: &mut String,
    conflict: &[Choice],
) -> Result<(), AllocError> {
    if conflict.is_empty() {
        return text.push_str("-");
    }
    let mut is_first = true;
    for choice in sorted_texts(alloc, conflict)? {
        if !is_first {
            text.push_str(" ")?;
        }
        text.push_str(choice.as_str())?;
        is_first = false;
    }
    Ok(())
}

/// A conflict is a set: a choice that stands twice in it is told once.
fn sorted_texts(alloc: Global, conflict: &[Choice]) -> Result<BTreeSet<String>, AllocError> {
    let mut texts = BTreeSet::new(alloc);
    for choice in conflict {
        texts.insert(choice.text(alloc)?)?;
    }
    Ok(texts)
}
