// The history for people: a line for each step.

use crate::diff_text::add_entry_change;
use crate::line_edit::{LineEdit, line_edit};
use crate::new_lock_text::add_new_lock;
use crate::shown::ShownSteps;
use crate::target_text::{add_entry_count, has_same_target, sign_of_whole, target_lines};
use edits::{Cause, Change, Line, Splice, TargetName};
use lists::Text;
use phrases::{Ink, Style, add_plain, add_specifiers};
use std::alloc::{AllocError, Global};

/// How many characters a line of the history has at most.
const WIDTH: usize = 100;

/// How many of them mark whether the state is the present one.
const MARK: usize = 2;

/// A line for the first state, and one for each step behind it that tells what it did, as far as its
/// change shows that. The present state is marked. A longer line is cut. With `long`, a line for each
/// entry that came, went or changed stands under the step's. The present state is bold, and what stands under a step is in the
/// colours of a difference.
pub fn history_text(
    alloc: Global,
    steps: ShownSteps<'_>,
    long: bool,
    style: Style,
) -> Result<String, AllocError> {
    let mut text = String::new(alloc);
    add_state(&mut text, style, steps.cursor == 0, "0 init")?;
    for (position, change) in steps.changes.iter().enumerate() {
        let number = position.saturating_add(1);
        let mut step = format!(in alloc; "{number} ")?;
        add_step(alloc, &mut step, change)?;
        add_state(&mut text, style, steps.cursor == number, step.as_str())?;
        if long {
            add_targets(alloc, &mut text, style, change)?;
            add_entries(&mut text, style, change)?;
        }
    }
    Ok(text)
}

/// The line of a state, which is marked and bold where it is the present one.
fn add_state(
    text: &mut String,
    style: Style,
    is_present: bool,
    told: &str,
) -> Result<(), AllocError> {
    if is_present {
        style.begin(text, Ink::Bold)?;
        text.push_str("* ")?;
        add_cut(text, told)?;
        style.end(text)?;
    } else {
        text.push_str("  ")?;
        add_cut(text, told)?;
    }
    text.push_str("\n")
}

/// A line for what became of each target.
fn add_targets(
    alloc: Global,
    text: &mut String,
    style: Style,
    change: &Change,
) -> Result<(), AllocError> {
    for line in target_lines(alloc, style, change.targets())? {
        let line = line.as_str();
        write!(text, "      {line}\n")?;
    }
    Ok(())
}

/// A line for each entry. Those of a target that comes or goes are counted.
fn add_entries(text: &mut String, style: Style, change: &Change) -> Result<(), AllocError> {
    let mut last = None;
    for entry in change.entries() {
        match sign_of_whole(change.targets(), &entry.target) {
            None => {
                add_indented(text, &entry.target)?;
                add_entry_change(text, style, entry)?;
                text.push_str("\n")?;
            }
            Some(sign) if !has_same_target(last, entry) => {
                add_indented(text, &entry.target)?;
                add_entry_count(text, style, sign, change, &entry.target)?;
            }
            Some(_) => {}
        }
        last = Some(entry);
    }
    Ok(())
}

fn add_indented(text: &mut String, target: &TargetName) -> Result<(), AllocError> {
    text.push_str("      ")?;
    add_target(text, target)
}

/// The name of a named target.
fn add_target(text: &mut String, target: &TargetName) -> Result<(), AllocError> {
    let name = target.as_str();
    if name.is_empty() {
        return Ok(());
    }
    write!(text, "{name}: ")
}

/// What is told of a state, or as much of it as stands behind its mark in a line.
fn add_cut(text: &mut String, told: &str) -> Result<(), AllocError> {
    if told.chars().count() <= WIDTH - MARK {
        return text.push_str(told);
    }
    for letter in told.chars().take(WIDTH - MARK - 3) {
        text.push(letter)?;
    }
    text.push_str("...")
}

/// What a step did, as `log` tells it, not cut.
pub(crate) fn step_text(alloc: Global, change: &Change) -> Result<String, AllocError> {
    let mut text = String::new(alloc);
    add_step(alloc, &mut text, change)?;
    Ok(text)
}

/// What a step did: an edit of one line, other targets, or a new lock.
fn add_step(alloc: Global, text: &mut String, change: &Change) -> Result<(), AllocError> {
    match change.splices().first() {
        Some(splice) => add_edit(alloc, text, splice),
        None if !change.targets().is_empty() => add_retarget(alloc, text, change),
        None => add_new_lock(alloc, text, change),
    }
}

/// What became of targets.
fn add_retarget(alloc: Global, text: &mut String, change: &Change) -> Result<(), AllocError> {
    text.push_str("retarget: ")?;
    let lines = target_lines(alloc, Style::plain(), change.targets())?;
    for (position, line) in lines.iter().enumerate() {
        if position > 0 {
            text.push_str(", ")?;
        }
        text.push_str(line.as_str())?;
    }
    Ok(())
}

/// The line that came behind others, the one that went, the one with other specifiers, or how many were replaced.
fn add_edit(alloc: Global, text: &mut String, splice: &Splice) -> Result<(), AllocError> {
    let (old, new) = (splice.old.as_slice(), splice.new.as_slice());
    match line_edit(alloc, old, new)? {
        LineEdit::Addition => {
            text.push_str("add ")?;
            add_line(text, new.last())
        }
        LineEdit::Removal => {
            text.push_str("remove ")?;
            add_name(alloc, text, old.first(), false)
        }
        LineEdit::Constraint => {
            text.push_str("constrain ")?;
            add_name(alloc, text, new.first(), true)
        }
        LineEdit::Replacement => add_replaced(text, old.len().max(new.len())),
    }
}

fn add_replaced(text: &mut String, lines: usize) -> Result<(), AllocError> {
    let word = if lines == 1 { "line" } else { "lines" };
    write!(text, "replace: {lines} {word}")
}

/// A line without its ending.
fn add_line(text: &mut String, line: Option<&Text>) -> Result<(), AllocError> {
    match line {
        Some(line) => add_plain(text, line.as_str().trim_end()),
        None => Ok(()),
    }
}

/// The name of the requirement of a line, and its specifiers with `with_specifiers`.
fn add_name(
    alloc: Global,
    text: &mut String,
    line: Option<&Text>,
    with_specifiers: bool,
) -> Result<(), AllocError> {
    let Some(line) = line else {
        return Ok(());
    };
    let line = match Line::read(alloc, line.as_str()) {
        Ok(line) => line,
        Err(Cause::OutOfMemory) => return Err(AllocError),
        Err(_) => return Ok(()),
    };
    let Some(requirement) = line.requirement() else {
        return Ok(());
    };
    text.push_str(requirement.name().normal())?;
    if with_specifiers && !requirement.specifiers().clauses().is_empty() {
        text.push_str(" ")?;
        add_specifiers(text, requirement)?;
    }
    Ok(())
}
