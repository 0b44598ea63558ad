// What a change did to targets.

ghost use Rattle.std.specs.Prelude.{◌≡◌, ◌++◌, [], ◌∷◌, false, IfOk, find, flat_map, length, map, option_copied, string_bytes};
ghost use Rattle.std.specs.Str.{bytes_eq};
ghost use Rattle.changes.specs.Changes.{changes_on};
ghost use Rattle.markers.specs.Environment.{all_variables};
ghost use Rattle.texts.specs.DiffText.{as_line, count_told, is_other, is_same_target, mark, named, noun_of, sign_between, sign_of, target_lines, variable_lines};

use crate::sign::Sign;
use edits::{Change, EntryChange, Environment, TargetChange, TargetName};
use pep508::{VARIABLES, Variable};
use phrases::Style;
use std::alloc::{AllocError, Global};

/// A line for each target that comes or goes, and for each variable of one that gets another environment; without endings.
pub(crate) fn target_lines(
    alloc: Global,
    style: Style,
    changes: &[TargetChange],
) -> Result<Vec<String>, AllocError>
    ensures plain { style.colors ≡ false → IfOk result (λ lines.
        map string_bytes lines.items ≡ flat_map target_lines changes.now) }
{
    let mut lines = Vec::new(alloc);
    for change in changes {
        add_target_lines(alloc, &mut lines, style, change)?;
    }
    Ok(lines)
}

/// The lines of one target.
fn add_target_lines(
    alloc: Global,
    lines: &mut Vec<String>,
    style: Style,
    change: &TargetChange,
) -> Result<(), AllocError>
    ensures plain { style.colors ≡ false → IfOk result (λ _. map string_bytes lines.new.items
        ≡ map string_bytes lines.old.items ++ target_lines change.now) }
{
    match (&change.old, &change.new) {
        (None, Some(_)) => add_whole_line(alloc, lines, style, Sign::Came, &change.name),
        (Some(_), None) => add_whole_line(alloc, lines, style, Sign::Went, &change.name),
        (Some(old), Some(new)) => add_variables(alloc, lines, style, &change.name, old, new),
        (None, None) => Ok(()),
    }
}

/// Puts behind the text how a target is told: by its name, where it has one.
fn add_named(text: &mut String, name: &TargetName) -> Result<(), AllocError>
    ensures { IfOk result (λ _.
        string_bytes text.new ≡ string_bytes text.old ++ named name.now) }
{
    text.push_str("target")?;
    if name.is_empty() {
        return Ok(());
    }
    text.push_str(" ")?;
    text.push_str(name.as_str())
}

/// The line of a target that comes or goes.
fn add_whole_line(
    alloc: Global,
    lines: &mut Vec<String>,
    style: Style,
    sign: Sign,
    name: &TargetName,
) -> Result<(), AllocError>
    ensures plain { style.colors ≡ false → IfOk result (λ _. map string_bytes lines.new.items
        ≡ map string_bytes lines.old.items ++ (mark sign ++ named name.now) ∷ []) }
{
    let mut line = String::new(alloc);
    sign.begin(&mut line, style)?;
    add_named(&mut line, name)?;
    style.end(&mut line)?;
    lines.push(line)?;
    Ok(())
}

/// A line for each variable that has another text.
fn add_variables(
    alloc: Global,
    lines: &mut Vec<String>,
    style: Style,
    name: &TargetName,
    old: &Environment,
    new: &Environment,
) -> Result<(), AllocError>
    ensures plain { style.colors ≡ false → IfOk result (λ _. map string_bytes lines.new.items
        ≡ map string_bytes lines.old.items
        ++ flat_map (variable_lines name.now old.now new.now) all_variables) }
{
    for variable in VARIABLES.as_slice() {
        add_variable(alloc, lines, style, name, old, new, *variable)?;
    }
    Ok(())
}

/// A line for a variable, if it has another text.
fn add_variable(
    alloc: Global,
    lines: &mut Vec<String>,
    style: Style,
    name: &TargetName,
    old: &Environment,
    new: &Environment,
    variable: Variable,
) -> Result<(), AllocError>
    ensures plain { style.colors ≡ false → IfOk result (λ _. map string_bytes lines.new.items
        ≡ map string_bytes lines.old.items
        ++ variable_lines name.now old.now new.now variable) }
{
    if !is_other(old, new, variable) {
        return Ok(());
    }
    let mut line = String::new(alloc);
    add_named(&mut line, name)?;
    line.push_str(": ")?;
    style.add_texts(
        &mut line,
        variable.name(),
        old.text(variable),
        new.text(variable),
    )?;
    lines.push(line)?;
    Ok(())
}

/// Whether a variable has another text.
fn is_other(old: &Environment, new: &Environment, variable: Variable) -> bool
    ensures { result ≡ is_other old.now new.now variable }
{
    old.text(variable) != new.text(variable)
}

/// What becomes of the target of a name.
fn change_on<'a>(changes: &'a [TargetChange], name: &TargetName) -> Option<&'a TargetChange>
    ensures { option_copied result ≡ find (λ t. bytes_eq t.name name.now) changes.now }
{
    changes
        .iter()
        .find(|change| change.name.as_str() == name.as_str())
}

/// Whether a change is one of a target that comes or goes, and of which.
fn sign_between(change: &TargetChange) -> Option<Sign>
    ensures { result ≡ sign_between change.now.old change.now.new }
{
    match (&change.old, &change.new) {
        (None, Some(_)) => Some(Sign::Came),
        (Some(_), None) => Some(Sign::Went),
        (Some(_), Some(_)) => None,
        (None, None) => None,
    }
}

/// Whether a target comes or goes as a whole, and which of both.
pub(crate) fn sign_of_whole(changes: &[TargetChange], name: &TargetName) -> Option<Sign>
    ensures { result ≡ sign_of changes.now name.now }
{
    match change_on(changes, name) {
        Some(change) => sign_between(change),
        None => None,
    }
}

/// How many entries of a target changed.
fn count_of(entries: &[EntryChange], name: &TargetName) -> usize
    ensures { result ≡ length (changes_on name.now entries.now) }
{
    entries
        .iter()
        .filter(|entry| name.as_str() == entry.target.as_str())
        .count()
}

/// The noun behind a number of entries.
fn noun_of(count: usize) -> &'static str
    ensures { result.now ≡ noun_of count }
{
    if count == 1 { "entry" } else { "entries" }
}

/// How many entries a change has of a target that comes or goes.
pub(crate) fn add_entry_count(
    text: &mut String,
    style: Style,
    sign: Sign,
    change: &Change,
    target: &TargetName,
) -> Result<(), AllocError>
    ensures plain { style.colors ≡ false → IfOk result (λ _. string_bytes text.new
        ≡ string_bytes text.old
        ++ as_line (count_told sign (length (changes_on target.now change.now.entries)))) }
{
    let count = count_of(change.entries(), target);
    let noun = noun_of(count);
    sign.begin(text, style)?;
    write!(text, "{count} {noun}")?;
    style.end(text)?;
    text.push_str("\n")
}

/// Whether the last change is one of the same target.
pub(crate) fn has_same_target(last: Option<&EntryChange>, change: &EntryChange) -> bool
    ensures { result ≡ is_same_target (option_copied last.entry) change.now }
{
    match last {
        Some(last) => last.target.as_str() == change.target.as_str(),
        None => false,
    }
}
