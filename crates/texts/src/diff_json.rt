// What a change did, as JSON.

use crate::entry_json::entry_value;
use crate::json_text::{json_text, put_other_lines, text_value};
use edits::{Change, DigestChange, Entry, EntryChange, Environment, Splice, TargetChange};
use lists::Text;
use pep508::VARIABLES;
use serde_json::{Map, Value, put};
use std::alloc::{AllocError, Global};

/// The change that leads from one place of a history to another, as a line of JSON.
pub fn diff_json(
    alloc: Global,
    change: &Change,
    (from, to): (usize, usize),
    has_other_lines: bool,
) -> Result<String, AllocError> {
    let mut members = diff_members(alloc, change)?;
    put(&mut members, alloc, "from", Value::from(from))?;
    put(&mut members, alloc, "to", Value::from(to))?;
    put_other_lines(alloc, &mut members, has_other_lines)?;
    json_text(alloc, &Value::Object(members))
}

/// What a change takes out and puts in: lines, targets where it changes some, entries, and the digest of the index.
pub fn diff_value(alloc: Global, change: &Change) -> Result<Value, AllocError> {
    Ok(Value::Object(diff_members(alloc, change)?))
}

/// The same, as the members of an object.
pub(crate) fn diff_members(
    alloc: Global,
    change: &Change,
) -> Result<Map<String, Value>, AllocError> {
    let mut members = Map::new(alloc);
    let lines = splices_value(alloc, change.splices())?;
    put(&mut members, alloc, "lines", lines)?;
    if !change.targets().is_empty() {
        let targets = targets_value(alloc, change.targets())?;
        put(&mut members, alloc, "targets", targets)?;
    }
    let entries = entries_value(alloc, change.entries())?;
    put(&mut members, alloc, "entries", entries)?;
    let index = match change.digests() {
        Some(digests) => digests_value(alloc, digests)?,
        None => Value::Null,
    };
    put(&mut members, alloc, "index", index)?;
    Ok(members)
}

fn splices_value(alloc: Global, splices: &[Splice]) -> Result<Value, AllocError> {
    let mut values = Vec::with_capacity(alloc, splices.len())?;
    for splice in splices {
        values.push(splice_value(alloc, splice)?)?;
    }
    Ok(Value::Array(values))
}

/// Lines count from 1.
fn splice_value(alloc: Global, splice: &Splice) -> Result<Value, AllocError> {
    let mut members = Map::new(alloc);
    let line = splice.place.saturating_add(1);
    put(&mut members, alloc, "line", Value::from(line))?;
    let old = texts_value(alloc, splice.old.as_slice())?;
    put(&mut members, alloc, "old", old)?;
    let new = texts_value(alloc, splice.new.as_slice())?;
    put(&mut members, alloc, "new", new)?;
    Ok(Value::Object(members))
}

fn texts_value(alloc: Global, texts: &[Text]) -> Result<Value, AllocError> {
    let mut values = Vec::with_capacity(alloc, texts.len())?;
    for text in texts {
        values.push(text_value(alloc, text.as_str())?)?;
    }
    Ok(Value::Array(values))
}

fn targets_value(alloc: Global, changes: &[TargetChange]) -> Result<Value, AllocError> {
    let mut values = Vec::with_capacity(alloc, changes.len())?;
    for change in changes {
        values.push(target_change_value(alloc, change)?)?;
    }
    Ok(Value::Array(values))
}

fn target_change_value(alloc: Global, change: &TargetChange) -> Result<Value, AllocError> {
    let mut members = Map::new(alloc);
    let target = text_value(alloc, change.name.as_str())?;
    put(&mut members, alloc, "target", target)?;
    let old = environment_or_null(alloc, &change.old)?;
    put(&mut members, alloc, "old", old)?;
    let new = environment_or_null(alloc, &change.new)?;
    put(&mut members, alloc, "new", new)?;
    Ok(Value::Object(members))
}

/// The text of each variable.
fn environment_or_null(
    alloc: Global,
    environment: &Option<Environment>,
) -> Result<Value, AllocError> {
    let Some(environment) = environment else {
        return Ok(Value::Null);
    };
    let mut members = Map::new(alloc);
    for variable in VARIABLES.as_slice() {
        let text = text_value(alloc, environment.text(*variable))?;
        put(&mut members, alloc, variable.name(), text)?;
    }
    Ok(Value::Object(members))
}

fn entries_value(alloc: Global, changes: &[EntryChange]) -> Result<Value, AllocError> {
    let mut values = Vec::with_capacity(alloc, changes.len())?;
    for change in changes {
        values.push(entry_change_value(alloc, change)?)?;
    }
    Ok(Value::Array(values))
}

fn entry_change_value(alloc: Global, change: &EntryChange) -> Result<Value, AllocError> {
    let mut members = Map::new(alloc);
    let target = text_value(alloc, change.target.as_str())?;
    put(&mut members, alloc, "target", target)?;
    let name = text_value(alloc, change.name.normal())?;
    put(&mut members, alloc, "name", name)?;
    let old = entry_or_null(alloc, &change.old)?;
    put(&mut members, alloc, "old", old)?;
    let new = entry_or_null(alloc, &change.new)?;
    put(&mut members, alloc, "new", new)?;
    Ok(Value::Object(members))
}

fn entry_or_null(alloc: Global, entry: &Option<Entry>) -> Result<Value, AllocError> {
    match entry {
        Some(entry) => entry_value(alloc, entry),
        None => Ok(Value::Null),
    }
}

fn digests_value(alloc: Global, digests: DigestChange) -> Result<Value, AllocError> {
    let mut members = Map::new(alloc);
    let old = Value::String(hex::encode(alloc, digests.old)?);
    put(&mut members, alloc, "old", old)?;
    let new = Value::String(hex::encode(alloc, digests.new)?);
    put(&mut members, alloc, "new", new)?;
    Ok(Value::Object(members))
}
