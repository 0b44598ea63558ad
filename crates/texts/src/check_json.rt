// What `check` tells, as JSON objects.

use crate::diff_json::diff_value;
use crate::json_text::json_text;
use edits::Change;
use serde_json::{Map, Value, put};
use std::alloc::{AllocError, Global};

/// The place of the present state in the history.
pub fn check_json(alloc: Global, place: usize) -> Result<String, AllocError> {
    let mut members = Map::new(alloc);
    put(&mut members, alloc, "place", Value::from(place))?;
    json_text(alloc, &Value::Object(members))
}

/// The same, with what a new lock would move, or none where it would move nothing, and whether its index is another one.
pub fn current_json(
    alloc: Global,
    place: usize,
    moved: Option<&Change>,
    is_another_index: bool,
) -> Result<String, AllocError> {
    let mut members = Map::new(alloc);
    put(&mut members, alloc, "current", Value::Bool(moved.is_none()))?;
    put(
        &mut members,
        alloc,
        "another_index",
        Value::Bool(is_another_index),
    )?;
    put(&mut members, alloc, "place", Value::from(place))?;
    let diff = match moved {
        Some(change) => diff_value(alloc, change)?,
        None => Value::Null,
    };
    put(&mut members, alloc, "diff", diff)?;
    json_text(alloc, &Value::Object(members))
}
