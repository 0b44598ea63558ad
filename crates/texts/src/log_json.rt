// The history as JSON.

use crate::diff_json::diff_members;
use crate::history_text::step_text;
use crate::json_text::{json_text, put_other_lines, text_value};
use crate::shown::ShownSteps;
use serde_json::{Map, Value, put};
use std::alloc::{AllocError, Global};

/// An object on a line for the first state, and one for each step, with what `log` tells of it, not cut, and its change.
pub fn log_json(alloc: Global, steps: ShownSteps<'_>) -> Result<String, AllocError> {
    let mut text = String::new(alloc);
    let first = step_value(alloc, Map::new(alloc), steps, 0, "init")?;
    text.push_str(json_text(alloc, &first)?.as_str())?;
    for (position, change) in steps.changes.iter().enumerate() {
        let members = diff_members(alloc, change)?;
        let told = step_text(alloc, change)?;
        let step = position.saturating_add(1);
        let value = step_value(alloc, members, steps, step, told.as_str())?;
        text.push_str(json_text(alloc, &value)?.as_str())?;
    }
    Ok(text)
}

/// A step with these members of its change.
fn step_value(
    alloc: Global,
    mut members: Map<String, Value>,
    steps: ShownSteps<'_>,
    step: usize,
    told: &str,
) -> Result<Value, AllocError> {
    put(&mut members, alloc, "step", Value::from(step))?;
    let is_current = step == steps.cursor;
    put(&mut members, alloc, "current", Value::Bool(is_current))?;
    put(&mut members, alloc, "told", text_value(alloc, told)?)?;
    put_other_lines(alloc, &mut members, steps.has_other_lines)?;
    Ok(Value::Object(members))
}
