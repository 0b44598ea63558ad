// What requires an entry, as it is told.

use crate::json_text::{text_value, version_value};
use crate::required_by::{RequiredBy, Requirer};
use edits::{Line, Requirement};
use phrases::{add_plain, add_requirement};
use serde_json::{Map, Value, put};
use std::alloc::{AllocError, Global};

/// `line 3` or `NAME VERSION`.
pub(crate) fn add_requirer(text: &mut String, requirer: Requirer<'_>) -> Result<(), AllocError> {
    match requirer {
        Requirer::Line(number, _) => write!(text, "line {number}"),
        Requirer::Entry(entry) => {
            let name = entry.name().normal();
            let version = entry.version();
            write!(text, "{name} {version}")
        }
    }
}

/// What requires an entry, with the requirement behind it in parentheses, where that is known.
pub(crate) fn add_required_by(text: &mut String, by: RequiredBy<'_>) -> Result<(), AllocError> {
    add_requirer(text, by.requirer)?;
    match by.requirement {
        Some(wanted) => {
            text.push_str(" (")?;
            add_requirement(text, wanted)?;
            text.push_str(")")
        }
        None => Ok(()),
    }
}

/// The text of a line, without its ending and the space around it.
pub(crate) fn add_line_text(text: &mut String, line: &Line) -> Result<(), AllocError> {
    add_plain(text, line.text().trim())
}

/// What requires an entry, as an object: `line` with its number and `text`, or `name` and `version`; and `requirement`, null where
/// it isn't known.
pub(crate) fn required_by_value(alloc: Global, by: RequiredBy<'_>) -> Result<Value, AllocError> {
    let mut members = Map::new(alloc);
    let requirement = requirement_value(alloc, by.requirement)?;
    put(&mut members, alloc, "requirement", requirement)?;
    match by.requirer {
        Requirer::Line(number, line) => {
            put(&mut members, alloc, "line", Value::from(number))?;
            let text = text_value(alloc, line.text().trim())?;
            put(&mut members, alloc, "text", text)?;
        }
        Requirer::Entry(entry) => {
            let name = text_value(alloc, entry.name().normal())?;
            put(&mut members, alloc, "name", name)?;
            let version = version_value(alloc, entry.version())?;
            put(&mut members, alloc, "version", version)?;
        }
    }
    Ok(Value::Object(members))
}

fn requirement_value(alloc: Global, wanted: Option<&Requirement>) -> Result<Value, AllocError> {
    let Some(wanted) = wanted else {
        return Ok(Value::Null);
    };
    let mut text = String::new(alloc);
    add_requirement(&mut text, wanted)?;
    Ok(Value::String(text))
}

/// The objects of all that require an entry.
pub(crate) fn requirers_value(
    alloc: Global,
    requirers: &[RequiredBy<'_>],
) -> Result<Value, AllocError> {
    let mut values = Vec::with_capacity(alloc, requirers.len())?;
    for by in requirers {
        values.push(required_by_value(alloc, *by)?)?;
    }
    Ok(Value::Array(values))
}
