// JSON values, and their texts as a terminal may have them.

use edits::{Entry, Target};
use pep440::Version;
use serde_json::{Map, Value, put};
use std::alloc::{AllocError, Global};

/// A line with the text of a value. JSON escapes the control characters below U+0020; the others of a file's
/// texts, which stand in strings alone, are escaped too.
pub fn json_text(alloc: Global, value: &Value) -> Result<String, AllocError> {
    let plain = value.to_string(alloc)?;
    let mut text = String::new(alloc);
    for letter in plain.as_str().chars() {
        if letter.is_control() {
            let number = letter as u32;
            write!(text, "\\u{number:04x}")?;
        } else {
            text.push(letter)?;
        }
    }
    text.push_str("\n")?;
    Ok(text)
}

/// The line of an object with these targets.
pub(crate) fn targets_text(
    alloc: Global,
    targets: Vec<Value>,
    has_other_lines: bool,
) -> Result<String, AllocError> {
    let mut members = Map::new(alloc);
    put(&mut members, alloc, "targets", Value::Array(targets))?;
    put_other_lines(alloc, &mut members, has_other_lines)?;
    json_text(alloc, &Value::Object(members))
}

/// Puts in that the requirements file was changed since it was saved, where it was.
pub(crate) fn put_other_lines(
    alloc: Global,
    members: &mut Map<String, Value>,
    has_other_lines: bool,
) -> Result<(), AllocError> {
    if has_other_lines {
        put(members, alloc, "requirements_changed", Value::Bool(true))?;
    }
    Ok(())
}

/// A target's name, and what is told of it under a key.
pub(crate) fn target_object(
    alloc: Global,
    target: &Target,
    key: &str,
    told: Value,
) -> Result<Value, AllocError> {
    Ok(Value::Object(target_members(alloc, target, key, told)?))
}

/// The same members.
pub(crate) fn target_members(
    alloc: Global,
    target: &Target,
    key: &str,
    told: Value,
) -> Result<Map<String, Value>, AllocError> {
    let mut members = Map::new(alloc);
    let name = text_value(alloc, target.name.as_str())?;
    put(&mut members, alloc, "target", name)?;
    put(&mut members, alloc, key, told)?;
    Ok(members)
}

/// The name and the version of an entry.
pub(crate) fn pin_value(alloc: Global, entry: &Entry) -> Result<Value, AllocError> {
    let mut members = Map::new(alloc);
    let name = text_value(alloc, entry.name().normal())?;
    put(&mut members, alloc, "name", name)?;
    let version = version_value(alloc, entry.version())?;
    put(&mut members, alloc, "version", version)?;
    Ok(Value::Object(members))
}

/// A text as a value.
pub(crate) fn text_value(alloc: Global, text: &str) -> Result<Value, AllocError> {
    Value::try_from_str(alloc, text)
}

/// The canonical text of a version as a value.
pub(crate) fn version_value(alloc: Global, version: &Version) -> Result<Value, AllocError> {
    Ok(Value::String(format!(in alloc; "{version}")?))
}
