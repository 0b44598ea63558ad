// Entries of a lock as JSON.

use crate::json_text::{text_value, version_value};
use edits::{DistributionFile, Entry, Name};
use serde_json::{Map, Value, put};
use std::alloc::{AllocError, Global};

/// An entry: its name and version, what it needs of Python, the names that it needs, and its files.
pub(crate) fn entry_value(alloc: Global, entry: &Entry) -> Result<Value, AllocError> {
    let mut members = Map::new(alloc);
    let name = text_value(alloc, entry.name().normal())?;
    put(&mut members, alloc, "name", name)?;
    let version = version_value(alloc, entry.version())?;
    put(&mut members, alloc, "version", version)?;
    let python = match entry.requires_python() {
        Some(python) => text_value(alloc, python.text())?,
        None => Value::Null,
    };
    put(&mut members, alloc, "requires_python", python)?;
    let dependencies = names_value(alloc, entry.dependencies())?;
    put(&mut members, alloc, "dependencies", dependencies)?;
    let sdist = match entry.sdist() {
        Some(file) => file_value(alloc, file)?,
        None => Value::Null,
    };
    put(&mut members, alloc, "sdist", sdist)?;
    let wheels = files_value(alloc, entry.wheels())?;
    put(&mut members, alloc, "wheels", wheels)?;
    Ok(Value::Object(members))
}

/// Names, in their normal form.
pub(crate) fn names_value(alloc: Global, names: &[Name]) -> Result<Value, AllocError> {
    let mut values = Vec::with_capacity(alloc, names.len())?;
    for name in names {
        values.push(text_value(alloc, name.normal())?)?;
    }
    Ok(Value::Array(values))
}

fn files_value(alloc: Global, files: &[DistributionFile]) -> Result<Value, AllocError> {
    let mut values = Vec::with_capacity(alloc, files.len())?;
    for file in files {
        values.push(file_value(alloc, file)?)?;
    }
    Ok(Value::Array(values))
}

fn file_value(alloc: Global, file: &DistributionFile) -> Result<Value, AllocError> {
    let mut members = Map::new(alloc);
    let name = text_value(alloc, file.name.as_str())?;
    put(&mut members, alloc, "name", name)?;
    let url = text_value(alloc, file.url.as_str())?;
    put(&mut members, alloc, "url", url)?;
    put(&mut members, alloc, "size", Value::from(file.size))?;
    let sha256 = text_value(alloc, file.sha256.as_str())?;
    put(&mut members, alloc, "sha256", sha256)?;
    Ok(Value::Object(members))
}
