// JSON values of a wanted shape.

ghost use Rattle.std.specs.Prelude.{◌≡◌, ◌⊎◌, ◌++◌, false, [], IfOk, option_map};
ghost use Rattle.serde_json.specs.Data.{no_items};
ghost use Rattle.serde_json.specs.Find.{as_array, as_bool, as_str};
ghost use Rattle.serde_json.specs.View.{items_view, view};
ghost use Rattle.snapshot.specs.Shape.{Gives, at_key, below, each_from, fault_below, key_path, optional, or_absent, place_path, required, text_of};
ghost use Rattle.snapshot.specs.declared.fault.Fault.TheVariants.{OutOfMemory, Shape};

use crate::fault::Fault;
use lists::{Seq, Text};
use serde_json::Value;
use std::alloc::{AllocError, Global};

/// The text `/{key}{inner}`.
fn path_below(alloc: Global, key: &str, inner: &str) -> Result<Text, AllocError>
    ensures { IfOk result (λ path. path ≡ key_path key.now ++ inner.now) }
{
    Ok(Text::from_string(format!(in alloc; "/{key}{inner}")?))
}

/// The fault of a value at `key` that has another shape.
pub(crate) fn misshapen(alloc: Global, key: &str) -> Fault
    ensures { (result ≡ OutOfMemory) ⊎ (result ≡ Shape (key_path key.now)) }
{
    match path_below(alloc, key, "") {
        Ok(path) => Fault::Shape(path),
        Err(_) => Fault::OutOfMemory,
    }
}

/// A fault of a value that stands at `key`.
fn fault_below_key(alloc: Global, key: &str, fault: Fault) -> Fault
    ensures { (result ≡ OutOfMemory) ⊎ (result ≡ fault_below (key_path key.now) fault) }
{
    match fault {
        Fault::Shape(inner) => match path_below(alloc, key, inner.as_str()) {
            Ok(path) => Fault::Shape(path),
            Err(_) => Fault::OutOfMemory,
        },
        other => other,
    }
}

/// A fault of a value that stands at `place`.
fn fault_below_place(alloc: Global, place: usize, fault: Fault) -> Fault
    ensures { (result ≡ OutOfMemory) ⊎ (result ≡ fault_below (place_path place) fault) }
{
    match format!(in alloc; "{place}") {
        Ok(key) => fault_below_key(alloc, key.as_str(), fault),
        Err(_) => Fault::OutOfMemory,
    }
}

/// What was read of a value that stands at `key`.
pub(crate) fn below_key<T>(alloc: Global, key: &str, read: Result<T, Fault>) -> Result<T, Fault>
    ensures { Gives (λ x. x) (below (key_path key.now) read) result }
{
    match read {
        Ok(found) => Ok(found),
        Err(fault) => Err(fault_below_key(alloc, key, fault)),
    }
}

/// What was read of a value that stands at `place`.
pub(crate) fn below_place<T>(
    alloc: Global,
    place: usize,
    read: Result<T, Fault>,
) -> Result<T, Fault>
    ensures { Gives (λ x. x) (below (place_path place) read) result }
{
    match read {
        Ok(found) => Ok(found),
        Err(fault) => Err(fault_below_place(alloc, place, fault)),
    }
}

/// The text that was found at `key`.
pub(crate) fn text_of(alloc: Global, key: &str, found: Option<Value>) -> Result<Text, Fault>
    ensures { Gives (λ text. text)
        (at_key (required as_str) key.now (option_map view found)) result }
{
    match found {
        Some(Value::String(text)) => Ok(Text::from_string(text)),
        _ => Err(misshapen(alloc, key)),
    }
}

/// The text that was found at `key`, empty where it is absent or null.
pub(crate) fn optional_text_of(
    alloc: Global,
    key: &str,
    found: Option<Value>,
) -> Result<Text, Fault>
    ensures { Gives (λ text. text)
        (at_key (optional [] as_str) key.now (option_map view found)) result }
{
    match found {
        None | Some(Value::Null) => Ok(Text::new(alloc)),
        Some(Value::String(text)) => Ok(Text::from_string(text)),
        Some(_) => Err(misshapen(alloc, key)),
    }
}

/// The items of the array that was found at `key`.
pub(crate) fn items_of(alloc: Global, key: &str, found: Option<Value>) -> Result<Vec<Value>, Fault>
    ensures { Gives (λ items. items_view items.items)
        (at_key (required as_array) key.now (option_map view found)) result }
{
    match found {
        Some(Value::Array(items)) => Ok(items),
        _ => Err(misshapen(alloc, key)),
    }
}

/// The items of the array that was found at `key`, none where it is absent or null.
pub(crate) fn optional_items_of(
    alloc: Global,
    key: &str,
    found: Option<Value>,
) -> Result<Vec<Value>, Fault>
    ensures { Gives (λ items. items_view items.items)
        (at_key (optional no_items as_array) key.now (option_map view found)) result }
{
    match found {
        None | Some(Value::Null) => Ok(Vec::new(alloc)),
        Some(Value::Array(items)) => Ok(items),
        Some(_) => Err(misshapen(alloc, key)),
    }
}

/// The truth value that was found at `key`, false where it is absent.
pub(crate) fn flag_of(alloc: Global, key: &str, found: Option<Value>) -> Result<bool, Fault>
    ensures { Gives (λ b. b)
        (at_key (or_absent false as_bool) key.now (option_map view found)) result }
{
    match found {
        None => Ok(false),
        Some(Value::Bool(flag)) => Ok(flag),
        Some(_) => Err(misshapen(alloc, key)),
    }
}

/// The text that the value at `place` is.
fn text_at_place(alloc: Global, place: usize, value: Value) -> Result<Text, Fault>
    ensures { Gives (λ text. text) (below (place_path place) (text_of (view value))) result }
{
    match value {
        Value::String(text) => Ok(Text::from_string(text)),
        _ => Err(fault_below_place(alloc, place, Fault::Shape(Text::new(alloc)))),
    }
}

/// The texts that the values are.
pub(crate) fn texts_of(alloc: Global, values: Vec<Value>) -> Result<Seq<Text>, Fault>
    ensures { Gives (λ texts. texts) (each_from text_of 0 (items_view values.items)) result }
{
    let mut texts = Vec::with_capacity(alloc, values.len())?;
    for (place, value) in values.into_iter().enumerate() {
        let text = text_at_place(alloc, place, value)?;
        texts.push(text)?;
    }
    Ok(Seq::from_vec(texts))
}
