// TOML values of a wanted form.

ghost use Rattle.std.specs.Prelude.{◌≡◌, Result, drop, map, option_and_then};
ghost use Rattle.std.specs.Option.{option_map};
ghost use Rattle.toml.specs.Data.{Data, as_array, get_member};
ghost use Rattle.toml.specs.View.{items_view, table_view, view};
ghost use Rattle.pylock.specs.Flaws.{Gives, found};
ghost use Rattle.pylock.specs.Forms.{after, each, not_empty, optionally, size_at, some_each, table_with, text_at, text_of, unknown_in};
ghost use Rattle.pylock.specs.declared.flaw.Flaw.{Flaw};

use crate::flaw::Flaw;
use lists::Text;
use std::alloc::Global;
use toml::{Table, Value};

/// What is read of a TOML value.
pub(crate) trait Read: Drop {
    ghost reading: { Data → Result Self Flaw };

    fn from_value(alloc: Global, value: &Value) -> Result<Self, Flaw>
        ensures { Gives (λ x. x) (reading (view value.now)) result };
}

impl Read for Text {
    ghost reading = { text_of };

    fn from_value(alloc: Global, value: &Value) -> Result<Text, Flaw> {
        match value.as_str() {
            Some(text) => Ok(Text::copy_of(alloc, text)?),
            None => Err(Flaw::OtherForm),
        }
    }
}

/// The place behind this key among the known ones.
fn place_behind(key: &str, known: &[&str], from: usize) -> Option<usize>
    ensures { option_map (λ p. map (λ k. k.now) (drop p known.now)) result
        ≡ after key.now (map (λ k. k.now) (drop from known.now)) }
{
    for place in from..known.len() {
        let name = known[place];
        if name == key {
            return Some(place + 1);
        }
    }
    None
}

/// The first key that isn't known, both in the order of their bytes.
pub(crate) fn unknown_key<'t>(known: &[&str], table: &'t Table) -> Option<&'t str>
    ensures { option_map (λ key. key.now) result
        ≡ unknown_in (map (λ k. k.now) known.now) (table_view table.now) }
{
    let mut from = 0;
    for (key, _value) in table.iter() {
        match place_behind(key.as_str(), known, from) {
            Some(place) => from = place,
            None => return Some(key.as_str()),
        }
    }
    None
}

/// The table that a value is, where each of its keys is known.
pub(crate) fn table_with<'v>(known: &[&str], value: &'v Value) -> Result<&'v Table, Flaw>
    ensures { Gives (λ t. table_view t.now) (table_with (map
        (λ k. k.now) known.now) (view value.now)) result }
{
    let Some(table) = value.as_table() else {
        return Err(Flaw::OtherForm);
    };
    if unknown_key(known, table).is_some() {
        return Err(Flaw::OtherForm);
    }
    Ok(table)
}

/// The value at a key.
pub(crate) fn value_at<'t>(key: &str, table: &'t Table) -> Option<&'t Value>
    ensures { option_map (λ v. view v.now) result ≡ get_member key.now (table_view table.now) }
{
    table.get(key)
}

/// The value at a key, which has to be there.
pub(crate) fn needed_at<'t>(key: &str, table: &'t Table) -> Result<&'t Value, Flaw>
    ensures { Gives (λ v. view v.now) (found (get_member key.now (table_view table.now))) result }
{
    match value_at(key, table) {
        Some(value) => Ok(value),
        None => Err(Flaw::OtherForm),
    }
}

/// The text at a key.
pub(crate) fn text_at<'t>(key: &str, table: &'t Table) -> Result<&'t str, Flaw>
    ensures { Gives (λ t. t.now) (text_at key.now (table_view table.now)) result }
{
    match value_at(key, table).and_then(Value::as_str) {
        Some(text) => Ok(text),
        None => Err(Flaw::OtherForm),
    }
}

/// The number at a key, which isn't negative.
pub(crate) fn size_at(key: &str, table: &Table) -> Result<u64, Flaw>
    ensures { Gives (λ n. n) (size_at key.now (table_view table.now)) result }
{
    match value_at(key, table).and_then(Value::as_integer) {
        Some(number) if number >= 0 => Ok(number as u64),
        _ => Err(Flaw::OtherForm),
    }
}

/// What may stand at a key.
pub(crate) fn optionally<T: Read>(
    alloc: Global,
    key: &str,
    table: &Table,
) -> Result<Option<T>, Flaw>
    ensures { Gives (λ o. o) (optionally T.reading (get_member key.now (table_view table.now)))
        result }
{
    match value_at(key, table) {
        Some(value) => Ok(Some(T::from_value(alloc, value)?)),
        None => Ok(None),
    }
}

/// Each item of an array.
pub(crate) fn each<T: Read>(alloc: Global, values: &[Value]) -> Result<Vec<T>, Flaw>
    ensures { Gives (λ xs. xs.items) (each T.reading (items_view values.now)) result }
{
    let mut items = Vec::with_capacity(alloc, values.len())?;
    for place in 0..values.len() {
        let item = T::from_value(alloc, &values[place])?;
        items.push(item)?;
    }
    Ok(items)
}

/// The items of an array of one item at least.
fn some_items(value: &Value) -> Result<&[Value], Flaw>
    ensures { Gives (λ vs. items_view vs.now) (found (option_and_then not_empty (as_array (view
        value.now)))) result }
{
    let Some(values) = value.as_array() else {
        return Err(Flaw::OtherForm);
    };
    let values = values.as_slice();
    if values.is_empty() {
        return Err(Flaw::OtherForm);
    }
    Ok(values)
}

/// The items of the list at a key, which is absent where it is empty.
pub(crate) fn some_each<T: Read>(alloc: Global, key: &str, table: &Table) -> Result<Vec<T>, Flaw>
    ensures { Gives (λ xs. xs.items) (some_each T.reading (get_member key.now (table_view
        table.now))) result }
{
    match value_at(key, table) {
        Some(value) => each(alloc, some_items(value)?),
        None => Ok(Vec::new(alloc)),
    }
}
