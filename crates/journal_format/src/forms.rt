// JSON values of a wanted form.

ghost use Rattle.std.specs.Prelude.{◌≡◌, Result, is_some, map};
ghost use Rattle.std.specs.List.{list_all};
ghost use Rattle.serde_json.specs.Data.{Data};
ghost use Rattle.serde_json.specs.Find.{as_array, as_object, get};
ghost use Rattle.serde_json.specs.View.{items_view, view};
ghost use Rattle.journal_format.specs.Forms.{check, at, counts, each, json_of, list_of, number_of, only_keys, or_null, pair_of, quadruple_of, text_of, triple_of};
ghost use Rattle.pylock.specs.Flaws.{Gives, found};
ghost use Rattle.pylock.specs.declared.flaw.Flaw.{Flaw};

use lists::{Seq, Text};
use pylock::Flaw;
use serde_json::Value;
use std::alloc::Global;

/// What is read of a JSON value.
pub(crate) trait Read: Drop {
    ghost reading: { Data → Result Self Flaw };

    fn from_value(alloc: Global, value: &Value) -> Result<Self, Flaw>
        ensures { Gives (λ x. x) (reading (view value.now)) result };
}

/// The JSON value of the bytes.
#[tactic(auto, unfolding(crate::specs::Forms::json_of))]
pub(crate) fn json_of(alloc: Global, bytes: &[u8]) -> Result<Value, Flaw>
    ensures { Gives view (json_of bytes.now) result }
{
    match Value::from_slice(alloc, bytes) {
        Ok(value) => Ok(value),
        Err(error) => {
            if error.is_memory() {
                return Err(Flaw::OutOfMemory);
            }
            Err(Flaw::OtherForm)
        }
    }
}

/// Whether the object has so many members.
fn counts(count: usize, object: &Value) -> bool
    ensures { result ≡ counts count (as_object (view object.now)) }
{
    match object.as_object() {
        Some(members) => members.len() == count,
        None => false,
    }
}

/// Whether the object has each of the keys.
fn has_each(keys: &[&str], object: &Value) -> bool
    ensures { result ≡ list_all (λ key. is_some (get key.now (view object.now))) keys.now }
{
    keys.iter().all(|key| object.get(*key).is_some())
}

/// Checks that a value is an object with exactly these keys, which are distinct.
pub(crate) fn only_keys(keys: &[&str], object: &Value) -> Result<(), Flaw>
    ensures { Gives (λ u. u) (only_keys (map (λ k. k.now) keys.now) (view object.now)) result }
{
    if counts(keys.len(), object) && has_each(keys, object) {
        return Ok(());
    }
    Err(Flaw::OtherForm)
}

/// The value at a key.
pub(crate) fn value_at<'v>(key: &str, object: &'v Value) -> Result<&'v Value, Flaw>
    ensures { Gives (λ v. view v.now) (found (get key.now (view object.now))) result }
{
    match object.get(key) {
        Some(value) => Ok(value),
        None => Err(Flaw::OtherForm),
    }
}

/// What the value at a key is read as.
pub(crate) fn at<T: Read>(alloc: Global, key: &str, object: &Value) -> Result<T, Flaw>
    ensures { Gives (λ x. x) (at key.now T.reading (view object.now)) result }
{
    T::from_value(alloc, value_at(key, object)?)
}

/// Checks what has to hold.
pub(crate) fn check(holds: bool) -> Result<(), Flaw>
    ensures { Gives (λ u. u) (check holds) result }
{
    if holds {
        return Ok(());
    }
    Err(Flaw::OtherForm)
}

impl Read for Text {
    ghost reading = { text_of };

    fn from_value(alloc: Global, value: &Value) -> Result<Text, Flaw> {
        Ok(Text::copy_of(alloc, text_of(value)?)?)
    }
}

impl Read for u64 {
    ghost reading = { number_of };

    fn from_value(_alloc: Global, value: &Value) -> Result<u64, Flaw> {
        match value.as_u64() {
            Some(number) => Ok(number),
            None => Err(Flaw::OtherForm),
        }
    }
}

/// The text of a value.
pub(crate) fn text_of(value: &Value) -> Result<&str, Flaw>
    ensures { Gives (λ t. t.now) (text_of (view value.now)) result }
{
    match value.as_str() {
        Some(text) => Ok(text),
        None => Err(Flaw::OtherForm),
    }
}

impl<T: Read> Read for Option<T> {
    ghost reading = { or_null T.reading };

    fn from_value(alloc: Global, value: &Value) -> Result<Option<T>, Flaw> {
        if value.is_null() {
            return Ok(None);
        }
        Ok(Some(T::from_value(alloc, value)?))
    }
}

/// Each item of an array.
fn each<T: Read>(alloc: Global, values: &[Value]) -> Result<Vec<T>, Flaw>
    ensures { Gives (λ xs. xs.items) (each T.reading (items_view values.now)) result }
{
    let mut items = Vec::with_capacity(alloc, values.len())?;
    for place in 0..values.len() {
        let item = T::from_value(alloc, &values[place])?;
        items.push(item)?;
    }
    Ok(items)
}

/// The items of an array.
pub(crate) fn items_of(value: &Value) -> Result<&[Value], Flaw>
    ensures { Gives (λ vs. items_view vs.now) (found (as_array (view value.now))) result }
{
    match value.as_array() {
        Some(values) => Ok(values.as_slice()),
        None => Err(Flaw::OtherForm),
    }
}

impl<T: Read> Read for Seq<T> {
    ghost reading = { list_of T.reading };

    fn from_value(alloc: Global, value: &Value) -> Result<Seq<T>, Flaw> {
        let values = items_of(value)?;
        Ok(Seq::from_vec(each(alloc, values)?))
    }
}

/// The items of an array of two.
pub(crate) fn pair_of(value: &Value) -> Result<(&Value, &Value), Flaw>
    ensures { Gives (λ p. (view p.0.now, view p.1.now)) (pair_of (view value.now)) result }
{
    let items = items_of(value)?;
    if items.len() != 2 {
        return Err(Flaw::OtherForm);
    }
    Ok((&items[0], &items[1]))
}

/// The items of an array of three.
pub(crate) fn triple_of(value: &Value) -> Result<(&Value, &Value, &Value), Flaw>
    ensures { Gives (λ p. (view p.0.now, view p.1.now, view p.2.now)) (triple_of (view value.now))
        result }
{
    let items = items_of(value)?;
    if items.len() != 3 {
        return Err(Flaw::OtherForm);
    }
    Ok((&items[0], &items[1], &items[2]))
}

/// The items of an array of four.
pub(crate) fn quadruple_of(value: &Value) -> Result<(&Value, &Value, &Value, &Value), Flaw>
    ensures { Gives (λ p. (view p.0.now, view p.1.now, view p.2.now, view p.3.now)) (quadruple_of
        (view value.now)) result }
{
    let items = items_of(value)?;
    if items.len() != 4 {
        return Err(Flaw::OtherForm);
    }
    Ok((&items[0], &items[1], &items[2], &items[3]))
}
