// The members of an object that borrows its text. Of a key that stands twice the last value counts.

ghost use Rattle.std.specs.Prelude.{[], false, IfSome};
ghost use Rattle.json.specs.Value.{value_view};
ghost use Rattle.serde_json.specs.Data.{number, string, unsigned};
ghost use Rattle.serde_json.specs.Find.{as_array, as_bool, as_str};
ghost use Rattle.snapshot.specs.Shape.{field, optional, or_absent, required};
ghost use Rattle.snapshot.specs.Tied.Meaning.{Has, HasItems, Means};

use crate::pass::data::whole_of;
use json::Value;
use lists::Text;
use std::alloc::Global;

/// The text at `key`.
pub(crate) fn text_at<'a>(object: &Value<'a>, key: &str) -> Option<&'a str>
    ensures { IfSome result (λ text. Has key.now (value_view object.now) (string text.now)) }
{
    object.get(key)?.as_str()
}

/// A copy of the text at `key`.
pub(crate) fn copy_at(alloc: Global, object: &Value<'_>, key: &str) -> Option<Text>
    ensures { IfSome result (λ text. Has key.now (value_view object.now) (string text)) }
{
    match Text::copy_of(alloc, text_at(object, key)?) {
        Ok(text) => Some(text),
        Err(_) => None,
    }
}

/// The text at `key`, empty where it is absent or null.
fn optional_text_at<'a>(object: &Value<'a>, key: &str) -> Option<&'a str>
    ensures { IfSome result
        (λ text. Means (field (optional [] as_str) key.now) (value_view object.now) text.now) }
{
    match object.get(key) {
        None => Some(""),
        Some(Value::Null) => Some(""),
        Some(value) => value.as_str(),
    }
}

/// A copy of the text at `key`, empty where it is absent or null.
pub(crate) fn optional_copy_at(alloc: Global, object: &Value<'_>, key: &str) -> Option<Text>
    ensures { IfSome result
        (λ text. Means (field (optional [] as_str) key.now) (value_view object.now) text) }
{
    match Text::copy_of(alloc, optional_text_at(object, key)?) {
        Ok(text) => Some(text),
        Err(_) => None,
    }
}

/// The truth value at `key`, false where it is absent.
pub(crate) fn flag_at(object: &Value<'_>, key: &str) -> Option<bool>
    ensures { IfSome result
        (λ flag. Means (field (or_absent false as_bool) key.now) (value_view object.now) flag) }
{
    match object.get(key) {
        None => Some(false),
        Some(value) => value.as_bool(),
    }
}

/// The whole number below 2 ^ 64 at `key`.
pub(crate) fn whole_at(object: &Value<'_>, key: &str) -> Option<u64>
    ensures { IfSome result
        (λ n. Has key.now (value_view object.now) (number (unsigned n))) }
{
    whole_of(object.get(key)?.as_number()?)
}

/// The items of the array at `key`.
pub(crate) fn items_at<'v, 'a>(object: &'v Value<'a>, key: &str) -> Option<&'v [Value<'a>]>
    ensures { IfSome result
        (λ items. HasItems (required as_array) key.now (value_view object.now) items.now) }
{
    match object.get(key)? {
        Value::Array(items) => Some(items.as_slice()),
        _ => None,
    }
}
