// The members of a JSON object that are read.

ghost use Rattle.std.specs.Prelude.{◌≡◌, ◌<◌, true, IfOk, IfSome, length, map, option_map};
ghost use Rattle.serde_json.specs.Data.{Members, member};
ghost use Rattle.serde_json.specs.View.{members_view, view};
ghost use Rattle.serde_json.specs.Find.{get, get_member};
ghost use Rattle.snapshot.specs.Tied.Keys.{are_apart, place_of, values_in};
ghost use Rattle.snapshot.specs.Shape.{Gives, object_of};

use crate::fault::Fault;
use lists::Text;
use serde_json::{Map, Value};
use std::alloc::Global;

/// The place of a key among others.
fn place_of(keys: &[&str], key: &str) -> Option<usize>
    ensures place { result ≡ place_of key.now (map (λ other. other.now) keys.now) }
    ensures within { IfSome result (λ place. place < length keys.now) }
{
    for place in 0..keys.len() {
        if keys[place] == key {
            return Some(place);
        }
    }
    None
}

/// Keeps the value where its key is asked for, unless one is kept there.
fn keep(found: &mut [Option<Value>], keys: &[&str], key: &str, value: Value)
    requires long { length found.old ≡ length keys.now }
    requires apart { are_apart (map (λ key. key.now) keys.now) ≡ true }
    ensures { (others : Members)
        → values_in found.old (map (λ key. key.now) keys.now) (member key.now (view value) others)
        ≡ values_in found.new (map (λ key. key.now) keys.now) others }
{
    if let Some(place) = place_of(keys, key) {
        if found[place].is_none() {
            found[place] = Some(value);
        }
    }
}

/// The values at the keys, which the members give up; the others are dropped.
fn taken<const N: usize>(members: Map<String, Value>, keys: &[&str]) -> [Option<Value>; N]
    requires long { length keys.now ≡ N }
    requires apart { are_apart (map (λ key. key.now) keys.now) ≡ true }
    ensures { map (option_map view) result
        ≡ map (λ key. get_member key.now (members_view members.entries)) keys.now }
{
    let mut found: [Option<Value>; N] = Default::default();
    for (key, value) in members {
        keep(&mut found, keys, key.as_str(), value);
    }
    found
}

/// The values at the keys of an object, which it gives up.
pub(crate) fn values_at<const N: usize>(
    alloc: Global,
    object: Value,
    keys: &[&str],
) -> Result<[Option<Value>; N], Fault>
    requires long { length keys.now ≡ N }
    requires apart { are_apart (map (λ key. key.now) keys.now) ≡ true }
    ensures object { Gives (λ _. tt) (object_of (view object)) result }
    ensures values { IfOk result (λ found. map (option_map view) found
        ≡ map (λ key. get key.now (view object)) keys.now) }
{
    match object {
        Value::Object(members) => Ok(taken(members, keys)),
        _ => Err(Fault::Shape(Text::new(alloc))),
    }
}
