// Whether a JSON value that borrows its text is one that `serde_json` reads.

ghost use Rattle.std.specs.Prelude.{◌≡◌, ◌==◌, ◌<◌, IfSome, IsTrue, Some, slice_index};
ghost use Rattle.json.specs.Value.{members_view, value_view};
ghost use Rattle.serde_json.specs.Data.{Members, unsigned};
ghost use Rattle.serde_json.specs.Read.{number_of, of_members};
ghost use Rattle.snapshot.specs.Tied.Meaning.{AreData, IsData};

use fast_float::Numeral;
use json::Value;

/// Whether a number begins with a minus sign.
fn has_minus(bytes: &[u8]) -> bool
    ensures { result ≡ (slice_index bytes.now 0 == 45) }
{
    !bytes.is_empty() && bytes[0] == b'-'
}

/// The whole number below 2 ^ 64 that a text is.
pub(crate) fn whole_of(text: &str) -> Option<u64>
    ensures { IfSome result (λ n. number_of text.now ≡ Some (unsigned n)) }
{
    let bytes = text.as_bytes();
    if has_minus(bytes) {
        return None;
    }
    Numeral::scan(bytes).to_u64()
}

/// Whether `serde_json` reads a value, which nests no deeper than `depth`. Of numbers it looks at whole ones below 2 ^ 64
/// alone.
#[cycle(data)]
pub(crate) fn is_data(value: &Value<'_>, depth: usize) -> bool
    ensures { IsTrue result → IsData (value_view value.now) }
{
    match value {
        Value::Null => true,
        Value::Bool(_) => true,
        Value::String(_) => true,
        Value::Number(text) => whole_of(text).is_some(),
        Value::Array(items) => depth > 0 && are_data(items.as_slice(), depth - 1),
        Value::Object(members) => depth > 0 && have_data(members.as_slice(), depth - 1),
    }
}

/// Whether it reads each item.
#[cycle(data)]
fn are_data(items: &[Value<'_>], depth: usize) -> bool
    ensures { IsTrue result → AreData items.now }
{
    for place in 0..items.len() {
        if !is_data(&items[place], depth) {
            return false;
        }
    }
    true
}

/// Whether it reads the value of each member.
#[cycle(data)]
fn have_data(members: &[(&str, Value<'_>)], depth: usize) -> bool
    ensures { IsTrue result → (before : Members)
        → (all : Members) × (of_members (members_view members.now) before ≡ Some all) }
{
    for place in 0..members.len() {
        if !is_data(&members[place].1, depth) {
            return false;
        }
    }
    true
}
