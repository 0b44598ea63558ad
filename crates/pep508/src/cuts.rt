// Cuts of a line. Each is made beside an ASCII character, so that what is left of a text is a text.

ghost use Rattle.std.specs.Prelude.{◌≡◌, ◌<◌, suc, take, drop};
ghost use Rattle.std.specs.List.{prefix_len, take_while};
ghost use Rattle.std.specs.Option.{option_copied};
ghost use Rattle.markers.specs.Names.{is_name_byte};
ghost use Rattle.pep508.specs.Parts as spec;

use crate::parts::{begins_with, ends_with};
use lists::is_space_or_tab;
use markers::is_name_byte;

/// What stands before the comment of a line, and the comment.
pub(crate) fn cut_comment(content: &str) -> (&str, &str)
    ensures before { result.0.now ≡ spec.before_comment content.now }
    ensures comment { result.1.now ≡ spec.comment_of content.now }
{
    let mut at_start = true;
    let bytes = content.as_bytes();
    for place in 0..bytes.len() {
        if at_start && bytes[place] == b'#' {
            return content.split_at(place);
        }
        at_start = is_space_or_tab(bytes[place]);
    }
    content.split_at(content.len())
}

/// The longest run of bytes of a name that leads the text, and what follows it.
pub(crate) fn cut_name(text: &str) -> (&str, &str)
    ensures name { result.0.now ≡ take_while is_name_byte text.now }
    ensures rest { result.1.now ≡ drop (prefix_len is_name_byte text.now) text.now }
{
    let bytes = text.as_bytes();
    let mut end = 0;
    while end < bytes.len() && is_name_byte(bytes[end]) {
        end += 1;
    }
    text.split_at(end)
}

/// Where the byte first stands, or the length of the text.
fn place_of(byte: u8, bytes: &[u8]) -> usize
    ensures { result ≡ spec.place_of byte bytes.now }
{
    for place in 0..bytes.len() {
        if bytes[place] == byte {
            return place;
        }
    }
    bytes.len()
}

/// What stands before the first such ASCII character, and what stands from there.
pub(crate) fn cut_before(byte: u8, text: &str) -> (&str, &str)
    requires { byte < 128 }
    ensures before { result.0.now ≡ take (spec.place_of byte text.now) text.now }
    ensures from { result.1.now ≡ drop (spec.place_of byte text.now) text.now }
{
    text.split_at(place_of(byte, text.as_bytes()))
}

/// What stands up to the first such ASCII character, and what stands behind it.
pub(crate) fn cut_behind(byte: u8, text: &str) -> (&str, &str)
    requires { byte < 128 }
    ensures through { result.0.now ≡ take (suc (spec.place_of byte text.now)) text.now }
    ensures behind { result.1.now ≡ drop (suc (spec.place_of byte text.now)) text.now }
{
    let place = place_of(byte, text.as_bytes());
    if place == text.len() {
        return text.split_at(place);
    }
    text.split_at(place + 1)
}

/// What stands between two ASCII characters that begin and end the text.
pub(crate) fn inside(first: u8, last: u8, text: &str) -> Option<&str>
    requires first { first < 128 }
    requires last { (0 < last) × (last < 128) }
    ensures { option_copied result ≡ spec.inside first last text.now }
{
    if text.len() >= 2 && begins_with(first, text) && ends_with(last, text) {
        return Some(&text[1..text.len() - 1]);
    }
    None
}
