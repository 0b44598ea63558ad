// The words of a text, with spaces and tabs between them.

ghost use Rattle.std.specs.Prelude.{◌≡◌};
ghost use Rattle.std.specs.List.{position_or_len};
ghost use Rattle.std.specs.Str.{IsUtf8};
ghost use Rattle.lists.specs.Spaces as spaces;
ghost use Rattle.commands.specs.BatchLine.{behind_word, first_word};

use lists::{is_space_or_tab, trim_start};

/// How long the first word is: up to a space or a tab, or to the end.
fn word_length(bytes: &[u8]) -> usize
    ensures { result ≡ position_or_len spaces.is_space_or_tab bytes.now }
{
    for place in 0..bytes.len() {
        if is_space_or_tab(bytes[place]) {
            return place;
        }
    }
    bytes.len()
}

/// The first word of a text, and what stands behind it and the space that follows.
pub(crate) fn cut_word(text: &str) -> (&str, &str)
    ensures word { result.0.now ≡ first_word text.now }
    ensures behind { result.1.now ≡ behind_word text.now }
    ensures text { IsUtf8 result.1.now }
{
    let (word, rest) = text.split_at(word_length(text.as_bytes()));
    (word, trim_start(rest))
}
