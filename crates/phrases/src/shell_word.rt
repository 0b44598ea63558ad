// Words as a shell reads them.

use crate::plain_text::add_plain_letter;
use std::alloc::AllocError;

/// Puts a space and a word behind a command: as it stands where no shell takes something in it for its own, else in
/// single quotes. One that begins with = is a program's path to zsh.
pub fn add_word(text: &mut String, word: &str) -> Result<(), AllocError> {
    text.push_str(" ")?;
    let is_plain = !word.is_empty() && !word.starts_with('=');
    if is_plain && word.chars().all(is_bare) {
        return text.push_str(word);
    }
    text.push_str("'")?;
    for letter in word.chars() {
        add_quoted(text, letter)?;
    }
    text.push_str("'")
}

/// A letter in single quotes. A quote ends them, stands behind a backslash, and begins them again.
fn add_quoted(text: &mut String, letter: char) -> Result<(), AllocError> {
    match letter {
        '\'' => text.push_str("'\\''"),
        _ => add_plain_letter(text, letter),
    }
}

fn is_bare(letter: char) -> bool {
    letter.is_ascii_alphanumeric()
        || matches!(
            letter,
            '-' | '_' | '.' | '/' | '=' | ',' | ':' | '@' | '%' | '+'
        )
}
