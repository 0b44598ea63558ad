// Texts between the double quotes of Graphviz's language.

use phrases::add_plain;
use std::alloc::{AllocError, Global};

/// Puts a text of a label behind another, so that Graphviz shows it as it stands: a quote or a backslash of its own
/// ends nothing and begins no escape, and `&` begins no name of a character. Control characters are told as `add_plain`
/// tells them.
pub fn add_label(alloc: Global, text: &mut String, given: &str) -> Result<(), AllocError> {
    let mut plain = String::new(alloc);
    add_plain(&mut plain, given)?;
    for letter in plain.chars() {
        match letter {
            '"' => text.push_str("\\\"")?,
            '\\' => text.push_str("\\\\")?,
            '&' => text.push_str("&amp;")?,
            _ => text.push(letter)?,
        }
    }
    Ok(())
}
