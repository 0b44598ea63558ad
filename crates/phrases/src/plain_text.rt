// Texts of files as a terminal may have them.

ghost use Rattle.std.specs.Prelude.{◌≡◌, ◌++◌, IfOk, string_bytes};
ghost use Rattle.phrases.specs.Plain.{is_escaped, plain_letter, plain_text, turns_line};

use std::alloc::AllocError;

/// Puts a text behind another, each control character but a tab as `\u{1b}`, and so what turns or ends a line: no file can
/// write to somebody's terminal, or have it show another text than stands there.
pub fn add_plain(text: &mut String, given: &str) -> Result<(), AllocError>
    ensures { IfOk result (λ _.
        string_bytes text.new ≡ string_bytes text.old ++ plain_text given.now) }
{
    for letter in given.chars() {
        add_plain_letter(text, letter)?;
    }
    Ok(())
}

/// Puts a letter behind a text in the same way.
pub(crate) fn add_plain_letter(text: &mut String, letter: char) -> Result<(), AllocError>
    ensures { IfOk result (λ _.
        string_bytes text.new ≡ string_bytes text.old ++ plain_letter letter) }
{
    if is_escaped(letter) {
        let number = letter as u32;
        write!(text, "\\u{{{number:x}}}")?;
        return Ok(());
    }
    text.push(letter)?;
    Ok(())
}

/// Whether a letter isn't written as it is.
fn is_escaped(letter: char) -> bool
    ensures { result ≡ is_escaped letter }
{
    (letter.is_control() && letter != '\t') || turns_line(letter)
}

/// Whether a letter turns the direction of a line (Unicode, "Bidi_Control"), or ends a line or a paragraph.
fn turns_line(letter: char) -> bool
    ensures { result ≡ turns_line letter }
{
    match letter {
        '\u{61c}' | '\u{200e}' | '\u{200f}' => true,
        '\u{2028}'..='\u{202e}' | '\u{2066}'..='\u{2069}' => true,
        _ => false,
    }
}
