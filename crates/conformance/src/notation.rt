// Texts as rows write them, and answers as they are printed.

use crate::growing_text::GrowingText;
use std::alloc::Global;

/// What a repetition begins with.
const REPETITION: &str = "\\{";

/// The text that a row writes so.
pub fn expanded(alloc: Global, written: &str) -> Option<String> {
    let mut text = GrowingText::new(alloc);
    let mut parts = written.split(REPETITION);
    push_plain(&mut text, parts.next()?, 0)?;
    for part in parts {
        push_repeated(&mut text, part)?;
    }
    text.told()
}

/// Pushes a repetition such as `200*.7}` or `100..120*p\#}`, and what stands behind it.
fn push_repeated(text: &mut GrowingText, part: &str) -> Option<()> {
    let (repetition, behind) = part.split_once('}')?;
    let (rounds, repeated) = repetition.split_once('*')?;
    let (first, end) = rounds.split_once("..").unwrap_or(("0", rounds));
    for number in first.parse::<usize>().ok()?..end.parse::<usize>().ok()? {
        push_plain(text, repeated, number)?;
    }
    push_plain(text, behind, 0)?;
    Some(())
}

/// Pushes a text that has no repetition, in the round of this number.
fn push_plain(text: &mut GrowingText, written: &str, number: usize) -> Option<()> {
    let mut rest = written;
    for _ in 0..written.len() {
        let Some((plain, behind)) = rest.split_once('\\') else {
            break;
        };
        text.push_str(plain);
        rest = push_marked(text, behind, number)?;
    }
    text.push_str(rest);
    Some(())
}

/// Pushes what stands behind a backslash, and gives what is left.
fn push_marked<'a>(text: &mut GrowingText, behind: &'a str, number: usize) -> Option<&'a str> {
    let mut letters = behind.chars();
    let mark = letters.next()?;
    let rest = letters.as_str();
    match mark {
        'u' => push_numbered(text, rest),
        '#' => {
            write!(text, "{number}");
            Some(rest)
        }
        _ => {
            text.push_str(meant_by(mark)?);
            Some(rest)
        }
    }
}

/// What a letter behind a backslash means.
fn meant_by(mark: char) -> Option<&'static str> {
    match mark {
        'n' => Some("\n"),
        'r' => Some("\r"),
        't' => Some("\t"),
        's' => Some(" "),
        'e' => Some(""),
        'c' => Some("}"),
        '\\' => Some("\\"),
        _ => None,
    }
}

/// Pushes the letter of a number such as `{85}`, and gives what is left.
fn push_numbered<'a>(text: &mut GrowingText, behind: &'a str) -> Option<&'a str> {
    let (code, rest) = behind.strip_prefix('{')?.split_once('}')?;
    let code = u32::from_str_radix(code, 16).ok()?;
    text.push(char::from_u32(code)?);
    Some(rest)
}

/// The answer in printable ASCII.
pub fn shown(alloc: Global, answer: &str) -> Option<String> {
    let mut line = GrowingText::new(alloc);
    for letter in answer.chars() {
        push_shown(&mut line, letter);
    }
    line.told()
}

fn push_shown(line: &mut GrowingText, letter: char) {
    match letter {
        '\n' => line.push_str("\\n"),
        '\r' => line.push_str("\\r"),
        '\t' => line.push_str("\\t"),
        '\\' => line.push_str("\\\\"),
        ' '..='~' => line.push(letter),
        _ => {
            let code = u32::from(letter);
            write!(line, "\\u{{{code:x}}}");
        }
    }
}

/// A text of its own.
pub fn owned(alloc: Global, text: &str) -> Option<String> {
    String::from_str(alloc, text).ok()
}

/// How it is printed whether something holds.
pub fn mark(holds: bool) -> char {
    if holds { '1' } else { '0' }
}
