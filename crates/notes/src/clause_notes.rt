// What to write in the place of a specifier that doesn't read. A line is proposed only where it reads.

use crate::line_notes::is_read;
use phrases::add_plain;
use std::alloc::{AllocError, Global};

/// Puts what a clause of the line lacks or has wrong behind the text.
pub(crate) fn add_clause_note(
    alloc: Global,
    text: &mut String,
    line: &str,
) -> Result<(), AllocError> {
    let wanted = line
        .split_once(" #")
        .map(|(wanted, _)| wanted)
        .unwrap_or(line);
    if let Some(fixed) = with_commas(alloc, wanted)? {
        text.push_str("Specifiers have a comma between them: write ")?;
        return add_line(text, fixed.as_str());
    }
    if let Some((wrong, right)) = wrong_sign(wanted) {
        return write!(text, "Write {right} in the place of {wrong}.\n");
    }
    if let Some((name, version)) = lone_equals(wanted) {
        text.push_str("A single = compares nothing: write ")?;
        add_plain(text, name.trim_end())?;
        text.push_str("==")?;
        return add_line(text, version.trim_start());
    }
    add_version_note(alloc, text, wanted)
}

/// What is wrong with a version.
fn add_version_note(alloc: Global, text: &mut String, wanted: &str) -> Result<(), AllocError> {
    if let Some((name, _)) = wanted.split_once("==") {
        if wanted.ends_with("latest") && is_read(alloc, name)? {
            text.push_str("The newest release needs no specifier: write ")?;
            return add_line(text, name.trim_end());
        }
    }
    if let Some((name, version)) = wanted.split_once(' ') {
        let fixed = format!(in alloc; "{name}=={version}")?;
        if is_read(alloc, fixed.as_str())? {
            text.push_str("A version alone compares nothing: write ")?;
            return add_line(text, fixed.as_str());
        }
    }
    if let Some(number) = number_before_x(wanted) {
        return write!(
            text,
            "x stands for no number: write =={number}.* for the releases of {number}, or >={number} for later ones too.\n"
        );
    }
    if wanted.contains("~=") {
        return text.push_str("Behind ~= stand two numbers at least, as in ~=2.0.\n");
    }
    text.push_str("A specifier is a comparison with a version, as in >=2,<3.\n")
}

fn add_line(text: &mut String, line: &str) -> Result<(), AllocError> {
    add_plain(text, line)?;
    text.push_str("\n")
}

/// A sign that is none, and the one that is meant.
fn wrong_sign(wanted: &str) -> Option<(&'static str, &'static str)> {
    for (wrong, right) in [
        ("=>", ">="),
        ("=<", "<="),
        ("^", "~="),
        ("><", "!="),
        ("<>", "!="),
    ] {
        if wanted.contains(wrong) {
            return Some((wrong, right));
        }
    }
    match wanted.split_once('~') {
        Some((_, behind)) if !behind.starts_with('=') => Some(("~", "~=")),
        _ => None,
    }
}

/// A line without its blanks, and with the commas between specifiers that it lacks; none where it lacks none, or doesn't
/// read with them. A marker stays as it stands.
pub fn with_commas(alloc: Global, wanted: &str) -> Result<Option<String>, AllocError> {
    let (front, marker) = match wanted.split_once(';') {
        Some((front, marker)) => (front, Some(marker)),
        None => (wanted, None),
    };
    let mut line = String::new(alloc);
    let mut lacks = false;
    for word in front.split_ascii_whitespace() {
        let is_behind = line.as_str().contains(is_sign) && !line.as_str().ends_with(is_open);
        if is_behind && word.starts_with(is_sign) {
            line.push_str(",")?;
            lacks = true;
        }
        line.push_str(word)?;
    }
    if let Some(marker) = marker {
        line.push_str(" ;")?;
        line.push_str(marker)?;
    }
    if lacks && is_read(alloc, line.as_str())? {
        return Ok(Some(line));
    }
    Ok(None)
}

/// What stands before and behind the first `=` that is no part of a longer comparison.
fn lone_equals(line: &str) -> Option<(&str, &str)> {
    let (before, behind) = line.split_once('=')?;
    if before.ends_with(is_sign) || behind.starts_with(is_sign) {
        return None;
    }
    Some((before, behind))
}

/// The number in front of the first `.x`.
fn number_before_x(wanted: &str) -> Option<&str> {
    let (front, _) = wanted.split_once(".x").or(wanted.split_once(".X"))?;
    let number = front.rsplit(is_no_digit).next()?;
    if number.is_empty() {
        None
    } else {
        Some(number)
    }
}

fn is_no_digit(letter: char) -> bool {
    !letter.is_ascii_digit() && letter != '.'
}

fn is_sign(letter: char) -> bool {
    matches!(letter, '=' | '<' | '>' | '!' | '~')
}

/// Whether what stands behind it belongs to the same specifier, or is a new one already.
fn is_open(letter: char) -> bool {
    letter == ',' || is_sign(letter)
}
