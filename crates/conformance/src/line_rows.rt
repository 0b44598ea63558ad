// Rows of lines and files.

use crate::background::Background;
use crate::environment_rows::bytes_of;
use crate::growing_text::GrowingText;
use crate::marker_rows::told_fault;
use crate::notation::owned;
use crate::requirement_rows;
use pep508::{Line, ReqFile, ReqLine, Requirement, SpecifierText};
use std::alloc::Global;

/// What a line asks for.
fn asked(
    alloc: Global,
    background: &Background,
    requirement: Option<&Requirement>,
) -> Option<String> {
    match requirement {
        Some(requirement) => requirement_rows::told(alloc, background, requirement),
        None => owned(alloc, "nothing"),
    }
}

/// The slices of a line, each with a bar behind it.
fn slices(alloc: Global, line: &ReqLine<'_>) -> Option<String> {
    let mut text = GrowingText::new(alloc);
    for slice in [
        line.lead(),
        line.name(),
        line.gap1(),
        line.extras(),
        line.gap2(),
        line.version(),
        line.gap3(),
        line.marker(),
        line.gap4(),
        line.comment(),
        line.end(),
    ] {
        text.push_str(slice);
        text.push_str("|");
    }
    text.told()
}

/// The slices of a line and what it asks for, or why there is none.
pub fn line(alloc: Global, background: &Background, text: &str) -> Option<String> {
    match ReqLine::read(alloc, text) {
        Ok(line) => {
            let slices = slices(alloc, &line)?;
            let asked = asked(alloc, background, line.requirement())?;
            format!(in alloc; "{slices} {asked}").ok()
        }
        Err(fault) => told_fault(alloc, fault),
    }
}

/// A line that gets endings, one after the other.
pub fn ended(alloc: Global, text: &str, endings: &[String]) -> Option<String> {
    let mut line = Line::read(alloc, text).ok()?;
    for ending in endings {
        line = match ending.as_str() {
            "\n" => line.ended("\n").ok()?,
            "\r\n" => line.ended("\r\n").ok()?,
            _ => return None,
        };
    }
    let (text, is_asking) = (line.text(), line.requirement().is_some());
    format!(in alloc; "{text}| {is_asking}").ok()
}

/// The line with other specifiers, or why these are none.
pub fn constrained(alloc: Global, line: &str, specifiers: &str) -> Option<String> {
    match SpecifierText::parse(alloc, specifiers) {
        Ok(specifiers) => with_specifier(alloc, line, &specifiers),
        Err(fault) => told_fault(alloc, fault),
    }
}

/// The line with other specifiers.
fn with_specifier(alloc: Global, line: &str, specifiers: &SpecifierText) -> Option<String> {
    let line = ReqLine::read(alloc, line).ok()?;
    if line.name().is_empty() {
        return None;
    }
    let text = line.with_specifier(alloc, specifiers).ok()?;
    owned(alloc, text.as_str())
}

/// How many lines a file has, or why it is none.
pub fn file(alloc: Global, text: &str) -> Option<String> {
    let bytes = bytes_of(alloc, text)?;
    match ReqFile::read(alloc, bytes.as_slice()) {
        Ok(file) => {
            let count = file.lines().len();
            format!(in alloc; "{count} lines").ok()
        }
        Err(fault) => told_fault(alloc, fault),
    }
}
