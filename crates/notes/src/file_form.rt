// What a file looks like that was given in the place of another.

use std::str;

/// What a file looks like.
#[derive(Clone, Copy, Debug, PartialEq, Eq)]
pub enum FileForm {
    Empty,
    /// git left a conflict in it, at this line.
    Conflict(usize),
    /// It begins with a byte-order mark.
    Marked,
    /// A page of an index, for a browser or as JSON.
    Page,
    Lock,
    Environment,
    Snapshot,
    Other,
}

/// What a file looks like.
pub fn form_of(bytes: &[u8]) -> FileForm {
    let Ok(text) = str::from_utf8(bytes) else {
        return FileForm::Other;
    };
    if text.trim().is_empty() {
        return FileForm::Empty;
    }
    if text.starts_with('\u{feff}') {
        return FileForm::Marked;
    }
    match conflict_line(text) {
        Some(line) => FileForm::Conflict(line),
        None => form_of_text(text),
    }
}

/// A snapshot has the same words as an environment or a page where a project's name is one of them, so it comes first.
fn form_of_text(text: &str) -> FileForm {
    if text.contains("\"snapshot\"") {
        return FileForm::Snapshot;
    }
    if text.contains("\"implementation_name\"") || text.contains("\"sys_platform\"") {
        return FileForm::Environment;
    }
    if text.contains("lock-version") {
        return FileForm::Lock;
    }
    if text.trim_start().starts_with('<') || is_page(text) {
        return FileForm::Page;
    }
    FileForm::Other
}

/// Whether JSON is what an index answers: of a project, or a list of projects.
fn is_page(text: &str) -> bool {
    text.contains("\"api-version\"") || (text.contains("\"info\"") && text.contains("\"urls\""))
}

/// The number of the first line that is a mark of a conflict, as git leaves them.
pub fn conflict_line(text: &str) -> Option<usize> {
    for (position, line) in text.lines().enumerate() {
        if is_conflict_mark(line) {
            return Some(position.saturating_add(1));
        }
    }
    None
}

/// Whether a line is a mark that git leaves where two sides changed the same lines.
pub fn is_conflict_mark(line: &str) -> bool {
    line.starts_with("<<<<<<<") || line.starts_with(">>>>>>>") || line.trim_end() == "======="
}
