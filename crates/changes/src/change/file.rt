// Whether lines that were read one by one are those of a file.

ghost use Rattle.std.specs.Prelude.{◌≡◌, ◌↔◌, IsTrue, Ok};
ghost use Rattle.std.specs.List.{AllByRecursion, concat, list_all};
ghost use Rattle.pep508.specs.Lines.{AreLines};
ghost use Rattle.pep508.specs.Requirement.{IsLine, file_of};
ghost use Rattle.changes.specs.Tied.Whole.{LastIsEnded, are_whole, is_ended, is_whole};

use pep508::Line;

/// Whether the line has an ending.
fn is_ended(line: &Line) -> bool
    ensures { result ≡ is_ended line.now }
{
    !line.ending().is_empty()
}

/// Whether each of the lines has an ending.
pub(crate) fn are_ended(lines: &[Line]) -> bool
    ensures { result ≡ list_all is_ended lines.now }
{
    lines.iter().all(|line| is_ended(line))
}

/// Whether the last line has an ending, where there is a line.
pub(crate) fn is_last_ended(lines: &[Line]) -> bool
    ensures { IsTrue result → LastIsEnded lines.now }
{
    match lines.last() {
        Some(line) => is_ended(line),
        None => true,
    }
}

/// Whether the line has an ending, or a byte at least where no line is behind it.
fn is_whole(line: &Line, behind: &[Line]) -> bool
    ensures { result ≡ is_whole line.now behind.now }
{
    if behind.is_empty() {
        return !line.text().is_empty();
    }
    is_ended(line)
}

/// Whether each line has an ending, and the last one a byte at least.
fn are_whole(lines: &[Line]) -> bool
    ensures { result ≡ are_whole lines.now }
{
    for place in 0..lines.len() {
        if !is_whole(&lines[place], &lines[place + 1..]) {
            return false;
        }
    }
    true
}

/// What holds of the lines: each of them is lawful.
pub(crate) fn recall_invariants(lines: &[Line])
    ensures { AllByRecursion IsLine lines.now }
{
    for line in lines {
        line.recall_invariant();
    }
}

/// Whether a text is cut into these lines. Since each of them reads, its ending tells it.
pub(crate) fn are_lines(lines: &[Line]) -> bool
    ensures lines { IsTrue result ↔ AreLines lines.now }
    ensures read { IsTrue result → file_of (concat lines.now) ≡ Ok lines.now }
{
    recall_invariants(lines);
    are_whole(lines)
}
