// What a question is about: the lines of a file, and where the lines of a problem differ from them.

use lists::Text;
use pep508::Line;

/// The line in which the lines of a problem differ from those of a file.
#[derive(Clone, Copy)]
pub enum ChangedLine<'a> {
    /// They are those of the file.
    Same,
    /// A line with this text stands behind the others.
    Added(&'a Text),
    /// The line of this name is gone.
    Removed(&'a Text),
    /// The line of this name has other specifiers.
    Constrained(&'a Text),
    /// This requirement, which takes the release that a question is about, stands behind the others.
    Wanted(&'a Text),
}

/// The lines of a file, and the one that is changed in a problem.
#[derive(Clone, Copy)]
pub struct ChangedLines<'a> {
    pub lines: &'a [Line],
    pub changed: ChangedLine<'a>,
}
