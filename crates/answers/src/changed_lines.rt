// The lines that an edit leads to, as sentences name them.

use edits::{Edit, Line, State};
use explain::ChangedLine;

/// The lines that an edit leaves of all lines, but for one that it changes.
pub fn lines_of<'e>(edit: &'e Edit, state: &'e State) -> &'e [Line] {
    match edit {
        Edit::Replace(lines, _) => lines.lines(),
        Edit::Add(_)
        | Edit::Remove(_)
        | Edit::Constrain(_, _)
        | Edit::Upgrade(_)
        | Edit::UpgradeAll
        | Edit::Relock
        | Edit::Retarget(_, _) => state.lines().lines(),
    }
}

/// The line that an edit changes.
pub fn changed_by(edit: &Edit) -> ChangedLine<'_> {
    match edit {
        Edit::Add(text) => ChangedLine::Added(text),
        Edit::Remove(name) => ChangedLine::Removed(name),
        Edit::Constrain(name, _) => ChangedLine::Constrained(name),
        Edit::Upgrade(_)
        | Edit::UpgradeAll
        | Edit::Relock
        | Edit::Replace(_, _)
        | Edit::Retarget(_, _) => ChangedLine::Same,
    }
}
