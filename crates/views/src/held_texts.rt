// What a view tells of a history whose requirements file may have been changed, and what it says of that first.

use files::held::Held;
use phrases::add_word;
use std::alloc::{AllocError, Global};
use std::io::Write;
use texts::shown::{ShownLocks, ShownSteps};

/// What a view prints of a history.
#[derive(Clone, Copy, Debug, PartialEq, Eq)]
pub(crate) enum Printed {
    Steps,
    Locks,
    LocksWithLines,
}

/// The steps of a history.
pub(crate) fn steps_of(held: &Held) -> ShownSteps<'_> {
    ShownSteps {
        cursor: held.cursor(),
        changes: held.changes(),
        has_other_lines: held.has_other_lines(),
    }
}

/// The locks of a history, and the lines as they stand.
pub(crate) fn locks_of(held: &Held) -> ShownLocks<'_> {
    ShownLocks {
        lines: held.lines(),
        targets: held.targets(),
        has_other_lines: held.has_other_lines(),
    }
}

/// Says on standard error that the requirements file was changed since it was saved, and what is printed all the same,
/// where it was. A text that can't be written there changes nothing.
pub(crate) fn say_changed<E: Write>(
    alloc: Global,
    dir: &str,
    held: &Held,
    printed: Printed,
    errors: &mut E,
) -> Result<(), AllocError> {
    let Held::Changed(_, lines) = held else {
        return Ok(());
    };
    let mut text = String::from_str(
        alloc,
        "reqlock: requirements.txt was changed since reqlock saved it. This is ",
    )?;
    text.push_str(match printed {
        Printed::Steps => "the history as it was saved",
        Printed::Locks => "the lock as it was saved",
        Printed::LocksWithLines if lines.do_read => {
            "the lock as it was saved, with the lines as they are now"
        }
        Printed::LocksWithLines => {
            "the lock as it was saved, without lines, since the file doesn't read"
        }
    })?;
    text.push_str("; `reqlock")?;
    if dir != "." {
        text.push_str(" --dir")?;
        add_word(&mut text, dir)?;
    }
    text.push_str(" check -v` says what to type\n")?;
    let _ = errors.write_all(text.as_bytes());
    Ok(())
}
