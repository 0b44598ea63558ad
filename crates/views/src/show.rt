// What `show` prints.

use crate::held_texts::{Printed, locks_of, say_changed};
use calls::Call;
use command_line::request::{Format, Shown};
use edits::{Name, Refusal, Target};
use files::StillFolder;
use files::held::{Held, held_history, held_over};
use inputs::{Fault, HandedFiles};
use lists::Text;
use pep508::Cause;
use phrases::Style;
use reports::show;
use snapshot::Snapshot;
use std::alloc::{AllocError, Global};
use std::io::Write;
use stops::Stop;
use texts::entry_text::entry_text;
use texts::lock_json::lock_json;
use texts::lock_text::lock_text;
use texts::shown::ShownLocks;
use texts::tree_text::{tree_json, tree_text};

/// Prints the lock of each target, or a part of it.
pub fn print_shown<R: AllocGlobal, F: StillFolder, G: HandedFiles, O: Write, E: Write>(
    call: &mut Call<'_, R, O>,
    folder: &F,
    handed: &G,
    errors: &mut E,
    shown: Shown<'_>,
    format: Format,
) -> Result<(), Stop> {
    let (held, snapshot) = read_for(folder, handed, shown)?;
    let (alloc, locks) = (call.rt.alloc(), locks_of(&held));
    say_changed(alloc, call.dir, &held, Printed::LocksWithLines, errors)?;
    let text = match shown {
        Shown::Table => table_text(alloc, locks, format, call.style)?,
        Shown::Tree => told_tree(alloc, locks, format)?,
        Shown::Entry(name, _) => told_entry(alloc, locks, snapshot.as_ref(), name, format)?,
    };
    show(&mut call.output, text.as_bytes())?;
    Ok(())
}

/// The history, and the index where one is given.
fn read_for<F: StillFolder, G: HandedFiles>(
    folder: &F,
    handed: &G,
    shown: Shown<'_>,
) -> Result<(Held, Option<Snapshot>), Fault> {
    match shown {
        Shown::Table | Shown::Tree | Shown::Entry(_, None) => Ok((held_history(folder)?, None)),
        Shown::Entry(_, Some(index)) => {
            let (held, snapshot) = held_over(folder, handed, index)?;
            Ok((held, Some(snapshot)))
        }
    }
}

fn table_text(
    alloc: Global,
    locks: ShownLocks<'_>,
    format: Format,
    style: Style,
) -> Result<String, AllocError> {
    match format {
        Format::Lines => lock_text(alloc, locks, style),
        Format::Json => lock_json(alloc, locks, None, None),
    }
}

fn told_tree(alloc: Global, locks: ShownLocks<'_>, format: Format) -> Result<String, AllocError> {
    match format {
        Format::Lines => tree_text(alloc, locks),
        Format::Json => tree_json(alloc, locks),
    }
}

/// The entry of a name, which is locked for some target.
fn told_entry(
    alloc: Global,
    locks: ShownLocks<'_>,
    snapshot: Option<&Snapshot>,
    name: &str,
    format: Format,
) -> Result<String, Stop> {
    let name = locked_name(alloc, locks.targets, name)?;
    match format {
        Format::Lines => Ok(entry_text(alloc, locks, snapshot, &name)?),
        Format::Json => Ok(lock_json(alloc, locks, snapshot, Some(&name))?),
    }
}

fn locked_name(alloc: Global, targets: &[Target], text: &str) -> Result<Name, Stop> {
    let name = match Name::read(alloc, text) {
        Ok(name) => name,
        Err(Cause::OutOfMemory) => return Err(Stop::from(AllocError)),
        Err(_) => return Err(Stop::Refused(Refusal::BadText)),
    };
    for target in targets {
        if target.locked(&name).is_some() {
            return Ok(name);
        }
    }
    Err(Stop::Refused(Refusal::NotLocked(Text::copy_of(alloc, name.normal())?)))
}
