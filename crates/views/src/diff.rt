// What `diff` prints: what changed between two places of the history.

ghost use Rattle.std.specs.Prelude.{◌≡◌, IfOk, false, string_bytes};
ghost use Rattle.texts.specs.DiffText as spec;
ghost use Rattle.views.specs.Checked.{IsIfLines};
ghost use Rattle.views.specs.Differences.{IsChangeIn};
ghost use Rattle.views.specs.Views.{places_in};

use crate::held_texts::{Printed, say_changed};
use crate::net_change::change_of_steps;
use calls::{Call, difference_between};
use command_line::request::{DiffRange, Format};
use edits::Change;
use files::StillFolder;
use files::held::{Held, held_history};
use inputs::{InputFault, InputFile};
use phrases::Style;
use reports::show;
use std::alloc::{AllocError, Global};
use std::io::Write;
use stops::Stop;
use texts::diff_json::diff_json;
use texts::diff_text::diff_text;

/// Prints what changed between two places of the history.
pub fn print_diff<R: AllocGlobal, F: StillFolder, O: Write, E: Write>(
    call: &mut Call<'_, R, O>,
    folder: &F,
    errors: &mut E,
    range: DiffRange,
    format: Format,
) -> Result<(), Stop> {
    let alloc = call.rt.alloc();
    let held = held_history(folder)?;
    let (from, to) = places_of(range, held.cursor());
    let change = change_in(alloc, &held, from, to)?;
    say_changed(alloc, call.dir, &held, Printed::Steps, errors)?;
    let places = (from, to);
    let text = told_text(
        alloc,
        &change,
        places,
        held.has_other_lines(),
        format,
        call.style,
    )?;
    show(&mut call.output, text.as_bytes())?;
    Ok(())
}

/// The text of a change between two places.
fn told_text(
    alloc: Global,
    change: &Change,
    places: (usize, usize),
    has_other_lines: bool,
    format: Format,
    style: Style,
) -> Result<String, AllocError>
    ensures { IfOk result (λ text. style.colors ≡ false
        → IsIfLines format (string_bytes text ≡ spec.diff_text change.now)) }
{
    match format {
        Format::Lines => diff_text(alloc, change, style),
        Format::Json => diff_json(alloc, change, places, has_other_lines),
    }
}

/// The change from one place to another. Without the lines that were saved it is made of the changes of the steps; where
/// these don't follow one another, it isn't told.
fn change_in(alloc: Global, held: &Held, from: usize, to: usize) -> Result<Change, Stop>
    ensures { IfOk result (IsChangeIn held.now (from, to)) }
{
    match held {
        Held::History(session) => difference_between(alloc, session, from, to),
        Held::Changed(told, _) => told_between(alloc, told.changes.as_slice(), from, to),
    }
}

fn told_between(alloc: Global, changes: &[Change], from: usize, to: usize) -> Result<Change, Stop> {
    if from > changes.len() {
        return Err(Stop::NoPlace(from));
    }
    if to > changes.len() {
        return Err(Stop::NoPlace(to));
    }
    match change_of_steps(alloc, changes, from, to)? {
        Some(change) => Ok(change),
        None => Err(Stop::Input(InputFile::Requirements, InputFault::Disagrees)),
    }
}

/// The two places, in a history that stands in this one. Behind the first state no step has led there.
pub fn places_of(range: DiffRange, cursor: usize) -> (usize, usize)
    ensures { result ≡ places_in range cursor }
{
    match range {
        DiffRange::LastStep => (cursor.saturating_sub(1), cursor),
        DiffRange::Since(from) => (from, cursor),
        DiffRange::Between(from, to) => (from, to),
    }
}
