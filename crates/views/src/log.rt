// What `log` prints.

use crate::held_texts::{Printed, say_changed, steps_of};
use calls::Call;
use command_line::request::Format;
use files::StillFolder;
use files::held::held_history;
use reports::show;
use std::io::Write;
use stops::Stop;
use texts::history_text::history_text;
use texts::log_json::log_json;

/// Prints the history, a line for each step, and where the log is long one for each entry that it changed.
pub fn print_history<R: AllocGlobal, F: StillFolder, O: Write, E: Write>(
    call: &mut Call<'_, R, O>,
    folder: &F,
    errors: &mut E,
    long: bool,
    format: Format,
) -> Result<(), Stop> {
    let alloc = call.rt.alloc();
    let held = held_history(folder)?;
    say_changed(alloc, call.dir, &held, Printed::Steps, errors)?;
    let steps = steps_of(&held);
    let text = match format {
        Format::Lines => history_text(alloc, steps, long, call.style)?,
        Format::Json => log_json(alloc, steps)?,
    };
    show(&mut call.output, text.as_bytes())?;
    Ok(())
}
