// What `outdated` prints.

use calls::Call;
use command_line::request::Format;
use files::StillFolder;
use files::saved_history::session_over;
use inputs::HandedFiles;
use notes::Lacks;
use reports::show;
use std::io::Write;
use stops::Stop;
use texts::outdated_text::{outdated_json, outdated_text};

/// Prints the entries of each target that have newer releases in the index, and who holds them back. What the index lacks for
/// still newer ones is noted.
pub fn print_outdated<R: AllocGlobal, F: StillFolder, G: HandedFiles, O: Write>(
    call: &mut Call<'_, R, O>,
    folder: &F,
    handed: &G,
    lacks: &mut Lacks,
    index: &str,
    format: Format,
) -> Result<(), Stop> {
    let alloc = call.rt.alloc();
    let (session, snapshot) = session_over(folder, handed, index)?;
    lacks.add_newer(alloc, session.state(), &snapshot, None)?;
    let text = match format {
        Format::Lines => outdated_text(alloc, session.state(), &snapshot, call.style)?,
        Format::Json => outdated_json(alloc, session.state(), &snapshot)?,
    };
    show(&mut call.output, text.as_bytes())?;
    Ok(())
}
