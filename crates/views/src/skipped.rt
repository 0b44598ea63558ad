// What `skipped` prints.

use calls::Call;
use inputs::{HandedFiles, InputFile, in_file, read_index};
use phrases::skipped_text::skipped_text;
use reports::show;
use std::io::Write;
use stops::Stop;

/// Prints what was left out of an index.
pub fn print_skipped<R: AllocGlobal, G: HandedFiles, O: Write>(
    call: &mut Call<'_, R, O>,
    handed: &G,
    index: &str,
) -> Result<(), Stop> {
    let alloc = call.rt.alloc();
    let bytes = handed.read(InputFile::Index, index)?;
    let snapshot = in_file(InputFile::Index, read_index(alloc, bytes.as_slice()))?;
    let text = skipped_text(alloc, snapshot.skipped())?;
    show(&mut call.output, text.as_bytes())?;
    Ok(())
}
