// A link in the place of a file that a save would write.

use crate::input_files::InputFile;

/// A link to what isn't reqlock's, in the place of a file.
#[derive(Drop)]
pub struct LinkOut {
    pub file: InputFile,
    /// Where it leads.
    pub path: String,
}
