// The folder of a history, as calls read it that save nothing.

ghost use Rattle.std.specs.Prelude.{IfOk, IfSome};
ghost use Rattle.files.specs.Places.{AreInPlace, bytes_read};

use crate::history_folder::HistoryFolder;
use crate::saved_files::SavedFiles;
use inputs::Fault;
use lists::Text;
use std::collections::BTreeSet;

/// A folder whose files are read while nobody writes to them.
pub trait StillFolder: HistoryFolder {
    /// The files. Nothing is written to them meanwhile.
    fn still_files(&self) -> Result<SavedFiles, Fault>
        ensures { IfOk result (λ files. IfSome (Self.held self.now)
            (λ h. AreInPlace h (bytes_read files))) };

    /// The names of targets that locks in the folder have (PEP 751, "File Name"). What can't be listed has none.
    fn lock_names(&self) -> Result<BTreeSet<Text>, Fault>;
}
