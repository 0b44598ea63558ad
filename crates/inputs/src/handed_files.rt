// Files that a call is handed beside those of its folder.

ghost use Rattle.std.specs.Prelude.{ℕ, IfOk, List, Option};
ghost use Rattle.inputs.specs.Handed.{IsAt};
ghost use Rattle.inputs.specs.declared.input_files.InputFile.{InputFile};

use crate::fault::Fault;
use crate::input_files::InputFile;
use std::alloc::Global;

/// The files that a call is handed beside those of its folder. To read one changes no file.
pub trait HandedFiles {
    /// The bytes of a file at a path, where they are known.
    ghost handed: { Self → InputFile → List ℕ → Option (List ℕ) };

    /// Where memory is taken from.
    fn alloc(&self) -> Global;

    /// The bytes of a file, or its fault.
    fn read(&self, file: InputFile, path: &str) -> Result<Vec<u8>, Fault>
        ensures { IfOk result (λ bytes. IsAt (handed self.now) file path.now bytes.items) };
}
