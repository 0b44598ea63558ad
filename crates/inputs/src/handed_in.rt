// Files of the system, one of them perhaps from standard input.

ghost use Rattle.std.specs.Prelude.{None};

use crate::fault::Fault;
use crate::handed_files::HandedFiles;
use crate::input_files::{InputFault, InputFile, read_as, read_bounded, read_bytes};
use crate::unread::Unread;
use lists::Text;
use std::alloc::Global;
use std::cell::Cell;
use std::io::Read;
use std::rt::Files;

/// Where a call reads the files that it is handed. `-` is standard input, which can be read once; but not for an index or an
/// environment. What the files hold isn't known.
#[derive(Drop)]
pub struct HandedIn<'a, R, I> {
    rt: &'a R,
    // none behind the read of it
    input: Cell<Option<I>>,
}

impl<'a, R: Files + AllocGlobal, I: Read + Drop> HandedIn<'a, R, I> {
    /// Files, and standard input.
    pub fn new(rt: &'a R, input: I) -> HandedIn<'a, R, I> {
        HandedIn {
            rt,
            input: Cell::new(Some(input)),
        }
    }

    fn read_input(&self, file: InputFile) -> Result<Vec<u8>, Fault> {
        let alloc = self.rt.alloc();
        let place = Text::copy_of(alloc, "-")?;
        match self.input.replace(None) {
            Some(input) => {
                let read = read_bounded(alloc, &file, input);
                read_as(file, place, read)
            }
            None => Err(Fault::Input(file, InputFault::Unreadable(Unread::InputTaken))),
        }
    }
}

impl<'a, R: Files + AllocGlobal, I: Read + Drop> HandedFiles for HandedIn<'a, R, I> {
    ghost handed = { λ files file path. None };

    fn alloc(&self) -> Global {
        self.rt.alloc()
    }

    fn read(&self, file: InputFile, path: &str) -> Result<Vec<u8>, Fault> {
        if path == "-" && may_be_input(&file) {
            return self.read_input(file);
        }
        read_bytes(self.rt, file, path)
    }
}

/// Whether `-` is standard input for this file.
fn may_be_input(file: &InputFile) -> bool {
    match file {
        InputFile::NewRequirements | InputFile::OldRequirements | InputFile::Pins(_) => true,
        InputFile::Requirements
        | InputFile::Lock(_)
        | InputFile::Journal
        | InputFile::Index
        | InputFile::Environment(_) => false,
    }
}
