//! The inputs of a call: which files it reads, what their bytes stand for, and why one is refused.
//!
//! `input_files` names the files and reads them, each refused for its own fault, which `fault` tells. Calls lock one
//! another out of a folder by `folder_lock`. The values of `--env` and of `--pins` name files in `target_files` and
//! `pins_files`, and a call is handed files beside those of its folder by `handed_files`. No history is known here.
//!
//! A file of pins has versions that somebody hands in, to be kept beside those of a lock: a lock of reqlock (PEP 751), or
//! a requirements file whose lines have one `==` each, such as `pip freeze` prints.
//!
//! ```rust
//! let file = PinFile::read_lines(alloc, b"flask==3.0.3\ncolorama==0.4.6 ; sys_platform == 'win32'\n")?;
//! Ok(file.versions(alloc, &linux)?.len() == 1)
//! ```
#![tactic(auto)]

mod fault;
mod folder_lock;
mod handed_files;
pub mod handed_in;
mod input_files;
mod link_out;
pub mod named_file;
mod pin_fault;
mod pin_file;
mod pinned_version;
pub mod pins_files;
pub mod target_files;
mod unread;

pub use crate::fault::{Fault, in_file, passed_over, unwritten};
pub use crate::folder_lock::{LockFile, lock_to_read, lock_to_save, sync_folder};
pub use crate::handed_files::HandedFiles;
pub use crate::input_files::{
    InputFault, InputFile, NO_REGULAR_FILE, TOO_LONG, path_of, read_as, read_bytes,
    read_environment, read_file, read_index, read_requirements,
};
pub use crate::link_out::LinkOut;
pub use crate::pin_fault::PinFault;
pub use crate::pin_file::PinFile;
pub use crate::unread::Unread;
