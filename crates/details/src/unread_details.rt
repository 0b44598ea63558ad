// What is told of a file that can't be read: which, why, and how it is made.

use crate::details::{CallFiles, Details};
use crate::fault_details::is_there;
use inputs::{InputFile, NO_REGULAR_FILE, TOO_LONG, Unread};
use notes::{add_environment_command, is_address};
use phrases::{Notes, add_plain};
use std::alloc::{AllocError, Global};
use std::io::{Error, ErrorKind};
use std::rt::Files;

impl Details {
    /// Why a file can't be read, as it was told when the call read it.
    pub(crate) fn add_unread<R: Files + AllocGlobal>(
        &mut self,
        rt: &R,
        files: &CallFiles<'_>,
        file: &InputFile,
        unread: &Unread,
    ) -> Result<(), AllocError> {
        match unread {
            Unread::NoFolder => self.known.push_str(
                "--dir is empty: give the folder that has requirements.txt\n",
            ),
            Unread::At(path, error) => {
                self.add_cause(path.as_str(), error)?;
                if error.kind() == ErrorKind::NotFound {
                    self.add_absent(rt, files, file, path.as_str())?;
                }
                Ok(())
            }
            // of files of pins alone
            Unread::InputTaken | Unread::ManyDots => self
                .known
                .push_str("A file that --pins names can't be read.\n"),
        }
    }

    /// The path of a file that can't be read, and the cause.
    fn add_cause(&mut self, path: &str, error: &Error) -> Result<(), AllocError> {
        add_plain(&mut self.known.text, path)?;
        if error.kind() == NO_REGULAR_FILE {
            return self.known.push_str(": this is no regular file\n");
        }
        if error.kind() == TOO_LONG {
            return self.known.push_str(": this has too many bytes\n");
        }
        write!(self.known, ": {error}\n")
    }

    /// How a file is made that isn't there.
    fn add_absent<R: Files + AllocGlobal>(
        &mut self,
        rt: &R,
        files: &CallFiles<'_>,
        file: &InputFile,
        path: &str,
    ) -> Result<(), AllocError> {
        let alloc = rt.alloc();
        match file {
            InputFile::Requirements => self.add_no_requirements(rt, files),
            InputFile::Lock(_) => self.add_no_lock(rt, files, file),
            InputFile::Journal => self.add_no_journal(rt, files),
            InputFile::Index => {
                let told = if is_address(path) {
                    "--index takes a file, the snapshot of an index. This makes one:\n"
                } else {
                    "This makes it:\n"
                };
                let mut known = Notes::new(alloc);
                known.push_str(told)?;
                self.plan().add_command(&mut known)?;
                self.known.append(&known)
            }
            InputFile::Environment(_) => self.add_no_environment(alloc, path),
            InputFile::NewRequirements | InputFile::OldRequirements | InputFile::Pins(_) => Ok(()),
        }
    }

    /// How an environment is made: of the version of Python that was given in the place of a file, or of the one that runs.
    fn add_no_environment(&mut self, alloc: Global, path: &str) -> Result<(), AllocError> {
        if !is_version(path) {
            self.known
                .push_str("This makes it, of the Python that runs it:\n")?;
            return add_environment_command(alloc, &mut self.known, path);
        }
        write!(
            self.known,
            "--env takes a file. This makes one for Python {path}; --platform has the other platforms:\n"
        )?;
        self.known.begin_command()?;
        write!(
            self.known,
            "reqlock-environment --python {path} --platform linux-x86_64 >environment.json\n"
        )
    }

    /// A project of pip-tools has its requirements in another file.
    fn add_no_requirements<R: Files + AllocGlobal>(
        &mut self,
        rt: &R,
        files: &CallFiles<'_>,
    ) -> Result<(), AllocError> {
        let dir = files.dir;
        let path = format!(in rt.alloc(); "{dir}/requirements.in")?;
        if is_there(rt, path.as_str()) {
            return self.known.push_str(
                "requirements.in is there: reqlock-adopt takes it over, with the pins of its compiled file\n",
            );
        }
        self.known.push_str(
            "Write one, with a requirement on each line as flask>=2, or give the folder that has it by --dir\n",
        )
    }
}

/// Whether a version of Python was given in the place of a file.
fn is_version(path: &str) -> bool {
    path.starts_with("3.")
        && path
            .bytes()
            .all(|byte| byte.is_ascii_digit() || byte == b'.')
}
