// What is told of a file for which a call stops: why, and what to type next.

use crate::details::{CallFiles, Details};
use edits::{Cause, Refusal, Target, TargetName};
use inputs::target_files::environment_path;
use inputs::{InputFault, InputFile, LinkOut, path_of, read_file};
use notes::{
    BadEnvironment, ENVIRONMENT, INDEX, IndexPlan, add_bad_lines, add_environment_note,
    add_index_note, add_named_step, add_near_locked, form_of,
};
use phrases::{Notes, add_plain};
use std::alloc::{AllocError, Global};
use std::io::ErrorKind;
use std::rt::Files;
use std::{fs, str};
use stops::Stop;

impl Details {
    /// Notes why a call stops, and what to do, where that is known.
    pub fn add_stop<R: Files + AllocGlobal>(
        &mut self,
        rt: &R,
        files: &CallFiles<'_>,
        stop: &Stop,
    ) -> Result<(), Stop> {
        if !self.manner.tells {
            return Ok(());
        }
        match stop {
            Stop::Input(file, InputFault::Unreadable(unread)) => Ok(self.add_unread(
                rt, files, file, unread,
            )?),
            Stop::Input(file, fault) => self.add_refused_file(rt, files, file, fault),
            Stop::Unwritten(_) if !self.is_of_fault => Ok(self.add_unwritten()?),
            Stop::NoPlace(_) | Stop::NoBeginning(_, _) if self.manner.is_person => {
                self.steps
                    .push_str("The places of the history are told by:\n")?;
                self.steps.begin_command()?;
                Ok(self.steps.push_str("reqlock log\n")?)
            }
            Stop::Refused(refusal) => Ok(self.add_refused(rt.alloc(), files, refusal)?),
            Stop::Unwritten(_) | Stop::NoPlace(_) | Stop::NoBeginning(_, _) => Ok(()),
            // what these stop for is told already
            Stop::Usage(_)
            | Stop::Needed(_)
            | Stop::Refuted(_)
            | Stop::Explained(_)
            | Stop::NoneSaved(_)
            | Stop::Stale(_)
            | Stop::Uncovered(_)
            | Stop::NoTarget(_)
            | Stop::Fault(_) => Ok(()),
        }
    }

    /// What is told of a refusal that no edit came to: of targets, and of what refuses a line before the edit is made.
    fn add_refused(
        &mut self,
        alloc: Global,
        files: &CallFiles<'_>,
        refusal: &Refusal,
    ) -> Result<(), AllocError> {
        match refusal {
            Refusal::BadTarget if self.manner.is_person => self.known.push_str(
                "What stands before = is a name: up to 32 of a to z, 0 to 9 and -, a letter first. A path with = in it is given as =PATH.\n",
            ),
            Refusal::DuplicateTarget(name) if name.is_empty() => self.known.push_str(
                "the target without a name stands twice: of several, each is given as NAME=FILE\n",
            ),
            refusal if self.known.is_empty() && self.reasons.is_empty() => {
                write!(self.known, "{refusal}\n")?;
                self.add_named(alloc, files, refusal)
            }
            _ => Ok(()),
        }
    }

    /// Notes the locked names that are near to one that isn't locked, where nothing is known of that yet.
    pub fn add_not_locked(
        &mut self,
        alloc: Global,
        targets: &[Target],
        name: &str,
    ) -> Result<(), AllocError> {
        if !self.tells() || !self.known.is_empty() {
            return Ok(());
        }
        write!(self.known, "{name} is not locked")?;
        add_near_locked(alloc, &mut self.known.text, targets, name)?;
        if self.manner.is_person {
            self.steps.push_str("What is locked is told by:\n")?;
            self.steps.begin_command()?;
            self.steps.push_str("reqlock show\n")?;
        }
        self.known.push_str("\n")
    }

    /// The release or the name that is meant by a text which isn't one.
    fn add_named(
        &mut self,
        alloc: Global,
        files: &CallFiles<'_>,
        refusal: &Refusal,
    ) -> Result<(), AllocError> {
        match (files.named, refusal) {
            (Some(text), Refusal::BadText) => add_named_step(alloc, &mut self.known.text, text),
            _ => Ok(()),
        }
    }

    /// A file that was read, and is refused.
    fn add_refused_file<R: Files + AllocGlobal>(
        &mut self,
        rt: &R,
        files: &CallFiles<'_>,
        file: &InputFile,
        fault: &InputFault,
    ) -> Result<(), Stop> {
        let alloc = rt.alloc();
        let path = files.path_of(alloc, file)?;
        let bytes = bytes_of(rt, file, path.as_str())?;
        let bytes = bytes.as_slice();
        match fault {
            InputFault::Requirements(_) => Ok(self.add_bad_requirements(alloc, bytes)?),
            InputFault::Index(_) => {
                let is_there = is_there(rt, INDEX);
                Ok(self.add_bad_index(alloc, bytes, is_there)?)
            }
            InputFault::Environment(cause) => {
                Ok(self.add_bad_environment(rt, path.as_str(), bytes, *cause)?)
            }
            InputFault::Disagrees => Ok(self.add_disagreement(rt, files, file, bytes)?),
            InputFault::JournalBroken(_) => Ok(self.add_broken_journal(rt, files, bytes)?),
            InputFault::Lock(_) => Ok(
                self.known.push_str(
                    "A file of pins whose name ends in .toml is a lock of reqlock. Any other has NAME==VERSION on each line.\n",
                )?,
            ),
            InputFault::NoPin(_) => Ok(
                self.known.push_str(
                    "Each line of a file of pins has one version, as flask==3.0.3; a lock's name ends in .toml.\n",
                )?,
            ),
            InputFault::Unreadable(_) | InputFault::OutOfMemory => Ok(()),
        }
    }

    fn add_bad_environment<R: Files + AllocGlobal>(
        &mut self,
        rt: &R,
        path: &str,
        bytes: &[u8],
        cause: Cause,
    ) -> Result<(), AllocError> {
        let file = BadEnvironment {
            path,
            text: str::from_utf8(bytes).unwrap_or(""),
            form: form_of(bytes),
            variable: variable_in(cause),
            is_there: is_there(rt, ENVIRONMENT),
        };
        add_environment_note(rt.alloc(), &mut self.known, file)
    }

    fn add_bad_index(
        &mut self,
        alloc: Global,
        bytes: &[u8],
        is_there: bool,
    ) -> Result<(), AllocError> {
        let mut known = Notes::new(alloc);
        let plan = IndexPlan {
            is_there,
            ..self.plan()
        };
        add_index_note(&mut known, plan, form_of(bytes))?;
        self.known = known;
        Ok(())
    }

    /// All lines that don't read.
    fn add_bad_requirements(&mut self, alloc: Global, bytes: &[u8]) -> Result<(), AllocError> {
        match str::from_utf8(bytes) {
            Ok(text) => add_bad_lines(alloc, &mut self.known.text, text),
            Err(_) => {
                let line = odd_line(bytes);
                write!(
                    self.known,
                    "line {line} is no UTF-8: save the file as UTF-8\n"
                )
            }
        }
    }

    fn add_unwritten(&mut self) -> Result<(), AllocError> {
        self.begin_fault();
        self.known.push_str(
            "Nothing was saved. Look whether you may write in the folder, and whether the disk has room.\n",
        )
    }

    /// Notes a link for which nothing is saved, in the place of all else.
    pub fn add_link(&mut self, link: &LinkOut) -> Result<(), AllocError> {
        if !self.manner.tells {
            return Ok(());
        }
        self.begin_fault();
        let file = &link.file;
        write!(self.known, "{file} is a link to ")?;
        add_plain(&mut self.known.text, link.path.as_str())?;
        self.known.push_str(
            ", which is none of reqlock's files: remove the link, so that a file is written here\n",
        )
    }

    /// Notes, in the place of all else, that nothing is saved since a file stands in the place of the lock of a target that
    /// comes; and whether its versions may be handed in.
    pub fn add_standing(
        &mut self,
        target: &TargetName,
        takes_pins: bool,
    ) -> Result<(), AllocError> {
        if !self.manner.tells {
            return Ok(());
        }
        self.begin_fault();
        let file = target.lock_file();
        write!(
            self.known,
            "{file} stands there already, and isn't the lock that comes there: remove it, or move it elsewhere"
        )?;
        if takes_pins {
            self.known.push_str(" and hand its versions in by --pins ")?;
            if !target.is_empty() {
                write!(self.known, "{target}=")?;
            }
            self.known.push_str("FILE")?;
        }
        self.known.push_str("\n")
    }
}

impl CallFiles<'_> {
    /// The path of a file; empty where the call names none.
    pub(crate) fn path_of(&self, alloc: Global, file: &InputFile) -> Result<String, Stop> {
        match file {
            InputFile::Index => Ok(String::from_str(alloc, self.index.unwrap_or(""))?),
            InputFile::Environment(name) => {
                Ok(String::from_str(alloc, environment_path(self.targets.as_slice(), name))?)
            }
            InputFile::NewRequirements | InputFile::OldRequirements => {
                Ok(String::from_str(alloc, self.lines.unwrap_or(""))?)
            }
            InputFile::Pins(_) => Ok(String::new(alloc)),
            InputFile::Requirements | InputFile::Lock(_) | InputFile::Journal => {
                Ok(path_of(alloc, self.dir, file)?)
            }
        }
    }
}

/// The variable that an environment lacks or has wrong.
fn variable_in(cause: Cause) -> &'static str {
    match cause {
        Cause::BadEnvironment(Some(variable)) => variable.name(),
        _ => "",
    }
}

/// Whether a regular file stands at a path.
pub(crate) fn is_there<R: Files + AllocGlobal>(rt: &R, path: &str) -> bool {
    match fs::metadata(rt, path) {
        Ok(metadata) => metadata.is_file(),
        Err(_) => false,
    }
}

/// The bytes of a file that was read already; none where it can't be read again.
pub(crate) fn bytes_of<R: Files + AllocGlobal>(
    rt: &R,
    file: &InputFile,
    path: &str,
) -> Result<Vec<u8>, AllocError> {
    match read_file(rt, file, path) {
        Ok(bytes) => Ok(bytes),
        Err(error) if error.kind() == ErrorKind::OutOfMemory => Err(AllocError),
        Err(_) => Ok(Vec::new(rt.alloc())),
    }
}

/// The number of the first line that is no UTF-8.
fn odd_line(bytes: &[u8]) -> usize {
    let mut number: usize = 1;
    for line in bytes.split(|byte| *byte == b'\n') {
        if str::from_utf8(line).is_err() {
            return number;
        }
        number = number.saturating_add(1);
    }
    number
}
