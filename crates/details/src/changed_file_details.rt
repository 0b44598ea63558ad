// What is told of a file of the folder that somebody else has changed: why it is refused, and what to type next.

use crate::checkout_details::{Checkout, checkout_of, progress_in_checkout};
use crate::details::{CallFiles, Details};
use crate::older_journal_details::{FolderLocks, locks_in};
use inputs::InputFile;
use notes::conflict_line;
use std::alloc::AllocError;
use std::rt::Files;
use std::str;

/// The rest of the command of git that brings all files of a history back.
pub(crate) const CHECKOUT: &str =
    " checkout HEAD -- requirements.txt 'pylock*.toml' reqlock.journal\n";

/// What git has left unfinished.
#[derive(Clone, Copy)]
enum Unfinished {
    /// A conflict, at a line of the file.
    Conflict(usize),
    /// What is in progress in the checkout, as a sentence of it begins.
    Progress(&'static str),
}

/// What git has left unfinished in a file of these bytes, or in its checkout.
fn unfinished_in(bytes: &[u8], checkout: Option<Checkout>) -> Option<Unfinished> {
    match conflict_line(str::from_utf8(bytes).unwrap_or("")) {
        Some(line) => Some(Unfinished::Conflict(line)),
        None => match progress_in_checkout(checkout) {
            Some(progress) => Some(Unfinished::Progress(progress)),
            None => None,
        },
    }
}

impl Details {
    /// Notes of a file of the folder that isn't the one which was saved.
    pub(crate) fn add_disagreement<R: Files + AllocGlobal>(
        &mut self,
        rt: &R,
        files: &CallFiles<'_>,
        file: &InputFile,
        bytes: &[u8],
    ) -> Result<(), AllocError> {
        let checkout = checkout_of(rt, files.dir)?;
        if let Some(unfinished) = unfinished_in(bytes, checkout) {
            return self.add_unfinished(files, checkout, file, unfinished);
        }
        self.add_stopped_save(rt, files.dir, file)?;
        let locks = locks_in(rt, files.dir)?;
        match file {
            InputFile::Requirements if files.is_old => self.add_seeking(files, checkout, &locks),
            InputFile::Requirements if !locks.are_saved => self.add_others(files, checkout, &locks),
            InputFile::Requirements => self.add_taking_over(files, checkout, &locks),
            _ => self.add_other_lock(files, checkout, file, &locks),
        }
    }

    /// How a requirements file is taken over that was changed by hand.
    fn add_taking_over(
        &mut self,
        files: &CallFiles<'_>,
        checkout: Option<Checkout>,
        locks: &FolderLocks,
    ) -> Result<(), AllocError> {
        self.known
            .push_str("requirements.txt was changed since reqlock saved it. ")?;
        if checkout.is_some() {
            self.known.push_str("This finds the saved one in git, and takes the change over:\n")?;
            self.add_lock_call(files, checkout)?;
            self.add_staging(files.dir)?;
        } else {
            self.known.push_str("With a copy of the saved one this takes the change over:\n")?;
            self.known.begin_command()?;
            self.known.push_str("reqlock")?;
            self.known.push_str(self.options.as_str())?;
            if files.index.is_none() {
                self.known.push_str(" --index index.json")?;
            }
            self.known.push_str(" replace --was COPY\n")?;
        }
        self.add_beginning(files.dir, locks)
    }

    /// How the requirements file is found that was saved, where another one is handed in as it.
    fn add_seeking(
        &mut self,
        files: &CallFiles<'_>,
        checkout: Option<Checkout>,
        locks: &FolderLocks,
    ) -> Result<(), AllocError> {
        self.known.push_str("The file of --was isn't requirements.txt as reqlock saved it. ")?;
        if checkout.is_some() {
            self.known
                .push_str("This looks for that one in the last commits:\n")?;
            return self.add_lock_call(files, checkout);
        }
        self.add_beginning(files.dir, locks)
    }

    /// What is so where neither the requirements file nor the locks are those that the journal was saved with.
    fn add_others(
        &mut self,
        files: &CallFiles<'_>,
        checkout: Option<Checkout>,
        locks: &FolderLocks,
    ) -> Result<(), AllocError> {
        self.known.push_str(
            "Neither requirements.txt nor the lock is the one that reqlock.journal was saved with. ",
        )?;
        if checkout.is_none() {
            return self.add_beginning(files.dir, locks);
        }
        self.known.push_str(
            "The journal is older where it wasn't committed or staged with them. ",
        )?;
        self.add_older_journal(files, locks)
    }

    /// What to do with a lock that isn't the one that the journal was saved with.
    fn add_other_lock(
        &mut self,
        files: &CallFiles<'_>,
        checkout: Option<Checkout>,
        file: &InputFile,
        locks: &FolderLocks,
    ) -> Result<(), AllocError> {
        write!(
            self.known,
            "{file} isn't the one that reqlock.journal was saved with. "
        )?;
        if checkout.is_none() {
            return self.add_beginning(files.dir, locks);
        }
        self.known
            .push_str("Where it was changed here, this brings it back:\n")?;
        self.add_git(files.dir)?;
        write!(self.known, " checkout HEAD -- {file}\n")?;
        self.known.push_str(
            "Where that isn't enough, the journal isn't of the same commit: it is older where it wasn't committed or staged with the lock. ",
        )?;
        self.add_older_journal(files, locks)
    }

    /// Notes of a lock that isn't there.
    pub(crate) fn add_no_lock<R: Files + AllocGlobal>(
        &mut self,
        rt: &R,
        files: &CallFiles<'_>,
        file: &InputFile,
    ) -> Result<(), AllocError> {
        let checkout = checkout_of(rt, files.dir)?;
        if let Some(progress) = progress_in_checkout(checkout) {
            return self.add_progress(files, checkout, progress);
        }
        self.add_stopped_save(rt, files.dir, file)?;
        self.known
            .push_str("Where git has the lock, this brings it back:\n")?;
        self.add_git(files.dir)?;
        write!(self.known, " checkout HEAD -- {file}\n")?;
        self.known.push_str(
            "`reqlock init` begins a new history with requirements.txt as it stands.\n",
        )
    }

    /// Notes of a journal that doesn't read.
    pub(crate) fn add_broken_journal<R: Files + AllocGlobal>(
        &mut self,
        rt: &R,
        files: &CallFiles<'_>,
        bytes: &[u8],
    ) -> Result<(), AllocError> {
        let checkout = checkout_of(rt, files.dir)?;
        if let Some(unfinished) = unfinished_in(bytes, checkout) {
            return self.add_unfinished(files, checkout, &InputFile::Journal, unfinished);
        }
        self.known.push_str(
            "The journal isn't as it was saved. Where git has the files, this brings them back as they were:\n",
        )?;
        self.add_git(files.dir)?;
        self.known.push_str(CHECKOUT)?;
        self.add_beginning(files.dir, &locks_in(rt, files.dir)?)
    }

    /// What to do where git has left something unfinished.
    fn add_unfinished(
        &mut self,
        files: &CallFiles<'_>,
        checkout: Option<Checkout>,
        file: &InputFile,
        unfinished: Unfinished,
    ) -> Result<(), AllocError> {
        match unfinished {
            Unfinished::Conflict(line) => {
                write!(
                    self.known,
                    "git left a conflict at line {line} of {file}. While the merge is in progress, put the lines that you want into requirements.txt, without git's marks; then this merges the pins:\n"
                )?;
                self.add_lock_call(files, checkout)
            }
            Unfinished::Progress(progress) => self.add_progress(files, checkout, progress),
        }
    }
}
