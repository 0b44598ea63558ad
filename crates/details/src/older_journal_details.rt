// What is told where the journal isn't that of the locks: it is gone, or older than they are.

use crate::checkout_details::{checkout_of, progress_in_checkout};
use crate::details::{CallFiles, Details};
use crate::fault_details::{bytes_of, is_there};
use edits::TargetName;
use inputs::{InputFile, path_of};
use journal::Journal;
use lists::Seq;
use phrases::add_word;
use sha2::{Digest, Sha256};
use std::alloc::{AllocError, Global};
use std::rt::Files;
use std::str;

/// The locks of a folder, by the names of their targets, and whether they are those that the journal was saved with.
#[derive(Drop)]
pub(crate) struct FolderLocks {
    pub(crate) names: Vec<TargetName>,
    pub(crate) are_saved: bool,
}

/// The locks that the journal names. Without a journal that is the one without a name, where that is there.
pub(crate) fn locks_in<R: Files + AllocGlobal>(
    rt: &R,
    dir: &str,
) -> Result<FolderLocks, AllocError> {
    let alloc = rt.alloc();
    let file = InputFile::Journal;
    let path = path_of(alloc, dir, &file)?;
    let bytes = bytes_of(rt, &file, path.as_str())?;
    let header = first_line(alloc, bytes.as_slice())?;
    let journal = Journal::read(alloc, Seq::from_vec(bytes))?;
    let mut locks = FolderLocks {
        names: Vec::new(alloc),
        are_saved: true,
    };
    let Ok(names) = journal.targets(alloc) else {
        return lone_lock(rt, dir, locks);
    };
    for name in names.into_vec() {
        let digest = file_digest(rt, dir, &InputFile::Lock(name.clone()?))?;
        locks.are_saved = locks.are_saved && header.as_str().contains(digest.as_str());
        locks.names.push(name)?;
    }
    Ok(locks)
}

/// The lock without a name, where it is there.
fn lone_lock<R: Files + AllocGlobal>(
    rt: &R,
    dir: &str,
    mut locks: FolderLocks,
) -> Result<FolderLocks, AllocError> {
    let name = TargetName::empty(rt.alloc());
    let path = path_of(rt.alloc(), dir, &InputFile::Lock(name.clone()?))?;
    if is_there(rt, path.as_str()) {
        locks.names.push(name)?;
    }
    Ok(locks)
}

/// The digest of a file of the folder, in the digits in which a journal has it.
pub(crate) fn file_digest<R: Files + AllocGlobal>(
    rt: &R,
    dir: &str,
    file: &InputFile,
) -> Result<String, AllocError> {
    let path = path_of(rt.alloc(), dir, file)?;
    let bytes = bytes_of(rt, file, path.as_str())?;
    hex::encode(rt.alloc(), Sha256::digest(bytes.as_slice()))
}

/// The first line of a text; empty where it is no text.
pub(crate) fn first_line(alloc: Global, bytes: &[u8]) -> Result<String, AllocError> {
    let text = str::from_utf8(bytes).unwrap_or("");
    String::from_str(alloc, text.lines().next().unwrap_or(""))
}

impl Details {
    /// What to do where the journal is older than the files beside it.
    pub(crate) fn add_older_journal(
        &mut self,
        files: &CallFiles<'_>,
        locks: &FolderLocks,
    ) -> Result<(), AllocError> {
        self.known.push_str("Its last commit is told by:\n")?;
        self.add_git(files.dir)?;
        self.known
            .push_str(" log -1 --format=%h -- reqlock.journal\n")?;
        self.add_staging(files.dir)?;
        self.known.push_str("Where the newer journal is lost, ")?;
        self.add_beginning(files.dir, locks)
    }

    /// What to do where the files belong together and a hook sees others, which are staged.
    pub(crate) fn add_staging(&mut self, dir: &str) -> Result<(), AllocError> {
        self.known.push_str(
            "Where a hook says this of files that belong together, this stages them:\n",
        )?;
        self.add_git(dir)?;
        self.known
            .push_str(" add requirements.txt 'pylock*.toml' reqlock.journal\n")
    }

    /// Notes how a new history begins, which keeps what is locked.
    pub(crate) fn add_beginning(
        &mut self,
        dir: &str,
        locks: &FolderLocks,
    ) -> Result<(), AllocError> {
        self.known.push_str("`reqlock init")?;
        add_pins(&mut self.known.text, dir, locks)?;
        self.known.push_str("` begins a new history with requirements.txt as it stands")?;
        let kept = if locks.names.is_empty() {
            ".\n"
        } else {
            ", and keeps the locked versions.\n"
        };
        self.known.push_str(kept)
    }

    /// Notes of a journal that isn't there. Where a lock is, its versions are to stay.
    pub(crate) fn add_no_journal<R: Files + AllocGlobal>(
        &mut self,
        rt: &R,
        files: &CallFiles<'_>,
    ) -> Result<(), AllocError> {
        let checkout = checkout_of(rt, files.dir)?;
        if let Some(progress) = progress_in_checkout(checkout) {
            return self.add_progress(files, checkout, progress);
        }
        let locks = locks_in(rt, files.dir)?;
        if locks.names.is_empty() {
            self.known
                .push_str("`reqlock init` begins a history here\n")?;
            return self.add_first_command(files, &locks);
        }
        if checkout.is_some() {
            self.known
                .push_str("Where git has the journal, this brings it back:\n")?;
            self.add_git(files.dir)?;
            self.known
                .push_str(" checkout HEAD -- reqlock.journal\nElse ")?;
        }
        self.add_beginning(files.dir, &locks)?;
        self.add_first_command(files, &locks)
    }

    /// What a person types where there is no history.
    fn add_first_command(
        &mut self,
        files: &CallFiles<'_>,
        locks: &FolderLocks,
    ) -> Result<(), AllocError> {
        if !self.manner.is_person {
            return Ok(());
        }
        self.steps.begin_command()?;
        self.steps.push_str("reqlock")?;
        self.steps.push_str(self.options.as_str())?;
        if files.index.is_none() {
            self.steps.push_str(" --index index.json")?;
        }
        if files.targets.is_empty() {
            self.steps.push_str(" --env environment.json")?;
        }
        self.steps.push_str(" init")?;
        add_pins(&mut self.steps.text, files.dir, locks)?;
        self.steps.push_str("\n")
    }
}

/// The options that keep what is locked.
fn add_pins(text: &mut String, dir: &str, locks: &FolderLocks) -> Result<(), AllocError> {
    let alloc = *text.allocator();
    for name in locks.names.as_slice() {
        let file = name.lock_file();
        let path = if dir == "." {
            format!(in alloc; "{file}")?
        } else {
            format!(in alloc; "{dir}/{file}")?
        };
        let value = if name.is_empty() && !path.as_str().contains('=') {
            path
        } else {
            format!(in alloc; "{name}={path}")?
        };
        text.push_str(" --pins")?;
        add_word(text, value.as_str())?;
    }
    Ok(())
}
