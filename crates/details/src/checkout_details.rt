// What is known of the git checkout that a folder stands in: what is in progress there, and who locks there.

use crate::details::{CallFiles, Details};
use phrases::add_word;
use std::alloc::AllocError;
use std::fs;
use std::rt::Files;

/// How many folders are looked at, the nearest first.
const MOST_FOLDERS: usize = 100;

/// How many bytes a file has at most that leads to git's own folder.
const MOST_OF_LEAD: u64 = 1 << 12;

/// How many bytes a file of settings has at most that is looked through.
const MOST_OF_SETTINGS: u64 = 1 << 20;

/// What git keeps while something is in progress, and how a sentence of that begins.
const IN_PROGRESS: [(&str, &str); 5] = [
    ("MERGE_HEAD", "A merge"),
    ("rebase-merge", "A rebase"),
    ("rebase-apply", "A rebase"),
    ("CHERRY_PICK_HEAD", "A cherry-pick"),
    ("REVERT_HEAD", "A revert"),
];

/// The git checkout that a folder stands in.
#[derive(Clone, Copy, Debug, PartialEq, Eq)]
pub(crate) struct Checkout {
    /// How a sentence begins of what is in progress there, if something is.
    pub(crate) progress: Option<&'static str>,
    /// Whether the folder, or one above it up to the top of the checkout, has settings of rql.
    pub(crate) has_settings: bool,
}

/// How a sentence begins of what is in progress in a checkout, if something is.
pub(crate) fn progress_in_checkout(checkout: Option<Checkout>) -> Option<&'static str> {
    match checkout {
        Some(checkout) => checkout.progress,
        None => None,
    }
}

/// The checkout that a folder stands in; none where no `.git` stands there or above. What can't be read counts as absent.
pub(crate) fn checkout_of<R: Files + AllocGlobal>(
    rt: &R,
    dir: &str,
) -> Result<Option<Checkout>, AllocError> {
    let Ok(folder) = fs::canonicalize(rt, dir) else {
        return Ok(None);
    };
    let mut has_settings = false;
    let mut above = folder.to_string_lossy();
    for _ in 0..MOST_FOLDERS {
        has_settings = has_settings || are_settings(rt, above)?;
        if let Some(kept) = git_folder(rt, above)? {
            let progress = progress_in(rt, kept.as_str())?;
            return Ok(Some(Checkout {
                progress,
                has_settings,
            }));
        }
        let Some((front, _)) = above.rsplit_once('/') else {
            return Ok(None);
        };
        above = front;
    }
    Ok(None)
}

/// Whether a folder has settings of rql.
fn are_settings<R: Files + AllocGlobal>(rt: &R, folder: &str) -> Result<bool, AllocError> {
    let own = format!(in rt.alloc(); "{folder}/reqlock.toml")?;
    if fs::symlink_metadata(rt, own.as_str()).is_ok() {
        return Ok(true);
    }
    let project = format!(in rt.alloc(); "{folder}/pyproject.toml")?;
    match small_text(rt, project.as_str(), MOST_OF_SETTINGS) {
        Some(text) => Ok(text.contains("[tool.reqlock")),
        None => Ok(false),
    }
}

/// The folder in which git keeps what is its own of a checkout with this top; none where that is no top. A file in its
/// place leads there, as in a further checkout of the same repository.
fn git_folder<R: Files + AllocGlobal>(rt: &R, top: &str) -> Result<Option<String>, AllocError> {
    let path = format!(in rt.alloc(); "{top}/.git")?;
    let Ok(metadata) = fs::metadata(rt, path.as_str()) else {
        return Ok(None);
    };
    if metadata.is_dir() {
        return Ok(Some(path));
    }
    let Some(text) = small_text(rt, path.as_str(), MOST_OF_LEAD) else {
        return Ok(None);
    };
    let Some(lead) = text.as_str().strip_prefix("gitdir: ") else {
        return Ok(None);
    };
    let lead = lead.trim_end();
    if lead.starts_with('/') {
        return Ok(Some(String::from_str(rt.alloc(), lead)?));
    }
    Ok(Some(format!(in rt.alloc(); "{top}/{lead}")?))
}

/// What is in progress, by what git keeps in its folder.
fn progress_in<R: Files + AllocGlobal>(
    rt: &R,
    kept: &str,
) -> Result<Option<&'static str>, AllocError> {
    for (name, told) in IN_PROGRESS {
        let path = format!(in rt.alloc(); "{kept}/{name}")?;
        if fs::symlink_metadata(rt, path.as_str()).is_ok() {
            return Ok(Some(told));
        }
    }
    Ok(None)
}

/// The text of a small file; none where there is no such file, or it can't be read.
fn small_text<R: Files + AllocGlobal>(rt: &R, path: &str, most: u64) -> Option<String> {
    let metadata = fs::metadata(rt, path).ok()?;
    if !metadata.is_file() || metadata.len() > most {
        return None;
    }
    fs::read_to_string(rt, path).ok()
}

impl Details {
    /// What to do while git is in the middle of something, as a sentence of that begins.
    pub(crate) fn add_progress(
        &mut self,
        files: &CallFiles<'_>,
        checkout: Option<Checkout>,
        progress: &str,
    ) -> Result<(), AllocError> {
        write!(
            self.known,
            "{progress} is in progress. Put the lines that you want into requirements.txt; then this locks them, and keeps the pins of both sides:\n"
        )?;
        self.add_lock_call(files, checkout)
    }

    /// The command that locks what somebody else changed in a checkout.
    pub(crate) fn add_lock_call(
        &mut self,
        files: &CallFiles<'_>,
        checkout: Option<Checkout>,
    ) -> Result<(), AllocError> {
        if checkout.is_some_and(|checkout| checkout.has_settings) {
            self.known.begin_command()?;
            self.known.push_str("rql")?;
            if files.dir != "." {
                self.known.push_str(" -C")?;
                add_word(&mut self.known.text, files.dir)?;
            }
            return self.known.push_str(" lock\n");
        }
        self.known.begin_command()?;
        self.known.push_str("reqlock-merge")?;
        if files.dir != "." {
            self.known.push_str(" --dir")?;
            add_word(&mut self.known.text, files.dir)?;
        }
        self.known.push_str(" --index")?;
        add_word(&mut self.known.text, files.index.unwrap_or("index.json"))?;
        self.known.push_str("\n")
    }

    /// The beginning of a command of git in the folder.
    pub(crate) fn add_git(&mut self, dir: &str) -> Result<(), AllocError> {
        self.known.begin_command()?;
        self.known.push_str("git")?;
        if dir != "." {
            self.known.push_str(" -C")?;
            add_word(&mut self.known.text, dir)?;
        }
        Ok(())
    }
}
