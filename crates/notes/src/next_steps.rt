// What to type next where a file is missing or is another one: sentences, and commands.

use crate::file_form::FileForm;
use crate::near_variable::mistyped_key;
use phrases::{Notes, add_plain, add_word};
use std::alloc::{AllocError, Global};

/// The name that this repository's pages give an index.
pub const INDEX: &str = "index.json";

/// The name that they give an environment.
pub const ENVIRONMENT: &str = "environment.json";

/// What makes an index again that is there.
#[derive(Clone, Copy, Debug, PartialEq, Eq)]
pub enum IndexMaker {
    /// The call that makes a first one, as the index doesn't tell how it was made.
    First,
    /// The call that makes it as it was made, with more packages.
    Again,
    /// `rql`, whose folder stands there, and which takes in by itself what it is asked for.
    Project,
}

/// The files that an index is made for, and where it is to stand.
#[derive(Clone, Copy)]
pub struct IndexPlan<'a> {
    pub requirements: &'a str,
    /// The words of a call that name environments, each with a space before it.
    pub environments: &'a str,
    pub index: &'a str,
    /// Whether an index stands where these pages have it.
    pub is_there: bool,
    pub maker: IndexMaker,
}

impl IndexPlan<'_> {
    /// Puts the command that makes the index behind the text.
    pub fn add_command(self, notes: &mut Notes) -> Result<(), AllocError> {
        let none: &[String] = &[];
        self.add_first(notes, none)
    }

    /// Puts the command behind the text that makes the index with these packages too.
    pub fn add_remaking(self, notes: &mut Notes, packages: &[String]) -> Result<(), AllocError> {
        if self.maker != IndexMaker::Again {
            return self.add_first(notes, packages);
        }
        notes.begin_command()?;
        notes.push_str("reqlock-snapshot again")?;
        add_words(&mut notes.text, packages)?;
        self.add_output(notes)
    }

    fn add_first(self, notes: &mut Notes, packages: &[String]) -> Result<(), AllocError> {
        notes.begin_command()?;
        notes.push_str("reqlock-snapshot simple")?;
        add_word(&mut notes.text, address_of(self.index))?;
        add_words(&mut notes.text, packages)?;
        notes.push_str(" --for")?;
        add_word(&mut notes.text, self.requirements)?;
        notes.push_str(self.environments)?;
        self.add_output(notes)
    }

    fn add_output(self, notes: &mut Notes) -> Result<(), AllocError> {
        notes.push_str(" --output")?;
        add_word(&mut notes.text, output_of(self.index))?;
        notes.push_str("\n")
    }

    /// Where a file was given that is no index: the one that is there, or how one is made, not in the place of that file.
    fn add_other(self, notes: &mut Notes) -> Result<(), AllocError> {
        if self.is_there && self.index != INDEX {
            return notes.push_str("index.json is here: give that.\n");
        }
        notes.push_str("This makes one:\n")?;
        let index = INDEX;
        IndexPlan { index, ..self }.add_command(notes)
    }
}

/// Puts words behind a command.
pub(crate) fn add_words(text: &mut String, words: &[String]) -> Result<(), AllocError> {
    for word in words {
        add_word(text, word.as_str())?;
    }
    Ok(())
}

/// Where an index is written. What the shell hands over can't be written to, nor can an address.
fn output_of(index: &str) -> &str {
    let is_handed_over = index.starts_with("/dev/") || index.starts_with("/proc/");
    if index.is_empty() || is_handed_over || is_address(index) {
        return INDEX;
    }
    index
}

/// The address of the index that is asked: what was given in the place of a file, or a name for pip's. A password isn't told.
fn address_of(index: &str) -> &str {
    if is_address(index) && !index.contains('@') {
        return index;
    }
    "https://index.example/simple/"
}

/// Whether an address was given in the place of a file.
pub fn is_address(index: &str) -> bool {
    index.contains("://")
}

/// Puts the command that makes an environment behind the text.
pub fn add_environment_command(
    alloc: Global,
    notes: &mut Notes,
    path: &str,
) -> Result<(), AllocError> {
    notes.begin_command()?;
    notes.push_str("reqlock-environment >")?;
    let mut word = String::new(alloc);
    add_word(&mut word, path)?;
    notes.push_str(word.as_str().trim_start())?;
    notes.push_str("\n")
}

/// Puts what the file looks like behind the text that was given as an index, and what to do.
pub fn add_index_note(
    notes: &mut Notes,
    plan: IndexPlan<'_>,
    form: FileForm,
) -> Result<(), AllocError> {
    add_plain(&mut notes.text, plan.index)?;
    if let FileForm::Conflict(line) = form {
        return write!(
            notes,
            ": git left a conflict at line {line}: make the snapshot again, or take one side's\n"
        );
    }
    notes.push_str(index_look(form))?;
    match form {
        FileForm::Empty | FileForm::Marked | FileForm::Snapshot => plan.add_command(notes),
        _ => plan.add_other(notes),
    }
}

/// What a file looks like that is no snapshot that reads.
fn index_look(form: FileForm) -> &'static str {
    match form {
        FileForm::Environment => {
            " looks like an environment: --env takes it, and --index a snapshot of an index. "
        }
        FileForm::Lock => " looks like a lock: --index takes the snapshot that it was made of. ",
        FileForm::Page => {
            " looks like a page of an index: reqlock-snapshot makes a snapshot of such pages. "
        }
        FileForm::Empty => " is empty. This makes it again:\n",
        FileForm::Marked => {
            " begins with a byte-order mark: save it as UTF-8 without one, or make it again:\n"
        }
        FileForm::Snapshot => {
            " isn't as this reqlock reads a snapshot: the reqlock-snapshot beside it makes one:\n"
        }
        FileForm::Other | FileForm::Conflict(_) => " is no snapshot of an index. ",
    }
}

/// A file that was given as an environment.
#[derive(Clone, Copy)]
pub struct BadEnvironment<'a> {
    pub path: &'a str,
    pub text: &'a str,
    pub form: FileForm,
    /// The variable that it lacks or has wrong, if it is an object.
    pub variable: &'a str,
    /// Whether an environment stands where these pages have it.
    pub is_there: bool,
}

/// Puts what the file looks like behind the text that was given as an environment, and what to do.
pub fn add_environment_note(
    alloc: Global,
    notes: &mut Notes,
    file: BadEnvironment<'_>,
) -> Result<(), AllocError> {
    add_plain(&mut notes.text, file.path)?;
    match file.form {
        FileForm::Conflict(line) => {
            write!(
                notes,
                ": git left a conflict at line {line}. This makes it again:\n"
            )?;
        }
        FileForm::Snapshot => {
            notes.push_str(" looks like a snapshot of an index: --index takes it. ")?;
            return add_other_environment(alloc, notes, file);
        }
        FileForm::Lock => {
            notes.push_str(" looks like a lock. ")?;
            return add_other_environment(alloc, notes, file);
        }
        FileForm::Marked => notes.push_str(
            " begins with a byte-order mark: save it as UTF-8 without one, or make it again:\n",
        )?,
        FileForm::Empty => notes.push_str(" is empty. This makes it again:\n")?,
        FileForm::Environment if !file.variable.is_empty() => {
            add_variable_note(alloc, &mut notes.text, file.text, file.variable)?;
        }
        _ => {
            notes.push_str(" is no environment. ")?;
            return add_other_environment(alloc, notes, file);
        }
    }
    add_environment_command(alloc, notes, file.path)
}

/// Where a file was given that is no environment: the one that is there, or how one is made, not in the place of that file.
fn add_other_environment(
    alloc: Global,
    notes: &mut Notes,
    file: BadEnvironment<'_>,
) -> Result<(), AllocError> {
    if file.is_there && file.path != ENVIRONMENT {
        return notes.push_str("environment.json is here: give that.\n");
    }
    notes.push_str("This makes one, of the Python that runs it:\n")?;
    add_environment_command(alloc, notes, ENVIRONMENT)
}

fn add_variable_note(
    alloc: Global,
    text: &mut String,
    file: &str,
    variable: &str,
) -> Result<(), AllocError> {
    if let Some(key) = mistyped_key(alloc, file, variable)? {
        text.push_str(" has ")?;
        add_plain(text, key)?;
        return write!(
            text,
            " in the place of {variable}: write that, or make it again:\n"
        );
    }
    if file.contains(variable) {
        return write!(
            text,
            ": the value of {variable} isn't such a text. This makes it again:\n"
        );
    }
    write!(
        text,
        " lacks {variable}. This makes it again, with all eleven variables:\n"
    )
}
