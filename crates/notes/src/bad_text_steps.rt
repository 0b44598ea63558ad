// What a person may type next where a text of an edit doesn't read.

use crate::line_notes::add_line_note;
use crate::refusal_steps::read_line;
use edits::{Cause, Edit, Line, Name};
use lists::Text;
use phrases::{Notes, add_specifiers, add_word};
use std::alloc::{AllocError, Global};

/// Puts what is meant by the text behind another one, where that is known. The options are those of the call.
pub(crate) fn add_bad_text_steps(
    alloc: Global,
    notes: &mut Notes,
    options: &str,
    edit: &Edit,
) -> Result<(), AllocError> {
    match edit {
        Edit::Add(line) => add_bad_line_note(alloc, &mut notes.text, line.as_str()),
        Edit::Remove(name) => add_bare_name(alloc, notes, options, name.as_str()),
        Edit::Upgrade(names) => {
            for name in names.as_slice() {
                add_bound(alloc, notes, options, name.as_str())?;
            }
            Ok(())
        }
        Edit::Constrain(name, specifiers) if is_name(alloc, name)? => {
            add_comparison(alloc, notes, options, name.as_str(), specifiers.as_str())
        }
        Edit::Constrain(name, _) => add_bound(alloc, notes, options, name.as_str()),
        Edit::UpgradeAll | Edit::Relock | Edit::Replace(_, _) | Edit::Retarget(_, _) => Ok(()),
    }
}

/// Puts the name behind a text that is meant by a requirement, where a name is asked for, or a release.
pub fn add_named_step(alloc: Global, text: &mut String, given: &str) -> Result<(), AllocError> {
    let Some(line) = read_line(alloc, given)? else {
        return Ok(());
    };
    let Some(requirement) = line.requirement() else {
        return Ok(());
    };
    let name = requirement.name().normal();
    write!(
        text,
        "A name stands alone, or has == and a version behind it where one release is asked for: {name}\n"
    )
}

fn add_bad_line_note(alloc: Global, text: &mut String, line: &str) -> Result<(), AllocError> {
    match Line::read(alloc, line) {
        Ok(_) => Ok(()),
        Err(Cause::OutOfMemory) => Err(AllocError),
        Err(cause) => add_line_note(alloc, text, line, cause),
    }
}

fn is_name(alloc: Global, text: &Text) -> Result<bool, AllocError> {
    match Name::read(alloc, text.as_str()) {
        Ok(_) => Ok(true),
        Err(Cause::OutOfMemory) => Err(AllocError),
        Err(_) => Ok(false),
    }
}

/// The name of a requirement, where one was given in the place of a name.
fn add_bare_name(
    alloc: Global,
    notes: &mut Notes,
    options: &str,
    given: &str,
) -> Result<(), AllocError> {
    let Some(line) = read_line(alloc, given)? else {
        return Ok(());
    };
    let Some(requirement) = line.requirement() else {
        return Ok(());
    };
    let name = requirement.name().normal();
    notes.push_str("The name of the line is enough:\n")?;
    notes.begin_command()?;
    write!(notes, "reqlock{options} remove {name}\n")
}

/// How the versions of a requirement are put on its line, where one was given in the place of a name.
fn add_bound(
    alloc: Global,
    notes: &mut Notes,
    options: &str,
    given: &str,
) -> Result<(), AllocError> {
    let Some(line) = read_line(alloc, given)? else {
        return Ok(());
    };
    let Some(requirement) = line.requirement() else {
        return Ok(());
    };
    if requirement.specifiers().clauses().is_empty() {
        return Ok(());
    }
    let name = requirement.name().normal();
    notes.push_str("A name stands alone. This puts these versions on its line:\n")?;
    notes.begin_command()?;
    write!(notes, "reqlock{options} constrain {name}")?;
    let mut specifiers = String::new(alloc);
    add_specifiers(&mut specifiers, requirement)?;
    add_word(&mut notes.text, specifiers.as_str())?;
    notes.push_str("\n")
}

/// The comparison that specifiers lack or have wrong.
fn add_comparison(
    alloc: Global,
    notes: &mut Notes,
    options: &str,
    name: &str,
    specifiers: &str,
) -> Result<(), AllocError> {
    let line = format!(in alloc; "{name}=={specifiers}")?;
    let is_version = specifiers.trim_start().starts_with(is_digit);
    if !is_version || read_line(alloc, line.as_str())?.is_none() {
        let line = format!(in alloc; "{name}{specifiers}")?;
        return add_bad_line_note(alloc, &mut notes.text, line.as_str());
    }
    let comparison = format!(in alloc; "=={specifiers}")?;
    notes.push_str("A version alone compares nothing. This has the line take it alone:\n")?;
    notes.begin_command()?;
    write!(notes, "reqlock{options} constrain {name}")?;
    add_word(&mut notes.text, comparison.as_str())?;
    notes.push_str("\n")
}

fn is_digit(letter: char) -> bool {
    letter.is_ascii_digit()
}
