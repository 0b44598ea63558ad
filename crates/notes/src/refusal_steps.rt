// What a person may type next where an edit is refused.

use crate::bad_text_steps::add_bad_text_steps;
use crate::refusal_details::{RefusedEdit, environments_after};
use edits::{Cause, Edit, Environment, Line, Name, Refusal, Requirement, Snapshot};
use phrases::{Notes, add_specifiers, add_word};
use std::alloc::{AllocError, Global};

/// Puts what to do next behind the text. The options are those of the call, each with a space before it.
pub fn add_refusal_steps(
    alloc: Global,
    notes: &mut Notes,
    options: &str,
    refused: RefusedEdit<'_>,
) -> Result<(), AllocError> {
    match (refused.refusal, refused.edit) {
        (Refusal::BadText, edit) => add_bad_text_steps(alloc, notes, options, edit),
        (Refusal::AlreadyPresent(_), Edit::Add(line)) => {
            add_constraint(alloc, notes, options, line.as_str())
        }
        (Refusal::NotPresent, Edit::Remove(_) | Edit::Constrain(_, _)) => {
            add_need(alloc, notes, options, refused)
        }
        (Refusal::NotLocked(_), _) => {
            notes.push_str("What is locked is told by:\n")?;
            notes.begin_command()?;
            notes.push_str("reqlock show\n")
        }
        (Refusal::NoSolution, _) => add_lines_steps(alloc, &mut notes.text, refused),
        (Refusal::AlreadyPresent(_) | Refusal::NotPresent, _) => Ok(()),
        // of these there is nothing to type
        (
            Refusal::Ambiguous(_)
            | Refusal::NothingChanges
            | Refusal::OutOfMemory
            | Refusal::NothingToUndo
            | Refusal::NothingToRedo
            | Refusal::FilesDisagree(_)
            | Refusal::JournalBroken(_)
            | Refusal::BadCommand
            | Refusal::BadTarget
            | Refusal::DuplicateTarget(_)
            | Refusal::NoTarget,
            _,
        ) => Ok(()),
    }
}

/// The same of the line that the edit would change, and of the other lines.
fn add_lines_steps(
    alloc: Global,
    text: &mut String,
    refused: RefusedEdit<'_>,
) -> Result<(), AllocError> {
    let changed = changed_lines(alloc, refused)?;
    let environments = environments_after(alloc, refused.state, refused.edit)?;
    let environments = environments.as_slice();
    let (changed, lines) = (changed.as_slice(), refused.state.lines().lines());
    add_newest_releases(text, changed, environments, refused.snapshot)?;
    add_newest_releases(text, lines, environments, refused.snapshot)
}

/// Of each line that counts in one of the environments: the newest release, where the line admits none.
pub fn add_newest_releases(
    text: &mut String,
    lines: &[Line],
    environments: &[&Environment],
    snapshot: &Snapshot,
) -> Result<(), AllocError> {
    for line in lines {
        if let Some(requirement) = line.requirement() {
            if environments
                .iter()
                .any(|environment| requirement.is_active(environment))
            {
                add_newest(text, requirement, snapshot)?;
            }
        }
    }
    Ok(())
}

/// The newest release of a name, where a requirement admits none. One that isn't final counts where there is no other.
fn add_newest(
    text: &mut String,
    requirement: &Requirement,
    snapshot: &Snapshot,
) -> Result<(), AllocError> {
    let releases = snapshot.releases(requirement.name());
    if releases.iter().any(|release| requirement.specifiers().matches(release.version())) {
        return Ok(());
    }
    let last = releases
        .iter()
        .find(|release| !release.version().is_pre() && !release.yanked());
    let Some(newest) = last.or(releases.first()) else {
        return Ok(());
    };
    let (name, version) = (requirement.name().normal(), newest.version());
    write!(text, "The newest {name} of the snapshot is {version}.\n")
}

/// How the line that is there already comes to what is asked for. Extras are no part of what `constrain` changes.
fn add_constraint(
    alloc: Global,
    notes: &mut Notes,
    options: &str,
    line: &str,
) -> Result<(), AllocError> {
    let Some(wanted) = read_line(alloc, line)? else {
        return Ok(());
    };
    let Some(requirement) = wanted.requirement() else {
        return Ok(());
    };
    let name = requirement.name().normal();
    if !requirement.extras().is_empty() {
        notes.push_str("This puts the line in the place of that one:\n")?;
        notes.begin_command()?;
        write!(notes, "reqlock{options} replace --line {name}")?;
        add_word(&mut notes.text, line)?;
        return notes.push_str("\n");
    }
    if requirement.specifiers().clauses().is_empty() {
        notes.push_str("This takes newer releases of it:\n")?;
        notes.begin_command()?;
        return write!(notes, "reqlock{options} upgrade {name}\n");
    }
    notes.push_str("This puts these versions on that line:\n")?;
    notes.begin_command()?;
    write!(notes, "reqlock{options} constrain {name}")?;
    let mut specifiers = String::new(alloc);
    add_specifiers(&mut specifiers, requirement)?;
    add_word(&mut notes.text, specifiers.as_str())?;
    notes.push_str("\n")
}

pub(crate) fn read_line(alloc: Global, line: &str) -> Result<Option<Line>, AllocError> {
    match Line::read(alloc, line) {
        Ok(line) => Ok(Some(line)),
        Err(Cause::OutOfMemory) => Err(AllocError),
        Err(_) => Ok(None),
    }
}

/// Who needs a name that no line has, and how it gets a line.
fn add_need(
    alloc: Global,
    notes: &mut Notes,
    options: &str,
    refused: RefusedEdit<'_>,
) -> Result<(), AllocError> {
    let (Edit::Remove(name) | Edit::Constrain(name, _)) = refused.edit else {
        return Ok(());
    };
    let name = match Name::read(alloc, name.as_str()) {
        Ok(name) => name,
        Err(Cause::OutOfMemory) => return Err(AllocError),
        Err(_) => return Ok(()),
    };
    let normal = name.normal();
    let mut targets = refused.state.targets().iter();
    if !targets.any(|target| target.locked(&name).is_some()) {
        notes.push_str("Which names have lines is told by:\n")?;
        notes.begin_command()?;
        return notes.push_str("reqlock show --tree\n");
    }
    write!(notes, "{normal} is locked since other packages need it. ")?;
    let Edit::Constrain(_, specifiers) = refused.edit else {
        notes.push_str("Which ones is told by:\n")?;
        notes.begin_command()?;
        return write!(notes, "reqlock show {normal}\n");
    };
    notes.push_str("A line of its own bounds it:\n")?;
    notes.begin_command()?;
    write!(notes, "reqlock{options} add")?;
    let mut line = String::from_str(alloc, normal)?;
    line.push_str(specifiers.as_str())?;
    add_word(&mut notes.text, line.as_str())?;
    notes.push_str("\n")
}

/// The line that an edit adds or changes, as it would be.
fn changed_lines(alloc: Global, refused: RefusedEdit<'_>) -> Result<Vec<Line>, AllocError> {
    let mut lines = Vec::new(alloc);
    let found = match refused.edit {
        Edit::Add(line) => read_line(alloc, line.as_str())?,
        Edit::Constrain(name, specifiers) => {
            let (name, specifiers) = (name.as_str(), specifiers.as_str());
            let line = format!(in alloc; "{name}{specifiers}")?;
            read_line(alloc, line.as_str())?
        }
        Edit::Remove(_)
        | Edit::Upgrade(_)
        | Edit::UpgradeAll
        | Edit::Relock
        | Edit::Replace(_, _)
        | Edit::Retarget(_, _) => None,
    };
    if let Some(line) = found {
        lines.push(line)?;
    }
    Ok(lines)
}
