// The files that a subcommand reads, and the lock on its folder.

ghost use Rattle.std.specs.Prelude.{◌≡◌, ◌≢◌, ◌⊎◌, [], IfErr, OnOk, true};
ghost use Rattle.calls.specs.SubcommandFiles.{StopsForNoFolder, environments_of, file_of, index_of, is_old, new_lines_of, reads_no_folder};

use command_line::request::{AskedEdit, NewLines, Question, Saving, Shown, Subcommand};
use inputs::{InputFault, InputFile, LockFile, Unread, lock_to_save};
use lists::Text;
use std::rt::Files;
use stops::Stop;

/// The index of a subcommand, where it is given one.
pub fn index_of<'a>(subcommand: &Subcommand<'a>) -> Option<&'a str>
    ensures { result ≡ index_of subcommand.now }
{
    match subcommand {
        Subcommand::Init(options, _)
        | Subcommand::Try(options)
        | Subcommand::Why(Question::Init(options, _), _) => Some(options.index),
        Subcommand::Edit(_, options, _)
        | Subcommand::Batch { options, .. }
        | Subcommand::Why(Question::Edit(_, options), _) => Some(options.index),
        Subcommand::Outdated(index, _)
        | Subcommand::Skipped(index)
        | Subcommand::Why(Question::Release(_, index), _) => Some(*index),
        Subcommand::Show(Shown::Entry(_, index), _) | Subcommand::Check(index, _) => *index,
        Subcommand::Export(export) => export.index,
        Subcommand::Undo(_)
        | Subcommand::Redo(_)
        | Subcommand::Forget(_, _)
        | Subcommand::Show(Shown::Table | Shown::Tree, _)
        | Subcommand::Log { .. }
        | Subcommand::Diff(_, _) => None,
    }
}

/// The requirements file that is handed to a subcommand: the new one, or the old one.
pub fn lines_of<'a>(subcommand: &Subcommand<'a>) -> Option<&'a str>
    ensures { result ≡ file_of (new_lines_of subcommand.now) }
{
    match new_lines_of(subcommand)? {
        NewLines::File(path) | NewLines::Was(path) => Some(path),
        NewLines::Line(_, _) => None,
    }
}

/// The text that is to name a package or a release, of a subcommand that tells of one.
pub fn named_in<'a>(subcommand: &Subcommand<'a>) -> Option<&'a str> {
    match subcommand {
        Subcommand::Show(Shown::Entry(name, _), _)
        | Subcommand::Why(Question::Release(name, _), _) => Some(*name),
        _ => None,
    }
}

/// Whether that is the old one.
pub fn has_old_lines(subcommand: &Subcommand<'_>) -> bool
    ensures { result ≡ is_old (new_lines_of subcommand.now) }
{
    match new_lines_of(subcommand) {
        Some(NewLines::Was(_)) => true,
        _ => false,
    }
}

/// Where the new lines of a replacement are.
fn new_lines_of<'a>(subcommand: &Subcommand<'a>) -> Option<NewLines<'a>>
    ensures { result ≡ new_lines_of subcommand.now }
{
    match subcommand {
        Subcommand::Edit(AskedEdit::Replace(replacement), _, _)
        | Subcommand::Why(Question::Edit(AskedEdit::Replace(replacement), _), _) => {
            Some(replacement.lines)
        }
        _ => None,
    }
}

/// The values of `--env` of a subcommand that locks new targets; none of any other.
pub fn environments_of<'a>(subcommand: &'a Subcommand<'_>) -> &'a [Text]
    ensures { result.now ≡ environments_of subcommand.now }
{
    match subcommand {
        Subcommand::Init(options, _)
        | Subcommand::Try(options)
        | Subcommand::Why(Question::Init(options, _), _) => options.environments.as_slice(),
        Subcommand::Edit(AskedEdit::Retarget(targets), _, _)
        | Subcommand::Why(Question::Edit(AskedEdit::Retarget(targets), _), _) => {
            targets.environments.as_slice()
        }
        Subcommand::Edit(AskedEdit::Typed(_) | AskedEdit::Replace(_), _, _)
        | Subcommand::Undo(_)
        | Subcommand::Redo(_)
        | Subcommand::Forget(_, _)
        | Subcommand::Batch { .. }
        | Subcommand::Show(_, _)
        | Subcommand::Log { .. }
        | Subcommand::Diff(_, _)
        | Subcommand::Check(_, _)
        | Subcommand::Outdated(_, _)
        | Subcommand::Export(_)
        | Subcommand::Skipped(_)
        | Subcommand::Why(
            Question::Edit(AskedEdit::Typed(_) | AskedEdit::Replace(_), _)
            | Question::Release(_, _),
            _,
        ) => &[],
    }
}

/// Refuses the empty name of a folder: no folder has it, so none of its files can be read, and a path made of it would lead
/// to the root folder. `skipped` reads no file of the folder.
pub fn refuse_no_folder(dir: &str, subcommand: &Subcommand<'_>) -> Result<(), Stop>
    ensures folder { OnOk result ((dir.now ≢ []) ⊎ (reads_no_folder subcommand.now ≡ true)) }
    ensures refused { IfErr result (StopsForNoFolder dir.now subcommand.now) }
{
    match subcommand {
        Subcommand::Skipped(_) => Ok(()),
        _ if dir.is_empty() => {
            let fault = InputFault::Unreadable(Unread::NoFolder);
            Err(Stop::Input(InputFile::Requirements, fault))
        }
        _ => Ok(()),
    }
}

/// The lock on the folder of a subcommand that saves. One that only reads locks it as it reads.
pub fn locked<R: Files + AllocGlobal>(
    rt: &R,
    dir: &str,
    subcommand: &Subcommand<'_>,
) -> Result<Option<R::File>, Stop>
where
    R::File: LockFile,
{
    match subcommand {
        Subcommand::Init(_, Saving::Save)
        | Subcommand::Edit(_, _, Saving::Save)
        | Subcommand::Undo(Saving::Save)
        | Subcommand::Redo(Saving::Save)
        | Subcommand::Forget(_, Saving::Save)
        | Subcommand::Batch { .. } => Ok(lock_to_save(rt, dir)?),
        Subcommand::Init(_, Saving::DryRun)
        | Subcommand::Edit(_, _, Saving::DryRun)
        | Subcommand::Undo(Saving::DryRun)
        | Subcommand::Redo(Saving::DryRun)
        | Subcommand::Forget(_, Saving::DryRun)
        | Subcommand::Try(_)
        | Subcommand::Show(_, _)
        | Subcommand::Log { .. }
        | Subcommand::Diff(_, _)
        | Subcommand::Check(_, _)
        | Subcommand::Outdated(_, _)
        | Subcommand::Export(_)
        | Subcommand::Skipped(_)
        | Subcommand::Why(_, _) => Ok(None),
    }
}
