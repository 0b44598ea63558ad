// A save: all files are written beside their places, and only when all of them stand are others removed, and they put into their places.

ghost use Rattle.std.specs.Prelude.{◌≤◌, IfSome, OnErr, OnOk, true};
ghost use Rattle.folder.specs.Calls.{Follows, HasCause, IsDone, LeavesOnly};
ghost use Rattle.folder.specs.Held.{IsSameBut, in_turn, removed};
ghost use Rattle.folder.specs.Saves.{AreApart, IsUnderWay, names_of, saved};
ghost use Rattle.folder.specs.Tied.Steps.{AreStaged, IsOnTheWayOrBeside, rename_file, stage_file};
ghost use Rattle.folder.specs.declared.folder.WriteFault.TheVariants.{Unwritten};

use crate::folder::{Folder, WriteFault};
use lists::Text;
use std::marker::Model;

/// A file that is to be written, and the bytes that it is to hold.
pub struct NewFile<'a> {
    pub name: &'a str,
    pub bytes: &'a [u8],
}

impl<'a> Drop for NewFile<'a> {
    fn drop(self) {
        let NewFile { name: _, bytes: _ } = self;
    }
}

impl<'a> Model for NewFile<'a> {
    ghost use Rattle.folder.specs.Saves.{NewFileParts};

    ghost Value = { NewFileParts };

    ghost view = { λ f. record { name = f.name.now; bytes = f.bytes.now } };
}

/// Saves files in the place of those that a folder holds, and removes others. All is written beside the places first; then the
/// files that go are removed in turn, and those that were written are put into their places in turn. Where one can't be written,
/// or the first change can't be made, what was written is removed again. Where another change can't be made, what isn't in its
/// place stays beside it.
pub fn save<F: Folder>(
    folder: &mut F,
    files: &[NewFile<'_>],
    going: &[Text],
) -> Result<(), WriteFault>
    requires { AreApart files.now }
    ensures saved { OnOk result (Follows F.held F.may_leave
        (IsDone (saved files.now going.now)) folder.old folder.new) }
    ensures fault { OnErr result (Follows F.held F.may_leave
        (IsUnderWay files.now going.now) folder.old folder.new) }
    ensures any_moment { LeavesOnly F.moment F.left_since F.may_leave
        (IsUnderWay files.now going.now) folder.old folder.new }
    ensures cause { HasCause F.held F.faults folder.old folder.new result Unwritten }
{
    stage_all(folder, files)?;
    remove_all(folder, files, going)?;
    rename_all(folder, files, going.is_empty())?;
    Ok(())
}

/// Writes files beside their places. Where one can't be written, those before it are removed again.
fn stage_all<F: Folder>(folder: &mut F, files: &[NewFile<'_>]) -> Result<(), WriteFault>
    ensures done { OnOk result (Follows F.held F.may_leave
        (IsDone (in_turn stage_file files.now)) folder.old folder.new) }
    ensures fault { OnErr result (Follows F.held F.may_leave
        (IsSameBut (names_of files.now)) folder.old folder.new) }
    ensures any_moment { LeavesOnly F.moment F.left_since F.may_leave
        (IsSameBut (names_of files.now)) folder.old folder.new }
    ensures cause { HasCause F.held F.faults folder.old folder.new result Unwritten }
{
    for index in 0..files.len() {
        let file = &files[index];
        if let Err(fault) = folder.stage(file.name, file.bytes) {
            clear_beside(folder, files);
            return Err(fault);
        }
    }
    Ok(())
}

/// Removes files from their places in turn. Where the first one can't be removed, what stands beside the places of these files
/// is removed.
fn remove_all<F: Folder>(
    folder: &mut F,
    files: &[NewFile<'_>],
    going: &[Text],
) -> Result<(), WriteFault>
    ensures done { OnOk result (Follows F.held F.may_leave
        (IsDone (in_turn removed going.now)) folder.old folder.new) }
    ensures fault { OnErr result (Follows F.held F.may_leave
        (IsOnTheWayOrBeside files.now true removed going.now) folder.old folder.new) }
    ensures any_moment { LeavesOnly F.moment F.left_since F.may_leave
        (IsOnTheWayOrBeside files.now true removed going.now) folder.old folder.new }
    ensures cause { HasCause F.held F.faults folder.old folder.new result Unwritten }
{
    for index in 0..going.len() {
        let name = &going[index];
        if let Err(fault) = folder.remove(name.as_str()) {
            if index == 0 {
                clear_beside(folder, files);
            }
            return Err(fault);
        }
    }
    Ok(())
}

/// Puts what stands beside the places of files into them in turn. Where the first one can't be, and nothing was changed before,
/// all of it is removed.
fn rename_all<F: Folder>(
    folder: &mut F,
    files: &[NewFile<'_>],
    is_untouched: bool,
) -> Result<(), WriteFault>
    requires { IfSome (F.held folder.old) (AreStaged files.now) }
    ensures done { OnOk result (Follows F.held F.may_leave
        (IsDone (in_turn rename_file files.now)) folder.old folder.new) }
    ensures fault { OnErr result (Follows F.held F.may_leave
        (IsOnTheWayOrBeside files.now is_untouched rename_file files.now) folder.old folder.new) }
    ensures any_moment { LeavesOnly F.moment F.left_since F.may_leave
        (IsOnTheWayOrBeside files.now is_untouched rename_file files.now) folder.old folder.new }
    ensures cause { HasCause F.held F.faults folder.old folder.new result Unwritten }
{
    for index in 0..files.len() {
        let file = &files[index];
        if let Err(fault) = folder.rename(file.name) {
            if index == 0 && is_untouched {
                clear_beside(folder, files);
            }
            return Err(fault);
        }
    }
    Ok(())
}

/// Removes what stands beside the places of files, of each where it can.
fn clear_beside<F: Folder>(folder: &mut F, files: &[NewFile<'_>])
    ensures beside { Follows F.held F.may_leave (IsSameBut (names_of files.now))
        folder.old folder.new }
    ensures any_moment { LeavesOnly F.moment F.left_since F.may_leave
        (IsSameBut (names_of files.now)) folder.old folder.new }
    ensures faults { F.faults folder.old ≤ F.faults folder.new }
{
    for index in 0..files.len() {
        let file = &files[index];
        let _ = folder.remove_beside(file.name);
    }
}
