// The repair of a folder in which a save was stopped.

ghost use Rattle.std.specs.Prelude.{IfSome, OnErr, OnOk};
ghost use Rattle.folder.specs.Calls.{Follows, HasCause, IsDone, LeavesOnly, Ran};
ghost use Rattle.folder.specs.Held.{IsCleared, in_turn, removed, renamed};
ghost use Rattle.folder.specs.Repairs.{AreBeside, IsEnding, LeftParts, finished};
ghost use Rattle.folder.specs.Tied.Steps.{IsOnTheWay};
ghost use Rattle.folder.specs.declared.folder.WriteFault.TheVariants.{Unwritten};

use crate::folder::{Folder, WriteFault};
use lists::{Seq, Text};
use std::marker::Model;

/// What a stopped save has left to do.
#[derive(Drop)]
pub struct Left {
    /// The files that are to be removed.
    pub going: Seq<Text>,
    /// The files that are to be put from beside into their places then.
    pub names: Seq<Text>,
}

impl Model for Left {
    ghost Value = { LeftParts };

    ghost view = { λ l. record { going = l.going; names = l.names } };
}

/// Ends a save that was stopped: removes the files that are to go, and puts what stands beside the places of the others into
/// these.
pub fn end_save<F: Folder>(folder: &mut F, left: &Left) -> Result<(), WriteFault>
    requires { IfSome (F.held folder.old) (AreBeside left.now.names) }
    ensures done { OnOk result (Ran F.held F.may_leave F.moment F.left_since F.faults
        (IsDone (finished left.now)) (IsEnding left.now) folder.old folder.new) }
    ensures any { Ran F.held F.may_leave F.moment F.left_since F.faults
        (IsEnding left.now) (IsEnding left.now) folder.old folder.new }
    ensures cause { HasCause F.held F.faults folder.old folder.new result Unwritten }
{
    remove_names(folder, left.going.as_slice())?;
    rename_names(folder, left.names.as_slice())?;
    Ok(())
}

/// Removes what stands beside the places of names, of each where it can.
pub fn clear_names<F: Folder>(folder: &mut F, names: &[Text])
    ensures { Ran F.held F.may_leave F.moment F.left_since F.faults
        (IsCleared names.now) (IsCleared names.now) folder.old folder.new }
{
    for index in 0..names.len() {
        let name = &names[index];
        let _ = folder.remove_beside(name.as_str());
    }
}

/// Removes files from their places in turn.
fn remove_names<F: Folder>(folder: &mut F, going: &[Text]) -> Result<(), WriteFault>
    ensures done { OnOk result (Follows F.held F.may_leave
        (IsDone (in_turn removed going.now)) folder.old folder.new) }
    ensures fault { OnErr result (Follows F.held F.may_leave
        (IsOnTheWay removed going.now) folder.old folder.new) }
    ensures any_moment { LeavesOnly F.moment F.left_since F.may_leave
        (IsOnTheWay removed going.now) folder.old folder.new }
    ensures cause { HasCause F.held F.faults folder.old folder.new result Unwritten }
{
    for index in 0..going.len() {
        let name = &going[index];
        folder.remove(name.as_str())?;
    }
    Ok(())
}

/// Puts what stands beside the places of names into them in turn.
fn rename_names<F: Folder>(folder: &mut F, names: &[Text]) -> Result<(), WriteFault>
    requires { IfSome (F.held folder.old) (AreBeside names.now) }
    ensures done { OnOk result (Follows F.held F.may_leave
        (IsDone (in_turn renamed names.now)) folder.old folder.new) }
    ensures fault { OnErr result (Follows F.held F.may_leave
        (IsOnTheWay renamed names.now) folder.old folder.new) }
    ensures any_moment { LeavesOnly F.moment F.left_since F.may_leave
        (IsOnTheWay renamed names.now) folder.old folder.new }
    ensures cause { HasCause F.held F.faults folder.old folder.new result Unwritten }
{
    for index in 0..names.len() {
        let name = &names[index];
        folder.rename(name.as_str())?;
    }
    Ok(())
}
