// What an edit, `undo` and `redo` do.

ghost use Rattle.std.specs.Io.KnownBytes.{Appends};
ghost use Rattle.std.specs.Prelude.{◌⊎◌, IfErr, IfOk, OnOk};
ghost use Rattle.calls.specs.AskedEdits.{MayGiveWay};
ghost use Rattle.files.specs.Places.{AllAre, AreInPlace, bytes_read};
ghost use Rattle.files.specs.Repair.{IsRepairOf};
ghost use Rattle.commands.specs.Replies.{is_accepted, text_of_reply};
ghost use Rattle.folder.specs.Calls.{IsSettled, Ran, Stays};
ghost use Rattle.journal.specs.Commands.{asked_of};
ghost use Rattle.saves.specs.Applied.{GoesOn, StopsAt};
ghost use Rattle.saves.specs.Called.{AtAnyMoment, Called, EditIsDone, IsFaultOfSaving, StepIsDone};
ghost use Rattle.saves.specs.Tied.Applying.{IsApplied, IsApplying};

use crate::saved_reply::save_and_print;
use crate::standing_lock::refuse_standing;
use calls::{Call, ReadEdit, asked_edit_to_save, difference_between, pool_of};
use command_line::request::{AskedEdit, EditOptions};
use commands::{ReplyText, apply_command, is_accepted};
use details::{Changed, Details, Place};
use files::saved_history::SavedHistory;
use files::standing_lock::target_names;
use files::{HistoryFolder, SavedFiles};
use inputs::HandedFiles;
use inputs::target_files::TargetPath;
use journal::{Command, Reply, Session};
use std::alloc::Global;
use std::io::Write;
use stops::{Stop, unless_refused};
use texts::diff_text::diff_text;

/// Makes one edit over an index. `targets` are those that take the place of the present ones, where it asks for some.
pub fn edit_once<R: AllocGlobal, F: HistoryFolder, G: HandedFiles, O: Write>(
    call: &mut Call<'_, R, O>,
    folder: &mut F,
    handed: &G,
    details: &mut Details,
    asked: AskedEdit<'_>,
    options: EditOptions<'_>,
    targets: Vec<TargetPath>,
) -> Result<(), Stop>
    // as after a restart
    requires { IsSettled F.held F.may_leave folder.old }
    ensures called { OnOk result (Called F.held F.may_leave F.moment F.left_since F.faults
        (IsRepairOf (MayGiveWay asked.entry (F.may_fail folder.old))) AreInPlace is_accepted
        (EditIsDone (G.handed handed.now) asked.entry options.entry.index.now targets.items
        options.entry.keeps_locked options.entry.only_if_needed)
        (λ reply. Appends (O.contents call.old.output) (O.contents call.new.output)
        (text_of_reply reply))
        folder.old folder.new) }
    ensures any_moment { AtAnyMoment F.held F.may_leave F.moment F.left_since F.faults
        (IsRepairOf (MayGiveWay asked.entry (F.may_fail folder.old))) AreInPlace is_accepted
        (EditIsDone (G.handed handed.now) asked.entry options.entry.index.now targets.items
        options.entry.keeps_locked options.entry.only_if_needed)
        folder.old folder.new }
    ensures nothing_saved { IfErr result (λ stop. IsFaultOfSaving stop
        ⊎ Ran F.held F.may_leave F.moment F.left_since F.faults
        (IsRepairOf (MayGiveWay asked.entry (F.may_fail folder.old)))
        (IsRepairOf (MayGiveWay asked.entry (F.may_fail folder.old))) folder.old folder.new) }
{
    let ReadEdit { history, edit } = asked_edit_to_save(
        &mut *folder,
        handed,
        asked,
        options,
        targets,
    )?;
    let SavedHistory {
        files,
        session,
        snapshot,
    } = history;
    let command = Command::Edit(edit, pool_of(&snapshot, options));
    apply(
        call,
        folder,
        details,
        &files,
        session,
        &command,
        options.only_if_needed,
    )
}

/// Does one command that needs no index.
pub fn step_once<R: AllocGlobal, F: HistoryFolder, O: Write>(
    call: &mut Call<'_, R, O>,
    folder: &mut F,
    details: &mut Details,
    command: &Command<'_>,
) -> Result<(), Stop>
    // as after a restart
    requires { IsSettled F.held F.may_leave folder.old }
    ensures called { OnOk result (Called F.held F.may_leave F.moment F.left_since F.faults
        (IsRepairOf (F.may_fail folder.old)) AreInPlace is_accepted
        (StepIsDone (asked_of command.now))
        (λ reply. Appends (O.contents call.old.output) (O.contents call.new.output)
        (text_of_reply reply))
        folder.old folder.new) }
    ensures any_moment { AtAnyMoment F.held F.may_leave F.moment F.left_since F.faults
        (IsRepairOf (F.may_fail folder.old)) AreInPlace is_accepted
        (StepIsDone (asked_of command.now))
        folder.old folder.new }
    ensures nothing_saved { IfErr result (λ stop. IsFaultOfSaving stop
        ⊎ Ran F.held F.may_leave F.moment F.left_since F.faults
        (IsRepairOf (F.may_fail folder.old)) (IsRepairOf (F.may_fail folder.old))
        folder.old folder.new) }
{
    let files = SavedFiles::read_to_save(&mut *folder)?;
    let (files, session) = files.open_to_save(&mut *folder)?;
    apply(call, folder, details, &files, session, command, false)
}

/// Does one command, saves where it was accepted, and prints the reply. What changed is worked out before anything is
/// saved, since memory may be wanting for it.
pub(crate) fn apply<R: AllocGlobal, F: HistoryFolder, O: Write>(
    call: &mut Call<'_, R, O>,
    folder: &mut F,
    details: &mut Details,
    files: &SavedFiles,
    mut session: Session,
    command: &Command<'_>,
    only_if_needed: bool,
) -> Result<(), Stop>
    requires { AllAre (F.held folder.old) (F.may_leave folder.old)
        (λ h. AreInPlace h (bytes_read files.now)) }
    ensures done { OnOk result (IsApplied F.held F.may_leave F.moment F.left_since F.faults
        only_if_needed (asked_of command.now) files.now session.past
        (Appends (O.contents call.old.output) (O.contents call.new.output))
        folder.old folder.new) }
    ensures any_moment { Ran F.held F.may_leave F.moment F.left_since F.faults
        (IsApplying only_if_needed (asked_of command.now) files.now session.past)
        (IsApplying only_if_needed (asked_of command.now) files.now session.past)
        folder.old folder.new }
    ensures nothing_saved { IfErr result (λ stop. IsFaultOfSaving stop
        ⊎ Stays F.held F.may_leave F.moment F.left_since F.faults folder.old folder.new) }
{
    let alloc = call.rt.alloc();
    let from = Place::of(&session);
    let before = target_names(alloc, &session)?;
    let mut text = ReplyText::new(alloc)?;
    let reply = applied(alloc, details, &mut session, command, only_if_needed)?;
    text.set(&reply);
    add_change(
        details,
        alloc,
        &session,
        changed_from(&reply, from, &session),
        command,
    )?;
    if is_accepted(&reply) {
        let takes_pins = takes_pins(command);
        refuse_standing(&*folder, details, before.as_slice(), &session, takes_pins)?;
    }
    save_and_print(
        &mut call.output,
        folder,
        files,
        &session,
        &reply,
        text.as_bytes(),
    )
}

/// Whether pins may be handed in to a command.
pub(crate) fn takes_pins(command: &Command<'_>) -> bool {
    matches!(command, Command::Edit(_, _))
}

/// From where on a command changed the history. Where nothing is to be saved, nothing changed.
pub(crate) fn changed_from(reply: &Reply, from: Place, session: &Session) -> Place {
    if is_accepted(reply) {
        from
    } else {
        Place::of(session)
    }
}

/// Does one command on a history, an edit only if it is needed where that is asked for. Where it is refused, what is
/// known is noted, and the call stops.
pub fn applied(
    alloc: Global,
    details: &mut Details,
    session: &mut Session,
    command: &Command<'_>,
    only_if_needed: bool,
) -> Result<Reply, Stop>
    ensures done { IfOk result
        (GoesOn only_if_needed session.old.past (asked_of command.now) session.new.past) }
    ensures stopped { IfErr result
        (StopsAt only_if_needed session.old.past (asked_of command.now) session.new.past) }
{
    let place = session.cursor();
    let reply = apply_command(alloc, session, command, only_if_needed);
    match &reply {
        Reply::Refused(refusal) => {
            details.add_refusal(alloc, session.state(), command, refusal)?;
        }
        Reply::Same if session.cursor() != place => details.add_index_alone()?,
        Reply::Same => details.add_same(command)?,
        Reply::Done(_) => {}
    }
    unless_refused(reply)
}

/// Notes what a command changed, before which the history stood in this place.
fn add_change(
    details: &mut Details,
    alloc: Global,
    session: &Session,
    from: Place,
    command: &Command<'_>,
) -> Result<(), Stop> {
    if !details.manner.tells_lacks {
        return Ok(());
    }
    let change = difference_between(alloc, session, from.cursor, session.cursor())?;
    if details.manner.tells {
        details.changes = diff_text(alloc, &change, details.manner.style)?;
    }
    let changed = Changed {
        from,
        change: &change,
        is_saved: true,
    };
    details.add_moved(alloc, session, command, changed)
}
