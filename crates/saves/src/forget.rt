// What `forget` does, and what it would do.

ghost use Rattle.std.specs.Io.KnownBytes.{Appends};
ghost use Rattle.std.specs.Prelude.{◌≡◌, ◌⊎◌, IfErr, IfOk, OnOk};
ghost use Rattle.files.specs.Repair.{IsRepairOf};
ghost use Rattle.commands.specs.Replies.{is_accepted, text_of_reply};
ghost use Rattle.files.specs.Places.{AreInPlace};
ghost use Rattle.folder.specs.Calls.{IsSettled, Ran};
ghost use Rattle.saves.specs.Called.{AtAnyMoment, Called, ForgetIsDone, IsFaultOfSaving};
ghost use Rattle.saves.specs.Forgets.{IsShortened, StopsShortening, forgotten_count};

use crate::saved_reply::save_and_print;
use calls::Call;
use command_line::request::Beginning;
use commands::ReplyText;
use details::Details;
use files::saved_history::saved_session;
use files::{HistoryFolder, SavedFiles, StillFolder};
use journal::{Reply, Session};
use reports::print;
use std::io::Write;
use stops::Stop;

/// Has the history begin with a later state, saves it where that takes steps away, and prints the reply.
pub fn forget_once<R: AllocGlobal, F: HistoryFolder, O: Write>(
    call: &mut Call<'_, R, O>,
    folder: &mut F,
    details: &mut Details,
    beginning: Beginning,
) -> Result<(), Stop>
    // as after a restart
    requires { IsSettled F.held F.may_leave folder.old }
    ensures called { OnOk result (Called F.held F.may_leave F.moment F.left_since F.faults
        (IsRepairOf (F.may_fail folder.old)) AreInPlace is_accepted
        (ForgetIsDone beginning)
        (λ reply. Appends (O.contents call.old.output) (O.contents call.new.output)
        (text_of_reply reply))
        folder.old folder.new) }
    ensures any_moment { AtAnyMoment F.held F.may_leave F.moment F.left_since F.faults
        (IsRepairOf (F.may_fail folder.old)) AreInPlace is_accepted
        (ForgetIsDone beginning)
        folder.old folder.new }
    ensures nothing_saved { IfErr result (λ stop. IsFaultOfSaving stop
        ⊎ Ran F.held F.may_leave F.moment F.left_since F.faults
        (IsRepairOf (F.may_fail folder.old)) (IsRepairOf (F.may_fail folder.old))
        folder.old folder.new) }
{
    let files = SavedFiles::read_to_save(&mut *folder)?;
    let (files, mut session) = files.open_to_save(&mut *folder)?;
    let mut text = ReplyText::new(call.rt.alloc())?;
    let reply = noted(details, call.dir, &mut session, beginning, true)?;
    text.set(&reply);
    save_and_print(
        &mut call.output,
        folder,
        &files,
        &session,
        &reply,
        text.as_bytes(),
    )
}

/// Prints the reply. Nothing is saved, and a save that was stopped isn't ended: its files are read as they stand.
pub fn rehearse_forget<R: AllocGlobal, F: StillFolder, O: Write>(
    call: &mut Call<'_, R, O>,
    folder: &F,
    details: &mut Details,
    beginning: Beginning,
) -> Result<(), Stop> {
    let mut session = saved_session(folder)?;
    let mut text = ReplyText::new(call.rt.alloc())?;
    let reply = noted(details, call.dir, &mut session, beginning, false)?;
    text.set(&reply);
    Ok(print(&mut call.output, text.as_bytes())?)
}

/// Has a history begin with a later state, and notes how many steps go, before anything is saved.
fn noted(
    details: &mut Details,
    dir: &str,
    session: &mut Session,
    beginning: Beginning,
    is_saved: bool,
) -> Result<Reply, Stop>
    ensures { IfOk result (IsShortened beginning session.old session.new) }
{
    let steps = session.steps();
    let reply = shorten(session, beginning)?;
    let gone = steps.saturating_sub(session.steps());
    details.add_forgotten_steps(dir, gone, is_saved)?;
    Ok(reply)
}

/// Has a history begin with a later state. Where it doesn't stand so far, the call stops.
pub fn shorten(session: &mut Session, beginning: Beginning) -> Result<Reply, Stop>
    ensures shortened { IfOk result (IsShortened beginning session.old session.new) }
    ensures refused { IfErr result (StopsShortening beginning session.old session.new) }
{
    let cursor = session.cursor();
    match forgotten_count(beginning, cursor) {
        None => Err(Stop::NoBeginning(beginning, cursor)),
        Some(count) if count == 0 => Ok(Reply::Same),
        Some(count) => {
            session.forget(count);
            Ok(Reply::Done(session.cursor()))
        }
    }
}

/// How many states stand before that with which a history is to begin; none where it stands in a place that isn't so far.
fn forgotten_count(beginning: Beginning, cursor: usize) -> Option<usize>
    ensures { result ≡ forgotten_count beginning cursor }
{
    match beginning {
        Beginning::At(place) if place <= cursor => Some(place),
        Beginning::Back(count) if count <= cursor => Some(cursor - count),
        Beginning::At(_) | Beginning::Back(_) => None,
    }
}
