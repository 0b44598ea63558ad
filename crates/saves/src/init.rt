// What `init` does, and what it would do.

ghost use Rattle.std.specs.Io.KnownBytes.{Appends};
ghost use Rattle.std.specs.Prelude.{◌⊎◌, IfErr, IfOk, IfSome, OnOk};
ghost use Rattle.files.specs.Places.{AreKnown, bytes_read};
ghost use Rattle.commands.specs.Replies.{is_accepted, text_of_reply};
ghost use Rattle.folder.specs.Calls.{IsSettled, Ran};
ghost use Rattle.folder.specs.Repairs.{IsMoveOf};
ghost use Rattle.journal.specs.declared.commands.Reply.TheVariants.{Done};
ghost use Rattle.saves.specs.Called.{AtAnyMoment, Called, InitIsDone, IsFaultOfSaving};

use calls::Call;
use commands::ReplyText;
use details::Details;
use files::first_inputs::{FirstInputs, FirstPaths, first_inputs};
use files::saved_history::SavedHistory;
use files::{HistoryFolder, SavedFiles, end_left, link_out, remove_left};
use inputs::{Fault, HandedFiles, LinkOut};
use journal::{Reply, Session};
use reports::print;
use resolve::RESOLVER;
use std::alloc::AllocError;
use std::io::Write;
use stops::Stop;
use texts::diff_text::first_lock_text;

/// Locks the requirements file, keeping the pins that are handed in, and saves the history that begins with it. A save that was stopped is
/// ended before, so that its history stays where this one can't be saved. A link is followed only to a file of
/// reqlock's.
pub fn begin_history<R: AllocGlobal, F: HistoryFolder, G: HandedFiles, O: Write>(
    call: &mut Call<'_, R, O>,
    folder: &mut F,
    handed: &G,
    details: &mut Details,
    paths: FirstPaths<'_>,
) -> Result<(), Stop>
    // as after a restart
    requires { IsSettled F.held F.may_leave folder.old }
    ensures called { OnOk result (Called F.held F.may_leave F.moment F.left_since F.faults
        IsMoveOf AreKnown is_accepted
        (InitIsDone (G.handed handed.now) paths.entry.index.now paths.entry.targets.items
        paths.entry.pins.items)
        (λ reply. Appends (O.contents call.old.output) (O.contents call.new.output)
        (text_of_reply reply))
        folder.old folder.new) }
    ensures any_moment { AtAnyMoment F.held F.may_leave F.moment F.left_since F.faults
        IsMoveOf AreKnown is_accepted
        (InitIsDone (G.handed handed.now) paths.entry.index.now paths.entry.targets.items
        paths.entry.pins.items)
        folder.old folder.new }
    ensures nothing_saved { IfErr result (λ stop. IsFaultOfSaving stop
        ⊎ Ran F.held F.may_leave F.moment F.left_since F.faults IsMoveOf IsMoveOf
        folder.old folder.new) }
{
    let alloc = call.rt.alloc();
    let left = end_left(&mut *folder)?;
    let steps_before = steps_before(details, &*folder)?;
    let SavedHistory {
        files,
        session,
        snapshot,
    } = begin(&*folder, handed, details, paths)?;
    refuse_link(&*folder, details, &session)?;
    let mut text = ReplyText::new(alloc)?;
    text.set(&Reply::Done(session.cursor()));
    details.add_first_lock(alloc, &session, &snapshot, "locked")?;
    details.add_replaced(call.dir, steps_before)?;
    remove_left(&mut *folder, left, &session)?;
    files.rewrite(folder, &session)?;
    Ok(print(&mut call.output, text.as_bytes())?)
}

/// Prints the reply of a first lock, and the entries that it would have. A history that stands there is left, and so is
/// what a save that was stopped has left.
pub fn rehearse_init<R: AllocGlobal, F: HistoryFolder, G: HandedFiles, O: Write>(
    call: &mut Call<'_, R, O>,
    folder: &F,
    handed: &G,
    details: &mut Details,
    paths: FirstPaths<'_>,
) -> Result<(), Stop> {
    let alloc = call.rt.alloc();
    let steps_before = steps_before(details, folder)?;
    let SavedHistory {
        files: _,
        session,
        snapshot,
    } = begin(folder, handed, details, paths)?;
    refuse_link(folder, details, &session)?;
    let mut text = ReplyText::new(alloc)?;
    text.set(&Reply::Done(session.cursor()));
    details.add_first_lock(alloc, &session, &snapshot, "would be locked")?;
    details.add_replaceable(steps_before)?;
    let locks = first_lock_text(alloc, session.state().targets(), call.style)?;
    print(&mut call.output, text.as_bytes())?;
    Ok(print(&mut call.output, locks.as_bytes())?)
}

/// Refuses a link in the place of a file that leads to what isn't ours.
fn refuse_link<F: HistoryFolder>(
    folder: &F,
    details: &mut Details,
    session: &Session,
) -> Result<(), Stop> {
    let Some(link) = link_out(folder, session)? else {
        return Ok(());
    };
    details.add_link(&link)?;
    let LinkOut { file, path: _ } = link;
    Err(Stop::Unwritten(file))
}

/// The history that `init` begins with, the requirements file that it was made of, and the index.
pub fn begin<F: HistoryFolder, G: HandedFiles>(
    folder: &F,
    handed: &G,
    details: &mut Details,
    paths: FirstPaths<'_>,
) -> Result<SavedHistory, Stop>
    ensures begins { IfOk result (λ begun. InitIsDone (G.handed handed.now)
        paths.entry.index.now paths.entry.targets.items paths.entry.pins.items
        begun.files begun.session (Done begun.session.past.cursor)) }
    ensures known { IfOk result (λ begun. IfSome (F.held folder.now)
        (λ h. AreKnown h (bytes_read begun.files))) }
{
    let alloc = folder.alloc();
    let FirstInputs {
        files,
        lines,
        first,
        snapshot,
    } = first_inputs(folder, handed, paths)?;
    let question = details.first_question(alloc, &lines, &first.targets)?;
    let session = match Session::init_keeping(alloc, lines, first, &snapshot, &RESOLVER) {
        Ok(session) => session,
        Err(refusal) => {
            details.add_first_refusal(alloc, &refusal, question, &snapshot)?;
            return Err(Stop::from(refusal));
        }
    };
    Ok(SavedHistory {
        files,
        session,
        snapshot,
    })
}

/// How many steps the history has that an `init` is about to replace; none where there is no history, or nobody is
/// told.
fn steps_before<F: HistoryFolder>(details: &Details, folder: &F) -> Result<usize, Stop> {
    if !details.manner.is_person {
        return Ok(0);
    }
    let opened = match SavedFiles::read(folder) {
        Ok(files) => files.open(folder.alloc()),
        Err(fault) => Err(fault),
    };
    match opened {
        Ok(session) => Ok(session.steps()),
        Err(Fault::OutOfMemory) => Err(Stop::from(AllocError)),
        Err(_) => Ok(0),
    }
}
