// What `batch` and `try` do.

ghost use Rattle.std.specs.Bool.{⊤};
ghost use Rattle.std.specs.Prelude.{◌⊎◌, IfErr, IfOk, OnOk};
ghost use Rattle.commands.specs.Runs.{SomeDoneTo};
ghost use Rattle.files.specs.Repair.{IsRepairOf};
ghost use Rattle.files.specs.Places.{AreInPlace};
ghost use Rattle.folder.specs.Calls.{IsSettled, Ran};
ghost use Rattle.saves.specs.Called.{AtAnyMoment, BatchIsDone, Called, IsFaultOfSaving, is_save};

use crate::init::begin;
use crate::standing_lock::refuse_standing;
use calls::{Call, pool_of};
use command_line::request::EditOptions;
use commands::batch::batch_to_its_end;
use commands::{BatchEnd, Counted, RefusedLine};
use details::Details;
use edits::Pool;
use files::HistoryFolder;
use files::first_inputs::FirstPaths;
use files::saved_history::{SavedHistory, history_to_save};
use files::standing_lock::target_names;
use inputs::HandedFiles;
use inputs::target_files::TargetPath;
use journal::Session;
use reports::print;
use std::alloc::Global;
use std::io::{Read, Write};
use stops::Stop;

/// Does the commands of the input over an index, prints the replies, and saves at the end where one
/// was accepted. Where all or none are to be done, nothing is saved if one was refused, and the call stops.
pub fn run_batch<R: AllocGlobal, F: HistoryFolder, G: HandedFiles, I: Read + Drop, O: Write>(
    call: &mut Call<'_, R, O>,
    folder: &mut F,
    handed: &G,
    details: &mut Details,
    options: EditOptions<'_>,
    is_all_or_none: bool,
    input: I,
) -> Result<(), Stop>
    // as after a restart
    requires { IsSettled F.held F.may_leave folder.old }
    ensures called { OnOk result (Called F.held F.may_leave F.moment F.left_since F.faults
        (IsRepairOf (F.may_fail folder.old)) AreInPlace is_save
        (BatchIsDone (G.handed handed.now) options.entry.index.now is_all_or_none
        options.entry.keeps_locked)
        (λ end. ⊤)
        folder.old folder.new) }
    ensures any_moment { AtAnyMoment F.held F.may_leave F.moment F.left_since F.faults
        (IsRepairOf (F.may_fail folder.old)) AreInPlace is_save
        (BatchIsDone (G.handed handed.now) options.entry.index.now is_all_or_none
        options.entry.keeps_locked)
        folder.old folder.new }
    ensures nothing_saved { IfErr result (λ stop. IsFaultOfSaving stop
        ⊎ Ran F.held F.may_leave F.moment F.left_since F.faults
        (IsRepairOf (F.may_fail folder.old)) (IsRepairOf (F.may_fail folder.old))
        folder.old folder.new) }
{
    let alloc = call.rt.alloc();
    let SavedHistory {
        files,
        mut session,
        snapshot,
    } = history_to_save(&mut *folder, handed, options.index)?;
    let pool = pool_of(&snapshot, options);
    let before = target_names(alloc, &session)?;
    let output = &mut call.output;
    let end = done_to_the_end(alloc, input, output, &mut session, &pool, is_all_or_none)?;
    match end {
        BatchEnd::Save => {
            let before = before.as_slice();
            refuse_standing(&*folder, details, before, &session, false)?;
            Ok(files.rewrite(folder, &session)?)
        }
        BatchEnd::Leave => Ok(()),
        BatchEnd::Refuse(line) => {
            let RefusedLine { number, refusal } = line;
            details.add_refused_line(number, &refusal)?;
            Err(Stop::NoneSaved(refusal))
        }
    }
}

/// Does the commands of the input on the state that `init` begins with, and writes the requirements
/// that they lead to. Nothing is saved.
pub fn try_commands<R: AllocGlobal, F: HistoryFolder, G: HandedFiles, I: Read + Drop, O: Write>(
    call: &mut Call<'_, R, O>,
    folder: &F,
    handed: &G,
    index: &str,
    targets: Vec<TargetPath>,
    input: I,
) -> Result<(), Stop> {
    let alloc = call.rt.alloc();
    let mut none = Details::none(alloc);
    let paths = FirstPaths {
        index,
        targets,
        pins: Vec::new(alloc),
    };
    let SavedHistory {
        files: _,
        mut session,
        snapshot,
    } = begin(folder, handed, &mut none, paths)?;
    let pool = Pool::whole(&snapshot);
    let _ = done_to_the_end(alloc, input, &mut call.output, &mut session, &pool, false)?;
    let text = session.state().lines().bytes(alloc)?;
    Ok(print(&mut call.output, text.as_str().as_bytes())?)
}

/// Does the commands of the input on a session, prints the replies, and answers what is to be done at the end.
fn done_to_the_end<I: Read + Drop, O: Write>(
    alloc: Global,
    input: I,
    output: &mut O,
    session: &mut Session,
    pool: &Pool<'_>,
    is_all_or_none: bool,
) -> Result<BatchEnd, Stop>
    ensures { IfOk result
        (λ end. SomeDoneTo is_all_or_none end pool.now session.old session.new) }
{
    let mut source = Counted::new(input);
    let mut sink = Counted::new(output);
    Ok(batch_to_its_end(alloc, &mut source, &mut sink, session, pool, is_all_or_none)?)
}
