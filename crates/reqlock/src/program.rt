// The program: what each subcommand does.

ghost use Rattle.folder.specs.Calls.{IsSettled};

use calls::subcommand_files::{
    environments_of, has_old_lines, index_of, lines_of, locked, named_in, refuse_no_folder,
};
use calls::{Call, first_paths};
use clap::error::ErrorKind;
use command_line::command;
use command_line::request::{
    Beginning, ColorChoice, Format, InitOptions, Invocation, RequestFault, Saving, Subcommand,
    Verbosity, request,
};
use commands::batch::StreamFault;
use details::{CallFiles, Details};
use files::{Disk, StillFolder};
use inputs::handed_in::HandedIn;
use inputs::target_files::{TargetPath, target_files};
use inputs::{HandedFiles, LockFile};
use journal::Command;
use reports::report::{Status, report, report_fault};
use saves::{
    add_near_names, begin_history, edit_once, forget_once, rehearse_edit, rehearse_forget,
    rehearse_init, rehearse_step, run_batch, step_once, try_commands,
};
use shell::given_words::has_option;
use shell::screen::Screen;
use std::alloc::{AllocError, Global};
use std::io::{Read, Write};
use std::rt::{Clock, Files};
use stops::{Stop, stop_of_request};
use texts::diff_text::diff_text;
use views::{
    Telling, Waiting, answer_why, print_check, print_diff, print_export, print_history,
    print_outdated, print_shown, print_skipped,
};

/// The words of a call, the first of them the program's name, and who reads its answer.
#[derive(Clone, Copy)]
pub struct Given<'a> {
    pub words: &'a [String],
    pub screen: Screen,
}

/// Does what the words mean. Commands are read from `input`, replies and help are written to `output`, and other
/// texts to `errors`.
pub fn program<R: Files + Clock + AllocGlobal + Clone + Drop, I: Read + Drop, O: Write, E: Write>(
    rt: &R,
    given: Given<'_>,
    input: I,
    output: &mut O,
    errors: &mut E,
) -> Status
where
    R::File: LockFile,
{
    let alloc = rt.alloc();
    let invocation = match request(alloc, given.words) {
        Ok(invocation) => invocation,
        Err(fault) => return refuse_words(rt, given, fault, output, errors),
    };
    let Invocation {
        dir,
        verbosity,
        color,
        subcommand,
    } = invocation;
    let mut details = Details::new(alloc, given.screen.manner(verbosity, color));
    let mut call = Call {
        rt,
        dir,
        output: &mut *output,
        style: given.screen.style(color),
    };
    let names_environment = has_option(given.words, "--env");
    let done = obey(
        &mut call,
        subcommand,
        names_environment,
        input,
        &mut details,
        errors,
    );
    let status = match done {
        Ok(()) => Status::Done,
        Err(stop) => report(&stop, output, errors),
    };
    details.tell(alloc, status == Status::Fault, errors);
    status
}

/// Tells why words are no request, and what to type where an option is missing.
fn refuse_words<R: Files + AllocGlobal, O: Write, E: Write>(
    rt: &R,
    given: Given<'_>,
    fault: RequestFault,
    output: &mut O,
    errors: &mut E,
) -> Status {
    let manner = given
        .screen
        .manner(verbosity_in(given.words), ColorChoice::Auto);
    let mut details = Details::new(rt.alloc(), manner);
    let noted = match &fault {
        RequestFault::Needed(option) => details.add_needed(rt, *option, given.words),
        RequestFault::Usage(error) if is_mistake(error) => {
            details.add_misused(rt.alloc(), given.words)
        }
        RequestFault::Usage(_) | RequestFault::OutOfMemory => Ok(()),
    };
    let status = match noted.and_then(|_| without_tip(rt.alloc(), fault, &details, given.words)) {
        Ok(fault) => report(&stop_of_request(rt.alloc(), fault), output, errors),
        Err(_) => report_fault(StreamFault::OutOfMemory, errors),
    };
    details.tell(rt.alloc(), status == Status::Fault, errors);
    status
}

/// Whether words call for no help.
fn is_mistake(error: &clap::Error) -> bool {
    !matches!(
        error.kind(),
        ErrorKind::DisplayHelp | ErrorKind::DisplayVersion
    )
}

/// The fault without near names of a subcommand, where those would lead astray.
fn without_tip(
    alloc: Global,
    fault: RequestFault,
    details: &Details,
    words: &[String],
) -> Result<RequestFault, AllocError> {
    match fault {
        RequestFault::Usage(error) if error.kind() == ErrorKind::InvalidSubcommand => {
            if !details.is_led_astray(alloc, words)? {
                return Ok(RequestFault::Usage(error));
            }
            let message = "reqlock has no such subcommand";
            Ok(RequestFault::Usage(command(alloc)?.error(ErrorKind::InvalidSubcommand, message)?))
        }
        fault => Ok(fault),
    }
}

/// How much words ask for that are no request.
fn verbosity_in(words: &[String]) -> Verbosity {
    if has_option(words, "--quiet") || has_option(words, "-q") {
        Verbosity::Quiet
    } else if has_option(words, "--verbose") || has_option(words, "-v") {
        Verbosity::Verbose
    } else {
        Verbosity::Usual
    }
}

/// The files that a subcommand names, but for those of its targets.
fn files_of<'a>(alloc: Global, dir: &'a str, subcommand: &Subcommand<'a>) -> CallFiles<'a> {
    CallFiles {
        dir,
        index: index_of(subcommand),
        lines: lines_of(subcommand),
        is_old: has_old_lines(subcommand),
        named: named_in(subcommand),
        targets: Vec::new(alloc),
    }
}

/// What is known of a file that is refused is noted behind all else.
fn obey<R: Files + Clock + AllocGlobal + Clone + Drop, I: Read + Drop, O: Write, E: Write>(
    call: &mut Call<'_, R, O>,
    subcommand: Subcommand<'_>,
    names_environment: bool,
    input: I,
    details: &mut Details,
    errors: &mut E,
) -> Result<(), Stop>
where
    R::File: LockFile,
{
    let rt = call.rt;
    let mut files = files_of(rt.alloc(), call.dir, &subcommand);
    let is_environment_idle = names_environment && environments_of(&subcommand).is_empty();
    let done = match target_files(rt.alloc(), environments_of(&subcommand)) {
        Ok(targets) => {
            files.targets = targets.clone()?;
            details.tell_of(rt, &files, is_environment_idle)?;
            obey_on_disk(call, subcommand, targets, input, details, errors)
        }
        Err(fault) => Err(Stop::from(fault)),
    };
    if let Err(stop) = &done {
        add_near_names(&Disk::new(rt, call.dir), details, stop)?;
        details.add_stop(rt, &files, stop)?;
    }
    done
}

/// Does a subcommand on the disk. Standard input has the commands of some, and may be a file that others are handed.
fn obey_on_disk<R: Files + Clock + AllocGlobal + Clone + Drop, I: Read + Drop, O: Write, E: Write>(
    call: &mut Call<'_, R, O>,
    subcommand: Subcommand<'_>,
    targets: Vec<TargetPath>,
    input: I,
    details: &mut Details,
    errors: &mut E,
) -> Result<(), Stop>
where
    R::File: LockFile,
{
    refuse_no_folder(call.dir, &subcommand)?;
    let rt = call.rt;
    let _lock = locked(rt, call.dir, &subcommand)?;
    let mut disk = Disk::new(rt, call.dir);
    let nothing: &[u8] = &[];
    if reads_commands(&subcommand) {
        let handed = HandedIn::new(rt, nothing);
        obey_in(
            call, &mut disk, &handed, subcommand, targets, input, details, errors,
        )
    } else {
        let handed = HandedIn::new(rt, input);
        obey_in(
            call, &mut disk, &handed, subcommand, targets, nothing, details, errors,
        )
    }
}

/// Whether standard input has the commands of a subcommand.
fn reads_commands(subcommand: &Subcommand<'_>) -> bool {
    matches!(subcommand, Subcommand::Batch { .. } | Subcommand::Try(_))
}

/// Does a subcommand in a folder, with the files that are handed in and the commands of an input.
fn obey_in<
    R: Clock + AllocGlobal,
    F: StillFolder,
    G: HandedFiles,
    I: Read + Drop,
    O: Write,
    E: Write,
>(
    call: &mut Call<'_, R, O>,
    folder: &mut F,
    handed: &G,
    subcommand: Subcommand<'_>,
    targets: Vec<TargetPath>,
    input: I,
    details: &mut Details,
    errors: &mut E,
) -> Result<(), Stop>
    // as after a restart
    requires { IsSettled F.held F.may_leave folder.old }
{
    match subcommand {
        Subcommand::Init(options, saving) => {
            init(call, folder, handed, details, &options, saving, targets)
        }
        Subcommand::Edit(asked, options, Saving::Save) => {
            edit_once(call, folder, handed, details, asked, options, targets)
        }
        Subcommand::Edit(asked, options, Saving::DryRun) => {
            rehearse_edit(call, &*folder, handed, details, asked, options, targets)
        }
        Subcommand::Undo(saving) => step(call, folder, details, &Command::Undo, saving),
        Subcommand::Redo(saving) => step(call, folder, details, &Command::Redo, saving),
        Subcommand::Forget(beginning, saving) => forget(call, folder, details, beginning, saving),
        Subcommand::Batch {
            options,
            is_all_or_none,
        } => run_batch(
            call,
            folder,
            handed,
            details,
            options,
            is_all_or_none,
            input,
        ),
        Subcommand::Try(options) => {
            try_commands(call, &*folder, handed, options.index, targets, input)
        }
        Subcommand::Show(shown, format) => {
            print_shown(call, &*folder, handed, errors, shown, format)
        }
        Subcommand::Log { is_long, format } => {
            print_history(call, &*folder, errors, is_long, format)
        }
        Subcommand::Diff(range, format) => print_diff(call, &*folder, errors, range, format),
        Subcommand::Check(index, format) => {
            check(call, &*folder, handed, details, errors, index, format)
        }
        Subcommand::Outdated(index, format) => {
            print_outdated(call, &*folder, handed, &mut details.lacks, index, format)
        }
        Subcommand::Export(export) => print_export(call, &*folder, handed, errors, &export),
        Subcommand::Skipped(index) => print_skipped(call, handed, index),
        Subcommand::Why(question, told) => {
            let watch = Waiting::new(call.rt, &mut *errors, details.manner.is_person);
            let width = call.style.explained_width();
            let telling = Telling { told, width, watch };
            answer_why(
                call,
                &*folder,
                handed,
                &mut details.lacks,
                question,
                telling,
                targets,
            )
        }
    }
}

/// Whether the files belong together. That the lock is current over another index than its own is noted.
fn check<R: AllocGlobal, F: StillFolder, G: HandedFiles, O: Write, E: Write>(
    call: &mut Call<'_, R, O>,
    folder: &F,
    handed: &G,
    details: &mut Details,
    errors: &mut E,
    index: Option<&str>,
    format: Format,
) -> Result<(), Stop> {
    let errors = if details.manner.is_quiet {
        None
    } else {
        Some(errors)
    };
    if let Some(change) = print_check(call, folder, handed, errors, index, format)? {
        if details.tells() {
            details.changes = diff_text(call.rt.alloc(), &change, details.manner.style)?;
        }
    }
    Ok(())
}

/// A first lock, with the pins that it keeps, saved or not.
fn init<R: AllocGlobal, F: StillFolder, G: HandedFiles, O: Write>(
    call: &mut Call<'_, R, O>,
    folder: &mut F,
    handed: &G,
    details: &mut Details,
    options: &InitOptions<'_>,
    saving: Saving,
    targets: Vec<TargetPath>,
) -> Result<(), Stop>
    requires { IsSettled F.held F.may_leave folder.old }
{
    let paths = first_paths(call.rt.alloc(), options, targets)?;
    match saving {
        Saving::Save => begin_history(call, folder, handed, details, paths),
        Saving::DryRun => rehearse_init(call, &*folder, handed, details, paths),
    }
}

/// An undo or a redo, saved or not.
fn step<R: AllocGlobal, F: StillFolder, O: Write>(
    call: &mut Call<'_, R, O>,
    folder: &mut F,
    details: &mut Details,
    command: &Command<'_>,
    saving: Saving,
) -> Result<(), Stop>
    requires { IsSettled F.held F.may_leave folder.old }
{
    match saving {
        Saving::Save => step_once(call, folder, details, command),
        Saving::DryRun => rehearse_step(call, &*folder, details, command),
    }
}

/// A shorter history, saved or not.
fn forget<R: AllocGlobal, F: StillFolder, O: Write>(
    call: &mut Call<'_, R, O>,
    folder: &mut F,
    details: &mut Details,
    beginning: Beginning,
    saving: Saving,
) -> Result<(), Stop>
    requires { IsSettled F.held F.may_leave folder.old }
{
    match saving {
        Saving::Save => forget_once(call, folder, details, beginning),
        Saving::DryRun => rehearse_forget(call, &*folder, details, beginning),
    }
}
