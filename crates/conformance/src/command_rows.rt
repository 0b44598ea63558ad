// Rows of command lines.

use crate::environment_rows::bytes_of;
use crate::growing_text::GrowingText;
use crate::notation::owned;
use command_line::request::{
    AskedEdit, Beginning, ColorChoice, DiffRange, EditOptions, Export, ExportFormat, Format,
    InitOptions, Invocation, NeededOption, NewLines, NewTargets, Question, Replacement,
    RequestFault, Saving, Shown, Subcommand, Told, Verbosity, request,
};
use commands::{Item, read_item};
use edits::Edit;
use lists::Text;
use std::alloc::Global;

/// Pushes an edit, as a short text.
fn push_edit(text: &mut GrowingText, edit: &Edit) {
    match edit {
        Edit::Add(line) => write!(text, "(add)|{line}"),
        Edit::Remove(name) => write!(text, "(remove)|{name}"),
        Edit::Constrain(name, set) => write!(text, "(constrain)|{name}|{set}"),
        Edit::Upgrade(names) => {
            text.push_str("(upgrade)");
            for name in names.as_slice() {
                write!(text, "|{name}");
            }
        }
        Edit::UpgradeAll => text.push_str("(upgrade)"),
        Edit::Relock => text.push_str("(relock)"),
        Edit::Replace(_, _) => text.push_str("(replace)"),
        Edit::Retarget(_, _) => text.push_str("(retarget)"),
    }
}

/// What a line of a batch asks for.
pub fn command(alloc: Global, line: &str, is_ended: bool) -> Option<String> {
    let mut text = GrowingText::new(alloc);
    match read_item(alloc, bytes_of(alloc, line)?.as_slice(), is_ended).ok()? {
        None => text.push_str("(nothing)"),
        Some(Item::Edit(edit)) => push_edit(&mut text, &edit),
        Some(Item::Undo) => text.push_str("(undo)"),
        Some(Item::Redo) => text.push_str("(redo)"),
        Some(Item::BadCommand) => text.push_str("(bad)"),
    }
    text.told()
}

/// Pushes a subcommand with the files that a history begins with.
fn push_init_options(text: &mut GrowingText, name: &str, options: &InitOptions<'_>) {
    let index = options.index;
    write!(text, "{name} {index}");
    for environment in options.environments.as_slice() {
        write!(text, " {environment}");
    }
    push_pins(text, options.pins.as_slice());
}

/// Pushes versions to keep.
fn push_pins(text: &mut GrowingText, pins: &[Text]) {
    for pin in pins {
        write!(text, " pins {pin}");
    }
}

/// Pushes lines that take the place of others.
fn push_replacement(text: &mut GrowingText, replacement: &Replacement<'_>) {
    match replacement.lines {
        NewLines::File(file) => write!(text, "(replace)|{file}"),
        NewLines::Was(old) => write!(text, "(replace) was {old}"),
        NewLines::Line(name, line) => write!(text, "(replace) line|{name}|{line}"),
    }
    push_pins(text, replacement.pins.as_slice());
}

/// Pushes targets that take the place of others.
fn push_new_targets(text: &mut GrowingText, targets: &NewTargets) {
    text.push_str("(retarget)");
    for environment in targets.environments.as_slice() {
        write!(text, " {environment}");
    }
    push_pins(text, targets.pins.as_slice());
}

/// Pushes how a result is printed.
fn push_format(text: &mut GrowingText, format: Format) {
    if format == Format::Json {
        text.push_str(" as json");
    }
}

/// Pushes whether a step is saved.
fn push_saving(text: &mut GrowingText, saving: Saving) {
    if saving == Saving::DryRun {
        text.push_str(" unsaved");
    }
}

/// Pushes what of the lock is printed.
fn push_shown(text: &mut GrowingText, shown: Shown<'_>) {
    match shown {
        Shown::Table => {}
        Shown::Entry(name, None) => write!(text, " {name}"),
        Shown::Entry(name, Some(index)) => write!(text, " {name} over {index}"),
        Shown::Tree => text.push_str(" tree"),
    }
}

/// Pushes where a shorter history begins.
fn push_beginning(text: &mut GrowingText, beginning: Beginning) {
    match beginning {
        Beginning::At(place) => write!(text, "forget before {place}"),
        Beginning::Back(count) => write!(text, "forget all but {count}"),
    }
}

/// Pushes two places of the history.
fn push_range(text: &mut GrowingText, range: DiffRange) {
    match range {
        DiffRange::LastStep => {}
        DiffRange::Since(from) => write!(text, " {from}"),
        DiffRange::Between(from, to) => write!(text, " {from} {to}"),
    }
}

/// Pushes what an edit is made over.
fn push_edit_options(text: &mut GrowingText, options: EditOptions<'_>) {
    let index = options.index;
    write!(text, " {index}");
    if options.keeps_locked {
        text.push_str(" kept");
    }
    if options.only_if_needed {
        text.push_str(" if needed");
    }
}

/// Pushes an edit that words ask for, and what it is made over.
fn push_asked_edit(text: &mut GrowingText, asked: &AskedEdit<'_>, options: EditOptions<'_>) {
    match asked {
        AskedEdit::Typed(edit) => push_edit(text, edit),
        AskedEdit::Replace(replacement) => push_replacement(text, replacement),
        AskedEdit::Retarget(targets) => push_new_targets(text, targets),
    }
    push_edit_options(text, options);
}

/// Pushes the question of `why`.
fn push_question(text: &mut GrowingText, question: &Question<'_>) {
    match question {
        Question::Edit(asked, options) => push_asked_edit(text, asked, *options),
        Question::Init(options, line) => {
            push_init_options(text, "init", options);
            if let Some(line) = line {
                write!(text, "|{line}");
            }
        }
        Question::Release(release, index) => write!(text, "not {release} {index}"),
    }
}

/// Pushes what words ask for.
fn push_subcommand(text: &mut GrowingText, subcommand: Subcommand<'_>) {
    match subcommand {
        Subcommand::Init(options, saving) => {
            push_init_options(text, "init", &options);
            push_saving(text, saving);
        }
        Subcommand::Edit(asked, options, saving) => {
            push_asked_edit(text, &asked, options);
            push_saving(text, saving);
        }
        Subcommand::Undo(saving) => {
            text.push_str("undo");
            push_saving(text, saving);
        }
        Subcommand::Redo(saving) => {
            text.push_str("redo");
            push_saving(text, saving);
        }
        Subcommand::Forget(beginning, saving) => {
            push_beginning(text, beginning);
            push_saving(text, saving);
        }
        Subcommand::Batch {
            options,
            is_all_or_none,
        } => {
            text.push_str(if is_all_or_none {
                "batch all or none"
            } else {
                "batch"
            });
            push_edit_options(text, options);
        }
        Subcommand::Try(options) => push_init_options(text, "try", &options),
        Subcommand::Skipped(index) => write!(text, "skipped {index}"),
        Subcommand::Why(question, told) => {
            text.push_str("why ");
            push_question(text, &question);
            text.push_str(match told {
                Told::Conflicts => "",
                Told::Sentences => " in sentences",
                Told::LongSentences => " in long sentences",
            });
        }
        view => push_view(text, view),
    }
}

/// Pushes how a lock is printed for another tool.
fn push_export(text: &mut GrowingText, export: Export<'_>) {
    text.push_str(match export.format {
        ExportFormat::Hashes => "export hashes",
        ExportFormat::Dot => "export dot",
        ExportFormat::Pylock => "export pylock",
    });
    if let Some(target) = export.target {
        write!(text, " of {target}");
    }
    if let Some(index) = export.index {
        write!(text, " over {index}");
    }
}

/// Pushes a subcommand that prints what is there.
fn push_view(text: &mut GrowingText, view: Subcommand<'_>) {
    match view {
        Subcommand::Show(shown, format) => {
            text.push_str("show");
            push_shown(text, shown);
            push_format(text, format);
        }
        Subcommand::Log { is_long, format } => {
            text.push_str(if is_long { "log long" } else { "log" });
            push_format(text, format);
        }
        Subcommand::Diff(range, format) => {
            text.push_str("diff");
            push_range(text, range);
            push_format(text, format);
        }
        Subcommand::Check(current, format) => {
            text.push_str("check");
            if let Some(index) = current {
                write!(text, " over {index}");
            }
            push_format(text, format);
        }
        Subcommand::Export(export) => push_export(text, export),
        Subcommand::Outdated(index, format) => {
            write!(text, "outdated {index}");
            push_format(text, format);
        }
        // these are pushed before
        Subcommand::Init(_, _)
        | Subcommand::Edit(_, _, _)
        | Subcommand::Undo(_)
        | Subcommand::Redo(_)
        | Subcommand::Forget(_, _)
        | Subcommand::Batch { .. }
        | Subcommand::Try(_)
        | Subcommand::Skipped(_)
        | Subcommand::Why(_, _) => {}
    }
}

/// Pushes how much is told, and in which colors.
fn push_told(text: &mut GrowingText, verbosity: Verbosity, color: ColorChoice) {
    text.push_str(match verbosity {
        Verbosity::Quiet => " quiet",
        Verbosity::Usual => "",
        Verbosity::Verbose => " verbose",
    });
    text.push_str(match color {
        ColorChoice::Auto => "",
        ColorChoice::Always => " in colors",
        ColorChoice::Never => " without colors",
    });
}

/// What words ask for, in a folder.
fn invocation_text(alloc: Global, invocation: Invocation<'_>) -> Option<String> {
    let Invocation {
        dir,
        verbosity,
        color,
        subcommand,
    } = invocation;
    let mut text = GrowingText::new(alloc);
    write!(text, "{dir} ");
    push_subcommand(&mut text, subcommand);
    push_told(&mut text, verbosity, color);
    text.told()
}

/// What words behind the name of the program ask for.
pub fn words(alloc: Global, told: &[String]) -> Option<String> {
    let mut words = Vec::new(alloc);
    words.push("reqlock").ok()?;
    for word in told {
        words.push(word.as_str()).ok()?;
    }
    match request(alloc, words.as_slice()) {
        Ok(invocation) => invocation_text(alloc, invocation),
        Err(RequestFault::Needed(NeededOption::Index)) => owned(alloc, "needs index"),
        Err(RequestFault::Needed(NeededOption::Environment)) => owned(alloc, "needs env"),
        Err(RequestFault::Usage(error)) => {
            owned(alloc, if error.use_stderr() { "usage" } else { "help" })
        }
        Err(RequestFault::OutOfMemory) => None,
    }
}
