// What a command line wants the program to do.

use edits::Edit;
use lists::{Seq, Text};

/// What the words of the command line mean. The texts are those of the words.
#[derive(Drop)]
pub struct Invocation<'a> {
    /// The folder of the requirements file, the locks and the journal.
    pub dir: &'a str,
    pub verbosity: Verbosity,
    pub color: ColorChoice,
    pub subcommand: Subcommand<'a>,
}

/// How much is told beside the answer.
#[derive(Clone, Copy, Debug, PartialEq, Eq)]
pub enum Verbosity {
    /// Nothing.
    Quiet,
    Usual,
    /// Also what changed, or what is known of a refusal.
    Verbose,
}

/// When colors are used.
#[derive(Clone, Copy, Debug, PartialEq, Eq)]
pub enum ColorChoice {
    /// Where the output is a terminal that shows them.
    Auto,
    Always,
    Never,
}

/// What the program is to do, with the files that it needs for it.
#[derive(Drop)]
pub enum Subcommand<'a> {
    /// Locks the requirements file, and begins a history.
    Init(InitOptions<'a>, Saving),
    /// Makes an edit over an index.
    Edit(AskedEdit<'a>, EditOptions<'a>, Saving),
    Undo(Saving),
    Redo(Saving),
    /// Has the history begin with a later state.
    Forget(Beginning, Saving),
    /// Does the commands of standard input over an index, and saves.
    Batch {
        options: EditOptions<'a>,
        /// Whether all of them are done or none, or each by itself.
        is_all_or_none: bool,
    },
    /// Does them on the state that `Init` would begin with, and saves nothing.
    Try(InitOptions<'a>),
    /// Prints the lock, or a part of it.
    Show(Shown<'a>, Format),
    /// Prints the history.
    Log {
        /// Whether each changed entry stands on a line of its own, or none is printed.
        is_long: bool,
        format: Format,
    },
    /// Prints what changed between two places of the history.
    Diff(DiffRange, Format),
    /// Tells whether requirements file, locks and journal belong together; with an index, also whether a
    /// relock over it would change an entry.
    Check(Option<&'a str>, Format),
    /// Prints which locked releases have newer ones in this index.
    Outdated(&'a str, Format),
    /// Prints the lock in the form of another tool.
    Export(Export<'a>),
    /// Prints what was left out of this index.
    Skipped(&'a str),
    /// Prints why there is no solution, where there is none.
    Why(Question<'a>, Told),
}

/// An edit of the present state: typed, or with files that have its lines or its targets.
#[derive(Drop)]
pub enum AskedEdit<'a> {
    Typed(Edit),
    /// Puts other lines in the place of those of the file.
    Replace(Replacement<'a>),
    /// Locks the lines for other targets in the place of the present ones.
    Retarget(NewTargets),
}

/// The files that a new history begins with, beside the requirements file.
#[derive(Drop)]
pub struct InitOptions<'a> {
    pub index: &'a str,
    /// The values of `--env` as they stand, in their order; there is at least one.
    pub environments: Seq<Text>,
    /// The values of `--pins` as they stand, in their order: the versions to keep. `try` takes none.
    pub pins: Seq<Text>,
}

/// The targets that take the place of the present ones, and versions that count for new ones.
#[derive(Debug, Drop)]
pub struct NewTargets {
    /// The values of `--env` as they stand, in their order; there is at least one.
    pub environments: Seq<Text>,
    /// The values of `--pins` as they stand, in their order.
    pub pins: Seq<Text>,
}

/// The lines that take the place of those of the file, and versions that count beside the locked ones.
#[derive(Debug, Drop)]
pub struct Replacement<'a> {
    pub lines: NewLines<'a>,
    /// The values of `--pins` as they stand, in their order.
    pub pins: Seq<Text>,
}

/// Where new lines are.
#[derive(Clone, Copy, Debug, PartialEq, Eq)]
pub enum NewLines<'a> {
    /// Those of this file.
    File(&'a str),
    /// Those that the file in the folder has now, which was this file before.
    Was(&'a str),
    /// Those of the file, with this text, the second, in the place of the line of this name.
    Line(&'a str, &'a str),
}

/// What an edit is made over.
#[derive(Clone, Copy, Debug, PartialEq, Eq)]
pub struct EditOptions<'a> {
    pub index: &'a str,
    /// Whether each locked version that is still needed has to stay.
    pub keeps_locked: bool,
    /// Whether an edit that changes the index alone is left. `batch` and `why` don't take it.
    pub only_if_needed: bool,
}

/// Whether a first lock, an edit, a step or a shorter history is saved.
#[derive(Clone, Copy, Debug, PartialEq, Eq)]
pub enum Saving {
    Save,
    /// Nothing is saved, and what would change is printed.
    DryRun,
}

/// How something is printed.
#[derive(Clone, Copy, Debug, PartialEq, Eq)]
pub enum Format {
    /// Lines for people.
    Lines,
    Json,
}

/// What of the lock is printed.
#[derive(Clone, Copy, Debug, PartialEq, Eq)]
pub enum Shown<'a> {
    /// Each entry on a line.
    Table,
    /// The entry of this name, over this index where one is given.
    Entry(&'a str, Option<&'a str>),
    /// The entries below the lines that need them.
    Tree,
}

/// Where a history is to begin.
#[derive(Clone, Copy, Debug, PartialEq, Eq)]
pub enum Beginning {
    /// At this place.
    At(usize),
    /// So many states before the present one.
    Back(usize),
}

/// Two places of the history.
#[derive(Clone, Copy, Debug, PartialEq, Eq)]
pub enum DiffRange {
    /// The place before the present one, and the present one.
    LastStep,
    /// This place, and the present one.
    Since(usize),
    /// The first place, and the second.
    Between(usize, usize),
}

/// How a lock is printed for another tool.
#[derive(Debug, Drop)]
pub struct Export<'a> {
    pub format: ExportFormat,
    /// The name of the target whose lock it is, where one is given.
    pub target: Option<&'a str>,
    pub index: Option<&'a str>,
    /// The files of environments that are asked about, in their order; where there are some no lock is printed.
    pub covers: Seq<Text>,
}

/// The form of a lock.
#[derive(Clone, Copy, Debug, PartialEq, Eq)]
pub enum ExportFormat {
    /// Lines of a requirements file with hashes.
    Hashes,
    /// A graph in the language of Graphviz.
    Dot,
    /// A lock that other tools read.
    Pylock,
}

/// How `why` tells what it knows.
#[derive(Clone, Copy, Debug, PartialEq, Eq)]
pub enum Told {
    /// As conflicts, for a checker.
    Conflicts,
    /// In sentences, as short as they may be.
    Sentences,
    /// In sentences that leave nothing out.
    LongSentences,
}

/// The question of `why`.
#[derive(Drop)]
pub enum Question<'a> {
    /// Why this edit of the present state has no solution over an index.
    Edit(AskedEdit<'a>, EditOptions<'a>),
    /// Why a first lock has none, with this line behind those of the file where there is one.
    Init(InitOptions<'a>, Option<&'a str>),
    /// Why the present lock hasn't the release that this text names, as `NAME==VERSION`, or the
    /// newest one, as `NAME`, of this index.
    Release(&'a str, &'a str),
}
