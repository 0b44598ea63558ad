// What `why` prints: why lines have no solution over an index.

ghost use Rattle.std.specs.Io.KnownBytes.{Appends};
ghost use Rattle.std.specs.Prelude.{IfOk, OnOk, codes};
ghost use Rattle.std.specs.List.{All};
ghost use Rattle.answers.specs.Answers.{IsSolvable};

use crate::waiting::Telling;
use answers::{
    Watch, changed_by, explained_text, first_explained, first_refuted, lines_of, listed_text,
};
use calls::{Call, UnsavedEdit, pool_of};
use command_line::request::{EditOptions, Told};
use edits::{Edit, Problem, TargetName, problem_after, problems_of_init};
use explain::{ChangedLines, Extent, Wording};
use files::HistoryFolder;
use files::first_inputs::{FirstInputs, FirstPaths, first_inputs};
use inputs::HandedFiles;
use lists::Text;
use notes::Lacks;
use reports::print;
use std::alloc::{AllocError, Global};
use std::io::Write;
use stops::Stop;

/// Prints why an edit of the saved state has no solution over an index: a refutation that `check`
/// accepts, of the first target that has none. Where each one has a solution, that is printed.
/// It is told in sentences where that is asked for, long ones too. The lines that are told are those that the edit leaves.
pub(crate) fn print_why<R: AllocGlobal, O: Write, W: Watch + Drop>(
    call: &mut Call<'_, R, O>,
    lacks: &mut Lacks,
    unsaved: UnsavedEdit,
    options: EditOptions<'_>,
    telling: Telling<W>,
) -> Result<(), Stop> {
    let alloc = call.rt.alloc();
    let UnsavedEdit {
        session,
        snapshot,
        edit,
    } = unsaved;
    let pool = pool_of(&snapshot, options);
    let problems = problem_after(alloc, session.state(), &edit, &pool)?;
    let changed = ChangedLines {
        lines: lines_of(&edit, session.state()),
        changed: changed_by(&edit),
    };
    let asked = Asked { changed, telling };
    answer(alloc, lacks, asked, problems.as_slice(), &mut call.output)
}

/// The same of the lock that `init` would make of the requirements file, with this line behind the others
/// where there is one. No history and no lock is read.
pub(crate) fn print_why_init<
    R: AllocGlobal,
    F: HistoryFolder,
    G: HandedFiles,
    O: Write,
    W: Watch + Drop,
>(
    call: &mut Call<'_, R, O>,
    folder: &F,
    handed: &G,
    lacks: &mut Lacks,
    line: Option<&str>,
    paths: FirstPaths<'_>,
    telling: Telling<W>,
) -> Result<(), Stop> {
    let alloc = call.rt.alloc();
    let FirstInputs {
        files: _,
        lines,
        first,
        snapshot,
    } = first_inputs(folder, handed, paths)?;
    let edit = edit_of(alloc, line)?;
    let problems = problems_of_init(alloc, &lines, &edit, first, &snapshot)?;
    let changed = ChangedLines {
        lines: lines.lines(),
        changed: changed_by(&edit),
    };
    let asked = Asked { changed, telling };
    answer(alloc, lacks, asked, problems.as_slice(), &mut call.output)
}

/// With this line behind the others, where there is one.
fn edit_of(alloc: Global, line: Option<&str>) -> Result<Edit, AllocError> {
    Ok(match line {
        Some(text) => Edit::Add(Text::copy_of(alloc, text)?),
        None => Edit::Relock,
    })
}

/// Which lines are asked about, and how it is told.
#[derive(Drop)]
pub struct Asked<'a, W> {
    pub changed: ChangedLines<'a>,
    pub telling: Telling<W>,
}

/// Tells of the first target without a solution why it has none, or that each has one. What the index lacks for that target is
/// noted.
pub fn answer<O: Write, W: Watch + Drop>(
    alloc: Global,
    lacks: &mut Lacks,
    asked: Asked<'_, W>,
    problems: &[(TargetName, Problem<'_>)],
    output: &mut O,
) -> Result<(), Stop>
    ensures solvable { IfOk result (λ _. All IsSolvable problems.now) }
    ensures printed { OnOk result
        (Appends (O.contents output.old) (O.contents output.new) (codes "solvable\n")) }
{
    stop_unsolvable(alloc, lacks, asked, problems)?;
    Ok(print(output, b"solvable\n".as_slice())?)
}

/// Stops where a target has no solution, with what is told of the first.
fn stop_unsolvable<W: Watch + Drop>(
    alloc: Global,
    lacks: &mut Lacks,
    asked: Asked<'_, W>,
    problems: &[(TargetName, Problem<'_>)],
) -> Result<(), Stop>
    ensures solvable { IfOk result (λ _. All IsSolvable problems.now) }
{
    let Asked { changed, telling } = asked;
    let Telling {
        told,
        width,
        mut watch,
    } = telling;
    if told == Told::Conflicts {
        return stop_refuted(alloc, lacks, problems, &mut watch);
    }
    let wording = wording_of(changed, told, width);
    stop_explained(alloc, lacks, wording, problems, &mut watch)
}

/// With the conflicts of a refutation.
fn stop_refuted<W: Watch>(
    alloc: Global,
    lacks: &mut Lacks,
    problems: &[(TargetName, Problem<'_>)],
    watch: &mut W,
) -> Result<(), Stop>
    ensures solvable { IfOk result (λ _. All IsSolvable problems.now) }
{
    match first_refuted(alloc, problems, watch)? {
        Some((position, refutation)) => {
            let (name, problem) = &problems[position];
            lacks.add_asked(alloc, name, problem, true)?;
            Err(Stop::Refuted(listed_text(alloc, name, &refutation)?))
        }
        None => Ok(()),
    }
}

/// In sentences.
fn stop_explained<W: Watch>(
    alloc: Global,
    lacks: &mut Lacks,
    wording: Wording<'_>,
    problems: &[(TargetName, Problem<'_>)],
    watch: &mut W,
) -> Result<(), Stop>
    ensures solvable { IfOk result (λ _. All IsSolvable problems.now) }
{
    match first_explained(alloc, problems, watch)? {
        Some((position, explanation)) => {
            let (name, problem) = &problems[position];
            lacks.add_asked(alloc, name, problem, true)?;
            let text = explained_text(alloc, name, problem, &explanation, wording)?;
            Err(Stop::Explained(text))
        }
        None => Ok(()),
    }
}

/// How sentences on changed lines are worded, in lines of the width at most.
pub(crate) fn wording_of(lines: ChangedLines<'_>, told: Told, width: usize) -> Wording<'_> {
    Wording {
        lines,
        extent: match told {
            Told::LongSentences => Extent::Long,
            Told::Sentences | Told::Conflicts => Extent::Short,
        },
        width,
    }
}
