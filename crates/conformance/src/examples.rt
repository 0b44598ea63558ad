// The examples at the heads of the libraries: the body of `of_NAME` stands in `lib.rt` of NAME.

use crate::scenarios::data;
use crate::targets::unnamed;
use command_line::request::{RequestFault, Subcommand, request};
use commands::{Item, read_item};
use edits::{Edit, Pool, Refusal, State, Target, TargetName, Targets, edit};
use journal::{Command, Reply, Session};
use lists::{Seq, Text, trim_end};
use markers::{Environment, Marker, Name};
use pep440::{SpecifierSet, Version};
use pep508::{ReqFile, Requirement};
use pylock::{Lock, rises};
use refutations::{Refutation, check};
use refute::refute_singly;
use resolve::{Learning, Problem};
use search::Unwatched;
use snapshot::Snapshot;
use states::{Unlocked, locked};
use std::alloc::{AllocError, Global};
use std::collections::BTreeMap;

/// Whether the example of a library comes out true.
pub fn example(alloc: Global, library: &str) -> Option<String> {
    let is_true = match library {
        "lists" => of_lists(alloc).ok()?,
        "pep440" => of_pep440(alloc).ok()?,
        "markers" => of_markers(alloc, &data::environment(alloc)?).ok()?,
        "pep508" => of_pep508(alloc, &data::environment(alloc)?).ok()?,
        "snapshot" => of_snapshot(alloc, data::index_text(alloc)?.as_bytes()).ok()?,
        "commands" => of_commands(alloc).ok()?,
        "command_line" => of_command_line(alloc).ok()?,
        _ => over_index(alloc, library)?,
    };
    format!(in alloc; "{is_true}").ok()
}

/// Whether the example of a library over an index comes out true.
fn over_index(alloc: Global, library: &str) -> Option<bool> {
    let index = data::read_indexes(alloc)?;
    let state = data::state(alloc, &index)?;
    let environment = data::environment(alloc)?;
    match library {
        "problems" => of_problems(alloc, state.lines(), &environment, &index.now).ok(),
        "refutations" => of_refutations(alloc, state.lines(), &environment, &index.now).ok(),
        "refute" => {
            // `a` 2 needs `b-b<2`, and `c` needs `b-b>=2`.
            let lines = ReqFile::read(alloc, "a>=2\nc".as_bytes()).ok()?;
            of_refute(alloc, &lines, &environment, &index.now).ok()
        }
        "pylock" => of_first_lock(alloc, state.targets()),
        "states" => {
            let count = of_states(alloc, data::lines(alloc)?, environment, &index.now);
            Some(count.ok()? == 2)
        }
        "edits" => of_edits(alloc, &state, &index.now).ok(),
        "journal" => {
            let targets = unnamed(alloc, environment).ok()?;
            of_journal(alloc, data::lines(alloc)?, targets, &index.now).ok()
        }
        _ => None,
    }
}

/// Whether the example of locks comes out true of the first target's.
fn of_first_lock(alloc: Global, targets: &[Target]) -> Option<bool> {
    of_pylock(alloc, targets.first()?.lock.print(alloc).ok()?.as_bytes()).ok()
}

fn of_lists(alloc: Global) -> Result<bool, AllocError> {
    let mut line = Text::copy_of(alloc, "flask")?;
    line.push_str(">=2 \t")?;
    Ok(trim_end(line.as_str()) == "flask>=2")
}

fn of_pep440(alloc: Global) -> Result<bool, pep440::Fault> {
    let version = Version::parse(alloc, "3.12.1rc1")?;
    let set = SpecifierSet::parse(alloc, ">=3.8,!=3.9.*")?;
    Ok(version.is_pre() && set.matches(&version))
}

fn of_markers(alloc: Global, environment: &Environment) -> Result<bool, markers::Fault> {
    let marker = Marker::parse(alloc, "os_name == 'posix' and extra == 'Web_UI'")?;
    let extra = Name::parse(alloc, "web.ui")?;
    Ok(marker.holds(environment, Some(&extra)))
}

fn of_pep508(alloc: Global, environment: &Environment) -> Result<bool, pep508::Fault> {
    let wanted = Requirement::parse(alloc, "Flask[async]>=2 ; python_version >= '3.9'")?;
    Ok(wanted.name().normal() == "flask" && wanted.is_active(environment))
}

fn of_snapshot(alloc: Global, bytes: &[u8]) -> Result<bool, snapshot::Fault> {
    let index = Snapshot::read(alloc, bytes)?;
    match index.skipped() {
        // What was left out: of which package, at which place, and why.
        [skipped, ..] => Ok(skipped.package().normal() == "x" && skipped.place() == 1),
        [] => Ok(false),
    }
}

fn of_problems(
    alloc: Global,
    lines: &ReqFile,
    environment: &Environment,
    index: &Snapshot,
) -> Result<bool, AllocError> {
    let problem = Problem::new(alloc, lines, environment, index, BTreeMap::new(alloc))?;
    // With no version chosen, the nodes of the active lines are needed, and no others.
    let nodes = problem.needed(alloc, &BTreeMap::new(alloc))?;
    Ok(!nodes.as_slice().is_empty())
}

fn of_refutations(
    alloc: Global,
    lines: &ReqFile,
    environment: &Environment,
    index: &Snapshot,
) -> Result<bool, AllocError> {
    let problem = Problem::new(alloc, lines, environment, index, BTreeMap::new(alloc))?;
    // A list without conflicts shows nothing.
    let nothing = Refutation::new(Seq::from_vec(Vec::new(alloc)));
    Ok(!check(&problem, &nothing))
}

fn of_refute(
    alloc: Global,
    lines: &ReqFile,
    environment: &Environment,
    index: &Snapshot,
) -> Result<bool, AllocError> {
    let problem = Problem::new(alloc, lines, environment, index, BTreeMap::new(alloc))?;
    match refute_singly(alloc, &problem, &mut Unwatched)? {
        Some(refutation) => Ok(check(&problem, &refutation)),
        // There is a solution.
        None => Ok(true),
    }
}

fn of_pylock(alloc: Global, bytes: &[u8]) -> Result<bool, pylock::Fault> {
    let lock = Lock::read(alloc, bytes)?;
    Ok(rises(lock.entries()))
}

fn of_states(
    alloc: Global,
    lines: ReqFile,
    environment: Environment,
    index: &Snapshot,
) -> Result<usize, AllocError> {
    let kept = BTreeMap::new(alloc);
    let name = TargetName::empty(alloc);
    let mut targets = Vec::new(alloc);
    targets.push(Unlocked {
        name,
        environment,
        kept,
    })?;
    match locked(
        alloc,
        lines,
        Seq::from_vec(targets),
        &Pool::whole(index),
        &Learning,
    )? {
        Some(state) => Ok(state.targets()[0].lock.entries().len()),
        None => Ok(0),
    }
}

fn of_edits(alloc: Global, state: &State, index: &Snapshot) -> Result<bool, Refusal> {
    let line = Text::copy_of(alloc, "d  # new")?;
    let edited = edit(
        alloc,
        state,
        &Edit::Add(line),
        &Pool::whole(index),
        &Learning,
    )?;
    let back = edited.change.inverse(alloc)?;
    Ok(back.apply(alloc, &edited.state)?.is_some())
}

fn of_journal(
    alloc: Global,
    lines: ReqFile,
    targets: Targets,
    index: &Snapshot,
) -> Result<bool, Refusal> {
    let mut session = Session::init(alloc, lines, targets, index, &Learning)?;
    let add = Edit::Add(Text::copy_of(alloc, "d  # new")?);
    let added = session.apply(alloc, &Command::Edit(add, Pool::whole(index)), &Learning);
    let undone = session.apply(alloc, &Command::Undo, &Learning);
    Ok(added == Reply::Done(1) && undone == Reply::Done(0))
}

fn of_commands(alloc: Global) -> Result<bool, AllocError> {
    let item = read_item(alloc, b"constrain flask >=2,<3", true)?;
    Ok(matches!(item, Some(Item::Edit(Edit::Constrain(_, _)))))
}

fn of_command_line(alloc: Global) -> Result<bool, RequestFault> {
    let words = ["reqlock", "--dir", "web", "undo"];
    let invocation = request(alloc, &words)?;
    Ok(invocation.dir == "web" && matches!(invocation.subcommand, Subcommand::Undo(_)))
}
