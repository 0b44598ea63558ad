// States and the problems of their edits.

use crate::growing_text::GrowingText;
use crate::scenarios::calls::{play, surely};
use crate::scenarios::data::{read_indexes, state};
use crate::scenarios::told::Tell;
use crate::scenarios::told_commands::edit_of;
use crate::targets::{locks_of, targets_of};
use edits::{Edit, Pool, Refusal, Snapshot, State, problem_after};
use refutations::check;
use refute::refute_singly;
use resolve::Problem;
use search::Unwatched;
use std::alloc::Global;
use std::io::Write;

/// Does something with the state that a history begins with: makes it of clones of its parts, finds
/// the problem of an edit, or refutes that problem and checks the refutation.
pub fn states<W: Write>(alloc: Global, out: &mut W, told: &str) -> Option<()> {
    let (what, rest) = told.split_once(' ').unwrap_or((told, "relock"));
    let indexes = read_indexes(alloc)?;
    let (edit, mut state) = (edit_of(alloc, rest)?, state(alloc, &indexes)?);
    match what {
        "new" => again(alloc, out, &mut state),
        "problem" => asked(alloc, out, state, &edit, &indexes.now),
        "refute" => refuted(alloc, out, problem_of(alloc, &state, &edit, &indexes.now)?),
        "check" => checked(alloc, out, problem_of(alloc, &state, &edit, &indexes.now)?),
        _ => None,
    }
}

/// The problem of an edit.
fn problem_of<'a>(
    alloc: Global,
    state: &State,
    edit: &Edit,
    index: &'a Snapshot,
) -> Option<Problem<'a>> {
    let (_, problem) = problem_after(alloc, state, edit, &Pool::whole(index))
        .ok()?
        .into_vec()
        .pop()?;
    Some(problem)
}

/// A state, and the problem of an edit of it once that is found.
struct Question<'a> {
    state: State,
    problem: Option<Problem<'a>>,
}

impl<'a> Drop for Question<'a> {
    fn drop(self) {
        let Question {
            state: _,
            problem: _,
        } = self;
    }
}

impl<'a> Tell for Question<'a> {
    fn tell(&self, alloc: Global, text: &mut GrowingText) {
        self.state.tell(alloc, text);
        if let Some(problem) = &self.problem {
            text.push_str(" ");
            problem.tell(alloc, text);
        }
    }
}

/// Finds the problem of an edit. What a closure answers may borrow nothing, so the problem is told
/// behind the call, with the state.
fn asked<W: Write>(
    alloc: Global,
    out: &mut W,
    state: State,
    edit: &Edit,
    index: &Snapshot,
) -> Option<()> {
    let mut question = Question {
        state,
        problem: None,
    };
    play(alloc, out, &mut question, |question| {
        question.problem = problem_after(alloc, &question.state, edit, &Pool::whole(index))?
            .into_vec()
            .pop()
            .map(|(_, problem)| problem);
        surely(())
    })
}

fn again<W: Write>(alloc: Global, out: &mut W, state: &mut State) -> Option<()> {
    play(
        alloc,
        out,
        state,
        |state| -> Result<Option<State>, Refusal> {
            let lines = state.lines().clone()?;
            let targets = targets_of(alloc, &*state)?;
            Ok(State::new(alloc, lines, targets, locks_of(alloc, &*state)?)?)
        },
    )
}

fn refuted<W: Write>(alloc: Global, out: &mut W, mut problem: Problem<'_>) -> Option<()> {
    play(
        alloc,
        out,
        &mut problem,
        |problem| refute_singly(alloc, problem, &mut Unwatched),
    )
}

fn checked<W: Write>(alloc: Global, out: &mut W, mut problem: Problem<'_>) -> Option<()> {
    let refutation = refute_singly(alloc, &problem, &mut Unwatched).ok()??;
    play(
        alloc,
        out,
        &mut problem,
        |problem| surely(check(problem, &refutation)),
    )
}
