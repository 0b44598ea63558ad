// Changes.

use crate::scenarios::calls::play;
use crate::scenarios::clones::cloned;
use crate::scenarios::data::{read_indexes, state};
use crate::scenarios::told_commands::edit_of;
use edits::{Change, Pool, State, edit};
use journal::Plain;
use std::alloc::{AllocError, Global};
use std::io::Write;

/// Does something with the change of an edit: clones it, turns it round, or goes along it.
pub fn change_calls<W: Write>(alloc: Global, out: &mut W, told: &str) -> Option<()> {
    let (what, rest) = told.split_once(' ')?;
    let indexes = read_indexes(alloc)?;
    let mut state = state(alloc, &indexes)?;
    let edited = edit(
        alloc,
        &state,
        &edit_of(alloc, rest)?,
        &Pool::whole(&indexes.later),
        &Plain,
    );
    let change = edited.ok()?.change;
    match what {
        "clone" => cloned(alloc, out, change),
        "inverse" => turned(alloc, out, change),
        "apply" => play(alloc, out, &mut state, |state| change.apply(alloc, state)),
        "carry" => play(
            alloc,
            out,
            &mut state,
            |state| carried(alloc, &change, state),
        ),
        _ => None,
    }
}

fn turned<W: Write>(alloc: Global, out: &mut W, mut change: Change) -> Option<()> {
    play(alloc, out, &mut change, |change| change.inverse(alloc))
}

/// Whether the change leads somewhere; then the state is moved along it.
fn carried(alloc: Global, change: &Change, state: &mut State) -> Result<bool, AllocError> {
    match change.apply(alloc, &*state)? {
        Some(_) => {
            change.carry(alloc, state)?;
            Ok(true)
        }
        None => Ok(false),
    }
}
