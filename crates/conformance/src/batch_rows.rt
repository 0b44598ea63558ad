// Rows of batches over memory, whose reader or writer stops at its first call, at its second, and so on.

use crate::background::Background;
use crate::growing_text::GrowingText;
use crate::session_rows::session_of;
use crate::streams::{Narrow, Pieces};
use commands::Counted;
use commands::batch::{StreamFault, batch};
use edits::Pool;
use journal::Session;
use std::alloc::Global;

/// How often a stream is tried: no run of a row makes as many calls.
const MANY: usize = 200;

/// How the streams of a row behave.
pub struct Case<'a> {
    /// The lines of the file that the session begins with.
    pub lines: &'a str,
    pub input: &'a str,
    /// How many bytes a call reads or writes.
    pub most: usize,
    /// Whether the stream fails where it stops; else it moves no byte there.
    pub fails: bool,
}

impl<'a> Drop for Case<'a> {
    fn drop(self) {
        let Case {
            lines: _,
            input: _,
            most: _,
            fails: _,
        } = self;
    }
}

/// What a batch comes to, what it writes, where the session stands, and its lines.
fn told(
    alloc: Global,
    done: &Result<(), StreamFault>,
    written: Vec<u8>,
    session: &Session,
) -> Option<String> {
    let written = String::from_utf8(written).ok()?;
    let (cursor, steps) = (session.cursor(), session.steps());
    let lines = session.state().lines().bytes(alloc).ok()?;
    let mut text = GrowingText::new(alloc);
    write!(text, "{done:?} {written:?} {cursor} of {steps} {lines:?}");
    text.told()
}

/// Whether a stream stopped. None is called once more behind the call at which it stopped.
fn is_stopped(stops: usize) -> Option<bool> {
    match stops {
        0 => Some(false),
        1 => Some(true),
        _ => None,
    }
}

/// What a batch comes to whose reader stops behind so many calls, and whether it did.
fn read_once(
    alloc: Global,
    background: &Background,
    case: &Case<'_>,
    calls: usize,
) -> Option<(String, bool)> {
    let mut session = session_of(alloc, background, case.lines)?.ok()?;
    let mut source = Counted::new(Pieces {
        bytes: case.input.as_bytes(),
        most: case.most,
        calls_left: calls,
        fails: case.fails,
        stops: 0,
    });
    let mut sink = Counted::new(Vec::new(alloc));
    let index = background.index.as_ref()?;
    let done = batch(
        alloc,
        &mut source,
        &mut sink,
        &mut session,
        &Pool::whole(index),
    );
    let text = told(alloc, &done, sink.into_inner(), &session)?;
    Some((text, is_stopped(source.into_inner().stops)?))
}

/// What a batch comes to whose writer stops behind so many calls, and whether it did.
fn write_once(
    alloc: Global,
    background: &Background,
    case: &Case<'_>,
    calls: usize,
) -> Option<(String, bool)> {
    let mut session = session_of(alloc, background, case.lines)?.ok()?;
    let mut source = Counted::new(case.input.as_bytes());
    let mut sink = Counted::new(Narrow {
        taken: Vec::new(alloc),
        most: case.most,
        calls_left: calls,
        fails: case.fails,
        stops: 0,
    });
    let index = background.index.as_ref()?;
    let done = batch(
        alloc,
        &mut source,
        &mut sink,
        &mut session,
        &Pool::whole(index),
    );
    let Narrow {
        taken,
        most: _,
        calls_left: _,
        fails: _,
        stops,
    } = sink.into_inner();
    Some((told(alloc, &done, taken, &session)?, is_stopped(stops)?))
}

/// What each batch comes to, until the reader of one doesn't stop.
pub fn reads(alloc: Global, background: &Background, case: &Case<'_>) -> Option<String> {
    let mut answers = GrowingText::new(alloc);
    for calls in 0..MANY {
        let (answer, has_stopped) = read_once(alloc, background, case, calls)?;
        answers.push_str(answer.as_str());
        if !has_stopped {
            return answers.told();
        }
        answers.push_str("; ");
    }
    None
}

/// What each batch comes to, until the writer of one doesn't stop.
pub fn writes(alloc: Global, background: &Background, case: &Case<'_>) -> Option<String> {
    let mut answers = GrowingText::new(alloc);
    for calls in 0..MANY {
        let (answer, has_stopped) = write_once(alloc, background, case, calls)?;
        answers.push_str(answer.as_str());
        if !has_stopped {
            return answers.told();
        }
        answers.push_str("; ");
    }
    None
}
