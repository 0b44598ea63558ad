// Rows of histories.

use crate::background::Background;
use crate::growing_text::GrowingText;
use crate::notation::owned;
use crate::state_texts::{change_text, push_lock};
use commands::{Item, ReplyText, read_item};
use edits::{Change, Pool, Refusal, ReqFile, State};
use journal::{Command, Learning, Reply, Session};
use std::alloc::Global;

/// A reply, as a program prints it without the LF.
fn printed(alloc: Global, reply: &Reply) -> Option<String> {
    let mut printed = ReplyText::new(alloc).ok()?;
    printed.set(reply);
    let bytes = Vec::from_slice(alloc, printed.as_bytes()).ok()?;
    let mut text = String::from_utf8(bytes).ok()?;
    text.pop();
    Some(text)
}

/// Pushes a reply as it is printed, and behind a refusal how it is told.
fn push_reply(alloc: Global, text: &mut GrowingText, reply: &Reply) -> Option<()> {
    text.push_str(printed(alloc, reply)?.as_str());
    if let Reply::Refused(refusal) = reply {
        write!(text, " ({refusal})");
    }
    Some(())
}

/// Replies that no row leads to.
pub fn others(alloc: Global) -> Option<String> {
    let mut text = GrowingText::new(alloc);
    for reply in [
        Reply::Done(usize::MAX),
        Reply::Refused(Refusal::NothingChanges),
        Reply::Refused(Refusal::OutOfMemory),
        Reply::Refused(Refusal::BadCommand),
    ] {
        push_reply(alloc, &mut text, &reply)?;
        text.push_str(";");
    }
    text.told()
}

/// A session of the lines over the index.
pub fn session_of(
    alloc: Global,
    background: &Background,
    lines: &str,
) -> Option<Result<Session, Refusal>> {
    let lines = ReqFile::read(alloc, lines.as_bytes()).ok()?;
    let (targets, index) = (background.targets(alloc)?, background.index.as_ref()?);
    Some(Session::init(alloc, lines, targets, index, &Learning))
}

/// Begins a history of the lines: what is locked, or why there is none.
pub fn begin(alloc: Global, background: &mut Background, lines: &str) -> Option<String> {
    let mut text = GrowingText::new(alloc);
    match session_of(alloc, background, lines)? {
        Ok(session) => {
            text.push_str("ok 0:");
            push_lock(&mut text, session.state());
            background.session = Some(session);
        }
        Err(refusal) => push_reply(alloc, &mut text, &Reply::Refused(refusal))?,
    }
    text.told()
}

/// The command that a line tells.
fn command_of<'a>(alloc: Global, pool: &Pool<'a>, line: &str) -> Option<Command<'a>> {
    match read_item(alloc, line.as_bytes(), true).ok()? {
        Some(Item::Edit(edit)) => Some(Command::Edit(edit, pool.copy())),
        Some(Item::Undo) => Some(Command::Undo),
        Some(Item::Redo) => Some(Command::Redo),
        Some(Item::BadCommand) | None => None,
    }
}

/// The commands of the lines.
fn commands_of<'a>(alloc: Global, pool: &Pool<'a>, lines: &str) -> Option<Vec<Command<'a>>> {
    let mut commands = Vec::new(alloc);
    for line in lines.lines() {
        commands.push(command_of(alloc, pool, line)?).ok()?;
    }
    Some(commands)
}

/// The replies, and what is locked behind the last.
fn replies_text(alloc: Global, replies: &[Reply], state: &State) -> Option<String> {
    let mut text = GrowingText::new(alloc);
    let mut separator = "";
    for reply in replies {
        text.push_str(separator);
        push_reply(alloc, &mut text, reply)?;
        separator = "; ";
    }
    text.push_str(":");
    push_lock(&mut text, state);
    text.told()
}

/// Does the commands of the lines; whether no other version counts beside one that an edit keeps.
pub fn done(
    alloc: Global,
    background: &mut Background,
    lines: &str,
    only_kept: bool,
) -> Option<String> {
    let pool = Pool {
        snapshot: background.index.as_ref()?,
        only_kept,
    };
    let commands = commands_of(alloc, &pool, lines)?;
    let session = background.session.as_mut()?;
    let replies = session.run(alloc, commands.as_slice(), &Learning).ok()?;
    replies_text(alloc, replies.as_slice(), session.state())
}

/// The lines of the present state.
pub fn lines(alloc: Global, session: &Session) -> Option<String> {
    let lines = session.state().lines().bytes(alloc).ok()?;
    format!(in alloc; "{lines:?}").ok()
}

/// The change of the last step.
fn last_change(session: &Session) -> Option<&Change> {
    let steps = session.steps();
    if steps == 0 {
        return None;
    }
    Some(session.change(steps))
}

/// What the change of the last step is told as.
pub fn change(alloc: Global, session: &Session) -> Option<String> {
    change_text(alloc, last_change(session)?)
}

/// The lines and the lock that the change of the last step leads to from the first state of other lines.
pub fn applied(alloc: Global, background: &Background, lines: &str) -> Option<String> {
    let first = session_of(alloc, background, lines)?.ok()?;
    let change = last_change(background.session.as_ref()?)?;
    match change.apply(alloc, first.state()).ok()? {
        Some(state) => {
            let lines = state.lines().bytes(alloc).ok()?;
            let mut text = GrowingText::new(alloc);
            write!(text, "{lines:?}");
            push_lock(&mut text, &state);
            text.told()
        }
        None => owned(alloc, "nowhere"),
    }
}
