// Commands applied to a history, one or many.

ghost use Rattle.std.specs.Prelude.{◌≡◌, map, IfOk, OnErr};
ghost use Rattle.journal.specs.Changes.{parts_of};
ghost use Rattle.journal.specs.Commands.{Editing, Undoing, Redoing, asked_of};
ghost use Rattle.journal.specs.Histories.{ChangesAfter, RunWithChanges};
ghost use Rattle.journal.specs.Steps.{Step, Run};

use crate::commands::{Command, Reply};
use crate::history::History;
use edits::{Edit, Pool, Refusal, Resolver};
use lists::Seq;
use std::alloc::{AllocError, Global};

/// Applies one command. The lock of an edited state is the best solution, whatever the resolver.
pub fn apply<H: History, R: Resolver>(
    alloc: Global,
    history: &mut H,
    command: &Command<'_>,
    resolver: &R,
) -> Reply
    ensures step { Step (H.past history.old) (asked_of command.now) result (H.past history.new) }
    ensures changes { ChangesAfter (parts_of (H.past history.old) (H.changes history.old))
        (asked_of command.now) result (parts_of (H.past history.new) (H.changes history.new)) }
{
    match command {
        Command::Edit(edit, pool) => apply_edit(alloc, history, edit, pool, resolver),
        Command::Undo => apply_undo(alloc, history),
        Command::Redo => apply_redo(alloc, history),
    }
}

fn apply_edit<H: History, R: Resolver>(
    alloc: Global,
    history: &mut H,
    edit: &Edit,
    pool: &Pool<'_>,
    resolver: &R,
) -> Reply
    ensures step { Step (H.past history.old) (Editing edit.now pool.now) result (H.past
        history.new) }
    ensures changes { ChangesAfter (parts_of (H.past history.old) (H.changes history.old))
        (Editing edit.now pool.now) result
        (parts_of (H.past history.new) (H.changes history.new)) }
{
    match edits::edit(alloc, history.state(), edit, pool, resolver) {
        Ok(edited) => match history.push(alloc, edited) {
            Ok(()) => Reply::Done(history.cursor()),
            Err(AllocError) => Reply::Refused(Refusal::OutOfMemory),
        },
        Err(Refusal::NothingChanges) => Reply::Same,
        Err(refusal) => Reply::Refused(refusal),
    }
}

fn apply_undo<H: History>(alloc: Global, history: &mut H) -> Reply
    ensures step { Step (H.past history.old) Undoing result (H.past history.new) }
    ensures changes { H.changes history.new ≡ H.changes history.old }
{
    match history.undo(alloc) {
        Ok(()) => Reply::Done(history.cursor()),
        Err(refusal) => Reply::Refused(refusal),
    }
}

fn apply_redo<H: History>(alloc: Global, history: &mut H) -> Reply
    ensures step { Step (H.past history.old) Redoing result (H.past history.new) }
    ensures changes { H.changes history.new ≡ H.changes history.old }
{
    match history.redo(alloc) {
        Ok(()) => Reply::Done(history.cursor()),
        Err(refusal) => Reply::Refused(refusal),
    }
}

/// Applies the commands in turn and gives their replies. The lock of each edited state is the best
/// solution, whatever the resolver. The room for the replies is taken first, and where that is
/// refused no command is applied.
pub fn run<H: History, R: Resolver>(
    alloc: Global,
    history: &mut H,
    commands: &[Command<'_>],
    resolver: &R,
) -> Result<Seq<Reply>, AllocError>
    ensures run { IfOk result
        (λ replies. Run (H.past history.old) (map asked_of commands.now) replies (H.past
        history.new)) }
    ensures changes { IfOk result
        (λ replies. RunWithChanges (parts_of (H.past history.old) (H.changes history.old))
        (map asked_of commands.now) replies
        (parts_of (H.past history.new) (H.changes history.new))) }
    ensures kept { OnErr result (parts_of (H.past history.new) (H.changes history.new)
        ≡ parts_of (H.past history.old) (H.changes history.old)) }
{
    let mut replies = Vec::with_capacity(alloc, commands.len())?;
    for command in commands {
        let reply = apply(alloc, history, command, resolver);
        replies.push_reserved(reply);
    }
    Ok(Seq::from_vec(replies))
}
