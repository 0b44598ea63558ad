// Edits that are made only where they are needed.

ghost use Rattle.std.specs.Prelude.{◌↔◌, IsTrue};
ghost use Rattle.commands.specs.Needed.{IsApplied, IsOfIndexAlone};
ghost use Rattle.journal.specs.Commands.{asked_of};

use edits::Change;
use journal::{Command, Reply, Session};
use resolve::RESOLVER;
use std::alloc::Global;

/// Does one command. Where edits are made only if they are needed, one that changes no line, no target and no
/// locked entry is answered by `Same`, though the index at hand is another one. The history is to be saved where the
/// reply is `Done`.
pub fn apply_command(
    alloc: Global,
    session: &mut Session,
    command: &Command<'_>,
    only_if_needed: bool,
) -> Reply
    ensures { IsApplied only_if_needed session.old.past (asked_of command.now) result session.new.past }
{
    let reply = session.apply(alloc, command, &RESOLVER);
    if !only_if_needed {
        return reply;
    }
    match command {
        Command::Edit(_, _) => match reply {
            Reply::Done(step) => {
                if is_of_index_alone(session.change(step)) {
                    return Reply::Same;
                }
                Reply::Done(step)
            }
            Reply::Same => Reply::Same,
            Reply::Refused(refusal) => Reply::Refused(refusal),
        },
        Command::Undo | Command::Redo => reply,
    }
}

/// Whether a change has no line, no target and no locked entry.
fn is_of_index_alone(change: &Change) -> bool
    ensures { IsTrue result ↔ IsOfIndexAlone change.now }
{
    change.splices().is_empty() && change.targets().is_empty() && change.entries().is_empty()
}
