// How a call ends that saves: what its command led to is saved, and its reply is printed.

ghost use Rattle.std.specs.Io.KnownBytes.{Appends};
ghost use Rattle.std.specs.Prelude.{IfErr, OnOk};
ghost use Rattle.commands.specs.Replies.{is_accepted};
ghost use Rattle.files.specs.Places.{AllAre, AreInPlace, bytes_read};
ghost use Rattle.folder.specs.Calls.{Ran};
ghost use Rattle.saves.specs.Called.{IsFaultOfSaving, LeavesFor};
ghost use Rattle.saves.specs.Tied.Applying.{IsSavingFor};

use commands::is_accepted;
use files::{HistoryFolder, SavedFiles};
use journal::{Reply, Session};
use reports::print;
use std::io::Write;
use stops::Stop;

/// Saves a history over the files that were read, where a command was accepted, and prints its reply.
pub(crate) fn save_and_print<F: HistoryFolder, O: Write>(
    output: &mut O,
    folder: &mut F,
    files: &SavedFiles,
    session: &Session,
    reply: &Reply,
    text: &[u8],
) -> Result<(), Stop>
    requires { AllAre (F.held folder.old) (F.may_leave folder.old)
        (λ h. AreInPlace h (bytes_read files.now)) }
    ensures said { OnOk result
        (Appends (O.contents output.old) (O.contents output.new) text.now) }
    ensures left { OnOk result (Ran F.held F.may_leave F.moment F.left_since F.faults
        (LeavesFor (is_accepted reply.now) files.now session.now)
        (IsSavingFor (is_accepted reply.now) files.now session.now)
        folder.old folder.new) }
    ensures any_moment { Ran F.held F.may_leave F.moment F.left_since F.faults
        (IsSavingFor (is_accepted reply.now) files.now session.now)
        (IsSavingFor (is_accepted reply.now) files.now session.now) folder.old folder.new }
    ensures fault { IfErr result IsFaultOfSaving }
{
    if is_accepted(reply) {
        files.rewrite(folder, session)?;
    }
    Ok(print(output, text)?)
}
