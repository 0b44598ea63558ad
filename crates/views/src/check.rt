// What `check` prints: whether the files belong together, and whether the lock is that of the index at hand.

ghost use Rattle.std.specs.Io.KnownBytes.{Appends};
ghost use Rattle.std.specs.Prelude.{◌≡◌, IfErr, IfOk, IfSome, MatchOption, None, OnOk, codes, string_bytes};
ghost use Rattle.changes.specs.Changes.{ChangeParts};
ghost use Rattle.commands.specs.Replies.{text_of_reply};
ghost use Rattle.journal.specs.Past.{present};
ghost use Rattle.journal.specs.declared.commands.Reply.TheVariants.{Done};
ghost use Rattle.views.specs.Checked.{IsIfLines, IsUnmoved};
ghost use Rattle.views.specs.Views.{IsCurrent, IsOutOfDate, IsRelock, IsStale, StopsRelock, moves};

use crate::stray_locks::say_stray_locks;
use calls::Call;
use command_line::request::Format;
use commands::ReplyText;
use edits::{Change, Edit, Pool, Refusal, State, edit};
use files::StillFolder;
use files::saved_history::{saved_session, session_over};
use inputs::{Fault, HandedFiles};
use journal::{Reply, Session};
use phrases::Style;
use reports::print;
use resolve::RESOLVER;
use snapshot::Snapshot;
use std::alloc::{AllocError, Global};
use std::io::Write;
use stops::Stop;
use texts::check_json::{check_json, current_json};
use texts::diff_text::diff_text;

/// Prints the place of the present state, as the reply of a command that led to it would. Where an index is given,
/// prints whether a new lock over it would move something, and what. Answers the change of a new lock that would change
/// the digest of the index alone. Locks of no target are told first, where there are `errors` to tell them.
pub fn print_check<R: AllocGlobal, F: StillFolder, G: HandedFiles, O: Write, E: Write>(
    call: &mut Call<'_, R, O>,
    folder: &F,
    handed: &G,
    errors: Option<&mut E>,
    index: Option<&str>,
    format: Format,
) -> Result<Option<Change>, Stop> {
    let alloc = call.rt.alloc();
    match index {
        None => {
            let session = saved_session(folder)?;
            tell_strays(folder, &session, errors)?;
            print_place(alloc, session.cursor(), format, &mut call.output)?;
            Ok(None)
        }
        Some(index) => {
            let (session, snapshot) = session_over(folder, handed, index)?;
            tell_strays(folder, &session, errors)?;
            let style = call.style;
            print_current(alloc, &session, &snapshot, format, style, &mut call.output)
        }
    }
}

fn tell_strays<F: StillFolder, E: Write>(
    folder: &F,
    session: &Session,
    errors: Option<&mut E>,
) -> Result<(), Fault> {
    match errors {
        Some(errors) => say_stray_locks(folder, session.state().targets(), errors),
        None => Ok(()),
    }
}

fn print_place<O: Write>(
    alloc: Global,
    place: usize,
    format: Format,
    output: &mut O,
) -> Result<(), Stop>
    ensures { OnOk result (IsIfLines format (Appends (O.contents output.old)
        (O.contents output.new) (text_of_reply (Done place)))) }
{
    match format {
        Format::Lines => {
            let mut text = ReplyText::new(alloc)?;
            text.set(&Reply::Done(place));
            Ok(print(output, text.as_bytes())?)
        }
        Format::Json => Ok(print(output, check_json(alloc, place)?.as_bytes())?),
    }
}

/// Prints that the lock is current over an index, and answers the change of a new lock that would change the digest of
/// the index alone. A lock that isn't current is told by the stop, which has its own status.
pub fn print_current<O: Write>(
    alloc: Global,
    session: &Session,
    snapshot: &Snapshot,
    format: Format,
    style: Style,
    output: &mut O,
) -> Result<Option<Change>, Stop>
    ensures current { IfOk result (λ change. IfSome (present session.now.past)
        (λ state. IsCurrent state snapshot.now change)) }
    ensures printed { OnOk result (IsIfLines format
        (Appends (O.contents output.old) (O.contents output.new) (codes "current\n"))) }
    ensures stale { IfErr result (λ stop. IsStale stop → IfSome (present session.now.past)
        (λ state. (change : ChangeParts) × IsOutOfDate state snapshot.now change)) }
{
    let change = relock_change(alloc, session.state(), snapshot)?;
    let text = current_text(alloc, session.cursor(), change.as_ref(), format, style)?;
    match change {
        Some(change) => {
            if moves(&change) {
                return Err(Stop::Stale(text));
            }
            print(output, text.as_bytes())?;
            Ok(Some(change))
        }
        None => {
            print(output, text.as_bytes())?;
            Ok(None)
        }
    }
}

/// Whether a change moves lines or entries, and not the digest of the index alone.
fn moves(change: &Change) -> bool
    ensures { result ≡ moves change.now }
{
    !(change.splices().is_empty() && change.entries().is_empty())
}

fn current_text(
    alloc: Global,
    place: usize,
    change: Option<&Change>,
    format: Format,
    style: Style,
) -> Result<String, AllocError>
    ensures { IfOk result (λ text. IsUnmoved change.entry
        → IsIfLines format (string_bytes text ≡ codes "current\n")) }
{
    let moved = match change {
        Some(change) if moves(change) => Some(change),
        _ => None,
    };
    let is_another_index = match change {
        Some(change) => change.digests().is_some(),
        None => false,
    };
    match (format, moved) {
        (Format::Json, _) => current_json(alloc, place, moved, is_another_index),
        (Format::Lines, None) => String::from_str(alloc, "current\n"),
        (Format::Lines, Some(change)) => {
            let mut text = String::from_str(alloc, "stale\n")?;
            let diff = diff_text(alloc, change, style)?;
            text.push_str(diff.as_str())?;
            Ok(text)
        }
    }
}

/// What a new lock over the index would change; nothing where it would change nothing.
pub fn relock_change(
    alloc: Global,
    state: &State,
    snapshot: &Snapshot,
) -> Result<Option<Change>, Stop>
    ensures change { IfOk result (λ change. MatchOption change
        (IsCurrent state.now snapshot.now None)
        (IsRelock state.now snapshot.now)) }
    ensures refused { IfErr result (StopsRelock state.now snapshot.now) }
{
    match edit(
        alloc,
        state,
        &Edit::Relock,
        &Pool::whole(snapshot),
        &RESOLVER,
    ) {
        Ok(edited) => Ok(Some(edited.change)),
        Err(Refusal::NothingChanges) => Ok(None),
        Err(refusal) => Err(Stop::from(refusal)),
    }
}
