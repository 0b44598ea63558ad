// A history as texts: a requirements file, a lock file for each target, and a journal.

ghost use Rattle.std.specs.Prelude.{◌≡◌, ◌≤◌, ◌++◌, IfOk, IfSome, Ok, OnOk, Some, false, map, string_bytes, true};
ghost use Rattle.std.specs.BTreeMap.{insert_entry};
ghost use Rattle.std.specs.Cmp.Lexicographic.{slice_cmp};
ghost use Rattle.std.specs.List.{AllByRecursion};
ghost use Rattle.std.specs.Ordering.{nat_cmp};
ghost use Rattle.lists.specs.Rising.{rises};
ghost use Rattle.pylock.specs.LockOfTable.{lock_in_text};
ghost use Rattle.pylock.specs.Tables.{table_of};
ghost use Rattle.toml.specs.Parse.{parse_document};
ghost use Rattle.serde_json.specs.Data.{depth};
ghost use Rattle.serde_json.specs.Read.{max_depth};
ghost use Rattle.serde_json.specs.View.{view};
ghost use Rattle.serde_json.specs.Written.{has_float};
ghost use Rattle.markers.specs.Environment.{IsEnvironment};
ghost use Rattle.states.specs.TargetNames.{is_target_name};
ghost use Rattle.journal_format.specs.Tied.LawfulTargets.{IsLawfulStep, IsLawfulTarget as IsLawfulTargetChange};
ghost use Rattle.journal_format.specs.Written.{header_data, journal_of, line_of, step_data};
ghost use Rattle.journal.specs.Changes.{parts_of};
ghost use Rattle.journal.specs.Saved.{IsSaved, OpensAs, version_for};
ghost use Rattle.journal.specs.Tied.{AreWritten, IsWritten};
ghost use Rattle.journal.specs.Tied.LocksWritten.{AreLocked, IsLawfulTarget, IsInserted};

use crate::history::History;
use edits::laws::a_change_leads_to_one_state;
use edits::{Change, EntryChange, Environment, Target, TargetChange, TargetName};
use journal_format::{Header, HeaderTarget, JournalVersion, header_value, step_value};
use lists::{Seq, Text};
use pep440::laws::a_canonical_text_is_read;
use serde_json::Value;
use sha2::{Digest, Sha256};
use std::alloc::{AllocError, Global};
use std::collections::BTreeMap;

/// A history as texts: what the requirements file, the lock file of each target and the journal hold.
#[derive(Drop)]
pub struct Saved {
    /// The requirements file: the lines of the present state.
    pub requirements: Text,
    /// The lock of each target of the present state (PEP 751).
    pub locks: BTreeMap<TargetName, Text>,
    /// The journal: a header and a change for each step, a line each.
    pub journal: Text,
}

/// Appends a line: compact JSON and LF.
fn push_line(alloc: Global, lines: &mut String, value: &Value) -> Result<(), AllocError>
    requires plain { has_float (view value.now) ≡ false }
    requires depth { depth (view value.now) ≤ max_depth }
    ensures line { OnOk result (string_bytes lines.new
        ≡ string_bytes lines.old ++ line_of (view value.now)) }
    ensures written { OnOk result (IsWritten (view value.now)) }
{
    let text = value.to_string(alloc)?;
    lines.push_str(text.as_str())?;
    lines.push_str("\n")
}

/// The lock files of targets, and the targets as a header has them.
#[derive(Drop)]
struct Locked {
    locks: BTreeMap<TargetName, Text>,
    targets: Seq<HeaderTarget>,
}

/// The lock file of the target.
fn lock_text(alloc: Global, target: &Target) -> Result<Text, AllocError>
    ensures table { IfOk result (λ text. parse_document text ≡ Some (table_of target.now.lock)) }
    ensures reads_back { IfOk result (λ text. lock_in_text text ≡ Ok target.now.lock) }
{
    Ok(Text::from_string(target.lock.print(alloc)?))
}

/// Inserts a lock file among the others, by the name of its target.
fn insert_lock(
    locks: &mut BTreeMap<TargetName, Text>,
    name: TargetName,
    text: Text,
) -> Result<(), AllocError>
    ensures { OnOk result (locks.new.entries
        ≡ insert_entry (slice_cmp nat_cmp) locks.old.entries name text) }
{
    locks.insert(name, text)?;
    Ok(())
}

/// Inserts the lock file of the target among the others, and appends the target to those of a header.
fn insert_target(alloc: Global, locked: &mut Locked, target: &Target) -> Result<(), AllocError>
    ensures { OnOk result (IsInserted target.now locked.old locked.new) }
{
    let text = lock_text(alloc, target)?;
    let name = target.name.clone()?;
    let environment = target.environment.clone()?;
    locked.targets.push(HeaderTarget {
        name,
        environment,
        lock: Sha256::digest(text.as_str().as_bytes()),
    })?;
    insert_lock(&mut locked.locks, target.name.clone()?, text)
}

/// The lock file of each target, and the targets as a header has them.
fn locked_of(alloc: Global, targets: &[Target]) -> Result<Locked, AllocError>
    requires rising { rises (map (λ t. t.name) targets.now) ≡ true }
    ensures { IfOk result (AreLocked targets.now) }
{
    let mut locked = Locked {
        locks: BTreeMap::new(alloc),
        targets: Seq::new(alloc),
    };
    for place in 0..targets.len() {
        insert_target(alloc, &mut locked, &targets[place])?;
    }
    Ok(locked)
}

/// Appends the line of a header.
fn push_header(alloc: Global, lines: &mut String, header: &Header) -> Result<(), AllocError>
    ensures line { OnOk result (string_bytes lines.new
        ≡ string_bytes lines.old ++ line_of (header_data header.now)) }
    ensures written { OnOk result (IsWritten (header_data header.now)) }
{
    let value = header_value(alloc, header)?;
    push_line(alloc, lines, &value)
}

/// Appends the line of a step.
fn push_step(alloc: Global, lines: &mut String, change: &Change) -> Result<(), AllocError>
    ensures line { OnOk result (string_bytes lines.new
        ≡ string_bytes lines.old ++ line_of (step_data change.now)) }
    ensures written { OnOk result (IsWritten (step_data change.now)) }
{
    let value = step_value(alloc, change)?;
    push_line(alloc, lines, &value)
}

/// The journal of the history: its header, and a line for each step.
fn journal_of<H: History>(alloc: Global, history: &H, header: &Header) -> Result<String, AllocError>
    ensures lines { IfOk result (λ text. string_bytes text
        ≡ journal_of header.now (H.changes history.now)) }
    ensures written { OnOk result (AreWritten header.now (H.changes history.now)) }
{
    let mut lines = String::new(alloc);
    push_header(alloc, &mut lines, header)?;
    for place in 0..history.steps() {
        push_step(alloc, &mut lines, history.change(place + 1))?;
    }
    Ok(lines)
}

/// The version in which a history is saved: 3 where a step has targets, else 2.
fn version_of<H: History>(history: &H) -> JournalVersion
    ensures { result ≡ version_for (H.changes history.now) }
{
    for place in 0..history.steps() {
        if !history.change(place + 1).targets().is_empty() {
            return JournalVersion::Three;
        }
    }
    JournalVersion::Two
}

/// What holds of a target anyway.
fn recall_invariant(target: &Target)
    ensures { IsLawfulTarget target.now }
{
    target.name.recall_invariant();
    target.environment.recall_invariant();
}

/// What holds of targets anyway.
fn recall_invariants(targets: &[Target])
    ensures { AllByRecursion IsLawfulTarget targets.now }
{
    for place in 0..targets.len() {
        recall_invariant(&targets[place]);
    }
}

/// What holds of what is there of an environment anyway.
fn recall_environment(environment: &Option<Environment>)
    ensures { IfSome environment.now IsEnvironment }
{
    if let Some(environment) = environment {
        environment.recall_invariant();
    }
}

/// What holds of a change of a target anyway.
fn recall_target(change: &TargetChange)
    ensures { IsLawfulTargetChange change.now }
{
    change.name.recall_invariant();
    recall_environment(&change.old);
    recall_environment(&change.new);
}

/// What holds of changes of targets anyway.
fn recall_targets(changes: &[TargetChange])
    ensures { AllByRecursion IsLawfulTargetChange changes.now }
{
    for place in 0..changes.len() {
        recall_target(&changes[place]);
    }
}

/// What holds of the targets of changed entries anyway.
fn recall_entries(changes: &[EntryChange])
    ensures { AllByRecursion (λ c. is_target_name c.target ≡ true) changes.now }
{
    for place in 0..changes.len() {
        changes[place].target.recall_invariant();
    }
}

/// What holds of the targets of a change anyway.
fn recall_step(change: &Change)
    ensures { IsLawfulStep change.now }
{
    recall_targets(change.targets());
    recall_entries(change.entries());
}

/// The same of all steps of the history.
fn recall_steps<H: History>(history: &H)
    ensures { AllByRecursion IsLawfulStep (H.changes history.now) }
{
    for place in 0..history.steps() {
        recall_step(history.change(place + 1));
    }
}

/// The files of the history.
pub(crate) fn files_of<H: History>(alloc: Global, history: &H) -> Result<Saved, AllocError>
    ensures saved { IfOk result (λ saved. IsSaved
        (parts_of (H.past history.now) (H.changes history.now)) saved) }
    ensures opens { IfOk result (λ saved. OpensAs
        (parts_of (H.past history.now) (H.changes history.now)) saved) }
{
    a_change_leads_to_one_state();
    a_canonical_text_is_read();
    let state = history.state();
    state.recall_invariant();
    let given = state.targets();
    recall_invariants(given);
    recall_steps(history);
    let requirements = state.lines().bytes(alloc)?;
    let Locked { locks, targets } = locked_of(alloc, given)?;
    let header = Header {
        version: version_of(history),
        cursor: history.cursor() as u64,
        requirements: Sha256::digest(requirements.as_str().as_bytes()),
        steps: history.steps() as u64,
        targets,
    };
    let journal = Text::from_string(journal_of(alloc, history, &header)?);
    Ok(Saved {
        requirements,
        locks,
        journal,
    })
}
