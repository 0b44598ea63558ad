// The steps of a journal.

ghost use Rattle.std.specs.Prelude.{◌≡◌, ◌⊎◌, IfErr, IfOk, codes};
ghost use Rattle.changes.specs.Changes.{ChangeParts};
ghost use Rattle.journal_format.specs.Forms.{at, each, list_of, only_keys};
ghost use Rattle.journal_format.specs.Lines.{IsStepLine, digests_in, entry_change_in, splice_in, step_in, step_keys, step_of_line, target_change_in, target_changes_in, targeted, tells_targets};
ghost use Rattle.pylock.specs.Flaws.{Gives};
ghost use Rattle.pylock.specs.declared.flaw.Flaw.TheVariants as flaws;
ghost use Rattle.serde_json.specs.View.{items_view, view};

use crate::entries::entry_or_null;
use crate::forms::{
    Read, at, check, items_of, json_of, only_keys, pair_of, quadruple_of, triple_of, value_at,
};
use crate::header::{Header, JournalVersion};
use changes::{Change, DigestChange, EntryChange, Splice, TargetChange};
use lists::{Seq, Text};
use markers::{Environment, Name};
use pylock::Flaw;
use serde_json::Value;
use states::TargetName;
use std::alloc::Global;

impl Read for Splice {
    ghost reading = { splice_in };

    #[tactic(auto, unfolding(crate::specs::Lines::splice_in))]
    fn from_value(alloc: Global, value: &Value) -> Result<Splice, Flaw> {
        let (place, old, new) = triple_of(value)?;
        let place = u64::from_value(alloc, place)?;
        let old = Seq::<Text>::from_value(alloc, old)?;
        let new = Seq::<Text>::from_value(alloc, new)?;
        Ok(Splice { place, old, new })
    }
}

/// The name of an entry's target, and the entry's name, its old and its new form.
#[tactic(auto, unfolding(crate::specs::Lines::targeted))]
fn targeted(
    alloc: Global,
    version: JournalVersion,
    value: &Value,
) -> Result<(TargetName, &Value, &Value, &Value), Flaw>
    ensures { Gives (λ p. (p.0, view p.1.now, view p.2.now, view p.3.now)) (targeted version
        (view value.now)) result }
{
    match version {
        JournalVersion::One => {
            let (name, old, new) = triple_of(value)?;
            Ok((TargetName::empty(alloc), name, old, new))
        }
        JournalVersion::Two | JournalVersion::Three => {
            let (target, name, old, new) = quadruple_of(value)?;
            let target = TargetName::from_value(alloc, target)?;
            Ok((target, name, old, new))
        }
    }
}

/// The change of an entry that a value is, behind this header.
#[tactic(auto, unfolding(crate::specs::Lines::entry_change_in))]
fn entry_change_of(alloc: Global, header: &Header, value: &Value) -> Result<EntryChange, Flaw>
    ensures { Gives (λ c. c) (entry_change_in header.now (view value.now)) result }
{
    let (target, name, old, new) = targeted(alloc, header.version, value)?;
    check(header.may_name(&target))?;
    let name = Name::from_value(alloc, name)?;
    let old = entry_or_null(alloc, &name, old)?;
    let new = entry_or_null(alloc, &name, new)?;
    Ok(EntryChange {
        target,
        name,
        old,
        new,
    })
}

/// The changes of entries that an array's items are, behind this header.
fn entry_changes_of(
    alloc: Global,
    header: &Header,
    values: &[Value],
) -> Result<Vec<EntryChange>, Flaw>
    ensures { Gives (λ cs. cs.items) (each (entry_change_in header.now) (items_view values.now))
        result }
{
    let mut items = Vec::with_capacity(alloc, values.len())?;
    for place in 0..values.len() {
        let item = entry_change_of(alloc, header, &values[place])?;
        items.push(item)?;
    }
    Ok(items)
}

/// The changes of entries that stand in a step, behind this header.
fn entries_of(alloc: Global, header: &Header, step: &Value) -> Result<Seq<EntryChange>, Flaw>
    ensures { Gives (λ cs. cs) (at (codes "entries") (list_of (entry_change_in header.now))
        (view step.now)) result }
{
    let values = items_of(value_at("entries", step)?)?;
    Ok(Seq::from_vec(entry_changes_of(alloc, header, values)?))
}

impl Read for DigestChange {
    ghost reading = { digests_in };

    #[tactic(auto, unfolding(crate::specs::Lines::digests_in))]
    fn from_value(alloc: Global, value: &Value) -> Result<DigestChange, Flaw> {
        let (old, new) = pair_of(value)?;
        let old = <[u8; 32] as Read>::from_value(alloc, old)?;
        let new = <[u8; 32] as Read>::from_value(alloc, new)?;
        Ok(DigestChange { old, new })
    }
}

impl Read for TargetChange {
    ghost reading = { target_change_in };

    #[tactic(auto, unfolding(crate::specs::Lines::target_change_in))]
    fn from_value(alloc: Global, value: &Value) -> Result<TargetChange, Flaw> {
        let (name, old, new) = triple_of(value)?;
        let name = TargetName::from_value(alloc, name)?;
        let old = Option::<Environment>::from_value(alloc, old)?;
        let new = Option::<Environment>::from_value(alloc, new)?;
        Ok(TargetChange { name, old, new })
    }
}

/// Whether a step of the version tells of targets.
fn tells_targets(version: JournalVersion, step: &Value) -> bool
    ensures { result ≡ tells_targets version (view step.now) }
{
    match version {
        JournalVersion::Three => step.get("targets").is_some(),
        JournalVersion::One | JournalVersion::Two => false,
    }
}

/// Checks that a step has exactly its keys.
fn only_step_keys(tells: bool, step: &Value) -> Result<(), Flaw>
    ensures { Gives (λ u. u) (only_keys (step_keys tells) (view step.now)) result }
{
    if tells {
        return only_keys(&["entries", "lines", "snapshot", "targets"], step);
    }
    only_keys(&["entries", "lines", "snapshot"], step)
}

/// The changes of targets that stand in a step, one at least where it tells of some.
#[tactic(auto, unfolding(crate::specs::Lines::target_changes_in))]
fn targets_of(alloc: Global, tells: bool, step: &Value) -> Result<Seq<TargetChange>, Flaw>
    ensures { Gives (λ cs. cs) (target_changes_in tells (view step.now)) result }
{
    if !tells {
        return Ok(Seq::new(alloc));
    }
    let changes: Seq<TargetChange> = at(alloc, "targets", step)?;
    check(changes.len() != 0)?;
    Ok(changes)
}

/// The parts of a change.
#[derive(Drop)]
struct StepParts {
    splices: Seq<Splice>,
    targets: Seq<TargetChange>,
    entries: Seq<EntryChange>,
    digests: Option<DigestChange>,
}

/// The parts of the change that a value is, behind this header.
#[tactic(auto, unfolding(crate::specs::Lines::step_in))]
fn parts_of(alloc: Global, header: &Header, value: &Value) -> Result<StepParts, Flaw>
    ensures { Gives (λ p. record {
      splices = p.splices;
      targets = p.targets;
      entries = p.entries;
      digests = p.digests;
    }) (step_in header.now (view value.now)) result }
{
    let tells = tells_targets(header.version, value);
    only_step_keys(tells, value)?;
    let entries = entries_of(alloc, header, value)?;
    let splices: Seq<Splice> = at(alloc, "lines", value)?;
    let digests: Option<DigestChange> = at(alloc, "snapshot", value)?;
    let targets = targets_of(alloc, tells, value)?;
    Ok(StepParts {
        splices,
        targets,
        entries,
        digests,
    })
}

/// The parts of the change that a line is behind this header, without its LF.
#[tactic(auto, unfolding(crate::specs::Lines::step_of_line))]
fn parts_of_line(alloc: Global, header: &Header, line: &[u8]) -> Result<StepParts, Flaw>
    ensures { Gives (λ p. record {
      splices = p.splices;
      targets = p.targets;
      entries = p.entries;
      digests = p.digests;
    }) (step_of_line header.now line.now) result }
{
    let value = json_of(alloc, line)?;
    parts_of(alloc, header, &value)
}

/// The minimal change that a line is behind this header, without its LF.
pub fn change_of_line(alloc: Global, header: &Header, line: &[u8]) -> Result<Change, Flaw>
    ensures change { IfOk result (λ change. IsStepLine header.now line.now change) }
    ensures none { IfErr result (λ flaw. (flaw ≡ flaws.OutOfMemory)
        ⊎ ((change : ChangeParts) → IsStepLine header.now line.now change → ⊥)) }
{
    let StepParts {
        splices,
        targets,
        entries,
        digests,
    } = parts_of_line(alloc, header, line)?;
    match Change::new(splices, targets, entries, digests) {
        Some(change) => {
            change.recall_invariant();
            Ok(change)
        }
        None => Err(Flaw::OtherForm),
    }
}
