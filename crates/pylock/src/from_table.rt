// The whole table of a lock, read key by key.

ghost use Rattle.std.specs.Prelude.{◌≡◌, ◌⊎◌, IfOk, codes, option_and_then, option_map, true};
ghost use Rattle.lists.specs.Answers.{Answers};
ghost use Rattle.toml.specs.Data.{as_array, as_str, get_member};
ghost use Rattle.toml.specs.View.{items_view, table_view};
ghost use Rattle.pylock.specs.Flaws.{Gives, found};
ghost use Rattle.pylock.specs.Forms.{unknown_in};
ghost use Rattle.pylock.specs.Locks.{are_entries};
ghost use Rattle.pylock.specs.LockOfTable.{at_key, creator_in, entries_in, environment_in, fault_at, format_of, if_known, in_order, lock_in, lock_keys, only_text, tool_in};
ghost use Rattle.pylock.specs.Tables.{table_of};
ghost use Rattle.pylock.specs.declared.fault.Fault.TheVariants as faults;

use crate::canonical_texts::lower_digest;
use crate::entry::Entry;
use crate::fault::Fault;
use crate::flaw::Flaw;
use crate::forms::{each, needed_at, table_with, text_at, unknown_key, value_at};
use crate::lock::Lock;
use lists::{Seq, Text, rises};
use std::alloc::Global;
use toml::{Table, Value};

/// The fault of a flaw inside the value of `key`.
fn fault_at(alloc: Global, key: &str, flaw: Flaw) -> Fault
    ensures { (result ≡ faults.OutOfMemory) ⊎ (result ≡ fault_at key.now flaw) }
{
    match flaw {
        Flaw::OutOfMemory => Fault::OutOfMemory,
        Flaw::OtherForm => match Text::copy_of(alloc, key) {
            Ok(key) => Fault::Shape(key),
            Err(_) => Fault::OutOfMemory,
        },
    }
}

/// What was read of the value of `key`.
fn at_key<T>(alloc: Global, key: &str, read: Result<T, Flaw>) -> Result<T, Fault>
    ensures { Answers faults.OutOfMemory (at_key key.now read) result }
{
    match read {
        Ok(found) => Ok(found),
        Err(flaw) => Err(fault_at(alloc, key, flaw)),
    }
}

/// Checks that the format is version 1.0.
fn check_format(alloc: Global, table: &Table) -> Result<(), Fault>
    ensures { Answers faults.OutOfMemory (format_of (option_and_then as_str (get_member (codes
        "lock-version") (table_view table.now)))) result }
{
    match value_at("lock-version", table).and_then(Value::as_str) {
        Some("1.0") => Ok(()),
        Some(_) => Err(Fault::VersionUnsupported),
        None => Err(fault_at(alloc, "lock-version", Flaw::OtherForm)),
    }
}

/// Checks that the lock is of this tool.
fn check_creator(table: &Table) -> Result<(), Flaw>
    ensures { Gives (λ u. u) (creator_in (get_member (codes "created-by") (table_view table.now)))
        result }
{
    match value_at("created-by", table).and_then(Value::as_str) {
        Some("reqlock") => Ok(()),
        _ => Err(Flaw::OtherForm),
    }
}

/// The items of the array at `key`.
fn array_at<'t>(key: &str, table: &'t Table) -> Result<&'t [Value], Flaw>
    ensures { Gives (λ vs. items_view vs.now) (found (option_and_then as_array (get_member key.now
        (table_view table.now)))) result }
{
    match value_at(key, table).and_then(Value::as_array) {
        Some(values) => Ok(values.as_slice()),
        None => Err(Flaw::OtherForm),
    }
}

/// The one text of an array.
fn only_text(values: &[Value]) -> Option<&str>
    ensures { option_map (λ t. t.now) result ≡ only_text (items_view values.now) }
{
    if values.len() != 1 {
        return None;
    }
    values[0].as_str()
}

/// The text of the lock's environment.
#[tactic(auto, unfolding(crate::specs::LockOfTable::environment_in))]
fn environment_at(alloc: Global, table: &Table) -> Result<Text, Flaw>
    ensures { Gives (λ t. t) (environment_in (get_member (codes "environments") (table_view
        table.now))) result }
{
    match only_text(array_at("environments", table)?) {
        Some(text) => Ok(Text::copy_of(alloc, text)?),
        None => Err(Flaw::OtherForm),
    }
}

/// The entries, in the order of their names.
#[tactic(auto, unfolding(crate::specs::LockOfTable::entries_in))]
fn entries_at(alloc: Global, table: &Table) -> Result<Seq<Entry>, Flaw>
    ensures entries { Gives
        (λ es. es) (entries_in (get_member (codes "packages") (table_view table.now))) result }
    ensures order { IfOk result (λ es. are_entries es ≡ true) }
{
    let entries: Vec<Entry> = each(alloc, array_at("packages", table)?)?;
    if !rises(entries.as_slice()) {
        return Err(Flaw::OtherForm);
    }
    Ok(Seq::from_vec(entries))
}

/// The digest of the index.
#[tactic(auto, unfolding(crate::specs::LockOfTable::tool_in))]
fn snapshot_at(alloc: Global, table: &Table) -> Result<[u8; 32], Flaw>
    ensures { Gives (λ d. d) (tool_in (get_member (codes "tool") (table_view table.now))) result }
{
    let tools = table_with(&["reqlock"], needed_at("tool", table)?)?;
    let own = table_with(&["snapshot"], needed_at("reqlock", tools)?)?;
    lower_digest(alloc, text_at("snapshot", own)?)
}

/// Checks that no other key is there.
fn check_keys(alloc: Global, table: &Table) -> Result<(), Fault>
    ensures { Answers faults.OutOfMemory (if_known (unknown_in lock_keys (table_view table.now)))
        result }
{
    match unknown_key(
        &[
            "created-by",
            "environments",
            "lock-version",
            "packages",
            "tool",
        ],
        table,
    ) {
        Some(key) => Err(fault_at(alloc, key, Flaw::OtherForm)),
        None => Ok(()),
    }
}

/// The lock whose table this is, or the first fault.
#[tactic(auto, unfolding(crate::specs::LockOfTable::lock_in))]
fn lock_in(alloc: Global, table: &Table) -> Result<Lock, Fault>
    ensures { Answers faults.OutOfMemory (lock_in (table_view table.now)) result }
{
    check_format(alloc, table)?;
    let environment = at_key(alloc, "environments", environment_at(alloc, table))?;
    at_key(alloc, "created-by", check_creator(table))?;
    let entries = at_key(alloc, "packages", entries_at(alloc, table))?;
    let snapshot = at_key(alloc, "tool", snapshot_at(alloc, table))?;
    check_keys(alloc, table)?;
    Ok(Lock::in_order(environment, snapshot, entries))
}

impl Lock {
    /// The lock whose table this is. Keys of the whole table are tested in the order `lock-version`,
    /// `environments`, `created-by`, `packages`, `tool`, and then come those that have no place
    /// there. `VersionUnsupported` where `lock-version` is another text than `1.0`; else `Shape`
    /// with the first key that is missing or whose value has another form, inside too.
    pub fn from_table(alloc: Global, table: &Table) -> Result<Lock, Fault>
        ensures answers { Answers faults.OutOfMemory (lock_in (table_view table.now)) result }
        ensures exact { IfOk result (λ l. table_view table.now ≡ table_of l) }
    {
        let lock = lock_in(alloc, table)?;
        Ok(lock)
    }
}
