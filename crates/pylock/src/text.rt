// The TOML text of a lock.

ghost use Rattle.std.specs.Prelude.{◌≡◌, ◌≤◌, ◌⊎◌, Ok, Err, Some, IfOk, IfErr, string_bytes, true};
ghost use Rattle.std.specs.Str.{is_utf8};
ghost use Rattle.lists.specs.Answers.{Answers};
ghost use Rattle.toml.specs.Data.{members_depth, members_have_valid_dates};
ghost use Rattle.toml.specs.Parse.{parse_document};
ghost use Rattle.toml.specs.View.{table_view};
ghost use Rattle.pylock.specs.LockOfTable.{lock_in_text, toml_of};
ghost use Rattle.pylock.specs.Tables.{table_of};
ghost use Rattle.pylock.specs.declared.fault.Fault.TheVariants as faults;

use crate::fault::Fault;
use crate::lock::Lock;
use pep440::laws::a_canonical_text_is_read;
use std::alloc::{AllocError, Global};
use toml::Table;

/// The TOML table of the bytes.
#[tactic(auto, unfolding(crate::specs::LockOfTable::toml_of))]
fn toml_of(alloc: Global, bytes: &[u8]) -> Result<Table, Fault>
    ensures table { IfOk result (λ t. toml_of bytes.now ≡ Ok (table_view t)) }
    ensures refused { IfErr result (λ e. (e ≡ faults.OutOfMemory) ⊎ (toml_of bytes.now ≡ Err e)) }
{
    match toml::table_from_slice(alloc, bytes) {
        Ok(table) => Ok(table),
        Err(error) => {
            if error.is_memory() {
                return Err(Fault::OutOfMemory);
            }
            Err(Fault::NotToml)
        }
    }
}

/// What holds of every text: its bytes are UTF-8.
fn is_utf8(text: &str)
    ensures { is_utf8 text.now ≡ true }
{
    let _text = text;
}

/// The TOML text of a table that is no deeper than `toml` reads, and has no date that can't be
/// written.
pub(crate) fn printed(alloc: Global, table: &Table) -> Result<String, AllocError>
    requires depth { members_depth (table_view table.now) ≤ 80 }
    requires dates { members_have_valid_dates (table_view table.now) ≡ true }
    ensures { IfOk result
        (λ text. parse_document (string_bytes text) ≡ Some (table_view table.now)) }
{
    match toml::table_to_string(alloc, table) {
        Ok(text) => Ok(text),
        Err(toml::ser::Error::OutOfMemory) => Err(AllocError),
        Err(toml::ser::Error::DateInvalid) => unreachable!(),
    }
}

impl Lock {
    /// The TOML text of the lock. It is read back as this lock; the order of its keys is no promise.
    pub fn print(&self, alloc: Global) -> Result<String, AllocError>
        ensures table { IfOk result
            (λ text. parse_document (string_bytes text) ≡ Some (table_of self.now)) }
        ensures reads_back { IfOk result (λ text. lock_in_text (string_bytes text) ≡ Ok self.now) }
    {
        self.recall_invariant();
        a_canonical_text_is_read();
        let table = self.to_table(alloc)?;
        let text = printed(alloc, &table)?;
        is_utf8(text.as_str());
        Ok(text)
    }

    /// The lock whose TOML text this is (PEP 751): `NotToml` where the bytes aren't UTF-8 or no
    /// TOML, else as `from_table` answers for the table.
    #[tactic(auto, unfolding(crate::specs::LockOfTable::lock_in_text))]
    pub fn read(alloc: Global, bytes: &[u8]) -> Result<Lock, Fault>
        ensures answers { Answers faults.OutOfMemory (lock_in_text bytes.now) result }
    {
        let table = toml_of(alloc, bytes)?;
        Lock::from_table(alloc, &table)
    }
}
