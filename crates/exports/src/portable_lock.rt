// A lock for all environments in which a marker holds, or for all there are.

ghost use Rattle.std.specs.Prelude.{◌≡◌, IfOk, Ok, Some, codes, string_bytes};
ghost use Rattle.toml.specs.Parse.{parse_document};
ghost use Rattle.pylock.specs.LockOfTable.{lock_in_text};
ghost use Rattle.pylock.specs.Tables.{table_of};
ghost use Rattle.exports.specs.WithoutMember.{without_member};

use lists::Text;
use pylock::Lock;
use std::alloc::{AllocError, Global};

/// The TOML text of the lock for the environments in which the marker holds. It reads as the lock with this marker, and
/// with the digest and the packages that the lock has.
pub fn portable_text(alloc: Global, lock: &Lock, marker: &str) -> Result<String, AllocError>
    ensures table { IfOk result (λ text. parse_document (string_bytes text)
        ≡ Some (table_of (record lock.now { environment = marker.now }))) }
    ensures reads { IfOk result (λ text. lock_in_text (string_bytes text)
        ≡ Ok (record lock.now { environment = marker.now })) }
{
    lock.recall_invariant();
    let (_, snapshot, entries) = lock.clone()?.into_parts();
    let marker = Text::copy_of(alloc, marker)?;
    let other = Lock::in_order(marker, snapshot, entries);
    other.print(alloc)
}

/// The same for all environments: a lock without a marker, which PEP 751 takes for one that any environment meets.
pub fn unbound_text(alloc: Global, lock: &Lock) -> Result<String, AllocError>
    ensures table { IfOk result (λ text. parse_document (string_bytes text)
        ≡ Some (without_member (codes "environments") (table_of lock.now))) }
{
    let mut table = lock.to_table(alloc)?;
    drop(table.remove("environments"));
    match toml::table_to_string(alloc, &table) {
        Ok(text) => Ok(text),
        Err(toml::ser::Error::OutOfMemory) => Err(AllocError),
        Err(toml::ser::Error::DateInvalid) => unreachable!(),
    }
}
