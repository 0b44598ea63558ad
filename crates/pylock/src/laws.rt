//! Laws of the table of a lock.

ghost use Rattle.std.specs.Prelude.{◌≡◌, Ok, ℕ, List, true};
ghost use Rattle.toml.specs.Data.{Members};
ghost use Rattle.pylock.specs.Forms.{keys_of, least_unknown, unknown_in};
ghost use Rattle.pylock.specs.Locks.{IsLock, LockParts};
ghost use Rattle.lists.specs.Rising.{rises};
ghost use Rattle.pylock.specs.LockOfTable.{file_keys, lock_in, lock_keys, package_keys};
ghost use Rattle.pylock.specs.Tables.{table_of};

use pep440::laws::a_canonical_text_is_read;

/// A table is read as a lock exactly where it is the table of that lock.
pub fn a_table_is_that_of_its_lock()
    ensures exact { (ms : Members) (l : LockParts) → lock_in ms ≡ Ok l → ms ≡ table_of l }
    ensures found { (l : LockParts) → IsLock l → lock_in (table_of l) ≡ Ok l }
{
    a_canonical_text_is_read();
}

/// The first unknown key of a table is the least key that isn't one of the known. The keys of a
/// table stand in the order of their bytes, and so do the known ones.
pub fn the_first_unknown_key_is_the_least()
    ensures least { (known : List (List ℕ)) (ms : Members)
        → rises known ≡ true → rises (keys_of ms) ≡ true
        → unknown_in known ms ≡ least_unknown known ms }
    ensures of_a_lock { rises lock_keys ≡ true }
    ensures of_a_package { rises package_keys ≡ true }
    ensures of_a_file { rises file_keys ≡ true }
{}
