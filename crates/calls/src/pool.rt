// What the versions of an edit are chosen from.

ghost use Rattle.std.specs.Prelude.{◌≡◌};

use command_line::request::EditOptions;
use edits::{Pool, Snapshot};

/// What the versions of an edit are chosen from, by the options that it is given.
pub fn pool_of<'s>(snapshot: &'s Snapshot, options: EditOptions<'_>) -> Pool<'s>
    ensures index { result.index ≡ snapshot.now }
    ensures kept { result.only_kept ≡ options.entry.keeps_locked }
{
    Pool {
        snapshot,
        only_kept: options.keeps_locked,
    }
}
