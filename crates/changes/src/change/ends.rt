// The places behind splices.

ghost use Rattle.std.specs.Prelude.{◌≡◌, ◌^◌, ◌<◌};
ghost use Rattle.changes.specs.Tied.Ends.{ends_of, place_behind};

use crate::change::parts::Splice;

/// The places behind a splice, in the old lines and in the new ones. A place above 2 ^ 64 - 1, behind
/// which none can stand, is held as 2 ^ 64 - 1.
#[derive(Clone, Copy)]
pub(crate) struct Ends {
    pub(crate) old: u64,
    pub(crate) new: u64,
}

/// The places behind a splice whose new lines stand at this place.
pub(crate) fn ends_of(splice: &Splice, place: u64) -> Ends
    ensures ends { result ≡ ends_of splice.now place }
    ensures fits { splice.now.place < 2 ^ 64 }
{
    Ends {
        old: splice.place.saturating_add(splice.old.len() as u64),
        new: place.saturating_add(splice.new.len() as u64),
    }
}

/// The place in the new lines of a splice behind others, where a kept line stands before it and the
/// place fits.
pub(crate) fn place_behind(ends: Ends, splice: &Splice) -> Option<u64>
    ensures { result ≡ place_behind ends splice.now }
{
    if splice.place <= ends.old {
        return None;
    }
    ends.new.checked_add(splice.place - ends.old)
}
