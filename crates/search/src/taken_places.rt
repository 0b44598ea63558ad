// What is taken, as a place or none for each name.

ghost use Rattle.std.specs.Prelude.{◌≡◌, ◌<◌, ℕ, IfOk, length};
ghost use Rattle.std.specs.Ordering.{nat_cmp};
ghost use Rattle.search.specs.Tied.Search.{taken_at, pins_of};
ghost use Rattle.search.specs.Solutions.{version_pinned};
ghost use Rattle.search.specs.Tied.Taken.{AreKnownFrames, TakesFirst};
ghost use Rattle.search.specs.Table.{place_in, IsAscending};

use crate::parts::{Frame, TableChoice};
use crate::table::Table;
use lists::Seq;
use std::alloc::{AllocError, Global};

/// Takes the choice of a frame, unless its name is taken.
pub fn take_frame(taken: &mut Vec<Option<usize>>, frame: Frame)
    requires { frame.name < length taken.old.items }
    ensures { TakesFirst taken.old.items taken.new.items frame }
{
    if taken[frame.name].is_none() {
        taken[frame.name] = Some(frame.place);
    }
}

/// What the frames of a search take: of two on one name, the first.
pub fn taken_of(
    alloc: Global,
    table: &Table,
    frames: &[Frame],
) -> Result<Vec<Option<usize>>, AllocError>
    requires { AreKnownFrames (length table.now.candidates) frames.now }
    ensures same { IfOk result (λ taken. (n : ℕ)
        → taken_at taken.items n ≡ version_pinned nat_cmp (pins_of frames.now) n) }
    ensures room { IfOk result (λ taken. length taken.items ≡ length table.now.candidates) }
{
    let mut taken = vec![in alloc; None; table.name_count()]?;
    for frame in frames {
        take_frame(&mut taken, *frame);
    }
    Ok(taken)
}

/// What is taken, as choices in the order of their names.
pub fn choices_taken(alloc: Global, taken: &[Option<usize>]) -> Result<Seq<TableChoice>, AllocError>
    ensures same { IfOk result (λ choices. (n : ℕ) → place_in choices n ≡ taken_at taken.now n) }
    ensures ascending { IfOk result (λ choices. IsAscending choices) }
{
    let mut choices = Vec::new(alloc);
    for name in 0..taken.len() {
        if let Some(place) = taken[name] {
            choices.push(TableChoice { name, place })?;
        }
    }
    Ok(Seq::from_vec(choices))
}

/// The choices of a search in the order of their names.
pub fn choices_of(
    alloc: Global,
    table: &Table,
    frames: &[Frame],
) -> Result<Seq<TableChoice>, AllocError>
    requires { AreKnownFrames (length table.now.candidates) frames.now }
    ensures same { IfOk result (λ choices. (n : ℕ)
        → place_in choices n ≡ version_pinned nat_cmp (pins_of frames.now) n) }
    ensures ascending { IfOk result (λ choices. IsAscending choices) }
{
    let taken = taken_of(alloc, table, frames)?;
    choices_taken(alloc, taken.as_slice())
}
