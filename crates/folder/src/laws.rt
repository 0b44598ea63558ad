//! What follows of the definitions.

ghost use Rattle.std.specs.Prelude.{◌≡◌, ◌⊎◌, ℕ, List, false, true};
ghost use Rattle.folder.specs.Held.{Held, is_among};
ghost use Rattle.folder.specs.Repairs.{AreAmong, AreBeside, HasSamePlaces, IsBetween, IsEnding, IsMoveOf, LeftParts};
ghost use Rattle.folder.specs.Saves.{AreApart, IsUnderWay, NewFileParts, names_of};

/// A save, wherever it is stopped, leaves all places as they were, or each file as it was or as it is after the save.
pub fn a_stopped_save_leaves_each_file()
    ensures law { (files : List NewFileParts) (going : List (List ℕ)) (old new : Held)
        → AreApart files
        → ((name : List ℕ) → is_among going name ≡ true → is_among (names_of files) name ≡ false)
        → IsUnderWay files going old new
        → HasSamePlaces old new ⊎ IsBetween files going old new }
{}

/// And so does its repair, which does what is left of it, wherever it is stopped.
pub fn a_stopped_repair_leaves_each_file()
    ensures law { (files : List NewFileParts) (going : List (List ℕ)) (old was is : Held)
        (left : LeftParts)
        → ((name : List ℕ) → is_among going name ≡ true → is_among (names_of files) name ≡ false)
        → AreAmong left.going going → AreAmong left.names (names_of files) → AreBeside left.names was
        → IsBetween files going old was → IsEnding left was is → IsBetween files going old is }
{}

/// A repair leaves in each place what it held, or what stood beside it, or nothing.
pub fn a_repair_moves()
    ensures law { (left : LeftParts) (old new : Held) → IsEnding left old new → IsMoveOf old new }
{}
