//! Laws of changes, each the contract of a function that does nothing.

ghost use Rattle.changes.specs.Changes.{AChangeCanBeTakenBack, BackAndBackIsTheChange};
ghost use Rattle.changes.specs.Laws.{AChangeLeadsToOneState, AChangeLeadsWhereItCarries, ADifferenceCanBeTakenBack, EqualLinesDifferNowhere, TwoStatesHaveOneDifference};

/// A minimal change that leads from one state to another can be taken back: its inverse is minimal, and
/// leads from the second state to the first.
pub fn a_change_can_be_taken_back()
    ensures { AChangeCanBeTakenBack }
{}

/// The inverse of the inverse of a minimal change is the change.
pub fn back_and_back_is_the_change()
    ensures { BackAndBackIsTheChange }
{}

/// A change leads from a state to one state at most: two that it leads to are the same in every part.
pub fn a_change_leads_to_one_state()
    ensures { AChangeLeadsToOneState }
{}

/// Where a minimal change leads is a function of the state and the change.
pub fn a_change_leads_where_it_carries()
    ensures { AChangeLeadsWhereItCarries }
{}

/// The inverse of the difference of two states is that of the states exchanged.
pub fn a_difference_can_be_taken_back()
    ensures { ADifferenceCanBeTakenBack }
{}

/// Two states have one difference: it tells each entry and digest that isn't the same in both, and of the lines
/// those that aren't matched where equal lines meet nearest.
pub fn two_states_have_one_difference()
    ensures { TwoStatesHaveOneDifference }
{}

/// The difference of two states with the same lines takes no line out and puts none in.
pub fn equal_lines_differ_nowhere()
    ensures { EqualLinesDifferNowhere }
{}
