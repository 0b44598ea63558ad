//! Laws of locks and of changes, which `states` and `changes` prove; and laws of edits over `kept_alone`, where of a name with a
//! kept version no other version is a candidate.

ghost use Rattle.edits.specs.Laws.{EditsFindWhatKeepsAll, EditsKeepPins, EditsThatKeepAllAreOne};

pub use crate::replace_laws::{
    a_merge_is_the_same_from_both_sides, kept_versions_that_fit_stay,
    replacing_lines_by_themselves_is_a_relock,
};
pub use changes::laws::{
    a_change_can_be_taken_back, a_change_leads_to_one_state, a_change_leads_where_it_carries,
    a_difference_can_be_taken_back, back_and_back_is_the_change, equal_lines_differ_nowhere,
    two_states_have_one_difference,
};
use problems::laws::{
    a_kept_version_is_that_of_its_release, needs_forget_kept_versions,
    solutions_without_others_keep_all, the_best_solution_that_keeps_all_stays_the_best,
};
pub use states::laws::the_lock_of_a_problem_is_one;

/// An edit over `kept_alone` moves no version that it keeps: of each name whose version it keeps for a target
/// and that the target's new lock has, the new lock has a version that equals the kept one.
pub fn an_edit_keeps_versions_without_others()
    ensures { EditsKeepPins }
{
    solutions_without_others_keep_all();
    a_kept_version_is_that_of_its_release();
}

/// Where the problem of each target has some solution that keeps all versions that the edit keeps, the edit over
/// `kept_alone` isn't refused for want of a solution.
pub fn an_edit_without_others_finds_what_keeps_all()
    ensures { EditsFindWhatKeepsAll }
{
    solutions_without_others_keep_all();
}

/// Where the best locks keep all versions that the edit keeps, the edit over `kept_alone` leads to the same locks.
pub fn an_edit_that_keeps_all_needs_no_others()
    ensures { EditsThatKeepAllAreOne }
{
    the_best_solution_that_keeps_all_stays_the_best();
    needs_forget_kept_versions();
}
