//! Laws of the steps and of what is saved, each the contract of a function that does nothing.

ghost use Rattle.journal.specs.Laws.{UndoGivesTheStateBack, RedoGivesTheEditAgain, AnEditCanBeUndone, ARunWithChangesIsARun, FilesStandForOneHistory, WhatOpensIsTold};

use edits::laws::a_change_leads_to_one_state;

/// An undo after an accepted edit gives back the state before the edit, and its cursor.
pub fn undo_gives_the_state_back()
    ensures law { UndoGivesTheStateBack }
{}

/// A redo after that undo gives what the edit gave.
pub fn redo_gives_the_edit_again()
    ensures law { RedoGivesTheEditAgain }
{}

/// After an accepted edit an undo is refused for want of memory alone.
pub fn an_edit_can_be_undone()
    ensures law { AnEditCanBeUndone }
{}

/// A run with its changes is a run: its replies, states and cursor are those of one.
pub fn a_run_with_changes_is_a_run()
    ensures law { ARunWithChangesIsARun }
{}

/// A requirements file, lock files and a journal stand for one history at most, or have one first fault.
pub fn files_stand_for_one_history()
    ensures law { FilesStandForOneHistory }
{
    a_change_leads_to_one_state();
}

/// Where files stand for a history, the locks and the journal tell it without the requirements file: its cursor, its
/// changes, and the targets of its present state.
pub fn what_opens_is_told()
    ensures law { WhatOpensIsTold }
{}
