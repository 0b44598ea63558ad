//! Laws of what the files in a folder stand for.

ghost use Rattle.power_cuts.specs.Completable.{AStoppedSaveCanBeCompleted, AStoppedSaveIsNotRefused, WhatStandsCanBeCompleted};
ghost use Rattle.power_cuts.specs.Journals.{ACutJournalIsNone, AStopLeavesAnOldJournalOrTheNew, AnOldJournalTellsItsHistory, NoOldJournalWhereNoneStood};
ghost use Rattle.power_cuts.specs.OneHistory.{AFolderStandsForOneHistory, AJournalTellsOneHistory};
ghost use Rattle.power_cuts.specs.Repeated.{RepairsComeToOne};
ghost use Rattle.power_cuts.specs.Standing.{PlacesStandForOneHistory, WhatStandsIsOpened};
ghost use Rattle.power_cuts.specs.Stopped.{AStopLeavesTheOldOrTheNew};

use journal::laws::files_stand_for_one_history;

/// A journal tells one history: whatever files open beside it stand for the same one, if no two of them that differ have
/// the same digest.
pub fn a_journal_tells_one_history()
    ensures law { AJournalTellsOneHistory }
{
    files_stand_for_one_history();
}

/// A folder stands for one history: files that open from it, each name with one text, stand for the same one. No digest is
/// asked about.
pub fn a_folder_stands_for_one_history()
    ensures law { AFolderStandsForOneHistory }
{
    files_stand_for_one_history();
}

/// The files in the places of a folder stand for one history at most.
pub fn places_stand_for_one_history()
    ensures law { PlacesStandForOneHistory }
{
    files_stand_for_one_history();
}

/// Files that stand for a history in their places open as it, where the locks are read that the journal names.
pub fn what_stands_is_opened()
    ensures law { WhatStandsIsOpened }
{}

/// A save that was stopped at any moment, and the repair of the next call, lead to the old history or to the new one, if no
/// two of the files that differ have the same digest.
pub fn a_stop_leaves_the_old_or_the_new()
    ensures law { AStopLeavesTheOldOrTheNew }
{
    files_stand_for_one_history();
}

/// A journal that was cut off opens with no files.
pub fn a_cut_journal_is_none()
    ensures law { ACutJournalIsNone }
{}

/// A journal of before tells the history that it told then, if it stood alone; and where none stood, there is none.
pub fn an_old_journal_tells_its_history()
    ensures told { AnOldJournalTellsItsHistory }
    ensures none { NoOldJournalWhereNoneStood }
{}

/// A save over any folder that was stopped at any moment, and any repair, leave a journal of before, with the history that
/// it tells; or they lead to the new history.
pub fn a_stop_leaves_an_old_journal_or_the_new()
    ensures law { AStopLeavesAnOldJournalOrTheNew }
{
    files_stand_for_one_history();
}

/// Any number of repairs in turn, each ended or stopped at any moment, come to one.
pub fn repairs_come_to_one()
    ensures law { RepairsComeToOne }
{}

/// A folder can be completed whose files stand for a history in their places.
pub fn what_stands_can_be_completed()
    ensures law { WhatStandsCanBeCompleted }
{}

/// What a save leaves that was stopped at any moment can be completed, where a state of the new history has the old
/// requirements file.
pub fn a_stopped_save_can_be_completed()
    ensures law { AStoppedSaveCanBeCompleted }
{}

/// So no next call finds it beyond repair, whatever calls before it have left of it, if its locks are told apart.
pub fn a_stopped_save_is_not_refused()
    ensures law { AStoppedSaveIsNotRefused }
{}
