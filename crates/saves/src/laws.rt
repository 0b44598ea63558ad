//! What follows of the definitions.

ghost use Rattle.std.specs.Prelude.{ℕ, Bool, List};
ghost use Rattle.calls.specs.AskedEdits.{IsHistoryFor, MayGiveWay};
ghost use Rattle.command_line.specs.declared.invocation.AskedEdit.{AskedEdit};
ghost use Rattle.command_line.specs.declared.invocation.Beginning.{Beginning};
ghost use Rattle.commands.specs.Replies.{is_accepted};
ghost use Rattle.inputs.specs.Handed.{Handed};
ghost use Rattle.inputs.specs.declared.named_file.NamedPath.{NamedPath};
ghost use Rattle.journal.specs.Commands.{Asked};
ghost use Rattle.saves.specs.Called.{BatchIsDone, EditIsDone, ForgetIsDone, InitIsDone, StepIsDone, is_save};
ghost use Rattle.saves.specs.StoppedCalls.{LeavesOldJournalOrNew, LeavesOldOrNew, LeavesOldOrNewByHand};

use journal::laws::files_stand_for_one_history;

/// A call that was stopped at any moment, and the repair of the next one, lead to the old history or to the new one. `edit`
/// says so where the requirements file wasn't changed by hand, and `any_edit` of all edits. There, and of an `init`, a
/// journal that stood in its place before, or beside it, may tell the history.
pub fn a_stopped_call_leaves_the_old_or_the_new()
    ensures step { (asked : Asked) → LeavesOldOrNew is_accepted (StepIsDone asked) }
    ensures edit { (handed : Handed) (asked : AskedEdit) (index : List ℕ)
        (targets : List (NamedPath (List ℕ))) (keeps only : Bool)
        → (MayGiveWay asked ⊥ → ⊥)
        → LeavesOldOrNew is_accepted (EditIsDone handed asked index targets keeps only) }
    ensures forget { (beginning : Beginning)
        → LeavesOldOrNew is_accepted (ForgetIsDone beginning) }
    ensures batch { (handed : Handed) (index : List ℕ) (is_all_or_none keeps : Bool)
        → LeavesOldOrNew is_save (BatchIsDone handed index is_all_or_none keeps) }
    ensures init { (handed : Handed) (index : List ℕ) (targets pins : List (NamedPath (List ℕ)))
        → LeavesOldJournalOrNew is_accepted (InitIsDone handed index targets pins) }
    ensures any_edit { (handed : Handed) (asked : AskedEdit) (index : List ℕ)
        (targets : List (NamedPath (List ℕ))) (keeps only : Bool)
        → LeavesOldOrNewByHand is_accepted (IsHistoryFor handed asked)
        (EditIsDone handed asked index targets keeps only) }
{
    files_stand_for_one_history();
}
