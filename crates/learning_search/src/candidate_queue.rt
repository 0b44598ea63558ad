// The candidates of a node, tried in turn.

ghost use Rattle.std.specs.Prelude.{◌<◌, [], IfOk, option_to_list};
ghost use Rattle.learning_search.specs.Tied.Gathering.{Gathers, decision};
ghost use Rattle.learning_search.specs.Tied.Refusals.{RefusesOneMore};

use crate::decisions::{insert, insert_all};
use search::Decision;
use std::alloc::AllocError;

/// A node that needs a version. Its candidates are tried in the order in which they are preferred.
pub struct CandidateQueue {
    pub node: usize,
    /// Whether it is the first on its name.
    pub leads: bool,
    /// The choice that needs it; nothing where a line does.
    pub by: Option<Decision>,
    /// How many of the candidates are refused.
    pub turn: usize,
    /// The choices for which they are refused.
    pub blame: Vec<Decision>,
}

impl Drop for CandidateQueue {
    fn drop(self) {
        let CandidateQueue {
            node: _,
            leads: _,
            by: _,
            turn: _,
            blame: _,
        } = self;
    }
}

impl CandidateQueue {
    /// Refuses the candidate of this turn, at this place, for a conflict that it completes.
    pub fn refuse(
        &mut self,
        count: usize,
        place: usize,
        conflict: &[Decision],
    ) -> Result<(), AllocError>
        requires { self.old.turn < count }
        ensures { IfOk result
            (λ _. RefusesOneMore self.old self.new conflict.now (decision self.old.node place)) }
    {
        let candidate = Decision {
            node: self.node,
            version: place,
        };
        insert_all(&mut self.blame, conflict, candidate)?;
        self.turn += 1;
        Ok(())
    }

    /// The conflict that follows where no candidate is left.
    pub fn into_conflict(self) -> Result<Vec<Decision>, AllocError>
        ensures { IfOk result
            (λ conflict. Gathers self.blame.items conflict.items (option_to_list self.by) []) }
    {
        let CandidateQueue {
            node: _,
            leads: _,
            by,
            turn: _,
            mut blame,
        } = self;
        if let Some(by) = by {
            insert(&mut blame, by)?;
        }
        Ok(blame)
    }
}
