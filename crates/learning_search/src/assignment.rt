// A choice of a search, with the candidates that were tried before it.

ghost use Rattle.std.specs.Prelude.{◌≡◌};

use crate::candidate_queue::CandidateQueue;

/// A node with the place of its candidate, and what is known of the candidates before that.
pub struct Assignment {
    pub queue: CandidateQueue,
    pub place: usize,
}

impl Drop for Assignment {
    fn drop(self) {
        let Assignment { queue: _, place: _ } = self;
    }
}

impl Assignment {
    /// The candidates that were tried for it.
    pub fn into_queue(self) -> CandidateQueue
        ensures { result ≡ self.queue }
    {
        let Assignment { queue, place: _ } = self;
        queue
    }
}
