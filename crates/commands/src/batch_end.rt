// What is to be done at the end of a batch.

ghost use Rattle.std.specs.Prelude.{◌≡◌, is_some};
ghost use Rattle.commands.specs.Tied.Tallies.{end_by_itself, end_of, no_replies, with_reply};

use edits::Refusal;
use journal::Reply;

/// What is to be done at the end of a batch.
#[derive(Debug, Drop, PartialEq, Eq)]
pub enum BatchEnd {
    /// A command was accepted, and the history is to be saved.
    Save,
    /// None was accepted, and the history is as it was.
    Leave,
    /// A command was refused where all or none are to be done: nothing is to be saved.
    Refuse(RefusedLine),
}

/// The first line of a batch whose command was refused.
#[derive(Debug, Drop, PartialEq, Eq)]
pub struct RefusedLine {
    /// Its number, from 1; blank lines count.
    pub number: usize,
    pub refusal: Refusal,
}

/// What is known of the replies of a batch.
#[derive(Drop)]
pub(crate) struct Tally {
    /// Whether one is `ok`.
    pub has_accepted: bool,
    /// The first refusal.
    pub refused: Option<Refusal>,
}

impl Tally {
    /// Before the first reply.
    pub fn new() -> Tally
        ensures { result ≡ no_replies }
    {
        Tally {
            has_accepted: false,
            refused: None,
        }
    }

    /// Counts one reply more.
    pub fn count(&mut self, reply: Reply)
        ensures { self.new ≡ with_reply self.old reply }
    {
        match reply {
            Reply::Done(_) => self.has_accepted = true,
            Reply::Same => {}
            Reply::Refused(refusal) => {
                if self.refused.is_none() {
                    self.refused = Some(refusal);
                }
            }
        }
    }

    /// Whether one of the replies is a refusal.
    pub fn has_refused(&self) -> bool
        ensures { result ≡ is_some self.now.refused }
    {
        self.refused.is_some()
    }

    /// What is to be done where these are all replies. The line of the first refusal has this number.
    pub fn end(self, is_all_or_none: bool, number: usize) -> BatchEnd
        ensures { result ≡ end_of is_all_or_none self number }
    {
        let Tally {
            has_accepted,
            refused,
        } = self;
        if !is_all_or_none {
            return end_by_itself(has_accepted);
        }
        match refused {
            Some(refusal) => BatchEnd::Refuse(RefusedLine { number, refusal }),
            None => end_by_itself(has_accepted),
        }
    }
}

/// What is to be done where no refusal counts.
fn end_by_itself(has_accepted: bool) -> BatchEnd
    ensures { result ≡ end_by_itself has_accepted }
{
    if has_accepted {
        BatchEnd::Save
    } else {
        BatchEnd::Leave
    }
}
