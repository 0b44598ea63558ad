// The sentence in front, which tells it all where two lines and a few packages are all that there is to tell.

use crate::sentences::two_lines::{Clash, Reason, TermNeed};
use crate::sentences::{Sentences, add_node};
use crate::verb::Verb;
use phrases::add_wrapped;
use phrases::release_runs::{runs_of, version_text};
use set_refutations::placed::PlacedTerm;
use std::alloc::AllocError;

impl Sentences<'_> {
    /// That two lines don't go together, and why.
    pub fn add_front(&self, text: &mut String, clash: &Clash<'_>) -> Result<(), AllocError> {
        let Clash { pair, reason } = clash;
        let mut sentence = String::new(self.alloc);
        self.add_whole_line(&mut sentence, pair.one)?;
        sentence.push_str(" and ")?;
        self.add_whole_line(&mut sentence, pair.other)?;
        sentence.push_str(" don't go together: ")?;
        self.add_reason(&mut sentence, reason)?;
        sentence.push_str(".")?;
        add_wrapped(text, sentence.as_str(), "", self.width)
    }

    /// Why they don't.
    fn add_reason(&self, text: &mut String, reason: &Reason<'_>) -> Result<(), AllocError> {
        match reason {
            Reason::Apart(name) => {
                let name = name.normal();
                write!(text, "no release of {name} matches both")
            }
            Reason::Direct(need) => self.add_term_need(text, need),
            Reason::Linked(first, second) => {
                self.add_term_need(text, first)?;
                text.push_str(", which needs ")?;
                second.asked.add_needed(text, second.name.normal())
            }
            Reason::Shared(first, second) => {
                self.add_term_need(text, first)?;
                text.push_str(", and ")?;
                self.add_term_need(text, second)
            }
        }
    }

    /// The releases of a term, and what they need: `a from 2 on needs b 1`.
    fn add_term_need(&self, text: &mut String, need: &TermNeed) -> Result<(), AllocError> {
        self.add_needing(text, &need.term)?;
        need.asked.add_needed(text, need.name.normal())
    }

    /// The releases of a term, and that they need what comes: `a from 2 on needs`.
    fn add_needing(&self, text: &mut String, term: &PlacedTerm) -> Result<(), AllocError> {
        let releases = self.problem.releases(&term.node.name);
        let listed = term.places.places(self.alloc)?;
        let runs = runs_of(self.alloc, listed.as_slice())?;
        if let [run] = runs.as_slice() {
            let behind = run.oldest.saturating_add(1);
            if run.newest == 0 && run.oldest > 0 && behind < releases.len() {
                let oldest = version_text(self.alloc, releases, run.oldest)?;
                add_node(text, &term.node)?;
                return write!(text, " from {oldest} on needs ");
            }
        }
        self.add_subject(text, term, Verb::needs())
    }
}
