// Which lines have no solution.

use crate::release_set::add_listed;
use crate::sentences::Sentences;
use phrases::add_wrapped;
use std::alloc::AllocError;

/// How many lines of the file are named with what they require, in short.
const NAMED: usize = 6;

impl Sentences<'_> {
    /// Whether the conclusion names a line.
    pub fn is_named(&self, place: usize) -> bool {
        let most = self.derived.extent.most(NAMED);
        self.cited.iter().take(most).any(|cited| *cited == place)
    }

    /// Names the lines on which the refutation rests, and what they require.
    pub fn add_conclusion(&self, text: &mut String) -> Result<(), AllocError> {
        let most = self.derived.extent.most(NAMED);
        let mut items = Vec::new(self.alloc);
        for place in self.cited.iter().take(most) {
            let mut item = String::new(self.alloc);
            self.add_whole_line(&mut item, *place)?;
            items.push(item)?;
        }
        let more = self.cited.len().saturating_sub(most);
        if more > 0 {
            items.push(format!(in self.alloc; "{more} more")?)?;
        }
        let problem = self.problem;
        let kept = if problem.only_kept {
            "that keeps what is locked "
        } else {
            ""
        };
        let mut sentence = format!(in self.alloc; "No choice of versions {kept}meets ")?;
        add_listed(&mut sentence, items.as_slice(), "and")?;
        sentence.push_str(".")?;
        add_wrapped(text, sentence.as_str(), "", self.width)
    }
}
