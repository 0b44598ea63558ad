// What is told of a history that loses its first steps.

use crate::changed_file_details::CHECKOUT;
use crate::details::Details;
use std::alloc::AllocError;

impl Details {
    /// Notes how many steps are gone from the front of the history in a folder, and how git brings them back; or how many
    /// would be, where nothing is saved.
    pub fn add_forgotten_steps(
        &mut self,
        dir: &str,
        steps: usize,
        is_saved: bool,
    ) -> Result<(), AllocError> {
        if !self.manner.is_person {
            return Ok(());
        }
        match steps {
            0 => return self.add_no_change(),
            1 => self.known.push_str("The first step ")?,
            _ => write!(self.known, "The first {steps} steps ")?,
        }
        self.known.push_str(match (is_saved, steps) {
            (false, _) => "would be",
            (true, 1) => "is",
            (true, _) => "are",
        })?;
        self.known.push_str(" gone from the history.")?;
        if !is_saved {
            return self.known.push_str("\n");
        }
        self.known.push_str(
            " Where git has them, this brings the files back as they were committed last:\n",
        )?;
        self.add_git(dir)?;
        self.known.push_str(CHECKOUT)
    }
}
