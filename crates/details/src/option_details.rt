// What is told of an option that a call lacks, or that it has in vain.

use crate::details::Details;
use crate::fault_details::is_there;
use command_line::request::NeededOption;
use notes::{ENVIRONMENT, INDEX, IndexMaker, IndexPlan, add_environment_command};
use phrases::add_word;
use std::alloc::AllocError;
use std::rt::Files;

impl Details {
    /// Notes how the file is made that an option names, and the call with it.
    pub fn add_needed<R: Files + AllocGlobal>(
        &mut self,
        rt: &R,
        option: NeededOption,
        words: &[String],
    ) -> Result<(), AllocError> {
        if !self.manner.tells {
            return Ok(());
        }
        match option {
            NeededOption::Index => self.add_needed_index(rt, words),
            NeededOption::Environment => self.add_needed_environment(rt, words),
        }
    }

    fn add_needed_index<R: Files + AllocGlobal>(
        &mut self,
        rt: &R,
        words: &[String],
    ) -> Result<(), AllocError> {
        if is_there(rt, INDEX) {
            self.known.push_str(
                "index.json is here. This gives it; REQLOCK_INDEX=index.json gives it to every call:\n",
            )?;
        } else {
            self.known.push_str(
                "It is a snapshot of an index. This makes one of the index that pip asks, and gives it:\n",
            )?;
            let plan = IndexPlan {
                requirements: "requirements.txt",
                environments: "",
                index: INDEX,
                is_there: false,
                maker: IndexMaker::First,
            };
            plan.add_command(&mut self.known)?;
        }
        self.add_call(words, "--index", INDEX)
    }

    fn add_needed_environment<R: Files + AllocGlobal>(
        &mut self,
        rt: &R,
        words: &[String],
    ) -> Result<(), AllocError> {
        if is_there(rt, ENVIRONMENT) {
            self.known
                .push_str("environment.json is here. This gives it:\n")?;
        } else {
            self.known.push_str(
                "It is what the lock is for. This makes it of the Python that runs it, and gives it:\n",
            )?;
            add_environment_command(rt.alloc(), &mut self.known, ENVIRONMENT)?;
        }
        self.add_call(words, "--env", ENVIRONMENT)?;
        if words
            .iter()
            .any(|word| matches!(word.as_str(), "retarget" | "--retarget"))
        {
            self.known.push_str(
                "A retarget locks for the environments that are given, and for no others. --env NAME=FILE gives that of a target with a name.\n",
            )?;
        }
        Ok(())
    }

    /// The call with one option more, behind the program's name.
    fn add_call(&mut self, words: &[String], option: &str, value: &str) -> Result<(), AllocError> {
        self.known.begin_command()?;
        write!(self.known, "reqlock {option} {value}")?;
        for (position, word) in words.iter().enumerate() {
            if position > 0 {
                add_word(&mut self.known.text, word.as_str())?;
            }
        }
        self.known.push_str("\n")
    }

    /// Notes that the call reads no environment.
    pub(crate) fn add_idle_environment(&mut self) -> Result<(), AllocError> {
        if !self.manner.is_person {
            return Ok(());
        }
        self.steps.push_str(
            "--env counts for nothing here: the history has its own environments. `reqlock retarget` gives it others.\n",
        )
    }
}
