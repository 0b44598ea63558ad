// Who reads what the program writes, and how it looks there.

use crate::given_words::NoWords;
use command_line::request::{ColorChoice, Verbosity};
use details::Manner;
use phrases::Style;
use std::env::VarError;
use std::rt::Env;

/// The least width that lines are broken for.
const LEAST_WIDTH: usize = 20;

/// Which of the program's streams are terminals.
#[derive(Clone, Copy)]
pub struct Terminals {
    pub output: bool,
    pub errors: bool,
}

/// What is known of who reads what the program writes. A person reads a stream where it is a terminal, and no CI job
/// has it.
#[derive(Clone, Copy)]
pub struct Screen {
    readers: Terminals,
    // whether it is a CI job
    is_job: bool,
    // whether a terminal shows colors
    has_colors: bool,
    width: Option<usize>,
}

impl Screen {
    /// That of the terminals, by what the environment says of them.
    pub fn new<R: Env + AllocGlobal>(rt: &R, terminals: Terminals) -> Result<Screen, NoWords> {
        let is_job = has_variable(rt, "CI")?;
        Ok(Screen {
            readers: Terminals {
                output: terminals.output && !is_job,
                errors: terminals.errors && !is_job,
            },
            is_job,
            has_colors: !has_variable(rt, "NO_COLOR")? && !is_dumb(rt)?,
            width: width_of(rt)?,
        })
    }

    /// How the output looks.
    pub fn style(self, color: ColorChoice) -> Style {
        self.style_for(self.readers.output, color)
    }

    /// What is told on standard error beside the output, and how. A job is told what the index lacks.
    pub fn manner(self, verbosity: Verbosity, color: ColorChoice) -> Manner {
        let is_person = self.readers.errors && verbosity != Verbosity::Quiet;
        let tells = is_person || verbosity == Verbosity::Verbose;
        Manner {
            tells,
            is_person,
            is_quiet: verbosity == Verbosity::Quiet,
            tells_lacks: tells || (self.is_job && verbosity != Verbosity::Quiet),
            style: self.style_for(self.readers.errors, color),
        }
    }

    fn style_for(self, is_person: bool, color: ColorChoice) -> Style {
        Style {
            colors: match color {
                ColorChoice::Always => true,
                ColorChoice::Never => false,
                ColorChoice::Auto => is_person && self.has_colors,
            },
            width: if is_person { self.width } else { None },
        }
    }
}

fn is_dumb<R: Env + AllocGlobal>(rt: &R) -> Result<bool, NoWords> {
    match variable(rt, "TERM")? {
        Some(value) => Ok(value.as_str() == "dumb"),
        None => Ok(false),
    }
}

/// The width of the terminal, as the shell tells it.
fn width_of<R: Env + AllocGlobal>(rt: &R) -> Result<Option<usize>, NoWords> {
    let Some(value) = variable(rt, "COLUMNS")? else {
        return Ok(None);
    };
    match value.as_str().parse::<usize>() {
        Ok(width) if width >= LEAST_WIDTH => Ok(Some(width)),
        _ => Ok(None),
    }
}

/// Whether a variable is set, and not empty.
fn has_variable<R: Env + AllocGlobal>(rt: &R, name: &str) -> Result<bool, NoWords> {
    match variable(rt, name)? {
        Some(value) => Ok(!value.is_empty()),
        None => Ok(false),
    }
}

/// The value of a variable. One that isn't UTF-8 counts as absent: it says nothing about files.
fn variable<R: Env + AllocGlobal>(rt: &R, name: &str) -> Result<Option<String>, NoWords> {
    match std::env::var(rt, name) {
        Ok(value) => Ok(Some(value)),
        Err(VarError::NotPresent | VarError::NotUnicode) => Ok(None),
        Err(VarError::OutOfMemory) => Err(NoWords::OutOfMemory),
    }
}
