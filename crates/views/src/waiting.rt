// What a person is told who waits for an answer.

use answers::Watch;
use command_line::request::Told;
use std::io::Write;
use std::rt::Clock;
use std::time::{Duration, Instant};

/// After how many seconds a person is told.
const PATIENCE: u64 = 2;

const STILL_AT_IT: &str = "reqlock: still at it; Ctrl-C ends the call, and changes no file\n";

/// Tells a person once, on the errors of a call, that its answer takes long.
#[derive(Drop)]
pub struct Waiting<'a, R, E> {
    rt: &'a R,
    errors: E,
    // nothing where nobody is told any more
    since: Option<Instant>,
}

impl<'a, R: Clock, E: Write> Waiting<'a, R, E> {
    /// An answer is begun now. Nobody is told where no person reads the errors.
    pub fn new(rt: &'a R, errors: E, is_person: bool) -> Waiting<'a, R, E> {
        let since = if is_person {
            Instant::now(rt).ok()
        } else {
            None
        };
        Waiting { rt, errors, since }
    }

    /// Whether a person is to be told now.
    fn is_long(&self) -> bool {
        match &self.since {
            Some(since) => match since.elapsed(self.rt) {
                Ok(waited) => waited >= Duration::from_secs(PATIENCE),
                Err(_) => false,
            },
            None => false,
        }
    }
}

impl<R: Clock, E: Write> Watch for Waiting<'_, R, E> {
    fn goes_on(&mut self) {
        if self.is_long() {
            self.since = None;
            // a text that can't be written changes no answer
            let _written = self.errors.write_all(STILL_AT_IT.as_bytes());
        }
    }
}

/// How an answer is told, and who is told while it is worked out.
#[derive(Drop)]
pub struct Telling<W> {
    pub told: Told,
    /// How many characters a line of sentences has at most.
    pub width: usize,
    pub watch: W,
}
