//! `reqlock`: a locker for Python requirements files, with undo and redo.
#![tactic(auto)]

mod program;

use crate::program::{Given, program};
use shell::given_words::{given_words, report_words};
use shell::repeated::Repeated;
use shell::screen::{Screen, Terminals};
use std::io::IsTerminal;
use std::process::ExitCode;

fn main(rt: HostRuntime) -> ExitCode {
    let mut errors = rt.stderr();
    let output = rt.stdout();
    let terminals = Terminals {
        output: output.is_terminal(),
        errors: errors.is_terminal(),
    };
    let mut output = Repeated::new(output);
    let status = match given_words(&rt) {
        Ok(words) => match Screen::new(&rt, terminals) {
            Ok(screen) => {
                let given = Given {
                    words: words.as_slice(),
                    screen,
                };
                program(&rt, given, rt.stdin(), &mut output, &mut errors)
            }
            Err(fault) => report_words(&fault, &mut errors),
        },
        Err(fault) => report_words(&fault, &mut errors),
    };
    ExitCode::from(status.number())
}
