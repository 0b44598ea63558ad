//! `conformance`: what public calls of the libraries answer. It answers each row of standard input with a
//! line, and then plays the scenarios that the words of the command line are. README.md says how rows and
//! scenarios are written.
#![tactic(auto)]

mod answers;
mod background;
mod batch_rows;
mod command_rows;
mod conflicts;
mod environment_rows;
mod examples;
mod growing_text;
mod index_rows;
mod line_rows;
mod lock_rows;
mod marker_rows;
mod notation;
mod problem_rows;
mod requirement_rows;
mod saved_rows;
mod scenarios;
mod session_rows;
mod short_form;
mod specifier_rows;
mod state_texts;
mod streams;
mod table_rows;
mod targets;
mod version_rows;

use crate::answers::answer_to;
use crate::background::Background;
use std::io::{self, BufRead, BufReader};
use std::process::ExitCode;
use std::rt::Env;

fn main(rt: HostRuntime) -> ExitCode {
    match (answer_rows(&rt), play_scenarios(&rt)) {
        (Ok(true), Some(())) => ExitCode::SUCCESS,
        _ => ExitCode::FAILURE,
    }
}

/// Prints the answers, and tells whether each row has one.
fn answer_rows(rt: &HostRuntime) -> io::Result<bool> {
    let mut background = Background::new(rt.alloc());
    let mut are_answered = true;
    for row in BufReader::new(rt.alloc(), rt.stdin())?.lines(rt.alloc()) {
        match answer_to(rt.alloc(), &mut background, row?.as_str()) {
            Some(answer) => println!(rt; "{answer}")?,
            None => {
                println!(rt; "no answer")?;
                are_answered = false;
            }
        }
    }
    Ok(are_answered)
}

/// Plays the scenarios of the command line.
fn play_scenarios(rt: &HostRuntime) -> Option<()> {
    let words: Vec<String> = std::env::args(rt).ok()?.collect(rt.alloc()).ok()?;
    let mut out = rt.stdout();
    scenarios::played(rt.alloc(), &mut out, words.as_slice().get(1..)?)
}
