// Scenarios: library calls in which growths of memory may be refused, each with what stands before and
// behind it. A preloaded library refuses them.

mod calls;
mod change_calls;
mod clones;
pub mod data;
mod histories;
mod readings;
mod sessions;
mod state_calls;
mod told;
mod told_commands;

use std::alloc::Global;
use std::io::Write;

/// Plays each scenario in turn, behind a line that names it.
pub fn played<W: Write>(alloc: Global, out: &mut W, scenarios: &[String]) -> Option<()> {
    for scenario in scenarios {
        out.write_all(scenario.as_bytes()).ok()?;
        out.write_all(b"\n").ok()?;
        play(alloc, out, scenario.as_str())?;
    }
    Some(())
}

/// Plays the scenario that the first word names, with the rest.
fn play<W: Write>(alloc: Global, out: &mut W, scenario: &str) -> Option<()> {
    let (kind, rest) = scenario.split_once(' ').unwrap_or((scenario, ""));
    match kind {
        "read" => readings::read(alloc, out, rest),
        "compare" => readings::compare(alloc, out),
        "clone" => clones::clones(alloc, out, rest),
        "state" => state_calls::states(alloc, out, rest),
        "change" => change_calls::change_calls(alloc, out, rest),
        "apply" => sessions::apply(alloc, out, rest),
        "run" => sessions::run(alloc, out, rest),
        "files" => sessions::files(alloc, out, rest),
        "whole" => histories::whole(alloc, out, rest),
        "runs" => histories::runs(alloc, out, rest),
        _ => None,
    }
}
