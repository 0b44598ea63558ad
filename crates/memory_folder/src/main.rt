//! `memory_folder`: a folder in memory that can stop at any moment and fail at any call, and what a save leaves there.
#![tactic(auto)]

mod changes;
mod memory;
mod scenes;

use crate::scenes::{tell_faults, tell_stops};
use std::io;
use std::process::ExitCode;

fn main(rt: HostRuntime) -> ExitCode {
    match tell(&rt) {
        Ok(()) => ExitCode::SUCCESS,
        Err(_) => ExitCode::FAILURE,
    }
}

/// Tells what a save leaves, wherever it is stopped or fails.
fn tell(rt: &HostRuntime) -> io::Result<()> {
    let mut out = rt.stdout();
    tell_stops(rt.alloc(), &mut out)?;
    tell_faults(rt.alloc(), &mut out)
}
