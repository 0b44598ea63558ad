// Where a shortened history is to begin.

ghost use Rattle.std.specs.Prelude.{IfErr, IfOk};
ghost use Rattle.clap.specs.Words.{found_of, rows_of};
ghost use Rattle.command_line.specs.Subcommands.{IsBeginning};
ghost use Rattle.command_line.specs.UsageFaults.{HasNoBeginning};

use crate::invocation::Beginning;
use crate::misuse::{Misuse, ReadFault};
use crate::options::value;
use crate::subcommand::read_place;
use clap::ArgMatches;

/// Where the history is to begin, of what stands behind `forget`. Beside one option the other is refused before.
pub(crate) fn read_beginning<'a>(behind: &ArgMatches<'a>) -> Result<Beginning, ReadFault<'a>>
    ensures beginning { IfOk result (IsBeginning (rows_of (found_of behind.now))) }
    ensures fault { IfErr result (HasNoBeginning (rows_of (found_of behind.now))) }
{
    if let Some(place) = value(behind, "before") {
        return Ok(Beginning::At(read_place(place, "--before <N>")?));
    }
    match value(behind, "keep") {
        Some(count) => Ok(Beginning::Back(read_place(count, "--keep <N>")?)),
        None => Err(ReadFault::Misused(Misuse::Lacks("--before or --keep"))),
    }
}
