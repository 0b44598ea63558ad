// The lines that are to take the place of others, and versions to keep.

ghost use Rattle.std.specs.Prelude.{◌≡◌, map, IfOk};
ghost use Rattle.clap.specs.Words.{found_of, rows_of};
ghost use Rattle.command_line.specs.Options.{values_in};
ghost use Rattle.command_line.specs.Questions.{text_at};
ghost use Rattle.command_line.specs.Subcommands.{HasNewLines, IsReplacement, pins_of};

use crate::invocation::{NewLines, Replacement};
use crate::options::{value, values, with_values};
use clap::ArgMatches;
use lists::{Seq, Text};
use std::alloc::{AllocError, Global};

/// What `replace` is asked for, or its question; `new` is the argument that names a file with new lines.
pub(crate) fn read_replacement<'a>(
    alloc: Global,
    behind: &ArgMatches<'a>,
    new: &str,
) -> Result<Replacement<'a>, AllocError>
    ensures { IfOk result (IsReplacement new.now (rows_of (found_of behind.now))) }
{
    let lines = read_new_lines(behind, new);
    let pins = read_pins(alloc, behind)?;
    Ok(Replacement { lines, pins })
}

fn read_new_lines<'a>(behind: &ArgMatches<'a>, new: &str) -> NewLines<'a>
    ensures { HasNewLines new.now (rows_of (found_of behind.now)) result }
{
    if let Some(file) = value(behind, new) {
        return NewLines::File(file);
    }
    if let Some(old) = value(behind, "was") {
        return NewLines::Was(old);
    }
    let Some(texts) = values(behind, "line") else {
        return NewLines::Line("", "");
    };
    NewLines::Line(text_at(texts, 0), text_at(texts, 1))
}

/// One of the texts, or the empty one where there is none.
pub(crate) fn text_at<'a>(texts: &[&'a str], position: usize) -> &'a str
    ensures text { result.now ≡ text_at (map (λ s. s.now) texts.now) position }
{
    texts.get(position).copied().unwrap_or("")
}

/// The values of an option, as they stand behind the subcommand.
pub(crate) fn values_of(
    alloc: Global,
    behind: &ArgMatches<'_>,
    name: &str,
) -> Result<Seq<Text>, AllocError>
    ensures { IfOk result
        (λ values. values ≡ values_in (rows_of (found_of behind.now)) name.now) }
{
    let values = with_values(alloc, Vec::new(alloc), behind, name)?;
    Ok(Seq::from_vec(values))
}

/// The values of `--pins`.
pub(crate) fn read_pins(alloc: Global, behind: &ArgMatches<'_>) -> Result<Seq<Text>, AllocError>
    ensures { IfOk result (λ pins. pins ≡ pins_of (rows_of (found_of behind.now))) }
{
    values_of(alloc, behind, "pins")
}
