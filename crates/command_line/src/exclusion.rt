// Arguments that exclude one another.

ghost use Rattle.std.specs.Prelude.{◌≡◌, ◌&&◌, codes, not};
ghost use Rattle.std.specs.Str.{bytes_eq};
ghost use Rattle.clap.specs.Words.{found_of, rows_of};
ghost use Rattle.command_line.specs.Marks.{first_marked, first_of_two};
ghost use Rattle.command_line.specs.Misuses.{beginning_marks, excluded, has_lines, has_old_or_line, has_targets_or_lines, is_given, is_replacement, lines_marks, missing_marks, question_marks, shown_marks, verbosity_marks};
ghost use Rattle.command_line.specs.Options.{has_flag, text_of};

use crate::marks::{first_marked, first_of_two};
use crate::options::{has_flag, has_value, is_flagged, values};
use clap::ArgMatches;

/// The first argument beside which another stands that excludes it, as help shows it.
pub(crate) fn excluded(before: &ArgMatches<'_>, behind: &ArgMatches<'_>) -> Option<&'static str>
    ensures { text_of result ≡ excluded (rows_of (found_of before.now))
        (rows_of (found_of behind.now)) }
{
    let lines = excluded_lines(behind).or(excluded_beginning(behind));
    let other = excluded_question(behind).or(lines);
    excluded_verbosity(before, behind).or(excluded_shown(behind).or(other))
}

fn excluded_verbosity(before: &ArgMatches<'_>, behind: &ArgMatches<'_>) -> Option<&'static str>
    ensures { text_of result ≡ first_of_two (verbosity_marks (rows_of (found_of before.now))
        (rows_of (found_of behind.now))) }
{
    first_of_two(&[
        ("--quiet", is_flagged(before, behind, "quiet")),
        ("--verbose", is_flagged(before, behind, "verbose")),
    ])
}

fn excluded_shown(behind: &ArgMatches<'_>) -> Option<&'static str>
    ensures { text_of result ≡ first_of_two (shown_marks (rows_of (found_of behind.now))) }
{
    first_of_two(&[
        ("--tree", has_flag(behind, "tree")),
        ("[NAME]", has_value(behind, "name")),
    ])
}

fn excluded_question(behind: &ArgMatches<'_>) -> Option<&'static str>
    ensures { text_of result ≡ first_of_two (question_marks (rows_of (found_of behind.now))) }
{
    first_of_two(&[
        ("--init", has_flag(behind, "init")),
        ("--constrain <NAME> [SPEC]", is_given(behind, "constrain")),
        ("--upgrade [<NAME>...]", is_given(behind, "upgrade")),
        ("--remove <NAME>", is_given(behind, "remove")),
        ("--not <NAME[==VERSION]>", is_given(behind, "not")),
        ("--replace [<NEW>]", is_given(behind, "replace")),
        ("--retarget", has_flag(behind, "retarget")),
        ("[TEXT]", is_text_alone(behind)),
    ])
}

fn excluded_lines(behind: &ArgMatches<'_>) -> Option<&'static str>
    ensures { text_of result ≡ first_of_two (lines_marks (rows_of (found_of behind.now))) }
{
    first_of_two(&[
        ("[NEW]", has_value(behind, "new")),
        ("--replace [<NEW>]", has_value(behind, "replace")),
        ("--was <OLD>", is_given(behind, "was")),
        ("--line <NAME> <TEXT>", is_given(behind, "line")),
    ])
}

fn excluded_beginning(behind: &ArgMatches<'_>) -> Option<&'static str>
    ensures { text_of result ≡ first_of_two (beginning_marks (rows_of (found_of behind.now))) }
{
    first_of_two(&[
        ("--before <N>", is_given(behind, "before")),
        ("--keep <N>", is_given(behind, "keep")),
    ])
}

/// What has to stand beside an argument or behind a subcommand, and is missing, as help shows it.
pub(crate) fn missing(name: &str, behind: &ArgMatches<'_>) -> Option<&'static str>
    ensures { text_of result ≡ first_marked (missing_marks name.now (rows_of (found_of behind.now))) }
{
    first_marked(&[
        ("NEW, --was or --line", lacks_lines(name, behind)),
        ("--replace", lacks_replacement(name, behind)),
        ("--explain", lacks_sentences(name, behind)),
        (
            "--init, --replace or --retarget",
            lacks_question(name, behind),
        ),
    ])
}

/// Whether lines are to be replaced by none that are named.
fn lacks_lines(name: &str, behind: &ArgMatches<'_>) -> bool
    ensures { result ≡ (is_replacement name.now (rows_of (found_of behind.now))
        && not (has_lines (rows_of (found_of behind.now)))) }
{
    is_replacement(name, behind) && !has_lines(behind)
}

/// Whether new lines are named, and none are to be replaced.
fn lacks_replacement(name: &str, behind: &ArgMatches<'_>) -> bool
    ensures { result ≡ (not (is_replacement name.now (rows_of (found_of behind.now)))
        && has_old_or_line (rows_of (found_of behind.now))) }
{
    !is_replacement(name, behind) && has_old_or_line(behind)
}

fn is_replacement(name: &str, behind: &ArgMatches<'_>) -> bool
    ensures { result ≡ is_replacement name.now (rows_of (found_of behind.now)) }
{
    name == "replace" || is_given(behind, "replace")
}

/// Whether new lines are named.
fn has_lines(behind: &ArgMatches<'_>) -> bool
    ensures { result ≡ has_lines (rows_of (found_of behind.now)) }
{
    has_value(behind, "new") || has_value(behind, "replace") || has_old_or_line(behind)
}

fn has_old_or_line(behind: &ArgMatches<'_>) -> bool
    ensures { result ≡ has_old_or_line (rows_of (found_of behind.now)) }
{
    is_given(behind, "was") || is_given(behind, "line")
}

/// Whether `why` is to leave nothing out of sentences that it isn't asked for.
fn lacks_sentences(name: &str, behind: &ArgMatches<'_>) -> bool
    ensures { result ≡ (bytes_eq name.now (codes "why")
        && (has_flag (rows_of (found_of behind.now)) (codes "long")
        && not (has_flag (rows_of (found_of behind.now)) (codes "explain")))) }
{
    name == "why" && has_flag(behind, "long") && !has_flag(behind, "explain")
}

/// Whether `why` has pins for no question.
fn lacks_question(name: &str, behind: &ArgMatches<'_>) -> bool
    ensures { result ≡ (bytes_eq name.now (codes "why")
        && (is_given (rows_of (found_of behind.now)) (codes "pins")
        && not (has_targets_or_lines (rows_of (found_of behind.now))))) }
{
    name == "why" && is_given(behind, "pins") && !has_targets_or_lines(behind)
}

/// Whether the question is about targets or about other lines, for which there may be pins.
fn has_targets_or_lines(behind: &ArgMatches<'_>) -> bool
    ensures { result ≡ has_targets_or_lines (rows_of (found_of behind.now)) }
{
    has_flag(behind, "init") || is_given(behind, "replace") || has_flag(behind, "retarget")
}

/// Whether an option or a text is given.
pub(crate) fn is_given(behind: &ArgMatches<'_>, id: &str) -> bool
    ensures { result ≡ is_given (rows_of (found_of behind.now)) id.now }
{
    values(behind, id).is_some()
}

/// Whether a text is given that isn't that of `--init`.
fn is_text_alone(behind: &ArgMatches<'_>) -> bool
    ensures { result ≡ (not (has_flag (rows_of (found_of behind.now)) (codes "init"))
        && is_given (rows_of (found_of behind.now)) (codes "text")) }
{
    !has_flag(behind, "init") && is_given(behind, "text")
}
