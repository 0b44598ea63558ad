// The words of the program's command line, for clap to read.

ghost use Rattle.std.specs.Prelude.{◌≡◌, map, IfOk};
ghost use Rattle.clap.specs.Words.{app_of, rule_of};
ghost use Rattle.command_line.specs.CommandWords.{option_rules, options_app, reqlock_app, with_subcommands};
ghost use Rattle.command_line.specs.Tied.Tables.{app_of_words, shape_of_words};

use crate::arguments::{argument, with_arguments};
use crate::descriptions::{ArgWords, SubcommandWords};
use crate::subcommand_help::Help;
use crate::subcommand_words::{FLAGS, SUBCOMMANDS, TELLING};
use clap::{Arg, Command};
use std::alloc::{AllocError, Global};

/// The program's version.
const VERSION: &str = "0.2.0";

const DIR: ArgWords<'static> = ArgWords::Valued(
    "dir",
    "DIR",
    "The folder of requirements.txt [env: REQLOCK_DIR] [default: .]",
);

const INDEX: ArgWords<'static> = ArgWords::Valued(
    "index",
    "FILE",
    "The snapshot of the index [env: REQLOCK_INDEX]",
);

const ENVIRONMENT: ArgWords<'static> = ArgWords::Repeated(
    "env",
    "FILE",
    "The environment that a lock is for; or NAME=FILE",
);

/// What clap is to read.
pub fn command<'a>(alloc: Global) -> Result<Command<'a>, AllocError>
    ensures app { IfOk result (λ c. app_of c ≡ reqlock_app) }
{
    with_subcommands(alloc, program(alloc)?, &SUBCOMMANDS)
}

/// The command with these subcommands behind its own.
fn with_subcommands<'a>(
    alloc: Global,
    start: Command<'a>,
    all: &[SubcommandWords<'static>],
) -> Result<Command<'a>, AllocError>
    ensures app { IfOk result (λ c. app_of c
        ≡ with_subcommands (app_of start.entry) (map shape_of_words all.now)) }
{
    let mut command = start;
    for words in all {
        command = command.subcommand(subcommand(alloc, words)?)?;
    }
    Ok(command)
}

/// A subcommand, with the options, which may stand behind it too.
fn subcommand<'a>(
    alloc: Global,
    words: &SubcommandWords<'static>,
) -> Result<Command<'a>, AllocError>
    ensures app { IfOk result (λ c. app_of c ≡ app_of_words words.now) }
{
    let own = with_arguments(alloc, options(alloc, words.help)?, words.args)?;
    let args = with_arguments(alloc, own, &TELLING)?;
    with_usage(
        Command::new(alloc, words.name)
            .about(words.help.about)
            .after_help(words.help.example),
        words.help.usage,
    )
    .args(args)
}

/// The command with this usage line, where there is one.
fn with_usage<'a>(command: Command<'a>, usage: Option<&'a str>) -> Command<'a>
    ensures app { app_of result ≡ app_of command.entry }
{
    match usage {
        Some(usage) => command.override_usage(usage),
        None => command,
    }
}

/// The program's own name and options.
fn program<'a>(alloc: Global) -> Result<Command<'a>, AllocError>
    ensures app { IfOk result (λ c. app_of c ≡ options_app) }
{
    let own = with_arguments(alloc, options(alloc, Help::ALL)?, &FLAGS)?;
    let args = with_arguments(alloc, own, &TELLING)?;
    Command::new(alloc, "reqlock")
        .about("A locker for Python requirements files, with undo and redo")
        .version(VERSION)
        .subcommand_required(true)
        .args(args)
}

/// The options that each subcommand takes, of which its help shows some.
fn options<'a>(alloc: Global, help: Help<'_>) -> Result<Vec<Arg<'a>>, AllocError>
    ensures args { IfOk result (λ args. map rule_of args.items ≡ option_rules) }
{
    let args = vec![in alloc;
        argument(alloc, &DIR).hide(!help.shows_dir),
        argument(alloc, &INDEX).hide(!help.shows_index),
        argument(alloc, &ENVIRONMENT).hide(!help.shows_environment),
    ]?;
    Ok(args)
}
