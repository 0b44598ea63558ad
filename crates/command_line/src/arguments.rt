// Arguments as clap is given them.

ghost use Rattle.std.specs.Prelude.{◌≡◌, ◌++◌, map, IfOk};
ghost use Rattle.clap.specs.Words.{rule_of};
ghost use Rattle.command_line.specs.CommandWords.{flag_rule, option_rule, text_rule};
ghost use Rattle.command_line.specs.Tied.Tables.{rule_of_words};

use crate::descriptions::ArgWords;
use clap::{Arg, ArgAction};
use std::alloc::{AllocError, Global};

/// Puts these arguments behind the others.
pub(crate) fn with_arguments<'a>(
    alloc: Global,
    others: Vec<Arg<'a>>,
    words: &[ArgWords<'static>],
) -> Result<Vec<Arg<'a>>, AllocError>
    ensures args { IfOk result (λ args. map rule_of args.items
        ≡ map rule_of others.entry.items ++ map rule_of_words words.now) }
{
    let mut args = others;
    for word in words {
        args.push(argument(alloc, word))?;
    }
    Ok(args)
}

/// One argument.
pub(crate) fn argument<'a>(alloc: Global, words: &ArgWords<'static>) -> Arg<'a>
    ensures rule { rule_of result ≡ rule_of_words words.now }
{
    match *words {
        ArgWords::Flag(name, help) => flag(alloc, name, help),
        ArgWords::Lettered(letter, name, help) => flag(alloc, name, help).short(letter),
        ArgWords::Valued(name, value, help) => option(alloc, name, value, help),
        ArgWords::Repeated(name, value, help) => {
            option(alloc, name, value, help).action(ArgAction::Append)
        }
        ArgWords::Ranged(name, values, least, end, help) => option(alloc, name, "", help)
            .value_names(values)
            .num_args(least..end),
        ArgWords::Several(name, value, help) => option(alloc, name, value, help).num_args(..),
        ArgWords::Text(name, value, help) => text(alloc, name, value, help),
        ArgWords::Needed(name, value, help) => text(alloc, name, value, help).required(true),
        ArgWords::Texts(name, value, help) => text(alloc, name, value, help).num_args(..),
    }
}

fn flag<'a>(alloc: Global, name: &'a str, help: &'a str) -> Arg<'a>
    ensures rule { rule_of result ≡ flag_rule name.entry.now }
{
    Arg::new(alloc, name)
        .long(name)
        .action(ArgAction::SetTrue)
        .help(help)
}

fn option<'a>(alloc: Global, name: &'a str, value: &'a str, help: &'a str) -> Arg<'a>
    ensures rule { rule_of result ≡ option_rule name.entry.now }
{
    Arg::new(alloc, name)
        .long(name)
        .value_name(value)
        .help(help)
}

fn text<'a>(alloc: Global, name: &'a str, value: &'a str, help: &'a str) -> Arg<'a>
    ensures rule { rule_of result ≡ text_rule name.entry.now }
{
    Arg::new(alloc, name).value_name(value).help(help)
}
