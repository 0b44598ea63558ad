// What the program's command line is described by.

use crate::subcommand_help::Help;

/// An argument: its name, what help calls its values, and what help tells of it.
#[derive(Clone, Copy)]
pub(crate) enum ArgWords<'a> {
    /// An option without a value, as --explain.
    Flag(&'a str, &'a str),
    /// The same with a letter in front, as -v, --verbose.
    Lettered(char, &'a str, &'a str),
    /// An option with one value, as --dir DIR.
    Valued(&'a str, &'a str, &'a str),
    /// An option that may be given several times, as --env FILE.
    Repeated(&'a str, &'a str, &'a str),
    /// An option with values, at least so many and fewer than so many, as --constrain NAME [SPEC].
    Ranged(&'a str, &'a [&'a str], usize, usize, &'a str),
    /// An option with any number of values, as --upgrade [NAME]...
    Several(&'a str, &'a str, &'a str),
    /// A text that may be missing, as [SPEC].
    Text(&'a str, &'a str, &'a str),
    /// A text that must be there, as NAME.
    Needed(&'a str, &'a str, &'a str),
    /// Texts, as many as are given, as [NAME]...
    Texts(&'a str, &'a str, &'a str),
}

/// A subcommand, with its arguments beside the options that each takes.
#[derive(Clone, Copy)]
pub(crate) struct SubcommandWords<'a> {
    pub name: &'a str,
    pub help: Help<'a>,
    pub args: &'a [ArgWords<'a>],
}
