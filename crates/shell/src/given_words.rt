// The words of the command line, with the options that the environment gives.

ghost use Rattle.std.specs.IoError.{error_kind};
ghost use Rattle.std.specs.Prelude.{◌≡◌, map, string_bytes};
ghost use Rattle.shell.specs.GivenWords.{gives, has_option, no_words_by, status_without};
ghost use Rattle.shell.specs.declared.given_words.NoWords.TheVariants as no_words;

use commands::batch::StreamFault;
use reports::report::{Status, report_fault};
use std::alloc::{AllocError, AllocFailed};
use std::env::VarError;
use std::io::{self, ErrorKind, Write};
use std::rt::Env;

/// Why there are no words.
#[derive(Drop)]
pub enum NoWords {
    /// A word isn't UTF-8.
    BadWord,
    /// The value of this variable isn't UTF-8.
    BadVariable(&'static str),
    OutOfMemory,
}

impl From<AllocError> for NoWords {
    ghost from_gives = { λ _ words. words ≡ no_words.OutOfMemory };

    fn from(_error: AllocError) -> NoWords {
        NoWords::OutOfMemory
    }
}

impl<T: Drop> From<AllocFailed<T>> for NoWords {
    ghost from_gives = { λ _ words. words ≡ no_words.OutOfMemory };

    fn from(_error: AllocFailed<T>) -> NoWords {
        NoWords::OutOfMemory
    }
}

impl From<io::Error> for NoWords {
    ghost from_gives = { λ error words. words ≡ no_words_by (error_kind error) };

    fn from(error: io::Error) -> NoWords {
        match error.kind() {
            ErrorKind::OutOfMemory => NoWords::OutOfMemory,
            _ => NoWords::BadWord,
        }
    }
}

/// The words of the command line, the program's name in front. Where they don't have `--index` or `--dir`, it
/// stands behind the name with the value of `REQLOCK_INDEX` or `REQLOCK_DIR`, unless that is empty.
pub fn given_words<R: Env + AllocGlobal>(rt: &R) -> Result<Vec<String>, NoWords> {
    let mut words = std::env::args(rt)?.collect(rt.alloc())?;
    add_option(rt, &mut words, "--index", "REQLOCK_INDEX")?;
    add_option(rt, &mut words, "--dir", "REQLOCK_DIR")?;
    Ok(words)
}

/// Puts an option behind the program's name, with the value of a variable.
fn add_option<R: Env + AllocGlobal>(
    rt: &R,
    words: &mut Vec<String>,
    option: &str,
    variable: &'static str,
) -> Result<(), NoWords> {
    if words.is_empty() || has_option(words.as_slice(), option) {
        return Ok(());
    }
    let value = match std::env::var(rt, variable) {
        Ok(value) => value,
        Err(VarError::NotPresent) => return Ok(()),
        Err(VarError::NotUnicode) => return Err(NoWords::BadVariable(variable)),
        Err(VarError::OutOfMemory) => return Err(NoWords::OutOfMemory),
    };
    if value.is_empty() {
        return Ok(());
    }
    let word = format!(in rt.alloc(); "{option}={value}")?;
    words.insert(1, word)?;
    Ok(())
}

/// Whether the words give the option, as `--index FILE` or `--index=FILE`. Behind `--` stand texts alone.
pub fn has_option(words: &[String], option: &str) -> bool
    ensures { result ≡ has_option option.now (map string_bytes words.now) }
{
    for position in 0..words.len() {
        let word = words[position].as_str();
        if word == "--" {
            return false;
        }
        if gives(word, option) {
            return true;
        }
    }
    false
}

fn gives(word: &str, option: &str) -> bool
    ensures { result ≡ gives option.now word.now }
{
    match word.split_once('=') {
        Some((name, _value)) => name == option,
        None => word == option,
    }
}

/// Tells why there are no words, and gives the status of that.
pub fn report_words<E: Write>(fault: &NoWords, errors: &mut E) -> Status
    ensures { result ≡ status_without fault.now }
{
    match fault {
        NoWords::BadWord => {
            let _ = writeln!(errors, "reqlock: a word of the command line is not UTF-8");
            Status::Usage
        }
        NoWords::BadVariable(variable) => {
            let _ = writeln!(errors, "reqlock: {variable} is not UTF-8");
            Status::Usage
        }
        NoWords::OutOfMemory => report_fault(StreamFault::OutOfMemory, errors),
    }
}
