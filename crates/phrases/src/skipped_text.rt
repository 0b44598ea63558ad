// What was left out of an index, for people.

use crate::cause_word::cause_word;
use crate::plain_text::add_plain;
use pep508::{Cause, Name};
use snapshot::{SkipCause, Skipped};
use std::alloc::{AllocError, Global};

/// A line for each release that was left out: the package, the place of the release in the package's
/// list, from 0, and why it was left out.
pub fn skipped_text(alloc: Global, skipped: &[Skipped]) -> Result<String, AllocError> {
    let mut text = String::new(alloc);
    for release in skipped {
        add_release(&mut text, release)?;
    }
    Ok(text)
}

/// The same lines of the releases of one name, each with its version as the index writes it.
pub fn add_skipped(text: &mut String, skipped: &[Skipped], name: &Name) -> Result<(), AllocError> {
    for release in skipped {
        if release.package() == name {
            text.push_str(name.normal())?;
            text.push_str(" ")?;
            add_plain(text, release.version())?;
            add_place(text, release)?;
        }
    }
    Ok(())
}

fn add_release(text: &mut String, release: &Skipped) -> Result<(), AllocError> {
    text.push_str(release.package().normal())?;
    add_place(text, release)
}

/// Where the release stands, and why it was left out.
fn add_place(text: &mut String, release: &Skipped) -> Result<(), AllocError> {
    let place = release.place();
    write!(text, ": release {place}: ")?;
    add_cause(text, release.cause())?;
    text.push_str("\n")
}

fn add_cause(text: &mut String, cause: SkipCause) -> Result<(), AllocError> {
    match cause {
        SkipCause::Version(fault) => {
            let word = cause_word(Cause::Specifier(fault));
            write!(text, "version {word}")
        }
        SkipCause::RequiresPython(fault) => {
            let word = cause_word(Cause::Specifier(fault));
            write!(text, "requires-python {word}")
        }
        SkipCause::Requirement(place, cause) => {
            let word = cause_word(cause);
            write!(text, "requirement {place} {word}")
        }
        SkipCause::NoFile => text.push_str("no-file"),
        SkipCause::FileName => text.push_str("file-name"),
        SkipCause::FileUrl => text.push_str("file-url"),
        SkipCause::Duplicate => text.push_str("duplicate"),
    }
}
