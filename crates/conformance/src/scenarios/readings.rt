// Readings of texts.

use crate::scenarios::calls::{play, surely};
use crate::scenarios::data::{self, ENVIRONMENT, LINES, index_text};
use edits::{Environment, Line, Name, ReqFile, Snapshot};
use pep440::{SpecifierSet, Version};
use pep508::Marker;
use std::alloc::Global;
use std::io::Write;

/// Reads a text of the command line, or where none is told the file, the environment or the index.
pub fn read<W: Write>(alloc: Global, out: &mut W, told: &str) -> Option<()> {
    let (what, text) = told.split_once(' ').unwrap_or((told, ""));
    match what {
        "version" => play(alloc, out, &mut (), |_| Version::parse(alloc, text)),
        "set" => play(alloc, out, &mut (), |_| SpecifierSet::parse(alloc, text)),
        "name" => play(alloc, out, &mut (), |_| Name::parse(alloc, text)),
        "line" => play(alloc, out, &mut (), |_| Line::read(alloc, text)),
        _ => read_file(alloc, out, what),
    }
}

/// Reads the file, the environment or the index.
fn read_file<W: Write>(alloc: Global, out: &mut W, what: &str) -> Option<()> {
    let (file, environment) = (LINES.as_bytes(), ENVIRONMENT.as_bytes());
    let text = index_text(alloc)?;
    let index = text.as_bytes();
    match what {
        "file" => play(alloc, out, &mut (), |_| ReqFile::read(alloc, file)),
        "environment" => play(
            alloc,
            out,
            &mut (),
            |_| Environment::read(alloc, environment),
        ),
        "index" => play(alloc, out, &mut (), |_| Snapshot::read(alloc, index)),
        _ => None,
    }
}

/// Compares versions, and asks a set and a marker: none of it takes memory.
pub fn compare<W: Write>(alloc: Global, out: &mut W) -> Option<()> {
    let one = Version::parse(alloc, "1.0.post1").ok()?;
    let other = Version::parse(alloc, "1.0+ab.7").ok()?;
    let set = SpecifierSet::parse(alloc, "~=1.0,!=1.0").ok()?;
    let marker = "os_name == 'posix' and python_version > '3.9'";
    let marker = Marker::parse(alloc, marker).ok()?;
    let environment = data::environment(alloc)?;
    play(alloc, out, &mut (), |_| {
        let holds = marker.holds(&environment, None);
        surely([other < one, one == other, set.matches(&one), holds])
    })
}
