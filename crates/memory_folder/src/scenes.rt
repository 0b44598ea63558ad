// A save of which one lock goes and another comes: what it leaves at each stop, and where a call of the folder fails.

ghost use Rattle.std.specs.Prelude.{◌≡◌};

use crate::memory::MemoryFolder;
use folder::{NewFile, WriteFault, save};
use lists::{Seq, Text};
use std::alloc::Global;
use std::io::{self, Write};

// The files, in the order in which they are told.
const NAMES: [&str; 4] = [
    "requirements.txt",
    "pylock.a.toml",
    "pylock.b.toml",
    "reqlock.journal",
];

// So many calls both saves make together.
const ALL_CALLS: usize = 13;

/// Tells what the folder holds at each moment of the save.
pub fn tell_stops<W: Write>(alloc: Global, out: &mut W) -> io::Result<()> {
    let mut folder = MemoryFolder::new(alloc, None);
    let _ = save_old(&mut folder);
    let before = folder.moments();
    let _ = save_new(alloc, &mut folder);
    for moment in before..=folder.moments() {
        tell_held(out, &folder, moment)?;
    }
    Ok(())
}

/// Tells what the folder holds where one call of it failed.
pub fn tell_faults<W: Write>(alloc: Global, out: &mut W) -> io::Result<()> {
    for answered in 0..=ALL_CALLS {
        let mut folder = MemoryFolder::new(alloc, Some(answered));
        let is_old_saved = save_old(&mut folder).is_ok();
        let is_new_saved = save_new(alloc, &mut folder).is_ok();
        writeln!(out, "{answered} calls: {is_old_saved} {is_new_saved}")?;
        tell_held(out, &folder, folder.moments())?;
    }
    Ok(())
}

fn save_old(folder: &mut MemoryFolder) -> Result<(), WriteFault> {
    let files = [
        NewFile {
            name: "requirements.txt",
            bytes: b"old",
        },
        NewFile {
            name: "pylock.a.toml",
            bytes: b"old",
        },
        NewFile {
            name: "reqlock.journal",
            bytes: b"old",
        },
    ];
    save(folder, &files, &[])
}

fn save_new(alloc: Global, folder: &mut MemoryFolder) -> Result<(), WriteFault> {
    let files = [
        NewFile {
            name: "requirements.txt",
            bytes: b"new",
        },
        NewFile {
            name: "reqlock.journal",
            bytes: b"new",
        },
        NewFile {
            name: "pylock.b.toml",
            bytes: b"new",
        },
    ];
    let going = [Text::copy_of(alloc, "pylock.a.toml")?];
    save(folder, &files, &going)
}

/// Tells what stands in the place of each file and beside it after so many changes.
fn tell_held<W: Write>(out: &mut W, folder: &MemoryFolder, moment: usize) -> io::Result<()> {
    write!(out, "{moment}:")?;
    for name in NAMES {
        let standing = folder.standing(moment, name)?;
        let (placed, beside) = (word_of(&standing.placed), word_of(&standing.beside));
        write!(out, " {placed}/{beside}")?;
    }
    writeln!(out)
}

/// The word for the bytes of a file.
fn word_of(bytes: &Option<Seq<u8>>) -> &'static str {
    match bytes {
        None => "none",
        Some(bytes) if bytes.as_slice() == b"old".as_slice() => "old",
        Some(bytes) if bytes.as_slice() == b"new".as_slice() => "new",
        Some(_) => "torn",
    }
}
