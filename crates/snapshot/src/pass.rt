// Reading an index in one pass over its text, a package at a time.
//
// No tree of the whole text is made. `None` means that this reader can't tell: something isn't as the
// format asks for, or memory was refused.

ghost use Rattle.std.specs.Prelude.{◌≡◌, ◌<◌, ◌∷◌, [], IfSome, IsTrue, Ok, Some, length};
ghost use Rattle.json.specs.Json.{value};
ghost use Rattle.json.specs.Token.{begin_array, begin_object, end_object, key};
ghost use Rattle.serde_json.specs.Data.{Data};
ghost use Rattle.serde_json.specs.Read.{converted, of_json, read as read_json};
ghost use Rattle.snapshot.specs.Packages.{package_of, packages_of};
ghost use Rattle.snapshot.specs.Tied.Meaning.{ArePackages, IsFront, IsOne, packages_in_bytes};

mod data;
mod file;
mod members;
mod package;
mod release;

use crate::package::{ReadPackage, ReadPackages};
use crate::pass::data::{is_data, whole_of};
use crate::pass::package::package_of;
use json::{Reader, Scratch, Token, Value};
use lists::Seq;
use std::alloc::Global;

/// How deep a package may nest: the index and the list of packages are around it.
const PACKAGE_DEPTH: usize = 125;

/// The package that the reader comes to.
fn next_package(alloc: Global, reader: &mut Reader<'_>) -> Option<ReadPackage>
    ensures meaning { IfSome result (λ read. (d : Data)
        × (converted of_json (value 125 reader.old) ≡ Some (d, reader.new))
        × (package_of d ≡ Ok read)) }
    ensures shorter { IfSome result (λ _. length reader.new < length reader.old) }
{
    let Ok(value) = Value::read(alloc, reader, PACKAGE_DEPTH) else {
        return None;
    };
    if !is_data(&value, PACKAGE_DEPTH) {
        return None;
    }
    package_of(alloc, &value)
}

/// The packages up to the end of their list, with all releases that are left out.
fn listed_packages(alloc: Global, reader: &mut Reader<'_>) -> Option<ReadPackages>
    ensures { IfSome result (λ read. ArePackages reader.old reader.new read) }
{
    let mut packages = Vec::new(alloc);
    let mut all_skipped = Vec::new(alloc);
    'packages: while !reader.take_end_array() {
        let ReadPackage { kept, skipped } = next_package(alloc, reader)?;
        let Ok(()) = packages.push(kept) else {
            return None;
        };
        let Ok(()) = all_skipped.append(&mut skipped.into_vec()) else {
            return None;
        };
    }
    Some(ReadPackages {
        packages: Seq::from_vec(packages),
        skipped: Seq::from_vec(all_skipped),
    })
}

/// Passes the brace that opens an object.
fn pass_object(reader: &mut Reader<'_>) -> bool
    ensures { IsTrue result → reader.old ≡ begin_object ∷ reader.new }
{
    matches!(reader.next(), Some(Token::BeginObject))
}

/// Passes the bracket that opens an array.
fn pass_array(reader: &mut Reader<'_>) -> bool
    ensures { IsTrue result → reader.old ≡ begin_array ∷ reader.new }
{
    matches!(reader.next(), Some(Token::BeginArray))
}

/// Passes this key.
fn pass_key(reader: &mut Reader<'_>, wanted: &str) -> bool
    ensures { IsTrue result → reader.old ≡ key wanted.now ∷ reader.new }
{
    match reader.next_key() {
        Ok(Some(found)) => found == wanted,
        _ => false,
    }
}

/// Passes the version of the format, which is 1.
fn pass_one(reader: &mut Reader<'_>) -> bool
    ensures { IsTrue result → IsOne reader.old reader.new }
{
    match reader.next() {
        Some(Token::Number(text)) => whole_of(text) == Some(1),
        _ => false,
    }
}

/// Passes the front of an index, up to the first package.
fn pass_front(reader: &mut Reader<'_>) -> bool
    ensures { IsTrue result → IsFront reader.old reader.new }
{
    if !pass_object(reader) || !pass_key(reader, "snapshot") {
        return false;
    }
    if !pass_one(reader) || !pass_key(reader, "packages") {
        return false;
    }
    pass_array(reader)
}

/// Whether the index ends behind its packages.
fn is_end(reader: &mut Reader<'_>) -> bool
    ensures { IsTrue result → reader.old ≡ end_object ∷ [] }
{
    let Ok(None) = reader.next_key() else {
        return false;
    };
    reader.next().is_none()
}

/// The packages of an index whose text is all as the format asks for.
fn packages_in(alloc: Global, text: &str) -> Option<ReadPackages>
    ensures { IfSome result (λ read. (d : Data) × (read_json text.now ≡ Some d)
        × (packages_of d ≡ Ok read)) }
{
    let mut scratch = Scratch::new(alloc);
    let Ok(mut reader) = Reader::new(text, &mut scratch) else {
        return None;
    };
    if !pass_front(&mut reader) {
        return None;
    }
    let read = listed_packages(alloc, &mut reader)?;
    if !is_end(&mut reader) {
        return None;
    }
    Some(read)
}

/// The packages of an index whose bytes are all as the format asks for.
pub(crate) fn packages_of(alloc: Global, bytes: &[u8]) -> Option<ReadPackages>
    ensures { IfSome result (λ read. packages_in_bytes bytes.now ≡ Ok read) }
{
    let Ok(text) = std::str::from_utf8(bytes) else {
        return None;
    };
    packages_in(alloc, text)
}
