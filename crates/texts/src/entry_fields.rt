// Which fields differ of entries that lock one version.

ghost use Rattle.std.specs.Prelude.{◌≡◌, ◌++◌, true, IfOk, codes, map, not, string_bytes};
ghost use Rattle.std.specs.List.{list_any, zip};
ghost use Rattle.std.specs.Str.{bytes_eq};
ghost use Rattle.lists.specs.Rising.{rises};
ghost use Rattle.pylock.specs.Python.{python_text};
ghost use Rattle.texts.specs.OtherFields.{are_elsewhere, asks_other_python, has_other_digest, has_other_files, has_other_hashes, has_other_needs, has_other_sdist_digest, in_brackets, is_elsewhere, is_other_sdist, other_fields, told_if};
ghost use Rattle.texts.specs.Tied.Fields.{close_told, field_told};

use edits::{DistributionFile, Entry};
use pep440::RequiresPython;
use pep508::Name;
use std::alloc::AllocError;

/// Puts in brackets behind the text which fields differ of two entries, if both lock one version, however it is written.
pub(crate) fn add_other_fields(
    text: &mut String,
    old: &Entry,
    new: &Entry,
) -> Result<(), AllocError>
    ensures { IfOk result (λ _.
        string_bytes text.new ≡ string_bytes text.old ++ other_fields old.now new.now) }
{
    if old.version() != new.version() {
        return Ok(());
    }
    let has_files = has_other_files(old, new);
    let has_hashes = has_other_hashes(old, new);
    let has_python = asks_other_python(old.requires_python(), new.requires_python());
    let has_needs = has_other_needs(old.dependencies(), new.dependencies());
    add_fields(text, has_files, has_hashes, has_python, has_needs)
}

/// Puts the fields that are others behind the text, in brackets.
fn add_fields(
    text: &mut String,
    has_files: bool,
    has_hashes: bool,
    has_python: bool,
    has_needs: bool,
) -> Result<(), AllocError>
    ensures { IfOk result (λ _. string_bytes text.new ≡ string_bytes text.old ++ in_brackets
        (told_if has_files (codes "files") ++ told_if has_hashes (codes "hashes")
        ++ told_if has_python (codes "requires-python") ++ told_if has_needs (codes "dependencies"))) }
{
    add_field(text, false, has_files, "files")?;
    add_field(text, has_files, has_hashes, "hashes")?;
    let has_one = has_files | has_hashes;
    add_field(text, has_one, has_python, "requires-python")?;
    let has_one = has_one | has_python;
    add_field(text, has_one, has_needs, "dependencies")?;
    close_fields(text, has_one | has_needs)?;
    Ok(())
}

/// Puts a field behind the text, if it is another; behind others, or as the first one.
fn add_field(
    text: &mut String,
    is_open: bool,
    is_other: bool,
    field: &str,
) -> Result<(), AllocError>
    ensures { IfOk result (λ _. string_bytes text.new
        ≡ string_bytes text.old ++ field_told is_open is_other field.now) }
{
    if !is_other {
        return Ok(());
    }
    if is_open {
        text.push_str(", ")?;
        text.push_str(field)?;
        return Ok(());
    }
    text.push_str(" (")?;
    text.push_str(field)?;
    Ok(())
}

/// Ends the fields, if there are any.
fn close_fields(text: &mut String, is_open: bool) -> Result<(), AllocError>
    ensures { IfOk result (λ _.
        string_bytes text.new ≡ string_bytes text.old ++ close_told is_open) }
{
    if !is_open {
        return Ok(());
    }
    text.push_str(")")?;
    Ok(())
}

/// Whether files came or went, or stand elsewhere, or have another size.
fn has_other_files(old: &Entry, new: &Entry) -> bool
    ensures { result ≡ has_other_files old.now new.now }
{
    is_other_sdist(old.sdist(), new.sdist()) || are_elsewhere(old.wheels(), new.wheels())
}

fn is_other_sdist(old: &Option<DistributionFile>, new: &Option<DistributionFile>) -> bool
    ensures { result ≡ is_other_sdist old.now new.now }
{
    match (old, new) {
        (None, None) => false,
        (Some(file), Some(other)) => is_elsewhere(file, other),
        (Some(_), None) => true,
        (None, Some(_)) => true,
    }
}

fn are_elsewhere(files: &[DistributionFile], others: &[DistributionFile]) -> bool
    ensures { result ≡ are_elsewhere files.now others.now }
{
    files.len() != others.len() || is_one_elsewhere(files, others)
}

/// Whether one of the files is elsewhere than the one at its place among others.
fn is_one_elsewhere(files: &[DistributionFile], others: &[DistributionFile]) -> bool
    ensures { result ≡ list_any (λ pair. is_elsewhere pair.0 pair.1) (zip files.now others.now) }
{
    files
        .iter()
        .zip(others)
        .any(|(file, other)| is_elsewhere(file, other))
}

fn is_elsewhere(file: &DistributionFile, other: &DistributionFile) -> bool
    ensures { result ≡ is_elsewhere file.now other.now }
{
    file.name.as_str() != other.name.as_str()
        || file.url.as_str() != other.url.as_str()
        || file.size != other.size
}

/// Whether a file of one name has another digest.
fn has_other_hashes(old: &Entry, new: &Entry) -> bool
    ensures { result ≡ has_other_hashes old.now new.now }
{
    has_other_sdist_digest(old.sdist(), new.sdist()) || has_other_wheel_digests(old, new)
}

fn has_other_wheel_digests(old: &Entry, new: &Entry) -> bool
    ensures { result
        ≡ list_any (λ file. list_any (has_other_digest file) new.now.wheels) old.now.wheels }
{
    new.recall_invariant();
    has_other_wheels(old.wheels(), new.wheels())
}

fn has_other_sdist_digest(old: &Option<DistributionFile>, new: &Option<DistributionFile>) -> bool
    ensures { result ≡ has_other_sdist_digest old.now new.now }
{
    match (old, new) {
        (Some(file), Some(other)) => has_other_digest(file, other),
        (None, None) => false,
        (Some(_), None) => false,
        (None, Some(_)) => false,
    }
}

/// Whether one of the files has another digest than the wheel of its name.
fn has_other_wheels(files: &[DistributionFile], wheels: &[DistributionFile]) -> bool
    requires { rises (map (λ f. f.name) wheels.now) ≡ true }
    ensures { result
        ≡ list_any (λ file. list_any (has_other_digest file) wheels.now) files.now }
{
    for file in files {
        if has_other_wheel(file, wheels) {
            return true;
        }
    }
    false
}

/// Whether a wheel of the same name has another digest. Wheels stand in the order of their names.
fn has_other_wheel(file: &DistributionFile, wheels: &[DistributionFile]) -> bool
    requires { rises (map (λ f. f.name) wheels.now) ≡ true }
    ensures { result ≡ list_any (has_other_digest file.now) wheels.now }
{
    let name = file.name.as_str();
    match wheels.binary_search_by(|other| other.name.as_str().cmp(name)) {
        Ok(position) => has_other_digest(file, &wheels[position]),
        Err(_) => false,
    }
}

fn has_other_digest(file: &DistributionFile, other: &DistributionFile) -> bool
    ensures { result ≡ has_other_digest file.now other.now }
{
    file.name.as_str() == other.name.as_str() && file.sha256.as_str() != other.sha256.as_str()
}

/// Whether other Pythons are asked for.
fn asks_other_python(old: &Option<RequiresPython>, new: &Option<RequiresPython>) -> bool
    ensures { result ≡ asks_other_python (python_text old.now) (python_text new.now) }
{
    match (old, new) {
        (Some(python), Some(other)) => python.text() != other.text(),
        (None, None) => false,
        (Some(_), None) => true,
        (None, Some(_)) => true,
    }
}

/// Whether other names are needed.
fn has_other_needs(needs: &[Name], others: &[Name]) -> bool
    ensures { result ≡ has_other_needs needs.now others.now }
{
    needs.len() != others.len() || is_one_another(needs, others)
}

/// Whether one of the names is another than the one at its place among others.
fn is_one_another(names: &[Name], others: &[Name]) -> bool
    ensures { result ≡ list_any (λ pair. not (bytes_eq pair.0 pair.1)) (zip names.now others.now) }
{
    names
        .iter()
        .zip(others)
        .any(|(name, other)| name.normal() != other.normal())
}
