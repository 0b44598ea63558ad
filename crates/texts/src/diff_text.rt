// What a change did, for people.

ghost use Rattle.std.specs.Prelude.{◌≡◌, ◌+◌, ◌++◌, false, None, IfOk, flat_map, map, option_copied, string_bytes};
ghost use Rattle.pep508.specs.Parts.{content_of};
ghost use Rattle.texts.specs.DiffText.{as_line, diff_text, digest_told, digests_told, end_told, entries_told, entry_change_told, entry_line, entry_told, first_lock_text, first_lock_told, heading, heading_of, line_told, lines_told, splice_told, splices_told};
ghost use Rattle.texts.specs.declared.sign.Sign.TheVariants.{Came};

use crate::entry_fields::add_other_fields;
use crate::sign::Sign;
use crate::target_text::{add_entry_count, has_same_target, sign_of_whole, target_lines};
use edits::{Change, DigestChange, Entry, EntryChange, Splice, Target, TargetName};
use lists::Text;
use phrases::{Style, add_plain, add_target_line};
use std::alloc::{AllocError, Global};

/// The lines of the requirements file that a change takes out, with `-` and their numbers before it, and those
/// that it puts in, with `+` and their numbers behind it. Then what became of targets, a line for each entry, those of
/// a named target below its name, and the digests of the index, where it is another. The entries of a target that comes or
/// goes are counted. What came is green, what went red, and of an entry with another version the name is bold, the old
/// version red and the new one green.
pub fn diff_text(alloc: Global, change: &Change, style: Style) -> Result<String, AllocError>
    ensures plain { style.colors ≡ false →
        IfOk result (λ text. string_bytes text ≡ diff_text change.now) }
{
    let mut text = String::new(alloc);
    add_splices(&mut text, style, change.splices())?;
    let lines = target_lines(alloc, style, change.targets())?;
    add_text_lines(&mut text, lines.as_slice())?;
    add_entries(&mut text, style, change)?;
    add_digests(alloc, &mut text, style, change.digests())?;
    Ok(text)
}

/// Puts texts behind another, each as a line.
fn add_text_lines(text: &mut String, lines: &[String]) -> Result<(), AllocError>
    ensures { IfOk result (λ _. string_bytes text.new
        ≡ string_bytes text.old ++ flat_map as_line (map string_bytes lines.now)) }
{
    for line in lines {
        text.push_str(line.as_str())?;
        text.push_str("\n")?;
    }
    Ok(())
}

/// The entries of first locks, as `diff_text` tells entries that are put in.
pub fn first_lock_text(
    alloc: Global,
    targets: &[Target],
    style: Style,
) -> Result<String, AllocError>
    ensures plain { style.colors ≡ false →
        IfOk result (λ text. string_bytes text ≡ first_lock_text targets.now) }
{
    let mut text = String::new(alloc);
    for target in targets {
        add_first_lock(&mut text, style, target)?;
    }
    Ok(text)
}

/// Puts a first lock behind the text: its entries below the name of its target.
fn add_first_lock(text: &mut String, style: Style, target: &Target) -> Result<(), AllocError>
    ensures plain { style.colors ≡ false → IfOk result (λ _.
        string_bytes text.new ≡ string_bytes text.old ++ first_lock_told target.now) }
{
    let entries = target.lock.entries();
    if entries.is_empty() {
        return Ok(());
    }
    add_target_line(text, target.name.as_str())?;
    add_new_entries(text, style, entries)
}

fn add_new_entries(text: &mut String, style: Style, entries: &[Entry]) -> Result<(), AllocError>
    ensures plain { style.colors ≡ false → IfOk result (λ _. string_bytes text.new
        ≡ string_bytes text.old ++ flat_map (λ entry. as_line (entry_told Came entry)) entries.now) }
{
    for entry in entries {
        add_entry(text, style, Sign::Came, entry)?;
        text.push_str("\n")?;
    }
    Ok(())
}

/// An entry that came or went.
fn add_entry(text: &mut String, style: Style, sign: Sign, entry: &Entry) -> Result<(), AllocError>
    ensures plain { style.colors ≡ false → IfOk result (λ _.
        string_bytes text.new ≡ string_bytes text.old ++ entry_told sign entry.now) }
{
    let (name, version) = (entry.name().normal(), entry.version());
    sign.begin(text, style)?;
    write!(text, "{name} {version}")?;
    style.end(text)
}

fn add_splices(text: &mut String, style: Style, splices: &[Splice]) -> Result<(), AllocError>
    ensures plain { style.colors ≡ false → IfOk result (λ _.
        string_bytes text.new ≡ string_bytes text.old ++ splices_told 0 0 splices.now) }
{
    let mut taken = 0u64;
    let mut put = 0u64;
    for splice in splices {
        add_splice(text, style, put, taken, splice)?;
        taken = taken.saturating_add(splice.old.len() as u64);
        put = put.saturating_add(splice.new.len() as u64);
    }
    Ok(())
}

/// The lines of a splice. So many lines were put in and taken out before it.
fn add_splice(
    text: &mut String,
    style: Style,
    put: u64,
    taken: u64,
    splice: &Splice,
) -> Result<(), AllocError>
    ensures plain { style.colors ≡ false → IfOk result (λ _.
        string_bytes text.new ≡ string_bytes text.old ++ splice_told put taken splice.now) }
{
    let old = splice.place.saturating_add(1);
    let new = old.saturating_add(put).saturating_sub(taken);
    add_lines(text, style, Sign::Went, old, splice.old.as_slice())?;
    add_lines(text, style, Sign::Came, new, splice.new.as_slice())
}

/// Lines of which the first has this number.
fn add_lines(
    text: &mut String,
    style: Style,
    sign: Sign,
    first: u64,
    lines: &[Text],
) -> Result<(), AllocError>
    ensures plain { style.colors ≡ false → IfOk result (λ _.
        string_bytes text.new ≡ string_bytes text.old ++ lines_told sign first lines.now) }
{
    let mut number = first;
    for line in lines {
        add_line(text, style, sign, number, line.as_str())?;
        number = number.saturating_add(1);
    }
    Ok(())
}

/// A line without its ending, which is told where it has none.
fn add_line(
    text: &mut String,
    style: Style,
    sign: Sign,
    number: u64,
    line: &str,
) -> Result<(), AllocError>
    ensures plain { style.colors ≡ false → IfOk result (λ _.
        string_bytes text.new ≡ string_bytes text.old ++ line_told sign number line.now) }
{
    sign.begin(text, style)?;
    write!(text, "{number}: ")?;
    add_plain(text, content_of(line))?;
    style.end(text)?;
    text.push_str(end_told(line))
}

/// A line without its ending.
fn content_of(line: &str) -> &str
    ensures { result.now ≡ content_of line.now }
{
    let end = match line.as_bytes() {
        [.., b'\r', b'\n'] => line.len() - 2,
        [.., b'\n'] => line.len() - 1,
        _ => line.len(),
    };
    line.split_at(end).0
}

/// The end of a line that is told. Where the line has no ending, that is told, since an edit may give it one.
fn end_told(line: &str) -> &'static str
    ensures { result.now ≡ end_told line.now }
{
    match line.as_bytes() {
        [.., b'\n'] => "\n",
        _ => "\n\\ no line ending\n",
    }
}

fn add_entries(text: &mut String, style: Style, change: &Change) -> Result<(), AllocError>
    ensures plain { style.colors ≡ false → IfOk result (λ _. string_bytes text.new
        ≡ string_bytes text.old ++ entries_told change.now None change.now.entries) }
{
    let mut last = None;
    for entry in change.entries() {
        add_heading_of(text, style, change, last, entry)?;
        add_entry_line(text, style, change, entry)?;
        last = Some(entry);
    }
    Ok(())
}

/// What stands above an entry; none where it is on the target of the one before it.
fn add_heading_of(
    text: &mut String,
    style: Style,
    change: &Change,
    last: Option<&EntryChange>,
    entry: &EntryChange,
) -> Result<(), AllocError>
    ensures plain { style.colors ≡ false → IfOk result (λ _. string_bytes text.new
        ≡ string_bytes text.old ++ heading_of change.now (option_copied last.entry) entry.now) }
{
    if has_same_target(last, entry) {
        return Ok(());
    }
    add_heading(text, style, change, &entry.target)
}

/// What stands above the entries of a target: its name, and how many come or go with it.
fn add_heading(
    text: &mut String,
    style: Style,
    change: &Change,
    target: &TargetName,
) -> Result<(), AllocError>
    ensures plain { style.colors ≡ false → IfOk result (λ _.
        string_bytes text.new ≡ string_bytes text.old ++ heading change.now target.now) }
{
    add_target_line(text, target.as_str())?;
    match sign_of_whole(change.targets(), target) {
        Some(sign) => add_entry_count(text, style, sign, change, target),
        None => Ok(()),
    }
}

/// The line of an entry; none where its target comes or goes.
fn add_entry_line(
    text: &mut String,
    style: Style,
    change: &Change,
    entry: &EntryChange,
) -> Result<(), AllocError>
    ensures plain { style.colors ≡ false → IfOk result (λ _.
        string_bytes text.new ≡ string_bytes text.old ++ entry_line change.now entry.now) }
{
    if sign_of_whole(change.targets(), &entry.target).is_some() {
        return Ok(());
    }
    add_entry_change(text, style, entry)?;
    text.push_str("\n")
}

/// What became of an entry. Of one that keeps its version it is told which fields are others.
pub(crate) fn add_entry_change(
    text: &mut String,
    style: Style,
    change: &EntryChange,
) -> Result<(), AllocError>
    ensures plain { style.colors ≡ false → IfOk result (λ _.
        string_bytes text.new ≡ string_bytes text.old ++ entry_change_told change.now) }
{
    match (&change.old, &change.new) {
        (None, Some(new)) => add_entry(text, style, Sign::Came, new),
        (Some(old), None) => add_entry(text, style, Sign::Went, old),
        (Some(old), Some(new)) => {
            let name = change.name.normal();
            style.add_versions(text, name, old.version(), new.version())?;
            add_other_fields(text, old, new)
        }
        (None, None) => Ok(()),
    }
}

fn add_digests(
    alloc: Global,
    text: &mut String,
    style: Style,
    digests: Option<DigestChange>,
) -> Result<(), AllocError>
    ensures plain { style.colors ≡ false → IfOk result (λ _.
        string_bytes text.new ≡ string_bytes text.old ++ digests_told digests) }
{
    let Some(digests) = digests else {
        return Ok(());
    };
    add_digest(alloc, text, style, Sign::Went, digests.old)?;
    add_digest(alloc, text, style, Sign::Came, digests.new)
}

fn add_digest(
    alloc: Global,
    text: &mut String,
    style: Style,
    sign: Sign,
    digest: [u8; 32],
) -> Result<(), AllocError>
    ensures plain { style.colors ≡ false → IfOk result (λ _.
        string_bytes text.new ≡ string_bytes text.old ++ digest_told sign digest) }
{
    let digits = hex::encode(alloc, digest)?;
    let digits = digits.as_str();
    sign.begin(text, style)?;
    write!(text, "index: {digits}")?;
    style.end(text)?;
    text.push_str("\n")
}
