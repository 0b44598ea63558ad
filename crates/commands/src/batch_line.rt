// One line of a batch, read as a command.

ghost use Rattle.std.specs.Prelude.{◌≡◌, IfOk, OnErr, Some};
ghost use Rattle.commands.specs.BatchLine.{IsEdit, addition_of, item_in, item_in_text, command_of, constraint_of, item_of, plain, removal_of, line_text, upgrade_of, words_of};

use crate::words::cut_word;
use edits::Edit;
use lists::{Seq, Text, trim_end, trim_start};
use std::alloc::{AllocError, Global};
use std::str;

/// The most bytes of a line that is read as a command, its CR counted and its LF not.
pub const LONGEST_LINE: usize = 65_536;

/// The command of a line of a batch.
#[derive(Drop)]
pub enum Item {
    Edit(Edit),
    Undo,
    Redo,
    /// A line of another form: it is refused.
    BadCommand,
}

/// The command of a line, and nothing where it is blank. `line` is without its LF, and `is_ended`
/// says whether it had one. Memory is taken for the texts of an edit alone.
pub fn read_item(alloc: Global, line: &[u8], is_ended: bool) -> Result<Option<Item>, AllocError>
    ensures item { IfOk result (λ item.
        item ≡ item_of (record { bytes = line.now; is_ended = is_ended })) }
    ensures memory { OnErr result (IsEdit (item_of (record {
      bytes = line.now;
      is_ended = is_ended;
    }))) }
{
    if line.len() > LONGEST_LINE {
        return Ok(Some(Item::BadCommand));
    }
    read_bytes(alloc, line_text(line, is_ended))
}

/// A line without the CR before its LF.
fn line_text(line: &[u8], is_ended: bool) -> &[u8]
    ensures { result.now ≡ line_text (record { bytes = line.now; is_ended = is_ended }) }
{
    if is_ended && !line.is_empty() && line[line.len() - 1] == b'\r' {
        &line[..line.len() - 1]
    } else {
        line
    }
}

#[tactic(auto, using(crate::proofs::Texts::item_of_utf8, crate::proofs::Texts::item_of_other))]
fn read_bytes(alloc: Global, bytes: &[u8]) -> Result<Option<Item>, AllocError>
    ensures item { IfOk result (λ item. item ≡ item_in_text bytes.now) }
    ensures memory { OnErr result (IsEdit (item_in_text bytes.now)) }
{
    match str::from_utf8(bytes) {
        Ok(text) => read_text(alloc, trim_start(text)),
        Err(_) => Ok(Some(Item::BadCommand)),
    }
}

fn read_text(alloc: Global, text: &str) -> Result<Option<Item>, AllocError>
    ensures item { IfOk result (λ item. item ≡ item_in text.now) }
    ensures memory { OnErr result (IsEdit (item_in text.now)) }
{
    if text.is_empty() {
        return Ok(None);
    }
    let (word, rest) = cut_word(text);
    let item = read_command(alloc, word, rest)?;
    Ok(Some(item))
}

fn read_command(alloc: Global, word: &str, rest: &str) -> Result<Item, AllocError>
    ensures item { IfOk result (λ item. item ≡ command_of word.now rest.now) }
    ensures memory { OnErr result (IsEdit (Some (command_of word.now rest.now))) }
{
    if word == "add" {
        return read_addition(alloc, rest);
    }
    if word == "remove" {
        return read_removal(alloc, rest);
    }
    if word == "constrain" {
        return read_constraint(alloc, rest);
    }
    if word == "upgrade" {
        return read_upgrade(alloc, rest);
    }
    if word == "relock" {
        return Ok(alone(Item::Edit(Edit::Relock), rest));
    }
    if word == "undo" {
        return Ok(alone(Item::Undo, rest));
    }
    if word == "redo" {
        return Ok(alone(Item::Redo, rest));
    }
    Ok(Item::BadCommand)
}

/// A command that takes no text.
fn alone(item: Item, rest: &str) -> Item
    ensures { result ≡ plain item rest.now }
{
    if rest.is_empty() {
        item
    } else {
        Item::BadCommand
    }
}

fn read_addition(alloc: Global, rest: &str) -> Result<Item, AllocError>
    ensures item { IfOk result (λ item. item ≡ addition_of rest.now) }
    ensures memory { OnErr result (IsEdit (Some (addition_of rest.now))) }
{
    if rest.is_empty() {
        return Ok(Item::BadCommand);
    }
    Ok(Item::Edit(Edit::Add(Text::copy_of(alloc, rest)?)))
}

fn read_removal(alloc: Global, rest: &str) -> Result<Item, AllocError>
    ensures item { IfOk result (λ item. item ≡ removal_of rest.now) }
    ensures memory { OnErr result (IsEdit (Some (removal_of rest.now))) }
{
    if rest.is_empty() {
        return Ok(Item::BadCommand);
    }
    let name = Text::copy_of(alloc, trim_end(rest))?;
    Ok(Item::Edit(Edit::Remove(name)))
}

fn read_constraint(alloc: Global, rest: &str) -> Result<Item, AllocError>
    ensures item { IfOk result (λ item. item ≡ constraint_of rest.now) }
    ensures memory { OnErr result (IsEdit (Some (constraint_of rest.now))) }
{
    if rest.is_empty() {
        return Ok(Item::BadCommand);
    }
    let (name, specifiers) = cut_word(rest);
    let name = Text::copy_of(alloc, name)?;
    let specifiers = Text::copy_of(alloc, specifiers)?;
    Ok(Item::Edit(Edit::Constrain(name, specifiers)))
}

fn read_upgrade(alloc: Global, rest: &str) -> Result<Item, AllocError>
    ensures item { IfOk result (λ item. item ≡ upgrade_of (words_of rest.now)) }
    ensures memory { OnErr result (IsEdit (Some (upgrade_of (words_of rest.now)))) }
{
    let names = words_of(alloc, rest)?;
    if names.is_empty() {
        return Ok(Item::Edit(Edit::UpgradeAll));
    }
    Ok(Item::Edit(Edit::Upgrade(names)))
}

/// The words of a text.
fn words_of(alloc: Global, text: &str) -> Result<Seq<Text>, AllocError>
    ensures { IfOk result (λ words. words ≡ words_of text.now) }
{
    let mut words = Vec::new(alloc);
    let mut rest = trim_start(text);
    while !rest.is_empty() {
        let (word, behind) = cut_word(rest);
        words.push(Text::copy_of(alloc, word)?)?;
        rest = behind;
    }
    Ok(Seq::from_vec(words))
}
