// Lines, some of them exchanged for others.

ghost use Rattle.std.specs.Prelude.{◌≡◌, ◌↔◌, ◌+◌, ◌≤◌, ◌++◌, drop, length, take, IfOk, IsTrue, MatchOption, OnOk};
ghost use Rattle.std.specs.List.{AllByRecursion};
ghost use Rattle.changes.specs.Changes.{RiseFrom, Splices};
ghost use Rattle.changes.specs.Tied.SplicedLines.{LeadOn, LeadToNone, Reads, StandsAt, gone_by, put_by};

use crate::change::parts::Splice;
use lists::{Seq, Text};
use pep508::{Cause, Line};
use std::alloc::{AllocError, Global};

/// Whether the line is this text.
fn is_text(line: &Line, text: &Text) -> bool
    ensures { IsTrue result ↔ (line.now ≡ text.now) }
{
    line.text() == text.as_str()
}

/// Whether the lines are these texts, one by one.
fn are_texts(lines: &[Line], texts: &[Text]) -> bool
    ensures { IsTrue result ↔ (lines.now ≡ texts.now) }
{
    if lines.len() != texts.len() {
        return false;
    }
    for place in 0..lines.len() {
        if !is_text(&lines[place], &texts[place]) {
            return false;
        }
    }
    true
}

/// Whether the first of the lines are these texts.
fn begin_with(lines: &[Line], texts: &[Text]) -> bool
    ensures { IsTrue result ↔ (take (length texts.now) lines.now ≡ texts.now) }
{
    if lines.len() < texts.len() {
        return false;
    }
    are_texts(&lines[..texts.len()], texts)
}

/// Whether the old lines of the splice stand in their place, which isn't in front of this one.
fn stands_at(lines: &[Line], from: usize, splice: &Splice) -> bool
    ensures { IsTrue result ↔ StandsAt lines.now from splice.now }
{
    from as u64 <= splice.place
        && splice.place <= lines.len() as u64
        && begin_with(&lines[splice.place as usize..], splice.old.as_slice())
}

/// Appends lines. They are shared, not copied.
fn keep(after: &mut Vec<Line>, lines: &[Line]) -> Result<(), AllocError>
    ensures { OnOk result (after.new.items ≡ after.old.items ++ lines.now) }
{
    for line in lines {
        after.push(line.clone()?)?;
    }
    Ok(())
}

/// These lines once more. They are shared, not copied.
pub(crate) fn kept(alloc: Global, lines: &[Line]) -> Result<Seq<Line>, AllocError>
    ensures { IfOk result (λ kept. kept ≡ lines.now) }
{
    let mut kept = Vec::with_capacity(alloc, lines.len())?;
    keep(&mut kept, lines)?;
    Ok(Seq::from_vec(kept))
}

/// The line that the text is; `None` where it doesn't read.
fn line_of(alloc: Global, text: &Text) -> Result<Option<Line>, AllocError>
    ensures { IfOk result
        (λ read. MatchOption read (Reads text.now → ⊥) (λ line. line ≡ text.now)) }
{
    match Line::read(alloc, text.as_str()) {
        Ok(line) => Ok(Some(line)),
        Err(Cause::OutOfMemory) => Err(AllocError),
        Err(_) => Ok(None),
    }
}

/// The lines that the texts are; `None` where one doesn't read.
fn lines_of(alloc: Global, texts: &[Text]) -> Result<Option<Vec<Line>>, AllocError>
    ensures { IfOk result (λ read. MatchOption read (AllByRecursion Reads texts.now → ⊥)
        (λ lines. lines.items ≡ texts.now)) }
{
    let mut lines = Vec::with_capacity(alloc, texts.len())?;
    for text in texts {
        let Some(line) = line_of(alloc, text)? else {
            return Ok(None);
        };
        lines.push(line)?;
    }
    Ok(Some(lines))
}

/// The lines that give way to the splices; `None` where old lines of one don't stand in their place.
pub(crate) fn lines_gone(
    alloc: Global,
    lines: &[Line],
    splices: &[Splice],
) -> Result<Option<Seq<Line>>, AllocError>
    ensures { IfOk result (λ gone. MatchOption gone (LeadToNone splices.now lines.now)
        (λ gone. (gone ≡ gone_by splices.now) × LeadOn splices.now lines.now)) }
{
    let mut gone = Vec::new(alloc);
    let mut from = 0;
    for splice in splices {
        if !stands_at(lines, from, splice) {
            return Ok(None);
        }
        let place = splice.place as usize;
        from = place + splice.old.len();
        keep(&mut gone, &lines[place..from])?;
    }
    Ok(Some(Seq::from_vec(gone)))
}

/// The lines that the splices put in, read; `None` where one doesn't read.
pub(crate) fn lines_put(alloc: Global, splices: &[Splice]) -> Result<Option<Seq<Line>>, AllocError>
    ensures { IfOk result (λ read. MatchOption read (AllByRecursion Reads (put_by splices.now) → ⊥)
        (λ lines. lines ≡ put_by splices.now)) }
{
    let mut put = Vec::new(alloc);
    for splice in splices {
        let Some(mut lines) = lines_of(alloc, splice.new.as_slice())? else {
            return Ok(None);
        };
        put.append(&mut lines)?;
    }
    Ok(Some(Seq::from_vec(put)))
}

/// Puts lines into the place of so many others.
fn put_in(
    lines: &mut Vec<Line>,
    place: usize,
    count: usize,
    mut new: Vec<Line>,
) -> Result<(), AllocError>
    requires { place + count ≤ length lines.old.items }
    ensures { OnOk result (lines.new.items
        ≡ take place lines.old.items ++ new.items ++ drop (place + count) lines.old.items) }
{
    let mut behind = lines.split_off(place + count)?;
    lines.truncate(place);
    lines.append(&mut new)?;
    lines.append(&mut behind)?;
    Ok(())
}

/// The lines after the splices, which put these lines in. From the last splice on each of them is done in
/// place, so that the lines in front of it are still where the file had them.
pub(crate) fn exchanged_lines(
    lines: Seq<Line>,
    splices: &[Splice],
    put: Seq<Line>,
) -> Result<Seq<Line>, AllocError>
    requires rising { RiseFrom 0 splices.now }
    requires leads { LeadOn splices.now lines }
    requires put { put ≡ put_by splices.now }
    ensures { IfOk result (Splices 0 splices.now lines) }
{
    let mut after = lines.into_vec();
    let mut left = put.into_vec();
    for done in 0..splices.len() {
        let place = splices.len() - 1 - done;
        let splice = &splices[place];
        let new = left.split_off(left.len() - splice.new.len())?;
        put_in(&mut after, splice.place as usize, splice.old.len(), new)?;
    }
    Ok(Seq::from_vec(after))
}
