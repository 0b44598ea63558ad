// The marker of an entry that not all targets have.

ghost use Rattle.std.specs.Prelude.{◌≡◌, ◌++◌, ◌∷◌, [], IfOk, IsFalse, IsTrue, OnOk, codes};
ghost use Rattle.std.specs.List.{flat_map};
ghost use Rattle.exports.specs.Tied.JointPackages.{AllHave, AreMarkersWith, IsMarked, SomeLacks, alternatives};

use crate::cover::Cover;
use lists::{Seq, Text};
use pylock::Entry;
use std::alloc::{AllocError, Global};

/// Whether all targets have an entry.
fn do_all_have(covers: &[Cover], entry: &Entry) -> bool
    ensures all { IsTrue result → AllHave covers.now entry.now }
    ensures lacks { IsFalse result → SomeLacks covers.now entry.now }
{
    for cover in covers {
        if !cover.has(entry) {
            return false;
        }
    }
    true
}

fn push(texts: &mut Vec<Text>, cover: &Cover) -> Result<(), AllocError>
    ensures { OnOk result (texts.new.items ≡ texts.old.items ++ cover.now.marker ∷ []) }
{
    texts.push(cover.marker.clone()?)?;
    Ok(())
}

/// The markers of the targets that have an entry.
fn markers_with(alloc: Global, covers: &[Cover], entry: &Entry) -> Result<Seq<Text>, AllocError>
    ensures { IfOk result (λ texts. AreMarkersWith covers.now entry.now texts) }
{
    let mut texts = Vec::new(alloc);
    for cover in covers {
        if cover.has(entry) {
            push(&mut texts, cover)?;
        }
    }
    Ok(Seq::from_vec(texts))
}

/// Puts markers behind another, each with `or` before it.
fn push_others(text: &mut Text, others: &[Text]) -> Result<(), AllocError>
    ensures { OnOk result (text.new
        ≡ text.old ++ flat_map (λ next. codes " or " ++ next) others.now) }
{
    for other in others {
        text.push_str(" or ")?;
        text.push_str(other.as_str())?;
    }
    Ok(())
}

/// Markers, joined by `or`.
fn alternatives(alloc: Global, texts: &[Text]) -> Result<Text, AllocError>
    ensures { IfOk result (λ text. text ≡ alternatives texts.now) }
{
    let [first, others @ ..] = texts else {
        return Ok(Text::new(alloc));
    };
    let mut text = first.clone()?;
    push_others(&mut text, others)?;
    Ok(text)
}

/// The marker of an entry: none if all targets have it, else those of the targets that have it, joined by `or`.
pub(crate) fn marker_with(
    alloc: Global,
    covers: &[Cover],
    entry: &Entry,
) -> Result<Option<Text>, AllocError>
    ensures { IfOk result (λ marker. IsMarked covers.now entry.now marker) }
{
    if do_all_have(covers, entry) {
        return Ok(None);
    }
    let texts = markers_with(alloc, covers, entry)?;
    Ok(Some(alternatives(alloc, texts.as_slice())?))
}
