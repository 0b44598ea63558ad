// Reading sets of specifiers.

ghost use Rattle.std.specs.Prelude.{◌≡◌, ◌+◌, ◌<◌, ◌≤◌, ◌∷◌, ◌&&◌, ◌==◌, nat_lt, [], IfNone, IfSome, length, take, drop};
ghost use Rattle.std.specs.List.{list_all, list_any};
ghost use Rattle.pep440.specs.Answers.{Gives};
ghost use Rattle.pep440.specs.Tied.Reading.{parts_in};
ghost use Rattle.pep440.specs.SetGrammar.{is_release_alone, takes};
ghost use Rattle.pep440.specs.Tied.Sets.{clause_of, clauses_from, double_of, clause_text, ends_in_star, is_arbitrary, operator_of, set_of, single_of, star_operator, version_text};
ghost use Rattle.pep440.specs.Tied.Views.{operator_view, span_view};
ghost use Rattle.lists.specs.Spaces.{is_space_or_tab};
ghost use Rattle.pep440.specs.Text.{pieces, trim_blank};

use crate::blank::{self, Blank};
use crate::fault::Fault;
use crate::spans::SpannedText;
use crate::specifier::{Clause, Operator, SpecifierSet};
use crate::{reading, spans, text};
use lists::{Seq, is_space_or_tab};
use std::alloc::Global;

fn are_blank(text: &[u8]) -> bool
    ensures { result ≡ list_all is_space_or_tab text.now }
{
    text.iter().all(|byte| is_space_or_tab(*byte))
}

/// The text without the spaces and tabs around it.
fn trim_blank(text: &[u8]) -> &[u8]
    ensures { result.now ≡ trim_blank text.now }
{
    blank::trim(Blank::SpaceOrTab, text)
}

/// The place of the first comma.
fn comma_at(text: &[u8]) -> Option<usize>
    ensures none { IfNone result (pieces text.now ≡ text.now ∷ []) }
    ensures within { IfSome result (λ i. i < length text.now) }
    ensures some { IfSome result (λ i. pieces text.now
        ≡ take i text.now ∷ pieces (drop (i + 1) text.now)) }
{
    for i in 0..text.len() {
        if text[i] == b',' {
            return Some(i);
        }
    }
    None
}

/// The operator of two characters that ends in `=`.
fn double_of(first: u8) -> Option<Operator>
    ensures { result ≡ double_of first }
{
    match first {
        b'~' => Some(Operator::Compatible),
        b'=' => Some(Operator::Equal),
        b'!' => Some(Operator::NotEqual),
        b'<' => Some(Operator::AtMost),
        b'>' => Some(Operator::AtLeast),
        _ => None,
    }
}

fn single_of(first: u8) -> Option<Operator>
    ensures { result ≡ single_of first }
{
    match first {
        b'<' => Some(Operator::Below),
        b'>' => Some(Operator::Above),
        _ => None,
    }
}

/// The longest operator that begins a text, read without `.*`, and the text behind it.
pub fn operator_of(piece: &[u8]) -> Option<(Operator, &[u8])>
    ensures { operator_view result ≡ operator_of piece.now }
{
    match piece {
        [first, b'=', rest @ ..] => Some((double_of(*first)?, rest)),
        [first, rest @ ..] => Some((single_of(*first)?, rest)),
        [] => None,
    }
}

fn is_arbitrary(piece: &[u8]) -> bool
    ensures { result ≡ is_arbitrary piece.now }
{
    match piece {
        [a, b, c, ..] => *a == b'=' && *b == b'=' && *c == b'=',
        _ => false,
    }
}

/// Whether `.*` ends the text.
fn ends_in_star(text: &[u8]) -> bool
    ensures { result ≡ ends_in_star text.now }
{
    let len = text.len();
    len >= 2 && text[len - 2] == b'.' && text[len - 1] == b'*'
}

/// What an operator means where `.*` stands behind the version, or not.
fn star_operator(star: bool, operator: Operator) -> Option<Operator>
    ensures { result ≡ star_operator star operator }
{
    if !star {
        return Some(operator);
    }
    match operator {
        Operator::Equal => Some(Operator::EqualPrefix),
        Operator::NotEqual => Some(Operator::NotEqualPrefix),
        _ => None,
    }
}

/// The text in front of `.*`.
fn version_text(star: bool, text: &[u8]) -> &[u8]
    ensures { result.now ≡ version_text star text.now }
{
    if star && text.len() >= 2 {
        return &text[..text.len() - 2];
    }
    if star {
        return &text[..0];
    }
    text
}

/// Whether a release has more than one number.
fn has_dot(release: &[u8]) -> bool
    ensures { result ≡ list_any (λ b. b == 46) release.now }
{
    release.iter().any(|byte| *byte == b'.')
}

#[tactic(auto, using(crate::proofs::SpansRead::no_locals))]
fn is_release_alone(spans: &SpannedText) -> bool
    ensures { result ≡ is_release_alone (parts_in (span_view spans.now)) }
{
    spans.pre.is_none() && spans.post.is_none() && spans.dev.is_none() && spans.local.is_empty()
}

/// Whether an operator may stand before a version.
#[tactic(auto, using(crate::proofs::SpansRead::no_locals, crate::proofs::SpansRead::dots_numbers))]
fn takes(operator: Operator, spans: &SpannedText) -> bool
    ensures { result ≡ takes operator (parts_in (span_view spans.now)) }
{
    match operator {
        Operator::Compatible => has_dot(spans.release) && spans.local.is_empty(),
        Operator::Equal | Operator::NotEqual => true,
        Operator::EqualPrefix | Operator::NotEqualPrefix => is_release_alone(spans),
        Operator::AtMost | Operator::AtLeast | Operator::Below | Operator::Above => {
            spans.local.is_empty()
        }
    }
}

/// The clause of an operator and the text of its version.
fn clause_text(
    alloc: Global,
    operator: Operator,
    text: &[u8],
    place: usize,
) -> Result<Clause, Fault>
    ensures { Gives (λ c. c) result (clause_text place operator text.now) }
{
    let star = ends_in_star(text);
    let Some(operator) = star_operator(star, operator) else {
        return Err(Fault::BadClause(place));
    };
    let Some(spans) = spans::spans_of(version_text(star, text)) else {
        return Err(Fault::BadClause(place));
    };
    if !takes(operator, &spans) {
        return Err(Fault::BadClause(place));
    }
    let version = reading::version_of_spans(alloc, &spans)?;
    Ok(Clause { operator, version })
}

/// The clause at a place, counted from 1, that a piece spells.
fn clause_at(alloc: Global, piece: &[u8], place: usize) -> Result<Clause, Fault>
    ensures { Gives (λ c. c) result (clause_of place piece.now) }
{
    if is_arbitrary(piece) {
        return Err(Fault::ArbitraryEquality);
    }
    let Some((operator, rest)) = operator_of(piece) else {
        return Err(Fault::BadClause(place));
    };
    let version = blank::trim_front(Blank::SpaceOrTab, rest);
    clause_text(alloc, operator, version, place)
}

/// Whether the last piece is what may stand behind a trailing comma.
fn is_end(piece: &[u8], place: usize) -> bool
    ensures { result ≡ (nat_lt 1 place && list_all is_space_or_tab piece.now) }
{
    place > 1 && are_blank(piece)
}

/// How many commas a text has.
fn commas_in(text: &[u8]) -> usize
    ensures { result ≤ length text.now }
{
    let mut commas = 0;
    for i in 0..text.len() {
        if text[i] == b',' {
            commas += 1;
        }
    }
    commas
}

/// The clauses of a text that isn't blank. There is one more than commas, at most.
fn clauses_at(alloc: Global, text: &[u8]) -> Result<Vec<Clause>, Fault>
    ensures { Gives (λ v. v.items) result (clauses_from 1 (pieces text.now)) }
{
    let mut clauses = Vec::with_capacity(alloc, commas_in(text) + 1)?;
    let mut rest = text;
    'pieces: while let Some(comma) = comma_at(rest) {
        let (piece, behind) = text::cut_at(rest, comma);
        let clause = clause_at(alloc, trim_blank(piece), clauses.len() + 1)?;
        clauses.push(clause)?;
        rest = behind;
    }
    let place = clauses.len() + 1;
    if is_end(rest, place) {
        return Ok(clauses);
    }
    let last = clause_at(alloc, trim_blank(rest), place)?;
    clauses.push(last)?;
    Ok(clauses)
}

impl SpecifierSet {
    /// The set that `text` spells: clauses with commas between them, and at most one behind the last.
    /// A blank text is the empty set. The first faulty clause decides: `ArbitraryEquality`, else
    /// `BadClause` with its place from 1, else `NumberTooLarge`.
    pub fn parse(alloc: Global, text: &str) -> Result<SpecifierSet, Fault>
        ensures { Gives (λ s. s) result (set_of text.now) }
    {
        let bytes = text.as_bytes();
        if are_blank(bytes) {
            return Ok(SpecifierSet {
                clauses: Seq::new(alloc),
            });
        }
        let clauses = clauses_at(alloc, bytes)?;
        Ok(SpecifierSet {
            clauses: Seq::from_vec(clauses),
        })
    }
}
