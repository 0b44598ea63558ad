// Reading versions.

ghost use Rattle.std.specs.Prelude.{◌≡◌, ◌+◌, ◌-◌, ◌*◌, ◌^◌, ◌<◌, ◌≤◌, ◌∷◌, [], false, true, length, take, drop, map, Some, IfNone, IfOk, IfSome, IsOkUnless};
ghost use Rattle.std.specs.Char.{is_ascii_alphanumeric, is_ascii_digit, to_ascii_lowercase};
ghost use Rattle.std.specs.List.{list_all};
ghost use Rattle.pep440.specs.Grammar.{Spells, is_separator, value_from, ParseAnswers};
ghost use Rattle.pep440.specs.Answers.{Gives};
ghost use Rattle.pep440.specs.Tied.Reading.{fitting, fitting_numbers, is_local_from, locals_from, locals_of, numbers_from, part_of, parts_in, pre_with, version_of};
ghost use Rattle.pep440.specs.Version.{VersionParts, fits};
ghost use Rattle.pep440.specs.Tied.Views.{capped, capped_option, capped_pre, fitting_locals, fitting_part, is_local, span_view};

use crate::blank::{self, Blank};
use crate::fault::Fault;
use crate::parts::{LocalPart, Pre};
use crate::spans::SpannedText;
use crate::version::Version;
use crate::words::PreWord;
use crate::{spans, text, words};
use lists::{Seq, Text};
use std::alloc::{AllocError, Global};

/// The number `value` with one digit more, if that fits.
fn with_digit(value: u64, digit: u8) -> Option<u64>
    ensures none { IfNone result (2 ^ 64 ≤ value * 10 + (digit - 48)) }
    ensures some { IfSome result (λ sum. (sum ≡ value * 10 + (digit - 48)) × (sum < 2 ^ 64)) }
{
    let tens = value.checked_mul(10)?;
    tens.checked_add(u64::from(digit.saturating_sub(b'0')))
}

/// The number that digits write.
fn number_of(digits: &[u8]) -> Result<u64, Fault>
    ensures { result ≡ capped (value_from 0 digits.now) }
{
    let mut value = 0u64;
    for digit in digits {
        let Some(sum) = with_digit(value, *digit) else {
            return Err(Fault::NumberTooLarge);
        };
        value = sum;
    }
    Ok(value)
}

/// The numbers of a text of digits and `.`.
fn release_numbers(alloc: Global, text: &[u8]) -> Result<Vec<u64>, Fault>
    ensures { Gives (λ v. v.items) result (fitting_numbers (numbers_from 0 text.now)) }
{
    let mut numbers = Vec::new(alloc);
    let mut value = 0u64;
    for byte in text {
        if *byte == b'.' {
            numbers.push(value)?;
            value = 0;
        } else {
            let Some(sum) = with_digit(value, *byte) else {
                return Err(Fault::NumberTooLarge);
            };
            value = sum;
        }
    }
    numbers.push(value)?;
    Ok(numbers)
}

fn pre_with(word: PreWord, number: u64) -> Pre
    ensures { result ≡ pre_with word number }
{
    match word {
        PreWord::Alpha => Pre::Alpha(number),
        PreWord::Beta => Pre::Beta(number),
        PreWord::Candidate => Pre::Candidate(number),
    }
}

fn pre_in(spans: &SpannedText) -> Result<Option<Pre>, Fault>
    ensures { result ≡ capped_pre (span_view spans.now).pre }
{
    match spans.pre {
        Some((word, digits)) => Ok(Some(pre_with(word, number_of(digits)?))),
        None => Ok(None),
    }
}

fn post_in(spans: &SpannedText) -> Result<Option<u64>, Fault>
    ensures { result ≡ capped_option (span_view spans.now).post }
{
    match spans.post {
        Some(digits) => Ok(Some(number_of(digits)?)),
        None => Ok(None),
    }
}

fn dev_in(spans: &SpannedText) -> Result<Option<u64>, Fault>
    ensures { result ≡ capped_option (span_view spans.now).dev }
{
    match spans.dev {
        Some(digits) => Ok(Some(number_of(digits)?)),
        None => Ok(None),
    }
}

/// A text of ASCII letters and digits in lower case.
fn lower_text(alloc: Global, text: &[u8]) -> Result<Text, AllocError>
    requires { list_all is_ascii_alphanumeric text.now ≡ true }
    ensures { IfOk result (λ lower. lower ≡ map to_ascii_lowercase text.now) }
{
    let mut lower = String::new(alloc);
    for byte in text {
        lower.push(char::from(byte.to_ascii_lowercase()))?;
    }
    Ok(Text::from_string(lower))
}

fn are_digits(text: &[u8]) -> bool
    ensures { result ≡ list_all is_ascii_digit text.now }
{
    text.iter().all(|byte| byte.is_ascii_digit())
}

/// The local part that letters and digits spell.
fn part_at(alloc: Global, text: &[u8]) -> Result<LocalPart, Fault>
    requires { list_all is_ascii_alphanumeric text.now ≡ true }
    ensures { Gives (λ p. p) result (fitting_part (part_of text.now)) }
{
    if are_digits(text) {
        return Ok(LocalPart::Number(number_of(text)?));
    }
    Ok(LocalPart::Word(lower_text(alloc, text)?))
}

/// The place of the first separator.
fn separator_at(text: &[u8]) -> Option<usize>
    ensures none { IfNone result (locals_from [] text.now ≡ part_of text.now ∷ []) }
    ensures none_within { IfNone result (is_local_from false text.now ≡ true
        → list_all is_ascii_alphanumeric text.now ≡ true) }
    ensures within { IfSome result (λ i. i < length text.now) }
    ensures some { IfSome result (λ i. locals_from [] text.now
        ≡ part_of (take i text.now) ∷ locals_from [] (drop (i + 1) text.now)) }
    ensures some_within { IfSome result (λ i. is_local_from false text.now ≡ true
        → (list_all is_ascii_alphanumeric (take i text.now) ≡ true)
        × (is_local_from false (drop (i + 1) text.now) ≡ true)) }
{
    for i in 0..text.len() {
        if words::is_separator(text[i]) {
            return Some(i);
        }
    }
    None
}

/// The local parts that stand behind `+`.
fn local_parts(alloc: Global, text: &[u8]) -> Result<Vec<LocalPart>, Fault>
    requires { is_local text.now ≡ true }
    ensures { Gives (λ v. v.items) result (fitting_locals (locals_of text.now)) }
{
    let mut parts = Vec::new(alloc);
    if text.is_empty() {
        return Ok(parts);
    }
    let mut rest = text;
    'pieces: while let Some(separator) = separator_at(rest) {
        let (front, behind) = text::cut_at(rest, separator);
        let part = part_at(alloc, front)?;
        parts.push(part)?;
        rest = behind;
    }
    let last = part_at(alloc, rest)?;
    parts.push(last)?;
    Ok(parts)
}

/// The version that stands in the spans.
pub(crate) fn version_of_spans(alloc: Global, spans: &SpannedText) -> Result<Version, Fault>
    requires { is_local spans.now.local.now ≡ true }
    ensures { Gives (λ v. v) result (fitting (Some (parts_in (span_view spans.now)))) }
{
    let epoch = number_of(spans.epoch)?;
    let pre = pre_in(spans)?;
    let post = post_in(spans)?;
    let dev = dev_in(spans)?;
    let release = release_numbers(alloc, spans.release)?;
    let local = local_parts(alloc, spans.local)?;
    Ok(Version {
        epoch,
        release: Seq::from_vec(release),
        pre,
        post,
        dev,
        local: Seq::from_vec(local),
    })
}

/// The version that a text spells, white space around it or not.
fn version_at(alloc: Global, text: &[u8]) -> Result<Version, Fault>
    ensures { Gives (λ v. v) result (version_of text.now) }
{
    let Some(spans) = spans::spans_of(blank::trim(Blank::Space, text)) else {
        return Err(Fault::BadVersion);
    };
    version_of_spans(alloc, &spans)
}

impl Version {
    /// The version that `text` spells (PEP 440, "Version scheme"). `BadVersion` where the text is
    /// none, `NumberTooLarge` where it is one with a number of more than 64 bits.
    pub fn parse(alloc: Global, text: &str) -> Result<Version, Fault>
        // what an answer means
        ensures answers { ParseAnswers text.now result }
        // a version whose numbers fit is read
        ensures found { (v : VersionParts)
            → Spells text.now v → fits v ≡ true → IsOkUnless result Fault.OutOfMemory }
        // and it is the one that reading gives
        ensures exact { Gives (λ v. v) result (version_of text.now) }
    {
        version_at(alloc, text.as_bytes())
    }
}
