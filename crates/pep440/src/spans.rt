// Where the parts of a version stand in its text.

ghost use Rattle.std.specs.Prelude.{◌≡◌, ◌<◌, IfSome, option_copied, true, false};
ghost use Rattle.std.specs.Option.{option_map};
ghost use Rattle.pep440.specs.Tied.Reading.{after_lead, after_release, dev_at, epoch_at, goes_on, is_local_from, local_at, post_at, pre_at, release_of, spans_of};
ghost use Rattle.pep440.specs.Tied.Views.{is_local, span_view, word_view};

use crate::words;
use crate::words::PreWord;

/// The parts of a version as they stand in its text. Missing parts are empty or `None`; missing
/// digits of a part that is there are empty.
#[derive(Drop)]
pub(crate) struct SpannedText<'a> {
    /// Digits.
    pub(crate) epoch: &'a [u8],
    /// Digits and `.`.
    pub(crate) release: &'a [u8],
    /// Digits behind the word.
    pub(crate) pre: Option<(PreWord, &'a [u8])>,
    /// Digits.
    pub(crate) post: Option<&'a [u8]>,
    /// Digits.
    pub(crate) dev: Option<&'a [u8]>,
    /// What stands behind `+`.
    pub(crate) local: &'a [u8],
}

/// A text without a `v` at its front.
fn after_lead(text: &[u8]) -> &[u8]
    ensures { result.now ≡ after_lead text.now }
{
    match text {
        [first, rest @ ..] if first.to_ascii_lowercase() == b'v' => rest,
        _ => text,
    }
}

/// The digits of an epoch, none where there is none, and what follows it.
fn epoch_at(text: &[u8]) -> (&[u8], &[u8])
    ensures digits { result.0.now ≡ (epoch_at text.now).0 }
    ensures rest { result.1.now ≡ (epoch_at text.now).1 }
{
    if words::starts_digit(text) {
        let (digits, behind) = words::cut_digits(text);
        if let [b'!', rest @ ..] = behind {
            return (digits, rest);
        }
    }
    (&text[..0], text)
}

/// Whether a release goes on with a byte, behind which the text stands.
fn goes_on(byte: u8, rest: &[u8]) -> bool
    ensures { result ≡ goes_on byte rest.now }
{
    byte.is_ascii_digit() || (byte == b'.' && words::starts_digit(rest))
}

/// The release that a text begins with, and what follows it.
fn cut_release(text: &[u8]) -> (&[u8], &[u8])
    ensures release { result.0.now ≡ release_of text.now }
    ensures rest { result.1.now ≡ after_release text.now }
{
    for i in 0..text.len() {
        if !goes_on(text[i], &text[i + 1..]) {
            return (&text[..i], &text[i..]);
        }
    }
    (text, &text[text.len()..])
}

/// The pre word with its digits, and what follows them.
fn pre_at(text: &[u8]) -> (Option<(PreWord, &[u8])>, &[u8])
    ensures part { word_view result.0 ≡ (pre_at text.now).0 }
    ensures rest { result.1.now ≡ (pre_at text.now).1 }
{
    match words::pre_word_at(words::after_separator(text)) {
        Some((word, behind)) => {
            let (digits, rest) = words::number_behind(behind);
            (Some((word, digits)), rest)
        }
        None => (None, text),
    }
}

/// The digits of a post part, and what follows it.
fn post_at(text: &[u8]) -> (Option<&[u8]>, &[u8])
    ensures part { option_copied result.0 ≡ (post_at text.now).0 }
    ensures rest { result.1.now ≡ (post_at text.now).1 }
{
    if words::is_implicit(text) {
        let (digits, rest) = words::number_behind(text);
        return (Some(digits), rest);
    }
    match words::post_word_at(words::after_separator(text)) {
        Some(behind) => {
            let (digits, rest) = words::number_behind(behind);
            (Some(digits), rest)
        }
        None => (None, text),
    }
}

/// The digits of a dev part, and what follows it.
fn dev_at(text: &[u8]) -> (Option<&[u8]>, &[u8])
    ensures part { option_copied result.0 ≡ (dev_at text.now).0 }
    ensures rest { result.1.now ≡ (dev_at text.now).1 }
{
    match words::strip_word(words::after_separator(text), b"dev") {
        Some(behind) => {
            let (digits, rest) = words::number_behind(behind);
            (Some(digits), rest)
        }
        None => (None, text),
    }
}

/// Whether the text is local parts with separators between them.
fn is_local(text: &[u8]) -> bool
    ensures { result ≡ is_local_from false text.now }
{
    let mut some = false;
    for byte in text {
        if words::is_separator(*byte) {
            if !some {
                return false;
            }
            some = false;
        } else if byte.is_ascii_alphanumeric() {
            some = true;
        } else {
            return false;
        }
    }
    some
}

/// What stands behind `+`, where the text is a local part or empty.
fn local_at(text: &[u8]) -> Option<&[u8]>
    ensures value { option_copied result ≡ local_at text.now }
    ensures lawful { IfSome result (λ local. is_local local.now ≡ true) }
{
    match text {
        [] => Some(text),
        [b'+', body @ ..] if is_local(body) => Some(body),
        _ => None,
    }
}

/// The spans of a version with nothing around it.
#[tactic(auto, unfolding(crate::specs::Tied::Reading::spans_of))]
pub(crate) fn spans_of(text: &[u8]) -> Option<SpannedText<'_>>
    ensures value { option_map span_view result ≡ spans_of text.now }
    ensures lawful { IfSome result (λ spans. is_local spans.local.now ≡ true) }
{
    let (epoch, rest) = epoch_at(after_lead(text));
    if !words::starts_digit(rest) {
        return None;
    }
    let (release, rest) = cut_release(rest);
    let (pre, rest) = pre_at(rest);
    let (post, rest) = post_at(rest);
    let (dev, rest) = dev_at(rest);
    let local = local_at(rest)?;
    Some(SpannedText {
        epoch,
        release,
        pre,
        post,
        dev,
        local,
    })
}
