// The words of pre, post and dev parts, and the digits behind them.

ghost use Rattle.std.specs.Prelude.{◌≡◌, ◌<◌, option_copied};
ghost use Rattle.pep440.specs.Grammar.{is_separator};
ghost use Rattle.pep440.specs.Tied.Reading.{after_digits, after_separator, digits_of, is_implicit, number_behind, optional_word, post_word_at, pre_word_at, starts_digit, strip_word};
ghost use Rattle.pep440.specs.Tied.Views.{word_view};

/// The kind of a pre-release part.
#[derive(Clone, Copy)]
pub(crate) enum PreWord {
    Alpha,
    Beta,
    Candidate,
}

pub(crate) fn is_separator(byte: u8) -> bool
    ensures { result ≡ is_separator byte }
{
    byte == b'.' || byte == b'-' || byte == b'_'
}

pub(crate) fn starts_digit(text: &[u8]) -> bool
    ensures { result ≡ starts_digit text.now }
{
    match text {
        [first, ..] => first.is_ascii_digit(),
        [] => false,
    }
}

/// The digits that a text begins with, and what follows them.
pub(crate) fn cut_digits(text: &[u8]) -> (&[u8], &[u8])
    ensures digits { result.0.now ≡ digits_of text.now }
    ensures rest { result.1.now ≡ after_digits text.now }
{
    for i in 0..text.len() {
        if !text[i].is_ascii_digit() {
            return (&text[..i], &text[i..]);
        }
    }
    (text, &text[text.len()..])
}

/// A text without a separator at its front.
pub(crate) fn after_separator(text: &[u8]) -> &[u8]
    ensures { result.now ≡ after_separator text.now }
{
    match text {
        [first, rest @ ..] if is_separator(*first) => rest,
        _ => text,
    }
}

/// What follows a word in lower case that the text begins with, in letters of either case.
pub(crate) fn strip_word<'a>(text: &'a [u8], word: &[u8]) -> Option<&'a [u8]>
    ensures { option_copied result ≡ strip_word word.now text.now }
{
    for i in 0..word.len() {
        if i >= text.len() {
            return None;
        }
        if text[i].to_ascii_lowercase() != word[i] {
            return None;
        }
    }
    Some(&text[word.len()..])
}

/// The text without a word that it may begin with.
fn optional_word<'a>(text: &'a [u8], word: &[u8]) -> &'a [u8]
    ensures { result.now ≡ optional_word word.now text.now }
{
    match strip_word(text, word) {
        Some(rest) => rest,
        None => text,
    }
}

/// The pre word that a text begins with, and what follows it.
pub(crate) fn pre_word_at(text: &[u8]) -> Option<(PreWord, &[u8])>
    ensures { word_view result ≡ pre_word_at text.now }
{
    let [first, rest @ ..] = text else {
        return None;
    };
    match first.to_ascii_lowercase() {
        b'a' => Some((PreWord::Alpha, optional_word(rest, b"lpha"))),
        b'b' => Some((PreWord::Beta, optional_word(rest, b"eta"))),
        b'c' => Some((PreWord::Candidate, rest)),
        b'r' => Some((PreWord::Candidate, strip_word(rest, b"c")?)),
        b'p' => {
            let rest = strip_word(rest, b"re")?;
            Some((PreWord::Candidate, optional_word(rest, b"view")))
        }
        _ => None,
    }
}

/// What follows the post word that a text begins with.
pub(crate) fn post_word_at(text: &[u8]) -> Option<&[u8]>
    ensures { option_copied result ≡ post_word_at text.now }
{
    let [first, rest @ ..] = text else {
        return None;
    };
    match first.to_ascii_lowercase() {
        b'p' => strip_word(rest, b"ost"),
        b'r' => Some(optional_word(rest, b"ev")),
        _ => None,
    }
}

/// Whether a text begins with `-` and a digit.
pub(crate) fn is_implicit(text: &[u8]) -> bool
    ensures { result ≡ is_implicit text.now }
{
    match text {
        [first, rest @ ..] => *first == b'-' && starts_digit(rest),
        [] => false,
    }
}

/// The digits behind a word, a separator before them or not, and what follows them.
pub(crate) fn number_behind(text: &[u8]) -> (&[u8], &[u8])
    ensures digits { result.0.now ≡ (number_behind text.now).0 }
    ensures rest { result.1.now ≡ (number_behind text.now).1 }
{
    cut_digits(after_separator(text))
}
