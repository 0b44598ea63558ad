// The tokens of a marker.

ghost use Rattle.lists.specs.Answers.{Answers};
ghost use Rattle.std.specs.Prelude.{◌≡◌, ok_or, option_copied};
ghost use Rattle.std.specs.Str.{IsAscii};
ghost use Rattle.markers.specs.MarkerDepth.{is_too_deep, quote_after};
ghost use Rattle.markers.specs.MarkerSpelling.{is_quotable, is_quote, is_word_byte};
ghost use Rattle.markers.specs.Tied.MarkerTokens.{quoted_at, quoted_text, sign_at, token_at, word_at, word_of, word_token};
ghost use Rattle.markers.specs.declared.fault.Cause.TheVariants.{BadMarker, OutOfMemory};

use crate::comparison::Comparison;
use crate::environment::variable_named;
use crate::fault::Cause;
use crate::marker_atom::Operand;
use lists::Text;
use pep440::operator_of;
use std::alloc::Global;
use std::str;

/// How many parentheses may be open at once in a marker.
const DEPTH: usize = 64;

/// What may stand on a side of an operator.
#[derive(Drop)]
pub(crate) enum Side {
    Operand(Operand),
    /// The variable that depends on the requirement that is asked.
    Extra,
}

/// A token of a marker. Of a quoted text the quotes are gone.
#[derive(Drop)]
pub(crate) enum Token {
    Side(Side),
    Compare(Comparison),
    Not,
    In,
    And,
    Or,
    Open,
    Close,
}

fn is_quote(byte: u8) -> bool
    ensures { result ≡ is_quote byte }
{
    byte == b'"' || byte == b'\''
}

/// The quote that encloses what follows a byte, where one does.
fn quote_after(quote: Option<u8>, byte: u8) -> Option<u8>
    ensures { result ≡ quote_after quote byte }
{
    match quote {
        None if is_quote(byte) => Some(byte),
        Some(q) if byte != q => Some(q),
        _ => None,
    }
}

/// Whether more than 64 parentheses are open at some place outside quotes. A quote that isn't closed
/// runs to the end.
pub(crate) fn is_too_deep(text: &[u8]) -> bool
    ensures { result ≡ is_too_deep text.now }
{
    let mut quote = None;
    let mut begun: usize = 0;
    let mut ended: usize = 0;
    for byte in text {
        if quote.is_none() && *byte == b'(' {
            begun += 1;
            if begun > ended + DEPTH {
                return true;
            }
        } else if quote.is_none() && *byte == b')' {
            ended += 1;
        } else {
            quote = quote_after(quote, *byte);
        }
    }
    false
}

/// A text of ASCII characters alone.
fn ascii(bytes: &[u8]) -> &str
    requires { IsAscii bytes.now }
    ensures { result.now ≡ bytes.now }
{
    match str::from_utf8(bytes) {
        Ok(text) => text,
        Err(_) => "",
    }
}

fn is_quotable(byte: u8) -> bool
    ensures { result ≡ is_quotable byte }
{
    byte >= b' ' && byte <= b'~' && byte != b'\\'
}

/// The text up to the quote that ends it.
fn quoted_text(rest: &[u8], quote: u8) -> Option<&[u8]>
    ensures { option_copied result ≡ quoted_text quote rest.now }
{
    for place in 0..rest.len() {
        if rest[place] == quote {
            return Some(&rest[..place]);
        }
        if !is_quotable(rest[place]) {
            return None;
        }
    }
    None
}

/// The quoted text behind its first quote.
fn quoted_at(alloc: Global, rest: &[u8], quote: u8) -> Result<(Token, usize), Cause>
    ensures { Answers OutOfMemory (ok_or (quoted_at quote rest.now) BadMarker) result }
{
    let Some(text) = quoted_text(rest, quote) else {
        return Err(Cause::BadMarker);
    };
    let length = text.len();
    let text = Text::copy_of(alloc, ascii(text))?;
    Ok((
        Token::Side(Side::Operand(Operand::Quoted(text))),
        length + 1,
    ))
}

fn is_word_byte(byte: u8) -> bool
    ensures { result ≡ is_word_byte byte }
{
    byte.is_ascii_alphabetic() || byte == b'_'
}

/// The longest word that a text begins with.
fn word_of(text: &[u8]) -> &[u8]
    ensures { result.now ≡ word_of text.now }
{
    for place in 0..text.len() {
        if !is_word_byte(text[place]) {
            return &text[..place];
        }
    }
    text
}

/// The token that a word is. Any word that is no other has to be a variable.
fn word_token(word: &str) -> Option<Token>
    ensures { result ≡ word_token word.now }
{
    if word == "and" {
        return Some(Token::And);
    }
    if word == "or" {
        return Some(Token::Or);
    }
    if word == "not" {
        return Some(Token::Not);
    }
    if word == "in" {
        return Some(Token::In);
    }
    if word == "extra" {
        return Some(Token::Side(Side::Extra));
    }
    let variable = variable_named(word)?;
    Some(Token::Side(Side::Operand(Operand::Variable(variable))))
}

/// The word that a text begins with.
fn word_at(text: &[u8]) -> Option<(Token, usize)>
    ensures { result ≡ word_at text.now }
{
    let word = word_of(text);
    let token = word_token(ascii(word))?;
    Some((token, word.len().saturating_sub(1)))
}

/// The longest comparison that a text begins with.
fn sign_at(text: &[u8]) -> Option<(Token, usize)>
    ensures { result ≡ sign_at text.now }
{
    let (operator, _) = operator_of(text)?;
    let behind = operator.sign().len().saturating_sub(1);
    Some((Token::Compare(Comparison::of(operator)), behind))
}

/// The token that a text begins with, and how many bytes of it stand behind the first.
#[tactic(auto, unfolding(crate::specs::Tied::MarkerTokens::token_at))]
pub(crate) fn token_at(alloc: Global, text: &[u8]) -> Result<(Token, usize), Cause>
    ensures { Answers OutOfMemory (ok_or (token_at text.now) BadMarker) result }
{
    let [first, rest @ ..] = text else {
        return Err(Cause::BadMarker);
    };
    if is_quote(*first) {
        return quoted_at(alloc, rest, *first);
    }
    let found = if is_word_byte(*first) {
        word_at(text)
    } else if *first == b'(' {
        Some((Token::Open, 0))
    } else if *first == b')' {
        Some((Token::Close, 0))
    } else {
        sign_at(text)
    };
    found.ok_or(Cause::BadMarker)
}
