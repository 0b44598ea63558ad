// SHA-256 digests as texts.

ghost use Rattle.std.specs.Prelude.{◌≡◌, ◌==◌};
ghost use Rattle.std.specs.List.{list_all};
ghost use Rattle.distributions.specs.Digests.{digest_in, is_digest, is_digest_byte};

use lists::Text;

/// Whether the byte is a hexadecimal digit, a letter in lower case.
fn is_digest_byte(byte: u8) -> bool
    ensures { result ≡ is_digest_byte byte }
{
    byte.is_ascii_digit() || (b'a' <= byte && byte <= b'f')
}

/// Whether each byte is such a digit.
fn are_digest_bytes(bytes: &[u8]) -> bool
    ensures { result ≡ list_all is_digest_byte bytes.now }
{
    bytes.iter().all(|byte| is_digest_byte(*byte))
}

/// Whether the text is a SHA-256 digest in hexadecimal digits, letters in lower case.
pub(crate) fn is_digest(text: &str) -> bool
    ensures { result ≡ is_digest text.now }
{
    text.len() == 64 && are_digest_bytes(text.as_bytes())
}

/// The SHA-256 digest that a text is in hexadecimal digits, its letters put in lower case.
pub fn digest_in(text: Text) -> Option<Text>
    ensures { result ≡ digest_in text }
{
    let mut digits = text.into_string();
    digits.make_ascii_lowercase();
    let digest = Text::from_string(digits);
    if is_digest(digest.as_str()) {
        Some(digest)
    } else {
        None
    }
}
