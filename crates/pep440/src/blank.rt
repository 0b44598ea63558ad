// What is blank around a text.

ghost use Rattle.std.specs.Prelude.{◌≡◌};
ghost use Rattle.pep440.specs.Blanks.{is_blank};
ghost use Rattle.pep440.specs.Grammar.{is_space};
ghost use Rattle.pep440.specs.Text.{trim_end, trim_front};

use lists::is_space_or_tab;

/// Which bytes are blank around a text.
#[derive(Clone, Copy)]
pub(crate) enum Blank {
    /// White space, as it may stand around a version.
    Space,
    /// Spaces and tabs, as they may stand around a clause.
    SpaceOrTab,
}

fn is_space(byte: u8) -> bool
    ensures { result ≡ is_space byte }
{
    byte == b' ' || (byte >= b'\t' && byte <= b'\r')
}

impl Blank {
    /// Whether the byte is blank.
    fn has(self, byte: u8) -> bool
        ensures { result ≡ is_blank self byte }
    {
        match self {
            Blank::Space => is_space(byte),
            Blank::SpaceOrTab => is_space_or_tab(byte),
        }
    }
}

/// The text without what is blank at its front.
pub(crate) fn trim_front(blank: Blank, text: &[u8]) -> &[u8]
    ensures { result.now ≡ trim_front (is_blank blank) text.now }
{
    for i in 0..text.len() {
        if !blank.has(text[i]) {
            return &text[i..];
        }
    }
    &text[text.len()..]
}

/// The text without what is blank at its end.
pub(crate) fn trim_end(blank: Blank, text: &[u8]) -> &[u8]
    ensures { result.now ≡ trim_end (is_blank blank) text.now }
{
    let mut len = text.len();
    while len > 0 && blank.has(text[len - 1]) {
        len -= 1;
    }
    &text[..len]
}

/// The text without what is blank around it.
pub(crate) fn trim(blank: Blank, text: &[u8]) -> &[u8]
    ensures { result.now ≡ trim_end (is_blank blank) (trim_front (is_blank blank) text.now) }
{
    trim_end(blank, trim_front(blank, text))
}
