// Spaces and tabs around a text.

ghost use Rattle.std.specs.Prelude.{◌≡◌};
ghost use Rattle.lists.specs.Spaces as spec;

/// Whether the byte is a space or a tab.
pub fn is_space_or_tab(byte: u8) -> bool
    ensures { result ≡ spec.is_space_or_tab byte }
{
    byte == b' ' || byte == b'\t'
}

/// Whether spaces and tabs alone stand in the text.
pub fn is_blank(text: &str) -> bool
    ensures { result ≡ spec.is_blank text.now }
{
    text.as_bytes().iter().all(|byte| is_space_or_tab(*byte))
}

/// The spaces and tabs that lead the text, and the text without them.
pub fn cut_lead(text: &str) -> (&str, &str)
    ensures lead { result.0.now ≡ spec.lead_of text.now }
    ensures rest { result.1.now ≡ spec.trim_start text.now }
{
    let bytes = text.as_bytes();
    let mut place = 0;
    while place < bytes.len() && is_space_or_tab(bytes[place]) {
        place += 1;
    }
    text.split_at(place)
}

/// The text without the spaces and tabs at its end, and these.
pub fn cut_tail(text: &str) -> (&str, &str)
    ensures rest { result.0.now ≡ spec.trim_end text.now }
    ensures tail { result.1.now ≡ spec.tail_of text.now }
{
    let bytes = text.as_bytes();
    let mut end = bytes.len();
    while end > 0 && is_space_or_tab(bytes[end - 1]) {
        end -= 1;
    }
    text.split_at(end)
}

/// The text without the spaces and tabs that lead it.
pub fn trim_start(text: &str) -> &str
    ensures { result.now ≡ spec.trim_start text.now }
{
    cut_lead(text).1
}

/// The text without the spaces and tabs at its end.
pub fn trim_end(text: &str) -> &str
    ensures { result.now ≡ spec.trim_end text.now }
{
    cut_tail(text).0
}

/// The text without the spaces and tabs around it.
pub fn trim(text: &str) -> &str
    ensures { result.now ≡ spec.trim text.now }
{
    trim_start(trim_end(text))
}
