// Lines, their endings, and the characters that they may not have.

ghost use Rattle.std.specs.Prelude.{◌≡◌, ◌<◌, ◌∷◌, ◌||◌, length, slice_index};
ghost use Rattle.std.specs.Str.{IsUtf8};
ghost use Rattle.pep508.specs.Lines.{lines_of};
ghost use Rattle.pep508.specs.Parts as spec;

/// The byte at a place, or 0 behind the end.
fn byte_at(bytes: &[u8], place: usize) -> u8
    ensures { result ≡ slice_index bytes.now place }
{
    if place < bytes.len() { bytes[place] } else { 0 }
}

/// Whether the text begins with the byte.
pub(crate) fn begins_with(byte: u8, text: &str) -> bool
    ensures { result ≡ spec.begins_with byte text.now }
{
    byte_at(text.as_bytes(), 0) == byte
}

/// Whether the text ends with the byte.
pub(crate) fn ends_with(byte: u8, text: &str) -> bool
    requires { 0 < byte }
    ensures { result ≡ spec.ends_with byte text.now }
{
    match text.as_bytes() {
        [] => false,
        [.., last] => *last == byte,
    }
}

/// Whether the byte is a control character other than a tab.
fn is_control(byte: u8) -> bool
    ensures { result ≡ spec.is_control byte }
{
    (byte < 32 && byte != b'\t') || byte == 127
}

/// Whether an odd character begins with the byte before `rest`.
fn is_odd(byte: u8, rest: &[u8]) -> bool
    ensures { result ≡ spec.is_odd byte rest.now }
{
    let next = byte_at(rest, 0);
    let last = byte_at(rest, 1);
    is_control(byte)
        || ((byte == 0xC2 && next == 0x85)
            || (byte == 0xE2 && (next == 0x80 && (last == 0xA8 || last == 0xA9))))
}

/// Whether a control character other than a tab, U+0085, U+2028 or U+2029 is among the bytes.
fn has_odd(bytes: &[u8]) -> bool
    ensures { result ≡ spec.has_odd bytes.now }
{
    for place in 0..bytes.len() {
        if is_odd(bytes[place], &bytes[place + 1..]) {
            return true;
        }
    }
    false
}

/// Whether a byte-order mark leads the bytes.
fn is_marked(bytes: &[u8]) -> bool
    ensures { result ≡ spec.is_marked bytes.now }
{
    byte_at(bytes, 0) == 0xEF && (byte_at(bytes, 1) == 0xBB && byte_at(bytes, 2) == 0xBF)
}

/// Whether a line may not have this content: an odd character stands in it.
pub(crate) fn is_refused(content: &str) -> bool
    ensures { result ≡ spec.is_marked content.now || spec.has_odd content.now }
{
    let bytes = content.as_bytes();
    is_marked(bytes) || has_odd(bytes)
}

/// How the line ends: LF, CR and LF, or nothing.
pub(crate) fn ending_of(line: &str) -> &'static str
    ensures { result.now ≡ spec.ending_of line.now }
{
    match line.as_bytes() {
        [.., b'\r', b'\n'] => "\r\n",
        [.., b'\n'] => "\n",
        _ => "",
    }
}

/// The line without its ending, and the ending.
pub(crate) fn cut_ending(line: &str) -> (&str, &str)
    ensures content { result.0.now ≡ spec.content_of line.now }
    ensures ending { result.1.now ≡ spec.ending_of line.now }
{
    let end = match line.as_bytes() {
        [.., b'\r', b'\n'] => line.len() - 2,
        [.., b'\n'] => line.len() - 1,
        _ => line.len(),
    };
    line.split_at(end)
}

/// The first line of a text that isn't empty, with its ending, and what follows it.
pub(crate) fn split_line(text: &str) -> (&str, &str)
    requires { 0 < length text.now }
    ensures cut { lines_of text.now ≡ result.0.now ∷ lines_of result.1.now }
    ensures shorter { length result.1.now < length text.now }
    ensures text { IsUtf8 result.1.now }
{
    let bytes = text.as_bytes();
    let mut end = 0;
    while end < bytes.len() - 1 && bytes[end] != b'\n' {
        end += 1;
    }
    text.split_at(end + 1)
}
