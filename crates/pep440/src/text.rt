// Parts of texts.

ghost use Rattle.std.specs.Prelude.{◌≡◌, ◌+◌, ◌<◌, length, take, drop};

/// What stands in front of the byte at a place, and what behind it.
pub(crate) fn cut_at(text: &[u8], place: usize) -> (&[u8], &[u8])
    requires { place < length text.now }
    ensures front { result.0.now ≡ take place text.now }
    ensures behind { result.1.now ≡ drop (place + 1) text.now }
{
    let len = text.len();
    prove!(place < len);
    (&text[..place], &text[place + 1..])
}
