// The lines of a journal.

ghost use Rattle.std.specs.Prelude.{◌≡◌, ◌==◌, ◌<◌, IfSome, length, option_map, position};
ghost use Rattle.journal_format.specs.Lines.{cut_line};

/// The place of the first LF.
fn place_of_lf(bytes: &[u8]) -> Option<usize>
    ensures place { result ≡ position (λ b. b == 10) bytes.now }
    ensures within { IfSome result (λ place. place < length bytes.now) }
{
    bytes.iter().position(|byte| *byte == b'\n')
}

/// The bytes before the first LF, and those behind it; `None` where there is no LF.
pub fn cut_line(bytes: &[u8]) -> Option<(&[u8], &[u8])>
    ensures { option_map (λ p. (p.0.now, p.1.now)) result ≡ cut_line bytes.now }
{
    match place_of_lf(bytes) {
        Some(place) => Some((&bytes[..place], &bytes[place + 1..])),
        None => None,
    }
}
