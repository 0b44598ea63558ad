// How what is printed looks where a person reads it: in colours, and in lines of the terminal's width.

ghost use Rattle.std.specs.Prelude.{◌≡◌, IfSome, None};

use std::alloc::AllocError;

/// How many characters a line of an explanation has at most where no width is known.
const WIDE: usize = 100;

/// How what is printed looks.
#[derive(Clone, Copy, Debug, PartialEq, Eq)]
pub struct Style {
    /// Whether lines of a difference and names have colours.
    pub colors: bool,
    /// How many characters a line of a sentence has at most, where that is known.
    pub width: Option<usize>,
}

impl Style {
    /// That of a pipe or a file.
    pub fn plain() -> Style {
        Style {
            colors: false,
            width: None,
        }
    }

    /// How many characters a line of an explanation has at most, unless one word has more.
    pub fn explained_width(self) -> usize
        ensures plain { self.width ≡ None → result ≡ 100 }
        ensures known { IfSome self.width (λ width. result ≡ width) }
    {
        self.width.unwrap_or(WIDE)
    }
}

/// Puts a sentence behind the text, in lines that end between words. A line has so many characters at most, unless one
/// word has more, and each but the first begins with the indent.
pub fn add_wrapped(
    text: &mut String,
    sentence: &str,
    indent: &str,
    most: usize,
) -> Result<(), AllocError> {
    let mut width: usize = 0;
    for (position, word) in sentence.split(' ').enumerate() {
        let count = word.chars().count();
        let behind = width.saturating_add(count).saturating_add(1);
        if position == 0 {
            width = count;
        } else if behind > most && width > 0 {
            text.push_str("\n")?;
            text.push_str(indent)?;
            width = indent.len().saturating_add(count);
        } else {
            text.push_str(" ")?;
            width = behind;
        }
        text.push_str(word)?;
    }
    text.push_str("\n")
}
