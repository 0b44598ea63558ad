// A text that is told piece by piece.

use std::alloc::Global;
use std::fmt::Display;

/// A text that grows by each piece.
pub struct GrowingText {
    text: String,
    /// Whether no piece is missing so far: memory was refused for none, and each was there.
    is_whole: bool,
}

impl Drop for GrowingText {
    fn drop(self) {
        let GrowingText {
            text: _,
            is_whole: _,
        } = self;
    }
}

impl GrowingText {
    /// A text with no piece so far.
    pub fn new(alloc: Global) -> GrowingText {
        GrowingText {
            text: String::new(alloc),
            is_whole: true,
        }
    }

    /// Appends a letter.
    pub fn push(&mut self, letter: char) {
        if self.text.push(letter).is_err() {
            self.is_whole = false;
        }
    }

    /// Appends a text.
    pub fn push_str(&mut self, text: &str) {
        if self.text.push_str(text).is_err() {
            self.is_whole = false;
        }
    }

    /// Appends what a value is printed as: what `write!` calls.
    pub fn write_fmt<D: Display + Drop>(&mut self, value: D) {
        if self.text.write_fmt(value).is_err() {
            self.is_whole = false;
        }
    }

    /// Says that a piece is missing.
    pub fn miss(&mut self) {
        self.is_whole = false;
    }

    /// Whether no piece was told so far.
    pub fn is_empty(&self) -> bool {
        self.text.is_empty()
    }

    /// The whole text; none where a piece is missing.
    pub fn told(self) -> Option<String> {
        let GrowingText { text, is_whole } = self;
        if is_whole { Some(text) } else { None }
    }
}
