// Rows of locks as texts.

use crate::background::Background;
use crate::notation::owned;
use pylock::{Fault, Lock};
use std::alloc::Global;

/// How many entries a lock has that is read, or why there is none.
fn answer(alloc: Global, text: &str) -> Option<String> {
    match Lock::read(alloc, text.as_bytes()) {
        Ok(lock) => {
            let count = lock.entries().len();
            format!(in alloc; "{count} entries").ok()
        }
        Err(Fault::OutOfMemory) => None,
        Err(fault) => format!(in alloc; "{fault}").ok(),
    }
}

/// A lock, which later rows alter.
pub fn lock(alloc: Global, background: &mut Background, text: &str) -> Option<String> {
    background.lock = owned(alloc, text)?;
    answer(alloc, text)
}

/// The lock with `new` in the place of the first `old`.
pub fn altered(alloc: Global, background: &Background, old: &str, new: &str) -> Option<String> {
    let (before, behind) = background.lock.as_str().split_once(old)?;
    let text = format!(in alloc; "{before}{new}{behind}").ok()?;
    answer(alloc, text.as_str())
}
