// A call in which growths of memory may be refused.

use crate::growing_text::GrowingText;
use crate::scenarios::told::Tell;
use edits::Refusal;
use std::alloc::Global;
use std::fmt::Display;
use std::io::Write;

/// Written before the call: what refuses growths begins to count behind it.
const CALL: &[u8] = b"call\n";

/// Written behind the call: nothing is refused from here on.
const ANSWER: &[u8] = b"answer ";

/// What is told where memory was refused.
const REFUSED: [&str; 3] = [
    "out of memory",
    "line 0: out of memory",
    "memory allocation failed",
];

/// Tells what stands before a call, does it, and tells the answer and what stands behind it. Where memory
/// was refused the call is done once more.
pub fn play<S: Tell, T: Tell, E: Display + Drop, W: Write, F: FnMut(&mut S) -> Result<T, E>>(
    alloc: Global,
    out: &mut W,
    subject: &mut S,
    mut call: F,
) -> Option<()>
    requires { (call : F) (subject : _) → F.pre call subject }
{
    show(alloc, out, "before ", &*subject)?;
    for _ in 0..2 {
        out.write_all(CALL).ok()?;
        let answer = call(subject);
        let is_refused = answered(alloc, out, answer)?;
        show(alloc, out, "behind ", &*subject)?;
        if !is_refused {
            break;
        }
    }
    Some(())
}

/// The answer of a call that has no fault of its own.
pub fn surely<T>(answer: T) -> Result<T, Refusal> {
    Ok(answer)
}

/// Tells what stands there, if anything.
fn show<S: Tell, W: Write>(alloc: Global, out: &mut W, word: &str, subject: &S) -> Option<()> {
    let mut text = GrowingText::new(alloc);
    subject.tell(alloc, &mut text);
    if !text.is_empty() {
        out.write_all(word.as_bytes()).ok()?;
        write_line(out, text.told()?)?;
    }
    Some(())
}

/// Tells the answer of a call, and whether it is want of memory.
fn answered<T: Tell, E: Display + Drop, W: Write>(
    alloc: Global,
    out: &mut W,
    answer: Result<T, E>,
) -> Option<bool> {
    out.write_all(ANSWER).ok()?;
    let mut text = GrowingText::new(alloc);
    match answer {
        Ok(value) => value.tell(alloc, &mut text),
        Err(fault) => write!(text, "{fault}"),
    }
    let text = text.told()?;
    let is_refused = REFUSED.contains(&text.as_str());
    write_line(out, text)?;
    Some(is_refused)
}

fn write_line<W: Write>(out: &mut W, text: String) -> Option<()> {
    out.write_all(text.as_bytes()).ok()?;
    out.write_all(b"\n").ok()?;
    Some(())
}
