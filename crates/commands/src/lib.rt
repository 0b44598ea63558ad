//! Commands of a stream: how they are read, done and answered.
//!
//! `batch` reads commands from a `Source`, one a line, does them on a session, and writes the reply to
//! each to a `Sink`.
//!
//! What a line means:
//!
//! ```rust
//! let item = read_item(alloc, b"constrain flask >=2,<3", true)?;
//! Ok(matches!(item, Some(Item::Edit(Edit::Constrain(_, _)))))
//! ```
#![tactic(auto)]

pub mod batch;
mod batch_end;
mod batch_line;
mod counted;
mod needed;
mod pending_line;
mod reply_text;
mod sink;
mod source;
mod words;

pub use crate::batch_end::{BatchEnd, RefusedLine};
pub use crate::batch_line::{Item, LONGEST_LINE, read_item};
pub use crate::counted::Counted;
pub use crate::needed::apply_command;
pub use crate::reply_text::{ReplyText, is_accepted, refusal_word};
pub use crate::sink::Sink;
pub use crate::source::Source;
