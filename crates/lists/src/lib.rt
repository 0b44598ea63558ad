//! Texts and sequences that a contract sees as lists, and what isn't of the domain.
//!
//! `Text` holds a `String` and `Seq<T>` a `Vec<T>`. In a clause each of them is the list of its
//! contents, so two values are equal where their contents are, whatever their capacities.
//!
//! A text that grows, and what stands before its trailing spaces:
//!
//! ```rust
//! let mut line = Text::copy_of(alloc, "flask")?;
//! line.push_str(">=2 \t")?;
//! Ok(trim_end(line.as_str()) == "flask>=2")
//! ```
#![tactic(auto)]

mod bits;
mod copies;
mod lent;
mod name_order;
mod seq;
mod spaces;
mod text;

pub use crate::bits::Bits;
pub use crate::copies::{copied, copy_of};
pub use crate::lent::Lent;
pub use crate::name_order::{Named, rises};
pub use crate::seq::{Faithful, Seq};
pub use crate::spaces::{
    cut_lead, cut_tail, is_blank, is_space_or_tab, trim, trim_end, trim_start,
};
pub use crate::text::Text;
