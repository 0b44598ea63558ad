//! The command line: as `clap` is given it, and what its words mean.
//!
//! `command` has the subcommands, their texts and options, and their help. `request` reads words by it, into a subcommand
//! with its texts and the files that it needs:
//!
//! ```rust
//! let words = ["reqlock", "--dir", "web", "undo"];
//! let invocation = request(alloc, &words)?;
//! Ok(invocation.dir == "web" && matches!(invocation.subcommand, Subcommand::Undo(_)))
//! ```
#![tactic(auto)]

mod arguments;
mod beginning;
mod command_words;
mod descriptions;
mod edit_words;
mod exclusion;
mod invocation;
mod manner;
mod marks;
mod misuse;
mod options;
mod question;
mod replacement;
pub mod request;
mod subcommand;
mod subcommand_help;
mod subcommand_words;
mod usage;

pub use crate::command_words::command;
pub use crate::options::takes_dry_run;
