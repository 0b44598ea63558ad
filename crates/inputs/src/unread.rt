// Why a file can't be read.

use lists::Text;
use std::io::Error;

/// Why a file can't be read.
#[derive(Debug, Drop)]
pub enum Unread {
    /// The folder has the empty name, and no path is made of it.
    NoFolder,
    /// The system gave this error at this path. `-` is standard input.
    At(Text, Error),
    /// Standard input was read for another file.
    InputTaken,
    /// It is a lock that is mostly dotted keys.
    ManyDots,
}
