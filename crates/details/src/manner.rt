// How a call tells what is known beside its reply.

use phrases::Style;

/// How a call tells what is known beside its reply.
#[derive(Clone, Copy, Debug, PartialEq, Eq)]
pub struct Manner {
    /// Whether it tells something at all.
    pub tells: bool,
    /// Whether a person reads it at once, who is also told what to type next.
    pub is_person: bool,
    /// Whether it was asked to tell nothing beside its answer.
    pub is_quiet: bool,
    /// Whether it tells what an index lacks, which a job is told too.
    pub tells_lacks: bool,
    pub style: Style,
}

impl Manner {
    /// Nothing is told.
    pub fn silent() -> Manner {
        Manner {
            tells: false,
            is_person: false,
            is_quiet: true,
            tells_lacks: false,
            style: Style::plain(),
        }
    }
}
