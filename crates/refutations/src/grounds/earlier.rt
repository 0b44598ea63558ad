// The conflicts before one.

use crate::choice::Choice;
use crate::grounds::hints::Hints;
use lists::Seq;

/// The conflicts before one, and where to look among them, if not everywhere.
#[derive(Clone, Copy)]
pub(crate) struct Earlier<'e, 'l, 'h, 'c> {
    pub(crate) conflicts: &'e [Seq<Choice>],
    pub(crate) hints: Option<&'l Hints<'h, 'c>>,
}
