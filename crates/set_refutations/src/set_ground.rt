// What a conflict of sets rests on.

use pep508::Name;

/// Why a conflict of sets follows: one of the four cases, with what it rests on. Places count from 0.
#[derive(Clone, Copy)]
pub enum SetGround<'a> {
    /// The active line at the first place admits no version of the term at the second.
    LineRefuses(usize, usize),
    /// No version of the term at the first place can stand together with one of the term at the
    /// second. It may be one term twice; else the first place is the smaller one.
    TermsClash(usize, usize),
    /// With each version of the term at the place the conflict contains an earlier one.
    EachVersion(usize),
    /// The node, a name with an extra or with none, is needed, and with each candidate of the name
    /// the conflict contains an earlier one.
    NoneLeft(SetNeed, &'a Name, Option<&'a Name>),
}

/// What needs a node.
#[derive(Clone, Copy)]
pub enum SetNeed {
    /// The active line at the place.
    Line(usize),
    /// Each version of the term at the place.
    Term(usize),
}
