// What a conflict rests on.

use crate::choice::Choice;
use pep508::{Name, Requirement};

/// Why a conflict follows: one of the four cases, with what it rests on. Places count from 0.
#[derive(Clone, Copy)]
pub enum Ground<'a> {
    /// The active line at the place doesn't admit the choice.
    LineRefuses(usize, &'a Choice),
    /// The dependency of the first choice, which counts at its node, doesn't admit the other choice.
    ChoicesClash(&'a Choice, &'a Requirement, &'a Choice),
    /// The choices are two versions for one name.
    VersionsDiffer(&'a Choice, &'a Choice),
    /// The node, a name with an extra or with none, is needed, and with each candidate of the name
    /// the conflict contains an earlier one.
    NoneLeft(Need<'a>, &'a Name, Option<&'a Name>),
}

/// What needs a node.
#[derive(Clone, Copy)]
pub enum Need<'a> {
    /// The active line at the place.
    Line(usize),
    /// A dependency of the choice, which counts at its node.
    Dependency(&'a Choice, &'a Requirement),
}
