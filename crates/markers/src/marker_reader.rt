// Reading a marker, a token at a time.

ghost use Rattle.lists.specs.Answers.{Answers};
ghost use Rattle.std.specs.Prelude.{◌≡◌, [], ◌∷◌, IfOk, MatchOption, drop, ok_or};
ghost use Rattle.std.specs.Result.{result_ok};
ghost use Rattle.markers.specs.Tied.MarkerReading.{atom_of, begin, close, complete, extra_atom, finished, join, negate, relate, start, step, tree_of};
ghost use Rattle.markers.specs.Names.{name_of};
ghost use Rattle.markers.specs.declared.fault.Cause.TheVariants.{BadMarker, OutOfMemory};

use crate::comparison::Comparison;
use crate::fault::Cause;
use crate::marker::Marker;
use crate::marker_atom::{Atom, CachedRelation, MarkerOperator, Operand};
use crate::marker_group::Group;
use crate::marker_stack::Stack;
use crate::marker_token;
use crate::marker_token::{Side, Token};
use crate::name::Name;
use lists::is_space_or_tab;
use std::alloc::{AllocError, Global};

/// What is to follow.
#[derive(Drop)]
pub(crate) enum Expected {
    /// The first token of an atom.
    Atom,
    /// An operator, behind the left side.
    Operator(Side),
    /// `in`, behind the left side and `not`.
    In(Side),
    /// The right side, behind the left one and the operator.
    Right(Side, MarkerOperator),
    /// What joins atoms or ends them.
    Joint,
}

/// What has been read of a marker.
#[derive(Drop)]
pub(crate) struct Reader {
    /// The groups that enclose the last one.
    outer: Stack<Group>,
    group: Group,
    expected: Expected,
}

/// The name that a text is, or none.
fn name_in(alloc: Global, text: &str) -> Result<Option<Name>, AllocError>
    ensures { IfOk result (λ name. name ≡ result_ok (name_of text.now)) }
{
    match Name::read(alloc, text) {
        Ok(name) => Ok(Some(name)),
        Err(Cause::OutOfMemory) => Err(AllocError),
        Err(_) => Ok(None),
    }
}

/// The atom that compares `extra` with an operand.
fn extra_atom(alloc: Global, operator: MarkerOperator, operand: Operand) -> Result<Atom, Cause>
    ensures { Answers OutOfMemory (ok_or (extra_atom operator operand) BadMarker) result }
{
    let Operand::Quoted(text) = operand else {
        return Err(Cause::BadMarker);
    };
    let equal = match operator {
        MarkerOperator::Compare(Comparison::Equal) => true,
        MarkerOperator::Compare(Comparison::NotEqual) => false,
        _ => return Err(Cause::BadMarker),
    };
    let name = name_in(alloc, text.as_str())?;
    Ok(Atom::Extra { equal, name })
}

/// The atom of two sides and what stands between them.
#[tactic(auto, unfolding(crate::specs::Tied::MarkerReading::atom_of))]
fn atom_of(alloc: Global, left: Side, operator: MarkerOperator, right: Side) -> Result<Atom, Cause>
    ensures { Answers OutOfMemory (ok_or (atom_of left operator right) BadMarker) result }
{
    match left {
        Side::Operand(left) => match right {
            Side::Operand(right) => {
                let relation = CachedRelation::read(alloc, left, operator, right)?;
                Ok(Atom::Relation(relation))
            }
            Side::Extra => extra_atom(alloc, operator, left),
        },
        Side::Extra => match right {
            Side::Operand(right) => extra_atom(alloc, operator, right),
            Side::Extra => Err(Cause::BadMarker),
        },
    }
}

/// What was read with the first token of an atom.
fn begin(
    alloc: Global,
    mut outer: Stack<Group>,
    group: Group,
    token: Token,
) -> Result<Reader, Cause>
    ensures { Answers OutOfMemory (ok_or (begin outer group token) BadMarker) result }
{
    match token {
        Token::Side(side) => Ok(Reader {
            outer,
            group,
            expected: Expected::Operator(side),
        }),
        Token::Open => {
            outer.push(group)?;
            Ok(Reader {
                outer,
                group: Group::new(alloc),
                expected: Expected::Atom,
            })
        }
        _ => Err(Cause::BadMarker),
    }
}

/// What was read with an operator, or with `not`.
fn relate(outer: Stack<Group>, group: Group, left: Side, token: Token) -> Result<Reader, Cause>
    ensures { result ≡ ok_or (relate outer group left token) BadMarker }
{
    let expected = match token {
        Token::Compare(comparison) => Expected::Right(left, MarkerOperator::Compare(comparison)),
        Token::In => Expected::Right(left, MarkerOperator::In),
        Token::Not => Expected::In(left),
        _ => return Err(Cause::BadMarker),
    };
    Ok(Reader {
        outer,
        group,
        expected,
    })
}

/// What was read with the `in` behind `not`.
fn negate(outer: Stack<Group>, group: Group, left: Side, token: Token) -> Result<Reader, Cause>
    ensures { result ≡ ok_or (negate outer group left token) BadMarker }
{
    match token {
        Token::In => Ok(Reader {
            outer,
            group,
            expected: Expected::Right(left, MarkerOperator::NotIn),
        }),
        _ => Err(Cause::BadMarker),
    }
}

/// What was read with the right side of an atom.
fn complete(
    alloc: Global,
    outer: Stack<Group>,
    group: Group,
    left: Side,
    operator: MarkerOperator,
    token: Token,
) -> Result<Reader, Cause>
    ensures { Answers OutOfMemory
        (ok_or (complete outer group left operator token) BadMarker) result }
{
    let Token::Side(right) = token else {
        return Err(Cause::BadMarker);
    };
    let atom = atom_of(alloc, left, operator, right)?;
    let group = group.with_member(Marker::atom(atom))?;
    Ok(Reader {
        outer,
        group,
        expected: Expected::Joint,
    })
}

/// What was read with the parenthesis that ends the group.
fn close(alloc: Global, mut outer: Stack<Group>, group: Group) -> Result<Reader, Cause>
    ensures { Answers OutOfMemory (ok_or (close outer group) BadMarker) result }
{
    let Some(enclosing) = outer.pop() else {
        return Err(Cause::BadMarker);
    };
    let marker = group.closed(alloc)?;
    let group = enclosing.with_member(marker)?;
    Ok(Reader {
        outer,
        group,
        expected: Expected::Joint,
    })
}

/// What was read with a token behind an atom.
fn join(alloc: Global, outer: Stack<Group>, group: Group, token: Token) -> Result<Reader, Cause>
    ensures { Answers OutOfMemory (ok_or (join outer group token) BadMarker) result }
{
    match token {
        Token::And => Ok(Reader {
            outer,
            group,
            expected: Expected::Atom,
        }),
        Token::Or => {
            let group = group.with_end(alloc)?;
            Ok(Reader {
                outer,
                group,
                expected: Expected::Atom,
            })
        }
        Token::Close => close(alloc, outer, group),
        _ => Err(Cause::BadMarker),
    }
}

impl Reader {
    /// Nothing read. It has no refusal.
    fn new(alloc: Global) -> Reader
        ensures { result ≡ start }
    {
        Reader {
            outer: Stack::new(alloc),
            group: Group::new(alloc),
            expected: Expected::Atom,
        }
    }

    /// What was read with one more token.
    #[tactic(auto, unfolding(crate::specs::Tied::MarkerReading::step))]
    fn step(self, alloc: Global, token: Token) -> Result<Reader, Cause>
        ensures { Answers OutOfMemory (ok_or (step self token) BadMarker) result }
    {
        let Reader {
            outer,
            group,
            expected,
        } = self;
        match expected {
            Expected::Atom => begin(alloc, outer, group, token),
            Expected::Operator(left) => relate(outer, group, left, token),
            Expected::In(left) => negate(outer, group, left, token),
            Expected::Right(left, operator) => complete(alloc, outer, group, left, operator, token),
            Expected::Joint => join(alloc, outer, group, token),
        }
    }

    /// The marker, where no parenthesis is open and an atom has just ended.
    fn finished(self, alloc: Global) -> Result<Marker, Cause>
        ensures { Answers OutOfMemory (ok_or (finished self) BadMarker) result }
    {
        let Reader {
            mut outer,
            group,
            expected,
        } = self;
        let (None, Expected::Joint) = (outer.pop(), expected) else {
            return Err(Cause::BadMarker);
        };
        Ok(group.closed(alloc)?)
    }
}

/// The first byte of a text, and what follows it.
fn split_first(text: &[u8]) -> Option<(u8, &[u8])>
    ensures { MatchOption result (text.now ≡ []) (λ cut. text.now ≡ cut.0 ∷ cut.1.now) }
{
    match text {
        [first, rest @ ..] => Some((*first, rest)),
        [] => None,
    }
}

/// The text behind its first bytes, empty where it has no more.
fn behind(text: &[u8], count: usize) -> &[u8]
    ensures { result.now ≡ drop count text.now }
{
    if count < text.len() {
        &text[count..]
    } else {
        &text[text.len()..]
    }
}

/// The marker that a text is.
#[tactic(auto, unfolding(crate::specs::Tied::MarkerReading::tree_of))]
pub(crate) fn tree_of(alloc: Global, text: &[u8]) -> Result<Marker, Cause>
    ensures { Answers OutOfMemory (ok_or (tree_of text.now) BadMarker) result }
{
    let mut reader = Reader::new(alloc);
    let mut left = text;
    'tokens: while let Some((first, rest)) = split_first(left) {
        if is_space_or_tab(first) {
            left = rest;
            continue;
        }
        let (token, more) = marker_token::token_at(alloc, left)?;
        reader = reader.step(alloc, token)?;
        left = behind(rest, more);
    }
    reader.finished(alloc)
}
