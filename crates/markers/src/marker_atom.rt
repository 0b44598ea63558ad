// Atoms of markers.

ghost use Rattle.std.specs.Prelude.{◌≡◌, IfOk};
ghost use Rattle.std.specs.Option.{option_copied};
ghost use Rattle.markers.specs.Comparisons.{clauses_read, version_read};
ghost use Rattle.markers.specs.MarkerAtoms.{contains, is_asked, operand_text, relation_holds};
ghost use Rattle.markers.specs.Tied.Known.{known_clauses, known_version};
ghost use Rattle.markers.specs.declared.marker_atom.MarkerOperator.TheVariants.{Compare};

use crate::comparison::{Comparison, Left, Right, compare, read_clauses, read_version};
use crate::environment::Environment;
use crate::name::Name;
use crate::variable::Variable;
use lists::Text;
use pep440::{SpecifierSet, Version};
use std::alloc::{AllocError, Global};
use std::marker::Model;

/// What stands on a side of an operator.
#[derive(Drop)]
pub enum Operand {
    /// A variable of the environment.
    Variable(Variable),
    /// A quoted text.
    Quoted(Text),
}

impl Clone for Operand {
    ghost is_clone = { λ a b. b ≡ a };

    fn clone(&self) -> Result<Operand, AllocError> {
        match self {
            Operand::Variable(variable) => Ok(Operand::Variable(*variable)),
            Operand::Quoted(text) => Ok(Operand::Quoted(text.clone()?)),
        }
    }
}

/// How the left operand is to relate to the right one.
#[derive(Clone, Copy)]
pub enum MarkerOperator {
    /// `==`, `<=` and the others.
    Compare(Comparison),
    /// `in`: the right text has the left one in it.
    In,
    /// `not in`
    NotIn,
}

/// Two operands with an operator between them, and what the quoted ones read as. In a clause it is
/// the operands and the operator alone.
pub struct CachedRelation {
    left: Operand,
    operator: MarkerOperator,
    right: Operand,
    version: Option<Version>,
    clauses: Option<SpecifierSet>,
}

impl Drop for CachedRelation {
    fn drop(self) {
        let CachedRelation {
            left: _,
            operator: _,
            right: _,
            version: _,
            clauses: _,
        } = self;
    }
}

impl Model for CachedRelation {
    ghost use Rattle.std.specs.Prelude.{◌≡◌};
    ghost use Rattle.markers.specs.MarkerAtoms.{Relation};
    ghost use Rattle.markers.specs.Tied.Known.{known_clauses, known_version};

    ghost Value = { Relation };

    ghost view = { λ r. record { left = r.left; operator = r.operator; right = r.right } };

    ghost invariant = { λ r. (r.version ≡ known_version r.left)
        × (r.clauses ≡ known_clauses r.operator r.right) };
}

impl Clone for CachedRelation {
    ghost is_clone = { λ r s. s ≡ r };

    fn clone(&self) -> Result<CachedRelation, AllocError> {
        Ok(CachedRelation {
            left: self.left.clone()?,
            operator: self.operator,
            right: self.right.clone()?,
            version: self.version.clone()?,
            clauses: self.clauses.clone()?,
        })
    }
}

/// An atom of a marker.
#[derive(Drop)]
pub(crate) enum Atom {
    Relation(CachedRelation),
    /// `extra` equals the name, or where not `equal` doesn't. A text that is no name leaves none.
    Extra { equal: bool, name: Option<Name> },
}

impl Clone for Atom {
    ghost is_clone = { λ a b. b ≡ a };

    fn clone(&self) -> Result<Atom, AllocError> {
        match self {
            Atom::Relation(relation) => Ok(Atom::Relation(relation.clone()?)),
            Atom::Extra { equal, name } => Ok(Atom::Extra {
                equal: *equal,
                name: name.clone()?,
            }),
        }
    }
}

/// Whether a text has another in it.
fn contains(text: &str, part: &str) -> bool
    ensures { result ≡ contains text.now part.now }
{
    text.contains(part)
}

impl Operand {
    fn text<'a>(&'a self, environment: &'a Environment) -> &'a str
        ensures { result.now ≡ operand_text environment.now self.now }
    {
        match self {
            Operand::Variable(variable) => environment.text(*variable),
            Operand::Quoted(text) => text.as_str(),
        }
    }
}

/// The version that an operand is known to read as.
fn known_version(alloc: Global, operand: &Operand) -> Result<Option<Version>, AllocError>
    ensures { IfOk result (λ version. version ≡ known_version operand.now) }
{
    match operand {
        Operand::Variable(_) => Ok(None),
        Operand::Quoted(text) => read_version(alloc, text.as_str()),
    }
}

/// The clauses that an operand is known to read as behind an operator.
fn known_clauses(
    alloc: Global,
    operator: MarkerOperator,
    operand: &Operand,
) -> Result<Option<SpecifierSet>, AllocError>
    ensures { IfOk result (λ clauses. clauses ≡ known_clauses operator operand.now) }
{
    match (operator, operand) {
        (MarkerOperator::Compare(comparison), Operand::Quoted(text)) => {
            read_clauses(alloc, comparison, text.as_str())
        }
        _ => Ok(None),
    }
}

impl CachedRelation {
    /// The relation of two operands.
    pub(crate) fn read(
        alloc: Global,
        left: Operand,
        operator: MarkerOperator,
        right: Operand,
    ) -> Result<CachedRelation, AllocError>
        ensures { IfOk result (λ r. r
            ≡ record { left = left; operator = operator; right = right }) }
    {
        let version = known_version(alloc, &left)?;
        let clauses = known_clauses(alloc, operator, &right)?;
        Ok(CachedRelation {
            left,
            operator,
            right,
            version,
            clauses,
        })
    }

    /// What stands on the left.
    pub fn left(&self) -> &Operand
        ensures { result.now ≡ self.now.left }
    {
        &self.left
    }

    /// How the left operand is to relate to the right one.
    pub fn operator(&self) -> MarkerOperator
        ensures { result ≡ self.now.operator }
    {
        self.operator
    }

    /// What stands on the right.
    pub fn right(&self) -> &Operand
        ensures { result.now ≡ self.now.right }
    {
        &self.right
    }

    /// The clauses that a quoted text on the right reads as behind the comparison. `None` where it reads as none, where a
    /// variable stands there, and for `in` and `not in`.
    pub fn quoted_clauses(&self) -> Option<&SpecifierSet>
        ensures { option_copied result ≡ known_clauses self.now.operator self.now.right }
    {
        self.clauses.as_ref()
    }

    /// The version that the left text reads as.
    fn version<'a>(&'a self, environment: &'a Environment) -> Option<&'a Version>
        ensures { option_copied result ≡ version_read (operand_text environment.now self.now.left) }
    {
        match &self.left {
            Operand::Variable(variable) => environment.version(*variable),
            Operand::Quoted(_) => self.version.as_ref(),
        }
    }

    /// The clauses that the right text reads as behind the comparison.
    fn clauses<'a>(
        &'a self,
        environment: &'a Environment,
        comparison: Comparison,
    ) -> Option<&'a SpecifierSet>
        requires { self.now.operator ≡ Compare comparison }
        ensures { option_copied result
            ≡ clauses_read comparison (operand_text environment.now self.now.right) }
    {
        match &self.right {
            Operand::Variable(variable) => environment.clauses(*variable, comparison),
            Operand::Quoted(_) => self.clauses.as_ref(),
        }
    }

    /// Whether the relation holds in an environment.
    pub fn holds(&self, environment: &Environment) -> bool
        ensures { result ≡ relation_holds self.now environment.now }
    {
        let left = self.left.text(environment);
        let right = self.right.text(environment);
        match self.operator {
            MarkerOperator::Compare(comparison) => {
                let version = self.version(environment);
                let clauses = self.clauses(environment, comparison);
                compare(
                    comparison,
                    Left {
                        text: left,
                        version,
                    },
                    Right {
                        text: right,
                        clauses,
                    },
                )
            }
            MarkerOperator::In => contains(right, left),
            MarkerOperator::NotIn => !contains(right, left),
        }
    }
}

/// Whether the extra that is asked has this name.
fn is_asked(name: Option<&Name>, extra: Option<&Name>) -> bool
    ensures { result ≡ is_asked (option_copied name.entry) (option_copied extra.entry) }
{
    match (name, extra) {
        (Some(name), Some(extra)) => name.normal() == extra.normal(),
        _ => false,
    }
}

impl Atom {
    ghost use Rattle.markers.specs.MarkerHolds.{atom_holds};

    /// Whether the atom holds in an environment, with an extra or none.
    pub(crate) fn holds(&self, environment: &Environment, extra: Option<&Name>) -> bool
        ensures { result ≡ atom_holds self.now environment.now (option_copied extra.entry) }
    {
        match self {
            Atom::Relation(relation) => relation.holds(environment),
            Atom::Extra { equal, name } => {
                let asked = is_asked(name.as_ref(), extra);
                if *equal { asked } else { !asked }
            }
        }
    }
}
