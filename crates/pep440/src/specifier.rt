// Specifiers, and sets of them.

ghost use Rattle.std.specs.Prelude.{◌≡◌};
ghost use Rattle.std.specs.List.{AllByRecursion};
ghost use Rattle.pep440.specs.SetGrammar.{IsLawfulClause, sign, star};

use crate::version::Version;
use lists::{Faithful, Seq};
use std::alloc::AllocError;
use std::marker::Model;

/// How a clause compares a candidate with its version (PEP 440, "Version specifiers").
#[derive(Clone, Copy, Debug, PartialEq, Eq)]
pub enum Operator {
    /// `~=1.4.2`: 1.4.2 or newer, and still 1.4
    Compatible,
    /// `==1.4`: 1.4, also written 1.4.0, and with any local part, as 1.4+cpu
    Equal,
    /// `!=1.4`: any version that `==1.4` doesn't match
    NotEqual,
    /// `==1.4.*`: each version of 1.4, as 1.4rc1, 1.4 and 1.4.2
    EqualPrefix,
    /// `!=1.4.*`: any version that `==1.4.*` doesn't match
    NotEqualPrefix,
    /// `<=1.4`: 1.4 or older
    AtMost,
    /// `>=1.4`: 1.4 or newer
    AtLeast,
    /// `<1.4`: older than 1.4, and no pre-release of it, as 1.4rc1
    Below,
    /// `>1.4`: newer than 1.4, and no post-release of it, as 1.4.post1
    Above,
}

impl Operator {
    /// How the operator is written before its version.
    pub fn sign(self) -> &'static str
        ensures { result.now ≡ sign self }
    {
        match self {
            Operator::Compatible => "~=",
            Operator::Equal | Operator::EqualPrefix => "==",
            Operator::NotEqual | Operator::NotEqualPrefix => "!=",
            Operator::AtMost => "<=",
            Operator::AtLeast => ">=",
            Operator::Below => "<",
            Operator::Above => ">",
        }
    }

    /// What the operator has behind its version: `.*`, or nothing.
    pub fn star(self) -> &'static str
        ensures { result.now ≡ star self }
    {
        match self {
            Operator::EqualPrefix | Operator::NotEqualPrefix => ".*",
            Operator::Compatible
            | Operator::Equal
            | Operator::NotEqual
            | Operator::AtMost
            | Operator::AtLeast
            | Operator::Below
            | Operator::Above => "",
        }
    }
}

/// One clause of a set: an operator and its version.
#[derive(Debug)]
pub struct Clause {
    pub operator: Operator,
    pub version: Version,
}

impl Drop for Clause {
    fn drop(self) {
        let Clause {
            operator: _,
            version: _,
        } = self;
    }
}

impl Clone for Clause {
    ghost is_clone = { λ c d. d ≡ c };

    fn clone(&self) -> Result<Clause, AllocError> {
        let version = self.version.clone()?;
        Ok(Clause {
            operator: self.operator,
            version,
        })
    }
}

impl Faithful for Clause {
    ghost clone_is_source = { λ x y h. h };
}

/// A set of clauses, all of which have to hold. In a clause it is their list.
pub struct SpecifierSet {
    pub(crate) clauses: Seq<Clause>,
}

impl Drop for SpecifierSet {
    fn drop(self) {
        let SpecifierSet { clauses: _ } = self;
    }
}

impl Model for SpecifierSet {
    ghost use Rattle.std.specs.Prelude.{List};
    ghost use Rattle.std.specs.List.{AllByRecursion};
    ghost use Rattle.pep440.specs.SetGrammar.{IsLawfulClause};
    ghost use Rattle.pep440.specs.declared.specifier.Clause.{Clause};

    ghost Value = { List Clause };

    ghost view = { λ s. s.clauses };

    ghost invariant = { λ s. AllByRecursion IsLawfulClause s.clauses };
}

impl SpecifierSet {
    /// The clauses, in the order of the text.
    pub fn clauses(&self) -> &[Clause]
        ensures { result.now ≡ self.now }
    {
        self.clauses.as_slice()
    }

    /// What holds of every set that was read: each operator takes its version, and numbers fit.
    pub fn recall_invariant(&self)
        ensures { AllByRecursion IsLawfulClause self.now }
    {
        let _clauses = self.clauses.as_slice();
    }
}

impl Clone for SpecifierSet {
    ghost is_clone = { λ s t. t ≡ s };

    fn clone(&self) -> Result<SpecifierSet, AllocError> {
        let clauses = self.clauses.clone()?;
        Ok(SpecifierSet { clauses })
    }
}

impl Faithful for SpecifierSet {
    ghost clone_is_source = { λ x y h. h };
}
