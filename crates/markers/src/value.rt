// The values of an environment's variables.

ghost use Rattle.std.specs.Prelude.{◌≡◌, IfOk};
ghost use Rattle.std.specs.Option.{option_copied};
ghost use Rattle.markers.specs.Comparisons.{clauses_read, version_read};

use crate::comparison::{Comparison, read_clauses, read_version};
use lists::{Faithful, Text, copied};
use pep440::{SpecifierSet, Version};
use std::alloc::{AllocError, Global};
use std::fmt;
use std::marker::Model;

/// All that a text reads as: a version, and clauses behind each sign.
#[derive(Drop)]
pub(crate) struct Readings {
    version: Option<Version>,
    compatible: Option<SpecifierSet>,
    equal: Option<SpecifierSet>,
    not_equal: Option<SpecifierSet>,
    at_most: Option<SpecifierSet>,
    at_least: Option<SpecifierSet>,
    below: Option<SpecifierSet>,
    above: Option<SpecifierSet>,
}

impl Readings {
    ghost use Rattle.markers.specs.Tied.Values.{readings_of};

    /// All that a text reads as.
    fn read(alloc: Global, text: &str) -> Result<Readings, AllocError>
        ensures { IfOk result (λ readings. readings ≡ readings_of text.now) }
    {
        Ok(Readings {
            version: read_version(alloc, text)?,
            compatible: read_clauses(alloc, Comparison::Compatible, text)?,
            equal: read_clauses(alloc, Comparison::Equal, text)?,
            not_equal: read_clauses(alloc, Comparison::NotEqual, text)?,
            at_most: read_clauses(alloc, Comparison::AtMost, text)?,
            at_least: read_clauses(alloc, Comparison::AtLeast, text)?,
            below: read_clauses(alloc, Comparison::Below, text)?,
            above: read_clauses(alloc, Comparison::Above, text)?,
        })
    }
}

impl Clone for Readings {
    ghost is_clone = { λ r s. s ≡ r };

    fn clone(&self) -> Result<Readings, AllocError> {
        Ok(Readings {
            version: copied(&self.version)?,
            compatible: copied(&self.compatible)?,
            equal: copied(&self.equal)?,
            not_equal: copied(&self.not_equal)?,
            at_most: copied(&self.at_most)?,
            at_least: copied(&self.at_least)?,
            below: copied(&self.below)?,
            above: copied(&self.above)?,
        })
    }
}

/// The value of a variable, and all that it reads as. In a clause it is its text.
pub(crate) struct Value {
    text: Text,
    readings: Readings,
}

impl Drop for Value {
    fn drop(self) {
        let Value {
            text: _,
            readings: _,
        } = self;
    }
}

impl Model for Value {
    ghost use Rattle.std.specs.Prelude.{◌≡◌, List, ℕ};
    ghost use Rattle.markers.specs.Tied.Values.{readings_of};

    ghost Value = { List ℕ };

    ghost view = { λ v. v.text };

    ghost invariant = { λ v. v.readings ≡ readings_of v.text };
}

impl Value {
    /// The value that the text is.
    pub(crate) fn read(alloc: Global, text: &str) -> Result<Value, AllocError>
        ensures { IfOk result (λ value. value ≡ text.now) }
    {
        Ok(Value {
            readings: Readings::read(alloc, text)?,
            text: Text::copy_of(alloc, text)?,
        })
    }

    pub(crate) fn text(&self) -> &str
        ensures { result.now ≡ self.now }
    {
        self.text.as_str()
    }

    /// The version that the value reads as.
    pub(crate) fn version(&self) -> Option<&Version>
        ensures { option_copied result ≡ version_read self.now }
    {
        self.readings.version.as_ref()
    }

    /// The clauses that the value reads as behind the sign of a comparison.
    pub(crate) fn clauses(&self, comparison: Comparison) -> Option<&SpecifierSet>
        ensures { option_copied result ≡ clauses_read comparison self.now }
    {
        match comparison {
            Comparison::Compatible => self.readings.compatible.as_ref(),
            Comparison::Equal => self.readings.equal.as_ref(),
            Comparison::NotEqual => self.readings.not_equal.as_ref(),
            Comparison::AtMost => self.readings.at_most.as_ref(),
            Comparison::AtLeast => self.readings.at_least.as_ref(),
            Comparison::Below => self.readings.below.as_ref(),
            Comparison::Above => self.readings.above.as_ref(),
        }
    }
}

impl Clone for Value {
    ghost is_clone = { λ v w. w ≡ v };

    fn clone(&self) -> Result<Value, AllocError> {
        let text = self.text.clone()?;
        let readings = self.readings.clone()?;
        Ok(Value { text, readings })
    }
}

impl Faithful for Value {
    ghost clone_is_source = { λ x y h. h };
}

impl fmt::Debug for Value {
    fn fmt<W: fmt::Write>(&self, f: &mut fmt::Formatter<W>) -> fmt::Result {
        let text = self.text();
        write!(f, "{text:?}")
    }
}
