// The Python versions that a release asks for.

ghost use Rattle.lists.specs.Answers.{Answers};
ghost use Rattle.std.specs.Prelude.{◌≡◌, Ok, Some};
ghost use Rattle.pep440.specs.Python.{python_of};
ghost use Rattle.pep440.specs.declared.fault.Fault.TheVariants.{OutOfMemory};

use crate::fault::Fault;
use crate::specifier::SpecifierSet;
use lists::{Faithful, Text, is_blank};
use std::alloc::{AllocError, Global};
use std::marker::Model;

/// The Python versions that a release asks for (core metadata, "Requires-Python"): a set of specifiers
/// with its text, which isn't blank. In a clause it is the record of both.
#[derive_where(Debug)]
pub struct RequiresPython {
    text: Text,
    #[derive_where(skip)]
    set: SpecifierSet,
}

impl Drop for RequiresPython {
    fn drop(self) {
        let RequiresPython { text: _, set: _ } = self;
    }
}

impl Model for RequiresPython {
    ghost use Rattle.std.specs.Prelude.{◌≡◌, Ok, Some};
    ghost use Rattle.pep440.specs.Python.{PythonParts, python_of};

    ghost Value = { PythonParts };

    ghost view = { λ p. record { text = p.text; set = p.set } };

    ghost invariant = { λ p. python_of p.text ≡ Ok (Some (record { text = p.text; set = p.set })) };
}

impl RequiresPython {
    /// What a text asks of Python; nothing where it is empty or blank. A text that is no set of specifiers
    /// is refused as `SpecifierSet::parse` refuses it.
    pub fn parse(alloc: Global, text: Text) -> Result<Option<RequiresPython>, Fault>
        ensures { Answers OutOfMemory (python_of text) result }
    {
        if is_blank(text.as_str()) {
            return Ok(None);
        }
        let set = SpecifierSet::parse(alloc, text.as_str())?;
        Ok(Some(RequiresPython { text, set }))
    }

    /// The text, as it was written.
    pub fn text(&self) -> &str
        ensures { result.now ≡ self.now.text }
    {
        self.text.as_str()
    }

    /// The set of specifiers that the text is.
    pub fn set(&self) -> &SpecifierSet
        ensures { result.now ≡ self.now.set }
    {
        &self.set
    }

    /// What holds of each: the text isn't blank, and the set is what it reads as.
    pub fn recall_invariant(&self)
        ensures { python_of self.now.text ≡ Ok (Some self.now) }
    {
        let _text = &self.text;
    }
}

impl Clone for RequiresPython {
    ghost is_clone = { λ p q. q ≡ p };

    fn clone(&self) -> Result<RequiresPython, AllocError> {
        let text = self.text.clone()?;
        let set = self.set.clone()?;
        Ok(RequiresPython { text, set })
    }
}

impl Faithful for RequiresPython {
    ghost clone_is_source = { λ x y h. h };
}
