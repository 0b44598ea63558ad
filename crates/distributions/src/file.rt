// Distribution files.

ghost use Rattle.std.specs.Prelude.{◌≡◌};
ghost use Rattle.distributions.specs.Files.{is_lawful, is_lawful_sdist, is_lawful_wheel};
ghost use Rattle.distributions.specs.Forms.{form_of};
ghost use Rattle.distributions.specs.Sizes.{is_size};

use crate::digest::is_digest;
use crate::form::{Form, form_of};
use lists::{Faithful, Named, Text};
use std::alloc::AllocError;

/// A distribution file of a release (PEP 691, "Project Detail"; PEP 751, "packages.wheels", "packages.sdist").
#[derive(Debug)]
pub struct DistributionFile {
    /// The name of the file.
    pub name: Text,
    /// Where the file is.
    pub url: Text,
    /// How many bytes the file has.
    pub size: u64,
    /// The SHA-256 digest of the file, in hexadecimal digits.
    pub sha256: Text,
}

impl Drop for DistributionFile {
    fn drop(self) {
        let DistributionFile {
            name: _,
            url: _,
            size: _,
            sha256: _,
        } = self;
    }
}

impl Named for DistributionFile {
    ghost named = { λ f. f.name };

    fn text(&self) -> &str {
        self.name.as_str()
    }
}

impl Clone for DistributionFile {
    ghost is_clone = { λ f g. g ≡ f };

    fn clone(&self) -> Result<DistributionFile, AllocError> {
        let name = self.name.clone()?;
        let url = self.url.clone()?;
        let sha256 = self.sha256.clone()?;
        Ok(DistributionFile {
            name,
            url,
            size: self.size,
            sha256,
        })
    }
}

impl Faithful for DistributionFile {
    ghost clone_is_source = { λ x y h. h };
}

impl DistributionFile {
    /// What the file is, by the end of its name.
    pub fn form(&self) -> Form
        ensures { result ≡ form_of self.now.name }
    {
        form_of(self.name.as_str())
    }

    /// Whether size and digest are lawful.
    pub fn is_lawful(&self) -> bool
        ensures { result ≡ is_lawful self.now }
    {
        is_size(self.size) && is_digest(self.sha256.as_str())
    }

    /// Whether the file is a wheel, and lawful.
    pub fn is_lawful_wheel(&self) -> bool
        ensures { result ≡ is_lawful_wheel self.now }
    {
        self.form().is_wheel() && self.is_lawful()
    }

    /// Whether the file is a source distribution, and lawful.
    pub fn is_lawful_sdist(&self) -> bool
        ensures { result ≡ is_lawful_sdist self.now }
    {
        self.form().is_sdist() && self.is_lawful()
    }
}

/// Whether a number of bytes is below 2 ^ 63, as every size in an index and a lock is.
pub fn is_size(size: u64) -> bool
    ensures { result ≡ is_size size }
{
    size <= 9_223_372_036_854_775_807
}
