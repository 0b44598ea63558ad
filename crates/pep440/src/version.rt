// Versions.

ghost use Rattle.std.specs.Prelude.{◌≡◌, ◌<◌, length, string_bytes};
ghost use Rattle.pep440.specs.Canonical.{canonical};
ghost use Rattle.pep440.specs.Answers.{Gives};
ghost use Rattle.pep440.specs.Version.{IsVersion, is_post, is_pre};

use crate::fault::Fault;
use crate::parts::{LocalPart, Pre};
use lists::{Faithful, Seq};
use std::alloc::{AllocError, Global};
use std::marker::Model;

/// A version (PEP 440, "Version scheme"). In a clause it is the record of its parts.
pub struct Version {
    pub(crate) epoch: u64,
    pub(crate) release: Seq<u64>,
    pub(crate) pre: Option<Pre>,
    pub(crate) post: Option<u64>,
    pub(crate) dev: Option<u64>,
    pub(crate) local: Seq<LocalPart>,
}

impl Drop for Version {
    fn drop(self) {
        let Version {
            epoch: _,
            release: _,
            pre: _,
            post: _,
            dev: _,
            local: _,
        } = self;
    }
}

impl Model for Version {
    ghost use Rattle.pep440.specs.Version.{IsVersion, VersionParts};

    ghost Value = { VersionParts };

    ghost view = { λ a. record {
      epoch = a.epoch;
      release = a.release;
      pre = a.pre;
      post = a.post;
      dev = a.dev;
      local = a.local;
    } };

    ghost invariant = { λ a. IsVersion (record {
      epoch = a.epoch;
      release = a.release;
      pre = a.pre;
      post = a.post;
      dev = a.dev;
      local = a.local;
    }) };
}

impl Version {
    /// The epoch; 0 where the text has none.
    pub fn epoch(&self) -> u64
        ensures { result ≡ self.now.epoch }
    {
        self.epoch
    }

    /// The numbers of the release, trailing zeros too. There is one at least.
    pub fn release(&self) -> &[u64]
        ensures numbers { result.now ≡ self.now.release }
        ensures some { 0 < length result.now }
    {
        self.release.as_slice()
    }

    /// The pre-release part: its kind and number.
    pub fn pre(&self) -> Option<Pre>
        ensures { result ≡ self.now.pre }
    {
        self.pre
    }

    /// The number of the post-release part.
    pub fn post(&self) -> Option<u64>
        ensures { result ≡ self.now.post }
    {
        self.post
    }

    /// The number of the dev-release part.
    pub fn dev(&self) -> Option<u64>
        ensures { result ≡ self.now.dev }
    {
        self.dev
    }

    /// The parts of the local version, in the order of the text; none where there is no local version.
    pub fn local(&self) -> &[LocalPart]
        ensures { result.now ≡ self.now.local }
    {
        self.local.as_slice()
    }

    /// Whether the version has a pre or a dev part.
    pub fn is_pre(&self) -> bool
        ensures { result ≡ is_pre self.now }
    {
        self.pre.is_some() || self.dev.is_some()
    }

    /// Whether the version has a post part.
    pub fn is_post(&self) -> bool
        ensures { result ≡ is_post self.now }
    {
        self.post.is_some()
    }

    /// What holds of every version: the release isn't empty, local words are lawful, numbers fit.
    pub fn recall_invariant(&self)
        ensures { IsVersion self.now }
    {
        let _epoch = &self.epoch;
    }

    /// The one text of the version: `[N!]N(.N)*[{a|b|rc}N][.postN][.devN][+local]`.
    pub fn canonical(&self, alloc: Global) -> Result<String, Fault>
        ensures { Gives (λ text. string_bytes text) result (Ok (canonical self.now)) }
    {
        Ok(format!(in alloc; "{self}")?)
    }
}

impl Clone for Version {
    ghost is_clone = { λ v w. w ≡ v };

    fn clone(&self) -> Result<Version, AllocError> {
        let release = self.release.clone()?;
        let local = self.local.clone()?;
        Ok(Version {
            epoch: self.epoch,
            release,
            pre: self.pre,
            post: self.post,
            dev: self.dev,
            local,
        })
    }
}

impl Faithful for Version {
    ghost clone_is_source = { λ x y h. h };
}
