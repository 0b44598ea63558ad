// Entries of a lock.

ghost use Rattle.std.specs.Prelude.{◌≡◌, IfOk};
ghost use Rattle.pylock.specs.Packages.{IsPackage, entry_of};
ghost use Rattle.pylock.specs.Python.{python_text};

use crate::checks;
use distributions::DistributionFile;
use lists::{Faithful, Named, Seq, Text};
use pep440::{RequiresPython, Version};
use pep508::Name;
use std::alloc::{AllocError, Global};
use std::marker::Model;
use std::rc::Rc;

/// The parts of a locked package.
#[derive_where(Debug)]
struct Content {
    name: Name,
    version: Version,
    requires_python: Option<RequiresPython>,
    dependencies: Seq<Name>,
    sdist: Option<DistributionFile>,
    wheels: Seq<DistributionFile>,
}

impl Drop for Content {
    fn drop(self) {
        let Content {
            name: _,
            version: _,
            requires_python: _,
            dependencies: _,
            sdist: _,
            wheels: _,
        } = self;
    }
}

/// A locked package (PEP 751, "packages"): its version, the names of the packages that it needs and
/// its files. In a clause it is the record of its parts. Clones of an entry share it.
#[derive(Debug)]
pub struct Entry {
    shared: Rc<Content>,
}

impl Drop for Entry {
    fn drop(self) {
        let Entry { shared: _ } = self;
    }
}

impl Model for Entry {
    ghost use Rattle.pylock.specs.Packages.{EntryParts, IsPackage};
    ghost use Rattle.pylock.specs.Python.{python_text};

    ghost Value = { EntryParts };

    ghost view = { λ e. record {
      name = e.shared.value.name;
      version = e.shared.value.version;
      requires_python = python_text e.shared.value.requires_python;
      dependencies = e.shared.value.dependencies;
      sdist = e.shared.value.sdist;
      wheels = e.shared.value.wheels;
    } };

    ghost invariant = { λ e. IsPackage (record {
      name = e.shared.value.name;
      version = e.shared.value.version;
      requires_python = python_text e.shared.value.requires_python;
      dependencies = e.shared.value.dependencies;
      sdist = e.shared.value.sdist;
      wheels = e.shared.value.wheels;
    }) };
}

impl Named for Entry {
    ghost named = { λ e. e.name };

    fn text(&self) -> &str {
        self.name().normal()
    }
}

impl Entry {
    /// The entry of these parts; `None` where they make none. The dependencies rise by their bytes,
    /// are names of other packages and distinct; the wheels rise by their names, which end in
    /// `.whl`; the name of the source distribution ends in `.tar.gz` or `.zip`; there is a file at
    /// least; sizes are below 2 ^ 63, digests are in lower case; `requires_python` reads as a set of
    /// specifiers that isn't blank.
    pub fn new(
        alloc: Global,
        name: Name,
        version: Version,
        requires_python: Option<Text>,
        dependencies: Seq<Name>,
        sdist: Option<DistributionFile>,
        wheels: Seq<DistributionFile>,
    ) -> Result<Option<Entry>, AllocError>
        ensures { IfOk result (λ e. e ≡ entry_of (record {
          name = name;
          version = version;
          requires_python = requires_python;
          dependencies = dependencies;
          sdist = sdist;
          wheels = wheels;
        })) }
    {
        match checks::read_python(alloc, requires_python)? {
            Some(python) => {
                Entry::with_python(alloc, name, version, python, dependencies, sdist, wheels)
            }
            None => Ok(None),
        }
    }

    /// The same of what is asked of Python, as it was read.
    pub fn with_python(
        alloc: Global,
        name: Name,
        version: Version,
        requires_python: Option<RequiresPython>,
        dependencies: Seq<Name>,
        sdist: Option<DistributionFile>,
        wheels: Seq<DistributionFile>,
    ) -> Result<Option<Entry>, AllocError>
        ensures { IfOk result (λ e. e ≡ entry_of (record {
          name = name;
          version = version;
          requires_python = python_text requires_python;
          dependencies = dependencies;
          sdist = sdist;
          wheels = wheels;
        })) }
    {
        name.recall_invariant();
        version.recall_invariant();
        checks::recall_python(&requires_python);
        let are_dependencies = checks::are_dependencies(&name, dependencies.as_slice());
        let is_sdist = checks::may_be_sdist(&sdist);
        let are_wheels = checks::are_wheels(wheels.as_slice());
        let has_file = checks::has_file(&sdist, wheels.as_slice());
        if are_dependencies && is_sdist && are_wheels && has_file {
            let content = Content {
                name,
                version,
                requires_python,
                dependencies,
                sdist,
                wheels,
            };
            let shared = Rc::new(alloc, content)?;
            return Ok(Some(Entry { shared }));
        }
        Ok(None)
    }

    /// The name of the package.
    pub fn name(&self) -> &Name
        ensures { result.now ≡ self.now.name }
    {
        &self.shared.as_ref().name
    }

    /// The version of the package.
    pub fn version(&self) -> &Version
        ensures { result.now ≡ self.now.version }
    {
        &self.shared.as_ref().version
    }

    /// The Pythons that the package runs on, as the index tells them (core metadata, "Requires-Python").
    pub fn requires_python(&self) -> &Option<RequiresPython>
        ensures { python_text result.now ≡ self.now.requires_python }
    {
        &self.shared.as_ref().requires_python
    }

    /// The names of the packages that this one needs, in the order of their bytes.
    pub fn dependencies(&self) -> &[Name]
        ensures { result.now ≡ self.now.dependencies }
    {
        self.shared.as_ref().dependencies.as_slice()
    }

    /// The source distribution.
    pub fn sdist(&self) -> &Option<DistributionFile>
        ensures { result.now ≡ self.now.sdist }
    {
        &self.shared.as_ref().sdist
    }

    /// The wheels, in the order of their names.
    pub fn wheels(&self) -> &[DistributionFile]
        ensures { result.now ≡ self.now.wheels }
    {
        self.shared.as_ref().wheels.as_slice()
    }

    /// What holds of every entry.
    pub fn recall_invariant(&self)
        ensures { IsPackage self.now }
    {
        let _name = &self.shared.as_ref().name;
    }
}

impl Clone for Entry {
    ghost is_clone = { λ e f. f ≡ e };

    fn clone(&self) -> Result<Entry, AllocError> {
        let shared = self.shared.clone()?;
        Ok(Entry { shared })
    }
}

impl Faithful for Entry {
    ghost clone_is_source = { λ x y h. h };
}
