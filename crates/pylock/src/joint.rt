// Locks for several environments, and the TOML text of each.

ghost use Rattle.std.specs.Prelude.{◌≡◌, IfOk, Some, string_bytes, true};
ghost use Rattle.std.specs.Option.{option_map};
ghost use Rattle.pep440.specs.Canonical.{canonical};
ghost use Rattle.toml.specs.Data.{string};
ghost use Rattle.toml.specs.Parse.{parse_document};
ghost use Rattle.toml.specs.View.{table_view, view};
ghost use Rattle.pylock.specs.Joint.{joint_package_data, joint_table, reference_data};

use crate::entry::Entry;
use crate::table::{canonical_text, lock_table, table_without_dependencies};
use crate::text::printed;
use crate::values::{
    Written, array_value, insert, insert_some, some_array, some_value, text_value,
};
use lists::{Seq, Text};
use pep508::{Name, Version};
use std::alloc::{AllocError, Global};
use toml::{Table, Value};

/// A package that another one needs (PEP 751, "packages.dependencies"): its name, and what tells it
/// from others of that name.
#[derive(Debug)]
pub struct Reference {
    /// The name of the package.
    pub name: Name,
    /// The version of the package.
    pub version: Option<Version>,
    /// The marker of the package.
    pub marker: Option<Text>,
}

impl Drop for Reference {
    fn drop(self) {
        let Reference {
            name: _,
            version: _,
            marker: _,
        } = self;
    }
}

/// A package of a lock for several environments (PEP 751, "packages").
#[derive(Debug)]
pub struct JointPackage {
    /// The package; what it needs stands in `needs`.
    pub entry: Entry,
    /// The packages that it needs.
    pub needs: Seq<Reference>,
    /// The marker that holds in the environments that need the package; all need it where there is
    /// none.
    pub marker: Option<Text>,
}

impl Drop for JointPackage {
    fn drop(self) {
        let JointPackage {
            entry: _,
            needs: _,
            marker: _,
        } = self;
    }
}

/// A lock for several environments (PEP 751).
#[derive(Debug)]
pub struct JointLock {
    /// The markers of the environments; the lock is for any environment where there is none.
    pub environments: Seq<Text>,
    /// The SHA-256 digest of the index that the lock was made from.
    pub snapshot: [u8; 32],
    /// The packages.
    pub packages: Seq<JointPackage>,
}

impl Drop for JointLock {
    fn drop(self) {
        let JointLock {
            environments: _,
            snapshot: _,
            packages: _,
        } = self;
    }
}

/// The canonical text of a version as a value, where there is a version.
fn version_value(alloc: Global, version: &Option<Version>) -> Result<Option<Value>, AllocError>
    ensures { IfOk result (λ v. option_map view v
        ≡ option_map (λ w. string (canonical w)) version.now) }
{
    match version {
        Some(version) => Ok(Some(Value::String(canonical_text(alloc, version)?))),
        None => Ok(None),
    }
}

impl Written for Reference {
    ghost form = { reference_data };

    ghost fits = { λ _. true };

    #[tactic(auto, unfolding(crate::specs::Joint::reference_data))]
    fn to_value(&self, alloc: Global) -> Result<Value, AllocError> {
        let mut table = Table::new(alloc);
        let marker = some_value(alloc, &self.marker)?;
        insert_some(alloc, &mut table, "marker", marker)?;
        let name = text_value(alloc, self.name.normal())?;
        insert(alloc, &mut table, "name", name)?;
        let version = version_value(alloc, &self.version)?;
        insert_some(alloc, &mut table, "version", version)?;
        Ok(Value::Table(table))
    }
}

impl Written for JointPackage {
    ghost form = { joint_package_data };

    ghost fits = { λ _. true };

    #[tactic(auto, unfolding(crate::specs::Joint::joint_package_data))]
    fn to_value(&self, alloc: Global) -> Result<Value, AllocError> {
        let mut table = table_without_dependencies(alloc, &self.entry)?;
        let environments = some_value(alloc, &self.marker)?;
        insert_some(alloc, &mut table, "marker", environments)?;
        let needs = some_array(alloc, self.needs.as_slice())?;
        insert_some(alloc, &mut table, "dependencies", needs)?;
        Ok(Value::Table(table))
    }
}

impl JointLock {
    /// The TOML table of the lock (PEP 751).
    fn to_table(&self, alloc: Global) -> Result<Table, AllocError>
        ensures { IfOk result (λ t. table_view t ≡ joint_table self.now) }
    {
        let environments = some_array(alloc, self.environments.as_slice())?;
        let packages = array_value(alloc, self.packages.as_slice())?;
        lock_table(alloc, environments, self.snapshot, packages)
    }

    /// The TOML text of the lock (PEP 751). The order of its keys is no promise.
    pub fn print(&self, alloc: Global) -> Result<String, AllocError>
        ensures { IfOk result
            (λ text. parse_document (string_bytes text) ≡ Some (joint_table self.now)) }
    {
        let table = self.to_table(alloc)?;
        printed(alloc, &table)
    }
}
