// The TOML table of a lock.

ghost use Rattle.std.specs.Prelude.{◌≡◌, ◌^◌, ◌∷◌, [], IfOk, Ok, nat_lt, string_bytes, true};
ghost use Rattle.std.specs.Option.{option_map};
ghost use Rattle.pep440.specs.Canonical.{canonical};
ghost use Rattle.toml.specs.Data.{string};
ghost use Rattle.toml.specs.View.{table_view, view};
ghost use Rattle.pylock.specs.LockOfTable.{lock_in};
ghost use Rattle.pylock.specs.Python.{python_text};
ghost use Rattle.pylock.specs.Tables.{array_of, dependency_data, file_data, lock_table, package_data, package_table, table_of, tool_data};

use crate::entry::Entry;
use crate::lock::Lock;
use crate::values::{
    Written, array_value, insert, insert_some, only_key, some_array, some_value, text_value,
};
use distributions::DistributionFile;
use lists::Text;
use pep440::laws::a_canonical_text_is_read;
use pep440::{RequiresPython, Version};
use pep508::Name;
use std::alloc::{AllocError, Global};
use toml::{Table, Value};

impl Written for Text {
    ghost form = { string };

    ghost fits = { λ _. true };

    fn to_value(&self, alloc: Global) -> Result<Value, AllocError> {
        text_value(alloc, self.as_str())
    }
}

impl Written for Name {
    ghost form = { dependency_data };

    ghost fits = { λ _. true };

    #[tactic(auto, unfolding(crate::specs::Tables::dependency_data))]
    fn to_value(&self, alloc: Global) -> Result<Value, AllocError> {
        let name = text_value(alloc, self.normal())?;
        only_key(alloc, "name", name)
    }
}

impl Written for DistributionFile {
    ghost form = { file_data };

    ghost fits = { λ f. nat_lt f.size (2 ^ 63) };

    #[tactic(auto, unfolding(crate::specs::Tables::file_data))]
    fn to_value(&self, alloc: Global) -> Result<Value, AllocError> {
        let mut table = Table::new(alloc);
        let sha256 = text_value(alloc, self.sha256.as_str())?;
        insert(
            alloc,
            &mut table,
            "hashes",
            only_key(alloc, "sha256", sha256)?,
        )?;
        insert(
            alloc,
            &mut table,
            "name",
            text_value(alloc, self.name.as_str())?,
        )?;
        insert(alloc, &mut table, "size", Value::Integer(self.size as i64))?;
        insert(
            alloc,
            &mut table,
            "url",
            text_value(alloc, self.url.as_str())?,
        )?;
        Ok(Value::Table(table))
    }
}

/// The text of what is asked of Python as a value, where something is asked.
fn python_value(alloc: Global, python: &Option<RequiresPython>) -> Result<Option<Value>, AllocError>
    ensures { IfOk result (λ v. option_map view v ≡ option_map string (python_text python.now)) }
{
    match python {
        Some(python) => Ok(Some(text_value(alloc, python.text())?)),
        None => Ok(None),
    }
}

/// The table of an entry without its dependencies.
pub(crate) fn table_without_dependencies(alloc: Global, entry: &Entry) -> Result<Table, AllocError>
    ensures { IfOk result (λ t. table_view t
        ≡ package_table (record entry.now { dependencies = [] })) }
{
    entry.recall_invariant();
    let mut table = Table::new(alloc);
    insert(
        alloc,
        &mut table,
        "name",
        text_value(alloc, entry.name().normal())?,
    )?;
    let requires_python = python_value(alloc, entry.requires_python())?;
    insert_some(alloc, &mut table, "requires-python", requires_python)?;
    insert_some(
        alloc,
        &mut table,
        "sdist",
        some_value(alloc, entry.sdist())?,
    )?;
    let version = canonical_text(alloc, entry.version())?;
    insert(alloc, &mut table, "version", Value::String(version))?;
    insert_some(
        alloc,
        &mut table,
        "wheels",
        some_array(alloc, entry.wheels())?,
    )?;
    Ok(table)
}

impl Written for Entry {
    ghost form = { package_data };

    ghost fits = { λ _. true };

    #[tactic(auto, unfolding(crate::specs::Tables::package_data))]
    fn to_value(&self, alloc: Global) -> Result<Value, AllocError> {
        let mut table = table_without_dependencies(alloc, self)?;
        let dependencies = some_array(alloc, self.dependencies())?;
        insert_some(alloc, &mut table, "dependencies", dependencies)?;
        Ok(Value::Table(table))
    }
}

/// The canonical text of a version.
pub(crate) fn canonical_text(alloc: Global, version: &Version) -> Result<String, AllocError>
    ensures { IfOk result (λ text. string_bytes text ≡ canonical version.now) }
{
    match version.canonical(alloc) {
        Ok(text) => Ok(text),
        Err(_) => Err(AllocError),
    }
}

/// The table of the tool's own keys.
#[tactic(auto, unfolding(crate::specs::Tables::tool_data))]
fn tool_value(alloc: Global, snapshot: [u8; 32]) -> Result<Value, AllocError>
    ensures { IfOk result (λ v. view v ≡ tool_data snapshot) }
{
    let digest = Value::String(hex::encode(alloc, snapshot)?);
    only_key(alloc, "reqlock", only_key(alloc, "snapshot", digest)?)
}

/// The array of one text.
fn environments_value(alloc: Global, environment: &str) -> Result<Value, AllocError>
    ensures { IfOk result (λ v. view v ≡ array_of string (environment.now ∷ [])) }
{
    let mut values = Vec::new(alloc);
    values.push(text_value(alloc, environment)?)?;
    Ok(Value::Array(values))
}

/// The table of a lock with these environments and packages, key by key.
pub(crate) fn lock_table(
    alloc: Global,
    environments: Option<Value>,
    snapshot: [u8; 32],
    packages: Value,
) -> Result<Table, AllocError>
    ensures { IfOk result (λ t. table_view t
        ≡ lock_table (option_map view environments) snapshot (view packages)) }
{
    let mut table = Table::new(alloc);
    insert(
        alloc,
        &mut table,
        "created-by",
        text_value(alloc, "reqlock")?,
    )?;
    insert_some(alloc, &mut table, "environments", environments)?;
    insert(alloc, &mut table, "lock-version", text_value(alloc, "1.0")?)?;
    insert(alloc, &mut table, "packages", packages)?;
    insert(alloc, &mut table, "tool", tool_value(alloc, snapshot)?)?;
    Ok(table)
}

/// The table of a lock.
fn table_of(alloc: Global, lock: &Lock) -> Result<Table, AllocError>
    ensures { IfOk result (λ t. table_view t ≡ table_of lock.now) }
{
    let environments = environments_value(alloc, lock.environment())?;
    let packages = array_value(alloc, lock.entries())?;
    lock_table(alloc, Some(environments), lock.snapshot(), packages)
}

impl Lock {
    /// The TOML table of the lock (PEP 751). It is read back as this lock.
    pub fn to_table(&self, alloc: Global) -> Result<Table, AllocError>
        ensures table { IfOk result (λ t. table_view t ≡ table_of self.now) }
        ensures reads_back { IfOk result (λ t. lock_in (table_view t) ≡ Ok self.now) }
    {
        self.recall_invariant();
        a_canonical_text_is_read();
        let table = table_of(alloc, self)?;
        Ok(table)
    }
}
