// The JSON values of a journal's lines.

ghost use Rattle.std.specs.Prelude.{◌≡◌, IfOk, OnOk};
ghost use Rattle.pep440.specs.Canonical.{canonical};
ghost use Rattle.serde_json.specs.Data.{Data, array, item, no_items, put, string};
ghost use Rattle.markers.specs.Environment.{text_of};
ghost use Rattle.markers.specs.Variables.{variable_name};
ghost use Rattle.serde_json.specs.View.{members_view, view};
ghost use Rattle.pylock.specs.Python.{python_text};
ghost use Rattle.journal_format.specs.Tied.Members.{with_targets};
ghost use Rattle.journal_format.specs.Written.{array_of, digest_data, digests_data, entry_change_data, entry_data, environment_data, file_data, header_data, nullable, splice_data, step_data, target_change_data, target_data, written_version};

use crate::header::{Header, HeaderTarget, JournalVersion};
use changes::{Change, DigestChange, EntryChange, Splice, TargetChange};
use lists::Text;
use markers::{Environment, Name, Variable};
use pep440::{RequiresPython, Version};
use pylock::{DistributionFile, Entry};
use serde_json::{Map, Value, put};
use std::alloc::{AllocError, Global};

/// What a JSON value stands for.
trait Written {
    ghost form: { Self → Data };

    /// The JSON value of `self`.
    fn to_value(&self, alloc: Global) -> Result<Value, AllocError>
        ensures { IfOk result (λ v. view v ≡ form self.now) };
}

/// A text as a value.
fn text_value(alloc: Global, text: &str) -> Result<Value, AllocError>
    ensures { IfOk result (λ v. view v ≡ string text.now) }
{
    Ok(Value::String(String::from_str(alloc, text)?))
}

/// A digest as a value.
fn digest_value(alloc: Global, digest: [u8; 32]) -> Result<Value, AllocError>
    ensures { IfOk result (λ v. view v ≡ digest_data digest) }
{
    Ok(Value::String(hex::encode(alloc, digest)?))
}

/// A list as an array.
fn array_value<T: Written>(alloc: Global, items: &[T]) -> Result<Value, AllocError>
    ensures { IfOk result (λ v. view v ≡ array_of T.form items.now) }
{
    let mut values = Vec::with_capacity(alloc, items.len())?;
    for place in 0..items.len() {
        values.push(items[place].to_value(alloc)?)?;
    }
    Ok(Value::Array(values))
}

/// What may be there as a value, null where it is absent.
fn nullable<T: Written>(alloc: Global, item: &Option<T>) -> Result<Value, AllocError>
    ensures { IfOk result (λ v. view v ≡ nullable T.form item.now) }
{
    match item {
        Some(item) => item.to_value(alloc),
        None => Ok(Value::Null),
    }
}

impl Written for Text {
    ghost form = { string };

    fn to_value(&self, alloc: Global) -> Result<Value, AllocError> {
        text_value(alloc, self.as_str())
    }
}

impl Written for Name {
    ghost form = { string };

    fn to_value(&self, alloc: Global) -> Result<Value, AllocError> {
        text_value(alloc, self.normal())
    }
}

impl Written for DistributionFile {
    ghost form = { file_data };

    #[tactic(auto, unfolding(crate::specs::Written::file_data))]
    fn to_value(&self, alloc: Global) -> Result<Value, AllocError> {
        let mut members = Map::new(alloc);
        let name = text_value(alloc, self.name.as_str())?;
        put(&mut members, alloc, "name", name)?;
        let sha256 = text_value(alloc, self.sha256.as_str())?;
        put(&mut members, alloc, "sha256", sha256)?;
        put(&mut members, alloc, "size", Value::from(self.size))?;
        let url = text_value(alloc, self.url.as_str())?;
        put(&mut members, alloc, "url", url)?;
        Ok(Value::Object(members))
    }
}

/// The canonical text of a version as a value.
fn version_value(alloc: Global, version: &Version) -> Result<Value, AllocError>
    ensures { IfOk result (λ v. view v ≡ string (canonical version.now)) }
{
    match version.canonical(alloc) {
        Ok(text) => Ok(Value::String(text)),
        Err(_) => Err(AllocError),
    }
}

/// The text of what is asked of Python, or null where nothing is.
fn python_value(alloc: Global, python: &Option<RequiresPython>) -> Result<Value, AllocError>
    ensures { IfOk result (λ v. view v ≡ nullable string (python_text python.now)) }
{
    match python {
        Some(python) => text_value(alloc, python.text()),
        None => Ok(Value::Null),
    }
}

impl Written for Entry {
    ghost form = { entry_data };

    #[tactic(auto, unfolding(crate::specs::Written::entry_data))]
    fn to_value(&self, alloc: Global) -> Result<Value, AllocError> {
        let mut members = Map::new(alloc);
        let dependencies = array_value(alloc, self.dependencies())?;
        put(&mut members, alloc, "dependencies", dependencies)?;
        let python = python_value(alloc, self.requires_python())?;
        put(&mut members, alloc, "requires_python", python)?;
        let sdist = nullable(alloc, self.sdist())?;
        put(&mut members, alloc, "sdist", sdist)?;
        let version = version_value(alloc, self.version())?;
        put(&mut members, alloc, "version", version)?;
        let wheels = array_value(alloc, self.wheels())?;
        put(&mut members, alloc, "wheels", wheels)?;
        Ok(Value::Object(members))
    }
}

impl Written for EntryChange {
    ghost form = { entry_change_data };

    #[tactic(auto, unfolding(crate::specs::Written::entry_change_data))]
    fn to_value(&self, alloc: Global) -> Result<Value, AllocError> {
        let mut values = Vec::with_capacity(alloc, 4)?;
        values.push_reserved(text_value(alloc, self.target.as_str())?);
        values.push_reserved(self.name.to_value(alloc)?);
        values.push_reserved(nullable(alloc, &self.old)?);
        values.push_reserved(nullable(alloc, &self.new)?);
        Ok(Value::Array(values))
    }
}

/// The array of three values.
fn triple(alloc: Global, first: Value, second: Value, third: Value) -> Result<Value, AllocError>
    ensures { IfOk result (λ v. view v
        ≡ array (item (view first) (item (view second) (item (view third) no_items)))) }
{
    let mut values = Vec::with_capacity(alloc, 3)?;
    values.push_reserved(first);
    values.push_reserved(second);
    values.push_reserved(third);
    Ok(Value::Array(values))
}

impl Written for Splice {
    ghost form = { splice_data };

    #[tactic(auto, unfolding(crate::specs::Written::splice_data))]
    fn to_value(&self, alloc: Global) -> Result<Value, AllocError> {
        let old = array_value(alloc, self.old.as_slice())?;
        let new = array_value(alloc, self.new.as_slice())?;
        triple(alloc, Value::from(self.place), old, new)
    }
}

impl Written for DigestChange {
    ghost form = { digests_data };

    #[tactic(auto, unfolding(crate::specs::Written::digests_data))]
    fn to_value(&self, alloc: Global) -> Result<Value, AllocError> {
        let mut values = Vec::with_capacity(alloc, 2)?;
        values.push_reserved(digest_value(alloc, self.old)?);
        values.push_reserved(digest_value(alloc, self.new)?);
        Ok(Value::Array(values))
    }
}

/// Inserts the text of a variable at its name.
fn insert_text(
    members: &mut Map<String, Value>,
    alloc: Global,
    environment: &Environment,
    variable: Variable,
) -> Result<(), AllocError>
    ensures { OnOk result (members_view members.new.entries
        ≡ put (variable_name variable) (string (text_of environment.now variable)) (members_view
        members.old.entries)) }
{
    let text = text_value(alloc, environment.text(variable))?;
    serde_json::put(members, alloc, variable.name(), text)
}

impl Written for Environment {
    ghost form = { environment_data };

    #[tactic(auto, unfolding(crate::specs::Written::environment_data))]
    fn to_value(&self, alloc: Global) -> Result<Value, AllocError> {
        let mut members = Map::new(alloc);
        insert_text(&mut members, alloc, self, Variable::ImplementationName)?;
        insert_text(&mut members, alloc, self, Variable::ImplementationVersion)?;
        insert_text(&mut members, alloc, self, Variable::OsName)?;
        insert_text(&mut members, alloc, self, Variable::PlatformMachine)?;
        insert_text(
            &mut members,
            alloc,
            self,
            Variable::PlatformPythonImplementation,
        )?;
        insert_text(&mut members, alloc, self, Variable::PlatformRelease)?;
        insert_text(&mut members, alloc, self, Variable::PlatformSystem)?;
        insert_text(&mut members, alloc, self, Variable::PlatformVersion)?;
        insert_text(&mut members, alloc, self, Variable::PythonFullVersion)?;
        insert_text(&mut members, alloc, self, Variable::PythonVersion)?;
        insert_text(&mut members, alloc, self, Variable::SysPlatform)?;
        Ok(Value::Object(members))
    }
}

impl Written for HeaderTarget {
    ghost form = { target_data };

    #[tactic(auto, unfolding(crate::specs::Written::target_data))]
    fn to_value(&self, alloc: Global) -> Result<Value, AllocError> {
        let mut members = Map::new(alloc);
        let environment = self.environment.to_value(alloc)?;
        put(&mut members, alloc, "environment", environment)?;
        let lock = digest_value(alloc, self.lock)?;
        put(&mut members, alloc, "lock", lock)?;
        let name = text_value(alloc, self.name.as_str())?;
        put(&mut members, alloc, "name", name)?;
        Ok(Value::Object(members))
    }
}

impl Written for TargetChange {
    ghost form = { target_change_data };

    #[tactic(auto, unfolding(crate::specs::Written::target_change_data))]
    fn to_value(&self, alloc: Global) -> Result<Value, AllocError> {
        let name = text_value(alloc, self.name.as_str())?;
        let old = nullable(alloc, &self.old)?;
        let new = nullable(alloc, &self.new)?;
        triple(alloc, name, old, new)
    }
}

/// The number of the version that is written.
fn written_version(version: JournalVersion) -> u64
    ensures { result ≡ written_version version }
{
    match version {
        JournalVersion::Three => 3,
        JournalVersion::One | JournalVersion::Two => 2,
    }
}

/// The value of a header, in version 2 or 3.
#[tactic(auto, unfolding(crate::specs::Written::header_data))]
pub fn header_value(alloc: Global, header: &Header) -> Result<Value, AllocError>
    ensures { IfOk result (λ v. view v ≡ header_data header.now) }
{
    let mut members = Map::new(alloc);
    put(&mut members, alloc, "cursor", Value::from(header.cursor))?;
    let version = written_version(header.version);
    put(&mut members, alloc, "journal", Value::from(version))?;
    let requirements = digest_value(alloc, header.requirements)?;
    put(&mut members, alloc, "requirements", requirements)?;
    put(&mut members, alloc, "steps", Value::from(header.steps))?;
    let targets = array_value(alloc, header.targets.as_slice())?;
    put(&mut members, alloc, "targets", targets)?;
    Ok(Value::Object(members))
}

/// Inserts changes of targets, where there is one.
fn insert_targets(
    members: &mut Map<String, Value>,
    alloc: Global,
    targets: &[TargetChange],
) -> Result<(), AllocError>
    ensures { OnOk result (members_view members.new.entries
        ≡ with_targets targets.now (members_view members.old.entries)) }
{
    if targets.is_empty() {
        return Ok(());
    }
    let targets = array_value(alloc, targets)?;
    put(members, alloc, "targets", targets)
}

/// The value of a step.
#[tactic(auto, unfolding(crate::specs::Written::step_data))]
pub fn step_value(alloc: Global, change: &Change) -> Result<Value, AllocError>
    ensures { IfOk result (λ v. view v ≡ step_data change.now) }
{
    let mut members = Map::new(alloc);
    let entries = array_value(alloc, change.entries())?;
    put(&mut members, alloc, "entries", entries)?;
    let lines = array_value(alloc, change.splices())?;
    put(&mut members, alloc, "lines", lines)?;
    let snapshot = nullable(alloc, &change.digests())?;
    put(&mut members, alloc, "snapshot", snapshot)?;
    insert_targets(&mut members, alloc, change.targets())?;
    Ok(Value::Object(members))
}
