// The values of `--env`: the targets that are to be locked, and the files of their environments.

ghost use Rattle.lists.specs.Answers.{Answers};
ghost use Rattle.std.specs.Prelude.{◌≡◌, ◌⊎◌, IfErr, IfOk, IsSomeAnd, OnOk, [], false, find, map, true};
ghost use Rattle.std.specs.Option.{option_copied};
ghost use Rattle.states.specs.TargetNames.{is_target_name};
ghost use Rattle.states.specs.declared.refusal.Refusal.TheVariants.{BadTarget, DuplicateTarget};
ghost use Rattle.inputs.specs.Faults.{refused};
ghost use Rattle.inputs.specs.FileNames.{parts_of};
ghost use Rattle.inputs.specs.Handed.{AreAt};
ghost use Rattle.inputs.specs.TargetFiles.{are_named, environments_in, has_name, name_in, named_environment, names_of, path_named, repeated, target_file_of, target_files_of, targets_in};
ghost use Rattle.inputs.specs.declared.fault.Fault.TheVariants.{OutOfMemory};

use crate::fault::{Fault, in_file};
use crate::handed_files::HandedFiles;
use crate::input_files::{InputFile, read_environment};
use crate::named_file::{NamedBytes, NamedPath};
use edits::{Environment, Refusal, TargetName, Targets};
use lists::{Seq, Text};
use std::alloc::{AllocError, Global};
use std::collections::BTreeSet;

/// The name of a target, and where the file of its environment stands.
pub type TargetPath = NamedPath<TargetName>;

impl NamedPath<TargetName> {
    /// The name of the target.
    pub fn name(&self) -> &TargetName
        ensures { result.now ≡ self.now.name }
    {
        &self.name
    }

    /// Where the file stands.
    pub fn path(&self) -> &str
        ensures { result.now ≡ self.now.path }
    {
        self.path.as_str()
    }

    /// The value of `--env` that names both.
    pub fn value(&self, alloc: Global) -> Result<String, AllocError> {
        let (name, path) = (&self.name, self.path.as_str());
        if name.is_empty() && !path.contains('=') {
            return String::from_str(alloc, path);
        }
        format!(in alloc; "{name}={path}")
    }
}

impl Clone for NamedPath<TargetName> {
    ghost is_clone = { λ file copy. copy ≡ file };

    fn clone(&self) -> Result<NamedPath<TargetName>, AllocError> {
        Ok(NamedPath {
            name: self.name.clone()?,
            path: self.path.clone()?,
        })
    }
}

/// The path of the environment of a target; empty where no target has the name.
pub fn environment_path<'a>(targets: &'a [TargetPath], name: &TargetName) -> &'a str
    ensures { result.now ≡ path_named name.now targets.now }
{
    match target_named(targets, name.as_str()) {
        Some(target) => target.path(),
        None => "",
    }
}

/// The target of a name.
fn target_named<'a>(targets: &'a [TargetPath], name: &str) -> Option<&'a TargetPath>
    ensures { option_copied result ≡ find (has_name name.now) targets.now }
{
    targets.iter().find(|target| target.name().as_str() == name)
}

/// The targets that values of `--env` name, with their files, in the order of the values. A bad name is told
/// before one that stands twice, and no file has been read.
pub fn target_files(alloc: Global, values: &[Text]) -> Result<Vec<TargetPath>, Fault>
    ensures files { IfOk result (λ files. target_files_of values.now ≡ Ok files.items) }
    ensures refused { IfErr result (λ fault. (fault ≡ OutOfMemory)
        ⊎ (refused (target_files_of values.now) ≡ Err fault)) }
{
    let files = named_files(alloc, values)?;
    refuse_twice(alloc, files.as_slice())?;
    Ok(files)
}

/// The same, where a name may stand twice.
fn named_files(alloc: Global, values: &[Text]) -> Result<Vec<TargetPath>, Fault>
    ensures files { IfOk result (λ files. files.items ≡ map target_file_of values.now) }
    ensures named { OnOk result (are_named values.now ≡ true) }
    ensures refused { IfErr result (λ fault. (fault ≡ OutOfMemory)
        ⊎ ((fault ≡ Fault.Refused BadTarget) × (are_named values.now ≡ false))) }
{
    let mut files = Vec::with_capacity(alloc, values.len())?;
    for place in 0..values.len() {
        let file = target_file(alloc, values[place].as_str())?;
        files.push(file)?;
    }
    Ok(files)
}

/// The name and the path: the first `=` divides them, and without one the name is empty.
pub(crate) fn parts_of(value: &str) -> (&str, &str)
    ensures name { result.0.now ≡ (parts_of value.now).0 }
    ensures path { result.1.now ≡ (parts_of value.now).1 }
{
    value.split_once('=').unwrap_or(("", value))
}

fn target_file(alloc: Global, value: &str) -> Result<TargetPath, Fault>
    ensures file { IfOk result (λ file. file ≡ target_file_of value.now) }
    ensures named { OnOk result (is_target_name (name_in value.now) ≡ true) }
    ensures refused { IfErr result (λ fault. (fault ≡ OutOfMemory)
        ⊎ ((fault ≡ Fault.Refused BadTarget) × (is_target_name (name_in value.now) ≡ false))) }
{
    let (name, path) = parts_of(value);
    Ok(NamedPath {
        name: TargetName::parse(alloc, name)?,
        path: Text::copy_of(alloc, path)?,
    })
}

fn refuse_twice(alloc: Global, files: &[TargetPath]) -> Result<(), Fault>
    ensures once { OnOk result (repeated [] (names_of files.now) ≡ None) }
    ensures refused { IfErr result (λ fault. (fault ≡ OutOfMemory)
        ⊎ IsSomeAnd (repeated [] (names_of files.now))
        (λ name. fault ≡ Fault.Refused (DuplicateTarget name))) }
{
    let mut names = BTreeSet::new(alloc);
    for place in 0..files.len() {
        let name = files[place].name.clone()?;
        if !names.insert(name)? {
            let name = files[place].name.clone()?;
            return Err(Fault::Refused(Refusal::DuplicateTarget(name)));
        }
    }
    Ok(())
}

/// The bytes of the environments, read in the order of the command line.
pub fn read_all<G: HandedFiles>(
    handed: &G,
    files: Vec<TargetPath>,
) -> Result<Vec<NamedBytes<TargetName>>, Fault>
    ensures { IfOk result
        (λ read. AreAt (G.handed handed.now) InputFile.Environment files.items read.items) }
{
    let mut read = Vec::with_capacity(handed.alloc(), files.len())?;
    for NamedPath { name, path } in files {
        let file = InputFile::Environment(name.clone()?);
        let bytes = handed.read(file, path.as_str())?;
        read.push(NamedBytes { name, path, bytes })?;
    }
    Ok(read)
}

/// The targets with the environments that the bytes are; faults are told in their order.
pub fn targets_of(alloc: Global, read: Vec<NamedBytes<TargetName>>) -> Result<Targets, Fault>
    ensures { Answers OutOfMemory (targets_in read.items) result }
{
    let environments = environments_of(alloc, read)?;
    Ok(Targets::new(alloc, environments)?)
}

/// The environments that the bytes are, with their names.
fn environments_of(
    alloc: Global,
    read: Vec<NamedBytes<TargetName>>,
) -> Result<Seq<(TargetName, Environment)>, Fault>
    ensures { Answers OutOfMemory (environments_in read.items) result }
{
    let mut environments = Vec::with_capacity(alloc, read.len())?;
    for target in read {
        environments.push(environment_of(alloc, target)?)?;
    }
    Ok(Seq::from_vec(environments))
}

fn environment_of(
    alloc: Global,
    target: NamedBytes<TargetName>,
) -> Result<(TargetName, Environment), Fault>
    ensures { Answers OutOfMemory (named_environment target) result }
{
    let NamedBytes {
        name,
        path: _,
        bytes,
    } = target;
    let file = InputFile::Environment(name.clone()?);
    let environment = in_file(file, read_environment(alloc, bytes.as_slice()))?;
    Ok((name, environment))
}
