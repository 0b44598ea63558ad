// What a history begins with.

ghost use Rattle.std.specs.Prelude.{◌≡◌, IfOk, IfSome, Ok, map};
ghost use Rattle.files.specs.FirstTargets.{AreTargetsOf};
ghost use Rattle.files.specs.Places.{AreKnown, bytes_read};
ghost use Rattle.inputs.specs.Handed.{IsIndexAt};
ghost use Rattle.inputs.specs.Inputs.{requirements_in};
ghost use Rattle.inputs.specs.PinsFiles.{ArePinsOf, given_by};
ghost use Rattle.inputs.specs.TargetFiles.{targets_in};

use crate::history_folder::HistoryFolder;
use crate::saved_files::SavedFiles;
use edits::{FirstTargets, ReqFile, TargetName, Targets};
use inputs::named_file::{NamedBytes, NamedPath};
use inputs::pins_files::{LentTarget, pins_of, read_pins};
use inputs::target_files::{TargetPath, read_all, targets_of};
use inputs::{Fault, HandedFiles, InputFile, in_file, read_index, read_requirements};
use lists::Text;
use snapshot::Snapshot;
use std::alloc::{AllocError, Global};

/// Where the files stand that a history begins with, beside the requirements file.
#[derive(Drop)]
pub struct FirstPaths<'a> {
    pub index: &'a str,
    pub targets: Vec<TargetPath>,
    /// The pins that it keeps.
    pub pins: Vec<NamedPath<Text>>,
}

/// What a history begins with.
#[derive(Drop)]
pub struct FirstInputs {
    /// The files that it is saved in the place of: the requirements file alone.
    pub files: SavedFiles,
    pub lines: ReqFile,
    pub first: FirstTargets,
    pub snapshot: Snapshot,
}

/// Reads the requirements file of a folder, an index, the environments of targets, and files of pins, which standard
/// input may be one of. No history and no lock is read. All files are read before a fault in one of them is told.
pub fn first_inputs<F: HistoryFolder, G: HandedFiles>(
    folder: &F,
    handed: &G,
    paths: FirstPaths<'_>,
) -> Result<FirstInputs, Fault>
    ensures known { IfOk result (λ first. IfSome (F.held folder.now)
        (λ h. AreKnown h (bytes_read first.files))) }
    ensures lines { IfOk result
        (λ first. requirements_in first.files.requirements.items ≡ Ok first.lines) }
    ensures first { IfOk result
        (λ first. AreTargetsOf (G.handed handed.now) paths.entry.targets.items
        paths.entry.pins.items first.first) }
    ensures index { IfOk result
        (λ first. IsIndexAt (G.handed handed.now) paths.entry.index.now first.snapshot) }
{
    let alloc = folder.alloc();
    let FirstPaths {
        index,
        targets,
        pins,
    } = paths;
    let files = SavedFiles::requirements_alone(folder)?;
    let index = handed.read(InputFile::Index, index)?;
    let environments = read_all(handed, targets)?;
    let pins = read_pins(handed, pins)?;
    let lines = read_requirements(alloc, files.requirements());
    let lines = in_file(InputFile::Requirements, lines)?;
    let snapshot = in_file(InputFile::Index, read_index(alloc, index.as_slice()))?;
    let first = targets_with_pins(alloc, environments, pins)?;
    Ok(FirstInputs {
        files,
        lines,
        first,
        snapshot,
    })
}

/// The targets with the environments that the bytes are, and what files pin for them. Faults of environments are told
/// before those of pins.
pub fn targets_with_pins(
    alloc: Global,
    environments: Vec<NamedBytes<TargetName>>,
    pins: Vec<NamedBytes<Text>>,
) -> Result<FirstTargets, Fault>
    ensures targets { IfOk result (λ first. targets_in environments.items ≡ Ok first.targets) }
    ensures pins { IfOk result
        (λ first. ArePinsOf pins.items first.targets first.pins) }
{
    let targets = targets_of(alloc, environments)?;
    let pins = pins_of(alloc, pins, named_targets(alloc, &targets)?.as_slice())?;
    Ok(FirstTargets { targets, pins })
}

/// The targets, for which pins may be handed in.
fn named_targets(alloc: Global, targets: &Targets) -> Result<Vec<LentTarget<'_>>, AllocError>
    ensures { IfOk result (λ named. map given_by named.items ≡ targets.now) }
{
    let mut named = Vec::new(alloc);
    for (name, environment) in targets.as_slice() {
        named.push(LentTarget { name, environment })?;
    }
    Ok(named)
}
