// The header of a journal.

ghost use Rattle.std.specs.Prelude.{◌≡◌};
ghost use Rattle.markers.specs.Environment.{all_variables, texts_in};
ghost use Rattle.journal_format.specs.Forms.{only_keys};
ghost use Rattle.journal_format.specs.Lines.{are_targets, environment_in, has_target, header_in, header_keys, header_of_line, may_name, target_in, target_name_in, targets_in, texts_read, journal_version};
ghost use Rattle.pylock.specs.Flaws.{Gives, found};
ghost use Rattle.serde_json.specs.View.{view};
ghost use Rattle.std.specs.Result.{result_ok};
ghost use Rattle.states.specs.Targets.{target_name_of};

use crate::forms::{Read, at, check, json_of, only_keys, text_of};
use lists::{Named, Seq, rises};
use markers::{Cause, Environment};
use pylock::Flaw;
use serde_json::Value;
use states::{Refusal, TargetName};
use std::alloc::Global;

/// A version of the format.
#[derive(Clone, Copy, Debug, PartialEq, Eq)]
pub enum JournalVersion {
    /// Version 1, of one target whose name is empty.
    One,
    /// Version 2, which names its targets.
    Two,
    /// Version 3, whose steps may tell of targets that come, go or get another environment.
    Three,
}

/// A target of a header: its name, its environment, and the SHA-256 digest of its lock file.
pub struct HeaderTarget {
    pub name: TargetName,
    pub environment: Environment,
    pub lock: [u8; 32],
}

impl Drop for HeaderTarget {
    fn drop(self) {
        let HeaderTarget {
            name: _,
            environment: _,
            lock: _,
        } = self;
    }
}

/// The first line of a journal: its version, where the history stands, the SHA-256 digest of the
/// requirements file, the number of steps, and the targets.
pub struct Header {
    pub version: JournalVersion,
    pub cursor: u64,
    pub requirements: [u8; 32],
    pub steps: u64,
    pub targets: Seq<HeaderTarget>,
}

impl Drop for Header {
    fn drop(self) {
        let Header {
            version: _,
            cursor: _,
            requirements: _,
            steps: _,
            targets: _,
        } = self;
    }
}

impl Named for HeaderTarget {
    ghost named = { λ t. t.name };

    fn text(&self) -> &str {
        self.name.as_str()
    }
}

impl Header {
    /// Whether an entry may be of the target of this name. In version 3 the header has the present targets
    /// alone, so that each name may stand.
    pub(crate) fn may_name(&self, name: &TargetName) -> bool
        ensures { result ≡ may_name self.now.version self.now name.now }
    {
        match self.version {
            JournalVersion::One | JournalVersion::Two => self.has_target(name),
            JournalVersion::Three => true,
        }
    }

    /// Whether a target has this name.
    pub fn has_target(&self, name: &TargetName) -> bool
        ensures { result ≡ has_target self.now name.now }
    {
        let targets = self.targets.as_slice();
        let name = name.as_str();
        targets.iter().any(|target| target.name.as_str() == name)
    }
}

/// The name of a target that a text is.
fn target_name(alloc: Global, text: &str) -> Result<TargetName, Flaw>
    ensures { Gives (λ n. n) (found (result_ok (target_name_of text.now))) result }
{
    match TargetName::parse(alloc, text) {
        Ok(name) => Ok(name),
        Err(Refusal::OutOfMemory) => Err(Flaw::OutOfMemory),
        Err(_) => Err(Flaw::OtherForm),
    }
}

impl Read for TargetName {
    ghost reading = { target_name_in };

    #[tactic(auto, unfolding(crate::specs::Lines::target_name_in))]
    fn from_value(alloc: Global, value: &Value) -> Result<TargetName, Flaw> {
        target_name(alloc, text_of(value)?)
    }
}

/// The texts of an environment's object.
fn texts_of(alloc: Global, value: &Value) -> Result<Environment, Flaw>
    ensures { Gives (λ e. e) (texts_read (texts_in (view value.now) all_variables)) result }
{
    match Environment::from_value(alloc, value) {
        Ok(environment) => Ok(environment),
        Err(Cause::OutOfMemory) => Err(Flaw::OutOfMemory),
        Err(_) => Err(Flaw::OtherForm),
    }
}

impl Read for Environment {
    ghost reading = { environment_in };

    #[tactic(auto, unfolding(crate::specs::Lines::environment_in))]
    fn from_value(alloc: Global, value: &Value) -> Result<Environment, Flaw> {
        let names = [
            "implementation_name",
            "implementation_version",
            "os_name",
            "platform_machine",
            "platform_python_implementation",
            "platform_release",
            "platform_system",
            "platform_version",
            "python_full_version",
            "python_version",
            "sys_platform",
        ];
        only_keys(&names, value)?;
        texts_of(alloc, value)
    }
}

/// The version of this number.
fn journal_version(number: u64) -> Result<JournalVersion, Flaw>
    ensures { Gives (λ v. v) (found (journal_version number)) result }
{
    match number {
        1 => Ok(JournalVersion::One),
        2 => Ok(JournalVersion::Two),
        3 => Ok(JournalVersion::Three),
        _ => Err(Flaw::OtherForm),
    }
}

/// Checks that a value is an object with exactly the keys of a header of this version.
fn only_header_keys(version: JournalVersion, value: &Value) -> Result<(), Flaw>
    ensures { Gives (λ u. u) (only_keys (header_keys version) (view value.now)) result }
{
    match version {
        JournalVersion::One => {
            let keys = [
                "cursor",
                "environment",
                "journal",
                "lock",
                "requirements",
                "steps",
            ];
            only_keys(&keys, value)
        }
        JournalVersion::Two | JournalVersion::Three => {
            let keys = ["cursor", "journal", "requirements", "steps", "targets"];
            only_keys(&keys, value)
        }
    }
}

impl Read for HeaderTarget {
    ghost reading = { target_in };

    #[tactic(auto, unfolding(crate::specs::Lines::target_in))]
    fn from_value(alloc: Global, value: &Value) -> Result<HeaderTarget, Flaw> {
        only_keys(&["environment", "lock", "name"], value)?;
        let environment: Environment = at(alloc, "environment", value)?;
        let lock: [u8; 32] = at(alloc, "lock", value)?;
        let name: TargetName = at(alloc, "name", value)?;
        Ok(HeaderTarget {
            name,
            environment,
            lock,
        })
    }
}

/// The target that a header of version 1 tells of itself, in a list.
#[tactic(auto, unfolding(crate::specs::Lines::targets_in))]
fn own_target(alloc: Global, value: &Value) -> Result<Seq<HeaderTarget>, Flaw>
    ensures { Gives (λ targets. targets) (targets_in JournalVersion.One (view value.now)) result }
{
    let environment: Environment = at(alloc, "environment", value)?;
    let lock: [u8; 32] = at(alloc, "lock", value)?;
    let name = TargetName::empty(alloc);
    let mut targets = Seq::new(alloc);
    targets.push(HeaderTarget {
        name,
        environment,
        lock,
    })?;
    Ok(targets)
}

/// Whether there is a target at least, and their names rise.
fn are_targets(targets: &[HeaderTarget]) -> bool
    ensures { result ≡ are_targets targets.now }
{
    !targets.is_empty() && rises(targets)
}

/// The targets that a header of a later version lists.
#[tactic(auto, unfolding(crate::specs::Lines::targets_in))]
fn listed_targets(alloc: Global, value: &Value) -> Result<Seq<HeaderTarget>, Flaw>
    ensures { Gives (λ targets. targets) (targets_in JournalVersion.Two (view value.now)) result }
{
    let targets: Seq<HeaderTarget> = at(alloc, "targets", value)?;
    check(are_targets(targets.as_slice()))?;
    Ok(targets)
}

/// The targets of a header of this version.
#[tactic(auto, unfolding(crate::specs::Lines::targets_in))]
fn targets_of(
    alloc: Global,
    version: JournalVersion,
    value: &Value,
) -> Result<Seq<HeaderTarget>, Flaw>
    ensures { Gives (λ targets. targets) (targets_in version (view value.now)) result }
{
    match version {
        JournalVersion::One => own_target(alloc, value),
        JournalVersion::Two | JournalVersion::Three => listed_targets(alloc, value),
    }
}

/// The header that a value is.
#[tactic(auto, unfolding(crate::specs::Lines::header_in))]
fn header_of(alloc: Global, value: &Value) -> Result<Header, Flaw>
    ensures { Gives (λ h. h) (header_in (view value.now)) result }
{
    let number: u64 = at(alloc, "journal", value)?;
    let version = journal_version(number)?;
    only_header_keys(version, value)?;
    let targets = targets_of(alloc, version, value)?;
    let cursor: u64 = at(alloc, "cursor", value)?;
    let requirements: [u8; 32] = at(alloc, "requirements", value)?;
    let steps: u64 = at(alloc, "steps", value)?;
    check(cursor <= steps)?;
    Ok(Header {
        version,
        cursor,
        requirements,
        steps,
        targets,
    })
}

/// The header that a line is, without its LF.
#[tactic(auto, unfolding(crate::specs::Lines::header_of_line))]
pub fn header_of_line(alloc: Global, line: &[u8]) -> Result<Header, Flaw>
    ensures { Gives (λ h. h) (header_of_line line.now) result }
{
    let value = json_of(alloc, line)?;
    header_of(alloc, &value)
}
