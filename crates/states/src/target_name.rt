// Names of targets.

ghost use Rattle.lists.specs.Answers.{Answers};
ghost use Rattle.std.specs.Prelude.{◌≡◌, ◌↔◌, [], IfOk, IsTrue, Some, true};
ghost use Rattle.std.specs.List.{list_all};
ghost use Rattle.states.specs.TargetNames.{file_name, is_target_byte, is_target_name};
ghost use Rattle.states.specs.Targets.{target_name_of};
ghost use Rattle.states.specs.declared.refusal.Refusal.TheVariants.{OutOfMemory};

use crate::refusal::Refusal;
use lists::{Faithful, Named, Text};
use std::alloc::{AllocError, Global};
use std::fmt;
use std::marker::Model;

/// The name of a target: empty, or a lower-case ASCII letter with at most 31 lower-case letters, digits
/// and hyphens behind it. In a clause it is its bytes, by which names are compared and ordered.
#[derive(PartialEq, Eq, PartialOrd, Ord, Debug)]
pub struct TargetName {
    text: Text,
}

impl Drop for TargetName {
    fn drop(self) {
        let TargetName { text: _ } = self;
    }
}

impl Model for TargetName {
    ghost use Rattle.std.specs.Prelude.{◌≡◌, List, true, ℕ};
    ghost use Rattle.states.specs.TargetNames.{is_target_name};

    ghost Value = { List ℕ };

    ghost view = { λ n. n.text };

    ghost invariant = { λ n. is_target_name n.text ≡ true };

    ghost inverse = { λ n. record { text = n } };
}

/// Whether the byte may stand in a name behind its first.
fn is_target_byte(byte: u8) -> bool
    ensures { result ≡ is_target_byte byte }
{
    byte.is_ascii_lowercase() || byte.is_ascii_digit() || byte == b'-'
}

/// Whether each of the bytes may stand in a name behind its first.
fn all_target_bytes(bytes: &[u8]) -> bool
    ensures { result ≡ list_all is_target_byte bytes.now }
{
    bytes.iter().all(|byte| is_target_byte(*byte))
}

/// Whether the bytes are the name of a target.
fn is_target_name(bytes: &[u8]) -> bool
    ensures { result ≡ is_target_name bytes.now }
{
    match bytes {
        [] => true,
        [first, rest @ ..] => {
            first.is_ascii_lowercase() && all_target_bytes(rest) && rest.len() <= 31
        }
    }
}

impl TargetName {
    /// Reads a name. A text that is none is refused as `BadTarget`.
    pub fn parse(alloc: Global, text: &str) -> Result<TargetName, Refusal>
        ensures { Answers OutOfMemory (target_name_of text.now) result }
    {
        if !is_target_name(text.as_bytes()) {
            return Err(Refusal::BadTarget);
        }
        let text = Text::copy_of(alloc, text)?;
        Ok(TargetName { text })
    }

    /// The empty name, which the one target of a history has that knows no others. It has no refusal.
    pub fn empty(alloc: Global) -> TargetName
        ensures { result ≡ [] }
    {
        TargetName {
            text: Text::new(alloc),
        }
    }

    /// The text of the name.
    pub fn as_str(&self) -> &str
        ensures { result.now ≡ self.now }
    {
        self.text.as_str()
    }

    /// Whether the name is empty.
    pub fn is_empty(&self) -> bool
        ensures { IsTrue result ↔ (self.now ≡ []) }
    {
        self.as_str().is_empty()
    }

    /// The name of the file that the lock of the target is written to.
    pub fn lock_file(&self) -> LockFileName<'_>
        ensures { result.name.now ≡ self.now }
    {
        LockFileName { name: self }
    }

    /// The text of that name.
    pub fn file_name(&self, alloc: Global) -> Result<Text, AllocError>
        ensures { IfOk result (λ name. name ≡ file_name self.now) }
    {
        let file = self.lock_file();
        let name = format!(in alloc; "{file}")?;
        Ok(Text::from_string(name))
    }

    /// What holds of every name.
    pub fn recall_invariant(&self)
        ensures { is_target_name self.now ≡ true }
    {
        let _text = &self.text;
    }
}

impl Clone for TargetName {
    ghost is_clone = { λ s t. t ≡ s };

    fn clone(&self) -> Result<TargetName, AllocError> {
        let text = self.text.clone()?;
        Ok(TargetName { text })
    }
}

impl Faithful for TargetName {
    ghost clone_is_source = { λ x y h. h };
}

impl Named for TargetName {
    ghost named = { λ n. n };

    fn text(&self) -> &str {
        self.as_str()
    }
}

impl fmt::Display for TargetName {
    ghost output = { λ n. Some n };

    fn fmt<W: fmt::Write>(&self, f: &mut fmt::Formatter<W>) -> fmt::Result {
        let text = self.as_str();
        write!(f, "{text}")
    }
}

/// The name of the file that the lock of a target is written to: `pylock.toml` of the empty name, else
/// `pylock.NAME.toml` (PEP 751, "File Name").
#[derive(Clone, Copy)]
pub struct LockFileName<'n> {
    name: &'n TargetName,
}

impl fmt::Display for LockFileName<'_> {
    ghost output = { λ file. Some (file_name file.name.now) };

    fn fmt<W: fmt::Write>(&self, f: &mut fmt::Formatter<W>) -> fmt::Result {
        let LockFileName { name } = self;
        if name.is_empty() {
            write!(f, "pylock.toml")
        } else {
            write!(f, "pylock.{name}.toml")
        }
    }
}
