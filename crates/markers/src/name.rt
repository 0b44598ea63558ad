// Names of projects and extras.

ghost use Rattle.lists.specs.Answers.{Answers};
ghost use Rattle.std.specs.Prelude.{◌≡◌, ◌++◌, IfOk, OnOk, true, string_bytes};
ghost use Rattle.std.specs.List.{list_all};
ghost use Rattle.markers.specs.Faults.{memory_fault, one_line};
ghost use Rattle.markers.specs.declared.fault.Cause.TheVariants.{OutOfMemory};
ghost use Rattle.markers.specs.Names.{is_name, is_name_byte, is_normal, is_separator, name_of, normal_of};
ghost use Rattle.markers.specs.Tied.Names.{normal_byte, starts_separated};

use crate::fault::{Cause, Fault};
use lists::{Faithful, Named, Text};
use std::alloc::{AllocError, Global};
use std::marker::Model;

/// The name of a project or an extra, in its normal form (PEP 503, "Normalized Names"; PEP 685).
/// In a clause it is the bytes of that form, by which names are compared, ordered and hashed.
#[derive(PartialEq, Eq, PartialOrd, Ord, Hash, Debug)]
pub struct Name {
    normal: Text,
}

impl Drop for Name {
    fn drop(self) {
        let Name { normal: _ } = self;
    }
}

impl Model for Name {
    ghost use Rattle.std.specs.Prelude.{◌≡◌, List, true, ℕ};
    ghost use Rattle.markers.specs.Names.{is_normal};

    ghost Value = { List ℕ };

    ghost view = { λ n. n.normal };

    ghost invariant = { λ n. is_normal n.normal ≡ true };

    ghost inverse = { λ n. record { normal = n } };
}

/// Whether the byte stands between the words of a name.
fn is_separator(byte: u8) -> bool
    ensures { result ≡ is_separator byte }
{
    byte == b'-' || byte == b'_' || byte == b'.'
}

/// Whether the byte may stand in a name: an ASCII letter or digit, or a separator.
pub fn is_name_byte(byte: u8) -> bool
    ensures { result ≡ is_name_byte byte }
{
    byte.is_ascii_alphanumeric() || is_separator(byte)
}

/// Whether names may stand in each of the bytes.
fn all_name_bytes(bytes: &[u8]) -> bool
    ensures { result ≡ list_all is_name_byte bytes.now }
{
    bytes.iter().all(|byte| is_name_byte(*byte))
}

/// Whether the bytes are a name.
fn is_name(bytes: &[u8]) -> bool
    ensures { result ≡ is_name bytes.now }
{
    if bytes.is_empty() {
        return false;
    }
    all_name_bytes(bytes)
        && bytes[0].is_ascii_alphanumeric()
        && bytes[bytes.len() - 1].is_ascii_alphanumeric()
}

/// Whether a separator leads the bytes.
fn starts_separated(bytes: &[u8]) -> bool
    ensures { result ≡ starts_separated bytes.now }
{
    match bytes {
        [] => false,
        [first, ..] => is_separator(*first),
    }
}

/// Puts what stands for the byte before `rest` behind a normal form.
fn push_normal(normal: &mut String, byte: u8, rest: &[u8]) -> Result<(), AllocError>
    requires { is_name_byte byte ≡ true }
    ensures { OnOk result (string_bytes normal.new
        ≡ string_bytes normal.old ++ normal_byte byte rest.now) }
{
    if !is_separator(byte) {
        return normal.push(char::from(byte.to_ascii_lowercase()));
    }
    if starts_separated(rest) {
        return Ok(());
    }
    normal.push('-')
}

/// The normal form of a name.
fn normal_form(alloc: Global, name: &[u8]) -> Result<String, AllocError>
    requires bytes { list_all is_name_byte name.now ≡ true }
    requires name { is_name name.now ≡ true }
    ensures { IfOk result (λ normal. string_bytes normal ≡ normal_of name.now) }
{
    let mut normal = String::with_capacity(alloc, name.len())?;
    for place in 0..name.len() {
        push_normal(&mut normal, name[place], &name[place + 1..])?;
    }
    Ok(normal)
}

impl Name {
    /// Reads a name. A text that is none is refused as `BadName`.
    pub fn parse(alloc: Global, text: &str) -> Result<Name, Fault>
        ensures { Answers memory_fault (one_line (name_of text.now)) result }
    {
        match Name::read(alloc, text) {
            Ok(name) => Ok(name),
            Err(cause) => Err(Fault::at(1, cause)),
        }
    }

    /// Reads a name, as `parse` does; the fault is its cause alone.
    pub fn read(alloc: Global, text: &str) -> Result<Name, Cause>
        ensures { Answers OutOfMemory (name_of text.now) result }
    {
        if !is_name(text.as_bytes()) {
            return Err(Cause::BadName);
        }
        let normal = normal_form(alloc, text.as_bytes())?;
        Ok(Name {
            normal: Text::from_string(normal),
        })
    }

    /// The normal form of the name.
    pub fn normal(&self) -> &str
        ensures { result.now ≡ self.now }
    {
        self.normal.as_str()
    }

    /// What holds of every name: it is in its normal form.
    pub fn recall_invariant(&self)
        ensures { is_normal self.now ≡ true }
    {
        let _normal = &self.normal;
    }
}

impl Clone for Name {
    ghost is_clone = { λ n m. m ≡ n };

    fn clone(&self) -> Result<Name, AllocError> {
        let normal = self.normal.clone()?;
        Ok(Name { normal })
    }
}

impl Faithful for Name {
    ghost clone_is_source = { λ x y h. h };
}

impl Named for Name {
    ghost named = { λ n. n };

    fn text(&self) -> &str {
        self.normal()
    }
}
