// How two texts compare.

ghost use Rattle.std.specs.Prelude.{◌≡◌, IfOk};
ghost use Rattle.std.specs.Option.{option_copied};
ghost use Rattle.markers.specs.Comparisons.{clauses_read, compares, has_comma, operator_of, sign, text_compares, version_read};
ghost use Rattle.markers.specs.Tied.MarkerTokens.{comparison_of};

use pep440::{Fault as SpecifierFault, Operator, SpecifierSet, Version};
use std::alloc::{AllocError, Global};

/// How a marker compares two texts that may be versions (PEP 508, "Environment Markers").
#[derive(Clone, Copy, Debug, PartialEq, Eq)]
pub enum Comparison {
    /// `python_full_version ~= "3.9.2"`: 3.9.2 or newer, and still 3.9
    Compatible,
    /// `os_name == "posix"`: this text, or an equal version
    Equal,
    /// `os_name != "nt"`: any other text or version
    NotEqual,
    /// `python_version <= "3.9"`: 3.9 or older
    AtMost,
    /// `python_version >= "3.9"`: 3.9 or newer
    AtLeast,
    /// `python_version < "3.9"`: older than 3.9
    Below,
    /// `python_version > "3.9"`: newer than 3.9
    Above,
}

impl Comparison {
    /// The comparison that is written as an operator is before its version.
    pub fn of(operator: Operator) -> Comparison
        ensures { result ≡ comparison_of operator }
    {
        match operator {
            Operator::Compatible => Comparison::Compatible,
            Operator::Equal | Operator::EqualPrefix => Comparison::Equal,
            Operator::NotEqual | Operator::NotEqualPrefix => Comparison::NotEqual,
            Operator::AtMost => Comparison::AtMost,
            Operator::AtLeast => Comparison::AtLeast,
            Operator::Below => Comparison::Below,
            Operator::Above => Comparison::Above,
        }
    }

    /// The operator of a clause that is written so, with no `.*` behind its version.
    pub fn operator(self) -> Operator
        ensures { result ≡ operator_of self }
    {
        match self {
            Comparison::Compatible => Operator::Compatible,
            Comparison::Equal => Operator::Equal,
            Comparison::NotEqual => Operator::NotEqual,
            Comparison::AtMost => Operator::AtMost,
            Comparison::AtLeast => Operator::AtLeast,
            Comparison::Below => Operator::Below,
            Comparison::Above => Operator::Above,
        }
    }

    /// How the comparison is written.
    pub fn sign(self) -> &'static str
        ensures { result.now ≡ sign self }
    {
        self.operator().sign()
    }
}

/// What stands left of a comparison: a text, and the version that it reads as.
#[derive(Clone, Copy)]
pub(crate) struct Left<'a> {
    pub(crate) text: &'a str,
    pub(crate) version: Option<&'a Version>,
}

/// What stands right of a comparison: a text, and the clauses that it reads as behind the sign.
#[derive(Clone, Copy)]
pub(crate) struct Right<'a> {
    pub(crate) text: &'a str,
    pub(crate) clauses: Option<&'a SpecifierSet>,
}

/// The version that a text reads as, or none.
#[tactic(auto, unfolding(crate::specs::Comparisons::version_read))]
pub(crate) fn read_version(alloc: Global, text: &str) -> Result<Option<Version>, AllocError>
    ensures { IfOk result (λ found. found ≡ version_read text.now) }
{
    match Version::parse(alloc, text) {
        Ok(version) => Ok(Some(version)),
        Err(SpecifierFault::OutOfMemory) => Err(AllocError),
        Err(_) => Ok(None),
    }
}

fn has_comma(text: &[u8]) -> bool
    ensures { result ≡ has_comma text.now }
{
    text.iter().any(|byte| *byte == b',')
}

/// The clauses that a sign and the text behind it read as, or none.
#[tactic(auto, unfolding(crate::specs::Comparisons::clauses_read))]
pub(crate) fn read_clauses(
    alloc: Global,
    comparison: Comparison,
    text: &str,
) -> Result<Option<SpecifierSet>, AllocError>
    ensures { IfOk result (λ found. found ≡ clauses_read comparison text.now) }
{
    if has_comma(text.as_bytes()) {
        return Ok(None);
    }
    let mut clause = String::from_str(alloc, comparison.sign())?;
    clause.push_str(text)?;
    match SpecifierSet::parse(alloc, clause.as_str()) {
        Ok(clauses) => Ok(Some(clauses)),
        Err(SpecifierFault::OutOfMemory) => Err(AllocError),
        Err(_) => Ok(None),
    }
}

/// Whether texts compare so, by their bytes. No text is compatible with another.
fn compare_texts(comparison: Comparison, left: &str, right: &str) -> bool
    ensures { result ≡ text_compares comparison left.now right.now }
{
    let order = left.as_bytes().cmp(right.as_bytes());
    match comparison {
        Comparison::Compatible => false,
        Comparison::Equal => order.is_eq(),
        Comparison::NotEqual => order.is_ne(),
        Comparison::AtMost => order.is_le(),
        Comparison::AtLeast => order.is_ge(),
        Comparison::Below => order.is_lt(),
        Comparison::Above => order.is_gt(),
    }
}

/// Whether the left text compares so with the right one. It has no refusal.
pub(crate) fn compare(comparison: Comparison, left: Left, right: Right) -> bool
    requires left_reads { option_copied left.version ≡ version_read left.text.now }
    requires right_reads { option_copied right.clauses ≡ clauses_read comparison right.text.now }
    ensures { result ≡ compares comparison left.entry.text.now right.entry.text.now }
{
    match (left.version, right.clauses) {
        (Some(version), Some(clauses)) => clauses.matches(version),
        _ => compare_texts(comparison, left.text, right.text),
    }
}
