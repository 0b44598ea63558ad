// A journal, with the header that it begins with.

ghost use Rattle.std.specs.Prelude.{◌≡◌, ◌≤◌, IfOk, drop, length, map};
ghost use Rattle.std.specs.Result.{result_map_both};
ghost use Rattle.states.specs.declared.refusal.Refusal.TheVariants as refusals;
ghost use Rattle.journal.specs.Opens.{BeginsWith, Found, NamesTargets, Tells};
ghost use Rattle.journal.specs.Tied.{IsBegun};

use edits::{Refusal, TargetName};
use journal_format::{Flaw, Header, HeaderTarget, cut_line, header_of_line};
use lists::Seq;
use std::alloc::{AllocError, Global};
use std::marker::Model;

/// The header of a journal, and the place behind its line.
#[derive(Drop)]
struct FirstLine {
    header: Header,
    behind: usize,
}

/// A journal. In a clause it is its bytes. The header that they begin with is read once, where the journal
/// is made.
pub struct Journal {
    bytes: Seq<u8>,
    // None where the bytes don't begin with a header.
    first: Option<FirstLine>,
}

impl Drop for Journal {
    fn drop(self) {
        let Journal { bytes: _, first: _ } = self;
    }
}

impl Model for Journal {
    ghost use Rattle.std.specs.Prelude.{List, ℕ};
    ghost use Rattle.journal.specs.Tied.{IsBegun};

    ghost Value = { List ℕ };

    ghost view = { λ j. j.bytes };

    ghost invariant = { λ j. IsBegun j.bytes j.first };
}

/// A journal's header, and the bytes behind its line.
#[derive(Drop)]
pub(crate) struct Begin<'j> {
    pub(crate) header: &'j Header,
    pub(crate) steps: &'j [u8],
}

/// The header that the bytes of a journal begin with, and the place behind its line.
fn first_of(alloc: Global, journal: &[u8]) -> Result<Option<FirstLine>, AllocError>
    ensures { IfOk result (IsBegun journal.now) }
{
    let Some((line, steps)) = cut_line(journal) else {
        return Ok(None);
    };
    match header_of_line(alloc, line) {
        Ok(header) => Ok(Some(FirstLine {
            header,
            behind: journal.len() - steps.len(),
        })),
        Err(Flaw::OutOfMemory) => Err(AllocError),
        Err(Flaw::OtherForm) => Ok(None),
    }
}

/// The bytes from a place on.
fn bytes_behind(bytes: &[u8], place: usize) -> &[u8]
    requires { place ≤ length bytes.now }
    ensures { result.now ≡ drop place bytes.now }
{
    &bytes[place..]
}

/// The names of the targets.
fn names_of(alloc: Global, targets: &[HeaderTarget]) -> Result<Seq<TargetName>, AllocError>
    ensures { IfOk result (λ names. names ≡ map (λ t. t.name) targets.now) }
{
    let mut names = Vec::with_capacity(alloc, targets.len())?;
    for target in targets {
        let name = target.name.clone()?;
        names.push(name)?;
    }
    Ok(Seq::from_vec(names))
}

impl Journal {
    /// The journal of these bytes, whatever they are.
    pub fn read(alloc: Global, bytes: Seq<u8>) -> Result<Journal, AllocError>
        ensures { IfOk result (λ journal. journal ≡ bytes) }
    {
        let first = first_of(alloc, bytes.as_slice())?;
        Ok(Journal { bytes, first })
    }

    /// The bytes of the journal. It has no refusal.
    pub fn bytes(&self) -> &[u8]
        ensures { result.now ≡ self.now }
    {
        self.bytes.as_slice()
    }

    /// The header of the journal, and the bytes behind its line.
    pub(crate) fn begin(&self) -> Result<Begin<'_>, Refusal>
        ensures { Found (BeginsWith self.now) (refusals.JournalBroken 1) (result_map_both
            (λ b. (b.header.now, b.steps.now)) (λ e. e) result) }
    {
        match &self.first {
            Some(first) => {
                let header = &first.header;
                let steps = bytes_behind(self.bytes.as_slice(), first.behind);
                Ok(Begin { header, steps })
            }
            None => Err(Refusal::JournalBroken(1)),
        }
    }

    /// The names of the targets whose lock files belong to the journal, in the order of their bytes: those
    /// of its header, and for version 1 of the format the empty name. `JournalBroken(1)` where the journal
    /// doesn't begin with a header.
    pub fn targets(&self, alloc: Global) -> Result<Seq<TargetName>, Refusal>
        ensures { Tells (NamesTargets self.now) result }
    {
        let Begin { header, steps: _ } = self.begin()?;
        Ok(names_of(alloc, header.targets.as_slice())?)
    }
}
