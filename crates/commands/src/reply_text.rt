// Replies as they are written.

ghost use Rattle.std.specs.Prelude.{◌≡◌, ◌+◌, ◌≤◌, [], ◌++◌, IfOk, length, vec_len, vec_capacity};
ghost use Rattle.commands.specs.Replies.{is_accepted, text_of_reply, word_of};

use edits::Refusal;
use itoa::Buffer;
use journal::Reply;
use std::alloc::{AllocError, Global};
use std::marker::Model;

// No reply is longer than this.
const LONGEST_REPLY: usize = 64;

/// The word of a refusal: its name in lower case with a hyphen before each inner capital. It has
/// none of the refusal's details.
pub fn refusal_word(refusal: &Refusal) -> &'static str
    ensures word { result.now ≡ word_of refusal.now }
    ensures short { length result.now ≤ 16 }
{
    match refusal {
        Refusal::BadText => "bad-text",
        Refusal::AlreadyPresent(_) => "already-present",
        Refusal::NotPresent => "not-present",
        Refusal::Ambiguous(_) => "ambiguous",
        Refusal::NotLocked(_) => "not-locked",
        Refusal::NoSolution => "no-solution",
        Refusal::NothingChanges => "nothing-changes",
        Refusal::OutOfMemory => "out-of-memory",
        Refusal::NothingToUndo => "nothing-to-undo",
        Refusal::NothingToRedo => "nothing-to-redo",
        Refusal::FilesDisagree(_) => "files-disagree",
        Refusal::JournalBroken(_) => "journal-broken",
        Refusal::BadCommand => "bad-command",
        Refusal::BadTarget => "bad-target",
        Refusal::DuplicateTarget(_) => "duplicate-target",
        Refusal::NoTarget => "no-target",
    }
}

/// The text of one reply after another, in room that is taken once. In a clause it is the text of the last one.
#[derive(Drop)]
pub struct ReplyText {
    bytes: Vec<u8>,
}

impl Model for ReplyText {
    ghost use Rattle.std.specs.Prelude.{List, ℕ, ◌≤◌, vec_capacity};

    ghost Value = { List ℕ };

    ghost view = { λ t. t.bytes.items };

    ghost invariant = { λ t. 64 ≤ vec_capacity t.bytes };
}

impl ReplyText {
    /// The empty text, with room for every reply.
    pub fn new(alloc: Global) -> Result<ReplyText, AllocError>
        ensures empty { IfOk result (λ t. t ≡ []) }
    {
        Ok(ReplyText {
            bytes: Vec::with_capacity(alloc, LONGEST_REPLY)?,
        })
    }

    /// Makes it the text of this reply. It has no refusal.
    pub fn set(&mut self, reply: &Reply)
        ensures text { self.new ≡ text_of_reply reply.now }
    {
        self.bytes.clear();
        write_reply(&mut self.bytes, reply);
    }

    /// The bytes of the reply.
    pub fn as_bytes(&self) -> &[u8]
        ensures text { result.now ≡ self.now }
    {
        self.bytes.as_slice()
    }
}

/// Whether a reply tells of an accepted command.
pub fn is_accepted(reply: &Reply) -> bool
    ensures { result ≡ is_accepted reply.now }
{
    match reply {
        Reply::Done(_) => true,
        Reply::Same | Reply::Refused(_) => false,
    }
}

fn write_reply(out: &mut Vec<u8>, reply: &Reply)
    requires empty { out.old.items ≡ [] }
    requires room { 64 ≤ vec_capacity out.old }
    ensures text { out.new.items ≡ text_of_reply reply.now }
    ensures capacity { 64 ≤ vec_capacity out.new }
{
    match reply {
        Reply::Done(cursor) => {
            let mut digits = Buffer::new();
            append_within(out, b"ok ");
            append_within(out, digits.format(*cursor).as_bytes());
            append_within(out, b"\n");
        }
        Reply::Same => append_within(out, b"same\n"),
        Reply::Refused(refusal) => {
            append_within(out, b"refused ");
            append_within(out, refusal_word(refusal).as_bytes());
            append_within(out, b"\n");
        }
    }
}

/// Puts bytes at the end of a vector that has room for them. It has no refusal.
pub(crate) fn append_within(out: &mut Vec<u8>, bytes: &[u8])
    requires { vec_len out.old + length bytes.now ≤ vec_capacity out.old }
    ensures items { out.new.items ≡ out.old.items ++ bytes.now }
    ensures capacity { vec_capacity out.old ≤ vec_capacity out.new }
{
    out.extend_from_slice(bytes).unwrap();
}
