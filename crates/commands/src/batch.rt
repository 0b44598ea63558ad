// Commands read from a source, and their replies written to a sink.

ghost use Rattle.std.specs.Prelude.{◌≡◌, ◌≢◌, ◌≤◌, ◌<◌, ◌+◌, ◌++◌, [], ◌∷◌, true, false, length, take, drop, OnOk, OnErr, IfOk, IfErr, IfSome, IfNone, is_err};
ghost use Rattle.std.specs.Io.KnownBytes.{Appends, Consumes, IsAtEnd, Keeps};
ghost use Rattle.std.specs.Option.{option_to_list};
ghost use Rattle.commands.specs.BatchLine.{commands_of, item_of, IsUnbroken};
ghost use Rattle.commands.specs.Faults.{IsOfSink};
ghost use Rattle.commands.specs.Replies.{text_of_reply};
ghost use Rattle.commands.specs.Runs.{Answered, AnsweredTo, Ends, IsCutOff, Replied, SomeDoneTo};
ghost use Rattle.commands.specs.Tied.Standings.{Advances, Answers, AnswersAllBut, Breaks, Reads, SomeAdvance, standing};
ghost use Rattle.commands.specs.Tied.Tallies.{with_reply};
ghost use Rattle.commands.specs.declared.batch.StreamFault.TheVariants.{OutOfMemory};

use crate::batch_end::{BatchEnd, Tally};
use crate::batch_line::{Item, read_item};
use crate::pending_line::PendingLine;
use crate::reply_text::ReplyText;
use crate::sink::Sink;
use crate::source::Source;
use edits::Refusal;
use journal::{Command, Pool, Reply, Session};
use resolve::RESOLVER;
use std::alloc::{AllocError, Global};

// How many bytes one read takes at most.
const PIECE: usize = 8192;

/// Why a call ends before all that it reads was read, or all that it writes was written.
#[derive(Clone, Copy, Debug, PartialEq, Eq)]
pub enum StreamFault {
    /// The source failed.
    Read,
    /// The sink failed or took no bytes.
    Write,
    /// There was no memory. Of a batch no command was done.
    OutOfMemory,
}

impl From<AllocError> for StreamFault {
    ghost from_gives = { λ _ e. e ≡ OutOfMemory };

    fn from(_error: AllocError) -> StreamFault {
        StreamFault::OutOfMemory
    }
}

/// What a batch holds between its commands.
#[derive(Drop)]
struct BatchState {
    alloc: Global,
    /// The line of which no LF has come.
    pending: PendingLine,
    /// The text of the last reply.
    text: ReplyText,
    tally: Tally,
    /// How many lines there were, up to the first whose command was refused.
    lines: usize,
}

/// Does the commands that `source` gives, one a line, and writes the reply to each to `sink`. A
/// refusal, of memory too, ends nothing. The first failed call ends the batch: the source has
/// failed where `Read` is answered, the sink where `Write` is, and else neither.
pub fn batch<S: Source, K: Sink>(
    alloc: Global,
    source: &mut S,
    sink: &mut K,
    session: &mut Session,
    pool: &Pool<'_>,
) -> Result<(), StreamFault>
    requires source { S.has_failed source.old ≡ false }
    requires sink { K.has_failed sink.old ≡ false }
    // What was written is the text of the replies of a run over the commands of the input.
    ensures answered { OnOk result (IfSome (S.remaining source.old) (λ input.
        Answered pool.now (commands_of input) session.old session.new
        (K.contents sink.old) (K.contents sink.new))) }
    // Which stream has failed, and what is done where a fault ends it.
    ensures ends { Ends result pool.now (S.remaining source.old) (S.remaining source.new)
        (S.has_failed source.new) session.old session.new
        (K.contents sink.old) (K.contents sink.new) (K.has_failed sink.new) }
    // Want of memory comes before all else.
    ensures memory { result ≡ Err StreamFault.OutOfMemory
        → (session.new ≡ session.old) × (sink.new ≡ sink.old) × (source.new ≡ source.old) }
{
    match batch_to_its_end(alloc, source, sink, session, pool, false) {
        Ok(_) => Ok(()),
        Err(fault) => Err(fault),
    }
}

/// As `batch`. It answers what is to be done at the end: something is to be saved where some command was
/// accepted, and, where all or none are to be done, no reply is a refusal.
pub fn batch_to_its_end<S: Source, K: Sink>(
    alloc: Global,
    source: &mut S,
    sink: &mut K,
    session: &mut Session,
    pool: &Pool<'_>,
    is_all_or_none: bool,
) -> Result<BatchEnd, StreamFault>
    requires source { S.has_failed source.old ≡ false }
    requires sink { K.has_failed sink.old ≡ false }
    ensures answered { IfOk result (λ end. IfSome (S.remaining source.old) (λ input.
        AnsweredTo is_all_or_none end pool.now (commands_of input) session.old session.new
        (K.contents sink.old) (K.contents sink.new))) }
    // Whatever the streams hold: something is to be saved where a reply was `ok`, and nowhere else; and
    // where all or none are to be done, where no reply is a refusal.
    ensures done { IfOk result
        (λ end. SomeDoneTo is_all_or_none end pool.now session.old session.new) }
    ensures ends { Ends result pool.now (S.remaining source.old) (S.remaining source.new)
        (S.has_failed source.new) session.old session.new
        (K.contents sink.old) (K.contents sink.new) (K.has_failed sink.new) }
    ensures memory { result ≡ Err StreamFault.OutOfMemory
        → (session.new ≡ session.old) × (sink.new ≡ sink.old) × (source.new ≡ source.old) }
{
    let text = ReplyText::new(alloc)?;
    let mut piece = vec![in alloc; 0u8; PIECE]?;
    let pending = PendingLine::new(alloc)?;
    let tally = Tally::new();
    let mut batch = BatchState {
        alloc,
        pending,
        text,
        tally,
        lines: 0,
    };
    answer_all(
        &mut batch,
        source,
        piece.as_mut_slice(),
        sink,
        session,
        pool,
    )?;
    let BatchState {
        alloc: _,
        pending: _,
        text: _,
        tally,
        lines,
    } = batch;
    Ok(tally.end(is_all_or_none, lines))
}

/// Answers each line of the input.
fn answer_all<S: Source, K: Sink>(
    batch: &mut BatchState,
    source: &mut S,
    piece: &mut [u8],
    sink: &mut K,
    session: &mut Session,
    pool: &Pool<'_>,
) -> Result<(), StreamFault>
    requires piece { 0 < length piece.old }
    requires pending { batch.old.pending ≡ [] }
    requires source { S.has_failed source.old ≡ false }
    requires sink { K.has_failed sink.old ≡ false }
    ensures advances { OnOk result (IfSome (S.remaining source.old) (λ input.
        Advances pool.now (commands_of input)
        (standing session.old (K.contents sink.old) batch.old.tally)
        (standing session.new (K.contents sink.new) batch.new.tally))) }
    ensures done { OnOk result (SomeAdvance pool.now
        (standing session.old (K.contents sink.old) batch.old.tally)
        (standing session.new (K.contents sink.new) batch.new.tally)) }
    ensures ends { Ends result pool.now (S.remaining source.old) (S.remaining source.new)
        (S.has_failed source.new) session.old session.new
        (K.contents sink.old) (K.contents sink.new) (K.has_failed sink.new) }
    ensures memory { IfErr result (λ e. e ≢ StreamFault.OutOfMemory) }
{
    answer_lines(batch, source, piece, sink, session, pool)?;
    answer_last(batch, sink, session, pool)
}

/// Answers a last line, of which no LF has come.
fn answer_last<K: Sink>(
    batch: &mut BatchState,
    sink: &mut K,
    session: &mut Session,
    pool: &Pool<'_>,
) -> Result<(), StreamFault>
    requires { K.has_failed sink.old ≡ false }
    ensures { Answers result pool.now (commands_of batch.old.pending)
        (standing session.old (K.contents sink.old) batch.old.tally)
        (standing session.new (K.contents sink.new) batch.new.tally)
        (K.has_failed sink.new) }
{
    let line = batch.pending.as_bytes();
    if line.is_empty() {
        return Ok(());
    }
    answer_line(batch, false, sink, session, pool)
}

/// Reads to the end of input and answers each line that an LF ended. The last line is left.
fn answer_lines<S: Source, K: Sink>(
    batch: &mut BatchState,
    source: &mut S,
    piece: &mut [u8],
    sink: &mut K,
    session: &mut Session,
    pool: &Pool<'_>,
) -> Result<(), StreamFault>
    requires piece { 0 < length piece.old }
    requires pending { batch.old.pending ≡ [] }
    requires source { S.has_failed source.old ≡ false }
    requires sink { K.has_failed sink.old ≡ false }
    ensures reads { OnOk result (Reads pool.now
        (S.remaining source.old) batch.new.pending (S.remaining source.new)
        (standing session.old (K.contents sink.old) batch.old.tally)
        (standing session.new (K.contents sink.new) batch.new.tally)) }
    ensures ends { Ends result pool.now (S.remaining source.old) (S.remaining source.new)
        (S.has_failed source.new) session.old session.new
        (K.contents sink.old) (K.contents sink.new) (K.has_failed sink.new) }
    ensures memory { IfErr result (λ e. e ≢ StreamFault.OutOfMemory) }
{
    'pieces: loop {
        let count = match read_piece(source, piece) {
            Ok(count) => count,
            Err(fault) => return Err(fault),
        };
        if count == 0 {
            return Ok(());
        }
        answer_piece(batch, &piece[..count], sink, session, pool)?;
    }
}

fn read_piece<S: Source>(source: &mut S, piece: &mut [u8]) -> Result<usize, StreamFault>
    requires { S.has_failed source.old ≡ false }
    ensures bound { IfOk result (λ n. n ≤ length piece.new) }
    ensures bytes { IfOk result (λ n.
        Consumes (S.remaining source.old) (S.remaining source.new) (take n piece.new)) }
    ensures end { IfOk result (λ n.
        n ≡ 0 → 0 < length piece.new → IsAtEnd (S.remaining source.new)) }
    ensures calls { OnOk result (S.calls_left source.new < S.calls_left source.old) }
    ensures failure { S.has_failed source.new ≡ is_err result }
    ensures fault { IfErr result (λ e. e ≡ StreamFault.Read) }
    ensures kept { OnErr result (Keeps (S.remaining source.old) (S.remaining source.new)) }
{
    match source.read(piece) {
        Ok(count) => Ok(count),
        Err(_) => Err(StreamFault::Read),
    }
}

/// Answers each line whose LF is in the piece, and keeps what is left of it.
fn answer_piece<K: Sink>(
    batch: &mut BatchState,
    piece: &[u8],
    sink: &mut K,
    session: &mut Session,
    pool: &Pool<'_>,
) -> Result<(), StreamFault>
    requires { K.has_failed sink.old ≡ false }
    ensures answers { OnOk result (AnswersAllBut pool.now
        (batch.old.pending ++ piece.now) batch.new.pending
        (standing session.old (K.contents sink.old) batch.old.tally)
        (standing session.new (K.contents sink.new) batch.new.tally)) }
    ensures unbroken { OnOk result (IsUnbroken batch.new.pending) }
    ensures breaks { OnErr result (Breaks pool.now (batch.old.pending ++ piece.now)
        (standing session.old (K.contents sink.old) batch.old.tally)
        (standing session.new (K.contents sink.new) batch.new.tally)) }
    ensures sink { IsOfSink result (K.has_failed sink.new) }
{
    let mut rest = piece;
    'lines: while let Some((line, behind)) = split_line(rest) {
        batch.pending.keep(line);
        answer_line(batch, true, sink, session, pool)?;
        batch.pending.clear();
        rest = behind;
    }
    batch.pending.keep(rest);
    Ok(())
}

/// The first line, and what is behind its LF.
fn split_line(bytes: &[u8]) -> Option<(&[u8], &[u8])>
    ensures none { IfNone result (IsUnbroken bytes.now) }
    ensures line { IfSome result (λ parts. IsUnbroken parts.0.now) }
    ensures split { IfSome result (λ parts. bytes.now ≡ parts.0.now ++ (10 ∷ parts.1.now)) }
    ensures shorter { IfSome result (λ parts. length parts.1.now < length bytes.now) }
{
    let at = line_end(bytes)?;
    Some((&bytes[..at], &bytes[at + 1..]))
}

/// Where the first LF is.
fn line_end(bytes: &[u8]) -> Option<usize>
    ensures none { IfNone result (IsUnbroken bytes.now) }
    ensures bound { IfSome result (λ at. at < length bytes.now) }
    ensures line { IfSome result (λ at. IsUnbroken (take at bytes.now)) }
    ensures split { IfSome result (λ at.
        bytes.now ≡ take at bytes.now ++ (10 ∷ drop (at + 1) bytes.now)) }
{
    memchr::memchr(b'\n', bytes)
}

/// Does the command of the line, and writes the reply. A blank line has none, but counts.
fn answer_line<K: Sink>(
    batch: &mut BatchState,
    is_ended: bool,
    sink: &mut K,
    session: &mut Session,
    pool: &Pool<'_>,
) -> Result<(), StreamFault>
    requires { K.has_failed sink.old ≡ false }
    ensures { Answers result pool.now
        (option_to_list (item_of (record { bytes = batch.old.pending; is_ended = is_ended })))
        (standing session.old (K.contents sink.old) batch.old.tally)
        (standing session.new (K.contents sink.new) batch.new.tally)
        (K.has_failed sink.new) }
{
    let alloc = batch.alloc;
    batch.lines = next_line(batch);
    match read_item(alloc, batch.pending.as_bytes(), is_ended) {
        Ok(None) => Ok(()),
        Ok(Some(item)) => send(batch, reply_to(alloc, item, session, pool), sink),
        Err(AllocError) => send(batch, Reply::Refused(Refusal::OutOfMemory), sink),
    }
}

/// The number of the line that is read now. Behind a refusal it stays.
fn next_line(batch: &BatchState) -> usize {
    if batch.tally.has_refused() {
        batch.lines
    } else {
        batch.lines.saturating_add(1)
    }
}

/// Writes a reply.
fn send<K: Sink>(batch: &mut BatchState, reply: Reply, sink: &mut K) -> Result<(), StreamFault>
    requires { K.has_failed sink.old ≡ false }
    ensures reply { OnOk result
        (Appends (K.contents sink.old) (K.contents sink.new) (text_of_reply reply)) }
    ensures tally { OnOk result (batch.new.tally ≡ with_reply batch.old.tally reply) }
    ensures cut_off { OnErr result
        (IsCutOff (text_of_reply reply) (K.contents sink.old) (K.contents sink.new)) }
    ensures sink { IsOfSink result (K.has_failed sink.new) }
{
    batch.text.set(&reply);
    batch.tally.count(reply);
    write_all(sink, batch.text.as_bytes())
}

fn reply_to(alloc: Global, item: Item, session: &mut Session, pool: &Pool<'_>) -> Reply
    ensures replied { Replied pool.now (item ∷ []) (result ∷ []) session.old session.new }
{
    match item {
        Item::Edit(edit) => session.apply(alloc, &Command::Edit(edit, pool.copy()), &RESOLVER),
        Item::Undo => session.apply(alloc, &Command::Undo, &RESOLVER),
        Item::Redo => session.apply(alloc, &Command::Redo, &RESOLVER),
        Item::BadCommand => Reply::Refused(Refusal::BadCommand),
    }
}

/// Writes all of the bytes, in as many calls as it takes.
pub(crate) fn write_all<K: Sink>(sink: &mut K, bytes: &[u8]) -> Result<(), StreamFault>
    requires { K.has_failed sink.old ≡ false }
    ensures bytes { OnOk result (Appends (K.contents sink.old) (K.contents sink.new) bytes.now) }
    ensures cut_off { OnErr result
        (IsCutOff bytes.now (K.contents sink.old) (K.contents sink.new)) }
    ensures sink { IsOfSink result (K.has_failed sink.new) }
{
    let mut rest = bytes;
    while !rest.is_empty() {
        match sink.write(rest) {
            Ok(0) | Err(_) => return Err(StreamFault::Write),
            Ok(count) => rest = rest.split_at(count).1,
        }
    }
    Ok(())
}
