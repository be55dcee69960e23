//! The decoded requests of single calls.

ghost use Rattle.std.specs.Prelude.{◌≡◌, ℕ, ◌≤◌, ◌-◌, ◌*◌, ◌^◌, [], List, true, drop, length, bit_and};
ghost use Rattle.fuse_fs.specs.Answers.{context_of};
ghost use Rattle.fuse_fs.specs.Calls as call;
ghost use Rattle.fuse_values.specs.Places.{CallStandsIn, StandsIn};
ghost use Rattle.fuse_values.specs.Values.{call_of, pairs_in};
ghost use Rattle.fuse_wire.specs.Opcodes.{opcode_of};
ghost use Rattle.server_calls.specs.Callers.{CallShows};
ghost use Rattle.server_calls.specs.Requests.{batch_forget_call, read_call, write_call};
ghost use Rattle.server_replies.specs.WholeReplies.{error_bytes};
ghost use Rattle.server_meanings.specs.DataApart.{begins_a_write, is_write};
ghost use Rattle.server_meanings.specs.Grammar.{Meaning, Replies, Asks, One, Starts, Lists, given, ended};
ghost use Rattle.server_meanings.specs.Grammar.{known_options, meant, meaning, write_row};
ghost use Rattle.server_meanings.specs.Listings.{listing_of};
ghost use Rattle.server_meanings.specs.Serving.{Setting, setting};
ghost use Rattle.server_phases.specs.Asking.{IsDecoded, IsAskedBy, HasAsker, ReportsData, IsRequestFront};
ghost use Rattle.server_phases.specs.Asking.{BeginsRecord, DecodedStandsIn, decoded_reply};

use crate::waiting::{Awaits, Waiting, awaits_of};
use bitflags::Flags;
use fuse_fs::Context;
use fuse_in::{InHeader, ReadIn, WriteIn};
use fuse_values::{FileCall, Placed};
use fuse_wire::constants::READ_LOCKOWNER;
use fuse_wire::{Errno, FsOptions};
use server_calls::values::number_if;
use server_calls::writes::write_flags;
use server_meanings::{MAX_REQUEST_LEN, REQUEST_FRONT};
use server_replies::fronts::Front;
use server_replies::replies::OUT_HEADER_LEN;
use server_requests::source::{Flat, Source};
use server_segments::Error;

/// The length in bytes of a WRITE's record (`struct fuse_write_in`).
pub(crate) const WRITE_IN_LEN: usize = 40;

/// A decoded request.
#[derive(Drop)]
pub enum DecodedRequest<'a> {
    /// The one call of the request, and the state for its answer.
    Call(FileCall<'a>, Waiting),
    /// No call: this is the reply.
    Reply(Front),
    /// No call and no reply.
    Silence,
    /// No call and no reply: the request has this fault.
    Fault(Error),
}

/// A request decoded from its first bytes, if these are enough.
#[derive(Drop)]
pub enum AskedFront<'a> {
    /// The decoded request.
    Decoded(DecodedRequest<'a>),
    /// The first bytes aren't enough: pass all bytes of the request.
    More,
}

/// A reply without a call, or the fault `EncodeMessage` if it doesn't fit.
pub(crate) fn replied<'a>(room: usize, reply: Front) -> DecodedRequest<'a>
    ensures { result ≡ decoded_reply room reply }
{
    if room < reply.bytes().len() {
        DecodedRequest::Fault(Error::EncodeMessage)
    } else {
        DecodedRequest::Reply(reply)
    }
}

/// The reply of an error, or the fault `EncodeMessage` if it doesn't fit.
pub(crate) fn refused<'a>(head: &InHeader, error: Errno, room: usize) -> DecodedRequest<'a>
    ensures decoded { (page_size options : ℕ) (m : Meaning) (bytes : List ℕ)
        → m ≡ Replies (error_bytes head.now.unique error)
        → IsDecoded (setting page_size options room) m bytes result }
    ensures places { (request : List ℕ) (first : ℕ) → DecodedStandsIn request first result }
    ensures asker { IsAskedBy (context_of head.now) result }
{
    replied(room, Front::error(head.unique, error))
}

/// The call of a READ, in whose reply buffer the header fits.
pub(crate) fn read_asked<'a>(head: &InHeader, request: &ReadIn, room: usize) -> DecodedRequest<'a>
    requires { 16 ≤ room }
    ensures decoded { (page_size options : ℕ) (bytes : List ℕ)
        → IsDecoded (setting page_size options room)
        (Asks (One head.now.unique (read_call head.now (room - 16) request.now))) bytes result }
    ensures places { (request : List ℕ) (first : ℕ) → DecodedStandsIn request first result }
    ensures asker { IsAskedBy (context_of head.now) result }
{
    let most = room - OUT_HEADER_LEN;
    let waiting = Waiting {
        unique: head.unique,
        context: Context::from(*head),
        awaits: Awaits::FileBytes { most },
        room,
    };
    DecodedRequest::Call(read_value(head, request, most), waiting)
}

// The call of a READ with `most` bytes for its data.
fn read_value<'a>(head: &InHeader, request: &ReadIn, most: usize) -> FileCall<'a>
    ensures call { (bytes : List ℕ) → call_of bytes result ≡ read_call head.now most request.now }
    ensures places { (request : List ℕ) (first : ℕ) → CallStandsIn request first result }
    ensures data_apart { (bytes : List ℕ) → ReportsData bytes result }
{
    FileCall::Read {
        context: Context::from(*head),
        node: head.nodeid,
        handle: request.fh,
        room: most,
        size: request.size,
        offset: request.offset,
        owner: number_if(request.read_flags & READ_LOCKOWNER != 0, request.lock_owner),
        flags: request.flags,
    }
}

/// The call of a READDIR or READDIRPLUS with this record.
pub(crate) fn entries_asked<'a>(
    head: &InHeader,
    request: &ReadIn,
    with_nodes: bool,
    room: usize,
) -> DecodedRequest<'a>
    requires size { request.now.size ≤ 2 ^ 20 }
    requires enough { 16 ≤ room }
    ensures decoded { (page_size options : ℕ) (bytes : List ℕ)
        → IsDecoded (setting page_size options room)
        (Asks (Lists head.now.unique (listing_of with_nodes head.now request.now))) bytes result }
    ensures places { (request : List ℕ) (first : ℕ) → DecodedStandsIn request first result }
    ensures asker { IsAskedBy (context_of head.now) result }
{
    let context = Context::from(*head);
    let call = FileCall::Readdir {
        context,
        node: head.nodeid,
        handle: request.fh,
        size: request.size,
        offset: request.offset,
    };
    let awaits = Awaits::Entries {
        with_nodes,
        size: request.size,
    };
    let unique = head.unique;
    DecodedRequest::Call(
        call,
        Waiting {
            unique,
            context,
            awaits,
            room,
        },
    )
}

// The call of a WRITE with this record, and `len` bytes of data behind it.
fn write_asked<'a>(
    head: &InHeader,
    request: &WriteIn,
    len: usize,
    room: usize,
) -> DecodedRequest<'a>
    ensures decoded { (page_size options : ℕ) (bytes : List ℕ)
        → len ≡ length bytes
        → IsDecoded (setting page_size options room)
        (Asks (One head.now.unique (write_call head.now request.now bytes))) bytes result }
    ensures places { (request : List ℕ) (first : ℕ) → DecodedStandsIn request first result }
    ensures asker { IsAskedBy (context_of head.now) result }
{
    let waiting = Waiting {
        unique: head.unique,
        context: Context::from(*head),
        awaits: Awaits::Written,
        room,
    };
    DecodedRequest::Call(write_value(head, request, len), waiting)
}

// The call of a WRITE of `len` bytes, as a value.
fn write_value<'a>(head: &InHeader, request: &WriteIn, len: usize) -> FileCall<'a>
    ensures call { (bytes : List ℕ) → call_of bytes result ≡ write_call head.now request.now bytes }
    ensures places { (request : List ℕ) (first : ℕ) → CallStandsIn request first result }
    ensures data_apart { (bytes : List ℕ) → len ≡ length bytes → ReportsData bytes result }
{
    let bits = write_flags(request);
    FileCall::Write {
        context: Context::from(*head),
        node: head.nodeid,
        handle: request.fh,
        len,
        size: request.size,
        offset: request.offset,
        owner: bits.owner,
        delayed: bits.delayed,
        kill: bits.kill,
        flags: request.flags,
    }
}

/// A call, and the state for its answer.
pub(crate) fn called<'a>(head: &InHeader, made: FileCall<'a>, room: usize) -> DecodedRequest<'a>
    ensures decoded { (s : Setting) (m : Meaning) (bytes : List ℕ) (c : call.FileCall)
        → s.room ≡ room
        → m ≡ Asks (One head.now.unique c)
        → CallShows head.now c
        → call_of [] made.entry ≡ c
        → IsDecoded s m bytes result }
    ensures places { (request : List ℕ) (first : ℕ) → CallStandsIn request first made.entry
        → DecodedStandsIn request first result }
    ensures asker { IsAskedBy (context_of head.now) result }
{
    let awaits = awaits_of(&made);
    let waiting = Waiting {
        unique: head.unique,
        context: Context::from(*head),
        awaits,
        room,
    };
    DecodedRequest::Call(made, waiting)
}

/// The call of a BATCH_FORGET; `counts` are the bytes of its pairs.
pub(crate) fn pairs_asked<'a>(
    head: &InHeader,
    counts: Placed<'a>,
    room: usize,
) -> DecodedRequest<'a>
    ensures decoded { (page_size options : ℕ) (m : Meaning) (bytes : List ℕ)
        → length counts.entry.bytes.now ≡ 16 * length (pairs_in counts.entry.bytes.now)
        → m ≡ Asks (One head.now.unique (batch_forget_call head.now (pairs_in counts.entry.bytes.now)))
        → IsDecoded (setting page_size options room) m bytes result }
    ensures places { (request : List ℕ) → StandsIn request counts.entry
        → DecodedStandsIn request counts.entry.at result }
    ensures asker { IsAskedBy (context_of head.now) result }
{
    let context = Context::from(*head);
    let waiting = Waiting {
        unique: head.unique,
        context,
        awaits: Awaits::Forgotten,
        room,
    };
    DecodedRequest::Call(FileCall::BatchForget { context, counts }, waiting)
}

/// The call of an INIT. The client reads `readahead` bytes ahead.
pub(crate) fn init_asked<'a>(
    head: &InHeader,
    capable: FsOptions,
    readahead: u32,
    room: usize,
) -> DecodedRequest<'a>
    requires { bit_and capable.0 known_options ≡ capable.0 }
    ensures decoded { (s : Setting) (m : Meaning) (bytes : List ℕ)
        → s.room ≡ room
        → m ≡ Asks (Starts head.now.unique capable.0 readahead)
        → IsDecoded s m bytes result }
    ensures places { (request : List ℕ) (first : ℕ) → DecodedStandsIn request first result }
    ensures asker { IsAskedBy (context_of head.now) result }
{
    let waiting = Waiting {
        unique: head.unique,
        context: Context::from(*head),
        awaits: Awaits::InitOptions {
            capable: capable.bits(),
            readahead,
        },
        room,
    };
    DecodedRequest::Call(FileCall::Init { capable }, waiting)
}

// WRITE: reads the record. Behind it are `len` bytes of data, here or elsewhere.
pub(crate) fn ask_write_row<'a>(
    head: &InHeader,
    len: usize,
    room: usize,
    source: Flat<'a>,
) -> DecodedRequest<'a>
    ensures decoded { (page_size options : ℕ) (bytes : List ℕ)
        → BeginsRecord source.entry.bytes.now bytes
        → len ≡ length (drop 40 bytes)
        → IsDecoded (setting page_size options room)
        (ended head.now.unique (write_row (given head.now options room) bytes)) (drop 40 bytes) result }
    ensures places { (request : List ℕ) (first : ℕ) → DecodedStandsIn request first result }
    ensures asker { IsAskedBy (context_of head.now) result }
{
    let mut source = source;
    match source.record() {
        Ok(request) => write_asked(head, &request, len, room),
        Err(error) => DecodedRequest::Fault(error),
    }
}

/// Decodes a WRITE of `len` bytes in all from its bytes before the data.
pub(crate) fn ask_write_front<'a>(front: &'a [u8], len: usize, room: usize) -> DecodedRequest<'a>
    requires write { begins_a_write front.now ≡ true }
    requires front { 80 ≤ length front.now }
    requires len { 80 ≤ len }
    ensures decoded { (page_size options : ℕ) (request : List ℕ)
        → len ≡ length request
        → IsRequestFront front.now request
        → IsDecoded (setting page_size options room) (meaning options request room) (drop 80 request) result }
    ensures places { (request : List ℕ) (first : ℕ) → DecodedStandsIn request first result }
    ensures asker { (request : List ℕ) → IsRequestFront front.now request → HasAsker request result }
{
    let mut source = Flat { bytes: front };
    match source.record::<InHeader>() {
        Ok(head) => ask_write_head(&head, len - REQUEST_FRONT, room, source),
        Err(error) => DecodedRequest::Fault(error),
    }
}

// WRITE: checks the length in the header, then reads the record.
fn ask_write_head<'a>(
    head: &InHeader,
    len: usize,
    room: usize,
    source: Flat<'a>,
) -> DecodedRequest<'a>
    requires { is_write (opcode_of head.now.opcode) ≡ true }
    ensures decoded { (page_size options : ℕ) (bytes : List ℕ)
        → BeginsRecord source.entry.bytes.now bytes
        → len ≡ length (drop 40 bytes)
        → IsDecoded (setting page_size options room) (meant (given head.now options room) bytes)
        (drop 40 bytes) result }
    ensures places { (request : List ℕ) (first : ℕ) → DecodedStandsIn request first result }
    ensures asker { IsAskedBy (context_of head.now) result }
{
    if head.len > MAX_REQUEST_LEN {
        return refused(head, Errno::ENOMEM, room);
    }
    ask_write_row(head, len, room, source)
}
