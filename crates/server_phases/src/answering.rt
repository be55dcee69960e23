//! The replies to the answers of calls.

ghost use Rattle.std.specs.Prelude.{◌≡◌, ℕ, ◌+◌, ◌<◌, ◌^◌, ◌++◌, ◌&&◌, [], ◌∷◌, List, length, true};
ghost use Rattle.std.specs.Prelude.{false, nat_lt, nat_le};
ghost use Rattle.fuse_fs.specs.Calls.{FileCall, is_handle, Done, Bytes};
ghost use Rattle.fuse_values.specs.Answers.{answer_of};
ghost use Rattle.server_replies.specs.WholeReplies.{reply_bytes, bytes_of_answer};
ghost use Rattle.server_calls.specs.Requests.{entry_node};
ghost use Rattle.server_meanings.specs.Serving.{replied, undone};
ghost use Rattle.server_phases.specs.Answering.{ReportsBytes, takes, reports_nothing, fails_never};
ghost use Rattle.server_phases.specs.Answering.{brings_entry};
ghost use Rattle.server_phases.specs.Answering.{back_by, forget_calls, served_by, is_too_long};

use crate::waiting::{Awaits, Waiting};
use bitflags::Flags;
use fuse_fs::{Context, GetxattrReply};
use fuse_values::FileAnswer;
use server_replies::answers::AsFront;
use server_replies::fronts::Front;
use server_replies::replies::OUT_HEADER_LEN;

/// The reply to an answer, or that it doesn't fit.
#[derive(Drop)]
pub enum Sent {
    /// The reply: this front, and the data of the answer behind it. Empty if there is no reply.
    Reply(Front),
    /// The reply is longer than the reply buffer (`Error::EncodeMessage`).
    NoRoom,
}

/// The result of an answer.
#[derive(Drop)]
pub struct Answered {
    /// The reply, or that it doesn't fit.
    pub sent: Sent,
    /// The caller and the node of a FORGET of 1 that the file system must do: the reply with the
    /// node's entry doesn't fit.
    pub forget: Option<(Context, u64)>,
}

/// The reason for which an answer is refused. A refused answer changes nothing.
#[derive(Clone, Copy, Debug, PartialEq, Eq)]
pub enum AnswerRefusal {
    /// The call has no such answer: another kind, an error where it can't fail, or more data than
    /// it asked for.
    OtherKind,
    /// The reply fits in the reply buffer, but not in its header: it has 2^32 bytes or more.
    TooLong,
}

/// A refused answer.
#[derive(Debug, Drop)]
pub struct RefusedAnswer {
    pub why: AnswerRefusal,
    /// The state of the request, which still waits for an answer.
    pub waiting: Waiting,
}

// The reply to an answer without data, of a call that has a reply.
fn answer_front(unique: u64, answer: FileAnswer) -> Front
    ensures { result ≡ bytes_of_answer false unique (answer_of [] answer) }
{
    match answer {
        FileAnswer::Failed(error) => Front::error(unique, error),
        FileAnswer::HasEntry(entry) => entry.front(unique),
        FileAnswer::HasAttr(attr, timeout) => (attr, timeout).front(unique),
        FileAnswer::Opened { handle, options } => (handle, options).front(unique),
        FileAnswer::Created {
            entry,
            handle,
            options,
        } => (entry, handle, options).front(unique),
        FileAnswer::Count(count) => GetxattrReply::Count(count).front(unique),
        FileAnswer::Stats(stats) => stats.front(unique),
        FileAnswer::Wrote(count) => count.front(unique),
        FileAnswer::Offset(offset) => offset.front(unique),
        FileAnswer::Done | FileAnswer::Bytes { .. } | FileAnswer::Wants(_) => {
            Front::reply(unique, &[])
        }
    }
}

// The reply to an answer of a silent call: empty unless it failed.
fn silent_front(unique: u64, answer: &FileAnswer) -> Front
    ensures { result ≡ bytes_of_answer true unique (answer_of [] answer.now) }
{
    match answer {
        FileAnswer::Failed(error) => Front::error(unique, *error),
        _ => Front::none(),
    }
}

// The front of the reply to an answer.
fn front_of(waiting: &Waiting, answer: FileAnswer) -> Front
    ensures { result ≡ bytes_of_answer (reports_nothing waiting.now.awaits) waiting.now.unique
        (answer_of [] answer) }
{
    if reports_nothing(&waiting.awaits) {
        silent_front(waiting.unique, &answer)
    } else {
        answer_front(waiting.unique, answer)
    }
}

// The node of the entry in an answer.
fn entry_node(answer: &FileAnswer) -> Option<u64>
    ensures { result ≡ entry_node (answer_of [] answer.now) }
{
    match answer {
        FileAnswer::HasEntry(entry) => Some(entry.inode),
        FileAnswer::Created { entry, .. } => Some(entry.inode),
        _ => None,
    }
}

// The caller and the node to forget, if the answer has an entry.
fn back_of(waiting: &Waiting, answer: &FileAnswer) -> Option<(Context, u64)>
    ensures { forget_calls result
        ≡ back_by (brings_entry waiting.now.awaits) waiting.now.context (answer_of [] answer.now) }
{
    if !brings_entry(&waiting.awaits) {
        return None;
    }
    match entry_node(answer) {
        Some(node) => Some((waiting.context, node)),
        None => None,
    }
}

// Whether the call can't fail.
fn fails_never(awaits: &Awaits) -> bool
    ensures { result ≡ fails_never awaits.now }
{
    matches!(awaits, Awaits::Forgotten | Awaits::End)
}

// Whether the call has no reply if it succeeds.
fn reports_nothing(awaits: &Awaits) -> bool
    ensures { result ≡ reports_nothing awaits.now }
{
    matches!(awaits, Awaits::Forgotten | Awaits::NoReply | Awaits::End)
}

// Whether the call answers an entry.
fn brings_entry(awaits: &Awaits) -> bool
    ensures { result ≡ brings_entry awaits.now }
{
    matches!(awaits, Awaits::Entry | Awaits::Create)
}

// The front if it fits, else the node to forget.
pub(crate) fn placed(front: Front, room: usize, back: Option<(Context, u64)>) -> Answered
    ensures { (options : ℕ) (call : FileCall)
        → replied room (call ∷ undone room front (forget_calls back)) options front
        ≡ served_by (call ∷ forget_calls result.forget) options result.sent [] }
{
    if room < front.bytes().len() {
        Answered {
            sent: Sent::NoRoom,
            forget: back,
        }
    } else {
        Answered {
            sent: Sent::Reply(front),
            forget: None,
        }
    }
}

// The reply to an answer without data.
pub(crate) fn answered_without_data(waiting: &Waiting, answer: FileAnswer) -> Answered
    ensures { let room = waiting.now.room in
        let bytes = bytes_of_answer (reports_nothing waiting.now.awaits) waiting.now.unique
        (answer_of [] answer) in
        let back = back_by (brings_entry waiting.now.awaits) waiting.now.context (answer_of [] answer) in
        (options : ℕ) (call : FileCall) → replied room (call ∷ undone room bytes back) options bytes
        ≡ served_by (call ∷ forget_calls result.forget) options result.sent [] }
{
    let back = back_of(waiting, &answer);
    placed(front_of(waiting, answer), waiting.room, back)
}

// The header of a reply with `len` bytes of data.
#[tactic(auto, unfolding(server_replies::specs::WholeReplies::reply_bytes))]
fn data_front(unique: u64, len: usize) -> Front
    requires { 16 + len < 2 ^ 32 }
    ensures { (bytes : List ℕ) → len ≡ length bytes → result ++ bytes ≡ reply_bytes unique bytes }
{
    Front::data(unique, len)
}

// The reply to an answer that is data.
pub(crate) fn data_answered(unique: u64, room: usize, len: usize) -> Answered
    requires { nat_le (16 + len) room && nat_le (2 ^ 32) (16 + len) ≡ false }
    ensures { (options : ℕ) (call : FileCall) (bytes : List ℕ) → len ≡ length bytes
        → replied room (call ∷ undone room (reply_bytes unique bytes) []) options (reply_bytes unique bytes)
        ≡ served_by (call ∷ forget_calls result.forget) options result.sent bytes }
{
    match has_room(room, len) {
        true => Answered {
            sent: Sent::Reply(data_front(unique, len)),
            forget: None,
        },
        false => Answered {
            sent: Sent::NoRoom,
            forget: None,
        },
    }
}

// Whether a header and `len` bytes of data fit in the reply buffer.
fn has_room(room: usize, len: usize) -> bool
    ensures { result ≡ nat_le (16 + len) room }
{
    OUT_HEADER_LEN <= room && len <= room - OUT_HEADER_LEN
}

/// Whether an answer is data whose reply fits in the reply buffer, but not in its header's 32-bit length.
pub(crate) fn is_too_long(room: usize, answer: &FileAnswer) -> bool
    ensures { result ≡ is_too_long room answer.now }
{
    match answer {
        FileAnswer::Bytes { len } => has_room(room, *len)
            && u32::MAX as usize - OUT_HEADER_LEN < *len,
        _ => false,
    }
}

// The front if it fits, of a call without a node to forget.
pub(crate) fn placed_alone(front: Front, room: usize) -> Answered
    ensures { (options : ℕ) (call : FileCall)
        → replied room (call ∷ []) options front
        ≡ served_by (call ∷ forget_calls result.forget) options result.sent [] }
{
    placed(front, room, None)
}

// Whether a number has at most 64 bits: always.
fn is_number(number: u64) -> bool
    ensures { result ≡ nat_lt number (2 ^ 64) }
{
    true
}

// Whether a count has at most 32 bits: always.
fn is_count(count: u32) -> bool
    ensures { result ≡ nat_lt count (2 ^ 32) }
{
    true
}

// Whether the number of an open file has at most 64 bits, if there is one: always.
fn is_handle(handle: Option<u64>) -> bool
    ensures { result ≡ is_handle handle }
{
    match handle {
        Some(number) => is_number(number),
        None => true,
    }
}

/// Whether the call can have this answer.
pub(crate) fn suits(awaits: &Awaits, answer: &FileAnswer) -> bool
    ensures { (bytes : List ℕ)
        → ReportsBytes bytes answer.now
        → result ≡ takes awaits.now (answer_of bytes answer.now) }
{
    match answer {
        FileAnswer::Failed(error) => {
            let number = error.raw();
            !fails_never(awaits) && 0 < number && number < 4096
        }
        FileAnswer::Done => takes_done(awaits),
        FileAnswer::HasEntry(entry) => matches!(awaits, Awaits::Entry) && is_number(entry.inode),
        FileAnswer::HasAttr(_, _) => matches!(awaits, Awaits::Attr),
        FileAnswer::Opened { handle, .. } => matches!(awaits, Awaits::Open) && is_handle(*handle),
        FileAnswer::Created { entry, handle, .. } => {
            matches!(awaits, Awaits::Create) && is_number(entry.inode) && is_handle(*handle)
        }
        FileAnswer::Bytes { len } => takes_bytes(awaits, *len),
        FileAnswer::Count(count) => matches!(awaits, Awaits::BytesOrCount) && is_count(*count),
        FileAnswer::Stats(_) => matches!(awaits, Awaits::Stats),
        FileAnswer::Wrote(count) => matches!(awaits, Awaits::Written) && is_count(*count),
        FileAnswer::Offset(offset) => matches!(awaits, Awaits::Offset) && is_number(*offset),
        FileAnswer::Wants(wanted) => matches!(awaits, Awaits::InitOptions { .. })
            && is_number(wanted.bits()),
    }
}

// Whether the call can have the answer "done".
fn takes_done(awaits: &Awaits) -> bool
    ensures { result ≡ takes awaits.now Done }
{
    matches!(
        awaits,
        Awaits::Done | Awaits::Forgotten | Awaits::NoReply | Awaits::End
    )
}

// Whether the call can have `len` bytes of data as its answer.
fn takes_bytes(awaits: &Awaits, len: usize) -> bool
    ensures { (bytes : List ℕ) → len ≡ length bytes → result ≡ takes awaits.now (Bytes bytes) }
{
    match awaits {
        Awaits::FileBytes { most } => len <= *most,
        Awaits::Bytes | Awaits::BytesOrCount => true,
        _ => false,
    }
}
