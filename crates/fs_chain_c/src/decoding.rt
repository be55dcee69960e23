//! Decoding a chain's request.

ghost use Rattle.std.specs.Prelude.{◌≡◌};
ghost use Rattle.fs_chain_c.specs.Decoding.{AnswersHandle, DecodesHandle, AnswersAtOnce, FillsCall};
ghost use Rattle.fs_chain_c.specs.Decoding.{answer_unasked, fault_after};

use crate::call::FsCall;
use crate::device::FsDevice;
use crate::fields::{call_fields, number};
use crate::status::BAD_DEVICE;
use bitflags::Flags;
use fs_chain::{ChainHandle, Decoded};
use fuse_base::{Errno, FsOptions};
use fuse_values::{FileAnswer, FileCall};
use server_phases::Session;
use server_segments::Error;

/// Decoding needs more of the request.
const MORE: u32 = 34;

/// The answer is taken, but the reply buffer is too small.
pub const NO_ROOM: u32 = 35;

/// Answers the call with this ticket, if it is unanswered, and returns a status.
pub fn answer_handle(handle: &mut ChainHandle, ticket: u32, answer: FileAnswer) -> u32
    ensures { AnswersHandle handle.old ticket answer result handle.new }
{
    match handle.answer(ticket, answer) {
        Ok(replied) => { if replied.has_room { 0 } else { NO_ROOM } }
        Err(error) => u32::from(error.number()),
    }
}

// The answer to a call without a reply, or that no file system in C has: ENOSYS, its default.
fn answer_unasked(call: &FileCall<'_>) -> Option<FileAnswer>
    ensures { result ≡ answer_unasked call.now }
{
    match call {
        FileCall::Forget { .. } | FileCall::BatchForget { .. } => Some(FileAnswer::Done),
        FileCall::Getlk
        | FileCall::Setlk
        | FileCall::Setlkw
        | FileCall::Bmap
        | FileCall::Ioctl
        | FileCall::Poll
        | FileCall::NotifyReply
        | FileCall::TmpFile => Some(FileAnswer::Failed(Errno::ENOSYS)),
        _ => None,
    }
}

// Answers a call at once, if there is an answer, and returns a status.
fn settle(handle: &mut ChainHandle, answer: Option<FileAnswer>) -> u32
    ensures { AnswersAtOnce handle.old answer result handle.new }
{
    match answer {
        Some(answer) => {
            let ticket = handle.ticket();
            answer_handle(handle, ticket, answer)
        }
        None => 0,
    }
}

// The fault of a call that was answered at once, with this status.
fn fault_after(status: u32) -> u32
    ensures { result ≡ fault_after status }
{
    if status == NO_ROOM {
        u32::from(Error::EncodeMessage.number())
    } else {
        0
    }
}

// The call of a decoded request, and a status.
fn fill_decoded(
    handle: &mut ChainHandle,
    request: &[u8],
    decoded: Decoded<'_>,
    call: &mut FsCall,
) -> u32
    ensures { FillsCall handle.old request.now decoded.entry call.new result handle.new }
{
    match decoded {
        Decoded::Call(made) => {
            call_fields(request, handle.room_len(), &made, call);
            let answered = settle(handle, answer_unasked(&made));
            call.fault = fault_after(answered);
            0
        }
        Decoded::More(needed) => {
            *call = FsCall::none();
            call.needed = needed.min(u32::MAX as usize) as u32;
            number(request, call);
            MORE
        }
        Decoded::Nothing => {
            *call = FsCall::none();
            number(request, call);
            0
        }
        Decoded::Fault(error) => {
            *call = FsCall::none();
            call.fault = u32::from(error.number());
            number(request, call);
            0
        }
    }
}

/// Decodes a request from its first bytes, and returns a status.
pub fn decode_handle(
    handle: &mut ChainHandle,
    device: &FsDevice,
    request: &[u8],
    call: &mut FsCall,
) -> u32
    ensures { DecodesHandle handle.old device.now request.now call.new result handle.new }
{
    if !device.is_lawful() {
        *call = FsCall::none();
        return BAD_DEVICE;
    }
    let options = FsOptions::from_bits_retain(device.options);
    let session = Session::resume(device.page_size, options);
    match handle.decode(session, request) {
        Ok(decoded) => {
            let ticket = handle.ticket();
            let status = fill_decoded(handle, request, decoded, call);
            call.ticket = ticket;
            status
        }
        Err(error) => {
            *call = FsCall::none();
            u32::from(error.number())
        }
    }
}
