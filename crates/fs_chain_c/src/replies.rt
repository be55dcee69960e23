//! Answers that C passes, and their statuses.

ghost use Rattle.std.specs.Prelude.{◌≡◌};
ghost use Rattle.fs_chain_c.specs.Replies.{AnswersData, MayReply, RepliesData, RepliesOwn, RepliesWith};
ghost use Rattle.fs_chain_c.specs.Replies.{is_long};

use crate::decoding::answer_handle;
use crate::handle::FsChain;
use crate::status::wrong_order;
use fs_chain::{ChainError, ChainHandle};
use fuse_values::FileAnswer;
use std::alloc::Global;

/// Answers the call of a handle's chain that has this ticket.
pub fn reply(alloc: Global, chain: &mut FsChain, ticket: u32, said: FileAnswer) -> u32
    ensures { RepliesWith said ticket chain.old.held.value result chain.new.held.value }
{
    let Some(mut handle) = chain.take(alloc) else {
        return wrong_order();
    };
    let status = answer_handle(&mut handle, ticket, said);
    *chain = FsChain::of_box(handle);
    status
}

/// The same, if there is an answer.
pub fn may_reply(alloc: Global, chain: &mut FsChain, ticket: u32, said: Option<FileAnswer>) -> u32
    ensures { MayReply said ticket chain.old.held.value result chain.new.held.value }
{
    match said {
        Some(said) => reply(alloc, chain, ticket, said),
        None => u32::from(ChainError::BadArgument.number()),
    }
}

// Whether this answer is to a READ, and has more data than that can be answered with.
fn is_long(handle: &ChainHandle, ticket: u32, len: usize) -> bool
    ensures { result ≡ is_long handle.now ticket len }
{
    match handle.read_limit() {
        Some(most) => handle.ticket() == ticket && most < len,
        None => false,
    }
}

// Answers a handle's call with so many bytes of data, and returns a status.
fn answer_data(handle: &mut ChainHandle, ticket: u32, len: usize) -> u32
    ensures { AnswersData (is_long handle.old ticket len) handle.old ticket len result handle.new }
{
    if is_long(handle, ticket, len) {
        return u32::from(ChainError::LongReply.number());
    }
    answer_handle(handle, ticket, FileAnswer::Bytes { len })
}

/// Answers the call of a handle's chain with so many bytes of data.
pub fn reply_data(alloc: Global, chain: &mut FsChain, ticket: u32, len: usize) -> u32
    ensures { RepliesData len ticket chain.old.held.value result chain.new.held.value }
{
    let Some(mut handle) = chain.take(alloc) else {
        return wrong_order();
    };
    let status = answer_data(&mut handle, ticket, len);
    *chain = FsChain::of_box(handle);
    status
}

/// Answers with so many bytes that C wrote, and returns a status.
pub fn reply_own(handle: &mut ChainHandle, ticket: u32, len: usize) -> u32
    ensures { RepliesOwn ticket len handle.old result handle.new }
{
    match handle.reply(ticket, len) {
        Ok(()) => 0,
        Err(error) => u32::from(error.number()),
    }
}
