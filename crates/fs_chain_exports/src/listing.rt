//! Exports for listings that C answers entry by entry, and for errors of calls.

ghost use Rattle.fs_chain_c.specs.Replies.{entry_of};
ghost use Rattle.fs_chain_c.specs.Listing.{AddsEntry, AddsNode, EndsHandleList, RepliesError, is_entry};
ghost use Rattle.fs_chain_c.specs.Listing.{listed_as, type_of};

use fs_chain::ChainError;
use fs_chain_c::answers::{FsEntry, entry_of};
use fs_chain_c::handle::FsChain;
use fs_chain_c::listing::{add_node, add_to_handle, end_listing, errno_of, fail_chain, is_entry};
use fs_chain_c::replies::reply;
use fs_chain_c::status::wrong_order;
use fuse_fs::DirEntry;
use fuse_values::FileAnswer;
use std::alloc::Global;

/// Adds an entry of READDIR behind those before it.
#[unsafe(no_mangle)]
pub extern "C" fn pk_add_direntry(
    alloc: Global,
    chain: &mut FsChain,
    ticket: u32,
    list: &mut [u8],
    name: &[u8],
    ino: u64,
    next_offset: u64,
    type_: u32,
) -> u32
    ensures { AddsEntry (is_entry name.now type_) (listed_as name.now ino next_offset type_) ticket
        chain.old.held.value list.old result chain.new.held.value list.new }
{
    if !is_entry(name, type_) {
        return u32::from(ChainError::BadArgument.number());
    }
    let Some(mut handle) = chain.take(alloc) else {
        return wrong_order();
    };
    let entry = DirEntry {
        ino,
        offset: next_offset,
        type_,
        name,
    };
    let status = add_to_handle(&mut handle, ticket, list, &entry);
    *chain = FsChain::of_box(handle);
    status
}

/// Adds an entry of READDIRPLUS, with its node, behind those before it.
#[unsafe(no_mangle)]
pub extern "C" fn pk_add_direntry_plus(
    alloc: Global,
    chain: &mut FsChain,
    ticket: u32,
    list: &mut [u8],
    name: &[u8],
    entry: &FsEntry,
    next_offset: u64,
) -> u32
    ensures { AddsNode (is_entry name.now (type_of entry.now))
        (listed_as name.now entry.now.attr.ino next_offset (type_of entry.now)) (entry_of entry.now) ticket
        chain.old.held.value list.old result chain.new.held.value list.new }
{
    let type_ = entry.attr.mode / 4096 % 16;
    if !is_entry(name, type_) {
        return u32::from(ChainError::BadArgument.number());
    }
    let listed = DirEntry {
        ino: entry.attr.ino,
        offset: next_offset,
        type_,
        name,
    };
    add_node(alloc, chain, ticket, list, &listed, entry_of(entry))
}

/// Answers with the entries so far: how many bytes of the list are the data.
#[unsafe(no_mangle)]
pub extern "C" fn pk_reply_entries(
    alloc: Global,
    chain: &mut FsChain,
    ticket: u32,
    len: &mut u64,
) -> u32
    ensures { EndsHandleList ticket chain.old.held.value result len.new chain.new.held.value }
{
    let Some(mut handle) = chain.take(alloc) else {
        *len = 0;
        return wrong_order();
    };
    let (status, returned) = end_listing(&mut handle, ticket);
    *len = returned;
    *chain = FsChain::of_box(handle);
    status
}

/// A chain's call is done (0), or fails by an errno.
#[unsafe(no_mangle)]
pub extern "C" fn pk_reply_err(alloc: Global, chain: &mut FsChain, ticket: u32, error: u32) -> u32
    ensures { RepliesError error ticket chain.old.held.value result chain.new.held.value }
{
    match errno_of(error) {
        Some(errno) => fail_chain(alloc, chain, ticket, errno),
        None => {
            if error == 0 {
                reply(alloc, chain, ticket, FileAnswer::Done)
            } else {
                u32::from(ChainError::BadArgument.number())
            }
        }
    }
}
