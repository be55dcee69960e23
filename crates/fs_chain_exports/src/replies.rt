//! Exports by which C decodes and answers. Each returns 0, or the number of a status.

ghost use Rattle.fuse_values.specs.declared.answer.FileAnswer.TheVariants as answer;
ghost use Rattle.std.specs.Prelude.{◌≡◌};
ghost use Rattle.fs_chain_c.specs.Replies.{AsksChain, MayReply, RepliesBytes, RepliesData, RepliesInit};
ghost use Rattle.fs_chain_c.specs.Replies.{RepliesWith};
ghost use Rattle.fs_chain_c.specs.Replies.{attr_said, create_said, entry_of, entry_said, open_said};
ghost use Rattle.fs_chain_c.specs.Replies.{statfs_said};
ghost use Rattle.fs_chain_c.specs.Calls.{flag};
ghost use Rattle.fs_chain_c.specs.Names.{is_name};

use bitflags::Flags;
use fs_chain_c::answers::{
    FsEntry, FsStatfs, attr_said, create_said, entry_of, entry_said, init_options_said, open_said,
    statfs_said,
};
use fs_chain_c::call::{FsAttr, FsCall};
use fs_chain_c::decoding::{NO_ROOM, answer_handle, decode_handle};
use fs_chain_c::device::FsDevice;
use fs_chain_c::handle::FsChain;
use fs_chain_c::names::is_name;
use fs_chain_c::replies::{may_reply, reply, reply_data, reply_own};
use fs_chain_c::status::wrong_order;
use fuse_values::FileAnswer;
use std::alloc::Global;

/// Decodes a chain's request from its first bytes.
#[unsafe(no_mangle)]
pub extern "C" fn pk_decode(
    alloc: Global,
    chain: &mut FsChain,
    device: &FsDevice,
    request: &[u8],
    call: &mut FsCall,
) -> u32
    ensures { AsksChain chain.old.held.value device.now request.now result call.new chain.new.held.value }
{
    let Some(mut handle) = chain.take(alloc) else {
        *call = FsCall::none();
        return wrong_order();
    };
    let status = decode_handle(&mut handle, device, request, call);
    *chain = FsChain::of_box(handle);
    status
}

/// Whether a name is one component of a path: 1, or 0 if it is empty, `.` or `..`, or has a slash or a zero
/// byte.
#[unsafe(no_mangle)]
pub extern "C" fn pk_is_name(name: &[u8]) -> u8
    ensures { result ≡ flag (is_name name.now) }
{
    u8::from(is_name(name))
}

/// Answers a call that wants an entry.
#[unsafe(no_mangle)]
pub extern "C" fn pk_reply_entry(
    alloc: Global,
    chain: &mut FsChain,
    ticket: u32,
    entry: &FsEntry,
) -> u32
    ensures { MayReply (entry_said (entry_of entry.now)) ticket chain.old.held.value result
        chain.new.held.value }
{
    may_reply(alloc, chain, ticket, entry_said(entry_of(entry)))
}

/// Answers CREATE.
#[unsafe(no_mangle)]
pub extern "C" fn pk_reply_create(
    alloc: Global,
    chain: &mut FsChain,
    ticket: u32,
    entry: &FsEntry,
    handle: u64,
    open_flags: u32,
) -> u32
    ensures { MayReply (create_said (entry_of entry.now) handle open_flags) ticket chain.old.held.value result
        chain.new.held.value }
{
    may_reply(
        alloc,
        chain,
        ticket,
        create_said(entry_of(entry), handle, open_flags),
    )
}

/// Answers GETATTR and SETATTR.
#[unsafe(no_mangle)]
pub extern "C" fn pk_reply_attr(
    alloc: Global,
    chain: &mut FsChain,
    ticket: u32,
    attr: &FsAttr,
    secs: u64,
    nanos: u32,
) -> u32
    ensures { MayReply (attr_said attr.now secs nanos) ticket chain.old.held.value result
        chain.new.held.value }
{
    may_reply(alloc, chain, ticket, attr_said(attr, secs, nanos))
}

/// Answers OPEN and OPENDIR.
#[unsafe(no_mangle)]
pub extern "C" fn pk_reply_open(
    alloc: Global,
    chain: &mut FsChain,
    ticket: u32,
    handle: u64,
    open_flags: u32,
) -> u32
    ensures { RepliesWith (open_said handle open_flags) ticket chain.old.held.value result
        chain.new.held.value }
{
    reply(alloc, chain, ticket, open_said(handle, open_flags))
}

/// Answers a call with data: so many bytes, which lie in the reply buffer behind the header.
#[unsafe(no_mangle)]
pub extern "C" fn pk_reply_data(alloc: Global, chain: &mut FsChain, ticket: u32, len: u64) -> u32
    ensures { RepliesData len ticket chain.old.held.value result chain.new.held.value }
{
    reply_data(alloc, chain, ticket, len as usize)
}

/// Answers GETXATTR and LISTXATTR with size 0: how many bytes there are.
#[unsafe(no_mangle)]
pub extern "C" fn pk_reply_xattr(alloc: Global, chain: &mut FsChain, ticket: u32, len: u32) -> u32
    ensures { RepliesWith (answer.Count len) ticket chain.old.held.value result chain.new.held.value }
{
    reply(alloc, chain, ticket, FileAnswer::Count(len))
}

/// Answers WRITE and COPY_FILE_RANGE: how many bytes were written.
#[unsafe(no_mangle)]
pub extern "C" fn pk_reply_write(alloc: Global, chain: &mut FsChain, ticket: u32, count: u32) -> u32
    ensures { RepliesWith (answer.Wrote count) ticket chain.old.held.value result chain.new.held.value }
{
    reply(alloc, chain, ticket, FileAnswer::Wrote(count))
}

/// Answers STATFS.
#[unsafe(no_mangle)]
pub extern "C" fn pk_reply_statfs(
    alloc: Global,
    chain: &mut FsChain,
    ticket: u32,
    statfs: &FsStatfs,
) -> u32
    ensures { RepliesWith (statfs_said statfs.now) ticket chain.old.held.value result chain.new.held.value }
{
    reply(alloc, chain, ticket, statfs_said(statfs))
}

/// Answers LSEEK.
#[unsafe(no_mangle)]
pub extern "C" fn pk_reply_lseek(
    alloc: Global,
    chain: &mut FsChain,
    ticket: u32,
    offset: u64,
) -> u32
    ensures { RepliesWith (answer.Offset offset) ticket chain.old.held.value result chain.new.held.value }
{
    reply(alloc, chain, ticket, FileAnswer::Offset(offset))
}

/// Answers INIT with the options that the file system wants, besides those that are agreed anyway. The device
/// has the agreed options then.
#[unsafe(no_mangle)]
pub extern "C" fn pk_reply_init(
    alloc: Global,
    chain: &mut FsChain,
    ticket: u32,
    device: &mut FsDevice,
    wanted: u64,
) -> u32
    ensures { RepliesInit wanted ticket chain.old.held.value device.old result
        chain.new.held.value device.new }
{
    let Some(mut handle) = chain.take(alloc) else {
        return wrong_order();
    };
    let status = answer_handle(&mut handle, ticket, init_options_said(wanted));
    if status == 0 || status == NO_ROOM {
        device.options = handle.session().options().bits();
    }
    *chain = FsChain::of_box(handle);
    status
}

/// Answers with so many bytes that C wrote, which lie in the reply buffer from its first byte on. C calls it
/// in place of `pk_decode`, or of an answer.
#[unsafe(no_mangle)]
pub extern "C" fn pk_reply_bytes(alloc: Global, chain: &mut FsChain, ticket: u32, len: u64) -> u32
    ensures { RepliesBytes ticket len chain.old.held.value result chain.new.held.value }
{
    let Some(mut handle) = chain.take(alloc) else {
        return wrong_order();
    };
    let status = reply_own(&mut handle, ticket, len as usize);
    *chain = FsChain::of_box(handle);
    status
}
