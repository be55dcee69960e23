//! Listings that C answers entry by entry, and errors of calls.

ghost use Rattle.std.specs.Prelude.{◌≡◌, true, length};
ghost use Rattle.fuse_fs.specs.Answers.{listed};
ghost use Rattle.server_replies.specs.Entries.{no_node};
ghost use Rattle.server_phases.specs.Gathering.{added_found, added_plain};
ghost use Rattle.fs_chain_c.specs.Listing.{AddsNode, AddsToHandle, EndsListing, FailsListing, FailsHandle};
ghost use Rattle.fs_chain_c.specs.Listing.{added_status, errno_of, is_entry, is_name, is_type};
ghost use Rattle.fs_chain.specs.Orders.{is_listing};
ghost use Rattle.fs_chain_c.specs.Handles.{OnHandle};

use crate::decoding::answer_handle;
use crate::handle::FsChain;
use crate::status::wrong_order;
use fs_chain::{AddOutcome, ChainError, ChainHandle};
use fuse_base::Errno;
use fuse_fs::{DirEntry, Entry};
use fuse_values::FileAnswer;
use std::alloc::Global;

/// The list is full: the entry isn't in it, and the entries so far are the answer.
const FULL: u32 = 36;

/// The entry isn't in the list, and the listing fails.
const LIST_FAILS: u32 = 37;

/// A listing that failed is answered by the entries so far.
const ENTRIES: u32 = 38;

/// The longest name, in bytes.
const NAME_MAX: usize = 255;

// The status of an added entry.
fn added_status(returned: Result<AddOutcome, ChainError>) -> u32
    ensures { result ≡ added_status returned }
{
    match returned {
        Ok(AddOutcome::In) => 0,
        Ok(AddOutcome::Full) => FULL,
        Ok(AddOutcome::NoRoom) | Ok(AddOutcome::TooLong) => LIST_FAILS,
        Err(error) => u32::from(error.number()),
    }
}

// Whether a directory may have an entry of this name.
fn is_name(name: &[u8]) -> bool
    ensures { result ≡ is_name name.now }
{
    1 <= name.len() && name.len() <= NAME_MAX && !name.contains(&b'/')
}

// Whether a number is a type of dirent.h.
fn is_type(type_: u32) -> bool
    ensures { result ≡ is_type type_ }
{
    type_ == 0
        || type_ == 1
        || type_ == 2
        || type_ == 4
        || type_ == 6
        || type_ == 8
        || type_ == 10
        || type_ == 12
}

/// Whether a directory may have an entry of this name and type.
pub fn is_entry(name: &[u8], type_: u32) -> bool
    ensures { result ≡ is_entry name.now type_ }
{
    is_name(name) && is_type(type_)
}

/// Adds an entry of READDIR to a handle's listing.
pub fn add_to_handle(
    handle: &mut ChainHandle,
    ticket: u32,
    list: &mut [u8],
    entry: &DirEntry<'_>,
) -> u32
    ensures { AddsToHandle handle.old ticket (listed entry.now, no_node (listed entry.now)) (λ l.
        added_plain l (length list.old) (length entry.now.name.now)) list.old result handle.new list.new }
{
    added_status(handle.add(ticket, list, entry))
}

// Adds an entry of READDIRPLUS to a handle's listing.
fn add_node_to_handle(
    handle: &mut ChainHandle,
    ticket: u32,
    list: &mut [u8],
    entry: &DirEntry<'_>,
    node: Entry<u64>,
) -> u32
    ensures { AddsToHandle handle.old ticket (listed entry.now, node) (λ l.
        added_found l (length list.old) (length entry.now.name.now)) list.old result handle.new list.new }
{
    added_status(handle.add_with_node(ticket, list, entry, node))
}

/// Adds an entry of READDIRPLUS with its node behind those before it.
pub fn add_node(
    alloc: Global,
    chain: &mut FsChain,
    ticket: u32,
    list: &mut [u8],
    entry: &DirEntry<'_>,
    node: Option<Entry<u64>>,
) -> u32
    ensures { AddsNode true (listed entry.now) node ticket chain.old.held.value list.old result
        chain.new.held.value list.new }
{
    let Some(node) = node else {
        return u32::from(ChainError::BadArgument.number());
    };
    let Some(mut handle) = chain.take(alloc) else {
        return wrong_order();
    };
    let status = add_node_to_handle(&mut handle, ticket, list, entry, node);
    *chain = FsChain::of_box(handle);
    status
}

/// Answers with the entries so far: a status, and how many bytes of the list are the data.
pub fn end_listing(handle: &mut ChainHandle, ticket: u32) -> (u32, u64)
    ensures { EndsListing handle.old ticket result.0 result.1 handle.new }
{
    match handle.end(ticket) {
        Ok(len) => (0, len as u64),
        Err(error) => (u32::from(error.number()), 0),
    }
}

// A listing fails by an errno.
fn fail_listing(handle: &mut ChainHandle, ticket: u32, error: Errno) -> u32
    ensures { FailsListing error ticket handle.old result handle.new }
{
    match handle.fail(ticket, error) {
        Ok(behind) => { if behind == 0 { 0 } else { ENTRIES } }
        Err(error) => u32::from(error.number()),
    }
}

// A chain's call fails by an errno.
fn fail_handle(handle: &mut ChainHandle, ticket: u32, error: Errno) -> u32
    ensures { FailsHandle (is_listing handle.old.state) error ticket handle.old result handle.new }
{
    if handle.is_listing() {
        fail_listing(handle, ticket, error)
    } else {
        answer_handle(handle, ticket, FileAnswer::Failed(error))
    }
}

/// The errno of a number, from 1 to 4095.
pub fn errno_of(number: u32) -> Option<Errno>
    ensures { result ≡ errno_of number }
{
    Errno::new(number)
}

/// A handle's call fails by an errno.
pub fn fail_chain(alloc: Global, chain: &mut FsChain, ticket: u32, error: Errno) -> u32
    ensures { OnHandle (λ b b'. FailsHandle (is_listing b.state) error ticket b result b') (result ≡ 73)
        chain.old.held.value chain.new.held.value }
{
    let Some(mut handle) = chain.take(alloc) else {
        return wrong_order();
    };
    let status = fail_handle(&mut handle, ticket, error);
    *chain = FsChain::of_box(handle);
    status
}
