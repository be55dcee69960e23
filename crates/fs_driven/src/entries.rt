//! The entries of a listing as one command brings them, and the listing's end.

ghost use Rattle.std.specs.Prelude.{◌≡◌, ◌<◌, ◌^◌, ℕ, drop, take};
ghost use Rattle.fs_driven.specs.Adding.{BringsAll, BringsOne, EndsSo, EndsUnless};
ghost use Rattle.fs_driven.specs.Entries.{errno_after, refused_by};
ghost use Rattle.fs_driven.specs.Events.{DrivesOne};
ghost use Rattle.fs_driven.specs.declared.commands.DriverCall.TheVariants as does;
ghost use Rattle.fs_driven.specs.declared.commands.Results.TheVariants as gives;

use fs_chain::{AddOutcome, ChainError, ChainHandle, QueueState};
use fuse_fs::{DirEntry, Entry};
use fuse_wire::Errno;

/// An entry of a directory, for a READDIRPLUS with its node. The names of several entries lie one behind
/// another.
#[derive(Drop)]
pub struct ListedEntry {
    /// The node's number in the listing.
    pub ino: u64,
    /// The offset at which a listing continues after this entry.
    pub offset: u64,
    /// The kind of node.
    pub type_: u32,
    /// How many bytes its name has.
    pub name_len: usize,
    /// Its node.
    pub node: Option<Entry<u64>>,
}

// A node's number has 64 bits.
fn numbered(inode: u64) -> u64
    ensures same { result ≡ inode }
    ensures number { result < 2 ^ 64 }
{
    inode
}

// A copy of an entry's node.
fn copied(node: &Entry<u64>) -> Entry<u64>
    ensures node { result ≡ node.now }
    ensures number { result.inode < 2 ^ 64 }
{
    Entry {
        inode: numbered(node.inode),
        generation: node.generation,
        attr: node.attr,
        attr_timeout: node.attr_timeout,
        entry_timeout: node.entry_timeout,
    }
}

// Brings an entry to a listing.
#[tactic(auto, using(crate::proofs::Bringing::brings_plain, crate::proofs::Bringing::brings_found))]
fn bring(
    handle: &mut ChainHandle,
    ticket: u32,
    list: &mut [u8],
    entry: &ListedEntry,
    name: &[u8],
) -> Result<AddOutcome, ChainError>
    ensures one { BringsOne handle.old handle.new ticket list.old list.new entry.now name.now result }
{
    let dir = DirEntry {
        ino: entry.ino,
        offset: entry.offset,
        type_: entry.type_,
        name,
    };
    match &entry.node {
        None => handle.add(ticket, list, &dir),
        Some(node) => handle.add_with_node(ticket, list, &dir, copied(node)),
    }
}

// The first bytes of names, and the others. Names that are too short are one.
fn name_of(names: &[u8], len: usize) -> (&[u8], &[u8])
    ensures first { result.0.now ≡ take len names.now }
    ensures others { result.1.now ≡ drop len names.now }
{
    if len < names.len() {
        return names.split_at(len);
    }
    names.split_at(names.len())
}

// Brings entries one behind another, up to one that isn't added. Returns how many were added, and the result
// of the last call.
fn bring_all(
    handle: &mut ChainHandle,
    ticket: u32,
    list: &mut [u8],
    entries: &[ListedEntry],
    names: &[u8],
) -> (usize, Result<AddOutcome, ChainError>)
    ensures all { BringsAll handle.old handle.new ticket list.old list.new entries.now names.now result.0
        result.1 }
{
    match entries.split_first() {
        None => (0, Ok(AddOutcome::In)),
        Some((entry, more)) => {
            let (name, others) = name_of(names, entry.name_len);
            match bring(handle, ticket, list, entry, name) {
                Ok(AddOutcome::In) => {
                    let (added, last) = bring_all(handle, ticket, list, more, others);
                    (added + 1, last)
                }
                Ok(AddOutcome::Full) => (0, Ok(AddOutcome::Full)),
                Ok(AddOutcome::NoRoom) => (0, Ok(AddOutcome::NoRoom)),
                Ok(AddOutcome::TooLong) => (0, Ok(AddOutcome::TooLong)),
                Err(e) => (0, Err(e)),
            }
        }
    }
}

// The error of a listing whose first entry is refused: it goes on.
fn refused_by(added: usize, last: Result<AddOutcome, ChainError>) -> Option<ChainError>
    ensures { result ≡ refused_by added last }
{
    match last {
        Err(e) => {
            if added == 0 {
                return Some(e);
            }
            None
        }
        Ok(_) => None,
    }
}

// The error with which a listing fails after this result, if it does.
fn errno_after(last: Result<AddOutcome, ChainError>, failure: Option<Errno>) -> Option<Errno>
    ensures { result ≡ errno_after last failure }
{
    match last {
        Ok(AddOutcome::In) => failure,
        Ok(AddOutcome::Full) => None,
        Ok(AddOutcome::NoRoom) => Some(Errno::EIO),
        Ok(AddOutcome::TooLong) => Some(Errno::EOVERFLOW),
        Err(_) => Some(Errno::EIO),
    }
}

// Ends a listing with its entries, or with an error.
fn end_by(handle: &mut ChainHandle, ticket: u32, errno: Option<Errno>) -> Result<usize, ChainError>
    ensures ends { EndsSo errno handle.old handle.new ticket result }
{
    match errno {
        None => handle.end(ticket),
        Some(errno) => handle.fail(ticket, errno),
    }
}

// Ends a listing after this result, unless its first entry was refused.
#[tactic(auto, using(crate::proofs::Gathers::ends_not, crate::proofs::Gathers::ends_on))]
fn end_after(
    handle: &mut ChainHandle,
    ticket: u32,
    added: usize,
    last: Result<AddOutcome, ChainError>,
    failure: Option<Errno>,
) -> Result<usize, ChainError>
    ensures ends { EndsUnless (refused_by added last) (errno_after last failure) handle.old handle.new ticket
        result }
{
    match refused_by(added, last) {
        Some(e) => Err(e),
        None => end_by(handle, ticket, errno_after(last, failure)),
    }
}

// Brings entries to a listing in this list, and ends it.
fn gather_into(
    handle: &mut ChainHandle,
    queue: &QueueState,
    ticket: u32,
    list: &mut [u8],
    entries: &[ListedEntry],
    names: &[u8],
    failure: Option<Errno>,
) -> (
    usize,
    Result<AddOutcome, ChainError>,
    Result<usize, ChainError>,
)
    ensures step { (page_size : ℕ) → DrivesOne page_size handle.old handle.new queue.now queue.now
        (does.Gather ticket entries.entry names.entry failure)
        (gives.Gathered result.0 result.1 result.2 list.new) }
{
    let (added, last) = bring_all(handle, ticket, list, entries, names);
    let ended = end_after(handle, ticket, added, last, failure);
    (added, last, ended)
}

/// Brings entries to a listing, up to one that isn't added, and ends it. It fails if its directory can't be
/// read behind the entries, by EIO if an entry doesn't fit in the reply buffer or, behind others, is refused,
/// and by EOVERFLOW if a name is too long. Returns how many were added, the result of the last call, the
/// length of the data, and a list that begins with them.
pub fn drive_gather(
    handle: &mut ChainHandle,
    queue: &QueueState,
    ticket: u32,
    entries: &[ListedEntry],
    names: &[u8],
    failure: Option<Errno>,
) -> (
    usize,
    Result<AddOutcome, ChainError>,
    Result<usize, ChainError>,
    [u8; 4096],
)
    ensures step { (page_size : ℕ) → DrivesOne page_size handle.old handle.new queue.now queue.now
        (does.Gather ticket entries.entry names.entry failure)
        (gives.Gathered result.0 result.1 result.2 result.3) }
{
    let mut list = [0; 4096];
    let (added, last, ended) = gather_into(
        handle, queue, ticket, &mut list, entries, names, failure,
    );
    (added, last, ended, list)
}
