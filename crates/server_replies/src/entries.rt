//! Entries of a directory, written straight into the reply.

ghost use Rattle.std.specs.Prelude.{◌≡◌, ◌+◌, ◌<◌, ◌≤◌, ◌^◌, ◌++◌, length, drop, OnOk, OnErr};
ghost use Rattle.vm_values.specs.Fields.{spelled};
ghost use Rattle.fuse_wire.specs.Records.{dirent};
ghost use Rattle.fuse_fs.specs.Replies.{dirent_of};
ghost use Rattle.fuse_fs.specs.Answers.{listed, numbered};
ghost use Rattle.server_replies.specs.Entries.{dirent_len, dirent_bytes, node_bytes, fit_of, is_dot, no_node};
ghost use Rattle.server_replies.specs.Entries.{after_entry};
ghost use Rattle.server_replies.specs.WholeReplies.{listing_bytes, listing_answer};

use crate::replies::{OUT_HEADER_LEN, append, reply_data};
use fuse_fs::replies::dirent;
use fuse_fs::{DirEntry, Entry, FileNumber, Timeout};
use fuse_wire::{Attr, EntryOut, Errno, GuestGid, GuestUid};
use server_segments::Writer;
use vm_values::ByteValued;

/// The length in bytes of `struct fuse_dirent` without its name.
pub const DIRENT_LEN: usize = 24;

/// The length in bytes of `struct fuse_dirent` with a name of this length, padded to a multiple of 8.
pub fn dirent_len(name_len: usize) -> usize
    requires { name_len < 2 ^ 32 }
    ensures len { result ≡ dirent_len name_len }
    ensures behind { 24 + name_len ≤ result }
    ensures filled { result < 32 + name_len }
{
    (DIRENT_LEN + name_len + 7) / 8 * 8
}

/// `struct fuse_dirent` of an entry, 24 bytes, without its name.
pub fn dirent_head(entry: &DirEntry<'_>) -> [u8; DIRENT_LEN]
    requires { length entry.now.name.now < 2 ^ 32 }
    ensures { result ≡ spelled (dirent (dirent_of (listed entry.now))) }
{
    let mut bytes = [0u8; DIRENT_LEN];
    dirent(entry).put_bytes(&mut bytes);
    bytes
}

/// A node as `struct fuse_entry_out`, 128 bytes.
#[tactic(auto, unfolding(crate::specs::Entries::node_bytes))]
pub fn node_bytes<I: FileNumber>(node: Entry<I>) -> [u8; 128]
    ensures { result ≡ node_bytes (numbered I.number node) }
{
    let mut bytes = [0u8; 128];
    let out = EntryOut::from(node);
    out.put_bytes(&mut bytes);
    bytes
}

// Writes an entry. For READDIRPLUS `node` is its node, written first; for READDIR it is empty.
fn write_entry(w: &mut Writer, node: &[u8], entry: &DirEntry<'_>)
    requires short { length entry.now.name.now < 2 ^ 32 }
    requires room { length node.now + dirent_len (length entry.now.name.now) ≤ w.old.free }
    ensures written { w.new.written ≡ w.old.written ++ (node.now ++ dirent_bytes (listed entry.now)) }
    ensures free { w.new.free + (length node.now + dirent_len (length entry.now.name.now)) ≡ w.old.free }
    ensures room { length w.new.written + w.new.free ≡ length w.old.written + w.old.free }
{
    let name_len = entry.name.len();
    let zeros = dirent_len(name_len) - DIRENT_LEN - name_len;
    append(w, node);
    append(w, &dirent_head(entry));
    append(w, entry.name);
    append(w, &[0; 8][..zeros]);
}

/// Writes an entry, and returns the number of bytes left of the list's size. If the entry doesn't
/// fit, nothing is written and the list ends. The reasons, in this order:
/// - `Some(EOVERFLOW)`: the name has 2^32 bytes or more
/// - `None`: the entry has more bytes than `left`
/// - `Some(EIO)`: it has more bytes than the writer has free
#[tactic(auto, unfolding(crate::specs::Entries::fit_of))]
pub fn put_entry(
    w: &mut Writer,
    node: &[u8],
    entry: &DirEntry<'_>,
    left: usize,
) -> Result<usize, Option<Errno>>
    requires { length node.now ≤ 128 }
    ensures outcome { result ≡ after_entry (fit_of (length entry.now.name.now)
        (length node.now + dirent_len (length entry.now.name.now)) left w.old.free)
        left (length node.now + dirent_len (length entry.now.name.now)) }
    ensures written { OnOk result
        (w.new.written ≡ w.old.written ++ (node.now ++ dirent_bytes (listed entry.now))) }
    ensures free { OnOk result (w.new.free + (length node.now + dirent_len (length entry.now.name.now))
        ≡ w.old.free) }
    ensures same { OnErr result (w.new ≡ w.old) }
    ensures room { length w.new.written + w.new.free ≡ length w.old.written + w.old.free }
{
    if entry.name.len() > u32::MAX as usize {
        return Err(Some(Errno::EOVERFLOW));
    }
    let len = node.len() + dirent_len(entry.name.len());
    if left < len {
        return Err(None);
    }
    if w.available_bytes() < len {
        return Err(Some(Errno::EIO));
    }
    write_entry(w, node, entry);
    Ok(left - len)
}

/// Whether a name is `.` or `..`; these are not looked up.
pub fn is_dot(name: &[u8]) -> bool
    ensures { result ≡ is_dot name.now }
{
    matches!(name, [b'.'] | [b'.', b'.'])
}

/// The node of `.` and `..`: node 0, with the inode number and the kind of the listing.
pub fn no_node<I: FileNumber>(entry: &DirEntry<'_>) -> Entry<I>
    ensures { numbered I.number result ≡ no_node (listed entry.now) }
{
    let none = Timeout::new(0, 0).unwrap();
    Entry {
        inode: I::numbered(0),
        generation: 0,
        attr: Attr {
            ino: entry.ino,
            size: 0,
            blocks: 0,
            atime: 0,
            mtime: 0,
            ctime: 0,
            atimensec: 0,
            mtimensec: 0,
            ctimensec: 0,
            mode: entry.type_.wrapping_mul(0x1000),
            nlink: 0,
            uid: GuestUid(0),
            gid: GuestGid(0),
            rdev: 0,
            blksize: 0,
            flags: 0,
        },
        attr_timeout: none,
        entry_timeout: none,
    }
}

// The length in bytes of the entries in the reply, or the error that is the reply.
fn ended_by(len: usize, with_nodes: bool, error: Option<Errno>) -> Result<usize, Errno>
    ensures { result ≡ listing_answer len with_nodes error }
{
    match error {
        Some(error) => {
            if with_nodes && 0 < len {
                Ok(len)
            } else {
                Err(error)
            }
        }
        None => Ok(len),
    }
}

/// Writes the header before the entries, for which 16 bytes are reserved. Or replaces everything by
/// an error. Returns the reply's length in bytes.
pub fn reply_listing(w: &mut Writer, unique: u64, with_nodes: bool, error: Option<Errno>) -> usize
    requires behind { 16 ≤ length w.old.written }
    requires small { length w.old.written < 2 ^ 32 }
    ensures reply { w.new.written ≡ listing_bytes unique with_nodes (drop 16 w.old.written) error }
    ensures length { result ≡ length w.new.written }
    ensures room { length w.new.written + w.new.free ≡ length w.old.written + w.old.free }
{
    let len = w.bytes_written() - OUT_HEADER_LEN;
    reply_data(w, unique, ended_by(len, with_nodes, error))
}
