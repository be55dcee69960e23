//! Entries of a directory, written into a list.

ghost use Rattle.std.specs.Prelude.{◌≡◌, ◌+◌, ◌<◌, ◌^◌, ◌++◌, length, true};
ghost use Rattle.fuse_fs.specs.Answers.{listed};
ghost use Rattle.server_replies.specs.Entries.{dirent_len, dirent_bytes};
ghost use Rattle.server_phases.specs.Gathering.{bytes_of};

use fuse_fs::{DirEntry, Entry};
use server_replies::entries::{DIRENT_LEN, dirent_head, is_dot, no_node, node_bytes};

// Writes `struct fuse_dirent` of an entry, its name and zeros over these bytes.
fn put_dirent(out: &mut [u8], entry: &DirEntry<'_>)
    requires short { length entry.now.name.now < 2 ^ 32 }
    requires place { length out.old ≡ dirent_len (length entry.now.name.now) }
    ensures { out.new ≡ dirent_bytes (listed entry.now) }
{
    let (head, behind) = out.split_at_mut(DIRENT_LEN);
    head.copy_from_slice(&dirent_head(entry));
    let (name, zeros) = behind.split_at_mut(entry.name.len());
    name.copy_from_slice(entry.name);
    zeros.copy_from_slice(&[0; 8][..zeros.len()]);
}

/// Writes an entry over these bytes. For READDIRPLUS `node` is its node, written first; for READDIR
/// it is empty.
pub(crate) fn put_entry(out: &mut [u8], node: &[u8], entry: &DirEntry<'_>)
    requires short { length entry.now.name.now < 2 ^ 32 }
    requires place { length out.old ≡ length node.now + dirent_len (length entry.now.name.now) }
    ensures { out.new ≡ node.now ++ dirent_bytes (listed entry.now) }
{
    let (front, behind) = out.split_at_mut(node.len());
    front.copy_from_slice(node);
    put_dirent(behind, entry);
}

/// The node of an entry in READDIRPLUS, as `struct fuse_entry_out` (128 bytes).
pub(crate) fn node_front(entry: &DirEntry<'_>, node: Entry<u64>) -> [u8; 128]
    ensures { result ++ dirent_bytes (listed entry.now) ≡ bytes_of true (listed entry.now, node) }
{
    if is_dot(entry.name) {
        node_bytes(no_node::<u64>(entry))
    } else {
        node_bytes(node)
    }
}
