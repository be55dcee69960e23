//! Replies to INIT.

ghost use Rattle.std.specs.Prelude.{◌≡◌, ◌+◌, ◌-◌, ◌/◌, ◌^◌, IsTrue};
ghost use Rattle.vm_values.specs.Fields.{spelled};
ghost use Rattle.fuse_wire.specs.Records.{init_out};
ghost use Rattle.server_replies.specs.PageSizes.{is_page_size};
ghost use Rattle.server_replies.specs.WholeReplies.{versions_bytes, started_bytes};

use bitflags::Flags;
use fuse_wire::constants::{KERNEL_MINOR_VERSION, KERNEL_VERSION};
use fuse_wire::{FsOptions, InitOut};
use vm_values::ByteValued;

/// The most data of a WRITE, in bytes (1 MiB). The longest request has a page more.
pub const MAX_BUFFER_SIZE: u32 = 1 << 20;

// The number of pages of the longest write.
#[tactic(auto, using(crate::proofs::PageLemmas::page_least))]
fn max_pages(page_size: u32) -> u16
    requires { IsTrue (is_page_size page_size) }
    ensures { result ≡ (2 ^ 20 - 1) / page_size + 1 }
{
    ((MAX_BUFFER_SIZE - 1) / page_size + 1) as u16
}

// `struct fuse_init_out`.
fn init_bytes(reply: &InitOut) -> [u8; 64]
    ensures { result ≡ spelled (init_out reply.now) }
{
    let mut bytes = [0u8; 64];
    reply.put_bytes(&mut bytes);
    bytes
}

/// The reply to a client of a later version: `struct fuse_init_out`, in which only the version isn't 0.
#[tactic(auto, unfolding(crate::specs::WholeReplies::versions_bytes))]
pub fn versions() -> [u8; 64]
    ensures { result ≡ versions_bytes }
{
    init_bytes(&InitOut {
        major: KERNEL_VERSION,
        minor: KERNEL_MINOR_VERSION,
        max_readahead: 0,
        flags: 0,
        max_background: 0,
        congestion_threshold: 0,
        max_write: 0,
        time_gran: 0,
        max_pages: 0,
        map_alignment: 0,
        flags2: 0,
        unused: [0; 7],
    })
}

/// The reply to a client of this version: `struct fuse_init_out`.
#[tactic(auto, unfolding(crate::specs::WholeReplies::started_bytes))]
pub fn start_bytes(page_size: u32, readahead: u32, options: FsOptions) -> [u8; 64]
    requires { IsTrue (is_page_size page_size) }
    ensures { result ≡ started_bytes page_size readahead options.0 }
{
    let bits = options.bits();
    init_bytes(&InitOut {
        major: KERNEL_VERSION,
        minor: KERNEL_MINOR_VERSION,
        max_readahead: readahead,
        flags: (bits % 0x1_0000_0000) as u32,
        max_background: 65535,
        congestion_threshold: 49149,
        max_write: MAX_BUFFER_SIZE,
        time_gran: 1,
        max_pages: max_pages(page_size),
        map_alignment: 0,
        flags2: (bits / 0x1_0000_0000) as u32,
        unused: [0; 7],
    })
}
