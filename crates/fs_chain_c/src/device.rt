//! The settings that a device's queues share, as numbers that C keeps.

ghost use Rattle.std.specs.Prelude.{◌≡◌, ◌↔◌, IsTrue};
ghost use Rattle.server_replies.specs.PageSizes.{is_page_size};
ghost use Rattle.fs_chain_c.specs.Memory.{IsDevice};

use fs_queue::MOST_LIMIT;
use server_meanings::MAX_REQUEST_LEN;

/// The sizes that a guest's pages may have.
const PAGE_SIZES: [u32; 5] = [4 << 10, 8 << 10, 16 << 10, 32 << 10, 64 << 10];

/// The settings that a device's queues share.
#[repr(C)]
#[derive(Clone, Copy)]
pub struct FsDevice {
    /// How many bytes the guest's pages have.
    pub page_size: u32,
    /// The most bytes of a request, and of a reply buffer.
    pub limit: u32,
    /// The options that INIT agreed on.
    pub options: u64,
}

// Whether a guest's pages may have `bytes` bytes.
fn is_page_size(bytes: u32) -> bool
    ensures { result ≡ is_page_size bytes }
{
    PAGE_SIZES.contains(&bytes)
}

impl FsDevice {
    /// Whether page size and limit are valid.
    pub fn is_lawful(&self) -> bool
        ensures { IsTrue result ↔ IsDevice self.now }
    {
        is_page_size(self.page_size) && self.limit >= MAX_REQUEST_LEN && self.limit <= MOST_LIMIT
    }
}
