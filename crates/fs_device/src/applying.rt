//! Harvested pages are applied to a host.

ghost use Rattle.std.specs.Prelude.{◌≡◌, map, None, OnErr, OnOk, slice_get};
ghost use Rattle.vm_memory_core.specs.Host.{lengths, shape};
ghost use Rattle.fs_device.specs.Applying.{applied, first_refused, pages_put, refused_by};
ghost use Rattle.fs_device.specs.PageView.{page_view};

use crate::harvested::HarvestedPage;
use thiserror::Error;
use vm_memory_core::{HostMemory, PageBitmap};

/// Why pages weren't applied to a host: the number in the list, from 0, of the first that doesn't fit.
#[derive(Clone, Copy, Debug, PartialEq, Eq, Error)]
pub enum ApplyError {
    #[error("the block of item {0} doesn't exist")]
    UnknownBlock(usize),
    /// The page has a byte past the end of its block.
    #[error("the page of item {0} doesn't lie in its block")]
    OutOfRange(usize),
}

impl ApplyError {
    ghost use Rattle.fs_device.specs.Applying.{apply_error_number};

    /// The error's number: 1 for `UnknownBlock`, 2 for `OutOfRange`.
    pub fn number(&self) -> u8
        ensures { result ≡ apply_error_number self.now }
    {
        match self {
            ApplyError::UnknownBlock(_) => 1,
            ApplyError::OutOfRange(_) => 2,
        }
    }
}

// Whether a page, the one with this number in a list, fits into its block.
fn check_page(
    host: &HostMemory<PageBitmap>,
    number: usize,
    page: &HarvestedPage,
) -> Result<(), ApplyError>
    ensures { result ≡ applied (refused_by (slice_get (lengths host.now) page.now.block) number
        (page_view page.now)) }
{
    let Some(len) = host.block_len(page.block) else {
        return Err(ApplyError::UnknownBlock(number));
    };
    if page.offset > len || page.bytes.len() > len - page.offset {
        return Err(ApplyError::OutOfRange(number));
    }
    Ok(())
}

// Whether each page fits into its block.
fn check(host: &HostMemory<PageBitmap>, pages: &[HarvestedPage]) -> Result<(), ApplyError>
    ensures { result ≡ applied (first_refused (lengths host.now) 0 (map page_view pages.now)) }
{
    for (number, page) in pages.iter().enumerate() {
        check_page(host, number, page)?;
    }
    Ok(())
}

// Writes pages that fit into their blocks.
fn put(host: &mut HostMemory<PageBitmap>, pages: &[HarvestedPage])
    requires { first_refused (lengths host.old) 0 (map page_view pages.now) ≡ None }
    ensures put { host.new ≡ pages_put host.old (map page_view pages.now) }
    ensures shape { shape host.new ≡ shape host.old }
{
    for page in pages {
        host.write_block(page.block, page.offset, &page.bytes);
    }
}

/// Writes pages to a host, in order, and marks none of them. Errors, with the number of the first page
/// that doesn't fit: `UnknownBlock`, `OutOfRange`. Then nothing changes.
pub fn apply(host: &mut HostMemory<PageBitmap>, pages: &[HarvestedPage]) -> Result<(), ApplyError>
    ensures outcome { result ≡ applied (first_refused (lengths host.old) 0 (map page_view pages.now)) }
    ensures ok { OnOk result (host.new ≡ pages_put host.old (map page_view pages.now)) }
    ensures err { OnErr result (host.new ≡ host.old) }
    ensures shape { shape host.new ≡ shape host.old }
{
    check(host, pages)?;
    put(host, pages);
    Ok(())
}
