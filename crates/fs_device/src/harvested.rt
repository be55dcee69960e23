//! Copies of the marked pages of a host.

ghost use Rattle.std.specs.Prelude.{◌≡◌, ◌*◌, ◌<◌, ◌++◌, map, length, OnOk, OnErr, IfOk};
ghost use Rattle.vm_bitmaps.specs.Pages.{pages_of};
ghost use Rattle.vm_memory_core.specs.Host.{cleared, shape};
ghost use Rattle.plain_machine.specs.Harvested.{block_pages, harvested, page_copied};
ghost use Rattle.fs_device.specs.PageView.{page_view};

use std::alloc::{AllocError, Global};
use vm_bitmaps::PAGE_SIZE;
use vm_memory_core::{HostMemory, PageBitmap};

/// A page that was marked, with its bytes.
#[derive(Debug, Drop)]
pub struct HarvestedPage {
    /// The number of its block.
    pub block: usize,
    /// Its offset in its block, in bytes: a multiple of 4096 if the page was harvested.
    pub offset: usize,
    /// Its 4096 bytes; the last page of a block may have fewer.
    pub bytes: Vec<u8>,
}

// A copy of a page of a block.
fn copy_page(
    alloc: Global,
    block: usize,
    bytes: &[u8],
    page: usize,
) -> Result<HarvestedPage, AllocError>
    requires { page * 4096 < length bytes.now }
    ensures { IfOk result (λ p. page_view p ≡ page_copied block bytes.now page) }
{
    let offset = page * PAGE_SIZE;
    let rest = &bytes[offset..];
    let len = rest.len().min(PAGE_SIZE);
    let bytes = Vec::from_slice(alloc, &rest[..len])?;
    Ok(HarvestedPage {
        block,
        offset,
        bytes,
    })
}

// Adds the marked pages of a block.
fn harvest_block(
    alloc: Global,
    block: usize,
    bytes: &[u8],
    bitmap: &PageBitmap,
    pages: &mut Vec<HarvestedPage>,
) -> Result<(), AllocError>
    requires { length bitmap.now.marks ≡ pages_of 4096 (length bytes.now) }
    ensures { OnOk result (map page_view pages.new.items ≡ map page_view pages.old.items
        ++ block_pages block bytes.now 0 bitmap.now.marks) }
{
    let mut from = 0;
    while let Some(page) = bitmap.next_marked(from) {
        pages.push(copy_page(alloc, block, bytes, page)?)?;
        from = page + 1;
    }
    Ok(())
}

// The marked pages of all blocks.
fn copy_marked(
    alloc: Global,
    host: &HostMemory<PageBitmap>,
) -> Result<Vec<HarvestedPage>, AllocError>
    ensures { IfOk result (λ pages. map page_view pages.items ≡ harvested host.now) }
{
    let mut pages = Vec::new(alloc);
    for block in 0..host.block_count() {
        if let Some((bytes, bitmap)) = host.bytes_and_bitmap(block) {
            harvest_block(alloc, block, bytes, bitmap, &mut pages)?;
        }
    }
    Ok(pages)
}

// Clears the marks of all blocks.
pub(crate) fn clear(host: &mut HostMemory<PageBitmap>)
    ensures { host.new ≡ cleared host.old }
{
    for block in 0..host.block_count() {
        host.reset_bitmap(block);
    }
}

/// Copies each marked page, by block and page, and clears the marks. AllocError if an allocation fails;
/// then nothing changes.
pub fn harvest(
    alloc: Global,
    host: &mut HostMemory<PageBitmap>,
) -> Result<Vec<HarvestedPage>, AllocError>
    ensures pages { IfOk result (λ pages. map page_view pages.items ≡ harvested host.old) }
    ensures cleared { OnOk result (host.new ≡ cleared host.old) }
    ensures err { OnErr result (host.new ≡ host.old) }
    ensures shape { shape host.new ≡ shape host.old }
{
    let pages = copy_marked(alloc, host)?;
    clear(host);
    Ok(pages)
}
