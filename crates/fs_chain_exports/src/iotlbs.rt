//! Exports for an IOMMU's table that C keeps, and for the addresses that a chain uses of it.

ghost use Rattle.std.specs.Prelude.{◌≡◌};
ghost use Rattle.fs_chain_c.specs.Handles.{OnHandle};
ghost use Rattle.fs_chain_c.specs.Iotlbs.{ExchangesTables, IsNoPlace, MakesTable, MapsTable, UnmapsTable};
ghost use Rattle.fs_chain_c.specs.Iotlbs.{FillsMiss, ReportsUse, no_miss};
ghost use Rattle.fs_chain.specs.Numbers.{chain_error_number};
ghost use Rattle.fs_chain.specs.declared.error.ChainError.TheVariants.{WrongOrder};

use fs_chain_c::handle::FsChain;
use fs_chain_c::iotlb_handle::FsIotlb;
use fs_chain_c::iotlbs::{exchange, map_in, renew, unmap_in};
use fs_chain_c::missing::{FsMiss, miss_of, use_of};
use fs_chain_c::status::wrong_order;
use std::alloc::Global;

/// Makes a table that maps nothing, in place of the one that was there. Zeros get their box.
#[unsafe(no_mangle)]
pub extern "C" fn pk_iotlb_new(alloc: Global, iotlb: &mut FsIotlb) -> u32
    ensures { MakesTable iotlb.old.value result iotlb.new.value }
{
    renew(alloc, iotlb)
}

/// Frees a table and its place, and makes the place zeros.
#[unsafe(no_mangle)]
pub extern "C" fn pk_iotlb_free(alloc: Global, iotlb: &mut FsIotlb)
    ensures { IsNoPlace iotlb.new }
{
    *iotlb = FsIotlb::empty(alloc);
}

/// Maps I/O addresses to guest physical ones.
#[unsafe(no_mangle)]
pub extern "C" fn pk_iotlb_map(
    alloc: Global,
    iotlb: &mut FsIotlb,
    iova: u64,
    len: u64,
    guest: u64,
    access: u32,
) -> u32
    ensures { MapsTable iotlb.old.value iova len guest access result iotlb.new.value }
{
    let Some(mut place) = iotlb.take(alloc) else {
        return wrong_order();
    };
    let status = map_in(&mut place, iova, len, guest, access);
    *iotlb = FsIotlb::of_box(place);
    status
}

/// Removes the mappings of I/O addresses.
#[unsafe(no_mangle)]
pub extern "C" fn pk_iotlb_unmap(alloc: Global, iotlb: &mut FsIotlb, iova: u64, len: u64) -> u32
    ensures { UnmapsTable iotlb.old.value iova len result iotlb.new.value }
{
    let Some(mut place) = iotlb.take(alloc) else {
        return wrong_order();
    };
    let status = unmap_in(&mut place, iova, len);
    *iotlb = FsIotlb::of_box(place);
    status
}

/// Exchanges the chain's table with that of a place.
#[unsafe(no_mangle)]
pub extern "C" fn pk_chain_exchange_iotlb(
    alloc: Global,
    chain: &mut FsChain,
    iotlb: &mut FsIotlb,
) -> u32
    ensures { ExchangesTables chain.old.held.value iotlb.old.value result chain.new.held.value
        iotlb.new.value }
{
    let Some(mut handle) = chain.take(alloc) else {
        return wrong_order();
    };
    let Some(mut place) = iotlb.take(alloc) else {
        *chain = FsChain::of_box(handle);
        return wrong_order();
    };
    let status = exchange(&mut handle, &mut place);
    *iotlb = FsIotlb::of_box(place);
    *chain = FsChain::of_box(handle);
    status
}

/// Returns the first addresses of a gathered descriptor, from an address on, that the table doesn't map.
#[unsafe(no_mangle)]
pub extern "C" fn pk_find_miss(
    alloc: Global,
    chain: &mut FsChain,
    index: usize,
    from: u64,
    miss: &mut FsMiss,
) -> u32
    ensures { OnHandle (λ b b'. FillsMiss b index from result miss.new × (b' ≡ b))
        ((result ≡ chain_error_number WrongOrder) × (miss.new ≡ no_miss))
        chain.old.held.value chain.new.held.value }
{
    let Some(handle) = chain.take(alloc) else {
        *miss = FsMiss::nothing();
        return wrong_order();
    };
    let (returned, status) = miss_of(&handle, index, from);
    *miss = returned;
    *chain = FsChain::of_box(handle);
    status
}

/// Returns whether the chain in flight uses one of `len` I/O addresses with its request or reply buffer.
#[unsafe(no_mangle)]
pub extern "C" fn pk_uses(alloc: Global, chain: &mut FsChain, iova: u64, len: u64) -> u8
    ensures { OnHandle (λ b b'. ReportsUse b iova len result × (b' ≡ b)) (result ≡ 0)
        chain.old.held.value chain.new.held.value }
{
    let Some(handle) = chain.take(alloc) else {
        return 0;
    };
    let returned = use_of(&handle, iova, len);
    *chain = FsChain::of_box(handle);
    returned
}
