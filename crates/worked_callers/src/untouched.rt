//! Mappings of an IOMMU that change while a chain is in flight that doesn't use them.

ghost use Rattle.std.specs.Prelude.{◌≡◌, false, true, All, Ok};
ghost use Rattle.vm_iotlb.specs.Changes.{InvalidatesMapping, SetsMapping};
ghost use Rattle.vm_iotlb.specs.Ranges.{table_held};
ghost use Rattle.fs_regions.specs.Using.{IsUntouched, StaysFor};
ghost use Rattle.fs_chain.specs.Orders.{is_out};

use fs_chain::ChainHandle;
use fs_regions::laws::law_others_stay;
use vm_iotlb::IommuError;
use vm_memory_core::{GuestAddress, Iotlb, Permissions};

/// Removes the mappings of `len` I/O addresses, unless the chain in flight uses one of them. Returns whether
/// they were removed: the chain's own mappings are then as they were. An error is that of
/// `invalidate_mapping`.
pub fn unmap_unused(
    handle: &ChainHandle,
    table: &mut Iotlb,
    iova: GuestAddress,
    len: usize,
) -> Result<bool, IommuError>
    requires out { is_out handle.now.state ≡ true }
    ensures unused { (result ≡ Ok false → ⊥) → All (IsUntouched iova.0 len) handle.now.descriptors.items }
    ensures removed { (result ≡ Ok false → ⊥)
        → InvalidatesMapping iova.0 len table.old table.new result }
    ensures stays { result ≡ Ok true
        → All (StaysFor (table_held table.old) (table_held table.new)) handle.now.descriptors.items }
    ensures used { result ≡ Ok false
        → (All (IsUntouched iova.0 len) handle.now.descriptors.items → ⊥) × (table.new ≡ table.old) }
{
    law_others_stay();
    if handle.uses(iova.0, len as u64) {
        return Ok(false);
    }
    table.invalidate_mapping(iova, len)?;
    Ok(true)
}

/// Maps `len` I/O addresses to others, unless the chain in flight uses one of them. Returns whether they were
/// mapped: the chain's own mappings are then as they were. An error is that of `set_mapping`.
pub fn map_unused(
    handle: &ChainHandle,
    table: &mut Iotlb,
    iova: GuestAddress,
    target: GuestAddress,
    len: usize,
    access: Permissions,
) -> Result<bool, IommuError>
    requires out { is_out handle.now.state ≡ true }
    ensures unused { (result ≡ Ok false → ⊥) → All (IsUntouched iova.0 len) handle.now.descriptors.items }
    ensures mapped { (result ≡ Ok false → ⊥)
        → SetsMapping iova.0 target.0 len access table.old table.new result }
    ensures stays { result ≡ Ok true
        → All (StaysFor (table_held table.old) (table_held table.new)) handle.now.descriptors.items }
    ensures used { result ≡ Ok false
        → (All (IsUntouched iova.0 len) handle.now.descriptors.items → ⊥) × (table.new ≡ table.old) }
{
    law_others_stay();
    if handle.uses(iova.0, len as u64) {
        return Ok(false);
    }
    table.set_mapping(iova, target, len, access)?;
    Ok(true)
}
