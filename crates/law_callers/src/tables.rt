//! Callers of the theorems on tables, and on the options of a session.

ghost use Rattle.std.specs.Prelude.{◌≡◌, ℕ, ◌∷◌, IfOk, List};
ghost use Rattle.fuse_fs.specs.Calls.{Destroy, FileAnswer, Forget};
ghost use Rattle.server_meanings.specs.Examples.{nobody};
ghost use Rattle.server_meanings.specs.Grammar.{Asks, One};
ghost use Rattle.server_meanings.specs.Serving.{served, setting};

use live_machine::law_options;
use std::alloc::AllocError;
use vm_iotlb::IommuError;
use vm_memory::TableIommu;
use vm_memory::laws::law_clone;
use vm_memory_core::{GuestAddress, Iotlb, Permissions};

/// A copy of a table, after both got the same mapping: they have the same ranges. An error is that of
/// `Iotlb::set_mapping`.
pub fn map_with_copy(
    table: &mut Iotlb,
    iova: GuestAddress,
    target: GuestAddress,
    len: usize,
    access: Permissions,
) -> Result<Iotlb, IommuError>
    ensures { IfOk result (λ copy. copy ≡ table.new) }
{
    let Ok(mut copy) = table.try_clone() else {
        return Err(IommuError::OutOfMemory);
    };
    table.set_mapping(iova, target, len, access)?;
    copy.set_mapping(iova, target, len, access)?;
    copy.law_canonical(table);
    Ok(copy)
}

/// A clone's clone has the first one's table.
pub fn clone_twice(iommu: &TableIommu) -> Result<TableIommu, AllocError>
    ensures { IfOk result (λ other. other.table ≡ iommu.now.table) }
{
    let other = law_clone(iommu)?;
    law_clone(&other)
}

/// An answer to FORGET leaves the options of this moment, and one to DESTROY the same from any others.
pub fn keep_options()
    ensures forget { (page_size asked now room unique : ℕ) (a : FileAnswer) (answers : List FileAnswer)
        → (served (setting page_size now room) (Asks (One unique (Forget nobody 5 3))) (a ∷ answers)).options
        ≡ now }
    ensures destroy { (page_size asked now room unique : ℕ) (a : FileAnswer) (answers : List FileAnswer)
        → (served (setting page_size now room) (Asks (One unique Destroy)) (a ∷ answers)).options
        ≡ (served (setting page_size asked room) (Asks (One unique Destroy)) (a ∷ answers)).options }
{
    law_options();
}
