//! Theorems about the code, each the contract of a function.

ghost use Rattle.std.specs.Prelude.{◌≡◌, MatchResult};

use crate::iommu::TableIommu;
use std::alloc::AllocError;

/// A clone of a `TableIommu` has the same table, and cloning returns no AllocError.
pub fn law_clone(iommu: &TableIommu) -> Result<TableIommu, AllocError>
    ensures { MatchResult result (λ other. other.table ≡ iommu.now.table) (λ _. ⊥) }
{
    iommu.clone()
}
