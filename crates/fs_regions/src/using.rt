//! The addresses of an IOMMU's table that a chain uses.

ghost use Rattle.std.specs.Prelude.{◌≡◌, true, false, All};
ghost use Rattle.fs_regions.specs.Using.{IsUntouched, Touches};

use fs_queue::Descriptor;

// Whether a descriptor's buffer has one of `len` addresses from `iova` on.
fn touches(descriptor: &Descriptor, iova: u64, len: u64) -> bool
    ensures yes { result ≡ true → Touches iova len descriptor.now }
    ensures no { result ≡ false → IsUntouched iova len descriptor.now }
{
    if iova < descriptor.addr {
        descriptor.addr - iova < len && 0 < descriptor.len
    } else {
        iova - descriptor.addr < u64::from(descriptor.len) && 0 < len
    }
}

/// Whether a chain with these descriptors uses one of `len` addresses from `iova` on. If not, a VMM may
/// change or remove their mappings while the chain is in flight: the chain's own mappings stay as they
/// were (`law_others_stay`).
pub fn uses(descriptors: &[Descriptor], iova: u64, len: u64) -> bool
    ensures used { result ≡ true → All (IsUntouched iova len) descriptors.now → ⊥ }
    ensures unused { result ≡ false → All (IsUntouched iova len) descriptors.now }
{
    for descriptor in descriptors {
        if touches(descriptor, iova, len) {
            return true;
        }
    }
    false
}
