//! A copy of a whole host.

ghost use Rattle.std.specs.Prelude.{◌≡◌, IfOk, OnErr, OnOk};
ghost use Rattle.vm_memory_core.specs.Host.{cleared, shape};

use crate::harvested::clear;
use std::alloc::{AllocError, Global};
use vm_memory_core::{HostMemory, PageBitmap};

/// A copy of a host, without a marked page of a block. It clears the marks of the host's blocks too:
/// pages marked later were written after the copy. I/O pages and tables stay. AllocError if an
/// allocation fails; then nothing changes. The copy is allocated by the host's own allocator, as all
/// that the host makes.
pub fn image(
    _alloc: Global,
    host: &mut HostMemory<PageBitmap>,
) -> Result<HostMemory<PageBitmap>, AllocError>
    ensures copy { IfOk result (λ copy. copy ≡ cleared host.old) }
    ensures cleared { OnOk result (host.new ≡ cleared host.old) }
    ensures err { OnErr result (host.new ≡ host.old) }
    ensures shape { shape host.new ≡ shape host.old }
{
    let mut copy = host.try_clone()?;
    clear(&mut copy);
    clear(host);
    Ok(copy)
}
