//! The state in which a journal starts.

ghost use Rattle.std.specs.Prelude.{◌≡◌, IfOk};
ghost use Rattle.fs_device.specs.MachineView.{machine_of};
ghost use Rattle.fs_shared.specs.Replay.{forget};
ghost use Rattle.fs_shared.specs.Held.{fixed_of, start_of};

use crate::entry::Start;
use fs_device::{Device, Machine};
use fs_queue::Queue;
use fuse_fs::FileSystem;
use std::alloc::{AllocError, Global};
use vm_memory::Iommu;

// A copy of a device's queues.
fn same_queues<F: FileSystem>(alloc: Global, device: &Device<F>) -> Result<Vec<Queue>, AllocError>
    ensures { IfOk result (λ copies. copies.items ≡ device.now.queues) }
{
    let mut copies = Vec::new(alloc);
    for number in 0..usize::MAX {
        let Some(queue) = device.queue(number) else {
            return Ok(copies);
        };
        copies.push(Queue::resume(queue.layout(), queue.position(), queue.is_stopped()))?;
    }
    Err(AllocError)
}

/// A copy of a machine's state without its file system. AllocError if an allocation fails.
pub(crate) fn started<F: FileSystem, I: Iommu + Drop>(
    alloc: Global,
    machine: &Machine<F, I>,
) -> Result<Start, AllocError>
    ensures { IfOk result
        (λ start. start_of start (fixed_of (machine_of machine.now)) ≡ forget (machine_of machine.now)) }
{
    Ok(Start {
        host: machine.host.try_clone()?,
        layout: machine.mem.get_backend().try_clone()?,
        queues: same_queues(alloc, &machine.device)?,
        options: machine.device.server().options(),
    })
}
