//! An exchange by its lengths alone, and a step that returns no bytes.

ghost use Rattle.std.specs.Prelude.{◌≡◌};
ghost use Rattle.vm_memory_core.specs.Host.{shape};

use crate::answer_by_front::{answer_front, request_len};
use crate::device::Device;
use fuse_fs::FileSystem;
use plain_machine::{DeviceError, Fault};
use std::alloc::Global;
use vm_memory::GuestMemory;
use vm_memory_core::HostBlocks;

/// A chain that was taken and returned (VIRTIO 1.2, 2.7): the index of its head in the descriptor
/// table, the length of its request in bytes (0 if the chain is faulty), the length of its reply in
/// bytes, which is the used length, the fault if there is one, and whether to notify the driver
/// (2.7.7).
#[derive(Clone, Copy, Debug, PartialEq, Eq)]
pub struct Returned {
    pub head: u16,
    pub request_len: usize,
    pub reply_len: usize,
    pub fault: Option<Fault>,
    pub notify: bool,
}

ghost use Rattle.fs_device.specs.DeviceView.{state_of};
ghost use Rattle.fs_device.specs.Returned.{StepReturned};

impl<F: FileSystem> Device<F> {
    /// Serves the next chain of a queue, by its number from 0, as `process_one` does, but returns the
    /// exchange without its bytes. None if no chain is available. It copies the first `REQUEST_FRONT`
    /// bytes of the request, or all of a shorter one. The file system reads the data of a WRITE in
    /// guest memory, one window after another. It puts the data of a READ straight into the reply
    /// buffer, one window after another, if three conditions hold: the request is only those first
    /// bytes, the first `REPLY_FRONT` bytes of the reply buffer have none in common with the others,
    /// and a failed read puts nothing in (`FileSystem::reads_whole`). The errors are those of
    /// `process_one`.
    pub fn serve_one<M: GuestMemory, H: HostBlocks>(
        &mut self,
        alloc: Global,
        host: &mut H,
        mem: &M,
        queue: usize,
    ) -> Result<Option<Returned>, DeviceError>
        requires { M.IsHeld mem.now (H.host host.old) }
        ensures step { StepReturned F.may (state_of (M.memory mem.now (H.host host.old)) self.old) queue
            result
            (state_of (M.memory mem.now (H.host host.new)) self.new) }
        ensures shape { shape (H.host host.new) ≡ shape (H.host host.old) }
    {
        let waits = Self::take_from(
            alloc,
            host,
            mem,
            self.limit,
            &mut self.queues,
            queue,
            &mut self.taken,
        )?;
        if !waits {
            return Ok(None);
        }
        let answered = answer_front(alloc, &mut self.server, host, &self.taken)?;
        let head = self.taken.head();
        let request_len = request_len(&self.taken);
        let front = answered.front.bytes();
        let notify = self.queues[queue].give_back_front(host, &mut self.taken, front, answered.len);
        Ok(Some(Returned {
            head,
            request_len,
            reply_len: answered.len,
            fault: answered.fault,
            notify,
        }))
    }
}
