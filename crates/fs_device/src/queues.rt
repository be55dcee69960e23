//! Chains of a queue, served one after another.

ghost use Rattle.std.specs.Prelude.{◌≡◌, ◌<◌, ◌≤◌, [], None, Some, IfOk, OnErr, vec_capacity};
ghost use Rattle.vm_memory_core.specs.Host.{shape};

use crate::device::Device;
use crate::exchange::Exchange;
use fs_queue::QueueError;
use fuse_fs::FileSystem;
use plain_machine::DeviceError;
use std::alloc::{AllocError, Global};
use vm_memory::GuestMemory;
use vm_memory_core::HostBlocks;

/// The exchanges of a queue, in order, each with whether to notify the driver, and the refusal after
/// the last of them, if there is one.
#[derive(Debug, Drop)]
pub struct QueueRun {
    pub done: Vec<(Exchange, bool)>,
    pub refused: Option<DeviceError>,
}

impl QueueRun {
    // The exchanges of a run that ended since no chain was available, or after `most` exchanges.
    pub(crate) fn ended(done: Vec<(Exchange, bool)>) -> QueueRun
        ensures { result ≡ record { done = done; refused = None } }
    {
        QueueRun {
            done,
            refused: None,
        }
    }

    // The exchanges of a run that ended with a refused step.
    pub(crate) fn refused(done: Vec<(Exchange, bool)>, error: DeviceError) -> QueueRun
        ensures { result ≡ record { done = done; refused = Some error } }
    {
        QueueRun {
            done,
            refused: Some(error),
        }
    }
}

// A list for `most` exchanges. It allocates nothing for 0.
fn room_for(alloc: Global, most: u16) -> Result<Vec<(Exchange, bool)>, AllocError>
    ensures items { IfOk result (λ done. done.items ≡ []) }
    ensures room { IfOk result (λ done. most ≤ vec_capacity done) }
    ensures none { OnErr result (0 < most) }
{
    if most == 0 {
        Ok(Vec::new(alloc))
    } else {
        Vec::with_capacity(alloc, usize::from(most))
    }
}

ghost use Rattle.fs_device.specs.DeviceView.{state_of};
ghost use Rattle.fs_device.specs.CommandView.{ServesQueue};

impl<F: FileSystem> Device<F> {
    /// Serves the next chains of a queue, by its number from 0, until `most` are done, none is
    /// available, or a step is refused (`QueueRun`). Errors: `NoSuchQueue`; then
    /// `QueueError::OutOfMemory` if the list of `most` exchanges can't be allocated, and then nothing
    /// was done. A stopped queue allocates nothing.
    #[tactic(auto, using(crate::proofs::KickLemmas::room_wanted))]
    pub fn process_queue<M: GuestMemory, H: HostBlocks>(
        &mut self,
        alloc: Global,
        host: &mut H,
        mem: &M,
        queue: usize,
        most: u16,
    ) -> Result<QueueRun, DeviceError>
        requires { M.IsHeld mem.now (H.host host.old) }
        ensures run { ServesQueue F.may (state_of (M.memory mem.now (H.host host.old)) self.old)
            queue most result
            (state_of (M.memory mem.now (H.host host.new)) self.new) }
        ensures shape { shape (H.host host.new) ≡ shape (H.host host.old) }
    {
        if queue >= self.queues.len() {
            return Err(DeviceError::NoSuchQueue);
        }
        if self.queues[queue].is_stopped() && most > 0 {
            let stopped = DeviceError::Queue(QueueError::Stopped);
            return Ok(QueueRun::refused(Vec::new(alloc), stopped));
        }
        let Ok(mut done) = room_for(alloc, most) else {
            return Err(DeviceError::Queue(QueueError::OutOfMemory));
        };
        for _ in 0..most {
            match self.process_one(alloc, host, mem, queue) {
                Ok(Some(exchanged)) => done.push(exchanged).unwrap(),
                Ok(None) => return Ok(QueueRun::ended(done)),
                Err(error) => return Ok(QueueRun::refused(done, error)),
            }
        }
        Ok(QueueRun::ended(done))
    }
}
