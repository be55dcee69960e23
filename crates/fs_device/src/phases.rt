//! The phases of a step: a chain is taken, its request is copied (`FetchedRequest`) and answered, and
//! the chain is returned. `process_one` and `serve_one` use the functions behind these. They are for a
//! VMM that does something of its own between the phases.

ghost use Rattle.std.specs.Prelude.{◌≡◌, ◌<◌, ◌≤◌, length, slice_get, Some, IfOk, OnErr};
ghost use Rattle.vm_memory_core.specs.Host.{changed_at, lengths, shape};
ghost use Rattle.vm_memory.specs.Memory.{Memory};
ghost use Rattle.fs_queue.specs.Queue.{Queue};
ghost use Rattle.fs_queue.specs.Returning.{advanced};
ghost use Rattle.fs_queue.specs.ReturningView.{put_back, notifies_by};
ghost use Rattle.fs_queue.specs.Windows.{HasItsWindows, IsEmpty, TakenLiesIn, room_places};
ghost use Rattle.fs_device.specs.DeviceView.{exchange_of, state_of};
ghost use Rattle.fs_device.specs.Phases.{IsReturned, IfTaken, IsEmptyUnlessDeviceTook, IsTakenFrom};
ghost use Rattle.fs_device.specs.Phases.{MayLackToAnswer, ServesBytes, ServesTaken, TakesOrEnds, TakesFrom};

use crate::answer_by_copy::serve;
use crate::device::Device;
use crate::exchange::Exchange;
use crate::fetched_request::FetchedRequest;
use fs_queue::{Queue, Taken};
use fuse_fs::FileSystem;
use plain_machine::DeviceError;
use std::alloc::{AllocError, Global};
use vm_memory::GuestMemory;
use vm_memory_core::HostBlocks;

impl<F: FileSystem> Device<F> {
    // Takes the next chain of a device's queue. `taken` is empty unless a chain was taken.
    #[inline(always)]
    pub(crate) fn take_from<M: GuestMemory, H: HostBlocks>(
        alloc: Global,
        host: &H,
        mem: &M,
        limit: u32,
        queues: &mut Vec<Queue>,
        queue: usize,
        taken: &mut Taken,
    ) -> Result<bool, DeviceError>
        requires { M.IsHeld mem.now (H.host host.now) }
        ensures takes { TakesFrom F.may (M.memory mem.now (H.host host.now)) limit queues.old.items queue
            taken.new result queues.new.items }
        ensures lies { IfTaken (TakenLiesIn (lengths (H.host host.now))) taken.new result }
        ensures windows { (q : Queue)
            → slice_get queues.old.items queue ≡ Some q
            → IfTaken (HasItsWindows (M.memory mem.now (H.host host.now)) q) taken.new result }
        ensures there { IfTaken (λ t. queue < length queues.new.items) taken.new result }
        ensures count { length queues.new.items ≡ length queues.old.items }
        ensures empty { IsEmptyUnlessDeviceTook result taken.new }
    {
        if queue >= queues.len() {
            *taken = Taken::empty(alloc);
            return Err(DeviceError::NoSuchQueue);
        }
        match queues[queue].take(alloc, host, mem, limit, taken) {
            Ok(waits) => Ok(waits),
            Err(error) => Err(DeviceError::Queue(error)),
        }
    }

    /// Takes the next chain of a queue, by its number from 0, into `taken`, which the caller can use
    /// for all chains. False if no chain is available; `taken` is empty then, as after an error. No
    /// file call is made. Errors: `NoSuchQueue`, `QueueError`. `NoSuchQueue`, `OutOfMemory` and
    /// `Stopped` leave the device as it was; any other stops the queue. A chain that was taken stays
    /// available until `give_back`.
    #[inline(always)]
    pub fn take<M: GuestMemory, H: HostBlocks>(
        &mut self,
        alloc: Global,
        host: &H,
        mem: &M,
        queue: usize,
        taken: &mut Taken,
    ) -> Result<bool, DeviceError>
        requires { M.IsHeld mem.now (H.host host.now) }
        ensures takes { TakesOrEnds F.may (state_of (M.memory mem.now (H.host host.now)) self.old) queue
            taken.new result
            (state_of (M.memory mem.now (H.host host.now)) self.new) }
        ensures lies { IfTaken (TakenLiesIn (lengths (H.host host.now))) taken.new result }
        ensures windows { (q : Queue)
            → slice_get self.old.queues queue ≡ Some q
            → IfTaken (HasItsWindows (M.memory mem.now (H.host host.now)) q) taken.new result }
        ensures there { IfTaken (λ t. queue < length self.new.queues) taken.new result }
        ensures empty { IsEmptyUnlessDeviceTook result taken.new }
    {
        Self::take_from(alloc, host, mem, self.limit, &mut self.queues, queue, taken)
    }

    /// The server answers a chain that was taken, by its request. AllocError if an allocation fails
    /// before the first file call, never for a faulty chain; then nothing changed.
    #[inline(always)]
    pub fn answer(
        &mut self,
        alloc: Global,
        taken: &Taken,
        request: FetchedRequest,
    ) -> Result<Exchange, AllocError>
        requires room { request.room.free ≡ room_places taken.now.chain }
        ensures answers { IfOk result (λ x. ServesTaken F.may self.old.page_size
            (self.old.options, self.old.files) taken.now request.bytes.items
            (exchange_of x) (self.new.options, self.new.files)) }
        ensures bytes { IfOk result (λ x. ServesBytes F.may self.old.page_size
            (self.old.options, self.old.files) taken.now (room_places taken.now.chain) request.bytes.items
            (exchange_of x) (self.new.options, self.new.files)) }
        ensures fits { IfOk result (λ x. length x.reply.items ≤ room_places taken.now.chain) }
        ensures lacks { OnErr result (self.new ≡ self.old) }
        ensures memory { OnErr result (MayLackToAnswer self.old.options taken.now request.bytes.items) }
        ensures same { self.new ≡ record self.old { options = self.new.options; files = self.new.files } }
    {
        serve(alloc, &mut self.server, taken, request)
    }

    /// Returns a taken chain to its queue, with a reply (VIRTIO 1.2, 2.7.8). The result is
    /// whether to notify the driver (2.7.7). `taken` is empty then, and the queue's position is one
    /// further. This also holds if the queue was stopped or the guest wrote since the chain was taken.
    /// The chain must be of this queue, and the queue not reset since: else the reply is stored where
    /// the chain was taken, and both rings are wrong.
    #[inline(always)]
    pub fn give_back<H: HostBlocks>(
        &mut self,
        host: &mut H,
        queue: usize,
        taken: &mut Taken,
        reply: &[u8],
    ) -> bool
        requires lies { TakenLiesIn (lengths (H.host host.old)) taken.old }
        requires there { queue < length self.old.queues }
        requires fits { length reply.now ≤ room_places taken.old.chain }
        ensures returns { (m : Memory) (has : IsTakenFrom m self.old.queues queue taken.old)
            → m.host ≡ H.host host.old
            →
            IsReturned (state_of m self.old) queue taken.old has reply.now result
            (state_of (record m { host = H.host host.new }) self.new) }
        ensures puts { (q : Queue) → slice_get self.old.queues queue ≡ Some q →
            H.host host.new ≡ put_back (H.host host.old) q taken.old reply.now (length reply.now) }
        ensures reports { result ≡ notifies_by (H.host host.new) taken.old }
        ensures empty { IsEmpty taken.new }
        ensures count { length self.new.queues ≡ length self.old.queues }
        ensures queues { self.new ≡ record self.old { queues = changed_at self.old.queues queue advanced } }
        ensures shape { shape (H.host host.new) ≡ shape (H.host host.old) }
    {
        self.queues[queue].give_back(host, taken, reply)
    }
}
