//! A split virtqueue (VIRTIO 1.2, 2.7).

ghost use Rattle.std.specs.Prelude.{◌≡◌, ℕ, ◌<◌, ◌≤◌, ◌^◌, List, length, IfOk, IfSome};
ghost use Rattle.std.specs.List.{zip};
ghost use Rattle.vm_memory_core.specs.Host.{lengths, shape};
ghost use Rattle.vm_memory_core.specs.Window.{put_all};
ghost use Rattle.vm_memory.specs.Memory.{Memory};

use crate::by_loads::walk_ring;
use crate::chain::Taken;
use crate::fault::QueueError;
use crate::layout::QueueLayout;
use crate::returning::Return;
use crate::take::take_into;
use crate::walk::Walk;
use std::alloc::Global;
use std::marker::Model;
use vm_memory::GuestMemory;
use vm_memory_core::HostBlocks;

/// A split virtqueue from the device's side: its layout, its position, and whether it is stopped. The
/// position counts the chains that were returned, modulo 2^16: the caller returns each before it takes
/// the next.
#[derive(Debug, Drop)]
pub struct Queue {
    layout: QueueLayout,
    position: u16,
    stopped: bool,
}

impl Model for Queue {
    ghost use Rattle.fs_queue.specs.Queue.{Queue};

    ghost Value = { Queue };

    ghost view = { λ q. record {
      size = q.layout.size;
      desc = q.layout.desc;
      avail = q.layout.avail;
      used = q.layout.used;
      position = q.position;
      stopped = q.stopped;
    } };
}

ghost use Rattle.fs_queue.specs.Queue.{fresh, resumed};
ghost use Rattle.fs_queue.specs.RingingView.{BeginsWalk};
ghost use Rattle.fs_queue.specs.Taking.{RequestAndRoom, after_refusal, is_idle, offer, room_of};
ghost use Rattle.fs_queue.specs.Returning.{returned, stores_after_reply, wants_notice, advanced};
ghost use Rattle.fs_queue.specs.Returning.{PutFrontLast};
ghost use Rattle.fs_queue.specs.ReturningView.{stores_of, put_back, notifies_by};
ghost use Rattle.fs_queue.specs.Windows.{Takes, after_taking, taken_if, IsTaken, TakenLiesIn, ChainLiesIn};
ghost use Rattle.fs_queue.specs.Windows.{room_places, chain_places, HasItsWindows};
ghost use Rattle.fs_queue.specs.Windows.{IsEmpty, IsEmptyUnlessTaken};

// Writes a reply into the room of a chain.
#[tactic(auto, unfolding(vm_memory_core::specs::Window::put_all))]
#[inline(always)]
fn write_reply<H: HostBlocks>(host: &mut H, taken: &Taken, reply: &[u8])
    requires lies { ChainLiesIn (lengths (H.host host.old)) taken.now.chain }
    requires fits { length reply.now ≤ room_places taken.now.chain }
    ensures stored { H.host host.new
        ≡ put_all (H.host host.old) (zip (chain_places taken.now.chain) reply.now) }
    ensures shape { shape (H.host host.new) ≡ shape (H.host host.old) }
{
    match taken.chain() {
        Ok(chain) => host.write_windows(&chain.writable, reply),
        Err(_) => {}
    }
}

impl Queue {
    /// A new queue with this layout: its position is 0, and it isn't stopped.
    pub fn new(layout: QueueLayout) -> Queue
        ensures { result ≡ fresh layout.size layout.desc layout.avail layout.used }
    {
        Queue {
            layout,
            position: 0,
            stopped: false,
        }
    }

    /// A queue with this layout at this position, stopped or not.
    pub fn resume(layout: QueueLayout, position: u16, stopped: bool) -> Queue
        ensures { result ≡ resumed layout.size layout.desc layout.avail layout.used position stopped }
    {
        Queue {
            layout,
            position,
            stopped,
        }
    }

    /// Resets the queue with a layout: its position is 0, and it isn't stopped.
    pub fn reset(&mut self, layout: QueueLayout)
        ensures { self.new ≡ fresh layout.size layout.desc layout.avail layout.used }
    {
        *self = Queue::new(layout);
    }

    /// The queue's size and the guest addresses of its parts.
    pub fn layout(&self) -> QueueLayout
        ensures size { result.size ≡ self.now.size }
        ensures desc { result.desc ≡ self.now.desc }
        ensures avail { result.avail ≡ self.now.avail }
        ensures used { result.used ≡ self.now.used }
    {
        self.layout
    }

    /// The number of chains that were returned, modulo 2^16.
    pub fn position(&self) -> u16
        ensures { result ≡ self.now.position }
    {
        self.position
    }

    /// Whether a refusal stopped the queue.
    pub fn is_stopped(&self) -> bool
        ensures { result ≡ self.now.stopped }
    {
        self.stopped
    }

    /// The walk at the queue's position, by loads that the caller makes: it asks for the available index
    /// first. A stopped queue refuses: `Stopped`.
    pub fn begin_walk(&self) -> Walk
        ensures { BeginsWalk self.now result }
    {
        if self.stopped {
            Walk::Refused(QueueError::Stopped)
        } else {
            Walk::begin(self.layout, self.position)
        }
    }

    /// Stops the queue because of a walk's refusal, unless that is `Stopped` or `OutOfMemory`.
    pub fn refuse(&mut self, error: QueueError)
        ensures { self.new ≡ after_refusal self.old error }
    {
        if error.stops_queue() {
            self.stopped = true;
        }
    }

    /// The return of the chain with this head at the queue's position; the reply has `len` bytes.
    pub fn begin_return(&self, head: u16, len: u32) -> Return
        ensures stores { stores_of result ≡ stores_after_reply self.now head len }
        ensures flags { result.flags ≡ self.now.avail }
    {
        Return::new(self.layout, self.position, head, len)
    }

    /// Ends a return whose stores were made: adds 1 to the position, modulo 2^16.
    pub fn advance(&mut self)
        ensures { self.new ≡ advanced self.old }
    {
        self.position = self.position.wrapping_add(1);
    }

    /// Whether no chain is available, the queue isn't stopped, and no refusal applies. It changes
    /// nothing, and a failed allocation hides nothing.
    pub fn is_idle<M: GuestMemory, H: HostBlocks>(&self, alloc: Global, host: &H, mem: &M) -> bool
        requires { M.IsHeld mem.now (H.host host.now) }
        ensures { (limit : ℕ) → result ≡ is_idle (offer (M.memory mem.now (H.host host.now)) limit self.now) }
    {
        if self.stopped {
            return false;
        }
        matches!(
            walk_ring(alloc, self.layout, self.position, host, mem),
            Walk::Idle
        )
    }

    /// Pops the chain at the queue's position into `taken`, with its windows (VIRTIO 1.2, 2.7.13 from
    /// the device's side). False if no chain is available. Unless a chain was popped, `taken` is empty:
    /// it has no windows, and its head has no meaning. The position doesn't change until `give_back`. A
    /// chain whose request or room has more than `limit` bytes is faulty. Errors, in this order:
    /// - `Stopped`, `AvailIndexUnreachable`,
    /// - if the index shows a chain: `AvailTooFar`, `RingEntryUnreachable`, `HeadOutOfTable`,
    ///   `UsedUnreachable`, `AvailFlagsUnreachable`, `DescriptorUnreachable`,
    /// - `OutOfMemory` if an allocation failed. Each but `Stopped` and `OutOfMemory` stops the queue.
    #[inline(always)]
    pub fn take<M: GuestMemory, H: HostBlocks>(
        &mut self,
        alloc: Global,
        host: &H,
        mem: &M,
        limit: u32,
        taken: &mut Taken,
    ) -> Result<bool, QueueError>
        requires { M.IsHeld mem.now (H.host host.now) }
        ensures takes { Takes (M.memory mem.now (H.host host.now)) limit self.old
            (taken_if taken.new result) }
        ensures windows { IfOk (taken_if taken.new result)
            (λ o. IfSome o (HasItsWindows (M.memory mem.now (H.host host.now)) self.old)) }
        ensures queue { self.new ≡ after_taking self.old (taken_if taken.new result) }
        ensures lie { IfOk (taken_if taken.new result)
            (λ o. IfSome o (TakenLiesIn (lengths (H.host host.now)))) }
        ensures short { IfOk (taken_if taken.new result) (λ o. IfSome o (λ t. room_places t.chain ≤ limit)) }
        ensures empty { IsEmptyUnlessTaken result taken.new }
    {
        taken.clear();
        if self.stopped {
            return Err(QueueError::Stopped);
        }
        match take_into(alloc, self.layout, self.position, host, mem, limit, taken) {
            Ok(waits) => Ok(waits),
            Err(error) => {
                self.refuse(error);
                taken.clear();
                Err(error)
            }
        }
    }

    /// Returns a chain (VIRTIO 1.2, 2.7.8). It writes the reply into the room, then the used element
    /// (le32 head, le32 length of the reply in bytes), then the le16 used index. True if the driver asks
    /// for a used buffer notification: bit 0 of the available flags, read last, is clear (2.7.7). The
    /// caller popped the chain at this position. The reply is no longer than its room, which is empty
    /// for a fault. After the call `taken` is empty, so nothing can be read, written or returned by it.
    /// Bytes change only at the places of its windows, for any chain and after any change since the pop.
    #[inline(always)]
    pub fn give_back<H: HostBlocks>(
        &mut self,
        host: &mut H,
        taken: &mut Taken,
        reply: &[u8],
    ) -> bool
        requires lies { TakenLiesIn (lengths (H.host host.old)) taken.old }
        requires fits { length reply.now ≤ room_places taken.old.chain }
        ensures stored { (m : Memory) (fetched : RequestAndRoom)
            → m.host ≡ H.host host.old
            → IsTaken m self.old fetched taken.old
            →
            record m { host = H.host host.new }
            ≡ returned m self.old taken.old.head (room_of fetched) reply.now }
        ensures wanted { (m : Memory) (fetched : RequestAndRoom)
            → m.host ≡ H.host host.old
            → IsTaken m self.old fetched taken.old
            →
            result ≡ wants_notice (record m { host = H.host host.new }) self.old }
        ensures puts { H.host host.new
            ≡ put_back (H.host host.old) self.old taken.old reply.now (length reply.now) }
        ensures notifies { result ≡ notifies_by (H.host host.new) taken.old }
        ensures empty { IsEmpty taken.new }
        ensures queue { self.new ≡ advanced self.old }
        ensures shape { shape (H.host host.new) ≡ shape (H.host host.old) }
    {
        self.give_back_front(host, taken, reply, reply.len())
    }

    /// The same for a reply of `len` bytes that is in the room already but for `front`, its first bytes.
    /// These are written at the room's first places. The host is then the one from which the chain was
    /// popped, with the whole reply stored.
    #[inline(always)]
    pub fn give_back_front<H: HostBlocks>(
        &mut self,
        host: &mut H,
        taken: &mut Taken,
        front: &[u8],
        len: usize,
    ) -> bool
        requires lies { TakenLiesIn (lengths (H.host host.old)) taken.old }
        requires fits { length front.now ≤ room_places taken.old.chain }
        requires room { len ≤ room_places taken.old.chain }
        ensures stored { (m : Memory) (fetched : RequestAndRoom) (reply : List ℕ)
            →
            PutFrontLast m.host (H.host host.old) (chain_places taken.old.chain) front.now reply
            → length reply ≡ len
            →
            IsTaken m self.old fetched taken.old
            →
            record m { host = H.host host.new } ≡ returned m self.old taken.old.head (room_of fetched) reply }
        ensures wanted { (m : Memory) (fetched : RequestAndRoom) (reply : List ℕ)
            →
            PutFrontLast m.host (H.host host.old) (chain_places taken.old.chain) front.now reply
            → IsTaken m self.old fetched taken.old
            →
            result ≡ wants_notice (record m { host = H.host host.new }) self.old }
        ensures puts { H.host host.new ≡ put_back (H.host host.old) self.old taken.old front.now len }
        ensures notifies { result ≡ notifies_by (H.host host.new) taken.old }
        ensures empty { IsEmpty taken.new }
        ensures queue { self.new ≡ advanced self.old }
        ensures shape { shape (H.host host.new) ≡ shape (H.host host.old) }
    {
        write_reply(host, taken, front);
        let back = Return::new(self.layout, self.position, taken.head(), len as u32);
        self.advance();
        host.write_windows(taken.used_windows(), &back.used_bytes());
        let mut flags = [0u8; 2];
        host.read_windows(taken.flags_windows(), &mut flags);
        taken.clear();
        Return::notifies(flags)
    }
}
