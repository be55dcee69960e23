//! A chain that was popped from a queue.

ghost use Rattle.std.specs.Prelude.{◌≡◌, ◌<◌, ◌^◌, [], length, MatchResult};
ghost use Rattle.vm_memory_core.specs.Window.{places};

use crate::descriptor::Descriptors;
use crate::fault::ChainFault;
use std::alloc::Global;
use std::marker::Model;
use vm_memory_core::Windows;

/// A chain (VIRTIO 1.2, 2.7.5): the windows of its request, which the device reads, and of the room for
/// its reply, which the device writes. Each has the order of the descriptors, also if readable and
/// writable ones are mixed.
#[derive(Drop)]
pub struct Chain {
    /// The index of its first descriptor in the queue's table.
    pub head: u16,
    /// The windows of the request's bytes.
    pub readable: Windows,
    /// The windows of the room, for the reply's bytes.
    pub writable: Windows,
    pub(crate) request_len: usize,
    pub(crate) room_len: usize,
    pub ghost request_counted: { request_len ≡ length (places readable.items) },
    pub ghost room_counted: { room_len ≡ length (places writable.items) },
    pub ghost short: { length (places writable.items) < 2 ^ 32 },
}

impl Chain {
    /// A chain without windows. It allocates nothing.
    pub fn empty(alloc: Global) -> Chain
        ensures readable { result.readable.items ≡ [] }
        ensures writable { result.writable.items ≡ [] }
    {
        Chain {
            head: 0,
            readable: Windows::new(alloc),
            writable: Windows::new(alloc),
            request_len: 0,
            room_len: 0,
        }
    }

    // Removes the windows. The lists keep their memory.
    #[inline(always)]
    pub(crate) fn clear(&mut self)
        ensures readable { self.new.readable.items ≡ [] }
        ensures writable { self.new.writable.items ≡ [] }
    {
        self.readable.clear();
        self.writable.clear();
        self.request_len = 0;
        self.room_len = 0;
    }

    /// The number of bytes in the request.
    pub fn request_len(&self) -> usize
        ensures { result ≡ length (places self.now.readable.items) }
    {
        self.request_len
    }

    /// The number of bytes in the room: the greatest length of a reply.
    pub fn room_len(&self) -> usize
        ensures { result ≡ length (places self.now.writable.items) }
    {
        self.room_len
    }
}

/// The windows of a return: of a used element, 8 bytes, and then the used index, 2 bytes; and of the
/// available flags, 2 bytes. Almost always there is one window each.
#[derive(Drop)]
pub struct ReturnWindows {
    /// The windows of the used element and then the used index, which a return writes.
    pub used: Windows,
    /// The windows of the available flags, which a return reads.
    pub flags: Windows,
}

impl ReturnWindows {
    /// No windows. It allocates nothing.
    pub fn empty(alloc: Global) -> ReturnWindows
        ensures used { result.used.items ≡ [] }
        ensures flags { result.flags.items ≡ [] }
    {
        ReturnWindows {
            used: Windows::new(alloc),
            flags: Windows::new(alloc),
        }
    }

    // Removes the windows. The lists keep their memory.
    #[inline(always)]
    pub(crate) fn clear(&mut self)
        ensures used { self.new.used.items ≡ [] }
        ensures flags { self.new.flags.items ≡ [] }
    {
        self.used.clear();
        self.flags.clear();
    }
}

/// A chain that was popped and not yet returned, or its fault, with the windows of its return and its
/// descriptors. The caller makes one `Taken` and pops one chain after another into it. Its lists keep
/// the memory that they grew to, also if a chain is faulty.
#[derive(Drop)]
pub struct Taken {
    pub(crate) head: u16,
    pub(crate) fault: Option<ChainFault>,
    pub(crate) chain: Chain,
    pub(crate) return_windows: ReturnWindows,
    pub(crate) descriptors: Descriptors,
}

impl Model for Taken {
    ghost use Rattle.fs_queue.specs.Windows.{Taken, unless_faulty};

    ghost Value = { Taken };

    ghost view = { λ t.
        record { head = t.head; chain = unless_faulty t.fault t.chain; return_windows = t.return_windows } };
}

impl Taken {
    ghost use Rattle.fs_queue.specs.Windows.{IsEmpty};

    /// A `Taken` into which nothing was popped: it has no windows of a chain or of a return. It
    /// allocates nothing.
    pub fn empty(alloc: Global) -> Taken
        ensures { IsEmpty result }
    {
        Taken {
            head: 0,
            fault: None,
            chain: Chain::empty(alloc),
            return_windows: ReturnWindows::empty(alloc),
            descriptors: Descriptors::new(alloc),
        }
    }

    // Removes all windows, so that nothing can be returned, read or written by it. The lists keep their
    // memory.
    #[inline(always)]
    pub(crate) fn clear(&mut self)
        ensures { IsEmpty self.new }
    {
        self.return_windows.clear();
        self.fault = None;
        self.chain.clear();
    }

    /// The chain's head: its first descriptor's index in the queue's table.
    pub fn head(&self) -> u16
        ensures { result ≡ self.now.head }
    {
        self.head
    }

    /// The chain, or the `ChainFault` of its walk, its request or its room (VIRTIO 1.2, 2.7.5).
    pub fn chain(&self) -> Result<&Chain, ChainFault>
        ensures { MatchResult result (λ c. self.now.chain ≡ Ok c.now) (λ fault. self.now.chain ≡ Err fault) }
    {
        match self.fault {
            None => Ok(&self.chain),
            Some(fault) => Err(fault),
        }
    }
}
