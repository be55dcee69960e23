//! Queries of a handle: allowed at any time, and they change nothing.

ghost use Rattle.std.specs.Prelude.{◌≡◌, ◌<◌, ◌≤◌, IfSome, OnSome, None, true};
ghost use Rattle.vm_memory.specs.Memory.{location};
ghost use Rattle.fs_queue.specs.Taking.{total_len, of_direction};
ghost use Rattle.fs_regions.specs.Places.{left_in, places_in};
ghost use Rattle.fs_regions.specs.Windows.{IsRangeFrom, LiesApart, LiesAt};
ghost use Rattle.fs_chain.specs.Numbers.{state_number};
ghost use Rattle.fs_chain.specs.Orders.{is_free, is_listing, is_out, load_len, memory_error, read_limit};
ghost use Rattle.fs_chain.specs.Orders.{room_len};

use crate::chain_handle::ChainHandle;
use crate::error::ChainError;
use crate::state::ChainState;
use fs_queue::MOST_LIMIT;
use fs_regions::range_from;
use server_meanings::MAX_REQUEST_LEN;
use server_phases::{Awaits, Session};
use vm_memory_core::Permissions;

impl ChainHandle {
    /// The place of `len` bytes from a guest address on: the number of the block, and the offset there,
    /// added. None if they aren't mapped for an access in one piece.
    #[inline(always)]
    pub fn place_at(&self, addr: u64, len: usize, access: Permissions) -> Option<usize>
        requires { 0 < len }
        ensures some { IfSome result (LiesAt (location (places_in self.now.regions) access) addr len
            (left_in (places_in self.now.regions) addr)) }
        ensures none { result ≡ None → LiesApart (location (places_in self.now.regions) access) addr len
            (left_in (places_in self.now.regions) addr) }
    {
        self.regions.place_at(addr, len, access)
    }

    /// Whether no chain is being popped, and none is in flight.
    pub fn is_free(&self) -> bool
        ensures { result ≡ is_free self.now.state }
    {
        matches!(self.state, ChainState::Free)
    }

    /// The number of the chain's state, 1 to 7: free, being popped, popped, its call in flight, its
    /// listing in flight, its reply known, being pushed.
    pub fn state_number(&self) -> u8
        ensures { result ≡ state_number self.now.state }
    {
        match &self.state {
            ChainState::Free => 1,
            ChainState::Popping(_, _, _) => 2,
            ChainState::Popped(_) => 3,
            ChainState::Decoded(_, _) => 4,
            ChainState::Listing(_, _) => 5,
            ChainState::Replied(_, _) => 6,
            ChainState::Pushing(_) => 7,
        }
    }

    /// The greatest length of a request and of a reply buffer, in bytes.
    pub fn limit(&self) -> u32
        ensures { result ≡ self.now.limit }
    {
        self.limit
    }

    /// Why `set_memory` doesn't set this limit, with any memory.
    pub fn memory_refusal(&self, limit: u32) -> Option<ChainError>
        ensures { result ≡ memory_error self.now.state limit }
    {
        match &self.state {
            ChainState::Free => {
                if limit < MAX_REQUEST_LEN || MOST_LIMIT < limit {
                    return Some(ChainError::BadArgument);
                }
                None
            }
            _ => Some(ChainError::ChainInFlight),
        }
    }

    /// The session in which the chain was decoded.
    pub fn session(&self) -> &Session
        ensures { result.now ≡ self.now.session }
    {
        &self.session
    }

    /// Whether the chain's call is a listing that the caller answers entry by entry.
    pub fn is_listing(&self) -> bool
        ensures { result ≡ is_listing self.now.state }
    {
        matches!(self.state, ChainState::Listing(_, _))
    }

    /// How many bytes of data the READ in flight can be answered with; None if no READ is in flight.
    pub fn read_limit(&self) -> Option<usize>
        ensures { result ≡ read_limit self.now.state }
    {
        match &self.state {
            ChainState::Decoded(_, waiting) => match waiting.awaits() {
                Awaits::FileBytes { most } => Some(most),
                _ => None,
            },
            _ => None,
        }
    }

    /// How many bytes of a load the pop asks for; 0 if it asks for none.
    pub fn load_len(&self) -> usize
        ensures { result ≡ load_len self.now.state }
    {
        match &self.state {
            ChainState::Popping(_, _, walk) => walk.len(),
            _ => 0,
        }
    }

    /// The length of the chain's reply buffer in bytes; 0 if no chain is in flight.
    pub fn room_len(&self) -> usize
        ensures { result ≡ room_len self.now.state }
    {
        match &self.state {
            ChainState::Popped(out)
            | ChainState::Decoded(out, _)
            | ChainState::Listing(out, _)
            | ChainState::Replied(out, _)
            | ChainState::Pushing(out) => out.room_len,
            ChainState::Free | ChainState::Popping(_, _, _) => 0,
        }
    }

    /// The guest addresses of the reply buffer's bytes from byte `from` on, up to the end of their
    /// descriptor: the first address, modulo 2^64, and their number. None past their end, or if no chain
    /// is in flight.
    pub fn room_range(&self, from: u64) -> Option<(u64, u64)>
        ensures some { IfSome result (λ r. IsRangeFrom true self.now.descriptors.items from r.0 r.1) }
        ensures out { OnSome result (is_out self.now.state ≡ true) }
        ensures none { result ≡ None
            → is_out self.now.state ≡ true
            → total_len (of_direction true self.now.descriptors.items) ≤ from }
    {
        if !self.is_out() {
            return None;
        }
        range_from(&self.descriptors, true, from)
    }
}
