//! The handle, which keeps the state of one chain at a time.

ghost use Rattle.std.specs.Prelude.{◌≡◌, ◌≤◌, [], Some, None, IfErr, IfSome, OnOk, OnErr, OnSome, true};
ghost use Rattle.fs_queue.specs.Taking.{all_reach, total_len, access_of, of_direction};
ghost use Rattle.fs_regions.specs.Places.{places_in, untranslated};
ghost use Rattle.fs_regions.specs.Windows.{HasNoWindowFrom, IsWindowFrom};
ghost use Rattle.fs_chain.specs.HoldsAround.{SetsMemoryInRun};
ghost use Rattle.fs_chain.specs.Orders.{is_out, memory_error};
ghost use Rattle.fs_chain.specs.Passing.{HasPassed};
ghost use Rattle.fs_chain.specs.declared.state.ChainState.TheVariants as at;

use crate::error::ChainError;
use crate::state::ChainState;
use crate::window_cursor::WindowCursor;
use fs_queue::{Descriptor, Descriptors, MOST_LIMIT};
use fs_regions::{GuestMap, window_from};
use server_meanings::MAX_REQUEST_LEN;
use server_phases::Session;
use std::alloc::Global;
use vm_bitmaps::PAGE_SIZE;
use vm_memory_core::VolatileSlice;

/// A handle for one chain at a time, from the pop that finds it to the push that returns it. It keeps the
/// session in which its chain was decoded, and the number with which an answer names that chain. If the
/// caller makes a load in parts, it also keeps the first bytes of that load.
#[derive(Drop)]
pub struct ChainHandle {
    pub(crate) alloc: Global,
    pub(crate) regions: GuestMap,
    pub(crate) limit: u32,
    pub(crate) descriptors: Descriptors,
    pub(crate) state: ChainState,
    pub(crate) part: Vec<u8>,
    pub(crate) session: Session,
    /// The number of its chain: an answer has to have it.
    pub(crate) ticket: u32,
    /// The length of the list that has the entries of a listing; 0 if it has none.
    pub(crate) list_len: usize,
}

impl ChainHandle {
    /// A handle over no memory.
    pub fn new(alloc: Global) -> ChainHandle
        ensures regions { result.regions ≡ untranslated [] }
        ensures limit { result.limit ≡ 0x101000 }
        ensures descriptors { result.descriptors.items ≡ [] }
        ensures state { result.state ≡ at.Free }
        ensures part { result.part.items ≡ [] }
        ensures session { (result.session.page_size ≡ 4096) × (result.session.options.0 ≡ 0) }
        ensures ticket { result.ticket ≡ 1 }
        ensures list { result.list_len ≡ 0 }
    {
        ChainHandle {
            alloc,
            regions: GuestMap::none(alloc),
            limit: MAX_REQUEST_LEN,
            descriptors: Descriptors::new(alloc),
            state: ChainState::Free,
            part: Vec::new(alloc),
            session: Session::new(PAGE_SIZE as u32),
            ticket: 1,
            list_len: 0,
        }
    }

    /// Sets the memory of the next pops, and the greatest length of a request and of a reply buffer, in
    /// bytes. `ChainInFlight` unless the handle is free; `BadArgument` for a limit below 0x101000 or above
    /// 2^31.
    pub fn set_memory(&mut self, regions: GuestMap, limit: u32) -> Result<(), ChainError>
        ensures error { IfErr result (λ e. memory_error self.old.state limit ≡ Some e) }
        ensures ok { OnOk result (memory_error self.old.state limit ≡ None) }
        ensures same { OnErr result (self.new ≡ self.old) }
        ensures set { OnOk result ((self.new.regions ≡ regions)
            × (self.new.limit ≡ limit)
            × (self.new.state ≡ self.old.state)
            × (self.new.part ≡ self.old.part)
            × (self.new.session ≡ self.old.session)
            × (self.new.ticket ≡ self.old.ticket)
            × (self.new.list_len ≡ self.old.list_len)) }
        ensures step { OnOk result (SetsMemoryInRun self.new regions limit) }
    {
        match self.state {
            ChainState::Free => self.take_memory(regions, limit),
            _ => Err(ChainError::ChainInFlight),
        }
    }

    // Sets both in a free handle.
    fn take_memory(&mut self, regions: GuestMap, limit: u32) -> Result<(), ChainError>
        ensures error { IfErr result (λ e. memory_error at.Free limit ≡ Some e) }
        ensures ok { OnOk result (memory_error at.Free limit ≡ None) }
        ensures same { OnErr result (self.new ≡ self.old) }
        ensures set { OnOk result ((self.new.regions ≡ regions)
            × (self.new.limit ≡ limit)
            × (self.new.state ≡ self.old.state)
            × (self.new.part ≡ self.old.part)
            × (self.new.session ≡ self.old.session)
            × (self.new.ticket ≡ self.old.ticket)
            × (self.new.list_len ≡ self.old.list_len)) }
    {
        if limit < MAX_REQUEST_LEN || MOST_LIMIT < limit {
            return Err(ChainError::BadArgument);
        }
        self.regions = regions;
        self.limit = limit;
        Ok(())
    }

    /// Whether a chain is in flight.
    pub fn is_out(&self) -> bool
        ensures { result ≡ is_out self.now.state }
    {
        !matches!(self.state, ChainState::Free | ChainState::Popping(_, _, _))
    }

    /// The longest window of one direction of a chain, from byte `from` on. The cursor passes the
    /// descriptors before that byte, so the windows of a whole chain take time for its descriptors once.
    /// None past the end of the direction's bytes, or if byte `from` isn't mapped or its address exceeds 64
    /// bits, or if no chain is in flight.
    pub fn next_window(
        &self,
        write_only: bool,
        from: u64,
        passed: &mut WindowCursor,
    ) -> Option<VolatileSlice>
        requires passed { HasPassed write_only self.now.descriptors.items passed.old }
        ensures passed { HasPassed write_only self.now.descriptors.items passed.new }
        ensures some { IfSome result
            (IsWindowFrom self.now.regions write_only self.now.descriptors.items from) }
        ensures out { OnSome result (is_out self.now.state ≡ true) }
        ensures none { result ≡ None
            → is_out self.now.state ≡ true
            → all_reach (places_in self.now.regions) (access_of write_only)
            (of_direction write_only self.now.descriptors.items) ≡ true
            → total_len (of_direction write_only self.now.descriptors.items) ≤ from }
        ensures unmapped { result ≡ None
            → is_out self.now.state ≡ true
            → HasNoWindowFrom self.now.regions write_only self.now.descriptors.items from }
    {
        if !self.is_out() {
            return None;
        }
        let descriptors: &[Descriptor] = &self.descriptors;
        passed.pass_to(descriptors, write_only, from);
        let left = passed.left(descriptors);
        window_from(&self.regions, left, write_only, from - passed.bytes)
    }

    /// The longest window of one direction of a chain, the request or the reply buffer, from byte `from` on;
    /// none past its end, or if that byte isn't mapped, or if no chain is in flight.
    pub fn window(&self, write_only: bool, from: u64) -> Option<VolatileSlice>
        ensures some { IfSome result
            (IsWindowFrom self.now.regions write_only self.now.descriptors.items from) }
        ensures out { OnSome result (is_out self.now.state ≡ true) }
        ensures none { result ≡ None
            → is_out self.now.state ≡ true
            → all_reach (places_in self.now.regions) (access_of write_only)
            (of_direction write_only self.now.descriptors.items) ≡ true
            → total_len (of_direction write_only self.now.descriptors.items) ≤ from }
        ensures unmapped { result ≡ None
            → is_out self.now.state ≡ true
            → HasNoWindowFrom self.now.regions write_only self.now.descriptors.items from }
    {
        if !self.is_out() {
            return None;
        }
        window_from(&self.regions, &self.descriptors, write_only, from)
    }
}
