//! A pop continues with the bytes of its load; and the windows of these bytes.

ghost use Rattle.std.specs.Prelude.{◌≡◌, ◌⊎◌, ◌<◌, ◌≤◌, ◌+◌, ◌-◌, Some, None, IfErr, IfOk, OnOk, OnErr};
ghost use Rattle.std.specs.Prelude.{IfSome, OnSome, length, min};
ghost use Rattle.smallvec.specs.SmallVec.{HasRoomFor};
ghost use Rattle.vm_iotlb.specs.declared.permissions.Permissions.TheVariants.{Read};
ghost use Rattle.vm_memory.specs.Memory.{location};
ghost use Rattle.vm_memory.specs.Slices.{IsWindowAt};
ghost use Rattle.fs_regions.specs.Places.{left_in, places_in};
ghost use Rattle.fs_regions.specs.Walks.{asked_by, asked_len};
ghost use Rattle.fs_chain.specs.Orders.{begin_error, give_error, walk_error, entries_asked, IfPopping};
ghost use Rattle.fs_chain.specs.Orders.{IsPopping};
ghost use Rattle.fs_chain.specs.Walks.{LacksRoom, WalksOn, IsAllBut};

use crate::chain_handle::ChainHandle;
use crate::error::ChainError;
use crate::popping::PopOutcome;
use crate::queue::QueueState;
use crate::state::{ChainState, PopId};
use fs_queue::{QueueError, Walk};
use fs_regions::{Course, CourseStep, GuestMap, QueueWalk};
use memory_requests::reserve_small;
use std::mem;
use vm_memory_core::{Permissions, VolatileSlice};

// The longest window of the bytes for which a pop asks, from byte `from` of them on.
#[inline(always)]
fn window_of(regions: &GuestMap, walk: &QueueWalk, from: usize) -> Option<VolatileSlice>
    ensures some { IfSome result (λ w. (from < asked_len walk.now)
        × IsWindowAt (location (places_in regions.now) Read) (asked_by walk.now + from)
        (asked_len walk.now - from) w) }
    ensures longest { IfSome result (λ w. w.len
        ≡ min (asked_len walk.now - from) (left_in (places_in regions.now) (asked_by walk.now + from))) }
    ensures none { result ≡ None
        → from < asked_len walk.now
        → location (places_in regions.now) Read (asked_by walk.now + from) ≡ None }
    ensures few { IfSome result (λ w. w.len ≤ 4096) }
{
    let len = walk.len();
    if len <= from {
        return None;
    }
    regions.window_at(walk.address() + from as u64, len - from, Permissions::Read)
}

// Moves a walk out of its variable, which keeps the beginning of one.
fn take(walk: &mut QueueWalk, course: &Course) -> QueueWalk
    ensures { result ≡ walk.old }
{
    match Walk::begin(course.layout, course.position) {
        Walk::Index(first) => mem::replace(walk, QueueWalk::Index(first)),
        _ => unreachable!(),
    }
}

// Why a pop can't begin with `len` bytes, on the queue as it is.
fn begin_refusal(queue: &QueueState, len: usize) -> Option<ChainError>
    ensures { result ≡ begin_error queue.now len }
{
    if len != 0 {
        return Some(ChainError::BadArgument);
    }
    if !queue.may_take() {
        return Some(ChainError::ChainInFlight);
    }
    None
}

// Why a pop can't continue with `len` bytes, on the queue as it is.
#[inline(always)]
fn give_refusal(
    queue: &QueueState,
    course: &Course,
    pop_id: PopId,
    walk: &QueueWalk,
    len: usize,
) -> Option<ChainError>
    ensures error { result ≡ give_error queue.now course.now pop_id (asked_len walk.now) len }
    ensures memory { IfSome result (λ e. e ≡ ChainError.OutOfMemory → ⊥) }
{
    if len != walk.len() {
        return Some(ChainError::BadArgument);
    }
    if !queue.has(course, pop_id) {
        return Some(ChainError::OtherQueue);
    }
    if !queue.may_take() {
        return Some(ChainError::ChainInFlight);
    }
    None
}

impl ChainHandle {
    // Gives a walk the bytes of its load, in place.
    #[inline(always)]
    fn give(&mut self, queue: &mut QueueState, loaded: &[u8]) -> PopOutcome
        requires walking { IsPopping self.old.state }
        requires bytes { IfPopping self.old.state (λ walk. length loaded.now ≡ asked_len walk) }
        requires room { HasRoomFor self.old.descriptors (entries_asked self.old.state) }
        requires proceeds { queue.old.stopped ≡ None }
        ensures walks { WalksOn loaded.now self.old self.new queue.old queue.new result }
        ensures apart { (self.new.part ≡ self.old.part) × (self.new.session ≡ self.old.session) }
    {
        match &mut self.state {
            ChainState::Popping(course, pop_id, walk) => {
                let taken = take(walk, course);
                match course.give(&self.regions, taken, loaded, &mut self.descriptors) {
                    CourseStep::Load(next) => {
                        let len = next.len();
                        *walk = next;
                        PopOutcome::Load(len)
                    }
                    ended => {
                        let (course, pop_id) = (*course, *pop_id);
                        self.settle(queue, course, pop_id, ended)
                    }
                }
            }
            _ => unreachable!(),
        }
    }

    // Makes room for the descriptors that may join with the next bytes.
    #[inline(always)]
    fn make_room(&mut self) -> Result<(), ChainError>
        requires { IsPopping self.old.state }
        ensures room { OnOk result (HasRoomFor self.new.descriptors (entries_asked self.new.state)) }
        ensures memory { IfErr result (λ e. (e ≡ ChainError.OutOfMemory) × LacksRoom self.old) }
        ensures same { IsAllBut self.old self.new
            × (self.new.state ≡ self.old.state)
            × (self.new.descriptors.items ≡ self.old.descriptors.items) }
        ensures apart { (self.new.part ≡ self.old.part) × (self.new.session ≡ self.old.session) }
    {
        let ChainState::Popping(_, _, walk) = &self.state else {
            unreachable!()
        };
        let entries = walk.entries();
        if self.descriptors.capacity() - self.descriptors.len() >= entries {
            return Ok(());
        }
        match reserve_small(&mut self.descriptors, entries) {
            Ok(()) => Ok(()),
            Err(_) => Err(ChainError::OutOfMemory),
        }
    }

    // Continues a pop, if its load has this many bytes and its queue is this one. A queue that was
    // stopped meanwhile refuses it.
    #[inline(always)]
    fn go_on(&mut self, queue: &mut QueueState, loaded: &[u8]) -> Result<PopOutcome, ChainError>
        requires { IsPopping self.old.state }
        ensures error { IfErr result (λ e. (walk_error self.old.state queue.old (length loaded.now) ≡ Some e)
            ⊎ ((e ≡ ChainError.OutOfMemory)
            × (walk_error self.old.state queue.old (length loaded.now) ≡ None))) }
        ensures ok { OnOk result (walk_error self.old.state queue.old (length loaded.now) ≡ None) }
        ensures memory { IfErr result (λ e. e ≡ ChainError.OutOfMemory → LacksRoom self.old) }
        ensures same { OnErr result (IsAllBut self.old self.new
            × (self.new.state ≡ self.old.state)
            × (self.new.descriptors.items ≡ self.old.descriptors.items)
            × (queue.new ≡ queue.old)) }
        ensures walks { IfOk result
            (λ walked. WalksOn loaded.now self.old self.new queue.old queue.new walked) }
        ensures apart { (self.new.part ≡ self.old.part) × (self.new.session ≡ self.old.session) }
    {
        match &self.state {
            ChainState::Popping(course, pop_id, walk) => {
                if let Some(error) = give_refusal(queue, course, *pop_id, walk, loaded.len()) {
                    return Err(error);
                }
            }
            _ => return Err(ChainError::WrongOrder),
        }
        if queue.stopped.is_some() {
            self.end_walk();
            return Ok(PopOutcome::Refused(QueueError::Stopped));
        }
        match self.make_room() {
            Ok(()) => Ok(self.give(queue, loaded)),
            Err(error) => Err(error),
        }
    }

    /// Pops the next chain of a queue with whole loads: first without bytes, then with the bytes of each
    /// load that it asked for.
    #[inline(always)]
    pub(crate) fn walk_load(
        &mut self,
        queue: &mut QueueState,
        loaded: &[u8],
    ) -> Result<PopOutcome, ChainError>
        ensures error { IfErr result (λ e. (walk_error self.old.state queue.old (length loaded.now) ≡ Some e)
            ⊎ ((e ≡ ChainError.OutOfMemory)
            × (walk_error self.old.state queue.old (length loaded.now) ≡ None))) }
        ensures ok { OnOk result (walk_error self.old.state queue.old (length loaded.now) ≡ None) }
        ensures memory { IfErr result (λ e. e ≡ ChainError.OutOfMemory → LacksRoom self.old) }
        ensures same { OnErr result (IsAllBut self.old self.new
            × (self.new.state ≡ self.old.state)
            × (self.new.descriptors.items ≡ self.old.descriptors.items)
            × (queue.new ≡ queue.old)) }
        ensures walks { IfOk result
            (λ walked. WalksOn loaded.now self.old self.new queue.old queue.new walked) }
        ensures apart { (self.new.part ≡ self.old.part) × (self.new.session ≡ self.old.session) }
    {
        match self.state {
            ChainState::Free => self.begin_walk(queue, loaded),
            ChainState::Popping(_, _, _) => self.go_on(queue, loaded),
            _ => Err(ChainError::WrongOrder),
        }
    }

    /// Why a pop can't begin, or continue with a whole load of `len` bytes, on the queue as it is. If
    /// this returns None, the pop can only run out of memory.
    pub fn pop_refusal(&self, queue: &QueueState, len: usize) -> Option<ChainError>
        ensures { result ≡ walk_error self.now.state queue.now len }
    {
        match &self.state {
            ChainState::Free => begin_refusal(queue, len),
            ChainState::Popping(course, pop_id, walk) => {
                give_refusal(queue, course, *pop_id, walk, len)
            }
            _ => Some(ChainError::WrongOrder),
        }
    }

    /// The longest window of the bytes for which a pop asks, from byte `from` of them on: 4096 bytes at
    /// most. None past their end, or if the pop asks for nothing.
    #[inline(always)]
    pub fn load_window(&self, from: usize) -> Option<VolatileSlice>
        ensures some { IfSome result (λ w. IfPopping self.now.state (λ walk. (from < asked_len walk)
            × IsWindowAt (location (places_in self.now.regions) Read) (asked_by walk + from)
            (asked_len walk - from) w
            × (w.len ≡ min (asked_len walk - from)
            (left_in (places_in self.now.regions) (asked_by walk + from))))) }
        ensures none { result ≡ None
            → IfPopping self.now.state (λ walk. from < asked_len walk
            → location (places_in self.now.regions) Read (asked_by walk + from) ≡ None) }
        ensures walking { OnSome result (IsPopping self.now.state) }
        ensures few { IfSome result (λ w. w.len ≤ 4096) }
    {
        match &self.state {
            ChainState::Popping(_, _, walk) => window_of(&self.regions, walk, from),
            _ => None,
        }
    }
}
