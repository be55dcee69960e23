//! A driver of several handles over several queues: its calls, one behind another, are a run, whose events
//! have what they returned.

ghost use Rattle.std.specs.Prelude.{◌≡◌, ◌∷◌, [], ℕ, Bool, List, Some, drop, length, slice_get, true, false};
ghost use Rattle.fs_chain.specs.Orders.{is_out};
ghost use Rattle.fs_chain.specs.declared.chain_handle.ChainHandle.{ChainHandle};
ghost use Rattle.fs_chain.specs.declared.queue.QueueState.{QueueState};
ghost use Rattle.fs_driven.specs.Drivers.{with_queue};
ghost use Rattle.fs_driven.specs.Events.{Drives, DrivesOne, HaveNoChain, MayReset, call_of, calls_of};
ghost use Rattle.fs_driven.specs.declared.commands.DriverCall.TheVariants as does;
ghost use Rattle.fs_driven.specs.declared.commands.Results.TheVariants as gives;

use crate::entries::{ListedEntry, drive_gather};
use crate::new_memory::{drive_move, drive_remap};
use fs_chain::{
    AddOutcome, ChainError, ChainHandle, Decoded, LoadOutcome, NotificationStore, PopOutcome,
    PushStores, QueueState, Replied,
};
use fs_queue::QueueLayout;
use fs_regions::{LoadAhead, MemoryRegion};
use fuse_values::FileAnswer;
use fuse_wire::Errno;
use server_phases::Session;
use std::alloc::Global;
use std::mem;

/// A command for a handle.
#[derive(Drop)]
pub enum DriverCall<'a> {
    /// Pops, with these loaded bytes.
    Pop(&'a [u8]),
    /// Pops by loads that were made ahead, whose bytes lie one behind another.
    PopAhead(&'a [LoadAhead], &'a [u8]),
    /// Decodes a request from its first bytes, in this session.
    Decode(Session, &'a [u8]),
    /// Answers the call of the chain with this number.
    Answer(u32, FileAnswer),
    /// Ends the listing of the chain with this number, whose directory has no more entries.
    EndListing(u32),
    /// Ends it with an error, by which its directory can't be read.
    FailListing(u32, Errno),
    /// Brings entries to the listing of the chain with this number, whose names lie one behind another, and
    /// ends it. Its directory has no more, or can't be read on by this error.
    Gather(u32, &'a [ListedEntry], &'a [u8], Option<Errno>),
    /// Replies to the chain with this number by so many bytes of the caller's own.
    Reply(u32, usize),
    /// Begins the chain's push.
    Push,
    /// Ends it, with the two bytes that were seen.
    Pushed([u8; 2]),
    /// Gives the chain up, or a pop.
    GiveUp,
    /// Frees the handle, whose chain stays in flight until its queue is reset.
    Abandon,
    /// Resets the queue with this number to a layout and a position. Any handle may be named.
    Reset(usize, QueueLayout, u16),
    /// Enables the driver's notifications of new chains of the queue with this number, or disables them. Any
    /// handle may be named.
    Notify(usize, bool),
    /// Sets the memory of each handle to these regions, of which this allocator makes copies. Any handle may
    /// be named. An empty list is a bad argument, as each list is that no guest memory is made of.
    Remap(Global, &'a [MemoryRegion]),
    /// Moves the device, and each handle to these regions. Any handle may be named. Lists are refused as by
    /// `Remap`.
    Move(Global, &'a [MemoryRegion]),
}

/// What a command returned.
#[derive(Drop)]
pub enum Results<'a> {
    /// There is no such handle, or it has no queue.
    NoHandle,
    /// There is no such queue.
    NoQueue,
    /// Of a pop.
    Popped(Result<LoadOutcome, ChainError>),
    /// Of a pop by loads ahead.
    PoppedAhead(Result<PopOutcome, ChainError>),
    /// Of a decoding.
    Decoded(Result<Decoded<'a>, ChainError>),
    /// The session has another page size: the request isn't decoded.
    OtherSession,
    /// Of an answer.
    Answered(Result<Replied, ChainError>),
    /// Of a listing's end: the length of its data.
    Listed(Result<usize, ChainError>),
    /// Of a listing's entries and its end: how many were added; the result of the entry behind them, by
    /// which the listing ends, or `In` if there is none; the length of its data, or an error if nothing
    /// changed; and a list that begins with the data.
    Gathered(usize, Result<AddOutcome, ChainError>, Result<usize, ChainError>, [u8; 4096]),
    /// Of a reply.
    Replied(Result<(), ChainError>),
    /// Of a push: its stores, and a buffer that begins with the reply's front.
    Began(Result<PushStores, ChainError>, [u8; 160]),
    /// Of a push's end: whether to notify the driver.
    Ended(Result<bool, ChainError>),
    /// Of giving a chain up.
    GaveUp(Result<(), ChainError>),
    /// The handle is free.
    Abandoned,
    /// Of a reset: whether it was done. It isn't while a handle of the queue has a chain in flight, or if
    /// more chains may be in flight than the layout has descriptors, or none.
    Reset(bool),
    /// The store that enables notifications, or disables them.
    Store(Option<NotificationStore>),
    /// Of new memory.
    Remapped(Result<(), ChainError>),
    /// Of a move.
    Moved(Result<(), ChainError>),
    /// A command of a queue, or of all, is none for one handle alone.
    NotOfOne,
}

/// Decodes a request from its first bytes.
#[tactic(auto, using(crate::proofs::Decoding::decode_result))]
pub fn drive_decode<'a>(
    handle: &mut ChainHandle,
    queue: &QueueState,
    session: Session,
    request: &'a [u8],
) -> Result<Decoded<'a>, ChainError>
    ensures step { (page_size : ℕ) → session.page_size ≡ page_size
        → DrivesOne page_size handle.old handle.new queue.now queue.now
        (does.Decode session request.entry) (gives.Decoded result) }
{
    handle.decode(session, request)
}

/// Answers a handle's chain. A FORGET that is owed is answered next.
#[tactic(auto, using(crate::proofs::Answering::answer_result))]
pub fn drive_answer(
    handle: &mut ChainHandle,
    queue: &QueueState,
    ticket: u32,
    answer: FileAnswer,
) -> Result<Replied, ChainError>
    ensures step { (page_size : ℕ) → DrivesOne page_size handle.old handle.new queue.now queue.now
        (does.Answer ticket answer) (gives.Answered result) }
{
    handle.answer(ticket, answer)
}

/// Ends a listing to which no entry was added: its directory has no more.
#[tactic(auto, using(crate::proofs::Listings::ended))]
pub fn drive_end_listing(
    handle: &mut ChainHandle,
    queue: &QueueState,
    ticket: u32,
) -> Result<usize, ChainError>
    ensures step { (page_size : ℕ) → DrivesOne page_size handle.old handle.new queue.now queue.now
        (does.EndListing ticket) (gives.Listed result) }
{
    handle.end(ticket)
}

/// Ends a listing to which no entry was added: its directory can't be read.
#[tactic(auto, using(crate::proofs::Listings::failed))]
pub fn drive_fail_listing(
    handle: &mut ChainHandle,
    queue: &QueueState,
    ticket: u32,
    error: Errno,
) -> Result<usize, ChainError>
    ensures step { (page_size : ℕ) → DrivesOne page_size handle.old handle.new queue.now queue.now
        (does.FailListing ticket error) (gives.Listed result) }
{
    handle.fail(ticket, error)
}

/// Gives up a handle's chain, or its pop.
#[tactic(auto, using(crate::proofs::Ends::give_up_result))]
pub fn drive_give_up(handle: &mut ChainHandle, queue: &mut QueueState) -> Result<(), ChainError>
    ensures step { (page_size : ℕ) → DrivesOne page_size handle.old handle.new queue.old queue.new
        does.GiveUp (gives.GaveUp result) }
{
    handle.give_up(queue)
}

/// Frees a handle. Its chain stays in flight until its queue is reset.
#[tactic(auto, using(crate::proofs::Lost::abandoned))]
pub fn drive_abandon(handle: &mut ChainHandle, queue: &QueueState)
    ensures step { (page_size : ℕ) → DrivesOne page_size handle.old handle.new queue.now queue.now
        does.Abandon gives.Abandoned }
{
    handle.abandon();
}

// Begins the push of a handle's chain: copies the reply's front over the first bytes of a buffer.
#[tactic(auto, using(crate::proofs::Ends::push_result))]
fn push_into(
    handle: &mut ChainHandle,
    queue: &mut QueueState,
    front: &mut [u8],
) -> Result<PushStores, ChainError>
    ensures step { (page_size : ℕ) → DrivesOne page_size handle.old handle.new queue.old queue.new
        does.Push (gives.Began result front.new) }
{
    handle.push(queue, front)
}

/// Begins the push of a handle's chain. Returns its stores, and a buffer that begins with the reply's front.
pub fn drive_push(
    handle: &mut ChainHandle,
    queue: &mut QueueState,
) -> (Result<PushStores, ChainError>, [u8; 160])
    ensures step { (page_size : ℕ) → DrivesOne page_size handle.old handle.new queue.old queue.new
        does.Push (gives.Began result.0 result.1) }
{
    let mut front = [0; 160];
    let stores = push_into(handle, queue, &mut front);
    (stores, front)
}

/// Ends the push of a handle's chain.
#[tactic(auto, using(crate::proofs::Ends::pushed_result))]
pub fn drive_pushed(
    handle: &mut ChainHandle,
    queue: &mut QueueState,
    seen: [u8; 2],
) -> Result<bool, ChainError>
    ensures step { (page_size : ℕ) → DrivesOne page_size handle.old handle.new queue.old queue.new
        (does.Pushed seen) (gives.Ended result) }
{
    // A number of 16 bits.
    let _next_used = queue.next_used;
    handle.pushed(queue, seen)
}

/// Pops the next chain into a handle.
#[tactic(auto, using(crate::proofs::Pops::pop_result))]
pub fn drive_pop(
    handle: &mut ChainHandle,
    queue: &mut QueueState,
    loaded: &[u8],
) -> Result<LoadOutcome, ChainError>
    ensures step { (page_size : ℕ) → DrivesOne page_size handle.old handle.new queue.old queue.new
        (does.Pop loaded.entry) (gives.Popped result) }
{
    handle.pop(queue, loaded)
}

/// Pops the next chain into a handle, by loads that were made ahead.
#[tactic(auto, using(crate::proofs::AheadPops::ahead_result))]
pub fn drive_ahead(
    handle: &mut ChainHandle,
    queue: &mut QueueState,
    ahead: &[LoadAhead],
    bytes: &[u8],
) -> Result<PopOutcome, ChainError>
    ensures step { (page_size : ℕ) → DrivesOne page_size handle.old handle.new queue.old queue.new
        (does.PopAhead ahead.entry bytes.entry) (gives.PoppedAhead result) }
{
    handle.pop_ahead(queue, ahead, bytes)
}

/// Replies to a handle's chain by bytes of the caller's own.
#[tactic(auto, using(crate::proofs::Ends::reply_result))]
pub fn drive_reply(
    handle: &mut ChainHandle,
    queue: &QueueState,
    ticket: u32,
    len: usize,
) -> Result<(), ChainError>
    ensures step { (page_size : ℕ) → DrivesOne page_size handle.old handle.new queue.now queue.now
        (does.Reply ticket len) (gives.Replied result) }
{
    handle.reply(ticket, len)
}

// Decodes a request in a session of this page size, and in no other.
#[tactic(auto, using(crate::proofs::Decoding::other_session))]
fn decode_if<'a>(
    handle: &mut ChainHandle,
    queue: &QueueState,
    page_size: u32,
    session: Session,
    request: &'a [u8],
) -> Results<'a>
    ensures step { DrivesOne page_size handle.old handle.new queue.now queue.now
        (does.Decode session request.entry) result }
{
    if session.page_size() == page_size {
        return Results::Decoded(drive_decode(handle, queue, session, request));
    }
    Results::OtherSession
}

// Begins a push, and keeps its stores and front.
fn begin_push<'a>(handle: &mut ChainHandle, queue: &mut QueueState) -> Results<'a>
    ensures step { (page_size : ℕ) → DrivesOne page_size handle.old handle.new queue.old queue.new
        does.Push result }
{
    let (stores, front) = drive_push(handle, queue);
    Results::Began(stores, front)
}

// Lists entries, and keeps what its calls returned.
fn gather<'a>(
    handle: &mut ChainHandle,
    queue: &QueueState,
    ticket: u32,
    entries: &[ListedEntry],
    names: &[u8],
    failure: Option<Errno>,
) -> Results<'a>
    ensures step { (page_size : ℕ) → DrivesOne page_size handle.old handle.new queue.now queue.now
        (does.Gather ticket entries.entry names.entry failure) result }
{
    let (added, last, ended, list) = drive_gather(handle, queue, ticket, entries, names, failure);
    Results::Gathered(added, last, ended, list)
}

// A reset isn't done for one handle alone.
#[tactic(auto, using(crate::proofs::Resets::no_reset_of_one))]
fn no_reset_of_one<'a>(
    handle: &mut ChainHandle,
    queue: &QueueState,
    number: usize,
    layout: QueueLayout,
    position: u16,
) -> Results<'a>
    ensures step { (page_size : ℕ) → DrivesOne page_size handle.old handle.new queue.now queue.now
        (does.Reset number layout position) result }
{
    Results::NotOfOne
}

// Nor is a store of a queue.
#[tactic(auto, using(crate::proofs::Resets::no_store_of_one))]
fn no_store_of_one<'a>(handle: &mut ChainHandle, queue: &QueueState) -> Results<'a>
    ensures step { (page_size number : ℕ) (wanted : Bool) →
        DrivesOne page_size handle.old handle.new queue.now queue.now (does.Notify number wanted) result }
{
    Results::NotOfOne
}

// Nor is new memory.
#[tactic(auto, using(crate::proofs::Remaps::no_memory_of_one))]
fn no_memory_of_one<'a>(
    handle: &mut ChainHandle,
    queue: &QueueState,
    alloc: Global,
    regions: &'a [MemoryRegion],
) -> Results<'a>
    ensures step { (page_size : ℕ) → DrivesOne page_size handle.old handle.new queue.now queue.now
        (does.Remap alloc regions.entry) result }
{
    Results::NotOfOne
}

// Nor is a move.
#[tactic(auto, using(crate::proofs::Moving::no_move_of_one))]
fn no_move_of_one<'a>(
    handle: &mut ChainHandle,
    queue: &QueueState,
    alloc: Global,
    regions: &'a [MemoryRegion],
) -> Results<'a>
    ensures step { (page_size : ℕ) → DrivesOne page_size handle.old handle.new queue.now queue.now
        (does.Move alloc regions.entry) result }
{
    Results::NotOfOne
}

/// Performs a command for a handle, and returns what it returned. `Push` takes its place.
pub fn drive_one<'a>(
    handle: &mut ChainHandle,
    queue: &mut QueueState,
    page_size: u32,
    command: &mut DriverCall<'a>,
) -> Results<'a>
    ensures step { DrivesOne page_size handle.old handle.new queue.old queue.new command.old result }
{
    let command = mem::replace(command, DriverCall::Push);
    match command {
        DriverCall::Pop(loaded) => Results::Popped(drive_pop(handle, queue, loaded)),
        DriverCall::PopAhead(ahead, bytes) => {
            Results::PoppedAhead(drive_ahead(handle, queue, ahead, bytes))
        }
        DriverCall::Decode(session, request) => {
            decode_if(handle, queue, page_size, session, request)
        }
        DriverCall::Answer(ticket, answer) => {
            Results::Answered(drive_answer(handle, queue, ticket, answer))
        }
        DriverCall::EndListing(ticket) => Results::Listed(drive_end_listing(handle, queue, ticket)),
        DriverCall::FailListing(ticket, error) => {
            Results::Listed(drive_fail_listing(handle, queue, ticket, error))
        }
        DriverCall::Gather(ticket, entries, names, failure) => {
            gather(handle, queue, ticket, entries, names, failure)
        }
        DriverCall::Reply(ticket, len) => Results::Replied(drive_reply(handle, queue, ticket, len)),
        DriverCall::Push => begin_push(handle, queue),
        DriverCall::Pushed(seen) => Results::Ended(drive_pushed(handle, queue, seen)),
        DriverCall::GiveUp => Results::GaveUp(drive_give_up(handle, queue)),
        DriverCall::Abandon => {
            drive_abandon(handle, queue);
            Results::Abandoned
        }
        DriverCall::Reset(number, layout, position) => {
            no_reset_of_one(handle, queue, number, layout, position)
        }
        DriverCall::Notify(_, _) => no_store_of_one(handle, queue),
        DriverCall::Remap(alloc, regions) => no_memory_of_one(handle, queue, alloc, regions),
        DriverCall::Move(alloc, regions) => no_move_of_one(handle, queue, alloc, regions),
    }
}

// Whether a handle of queue `of` has a chain of this queue in flight.
fn has_chain_of(handle: &ChainHandle, of: usize, number: usize) -> bool
    ensures has { result ≡ true → (of ≡ number) × (is_out handle.now.state ≡ true) }
    ensures not { result ≡ false → of ≡ number → is_out handle.now.state ≡ false }
{
    if of == number {
        return handle.is_out();
    }
    false
}

// Whether no handle of a queue has a chain in flight.
#[tactic(auto, using(crate::proofs::Resets::none_of_handles, crate::proofs::Resets::none_of_numbers))]
fn have_no_chain(handles: &[ChainHandle], on: &[usize], number: usize) -> bool
    ensures none { result ≡ true → HaveNoChain on.now number handles.now }
    ensures some { result ≡ false → HaveNoChain on.now number handles.now → ⊥ }
{
    let mut k = 0;
    while k < handles.len() && k < on.len() {
        if has_chain_of(&handles[k], on[k], number) {
            return false;
        }
        k += 1;
    }
    true
}

// Whether a queue can be reset to a layout.
fn may_reset(
    handles: &[ChainHandle],
    on: &[usize],
    number: usize,
    queue: &QueueState,
    layout: &QueueLayout,
) -> bool
    ensures may { result ≡ true → MayReset on.now number handles.now queue.now layout.now }
    ensures not { result ≡ false → MayReset on.now number handles.now queue.now layout.now → ⊥ }
{
    if queue.max_in_flight < 1 || layout.size() < queue.max_in_flight {
        return false;
    }
    have_no_chain(handles, on, number)
}

// Resets the queue with this number, while none of its handles has a chain in flight. Returns whether it did.
#[tactic(auto, using(crate::proofs::Resets::reset_done, crate::proofs::Resets::reset_not_done))]
fn reset(
    handles: &[ChainHandle],
    on: &[usize],
    number: usize,
    queue: &mut QueueState,
    layout: QueueLayout,
    position: u16,
) -> bool
    ensures step { (page_size k : ℕ) (qs : List QueueState) → slice_get qs number ≡ Some queue.old
        → Drives on.now page_size handles.now handles.now qs (with_queue qs number queue.new)
        (call_of k (does.Reset number layout position) (gives.Reset result) ∷ []) }
{
    if may_reset(handles, on, number, queue, &layout) {
        queue.reset(layout, position);
        return true;
    }
    false
}

/// Resets a queue, if there is one with this number and none of its handles has a chain in flight.
#[tactic(auto, using(crate::proofs::Resets::no_queue_to_reset))]
pub fn drive_reset<'a>(
    handles: &[ChainHandle],
    queues: &mut [QueueState],
    on: &[usize],
    number: usize,
    layout: QueueLayout,
    position: u16,
) -> Results<'a>
    ensures step { (page_size k : ℕ) →
        Drives on.now page_size handles.now handles.now queues.old queues.new
        (call_of k (does.Reset number layout position) result ∷ []) }
{
    if number < queues.len() {
        return Results::Reset(reset(handles, on, number, &mut queues[number], layout, position));
    }
    Results::NoQueue
}

/// The store that enables the driver's notifications of new chains of a queue, or disables them, if there is
/// a queue with this number.
#[tactic(auto, using(crate::proofs::Resets::stored, crate::proofs::Resets::no_queue_to_notify))]
pub fn drive_notify<'a>(queues: &[QueueState], number: usize, wanted: bool) -> Results<'a>
    ensures step { (on : List ℕ) (page_size k : ℕ) (ws : List ChainHandle) →
        Drives on page_size ws ws queues.now queues.now (call_of k (does.Notify number wanted) result ∷ []) }
{
    if number < queues.len() {
        return Results::Store(queues[number].notification_store(wanted));
    }
    Results::NoQueue
}

/// Performs a command for one of several handles, and returns what it returned. `on`: the number of each
/// handle's queue.
#[tactic(auto, using(crate::proofs::Lists::no_place, crate::proofs::Lists::no_number, crate::proofs::Lists::no_queue))]
pub fn drive<'a>(
    handles: &mut [ChainHandle],
    k: usize,
    queues: &mut [QueueState],
    on: &[usize],
    page_size: u32,
    command: &mut DriverCall<'a>,
) -> Results<'a>
    ensures step { Drives on.now page_size handles.old handles.new queues.old queues.new
        (call_of k command.old result ∷ []) }
{
    if let DriverCall::Reset(number, layout, position) = command {
        return drive_reset(handles, queues, on, *number, *layout, *position);
    }
    if let DriverCall::Notify(number, wanted) = command {
        return drive_notify(queues, *number, *wanted);
    }
    if let DriverCall::Remap(alloc, regions) = command {
        return Results::Remapped(drive_remap(*alloc, handles, queues, regions));
    }
    if let DriverCall::Move(alloc, regions) = command {
        return Results::Moved(drive_move(*alloc, handles, queues, regions));
    }
    if k >= handles.len() || k >= on.len() {
        return Results::NoHandle;
    }
    let number = on[k];
    if number < queues.len() {
        return drive_one(&mut handles[k], &mut queues[number], page_size, command);
    }
    Results::NoHandle
}

// Performs a command, and keeps what it returned.
fn perform<'a>(
    handles: &mut [ChainHandle],
    k: usize,
    queues: &mut [QueueState],
    on: &[usize],
    page_size: u32,
    command: &mut DriverCall<'a>,
    returned: &mut Results<'a>,
)
    ensures step { Drives on.now page_size handles.old handles.new queues.old queues.new
        (call_of k command.old returned.new ∷ []) }
{
    let done = drive(handles, k, queues, on, page_size, command);
    let _old = mem::replace(returned, done);
}

/// Performs commands one behind another, each for the handle in its place, and keeps what each returned: a
/// run of the live machine, whose events are those of the calls by what they returned. `on`: the number of
/// each handle's queue. It ends with the shortest of the last three lists. Commands and results behind stay
/// as they are.
#[tactic(auto, using(crate::proofs::End::places, crate::proofs::End::commands, crate::proofs::End::results, crate::proofs::Rest::behind_places, crate::proofs::Rest::behind_commands, crate::proofs::Rest::left_places, crate::proofs::Rest::left_results))]
pub fn drive_all<'a>(
    handles: &mut [ChainHandle],
    queues: &mut [QueueState],
    on: &[usize],
    page_size: u32,
    places: &[usize],
    commands: &mut [DriverCall<'a>],
    returned: &mut [Results<'a>],
)
    ensures step { Drives on.now page_size handles.old handles.new queues.old queues.new
        (calls_of places.now commands.old returned.new) }
    ensures behind_places { drop (length places.now) returned.new ≡ drop (length places.now) returned.old }
    ensures behind_commands { drop (length commands.old) returned.new
        ≡ drop (length commands.old) returned.old }
    ensures left_places { drop (length places.now) commands.new ≡ drop (length places.now) commands.old }
    ensures left_results { drop (length returned.old) commands.new
        ≡ drop (length returned.old) commands.old }
{
    let mut n = 0;
    while n < places.len() && n < commands.len() && n < returned.len() {
        perform(
            handles,
            places[n],
            queues,
            on,
            page_size,
            &mut commands[n],
            &mut returned[n],
        );
        n += 1;
    }
}
