//! A kick for one chain, with its event twice: for the journal and for the receipt. All memory for both is
//! allocated before the file system is called.

ghost use Rattle.std.specs.Prelude.{◌≡◌, ◌≤◌, ◌<◌, ◌+◌, [], false, IsTrue, IfOk, IfErr, OnErr, length};
ghost use Rattle.std.specs.Prelude.{vec_capacity};
ghost use Rattle.vm_memory_core.specs.Host.{lengths};
ghost use Rattle.fs_queue.specs.Windows.{TakenLiesIn, room_places};
ghost use Rattle.plain_machine.specs.Run.{Kick};
ghost use Rattle.fs_device.specs.CommandView.{command_of};
ghost use Rattle.fs_device.specs.DeviceView.{exchange_of};
ghost use Rattle.fs_device.specs.MachineView.{machine_of};
ghost use Rattle.fs_device.specs.Phases.{HasTaken};
ghost use Rattle.fs_shared.specs.Held.{came_of};
ghost use Rattle.fs_shared.specs.Replay.{Served, Stopped, is_journaled};
ghost use Rattle.fs_shared.specs.ReturnRuns.{AreReturnPages};

use crate::entry::Outcome;
use crate::recorded::{Event, Recorded};
use crate::return_pages::{ReturnRuns, return_pages, return_runs};
use fs_device::{Command, DeviceError, Exchange, FetchedRequest, Machine};
use fs_queue::{QueueError, Taken};
use fuse_fs::FileSystem;
use std::alloc::{AllocError, Global};
use vm_memory::Iommu;
use vm_memory_core::HostBlocks;

/// Memory for a copy of a chain's exchange, and for two lists of the pages that its return writes.
#[derive(Drop)]
pub(crate) struct ReplyRoom {
    pub request: Vec<u8>,
    pub reply: Vec<u8>,
    pub runs: ReturnRuns,
    pub pages: Vec<usize>,
    pub pages_copy: Vec<usize>,
}

ghost use Rattle.fs_shared.specs.Keeping.{IsRoomFor, KeepsEvent, KickKeeps};

// An empty list with capacity for the longest reply to a chain, none for a faulty one.
fn reply_buffer(alloc: Global, taken: &Taken) -> Result<Vec<u8>, AllocError>
    ensures empty { IfOk result (λ reply. reply.items ≡ []) }
    ensures fits { IfOk result (λ reply. room_places taken.now.chain ≤ vec_capacity reply) }
{
    match taken.chain() {
        Ok(chain) => Vec::with_capacity(alloc, chain.room_len()),
        Err(_) => Ok(Vec::new(alloc)),
    }
}

// Memory for the exchange's copy and its pages, for a chain that was taken; the request is copied already.
#[inline(always)]
fn reply_room<H: HostBlocks>(
    alloc: Global,
    host: &H,
    taken: &Taken,
    request: &[u8],
) -> Result<ReplyRoom, AllocError>
    requires { TakenLiesIn (lengths (H.host host.now)) taken.now }
    ensures { IfOk result (λ room. IsRoomFor (lengths (H.host host.now)) taken.now request.now room) }
{
    let runs = return_runs(alloc, host, taken)?;
    let most = runs.most_pages()?;
    Ok(ReplyRoom {
        request: Vec::from_slice(alloc, request)?,
        reply: reply_buffer(alloc, taken)?,
        runs,
        pages: Vec::with_capacity(alloc, most)?,
        pages_copy: Vec::with_capacity(alloc, most)?,
    })
}

// The event of an exchange, with its notice and its pages, for entry and receipt. Allocates nothing.
#[inline(always)]
fn recorded_exchange(queue: usize, exchange: Exchange, notice: bool, room: ReplyRoom) -> Recorded
    requires reply { room.reply.items ≡ [] }
    requires reply_fits { length exchange.reply.items ≤ vec_capacity room.reply }
    requires pages { room.pages.items ≡ [] }
    requires pages_fit { length room.runs.room.items + length room.runs.used.items ≤ vec_capacity room.pages }
    requires copy { room.pages_copy.items ≡ [] }
    requires copy_fits { length room.runs.room.items + length room.runs.used.items
        ≤ vec_capacity room.pages_copy }
    ensures entry { command_of result.entry.command ≡ Kick queue 1 }
    ensures entry_outcome { came_of result.entry.outcome ≡ Served (exchange_of exchange) notice }
    ensures pages { AreReturnPages room.runs (length exchange.reply.items) result.entry.pages.items }
    ensures receipt { command_of result.receipt.command ≡ Kick queue 1 }
    ensures receipt_outcome { came_of result.receipt.outcome
        ≡ Served (record (exchange_of exchange) { request = room.request.items }) notice }
    ensures receipt_pages { result.receipt.pages.items ≡ result.entry.pages.items }
{
    let ReplyRoom {
        request,
        mut reply,
        runs,
        mut pages,
        mut pages_copy,
    } = room;
    return_pages(&mut pages, &runs, exchange.reply.len());
    pages_copy.extend_from_slice(&pages).unwrap();
    reply.extend_from_slice(&exchange.reply).unwrap();
    let copy = Exchange {
        head: exchange.head,
        request,
        reply,
        fault: exchange.fault,
    };
    Recorded {
        entry: Event {
            command: Command::Kick { queue, most: 1 },
            outcome: Outcome::Served(exchange, notice),
            pages,
        },
        receipt: Event {
            command: Command::Kick { queue, most: 1 },
            outcome: Outcome::Served(copy, notice),
            pages: pages_copy,
        },
    }
}

// Answers a chain that was taken from a queue, and returns it to the driver; the result is the event for
// entry and receipt. AllocError changes nothing: all memory is allocated before the file system is called.
#[inline(always)]
fn exchange_recorded<F: FileSystem, I: Iommu + Drop>(
    alloc: Global,
    machine: &mut Machine<F, I>,
    queue: usize,
    taken: &mut Taken,
) -> Result<Recorded, AllocError>
    requires taken { let s = machine_of machine.old in HasTaken s.memory s.limit s.queues queue taken.old }
    requires lies { TakenLiesIn (lengths machine.old.host) taken.old }
    requires there { queue < length machine.old.device.queues }
    ensures keeps { IfOk result
        (λ recorded. KeepsEvent F.may (machine_of machine.old) (Kick queue 1) recorded
        (machine_of machine.new)) }
    ensures lacks { OnErr result (machine_of machine.new ≡ machine_of machine.old) }
{
    let request = FetchedRequest::of(alloc, &machine.host, taken)?;
    let room = reply_room(alloc, &machine.host, taken, request.bytes())?;
    let exchange = machine.device.answer(alloc, taken, request)?;
    let notice = machine
        .device
        .give_back(&mut machine.host, queue, taken, &exchange.reply);
    Ok(recorded_exchange(queue, exchange, notice, room))
}

// Whether a kick with this refusal is journaled: only if the refusal stops the queue.
fn is_journaled(error: DeviceError) -> bool
    ensures { result ≡ is_journaled error }
{
    match error {
        DeviceError::NoSuchQueue => false,
        DeviceError::Queue(QueueError::Stopped) => false,
        DeviceError::Queue(QueueError::OutOfMemory) => false,
        DeviceError::Queue(_) => true,
    }
}

// The event of a refusal that stopped a queue: it wrote no page.
fn stopped(alloc: Global, queue: usize, error: DeviceError) -> Event
    ensures command { command_of result.command ≡ Kick queue 1 }
    ensures outcome { came_of result.outcome ≡ Stopped error }
    ensures pages { result.pages.items ≡ [] }
{
    Event {
        command: Command::Kick { queue, most: 1 },
        outcome: Outcome::Stopped(error),
        pages: Vec::new(alloc),
    }
}

// The event of a refusal that is journaled, for entry and receipt. Any other refusal is the error.
fn recorded_refusal(
    alloc: Global,
    queue: usize,
    error: DeviceError,
) -> Result<Recorded, DeviceError>
    ensures stops { IfOk result (λ recorded. IsTrue (is_journaled error)) }
    ensures entry { IfOk result (λ recorded. (command_of recorded.entry.command ≡ Kick queue 1)
        × (came_of recorded.entry.outcome ≡ Stopped error)
        × (recorded.entry.pages.items ≡ [])) }
    ensures receipt { IfOk result (λ recorded. (command_of recorded.receipt.command ≡ Kick queue 1)
        × (came_of recorded.receipt.outcome ≡ Stopped error)
        × (recorded.receipt.pages.items ≡ [])) }
    ensures err { IfErr result (λ e. (e ≡ error) × (is_journaled error ≡ false)) }
{
    if is_journaled(error) {
        Ok(Recorded {
            entry: stopped(alloc, queue, error),
            receipt: stopped(alloc, queue, error),
        })
    } else {
        Err(error)
    }
}

/// Serves the next chain of a queue; the result is the event for entry and receipt. None if the queue offers
/// nothing. A refusal that stops the queue is an event too; any other is the error, and changes nothing.
/// `taken` is scratch memory that is kept from kick to kick.
#[inline(always)]
pub(crate) fn kick_recorded<F: FileSystem, I: Iommu + Drop>(
    alloc: Global,
    machine: &mut Machine<F, I>,
    queue: usize,
    taken: &mut Taken,
) -> Result<Option<Recorded>, DeviceError>
    ensures { KickKeeps F.may (machine_of machine.old) queue result (machine_of machine.new) }
{
    match machine
        .device
        .take(alloc, &machine.host, &machine.mem, queue, taken)
    {
        Ok(true) => match exchange_recorded(alloc, machine, queue, taken) {
            Ok(recorded) => Ok(Some(recorded)),
            Err(_) => Err(DeviceError::Queue(QueueError::OutOfMemory)),
        },
        Ok(false) => Ok(None),
        Err(error) => match recorded_refusal(alloc, queue, error) {
            Ok(recorded) => Ok(Some(recorded)),
            Err(error) => Err(error),
        },
    }
}
