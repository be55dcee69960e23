//! A chain is answered by a copy of the front of its request, which shows the data that may stay in
//! guest memory. No byte of the request is returned.

ghost use Rattle.std.specs.Prelude.{◌≡◌, ◌↔◌, ◌≤◌, ◌<◌, ◌^◌, length, map, IfNone, IfOk, IfSome, IsTrue};
ghost use Rattle.std.specs.Prelude.{Ok, OnErr, []};
ghost use Rattle.vm_memory_core.specs.Host.{lengths, shape};
ghost use Rattle.vm_memory_core.specs.Window.{AllLieIn, byte_in, places};
ghost use Rattle.vm_memory.specs.Memory.{Memory};
ghost use Rattle.fs_queue.specs.Queue.{Queue};
ghost use Rattle.fs_queue.specs.Taking.{RequestAndRoom};
ghost use Rattle.fs_queue.specs.Windows.{HoldsChain, IsTaken, TakenLiesIn, room_places};
ghost use Rattle.fs_device.specs.Answering.{IsAnswered};
ghost use Rattle.fs_device.specs.DeviceView.{request_of};
ghost use Rattle.fs_device.specs.ReplyFront.{AnswersAt, AnswersFront, front_bytes, is_header};
ghost use Rattle.fs_device.specs.ShortWay.{IsFetchedFront, ReadsInPlace};

use crate::answer_by_copy::{CopiedReply, answer};
use crate::reply_front::{PreparedReply, ReplyFront};
use crate::request_windows::{copy_front, segments_behind};
use crate::short_way::read_in_place;
use fs_queue::{Chain, Taken};
use fuse_fs::FileSystem;
use plain_machine::Fault;
use server_meanings::{REQUEST_FRONT, begins_a_write};
use std::alloc::{AllocError, Global};
use virtiofsd_fuse::{Reader, Server, Writer};
use vm_memory_core::HostBlocks;

// The server answers a request by a copy of its front and by the other bytes, which it reads in guest
// memory. None if an allocation failed, and then nothing changed.
#[inline(always)]
fn answer_behind<F: FileSystem, H: HostBlocks>(
    alloc: Global,
    server: &mut Server<F>,
    host: &H,
    chain: &Chain,
    front: &[u8],
    room: Writer,
) -> Option<CopiedReply>
    requires lie { AllLieIn (lengths (H.host host.now)) chain.now.readable.items }
    requires front { IsFetchedFront (H.host host.now) (places chain.now.readable.items) front.now }
    requires unwritten { room.written ≡ [] }
    requires short { room.free < 2 ^ 32 }
    ensures answered { IsAnswered F.may server.old
        (map (byte_in (H.host host.now)) (places chain.now.readable.items)) room.free result server.new }
    ensures page_size { server.new.page_size ≡ server.old.page_size }
{
    let segments = segments_behind(alloc, host, &chain.readable, front)?;
    // For the proof: the segments are as long as the request, whose length is a usize.
    let _len = chain.request_len();
    match Reader::new(segments) {
        Ok(reader) => answer(alloc, server, reader, room),
        Err(_) => unreachable!(),
    }
}

// The server answers a request that is longer than its front. It reads the data of a WRITE in guest
// memory, and copies any other request whole. None if an allocation failed, and then nothing changed.
#[inline(always)]
fn answer_longer<F: FileSystem, H: HostBlocks>(
    alloc: Global,
    server: &mut Server<F>,
    host: &H,
    chain: &Chain,
    front: &[u8],
    room: Writer,
) -> Option<CopiedReply>
    requires lie { AllLieIn (lengths (H.host host.now)) chain.now.readable.items }
    requires front { IsFetchedFront (H.host host.now) (places chain.now.readable.items) front.now }
    requires unwritten { room.written ≡ [] }
    requires short { room.free < 2 ^ 32 }
    ensures answered { IsAnswered F.may server.old
        (map (byte_in (H.host host.now)) (places chain.now.readable.items)) room.free result server.new }
    ensures page_size { server.new.page_size ≡ server.old.page_size }
{
    if begins_a_write(front) {
        return answer_behind(alloc, server, host, chain, front, room);
    }
    match host.fetch_windows(alloc, &chain.readable, chain.request_len()) {
        Ok(request) => answer(alloc, server, Reader::of_slice(alloc, &request), room),
        Err(_) => None,
    }
}

// The server answers a chain's request, which begins with the bytes `front`, into a buffer. None if an
// allocation failed, and then nothing changed.
#[inline(always)]
fn answer_in_buffer<F: FileSystem, H: HostBlocks>(
    alloc: Global,
    server: &mut Server<F>,
    host: &H,
    chain: &Chain,
    front: &[u8],
) -> Option<CopiedReply>
    requires lie { AllLieIn (lengths (H.host host.now)) chain.now.readable.items }
    requires front { IsFetchedFront (H.host host.now) (places chain.now.readable.items) front.now }
    ensures answered { IsAnswered F.may server.old (map (byte_in (H.host host.now))
        (places chain.now.readable.items)) (length (places chain.now.writable.items)) result server.new }
    ensures page_size { server.new.page_size ≡ server.old.page_size }
{
    let Ok(room) = Writer::of_length(alloc, chain.room_len()) else {
        return None;
    };
    if front.len() == chain.request_len() {
        answer(alloc, server, Reader::of_slice(alloc, front), room)
    } else {
        answer_longer(alloc, server, host, chain, front, room)
    }
}

// Copies the front of a chain's request, and the server answers the request by it: a READ in place, if
// `read_in_place` applies, else into a buffer. None if an allocation failed, and then nothing changed.
#[inline(always)]
fn answer_chain<F: FileSystem, H: HostBlocks>(
    alloc: Global,
    server: &mut Server<F>,
    host: &mut H,
    chain: &Chain,
) -> Option<PreparedReply>
    requires readable { AllLieIn (lengths (H.host host.old)) chain.now.readable.items }
    requires writable { AllLieIn (lengths (H.host host.old)) chain.now.writable.items }
    ensures some { IfSome result (λ a. AnswersAt F.may server.old (H.host host.old)
        (places chain.now.readable.items) (places chain.now.writable.items) a (H.host host.new) server.new) }
    ensures fits { IfSome result
        (λ a. (length (front_bytes a.front) ≤ length (places chain.now.writable.items))
        × (a.len ≤ length (places chain.now.writable.items))) }
    ensures way { IfSome result (λ a. IsTrue (is_header a.front) ↔ (IsTrue (F.reads_whole server.old.fs)
        × ReadsInPlace (H.host host.old) (Ok chain.now))) }
    ensures none { IfNone result ((server.new.options.0 ≡ server.old.options.0)
        × (server.new.fs ≡ server.old.fs)
        × (H.host host.new ≡ H.host host.old)) }
    ensures shape { shape (H.host host.new) ≡ shape (H.host host.old) }
    ensures page_size { server.new.page_size ≡ server.old.page_size }
{
    let mut buffer = [0; REQUEST_FRONT];
    let len = chain.request_len().min(REQUEST_FRONT);
    copy_front(host, &chain.readable, &mut buffer[..len]);
    let front = &buffer[..len];
    if let Some(answered) = read_in_place(alloc, server, host, chain, front) {
        return Some(answered);
    }
    match answer_in_buffer(alloc, server, host, chain, front) {
        Some(reply) => Some(PreparedReply::whole(reply)),
        None => None,
    }
}

/// The length in bytes of the request of a chain that was taken; 0 if the chain is faulty.
#[inline(always)]
pub(crate) fn request_len(taken: &Taken) -> usize
    ensures { (m : Memory) (fetched : RequestAndRoom)
        → HoldsChain m fetched taken.now.chain
        → result ≡ length (request_of fetched) }
{
    match taken.chain() {
        Ok(chain) => chain.request_len(),
        Err(_) => 0,
    }
}

/// Answers a chain that was taken. The result has the bytes of its reply that are still to be written.
/// AllocError if an allocation fails, always before the file system is called.
#[inline(always)]
pub(crate) fn answer_front<F: FileSystem, H: HostBlocks>(
    alloc: Global,
    server: &mut Server<F>,
    host: &mut H,
    taken: &Taken,
) -> Result<PreparedReply, AllocError>
    requires lies { TakenLiesIn (lengths (H.host host.old)) taken.now }
    ensures exchange { (m : Memory) (q : Queue) (fetched : RequestAndRoom)
        → m.host ≡ H.host host.old
        → IsTaken m q fetched taken.now
        →
        IfOk result (λ a. AnswersFront F.may server.old (H.host host.old) taken.now fetched a
        (H.host host.new) server.new) }
    ensures fits { IfOk result (λ a. (length (front_bytes a.front) ≤ room_places taken.now.chain)
        × (a.len ≤ room_places taken.now.chain)) }
    ensures way { IfOk result (λ a. IsTrue (is_header a.front) ↔ (IsTrue (F.reads_whole server.old.fs)
        × ReadsInPlace (H.host host.old) taken.now.chain)) }
    ensures err { OnErr result ((server.new.options.0 ≡ server.old.options.0)
        × (server.new.fs ≡ server.old.fs)
        × (H.host host.new ≡ H.host host.old)) }
    ensures shape { shape (H.host host.new) ≡ shape (H.host host.old) }
    ensures page_size { server.new.page_size ≡ server.old.page_size }
{
    let chain = match taken.chain() {
        Ok(chain) => chain,
        Err(fault) => {
            return Ok(PreparedReply {
                front: ReplyFront::Reply(Vec::new(alloc)),
                len: 0,
                fault: Some(Fault::Chain(fault)),
            });
        }
    };
    match answer_chain(alloc, server, host, chain) {
        Some(answered) => Ok(answered),
        None => Err(AllocError),
    }
}
