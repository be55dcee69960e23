//! The short way: a READ is answered with its data straight in the reply buffer.

ghost use Rattle.std.specs.Prelude.{◌≡◌, ℕ, ◌+◌, ◌<◌, ◌≤◌, ◌^◌, ◌↔◌, List, ◌++◌, length, IfNone, IfSome};
ghost use Rattle.std.specs.Prelude.{IsSome, IsTrue, Ok};
ghost use Rattle.vm_memory_core.specs.Host.{Place, lengths, shape};
ghost use Rattle.vm_memory_core.specs.Window.{AllLieIn, places};
ghost use Rattle.virtiofsd_fuse.specs.ReadApart.{read_meaning};
ghost use Rattle.virtiofsd_fuse.specs.ServerHandles.{ServerHandles};
ghost use Rattle.plain_machine.specs.Fills.{Fills};
ghost use Rattle.fs_device.specs.ReplyFront.{AnswersAt, front_bytes, is_header};
ghost use Rattle.fs_device.specs.ShortWay.{IsFetchedFront, ReadsInPlace};

use crate::behind::room_behind;
use crate::reply_front::{PreparedReply, ReplyFront};
use crate::room_left::RoomLeft;
use crate::room_writer::RoomWriter;
use fs_queue::Chain;
use fuse_fs::FileSystem;
use server_meanings::{REPLY_FRONT, REQUEST_FRONT};
use std::alloc::Global;
use virtiofsd_fuse::{ReadReply, ReadRequest, Server};
use vm_memory_core::HostBlocks;

// The server answers a READ: the file's data goes to the reply buffer behind the header's 16 bytes.
#[tactic(auto, unfolding(vm_memory_core::specs::Window::AllLieIn))]
fn read_to_room<F: FileSystem, H: HostBlocks>(
    server: &mut Server<F>,
    host: &mut H,
    request: &ReadRequest,
    room: RoomLeft<'_>,
) -> ReadReply
    requires whole { IsTrue (F.reads_whole server.old.fs) }
    requires lie { AllLieIn (lengths (H.host host.old)) room.windows }
    requires short { 16 + length room.places < 2 ^ 32 }
    ensures read { (bytes : List ℕ) × (left : List Place)
        × Fills (H.host host.old) room.entry.places bytes (H.host host.new) left
        × (result.len ≡ 16 + length bytes)
        × ServerHandles F.may server.old (16 + length room.entry.places) (read_meaning request.now
        (16 + length room.entry.places)) (Ok result.len) (result.header ++ bytes) server.new }
    ensures shape { shape (H.host host.new) ≡ shape (H.host host.old) }
    ensures page_size { server.new.page_size ≡ server.old.page_size }
{
    let mut room = room;
    let mut data = RoomWriter {
        host,
        room: &mut room,
    };
    let reply = server.read_into(request, &mut data);
    data.end();
    reply
}

/// Answers a READ in place: the file's data goes straight to the reply buffer. Applies only if the
/// request is exactly a READ's two records, the reply buffer's first 16 bytes have none in common with
/// the others, and a failed read puts nothing in (`FileSystem::reads_whole`). Otherwise returns None
/// and changes nothing.
#[inline(always)]
pub(crate) fn read_in_place<F: FileSystem, H: HostBlocks>(
    alloc: Global,
    server: &mut Server<F>,
    host: &mut H,
    chain: &Chain,
    front: &[u8],
) -> Option<PreparedReply>
    requires lie { AllLieIn (lengths (H.host host.old)) chain.now.writable.items }
    requires front { IsFetchedFront (H.host host.old) (places chain.now.readable.items) front.now }
    ensures some { IfSome result (λ a. AnswersAt F.may server.old (H.host host.old)
        (places chain.now.readable.items) (places chain.now.writable.items) a (H.host host.new) server.new) }
    ensures none { IfNone result ((server.new ≡ server.old) × (host.new ≡ host.old)) }
    ensures taken { IsSome result ↔ (IsTrue (F.reads_whole server.old.fs)
        × ReadsInPlace (H.host host.old) (Ok chain.now)) }
    ensures header { IfSome result (λ a. IsTrue (is_header a.front)) }
    ensures fits { IfSome result
        (λ a. (length (front_bytes a.front) ≤ length (places chain.now.writable.items))
        × (a.len ≤ length (places chain.now.writable.items))) }
    ensures shape { shape (H.host host.new) ≡ shape (H.host host.old) }
    ensures page_size { server.new.page_size ≡ server.old.page_size }
{
    if chain.request_len() != REQUEST_FRONT {
        return None;
    }
    if !server.fs().reads_whole() {
        return None;
    }
    let request = ReadRequest::of_bytes(alloc, front)?;
    let room = room_behind(&chain.writable, chain.room_len(), REPLY_FRONT)?;
    let reply = read_to_room(server, host, &request, room);
    Some(PreparedReply {
        front: ReplyFront::Header(reply.header),
        len: reply.len,
        fault: None,
    })
}
