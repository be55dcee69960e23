//! A chain is answered by a copy of its request, and the exchange has the bytes of request and reply.

ghost use Rattle.std.specs.Prelude.{◌≡◌, ◌≤◌, ◌<◌, ◌^◌, [], false, length, IfOk, IsSome, OnErr};
ghost use Rattle.fs_queue.specs.Windows.{room_places};

use crate::exchange::Exchange;
use crate::fetched_request::FetchedRequest;
use fs_queue::Taken;
use fuse_fs::FileSystem;
use plain_machine::Fault;
use std::alloc::{AllocError, Global};
use virtiofsd_fuse::{Error, Reader, Server, Writer};

/// A reply, or the fault instead of it.
#[derive(Drop)]
pub(crate) struct CopiedReply {
    pub bytes: Vec<u8>,
    pub fault: Option<Fault>,
}

ghost use Rattle.server_meanings.specs.Serving.{is_memory};
ghost use Rattle.fs_device.specs.Answering.{IsAnswered};
ghost use Rattle.fs_device.specs.DeviceView.{exchange_of, server_state};
ghost use Rattle.fs_device.specs.Phases.{MayLackToAnswer, ServesBytes, ServesTaken};
ghost use Rattle.server_meanings.specs.WantOfMemory.{may_take_memory};

// Whether the server's error is a failed allocation.
fn is_memory(error: Error) -> bool
    ensures { result ≡ is_memory error }
{
    matches!(error, Error::OutOfMemory)
}

// The server answers the rest of a reader's request into a writer's reply buffer. None if an allocation
// failed, and then nothing changed.
#[inline(always)]
pub(crate) fn answer<F: FileSystem>(
    alloc: Global,
    server: &mut Server<F>,
    request: Reader<'_>,
    room: Writer,
) -> Option<CopiedReply>
    requires unwritten { room.written ≡ [] }
    requires short { room.free < 2 ^ 32 }
    ensures answered { IsAnswered F.may server.old request.entry.left room.free result server.new }
    ensures memory { may_take_memory server.old.options.0 request.entry room.free ≡ false → IsSome result }
    ensures page_size { server.new.page_size ≡ server.old.page_size }
{
    let mut writer = room;
    match server.handle_message(alloc, request, &mut writer) {
        Ok(_) => Some(CopiedReply {
            bytes: writer.into_written(),
            fault: None,
        }),
        Err(error) => {
            if is_memory(error) {
                return None;
            }
            Some(CopiedReply {
                bytes: Vec::new(alloc),
                fault: Some(Fault::Served(error)),
            })
        }
    }
}

/// Serves a chain that was taken, by its request. It refuses nothing once the file system was called.
#[inline(always)]
pub(crate) fn serve<F: FileSystem>(
    alloc: Global,
    server: &mut Server<F>,
    taken: &Taken,
    request: FetchedRequest,
) -> Result<Exchange, AllocError>
    requires { request.room.free ≡ room_places taken.now.chain }
    ensures exchange { IfOk result (λ x. ServesTaken F.may server.old.page_size (server_state server.old)
        taken.now request.bytes.items (exchange_of x)
        (server_state server.new)) }
    ensures bytes { IfOk result (λ x. ServesBytes F.may server.old.page_size (server_state server.old)
        taken.now (room_places taken.now.chain) request.bytes.items
        (exchange_of x) (server_state server.new)) }
    ensures fits { IfOk result (λ x. length x.reply.items ≤ room_places taken.now.chain) }
    ensures err { OnErr result ((server.new.options.0 ≡ server.old.options.0)
        × (server.new.fs ≡ server.old.fs)) }
    ensures memory { OnErr result (MayLackToAnswer server.old.options.0 taken.now request.bytes.items) }
    ensures page_size { server.new.page_size ≡ server.old.page_size }
{
    let FetchedRequest { bytes, room } = request;
    let head = taken.head();
    match taken.chain() {
        Err(fault) => Ok(Exchange {
            head,
            request: bytes,
            reply: Vec::new(alloc),
            fault: Some(Fault::Chain(fault)),
        }),
        Ok(_) => match answer(alloc, server, Reader::of_slice(alloc, &bytes), room) {
            Some(reply) => Ok(Exchange {
                head,
                request: bytes,
                reply: reply.bytes,
                fault: reply.fault,
            }),
            None => Err(AllocError),
        },
    }
}
