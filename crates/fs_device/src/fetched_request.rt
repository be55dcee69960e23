//! A request that was copied before the server answers it.

ghost use Rattle.std.specs.Prelude.{◌≡◌, [], IfOk, OnErr};
ghost use Rattle.vm_memory_core.specs.Host.{lengths};
ghost use Rattle.fs_queue.specs.Windows.{TakenLiesIn, room_places};

use fs_queue::Taken;
use std::alloc::{AllocError, Global};
use virtiofsd_fuse::Writer;
use vm_memory_core::HostBlocks;

/// The request's bytes of a chain that was taken, and a writer as long as its reply buffer. The device
/// allocates nothing else for the exchange.
#[derive(Drop)]
pub struct FetchedRequest {
    pub(crate) bytes: Vec<u8>,
    pub(crate) room: Writer,
    pub ghost unwritten: { room.written ≡ [] },
}

ghost use Rattle.fs_device.specs.Phases.{HoldsRequest, IsUnfaulty};

// The bytes of a chain's request. A faulty chain has none, and nothing is allocated for it.
#[inline(always)]
fn fetch_bytes<H: HostBlocks>(alloc: Global, host: &H, taken: &Taken) -> Result<Vec<u8>, AllocError>
    requires { TakenLiesIn (lengths (H.host host.now)) taken.now }
    ensures holds { IfOk result (λ bytes. HoldsRequest (H.host host.now) taken.now bytes.items) }
    ensures memory { OnErr result (IsUnfaulty taken.now.chain) }
{
    match taken.chain() {
        Ok(chain) => host.fetch_windows(alloc, &chain.readable, chain.request_len()),
        Err(_) => Ok(Vec::new(alloc)),
    }
}

// A writer as long as a chain's reply buffer. A faulty chain has none, and nothing is allocated for it.
#[inline(always)]
fn make_room(alloc: Global, taken: &Taken) -> Result<Writer, AllocError>
    ensures unwritten { IfOk result (λ room. room.written ≡ []) }
    ensures counted { IfOk result (λ room. room.free ≡ room_places taken.now.chain) }
    ensures memory { OnErr result (IsUnfaulty taken.now.chain) }
{
    let chain = match taken.chain() {
        Ok(chain) => chain,
        Err(_) => return Ok(Writer::empty(alloc)),
    };
    match Writer::of_length(alloc, chain.room_len()) {
        Ok(room) => Ok(room),
        Err(_) => Err(AllocError),
    }
}

impl FetchedRequest {
    /// Copies the request of a chain that was taken, and allocates a writer for its reply. AllocError
    /// if an allocation fails. A faulty chain has neither, and nothing is allocated for it.
    #[inline(always)]
    pub fn of<H: HostBlocks>(
        alloc: Global,
        host: &H,
        taken: &Taken,
    ) -> Result<FetchedRequest, AllocError>
        requires { TakenLiesIn (lengths (H.host host.now)) taken.now }
        ensures bytes { IfOk result
            (λ request. HoldsRequest (H.host host.now) taken.now request.bytes.items) }
        ensures room { IfOk result (λ request. request.room.free ≡ room_places taken.now.chain) }
        ensures memory { OnErr result (IsUnfaulty taken.now.chain) }
    {
        Ok(FetchedRequest {
            bytes: fetch_bytes(alloc, host, taken)?,
            room: make_room(alloc, taken)?,
        })
    }

    /// The bytes of the request; none if the chain is faulty.
    #[inline(always)]
    pub fn bytes(&self) -> &[u8]
        ensures { result.now ≡ self.now.bytes.items }
    {
        &self.bytes
    }
}
