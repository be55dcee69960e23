//! Why a chain is returned without a reply.

use fs_queue::ChainFault;
use server_segments::Error;

/// Why a chain was returned without a reply: the chain is faulty (VIRTIO 1.2, 2.7), or the server found
/// a fault in its request (virtiofsd's `Error`).
#[derive(Clone, Copy, Debug, PartialEq, Eq)]
pub enum Fault {
    Chain(ChainFault),
    Served(Error),
}
