//! The exchange of a chain with the driver.

use plain_machine::Fault;

/// A chain that was taken and returned (VIRTIO 1.2, 2.7). It has the index of its head in the
/// descriptor table; the bytes of its request (linux/fuse.h, from `fuse_in_header` on; none if the
/// chain is faulty); the bytes of its reply (from `fuse_out_header` on), whose number is the used
/// length; and the fault, if there is one. A request such as FORGET has neither a reply nor a fault.
#[derive(Debug, Drop)]
pub struct Exchange {
    pub head: u16,
    pub request: Vec<u8>,
    pub reply: Vec<u8>,
    pub fault: Option<Fault>,
}
