//! The state of a chain between its pop and its push.

use crate::ring_place::RingPlace;
use fs_regions::{Course, QueueWalk};
use server_phases::{Front, Listing, Waiting};

/// The identity of a pop, and then of its chain: how often its queue was reset before, and how often a
/// chain was popped or given up; and where the queue's rings were.
#[derive(Clone, Copy, Debug)]
pub struct PopId {
    pub(crate) reset_count: u32,
    pub(crate) pop_count: u32,
    pub(crate) ring: RingPlace,
}

/// A chain in flight.
#[derive(Clone, Copy, Debug)]
pub struct InFlight {
    pub(crate) course: Course,
    pub(crate) pop_id: PopId,
    pub(crate) head: u16,
    pub(crate) request_len: usize,
    pub(crate) room_len: usize,
}

/// A reply: its front, or that there is none, and how many bytes of data lie behind it.
#[derive(Drop)]
pub struct ChainReply {
    pub(crate) front: Option<Front>,
    pub(crate) behind: usize,
}

/// The state of a chain.
#[derive(Drop)]
pub enum ChainState {
    /// No chain: the handle is free for a pop.
    Free,
    /// It is being popped.
    Popping(Course, PopId, QueueWalk),
    /// It is in flight, and its request wasn't decoded.
    Popped(InFlight),
    /// Its file call is in flight.
    Decoded(InFlight, Waiting),
    /// Its listing gathers entries.
    Listing(InFlight, Listing),
    /// Its reply is known.
    Replied(InFlight, ChainReply),
    /// A push returned its stores, and `pushed` hasn't ended it.
    Pushing(InFlight),
}
