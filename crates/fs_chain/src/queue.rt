//! A queue's state, which the caller keeps.

ghost use Rattle.std.specs.Prelude.{◌≡◌};
ghost use Rattle.fs_chain.specs.HoldsAround.{ResetsInRun};
ghost use Rattle.fs_chain.specs.Queues.{reset_to, new_queue, gave, fits_pop, is_laid_out, is_last};
ghost use Rattle.fs_chain.specs.Queues.{is_in_flight_of, may_take, in_flight, pop_id_of, took, gave_up};

use crate::ring_place::RingPlace;
use crate::state::{InFlight, PopId};
use fs_queue::{QueueError, QueueLayout};
use fs_regions::{Course, GuestMap};

/// A queue's state: values that the caller keeps and lends for a call. Chains are popped one after
/// another, and may be pushed in any order.
#[derive(Clone, Copy, Debug)]
pub struct QueueState {
    /// Its size, and the guest addresses of its areas.
    pub layout: QueueLayout,
    /// The position in the available ring of the next chain to pop, modulo 2^16.
    pub next_avail: u16,
    /// The position in the used ring of the next chain to push, modulo 2^16. It is as far behind
    /// `next_avail` as chains are in flight.
    pub next_used: u16,
    /// How many chains may be in flight.
    pub max_in_flight: u16,
    /// Whether a push has returned its stores and `pushed` hasn't ended it.
    pub pushing: bool,
    /// How often the queue was reset, modulo 2^32.
    pub reset_count: u32,
    /// How often a chain was popped or given up, modulo 2^32.
    pub pop_count: u32,
    /// Whether VIRTIO_F_EVENT_IDX was negotiated. Then a pop is refused if used_event
    /// (`AvailFlagsUnreachable`) or avail_event (`UsedUnreachable`) isn't mapped, unless it misses it.
    pub event_index: bool,
    /// The refusal that stopped it.
    pub stopped: Option<QueueError>,
}

// Whether two queues have the same size and areas.
fn is_laid_out(mine: &QueueLayout, other: &QueueLayout) -> bool
    ensures { result ≡ is_laid_out mine.now other.now }
{
    mine.size() == other.size()
        && mine.desc() == other.desc()
        && mine.avail() == other.avail()
        && mine.used() == other.used()
}

impl QueueState {
    /// A new queue at a position, without the event index and with no chain in flight. At most
    /// `max_in_flight` chains may be in flight. Use `reset` for a queue that exists already: its count of
    /// resets distinguishes earlier chains.
    pub fn new(layout: QueueLayout, position: u16, max_in_flight: u16) -> QueueState
        ensures { result ≡ new_queue layout position max_in_flight }
    {
        QueueState {
            layout,
            next_avail: position,
            next_used: position,
            max_in_flight,
            pushing: false,
            reset_count: 0,
            pop_count: 0,
            event_index: false,
            stopped: None,
        }
    }

    /// Resets the queue to a layout and a position, with no chain in flight. From then on each call that
    /// takes the queue refuses its earlier pops and chains with `OtherQueue`; `give_up` ends a pop. They
    /// would be valid again after 2^32 resets. `max_in_flight` and the event index stay.
    pub fn reset(&mut self, layout: QueueLayout, position: u16)
        ensures set { self.new ≡ reset_to self.old layout position }
        ensures step { ResetsInRun self.old self.new }
    {
        self.layout = layout;
        self.next_avail = position;
        self.next_used = position;
        self.pushing = false;
        self.reset_count = self.reset_count.wrapping_add(1);
        self.stopped = None;
    }

    /// How many chains are in flight.
    pub fn in_flight(&self) -> u16
        ensures { result ≡ in_flight self.now }
    {
        self.next_avail.wrapping_sub(self.next_used)
    }

    // Whether one more chain may be in flight.
    pub(crate) fn may_take(&self) -> bool
        ensures { result ≡ may_take self.now }
    {
        self.in_flight() < self.max_in_flight
    }

    // The identity of a pop that begins now over these regions.
    #[inline(always)]
    pub(crate) fn pop_id(&self, regions: &GuestMap) -> PopId
        ensures { result ≡ pop_id_of regions.now self.now }
    {
        PopId {
            reset_count: self.reset_count,
            pop_count: self.pop_count,
            ring: RingPlace::of(regions, &self.layout),
        }
    }

    // Counts a chain that is popped.
    pub(crate) fn take(&mut self)
        ensures { self.new ≡ took self.old }
    {
        self.next_avail = self.next_avail.wrapping_add(1);
        self.pop_count = self.pop_count.wrapping_add(1);
    }

    // Gives up the chain that was popped last: the next pop finds it again.
    pub(crate) fn unpop(&mut self)
        ensures { self.new ≡ gave_up self.old }
    {
        self.next_avail = self.next_avail.wrapping_sub(1);
        self.pop_count = self.pop_count.wrapping_add(1);
    }

    // Ends the push of a chain.
    pub(crate) fn pushed(&mut self)
        ensures { self.new ≡ gave self.old }
    {
        self.next_used = self.next_used.wrapping_add(1);
        self.pushing = false;
    }

    // Whether a pop with this course and `pop_id` still fits the queue.
    pub(crate) fn has(&self, course: &Course, pop_id: PopId) -> bool
        ensures { result ≡ fits_pop self.now course.now pop_id }
    {
        self.reset_count == pop_id.reset_count
            && self.pop_count == pop_id.pop_count
            && self.next_avail == course.position
            && is_laid_out(&self.layout, &course.layout)
    }

    // Whether a chain is in flight in this queue.
    pub(crate) fn has_out(&self, out: &InFlight) -> bool
        ensures { result ≡ is_in_flight_of self.now out.now }
    {
        self.in_flight() != 0
            && self.reset_count == out.pop_id.reset_count
            && is_laid_out(&self.layout, &out.course.layout)
    }

    // Whether a chain is the last one that was popped.
    pub(crate) fn popped_last(&self, out: &InFlight) -> bool
        ensures { result ≡ is_last self.now out.now }
    {
        self.next_avail == out.course.position.wrapping_add(1)
            && self.pop_count.wrapping_sub(out.pop_id.pop_count) < 0x1_0000
    }
}
