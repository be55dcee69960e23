//! Notifications of driver and device, enabled by VIRTIO_F_EVENT_IDX or by the flags of the rings
//! (VIRTIO 1.2, 2.7.7 and 2.7.10).

ghost use Rattle.std.specs.Prelude.{◌≡◌, option_map};
ghost use Rattle.fs_regions.specs.Places.{places_in};
ghost use Rattle.fs_chain.specs.Events.{avail_event_at, event_fault, event_miss, notification_store};
ghost use Rattle.fs_chain.specs.Events.{seen_at, store_of, notifies_of, used_event_at};
ghost use Rattle.fs_chain.specs.HoldsAround.{StoresNotificationInRun};

use crate::queue::QueueState;
use fs_queue::{QueueError, QueueLayout, Return};
use fs_regions::GuestMap;
use vm_memory_core::{IovaRange, Permissions};

// The used ring's flag that disables the driver's notifications (VIRTIO 1.2, 2.7.10).
const NO_NOTIFY: u16 = 1;

/// A store that enables the driver's notifications of new chains, or disables them.
#[derive(Clone, Copy, Debug, PartialEq, Eq)]
pub struct NotificationStore {
    /// The guest address of its two bytes.
    pub address: u64,
    /// The number that is stored, as le16.
    pub value: u16,
}

// The guest address of the driver's used_event: behind the available ring.
fn used_event_at(layout: &QueueLayout) -> u64
    ensures { result ≡ used_event_at layout.now }
{
    layout.avail() + 4 + 2 * u64::from(layout.size())
}

// The guest address of the device's avail_event: behind the used ring.
fn avail_event_at(layout: &QueueLayout) -> u64
    ensures { result ≡ avail_event_at layout.now }
{
    layout.used() + 4 + 8 * u64::from(layout.size())
}

impl QueueState {
    // The guest address of the two bytes by which the driver enables used buffer notifications, in these
    // areas.
    pub(crate) fn seen_at(&self, layout: &QueueLayout) -> u64
        ensures { result ≡ seen_at self.now layout.now }
    {
        if self.event_index {
            used_event_at(layout)
        } else {
            layout.avail()
        }
    }

    // Whether to notify the driver of the next chain that is pushed, by those two bytes.
    pub(crate) fn notifies(&self, seen: [u8; 2]) -> bool
        ensures { result ≡ notifies_of self.now seen }
    {
        if self.event_index {
            u16::from_le_bytes(seen) == self.next_used
        } else {
            Return::notifies(seen)
        }
    }

    // Why no chain can be popped: the queue has the event index, and one of its fields isn't mapped.
    pub(crate) fn event_fault(&self, regions: &GuestMap) -> Option<QueueError>
        ensures { result ≡ event_fault (places_in regions.now) self.now }
    {
        if !self.event_index {
            return None;
        }
        if !regions.reaches(used_event_at(&self.layout), 2, Permissions::Read) {
            return Some(QueueError::AvailFlagsUnreachable);
        }
        if !regions.reaches(avail_event_at(&self.layout), 2, Permissions::Write) {
            return Some(QueueError::UsedUnreachable);
        }
        None
    }

    // The first miss among the two fields, if the queue has the event index.
    pub(crate) fn event_miss(&self, regions: &GuestMap) -> Option<(IovaRange, Permissions)>
        ensures { result ≡ event_miss (places_in regions.now) self.now }
    {
        if !self.event_index {
            return None;
        }
        match regions.miss(used_event_at(&self.layout), 2, Permissions::Read) {
            Some(miss) => Some(miss),
            None => regions.miss(avail_event_at(&self.layout), 2, Permissions::Write),
        }
    }

    /// The store that enables the driver's notifications of new chains, or disables them. With the event
    /// index the driver notifies for the next chain alone, and nothing is stored to disable.
    ///
    /// A thread enables them before it sleeps, and when it pops a chain while another thread of the queue
    /// sleeps. Behind a full barrier it then looks once more, with a new load of the available index. It
    /// does all of that under the queue's lock.
    #[tactic(auto, using(crate::proofs::HoldsAround::stores_notice))]
    pub fn notification_store(&self, wanted: bool) -> Option<NotificationStore>
        ensures store { option_map store_of result ≡ notification_store self.now wanted }
        ensures step { StoresNotificationInRun self.now wanted result }
    {
        if self.event_index {
            if !wanted {
                return None;
            }
            let address = avail_event_at(&self.layout);
            let value = self.next_avail;
            return Some(NotificationStore { address, value });
        }
        let address = self.layout.used();
        let value = if wanted { 0 } else { NO_NOTIFY };
        Some(NotificationStore { address, value })
    }
}
