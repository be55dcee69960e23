//! The machine: its state, events and actions.

ghost use Rattle.std.specs.Prelude.{◌≡◌};
ghost use Rattle.fs_turns.specs.Next.{arms, arms_to_answer, arms_to_sleep, begins, begun_turns, ends, enters};
ghost use Rattle.fs_turns.specs.Next.{after_reset, finds_none, may_reset};
ghost use Rattle.fs_turns.specs.Next.{hands_on, is_disabled, is_enabled_at, leaves, looks, muted, next, pops};
ghost use Rattle.fs_turns.specs.Next.{rests};
ghost use Rattle.fs_turns.specs.Next.{resumes, stays, wakes_one};

/// What memory says of available buffer notifications, by the last store (VIRTIO 1.2, 2.7.10).
#[derive(Clone, Copy, Drop)]
pub enum Notifications {
    /// Not known: a store failed, or none was made since the queue's reset.
    Unknown,
    /// They are disabled.
    Disabled,
    /// They are enabled. With `VIRTIO_F_EVENT_IDX`, `avail_event` is this position.
    Enabled(u16),
}

/// What the thread that holds the lock was told to do last.
#[derive(Clone, Copy, Drop)]
pub enum TurnPhase {
    /// No thread holds the lock.
    Free,
    /// To take up a chain whose answer came later.
    Resumes,
    /// To pop a chain.
    Pops,
    /// To enable notifications, before it sleeps.
    ArmsToSleep,
    /// To enable notifications for a thread that sleeps. It has a chain.
    ArmsToAnswer,
    /// To look for another chain, for a thread that sleeps. It has a chain.
    Looks,
    /// To disable notifications. It has a chain.
    Mutes,
}

/// What happened.
#[derive(Clone, Copy, Drop)]
pub enum TurnEvent {
    /// The thread slept, woke for any reason, and has the lock. `no_answer`: no chain waits whose
    /// answer came later.
    Woken { no_answer: bool },
    /// The thread didn't sleep, and has the lock: it has begun, or stepped aside, or has pushed its
    /// chain, unless that waits for its answer. `notify`: that push wants a used buffer notification
    /// (VIRTIO 1.2, 2.7.7). `no_answer` as in `Woken`.
    Back { notify: bool, no_answer: bool },
    /// It took up a chain whose answer came later. `another`: another such chain waits.
    Resumed { another: bool },
    /// No such chain waits.
    NoneResumed,
    /// It popped a chain.
    Popped,
    /// No chain is available: the available index, loaded for this, is the next position.
    /// `polls`: the thread looks again soon, without sleeping.
    Idle { polls: bool },
    /// As many chains are in flight as may be.
    Full,
    /// No chain is popped for now, even if one is available: the queue is paused, as for a stop. What
    /// lets it go on signals the threads' event.
    Paused,
    /// The thread must try again later: an allocation failed, or the IOMMU hasn't answered.
    Later,
    /// The queue is refused, or the thread is to end, though a chain may wait for it.
    Refused,
    /// Notifications are enabled: the store was made, and then a full barrier.
    Armed,
    /// They can't be enabled, and no store was made.
    NotArmed,
    /// A chain is available.
    More,
    /// No chain is available: the available index, loaded for this, is the next position.
    NoMore,
    /// Notifications are disabled.
    Muted,
}

/// What the thread does next. It keeps the lock for the first five.
#[derive(Clone, Copy, Drop)]
pub enum TurnAction {
    /// Take up a chain whose answer came later. Report `Resumed`, `NoneResumed` or `Refused`.
    Resume,
    /// Pop a chain. Report `Popped`, `Idle`, `Full`, `Paused`, `Later` or `Refused`.
    Pop,
    /// Enable notifications for the next position, then make a full barrier (VIRTIO 1.2, 2.7.10).
    /// Report `Armed` or `NotArmed`.
    Arm,
    /// Load the available index, and compare it with the next position. Report `More` or `NoMore`.
    Look,
    /// Disable notifications. Report `Muted`.
    Mute,
    /// Release the lock, answer the chain, take the lock, push the chain, and report `Back`.
    Answer,
    /// Release the lock, sleep until an event, take the lock, and report `Woken`.
    Sleep,
    /// Release the lock, wait for a moment, or until the available index has moved, take the lock,
    /// and report `Back`.
    StepAside,
    /// Release the lock. The thread ends.
    Stop,
    /// The event can't happen now. Nothing changed.
    Wrong,
}

/// An action, and what else the thread does.
#[derive(Clone, Copy, Drop)]
pub struct TurnOrders {
    pub action: TurnAction,
    /// Wake one thread that sleeps, once the lock is released.
    pub wakes: bool,
    /// Interrupt the driver, before this thread answers or sleeps.
    pub interrupts: bool,
}

const WRONG: TurnOrders = TurnOrders {
    action: TurnAction::Wrong,
    wakes: false,
    interrupts: false,
};

/// What the thread sees, beside the event.
#[derive(Clone, Copy, Drop)]
pub struct Seen {
    /// The position of the next chain.
    pub next_avail: u16,
    /// As many chains are in flight as may be.
    pub is_full: bool,
    /// Another thread waits for the lock, and will report `Back`. It may be `false` even so.
    pub another_comes: bool,
}

/// What lies under a queue's lock, beside the queue.
#[derive(Clone, Copy, Drop)]
pub struct Turns {
    /// Whether `VIRTIO_F_EVENT_IDX` was negotiated.
    pub by_event: bool,
    pub notifications: Notifications,
    /// The number of threads that sleep, or woke and don't have the lock yet.
    pub sleeping: u64,
    /// A thread that sleeps is woken by orders, and doesn't have the lock yet.
    pub called: bool,
    /// A push wants a used buffer notification, and the thread that holds the lock must send it.
    pub owed: bool,
    pub phase: TurnPhase,
}

impl Notifications {
    /// Whether memory asks for a notification of the chain at the next position.
    fn is_enabled_at(self, by_event: bool, next_avail: u16) -> bool
        ensures { result ≡ is_enabled_at by_event self next_avail }
    {
        match self {
            Notifications::Enabled(at) => !by_event || at == next_avail,
            Notifications::Unknown | Notifications::Disabled => false,
        }
    }

    fn is_disabled(self) -> bool
        ensures { result ≡ is_disabled self }
    {
        matches!(self, Notifications::Disabled)
    }
}

impl Turns {
    /// A queue that no thread serves yet.
    pub fn new(by_event: bool) -> Turns
        ensures { result ≡ begun_turns by_event }
    {
        Turns {
            by_event,
            notifications: Notifications::Unknown,
            sleeping: 0,
            called: false,
            owed: false,
            phase: TurnPhase::Free,
        }
    }

    /// The queue was reset by a thread that holds its lock, while others may sleep or answer chains.
    /// - Before its event: signal the threads' event then, since chains may be available.
    /// - In its own pop, once `Pop` is ordered: then it reports what it popped of the new queue.
    ///
    /// Returns `false`, and changes nothing, while a thread has another action to perform.
    pub fn reset(&mut self, by_event: bool) -> bool
        ensures turns { self.new ≡ after_reset self.old by_event }
        ensures done { result ≡ may_reset self.old.phase }
    {
        if !matches!(self.phase, TurnPhase::Free | TurnPhase::Pops) {
            return false;
        }
        self.by_event = by_event;
        self.notifications = Notifications::Unknown;
        true
    }

    fn stays(&mut self, phase: TurnPhase, action: TurnAction) -> TurnOrders
        ensures turns { self.new ≡ (stays self.old phase action).turns }
        ensures orders { result ≡ (stays self.old phase action).orders }
    {
        self.phase = phase;
        TurnOrders {
            action,
            wakes: false,
            interrupts: false,
        }
    }

    fn leaves(&mut self, action: TurnAction, wakes: bool) -> TurnOrders
        ensures turns { self.new ≡ (leaves self.old action wakes).turns }
        ensures orders { result ≡ (leaves self.old action wakes).orders }
    {
        let interrupts = self.owed;
        self.phase = TurnPhase::Free;
        self.owed = false;
        TurnOrders {
            action,
            wakes,
            interrupts,
        }
    }

    fn wakes_one(&mut self) -> TurnOrders
        ensures turns { self.new ≡ (wakes_one self.old).turns }
        ensures orders { result ≡ (wakes_one self.old).orders }
    {
        self.called = true;
        self.leaves(TurnAction::Answer, true)
    }

    fn arms(&mut self, phase: TurnPhase) -> TurnOrders
        ensures turns { self.new ≡ (arms self.old phase).turns }
        ensures orders { result ≡ (arms self.old phase).orders }
    {
        self.notifications = Notifications::Unknown;
        self.stays(phase, TurnAction::Arm)
    }

    fn rests(&mut self) -> TurnOrders
        ensures turns { self.new ≡ (rests self.old).turns }
        ensures orders { result ≡ (rests self.old).orders }
    {
        if self.sleeping == u64::MAX {
            return self.leaves(TurnAction::StepAside, false);
        }
        self.sleeping += 1;
        self.leaves(TurnAction::Sleep, false)
    }

    fn ends(&mut self) -> TurnOrders
        ensures turns { self.new ≡ (ends self.old).turns }
        ensures orders { result ≡ (ends self.old).orders }
    {
        if self.sleeping == 0 {
            return self.leaves(TurnAction::Stop, false);
        }
        self.called = true;
        self.leaves(TurnAction::Stop, true)
    }

    fn hands_on(&mut self, seen: Seen) -> TurnOrders
        ensures turns { self.new ≡ (hands_on self.old seen).turns }
        ensures orders { result ≡ (hands_on self.old seen).orders }
    {
        let is_idle = self.sleeping == 0 || seen.is_full;
        if is_idle || self.called || seen.another_comes {
            if is_idle && !self.by_event && !self.notifications.is_disabled() {
                self.notifications = Notifications::Disabled;
                return self.stays(TurnPhase::Mutes, TurnAction::Mute);
            }
            return self.leaves(TurnAction::Answer, false);
        }
        if self
            .notifications
            .is_enabled_at(self.by_event, seen.next_avail)
        {
            return self.stays(TurnPhase::Looks, TurnAction::Look);
        }
        self.arms(TurnPhase::ArmsToAnswer)
    }

    fn finds_none(&mut self, polls: bool, seen: Seen) -> TurnOrders
        ensures turns { self.new ≡ (finds_none self.old polls seen).turns }
        ensures orders { result ≡ (finds_none self.old polls seen).orders }
    {
        if polls {
            return self.leaves(TurnAction::StepAside, false);
        }
        if self
            .notifications
            .is_enabled_at(self.by_event, seen.next_avail)
        {
            return self.rests();
        }
        self.arms(TurnPhase::ArmsToSleep)
    }

    fn begins(&mut self, no_answer: bool) -> TurnOrders
        ensures turns { self.new ≡ (begins self.old no_answer).turns }
        ensures orders { result ≡ (begins self.old no_answer).orders }
    {
        if no_answer {
            return self.stays(TurnPhase::Pops, TurnAction::Pop);
        }
        self.stays(TurnPhase::Resumes, TurnAction::Resume)
    }

    fn enters(&mut self, event: TurnEvent) -> TurnOrders
        ensures turns { self.new ≡ (enters self.old event).turns }
        ensures orders { result ≡ (enters self.old event).orders }
    {
        match event {
            TurnEvent::Woken { no_answer } => {
                if self.sleeping == 0 {
                    return WRONG;
                }
                self.sleeping -= 1;
                self.called = false;
                self.begins(no_answer)
            }
            TurnEvent::Back { notify, no_answer } => {
                self.owed = self.owed || notify;
                self.begins(no_answer)
            }
            _ => WRONG,
        }
    }

    fn resumes(&mut self, event: TurnEvent, seen: Seen) -> TurnOrders
        ensures turns { self.new ≡ (resumes self.old event seen).turns }
        ensures orders { result ≡ (resumes self.old event seen).orders }
    {
        match event {
            TurnEvent::Resumed { another } => {
                if another && self.sleeping > 0 && !self.called {
                    return self.wakes_one();
                }
                self.hands_on(seen)
            }
            TurnEvent::NoneResumed => self.stays(TurnPhase::Pops, TurnAction::Pop),
            TurnEvent::Refused => self.ends(),
            _ => WRONG,
        }
    }

    fn pops(&mut self, event: TurnEvent, seen: Seen) -> TurnOrders
        ensures turns { self.new ≡ (pops self.old event seen).turns }
        ensures orders { result ≡ (pops self.old event seen).orders }
    {
        match event {
            TurnEvent::Popped => self.hands_on(seen),
            TurnEvent::Idle { polls } => self.finds_none(polls, seen),
            TurnEvent::Full | TurnEvent::Paused => self.rests(),
            TurnEvent::Later => self.leaves(TurnAction::StepAside, false),
            TurnEvent::Refused => self.ends(),
            _ => WRONG,
        }
    }

    fn arms_to_sleep(&mut self, event: TurnEvent, seen: Seen) -> TurnOrders
        ensures turns { self.new ≡ (arms_to_sleep self.old event seen).turns }
        ensures orders { result ≡ (arms_to_sleep self.old event seen).orders }
    {
        match event {
            TurnEvent::Armed => {
                self.notifications = Notifications::Enabled(seen.next_avail);
                self.stays(TurnPhase::Pops, TurnAction::Pop)
            }
            TurnEvent::NotArmed => self.leaves(TurnAction::StepAside, false),
            _ => WRONG,
        }
    }

    fn arms_to_answer(&mut self, event: TurnEvent, seen: Seen) -> TurnOrders
        ensures turns { self.new ≡ (arms_to_answer self.old event seen).turns }
        ensures orders { result ≡ (arms_to_answer self.old event seen).orders }
    {
        match event {
            TurnEvent::Armed => {
                self.notifications = Notifications::Enabled(seen.next_avail);
                self.stays(TurnPhase::Looks, TurnAction::Look)
            }
            TurnEvent::NotArmed => self.wakes_one(),
            _ => WRONG,
        }
    }

    fn looks(&mut self, event: TurnEvent) -> TurnOrders
        ensures turns { self.new ≡ (looks self.old event).turns }
        ensures orders { result ≡ (looks self.old event).orders }
    {
        match event {
            TurnEvent::More => self.wakes_one(),
            TurnEvent::NoMore => self.leaves(TurnAction::Answer, false),
            _ => WRONG,
        }
    }

    fn muted(&mut self, event: TurnEvent) -> TurnOrders
        ensures turns { self.new ≡ (muted self.old event).turns }
        ensures orders { result ≡ (muted self.old event).orders }
    {
        match event {
            TurnEvent::Muted => self.leaves(TurnAction::Answer, false),
            _ => WRONG,
        }
    }

    /// What the thread that holds the lock does next, by what happened. An event that can't happen
    /// now changes nothing (`Wrong`).
    pub fn next(&mut self, event: TurnEvent, seen: Seen) -> TurnOrders
        ensures turns { self.new ≡ (next self.old event seen).turns }
        ensures orders { result ≡ (next self.old event seen).orders }
    {
        match self.phase {
            TurnPhase::Free => self.enters(event),
            TurnPhase::Resumes => self.resumes(event, seen),
            TurnPhase::Pops => self.pops(event, seen),
            TurnPhase::ArmsToSleep => self.arms_to_sleep(event, seen),
            TurnPhase::ArmsToAnswer => self.arms_to_answer(event, seen),
            TurnPhase::Looks => self.looks(event),
            TurnPhase::Mutes => self.muted(event),
        }
    }
}
