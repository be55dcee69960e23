//! The machine as numbers that C keeps, and an event's function over them.

ghost use Rattle.std.specs.Prelude.{◌≡◌, ◌+◌, ◌<◌, ◌==◌, false, true, if◌then◌else◌};
ghost use Rattle.fs_turns.specs.Next.{begins, begun_turns, hands_on, is_enabled_at, rests};
ghost use Rattle.fs_turns.specs.declared.machine.TurnPhase.TheVariants.{Free};
ghost use Rattle.fs_turns.specs.declared.machine.TurnEvent.TheVariants.{Woken, Back, Resumed, NoneResumed};
ghost use Rattle.fs_turns.specs.declared.machine.TurnEvent.TheVariants.{Popped};
ghost use Rattle.fs_turns.specs.declared.machine.TurnEvent.TheVariants.{Idle, Full, Paused, Later, Refused};
ghost use Rattle.fs_turns.specs.declared.machine.TurnEvent.TheVariants.{Armed, NotArmed, More, NoMore, Muted};
ghost use Rattle.fs_turns_c.specs.Numbers.{may_reset_by, nothing_seen, ordered, orders_number, reset_by};
ghost use Rattle.fs_turns_c.specs.Numbers.{seen_of, turned, turns_of};

/// `struct pk_turns`: the turns of a queue's threads, which lie with the queue under its lock.
#[repr(C)]
#[derive(Clone, Copy, Drop)]
pub struct FsTurns {
    /// The number of threads that sleep, or woke and don't have the lock yet.
    pub sleeping: u64,
    /// The position for which notifications are enabled, with `VIRTIO_F_EVENT_IDX`.
    pub enabled_at: u16,
    /// What memory says of notifications: 0 is unknown, 1 disabled, 2 enabled.
    pub notifications: u8,
    /// What the lock's holder was told to do last; 0: no thread holds the lock.
    pub phase: u8,
    /// Whether `VIRTIO_F_EVENT_IDX` was negotiated.
    pub event_index: u8,
    /// A thread that sleeps is woken by orders, and doesn't have the lock yet.
    pub called: u8,
    /// The lock's holder must interrupt the driver.
    pub owed: u8,
    pub reserved: u8,
}

// The header asserts the same size.
const _: () = prove!(size_of::<FsTurns>() == 16);

const FREE: u8 = 0;

const RESUMES: u8 = 1;

const POPS: u8 = 2;

const ARMS_TO_SLEEP: u8 = 3;

const ARMS_TO_ANSWER: u8 = 4;

const LOOKS: u8 = 5;

const MUTES: u8 = 6;

const DO_WRONG: u32 = 0;

const DO_RESUME: u32 = 1;

const DO_POP: u32 = 2;

const DO_ARM: u32 = 3;

const DO_LOOK: u32 = 4;

const DO_MUTE: u32 = 5;

const DO_ANSWER: u32 = 6;

const DO_SLEEP: u32 = 7;

const DO_STEP_ASIDE: u32 = 8;

const DO_STOP: u32 = 9;

const WAKE_ONE: u32 = 256;

const INTERRUPT: u32 = 512;

impl FsTurns {
    /// A queue that no thread serves yet.
    pub fn new(event_index: bool) -> FsTurns
        ensures { turns_of result ≡ begun_turns event_index }
    {
        FsTurns {
            sleeping: 0,
            enabled_at: 0,
            notifications: 0,
            phase: FREE,
            event_index: u8::from(event_index),
            called: 0,
            owed: 0,
            reserved: 0,
        }
    }

    /// `Turns::reset`.
    pub fn reset(&mut self, event_index: bool) -> bool
        ensures turns { turns_of self.new ≡ reset_by self.old event_index }
        ensures done { result ≡ may_reset_by self.old.phase }
        ensures refused { result ≡ false → self.new ≡ self.old }
    {
        if self.phase != FREE && self.phase != POPS {
            return false;
        }
        self.event_index = u8::from(event_index);
        self.notifications = 0;
        true
    }

    // The lock is released. Returns PK_INTERRUPT, if that is owed.
    #[inline(always)]
    fn release(&mut self) -> u32
        ensures turns { turns_of self.new ≡ record (turns_of self.old) { phase = Free; owed = false } }
        ensures interrupt { result ≡ (if (turns_of self.old).owed then 512 else 0) }
    {
        let owed = self.owed;
        self.owed = 0;
        self.phase = FREE;
        if owed != 0 { INTERRUPT } else { 0 }
    }

    // The lock is released, and the thread wakes another. `action`: PK_DO_ANSWER or PK_DO_STOP.
    #[inline(always)]
    fn wakes_one(&mut self, action: u32) -> u32
        requires { action < 10 }
        ensures turns { turns_of self.new
            ≡ record (turns_of self.old) { called = true; phase = Free; owed = false } }
        ensures orders { result ≡ action + 256 + (if (turns_of self.old).owed then 512 else 0) }
    {
        self.called = 1;
        action + WAKE_ONE + self.release()
    }

    // Memory asks for a notification of the chain at this position.
    #[inline(always)]
    fn is_enabled_at(&self, next_avail: u16) -> bool
        ensures { result
            ≡ is_enabled_at (turns_of self.now).by_event (turns_of self.now).notifications next_avail }
    {
        self.notifications > 1 && (self.event_index == 0 || self.enabled_at == next_avail)
    }

    // The thread has a chain.
    #[inline(always)]
    fn hands_on(&mut self, next_avail: u16, is_full: bool, another_comes: bool) -> u32
        ensures turns { turns_of self.new
            ≡ (hands_on (turns_of self.old) (seen_of next_avail is_full another_comes)).turns }
        ensures orders { result
            ≡ orders_number (hands_on (turns_of self.old) (seen_of next_avail is_full another_comes)).orders }
        ensures some { 0 < result }
    {
        let is_idle = self.sleeping == 0 || is_full;
        if is_idle || self.called != 0 || another_comes {
            if is_idle && self.event_index == 0 && self.notifications != 1 {
                self.notifications = 1;
                self.phase = MUTES;
                return DO_MUTE;
            }
            return DO_ANSWER + self.release();
        }
        if self.is_enabled_at(next_avail) {
            self.phase = LOOKS;
            return DO_LOOK;
        }
        self.notifications = 0;
        self.phase = ARMS_TO_ANSWER;
        DO_ARM
    }

    // The thread sleeps.
    #[inline(always)]
    fn rests(&mut self) -> u32
        ensures turns { turns_of self.new ≡ (rests (turns_of self.old)).turns }
        ensures orders { result ≡ orders_number (rests (turns_of self.old)).orders }
        ensures some { 0 < result }
    {
        if self.sleeping == u64::MAX {
            return DO_STEP_ASIDE + self.release();
        }
        self.sleeping += 1;
        DO_SLEEP + self.release()
    }

    // The thread has the lock.
    #[inline(always)]
    fn begins(&mut self, no_answer: bool) -> u32
        ensures turns { turns_of self.new ≡ (begins (turns_of self.old) no_answer).turns }
        ensures orders { result ≡ orders_number (begins (turns_of self.old) no_answer).orders }
        ensures some { 0 < result }
    {
        if no_answer {
            self.phase = POPS;
            return DO_POP;
        }
        self.phase = RESUMES;
        DO_RESUME
    }

    /// `TurnEvent::Woken`.
    #[inline(always)]
    #[tactic(auto, using(crate::proofs::Phases::when_free))]
    pub fn woken(&mut self, no_answer: bool) -> u32
        ensures turns { turns_of self.new ≡ turned self.old (Woken no_answer) nothing_seen }
        ensures orders { result ≡ ordered self.old (Woken no_answer) nothing_seen }
        ensures refused { result ≡ 0 → self.new ≡ self.old }
    {
        if self.phase != FREE || self.sleeping == 0 {
            return DO_WRONG;
        }
        self.sleeping -= 1;
        self.called = 0;
        self.begins(no_answer)
    }

    /// `TurnEvent::Back`.
    #[inline(always)]
    #[tactic(auto, using(crate::proofs::Phases::when_free))]
    pub fn back(&mut self, notify: bool, no_answer: bool) -> u32
        ensures turns { turns_of self.new ≡ turned self.old (Back notify no_answer) nothing_seen }
        ensures orders { result ≡ ordered self.old (Back notify no_answer) nothing_seen }
        ensures refused { result ≡ 0 → self.new ≡ self.old }
    {
        if self.phase != FREE {
            return DO_WRONG;
        }
        if notify {
            self.owed = 1;
        }
        self.begins(no_answer)
    }

    /// `TurnEvent::Resumed`.
    #[inline(always)]
    #[tactic(auto, using(crate::proofs::Phases::when_resuming))]
    pub fn resumed(
        &mut self,
        another: bool,
        next_avail: u16,
        is_full: bool,
        another_comes: bool,
    ) -> u32
        ensures turns { turns_of self.new
            ≡ turned self.old (Resumed another) (seen_of next_avail is_full another_comes) }
        ensures orders { result
            ≡ ordered self.old (Resumed another) (seen_of next_avail is_full another_comes) }
        ensures refused { result ≡ 0 → self.new ≡ self.old }
    {
        if self.phase != RESUMES {
            return DO_WRONG;
        }
        if another && self.sleeping > 0 && self.called == 0 {
            return self.wakes_one(DO_ANSWER);
        }
        self.hands_on(next_avail, is_full, another_comes)
    }

    /// `TurnEvent::NoneResumed`.
    #[inline(always)]
    #[tactic(auto, using(crate::proofs::Phases::when_resuming))]
    pub fn none_resumed(&mut self) -> u32
        ensures turns { turns_of self.new ≡ turned self.old NoneResumed nothing_seen }
        ensures orders { result ≡ ordered self.old NoneResumed nothing_seen }
        ensures refused { result ≡ 0 → self.new ≡ self.old }
    {
        if self.phase != RESUMES {
            return DO_WRONG;
        }
        self.phase = POPS;
        DO_POP
    }

    /// `TurnEvent::Popped`.
    #[inline(always)]
    #[tactic(auto, using(crate::proofs::Phases::when_popping))]
    pub fn popped(&mut self, next_avail: u16, is_full: bool, another_comes: bool) -> u32
        ensures turns { turns_of self.new
            ≡ turned self.old Popped (seen_of next_avail is_full another_comes) }
        ensures orders { result ≡ ordered self.old Popped (seen_of next_avail is_full another_comes) }
        ensures refused { result ≡ 0 → self.new ≡ self.old }
    {
        if self.phase != POPS {
            return DO_WRONG;
        }
        self.hands_on(next_avail, is_full, another_comes)
    }

    /// `TurnEvent::Idle`.
    #[inline(always)]
    #[tactic(auto, using(crate::proofs::Phases::when_popping))]
    pub fn idle(&mut self, polls: bool, next_avail: u16) -> u32
        ensures turns { turns_of self.new
            ≡ turned self.old (Idle polls) (seen_of next_avail false false) }
        ensures orders { result ≡ ordered self.old (Idle polls) (seen_of next_avail false false) }
        ensures refused { result ≡ 0 → self.new ≡ self.old }
    {
        if self.phase != POPS {
            return DO_WRONG;
        }
        if polls {
            return DO_STEP_ASIDE + self.release();
        }
        if self.is_enabled_at(next_avail) {
            return self.rests();
        }
        self.notifications = 0;
        self.phase = ARMS_TO_SLEEP;
        DO_ARM
    }

    /// `TurnEvent::Full`.
    #[inline(always)]
    #[tactic(auto, using(crate::proofs::Phases::when_popping))]
    pub fn full(&mut self) -> u32
        ensures turns { turns_of self.new ≡ turned self.old Full nothing_seen }
        ensures orders { result ≡ ordered self.old Full nothing_seen }
        ensures refused { result ≡ 0 → self.new ≡ self.old }
    {
        if self.phase != POPS {
            return DO_WRONG;
        }
        self.rests()
    }

    /// `TurnEvent::Paused`.
    #[inline(always)]
    #[tactic(auto, using(crate::proofs::Phases::when_popping))]
    pub fn paused(&mut self) -> u32
        ensures turns { turns_of self.new ≡ turned self.old Paused nothing_seen }
        ensures orders { result ≡ ordered self.old Paused nothing_seen }
        ensures refused { result ≡ 0 → self.new ≡ self.old }
    {
        if self.phase != POPS {
            return DO_WRONG;
        }
        self.rests()
    }

    /// `TurnEvent::Later`.
    #[inline(always)]
    #[tactic(auto, using(crate::proofs::Phases::when_popping))]
    pub fn later(&mut self) -> u32
        ensures turns { turns_of self.new ≡ turned self.old Later nothing_seen }
        ensures orders { result ≡ ordered self.old Later nothing_seen }
        ensures refused { result ≡ 0 → self.new ≡ self.old }
    {
        if self.phase != POPS {
            return DO_WRONG;
        }
        DO_STEP_ASIDE + self.release()
    }

    /// `TurnEvent::Refused`.
    #[inline(always)]
    #[tactic(auto, using(crate::proofs::Phases::when_resuming, crate::proofs::Phases::when_popping))]
    pub fn refused(&mut self) -> u32
        ensures turns { turns_of self.new ≡ turned self.old Refused nothing_seen }
        ensures orders { result ≡ ordered self.old Refused nothing_seen }
        ensures refused { result ≡ 0 → self.new ≡ self.old }
    {
        if self.phase != RESUMES && self.phase != POPS {
            return DO_WRONG;
        }
        if self.sleeping == 0 {
            return DO_STOP + self.release();
        }
        self.wakes_one(DO_STOP)
    }

    /// `TurnEvent::Armed`.
    #[inline(always)]
    #[tactic(auto, using(crate::proofs::Phases::when_arming_to_sleep, crate::proofs::Phases::when_arming_to_answer))]
    pub fn armed(&mut self, next_avail: u16) -> u32
        ensures turns { turns_of self.new ≡ turned self.old Armed (seen_of next_avail false false) }
        ensures orders { result ≡ ordered self.old Armed (seen_of next_avail false false) }
        ensures refused { result ≡ 0 → self.new ≡ self.old }
    {
        let to_sleep = self.phase == ARMS_TO_SLEEP;
        if !to_sleep && self.phase != ARMS_TO_ANSWER {
            return DO_WRONG;
        }
        self.notifications = 2;
        self.enabled_at = next_avail;
        if to_sleep {
            self.phase = POPS;
            return DO_POP;
        }
        self.phase = LOOKS;
        DO_LOOK
    }

    /// `TurnEvent::NotArmed`.
    #[inline(always)]
    #[tactic(auto, using(crate::proofs::Phases::when_arming_to_sleep, crate::proofs::Phases::when_arming_to_answer))]
    pub fn not_armed(&mut self) -> u32
        ensures turns { turns_of self.new ≡ turned self.old NotArmed nothing_seen }
        ensures orders { result ≡ ordered self.old NotArmed nothing_seen }
        ensures refused { result ≡ 0 → self.new ≡ self.old }
    {
        if self.phase == ARMS_TO_SLEEP {
            return DO_STEP_ASIDE + self.release();
        }
        if self.phase != ARMS_TO_ANSWER {
            return DO_WRONG;
        }
        self.wakes_one(DO_ANSWER)
    }

    /// `TurnEvent::More`.
    #[inline(always)]
    #[tactic(auto, using(crate::proofs::Phases::when_looking))]
    pub fn more(&mut self) -> u32
        ensures turns { turns_of self.new ≡ turned self.old More nothing_seen }
        ensures orders { result ≡ ordered self.old More nothing_seen }
        ensures refused { result ≡ 0 → self.new ≡ self.old }
    {
        if self.phase != LOOKS {
            return DO_WRONG;
        }
        self.wakes_one(DO_ANSWER)
    }

    /// `TurnEvent::NoMore`.
    #[inline(always)]
    #[tactic(auto, using(crate::proofs::Phases::when_looking))]
    pub fn no_more(&mut self) -> u32
        ensures turns { turns_of self.new ≡ turned self.old NoMore nothing_seen }
        ensures orders { result ≡ ordered self.old NoMore nothing_seen }
        ensures refused { result ≡ 0 → self.new ≡ self.old }
    {
        if self.phase != LOOKS {
            return DO_WRONG;
        }
        DO_ANSWER + self.release()
    }

    /// `TurnEvent::Muted`.
    #[inline(always)]
    #[tactic(auto, using(crate::proofs::Phases::when_muting))]
    pub fn muted(&mut self) -> u32
        ensures turns { turns_of self.new ≡ turned self.old Muted nothing_seen }
        ensures orders { result ≡ ordered self.old Muted nothing_seen }
        ensures refused { result ≡ 0 → self.new ≡ self.old }
    {
        if self.phase != MUTES {
            return DO_WRONG;
        }
        DO_ANSWER + self.release()
    }
}
