//! Exports for the turns of a queue's threads: the functions of pitskhomu_turns.h, one for each event.

ghost use Rattle.std.specs.Prelude.{◌≡◌, ◌==◌, false, not, if◌then◌else◌};
ghost use Rattle.fs_turns.specs.Next.{begun_turns};
ghost use Rattle.fs_turns.specs.declared.machine.TurnEvent.TheVariants.{Woken, Back, Resumed, NoneResumed};
ghost use Rattle.fs_turns.specs.declared.machine.TurnEvent.TheVariants.{Popped, Idle, Full, Paused};
ghost use Rattle.fs_turns.specs.declared.machine.TurnEvent.TheVariants.{Later, Refused, Armed};
ghost use Rattle.fs_turns.specs.declared.machine.TurnEvent.TheVariants.{NotArmed, More, NoMore, Muted};
ghost use Rattle.fs_turns_c.specs.Numbers.{may_reset_by, nothing_seen, ordered, reset_by, seen_by, seen_of};
ghost use Rattle.fs_turns_c.specs.Numbers.{turned, turns_of};

use fs_turns_c::turns::FsTurns;

/// The turns of a queue that no thread serves yet.
#[unsafe(no_mangle)]
pub extern "C" fn pk_turns_begin(turns: &mut FsTurns, event_index: u32)
    ensures { turns_of turns.new ≡ begun_turns (not (event_index == 0)) }
{
    *turns = FsTurns::new(event_index != 0);
}

/// The queue was reset while threads may sleep: before a thread's event, or in its pop. Returns 1; or 0 if a
/// thread has another action to perform under the lock, and then nothing changed.
#[unsafe(no_mangle)]
pub extern "C" fn pk_turns_reset(turns: &mut FsTurns, event_index: u32) -> u32
    ensures turns { turns_of turns.new ≡ reset_by turns.old (not (event_index == 0)) }
    ensures done { result ≡ (if may_reset_by turns.old.phase then 1 else 0) }
    ensures refused { result ≡ 0 → turns.new ≡ turns.old }
{
    if turns.reset(event_index != 0) { 1 } else { 0 }
}

/// The thread slept, woke for any reason, and has the lock.
#[unsafe(no_mangle)]
pub extern "C" fn pk_turn_woken(turns: &mut FsTurns, answers_wait: u32) -> u32
    ensures turns { turns_of turns.new ≡ turned turns.old (Woken (answers_wait == 0)) nothing_seen }
    ensures orders { result ≡ ordered turns.old (Woken (answers_wait == 0)) nothing_seen }
    ensures refused { result ≡ 0 → turns.new ≡ turns.old }
{
    turns.woken(answers_wait == 0)
}

/// The thread didn't sleep, and has the lock.
#[unsafe(no_mangle)]
pub extern "C" fn pk_turn_back(turns: &mut FsTurns, notify: u32, answers_wait: u32) -> u32
    ensures turns { turns_of turns.new
        ≡ turned turns.old (Back (not (notify == 0)) (answers_wait == 0)) nothing_seen }
    ensures orders { result
        ≡ ordered turns.old (Back (not (notify == 0)) (answers_wait == 0)) nothing_seen }
    ensures refused { result ≡ 0 → turns.new ≡ turns.old }
{
    turns.back(notify != 0, answers_wait == 0)
}

/// The thread took up a chain whose answer came later.
#[unsafe(no_mangle)]
pub extern "C" fn pk_turn_resumed(
    turns: &mut FsTurns,
    another: u32,
    next_avail: u16,
    is_full: u32,
    another_comes: u32,
) -> u32
    ensures turns { turns_of turns.new
        ≡ turned turns.old (Resumed (not (another == 0))) (seen_by next_avail is_full another_comes) }
    ensures orders { result
        ≡ ordered turns.old (Resumed (not (another == 0))) (seen_by next_avail is_full another_comes) }
    ensures refused { result ≡ 0 → turns.new ≡ turns.old }
{
    turns.resumed(another != 0, next_avail, is_full != 0, another_comes != 0)
}

/// No chain waits whose answer came later.
#[unsafe(no_mangle)]
pub extern "C" fn pk_turn_none_resumed(turns: &mut FsTurns) -> u32
    ensures turns { turns_of turns.new ≡ turned turns.old NoneResumed nothing_seen }
    ensures orders { result ≡ ordered turns.old NoneResumed nothing_seen }
    ensures refused { result ≡ 0 → turns.new ≡ turns.old }
{
    turns.none_resumed()
}

/// The thread popped a chain.
#[unsafe(no_mangle)]
pub extern "C" fn pk_turn_popped(
    turns: &mut FsTurns,
    next_avail: u16,
    is_full: u32,
    another_comes: u32,
) -> u32
    ensures turns { turns_of turns.new
        ≡ turned turns.old Popped (seen_by next_avail is_full another_comes) }
    ensures orders { result ≡ ordered turns.old Popped (seen_by next_avail is_full another_comes) }
    ensures refused { result ≡ 0 → turns.new ≡ turns.old }
{
    turns.popped(next_avail, is_full != 0, another_comes != 0)
}

/// No chain is available.
#[unsafe(no_mangle)]
pub extern "C" fn pk_turn_idle(turns: &mut FsTurns, polls: u32, next_avail: u16) -> u32
    ensures turns { turns_of turns.new
        ≡ turned turns.old (Idle (not (polls == 0))) (seen_of next_avail false false) }
    ensures orders { result
        ≡ ordered turns.old (Idle (not (polls == 0))) (seen_of next_avail false false) }
    ensures refused { result ≡ 0 → turns.new ≡ turns.old }
{
    turns.idle(polls != 0, next_avail)
}

/// As many chains are in flight as may be.
#[unsafe(no_mangle)]
pub extern "C" fn pk_turn_full(turns: &mut FsTurns) -> u32
    ensures turns { turns_of turns.new ≡ turned turns.old Full nothing_seen }
    ensures orders { result ≡ ordered turns.old Full nothing_seen }
    ensures refused { result ≡ 0 → turns.new ≡ turns.old }
{
    turns.full()
}

/// No chain is popped for now.
#[unsafe(no_mangle)]
pub extern "C" fn pk_turn_paused(turns: &mut FsTurns) -> u32
    ensures turns { turns_of turns.new ≡ turned turns.old Paused nothing_seen }
    ensures orders { result ≡ ordered turns.old Paused nothing_seen }
    ensures refused { result ≡ 0 → turns.new ≡ turns.old }
{
    turns.paused()
}

/// The thread must try again later.
#[unsafe(no_mangle)]
pub extern "C" fn pk_turn_later(turns: &mut FsTurns) -> u32
    ensures turns { turns_of turns.new ≡ turned turns.old Later nothing_seen }
    ensures orders { result ≡ ordered turns.old Later nothing_seen }
    ensures refused { result ≡ 0 → turns.new ≡ turns.old }
{
    turns.later()
}

/// The queue is refused, or the thread is to end.
#[unsafe(no_mangle)]
pub extern "C" fn pk_turn_refused(turns: &mut FsTurns) -> u32
    ensures turns { turns_of turns.new ≡ turned turns.old Refused nothing_seen }
    ensures orders { result ≡ ordered turns.old Refused nothing_seen }
    ensures refused { result ≡ 0 → turns.new ≡ turns.old }
{
    turns.refused()
}

/// Notifications are enabled.
#[unsafe(no_mangle)]
pub extern "C" fn pk_turn_armed(turns: &mut FsTurns, next_avail: u16) -> u32
    ensures turns { turns_of turns.new ≡ turned turns.old Armed (seen_of next_avail false false) }
    ensures orders { result ≡ ordered turns.old Armed (seen_of next_avail false false) }
    ensures refused { result ≡ 0 → turns.new ≡ turns.old }
{
    turns.armed(next_avail)
}

/// Notifications can't be enabled.
#[unsafe(no_mangle)]
pub extern "C" fn pk_turn_not_armed(turns: &mut FsTurns) -> u32
    ensures turns { turns_of turns.new ≡ turned turns.old NotArmed nothing_seen }
    ensures orders { result ≡ ordered turns.old NotArmed nothing_seen }
    ensures refused { result ≡ 0 → turns.new ≡ turns.old }
{
    turns.not_armed()
}

/// A chain is available.
#[unsafe(no_mangle)]
pub extern "C" fn pk_turn_more(turns: &mut FsTurns) -> u32
    ensures turns { turns_of turns.new ≡ turned turns.old More nothing_seen }
    ensures orders { result ≡ ordered turns.old More nothing_seen }
    ensures refused { result ≡ 0 → turns.new ≡ turns.old }
{
    turns.more()
}

/// No chain is available, by a load for this.
#[unsafe(no_mangle)]
pub extern "C" fn pk_turn_no_more(turns: &mut FsTurns) -> u32
    ensures turns { turns_of turns.new ≡ turned turns.old NoMore nothing_seen }
    ensures orders { result ≡ ordered turns.old NoMore nothing_seen }
    ensures refused { result ≡ 0 → turns.new ≡ turns.old }
{
    turns.no_more()
}

/// Notifications are disabled.
#[unsafe(no_mangle)]
pub extern "C" fn pk_turn_muted(turns: &mut FsTurns) -> u32
    ensures turns { turns_of turns.new ≡ turned turns.old Muted nothing_seen }
    ensures orders { result ≡ ordered turns.old Muted nothing_seen }
    ensures refused { result ≡ 0 → turns.new ≡ turns.old }
{
    turns.muted()
}
