//! Callers of the theorem on a queue's threads: over runs of one and two threads, beside a driver.

ghost use Rattle.std.specs.Prelude.{◌≡◌, ◌<◌, ◌⊎◌, false, true, [], ◌∷◌};
ghost use Rattle.notify.specs.Kicks.{right};
ghost use Rattle.fs_turns.specs.Lives.{Lives, ways_in};
ghost use Rattle.fs_turns.specs.Used.{BothOver, IsUnnotified};
ghost use Rattle.fs_turns.specs.Worlds.{HasChain, IsForgotten, Moves};
ghost use Rattle.law_callers.specs.Turns.{after_reset, at_first, before_reset, both_at_first, both_served};
ghost use Rattle.law_callers.specs.Turns.{both_sleep, four_of_two, interrupts_driver, no_queue, resumed};
ghost use Rattle.law_callers.specs.Turns.{resumes, served, serves};

use fs_turns::law_no_turn_is_lost;

/// A thread sleeps, is woken by the driver, pops a chain, pushes it, interrupts the driver, and sleeps again:
/// then no chain is available, and no interrupt is forgotten.
pub fn sleep_and_serve()
    ensures run { Moves four_of_two at_first serves served }
    ensures forgotten { IsForgotten served }
    ensures none_lost { HasChain four_of_two served ⊎ (0 < served.answered) → ⊥ }
    ensures interrupted { served.undelivered ≡ false }
{
    law_no_turn_is_lost();
}

/// The same for a chain whose answer comes later, while the thread sleeps: no such chain waits.
pub fn resume_a_chain()
    ensures run { Moves four_of_two at_first resumes resumed }
    ensures forgotten { IsForgotten resumed }
    ensures none_lost { HasChain four_of_two resumed ⊎ (0 < resumed.answered) → ⊥ }
    ensures interrupted { resumed.undelivered ≡ false }
{
    law_no_turn_is_lost();
}

/// A queue is reset in the pop of a thread, while another sleeps. The thread serves the chain that is
/// available then, and both sleep.
pub fn reset_in_a_pop()
    ensures run { Lives no_queue (before_reset ∷ after_reset ∷ []) both_sleep }
    ensures forgotten { IsForgotten both_sleep }
    ensures none_lost { HasChain (ways_in after_reset) both_sleep ⊎ (0 < both_sleep.answered) → ⊥ }
    ensures interrupted { both_sleep.undelivered ≡ false }
{
    law_no_turn_is_lost();
}

/// The driver waits for used chains while a thread serves one: it is interrupted.
pub fn interrupt_the_driver()
    ensures run { BothOver four_of_two (right 4 true) both_at_first interrupts_driver both_served }
    ensures notified { IsUnnotified both_served.used → ⊥ }
{
    law_no_turn_is_lost();
}
