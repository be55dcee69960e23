//! Chains of the worked runs, each by itself. The runs' events are named.

ghost use Rattle.std.specs.Prelude.{◌≡◌, [], Some, slice_get};
ghost use Rattle.fs_queue.specs.declared.fault.QueueError.TheVariants.{HeadOutOfTable};
ghost use Rattle.fs_regions.specs.declared.step.CourseStep.TheVariants as step;
ghost use Rattle.fuse_fs.specs.Calls.{Destroy, Done};
ghost use Rattle.plain_machine.specs.Step.{State};
ghost use Rattle.live_machine.specs.Live.{EndsPop, Happens, LiveRun, LiveState};
ghost use Rattle.live_machine.specs.Overlap.{at_positions, first_answered, first_exchange, first_used, state};
ghost use Rattle.live_machine.specs.Rewritten as rewritten;
ghost use Rattle.live_machine.specs.Rounds.{LosesNothing, after_rounds, events_among};
ghost use Rattle.live_machine.specs.Steps.{IsBeforePop, StepOfPop};
ghost use Rattle.live_machine.specs.Several.{LiveQueue};
ghost use Rattle.worked_callers.specs.WorkedRuns.{LeadsToAStep, all_marked, moments};
ghost use Rattle.worked_callers.specs.WorkedRuns.{overlap_events};

use fuse_fs::FileSystem;
use live_machine::{law_examples, law_rounds, law_runs, law_steps};

/// DESTROY's chain, after which another one was popped and pushed, is a step by its own loads.
pub fn law_overlap_is_step<F: FileSystem>()
    ensures { (before after : F)
        → F.may before Destroy Done after
        → LeadsToAStep F.may (state before (at_positions 0 0) 1 []) overlap_events
        (state after (at_positions 2 2) 0 []) first_answered first_exchange first_used }
{
    law_examples::<F>();
    law_runs::<F, F>();
}

/// The pop by the rewritten entry is the plain machine's refused step, which stops the queue.
pub fn law_rewritten_is_refused<F: FileSystem>()
    ensures { (before after : F)
        → F.may before rewritten.forgets Done after
        → (s : LiveState F) × (mid : LiveState F) × (w : LiveQueue)
        × (slice_get s.queues 0 ≡ Some w)
        × Happens F.may s (EndsPop 0 rewritten.second_loads [] (step.Refused HeadOutOfTable)) mid
        × ((m : State F)
        → IsBeforePop s 0 w m
        → StepOfPop F.may m 0 w.queue rewritten.second_loads (step.Refused HeadOutOfTable)) }
{
    law_examples::<F>();
    law_steps::<F, F>();
}

/// A migration's round beside the run loses nothing. It took the marks of all pages; the guest writes, and
/// the caller marks a page before all bytes are stored.
pub fn law_overlap_loses_nothing<F: FileSystem>()
    ensures { (before after : F)
        → F.may before Destroy Done after
        → (run : LiveRun F.may (state before (at_positions 0 0) 1 []) (events_among moments)
        (state after (at_positions 2 2) 0 []))
        × LosesNothing (after_rounds F.may (state before (at_positions 0 0) 1 []) moments
        (state after (at_positions 2 2) 0 []) run all_marked) }
{
    law_examples::<F>();
    law_rounds::<F>();
}
