//! A device beside a guest that runs: the states and events of several chains on several queues, and the
//! theorems on runs of them. Each theorem is the contract of a function that does nothing.
#![tactic(auto)]

ghost use Rattle.live_machine.specs.Files.{RunsOverFiles};
ghost use Rattle.live_machine.specs.Guest.{PagesOfRun};
ghost use Rattle.live_machine.specs.InitBeside.{InitBeside};
ghost use Rattle.live_machine.specs.Overlap.{Overlap};
ghost use Rattle.live_machine.specs.Rewritten.{Rewritten};
ghost use Rattle.live_machine.specs.Rounds.{BeginsWithAllMarked, EndsWithWholeCopy, RoundsLoseNothing};
ghost use Rattle.live_machine.specs.Runs.{CallsAreARun, EachCallIsMeant, LiveUsedInOrder, MovedContinues};
ghost use Rattle.live_machine.specs.Runs.{OncePerLiveChain, OwnIsReturned, PagesAreMarked};
ghost use Rattle.live_machine.specs.Runs.{ReturnedIsStepBy, ReturnsAreMapped};
ghost use Rattle.live_machine.specs.Runs.{ReturnsReport, RunsOnQueue, PositionsAgree, StoresStayThere};
ghost use Rattle.live_machine.specs.Serial.{SingleIsStep, SerialIsKick};
ghost use Rattle.live_machine.specs.Several.{ByEvent, KeepsOrder, OncePerChain, OneAtATime, UsedInOrder};
ghost use Rattle.live_machine.specs.Steps.{PopIsStepBy, ReturnedBesideIsStep, ReturnedIsStep};
ghost use Rattle.live_machine.specs.Options.{OptionsStay};

use fuse_fs::FileSystem;

/// The theorems on the pops and returns of one queue. Each popped chain ends once, and the used ring is
/// filled in order. If chains are popped one at a time, or returned oldest first, each is returned at the
/// position of its pop. With the event index, `used_event` enables the notification of a return exactly if
/// the used index passes it.
pub fn law_queues()
    ensures once { OncePerChain }
    ensures used { UsedInOrder }
    ensures one { OneAtATime }
    ensures order { KeepsOrder }
    ensures event { ByEvent }
{}

/// The theorems on a run of several chains. The guest may write meanwhile, chains may be given up or
/// abandoned, and the memory may get other mappings.
/// - The calls are a run of the file system. Those of a chain are the first that its request means, also if
///   the chain isn't returned.
/// - Each returned chain is by itself the plain machine's step by its loads. A chain with its caller's own
///   bytes is stored as a step's reply is.
/// - Stores stay where they may be, and those of a return are mapped. The pages that an event reports are
///   those that its stores mark.
/// - On each queue, chains are popped and returned as on that queue alone.
/// - A queue without chains in flight has one position.
/// - A device that moves then goes on as one that didn't.
pub fn law_runs<F: FileSystem, G: FileSystem>()
    ensures calls { CallsAreARun F.may }
    ensures meant { EachCallIsMeant F.may }
    ensures step { ReturnedIsStepBy F.may G.may }
    ensures own { OwnIsReturned G F.may }
    ensures stores { StoresStayThere F.may }
    ensures pages { PagesAreMarked F.may }
    ensures tell { ReturnsReport F.may }
    ensures log { PagesOfRun F.may }
    ensures positions { PositionsAgree F.may }
    ensures moves { MovedContinues F.may }
    ensures places { ReturnsAreMapped F.may }
    ensures queue { RunsOnQueue F.may }
    ensures once { OncePerLiveChain F.may }
    ensures used { LiveUsedInOrder F.may }
{}

/// Events of a run as steps of the plain machine. A pop that finds no chain is its idle step, and one that is
/// refused its refused step, by the loads of the pop. A chain that is returned at the position of its pop is
/// its step over each memory that has the chain's loads, and that has its stores afterwards. The machine has
/// no event index, and notifies by the flags. Handles with another limit, memory or page size, which aren't
/// of the run, may change its queues.
pub fn law_steps<F: FileSystem, G: FileSystem>()
    ensures pop { PopIsStepBy F.may G.may }
    ensures memory { ReturnedIsStep F.may G.may }
    ensures beside { ReturnedBesideIsStep F.may G.may }
{}

/// One chain after another on one queue, over a memory that has the loaded bytes: the plain machine's steps,
/// and its run for one available buffer notification.
pub fn law_serial<F: FileSystem>()
    ensures single { SingleIsStep F.may }
    ensures kick { SerialIsKick F.may }
{}

/// Worked examples: two chains in flight that are returned in the other order; an available ring's entry that
/// the driver rewrites after its load; INIT beside a chain whose call is pending.
pub fn law_examples<F: FileSystem>()
    ensures overlap { Overlap F.may }
    ensures rewritten { Rewritten F.may }
    ensures init { InitBeside F.may }
{}

/// The options of a session that an answer leaves.
pub fn law_options()
    ensures { OptionsStay }
{}

/// A run whose files may answer anything is a run over any files of which its calls are a run. So the
/// contracts of the handle speak of no file system.
pub fn law_files<F: FileSystem>()
    ensures { RunsOverFiles F.may }
{}

/// A migration in rounds, while the guest writes and chains are in flight. A round takes the marks and copies
/// the marked pages byte by byte, beside stores and marks of any thread. Each byte that differs from its copy
/// is still to be copied by this round; or its page is marked; or the caller owes its page's mark for stores
/// of an event. Only a mark after the stores pays it.
pub fn law_rounds<F: FileSystem>()
    ensures begins { BeginsWithAllMarked }
    ensures rounds { RoundsLoseNothing F.may }
    ensures ends { EndsWithWholeCopy }
{}
