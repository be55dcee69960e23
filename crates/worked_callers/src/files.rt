//! An answer of a file system: the contract of `answer` speaks of files that may answer anything.

ghost use Rattle.std.specs.Prelude.{IfErr, OnOk};
ghost use Rattle.fs_chain.specs.Answers.{IsNotTaken};
ghost use Rattle.worked_callers.specs.OverFiles.{AnswersOver};

use fs_chain::{ChainError, ChainHandle, Replied};
use fuse_fs::FileSystem;
use fuse_values::FileAnswer;
use live_machine::law_files;

/// Answers a chain's file call with an answer of this file system. The event is a run over its states, too.
pub fn answer_over_files<F: FileSystem>(
    handle: &mut ChainHandle,
    ticket: u32,
    answer: FileAnswer,
) -> Result<Replied, ChainError>
    ensures refused { IfErr result (λ e. IsNotTaken handle.old ticket answer e) }
    ensures run { OnOk result (AnswersOver F.may handle.old handle.new answer) }
{
    law_files::<F>();
    handle.answer(ticket, answer)
}
