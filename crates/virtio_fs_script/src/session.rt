//! Runs a script's commands, one after another.

ghost use Rattle.std.specs.Prelude.{◌≤◌, length};

use crate::calls::FirstCalls;
use crate::guest::GuestMachine;
use crate::halt::Halt;
use crate::line::{AskedLayout, Line};
use crate::print::{
    print_answer, print_bad_layout, print_calls, print_idle, print_moved, print_ok, print_refused,
};
use crate::wrong::{WrongLine, WrongWord};
use fs_device::{Answer, Command, DeviceError};
use fs_queue::Queue;
use std::alloc::{AllocError, Global};
use std::cell::Cell;
use std::io::Write;
use std::mem;

// The most queues of a device.
const MOST_QUEUES: usize = 64;

/// The queues so far. From the first other command on, a guest whose device has these queues.
#[derive(Drop)]
pub(crate) struct ScriptSession<'a> {
    alloc: Global,
    log: &'a Cell<FirstCalls>,
    queues: Vec<Queue>,
    guest: Option<GuestMachine<'a>>,
    ghost few: { length queues.items ≤ 64 },
}

impl<'a> ScriptSession<'a> {
    /// A session without queues. The file system's calls are passed through `log`.
    pub fn new(alloc: Global, log: &'a Cell<FirstCalls>) -> ScriptSession<'a> {
        ScriptSession {
            alloc,
            log,
            queues: Vec::new(alloc),
            guest: None,
        }
    }

    /// Runs the command of a line, and prints its outcome. A script begins with 1 to 64 queues.
    pub fn run<W: Write>(&mut self, number: usize, line: Line, writer: &mut W) -> Result<(), Halt> {
        if let Line::Queue(layout) = line {
            return self.add_queue(number, layout, writer);
        }
        self.start()?;
        if let Line::Move = line {
            return self.move_guest(number, writer);
        }
        match &mut self.guest {
            Some(guest) => run_on(guest, number, line, writer),
            None => Err(wrong_line(number, WrongLine::NoQueue)),
        }
    }

    fn add_queue<W: Write>(
        &mut self,
        number: usize,
        asked: AskedLayout,
        writer: &mut W,
    ) -> Result<(), Halt> {
        if self.guest.is_some() {
            return Err(wrong_line(number, WrongLine::LateQueue));
        }
        if self.queues.len() == MOST_QUEUES {
            return Err(wrong_line(number, WrongLine::ManyQueues));
        }
        match asked.layout() {
            Ok(layout) => {
                let pushed = self.queues.push(Queue::new(layout));
                pushed.map_err(AllocError::from)?;
                print_ok(writer)?;
            }
            Err(error) => print_bad_layout(writer, error)?,
        }
        Ok(())
    }

    // Moves the guest to another host. NoQueue without a guest.
    fn move_guest<W: Write>(&mut self, number: usize, writer: &mut W) -> Result<(), Halt> {
        let Some(guest) = self.guest.take() else {
            return Err(wrong_line(number, WrongLine::NoQueue));
        };
        let (guest, record_len) = guest.moved()?;
        self.guest = Some(guest);
        print_moved(writer, record_len)?;
        Ok(())
    }

    // Makes the guest at the first command after the queues.
    fn start(&mut self) -> Result<(), AllocError> {
        if !self.queues.is_empty() {
            let queues = mem::replace(&mut self.queues, Vec::new(self.alloc));
            self.guest = Some(GuestMachine::new(self.alloc, self.log, queues)?);
        }
        Ok(())
    }
}

// A line that isn't allowed there, as a whole.
fn wrong_line(number: usize, why: WrongLine) -> Halt {
    Halt::NotACommand(number, why, WrongWord::none())
}

// Runs a command that is neither a queue nor a move.
fn run_on<W: Write>(
    guest: &mut GuestMachine<'_>,
    number: usize,
    line: Line,
    writer: &mut W,
) -> Result<(), Halt> {
    match line {
        Line::Queue(_) | Line::Move => Err(wrong_line(number, WrongLine::LateQueue)),
        Line::Region { base, size } => region(guest, base, size, writer),
        Line::Kick { queue, most } => kick(guest, queue, most, writer),
        Line::Reset { queue, layout } => reset(guest, queue, layout, writer),
        Line::Machine(command) => perform(guest, command, writer),
    }
}

// Makes a block and a region over all of it, and prints the answer. The block stays if the region is refused.
fn region<W: Write>(
    guest: &mut GuestMachine<'_>,
    base: u64,
    size: u64,
    writer: &mut W,
) -> Result<(), Halt> {
    let answer = insert_block(guest, base, size)?;
    print_answer(writer, &answer)?;
    Ok(())
}

// Makes a block and a region over all of it. The answer is the block, or a refusal.
fn insert_block(guest: &mut GuestMachine<'_>, base: u64, size: u64) -> Result<Answer, AllocError> {
    let len = size as usize;
    let made = guest.perform(Command::NewBlock { len })?;
    let Answer::Block(block) = made else {
        return Ok(made);
    };
    match guest.perform(Command::InsertRegion { base, block })? {
        Answer::Done => Ok(made),
        refused => Ok(refused),
    }
}

// Carries out one command of the machine, and prints its answer.
fn perform<W: Write>(
    guest: &mut GuestMachine<'_>,
    command: Command,
    writer: &mut W,
) -> Result<(), Halt> {
    let answer = guest.perform(command)?;
    print_answer(writer, &answer)?;
    Ok(())
}

// The outcome of a step of a queue.
enum StepOutcome {
    Idle,
    Done,
    Refused,
}

// The step's outcome, from the answer to a kick for one request.
fn printed_outcome(answer: &Answer) -> StepOutcome {
    match answer {
        Answer::Served(run) if run.refused.is_some() => StepOutcome::Refused,
        Answer::Served(run) if run.done.is_empty() => StepOutcome::Idle,
        Answer::Served(_) => StepOutcome::Done,
        _ => StepOutcome::Refused,
    }
}

// Serves the next request of a queue, and prints the file system's calls and then the answer.
fn step<W: Write>(
    guest: &mut GuestMachine<'_>,
    queue: usize,
    writer: &mut W,
) -> Result<StepOutcome, Halt> {
    let answer = guest.perform(Command::Kick { queue, most: 1 })?;
    print_calls(writer, &guest.take_log())?;
    print_answer(writer, &answer)?;
    Ok(printed_outcome(&answer))
}

// Serves requests of a queue until none is available, a step is refused, or `most` are done. Prints `idle` if
// none was done and no step was refused.
fn kick<W: Write>(
    guest: &mut GuestMachine<'_>,
    queue: u64,
    most: u16,
    writer: &mut W,
) -> Result<(), Halt> {
    let queue = queue as usize;
    if !guest.has_queue(queue) {
        print_refused(writer, DeviceError::NoSuchQueue.number())?;
        return Ok(());
    }
    let mut is_idle = true;
    for _ in 0..most {
        match step(guest, queue, writer)? {
            StepOutcome::Idle => break,
            StepOutcome::Done => is_idle = false,
            StepOutcome::Refused => return Ok(()),
        }
    }
    if is_idle {
        print_idle(writer)?;
    }
    Ok(())
}

fn reset<W: Write>(
    guest: &mut GuestMachine<'_>,
    queue: u64,
    asked: AskedLayout,
    writer: &mut W,
) -> Result<(), Halt> {
    let queue = queue as usize;
    match asked.layout() {
        Ok(layout) => perform(guest, Command::ResetQueue { queue, layout }, writer),
        Err(error) => {
            print_bad_layout(writer, error)?;
            Ok(())
        }
    }
}
