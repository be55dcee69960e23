//! A whole script: reads it, and runs it line by line.

use crate::calls::FirstCalls;
use crate::halt::Halt;
use crate::line::parse;
use crate::session::ScriptSession;
use std::alloc::Global;
use std::cell::Cell;
use std::io::{BufWriter, Read, Write};

// The most bytes of a script.
const MOST_SCRIPT_BYTES: usize = 1_048_576;

const BUFFER: usize = 4096;

// The exit status if the program is called with arguments.
const USAGE_STATUS: u8 = 1;

/// The whole script. TooLong if it has more than 1 MiB.
pub fn read_script<R: Read>(alloc: Global, reader: &mut R) -> Result<Vec<u8>, Halt> {
    let mut script = Vec::new(alloc);
    let mut buffer = [0u8; BUFFER];
    for _ in 0..=MOST_SCRIPT_BYTES {
        let room = BUFFER.min((MOST_SCRIPT_BYTES + 1).saturating_sub(script.len()));
        let count = reader.read(&mut buffer[..room])?;
        if count == 0 {
            break;
        }
        script.extend_from_slice(&buffer[..count])?;
    }
    if script.len() > MOST_SCRIPT_BYTES {
        return Err(Halt::TooLong);
    }
    Ok(script)
}

// Runs the line of this number. Skips an empty line and a comment.
fn run_line<W: Write>(
    alloc: Global,
    session: &mut ScriptSession<'_>,
    number: usize,
    text: &[u8],
    writer: &mut W,
) -> Result<(), Halt> {
    if text.is_empty() || text[0] == b'#' {
        return Ok(());
    }
    match parse(alloc, text)? {
        Ok(line) => session.run(number, line, writer),
        Err((why, word)) => Err(Halt::NotACommand(number, why, word)),
    }
}

// Runs each line in turn, up to the first that fails.
fn run_lines<W: Write>(alloc: Global, script: &[u8], writer: &mut W) -> Result<(), Halt> {
    let log = Cell::new(FirstCalls::default());
    let mut session = ScriptSession::new(alloc, &log);
    for (index, text) in script.split(|byte| *byte == b'\n').enumerate() {
        let number = index.saturating_add(1);
        run_line(alloc, &mut session, number, text, writer)?;
    }
    Ok(())
}

// Reads a script and runs its lines.
fn read_and_run<R: Read, W: Write>(
    alloc: Global,
    reader: &mut R,
    writer: &mut W,
) -> Result<(), Halt> {
    let script = read_script(alloc, reader)?;
    run_lines(alloc, &script, writer)
}

// Prints why a script ended early, unless a stream failed, and returns it; Stream if printing fails.
fn print_halt<W: Write>(halt: Halt, writer: &mut W) -> Halt {
    if halt != Halt::Stream && writeln!(writer, "{halt}").is_err() {
        return Halt::Stream;
    }
    halt
}

// Reads a script, runs it, and prints why it ended early, if it did. Doesn't flush the writer.
fn run_and_tell<R: Read, W: Write>(
    alloc: Global,
    reader: &mut R,
    writer: &mut W,
) -> Result<(), Halt> {
    match read_and_run(alloc, reader, writer) {
        Ok(()) => Ok(()),
        Err(halt) => Err(print_halt(halt, writer)),
    }
}

/// Reads a script, runs it, and prints the output of its lines. If it ends early, prints and returns the
/// reason.
pub fn play_script<R: Read, W: Write>(
    alloc: Global,
    reader: &mut R,
    writer: &mut W,
) -> Result<(), Halt> {
    let Ok(mut buffered) = BufWriter::new(alloc, &mut *writer) else {
        return Err(print_halt(Halt::OutOfMemory, writer));
    };
    let played = run_and_tell(alloc, reader, &mut buffered);
    match buffered.flush() {
        Ok(()) => played,
        Err(_) => Err(Halt::Stream),
    }
}

/// As `play_script`, but returns the program's exit status: 0, or `Halt::status`.
pub fn run_script<R: Read, W: Write>(alloc: Global, reader: &mut R, writer: &mut W) -> u8 {
    match play_script(alloc, reader, writer) {
        Ok(()) => 0,
        Err(halt) => halt.status(),
    }
}

/// Prints the usage line in place of a run, and returns the exit status: 1, or 3 if printing fails.
pub fn print_usage<W: Write>(writer: &mut W) -> u8 {
    match writer.write_all(b"usage: virtio_fs_run < script\n") {
        Ok(()) => USAGE_STATUS,
        Err(_) => Halt::Stream.status(),
    }
}
