//! The output lines of a command's outcome.

use crate::calls::{Call, FirstCalls};
use crate::guest::PAGE_BYTES;
use fs_device::{Answer, Exchange, Fault, HarvestedPage, QueueRun};
use fs_queue::{ChainFault, QueueLayoutError};
use std::io;
use std::io::Write;
use virtiofsd_fuse::Error;

const CHUNK: usize = 32;

// A line of a word, and the numbers after it.
fn print_line<W: Write>(writer: &mut W, word: &[u8], numbers: &[u64]) -> io::Result<()> {
    writer.write_all(word)?;
    for number in numbers {
        write!(writer, " {number}")?;
    }
    writer.write_all(b"\n")
}

/// `ok`: a command was done that has no other output.
pub fn print_ok<W: Write>(writer: &mut W) -> io::Result<()> {
    writer.write_all(b"ok\n")
}

/// `badlayout`, and the number of the layout's error.
pub fn print_bad_layout<W: Write>(writer: &mut W, error: QueueLayoutError) -> io::Result<()> {
    print_line(writer, b"badlayout", &[u64::from(error.number())])
}

/// `moved`, and the length of the device's record in bytes.
pub fn print_moved<W: Write>(writer: &mut W, record_len: usize) -> io::Result<()> {
    print_line(writer, b"moved", &[record_len as u64])
}

/// `refused`, and the number of the refusal.
pub fn print_refused<W: Write>(writer: &mut W, number: u8) -> io::Result<()> {
    print_line(writer, b"refused", &[u64::from(number)])
}

// Bytes in hexadecimal digits.
fn print_hexadecimal<W: Write>(writer: &mut W, bytes: &[u8]) -> io::Result<()> {
    let mut rest = bytes;
    while !rest.is_empty() {
        let (chunk, others) = rest.split_at(rest.len().min(CHUNK));
        let mut text = [0u8; 2 * CHUNK];
        let digits = &mut text[..2 * chunk.len()];
        hex::encode_to_slice(chunk, digits).unwrap();
        writer.write_all(digits)?;
        rest = others;
    }
    Ok(())
}

// The bytes that the guest read.
fn print_bytes<W: Write>(writer: &mut W, bytes: &[u8]) -> io::Result<()> {
    writer.write_all(b"bytes ")?;
    print_hexadecimal(writer, bytes)?;
    writer.write_all(b"\n")
}

// The call of a look-up, with the name's first bytes in hexadecimal digits.
fn print_lookup<W: Write>(writer: &mut W, parent: u64, name: &[u8]) -> io::Result<()> {
    write!(writer, "call lookup {parent} ")?;
    print_hexadecimal(writer, name)?;
    writer.write_all(b"\n")
}

// A call of the file system.
fn print_call<W: Write>(writer: &mut W, call: &Call) -> io::Result<()> {
    match call {
        Call::Init => writer.write_all(b"call init\n"),
        Call::Lookup { parent, name } => print_lookup(writer, *parent, name.as_slice()),
        Call::Forget { node, count } => print_line(writer, b"call forget", &[*node, *count]),
        Call::Getattr { node } => print_line(writer, b"call getattr", &[*node]),
        Call::Read { node } => print_line(writer, b"call read", &[*node]),
        Call::Write { node } => print_line(writer, b"call write", &[*node]),
        Call::Readdir { node } => print_line(writer, b"call readdir", &[*node]),
    }
}

/// The calls of the file system in one step, and `more` with the number of calls that weren't kept.
pub fn print_calls<W: Write>(writer: &mut W, log: &FirstCalls) -> io::Result<()> {
    for call in log.calls.as_slice() {
        print_call(writer, call)?;
    }
    if log.more > 0 {
        print_line(writer, b"more", &[log.more])?;
    }
    Ok(())
}

// The name of a chain's fault.
fn chain_fault_name(fault: &ChainFault) -> &'static str {
    match fault {
        ChainFault::TooLong => "TooLong",
        ChainFault::NextOutOfTable => "NextOutOfTable",
        ChainFault::AddressOverflow => "AddressOverflow",
        ChainFault::IndirectWithNext => "IndirectWithNext",
        ChainFault::IndirectNested => "IndirectNested",
        ChainFault::IndirectLength => "IndirectLength",
        ChainFault::TableUnreachable => "TableUnreachable",
        ChainFault::OverLimit => "OverLimit",
        ChainFault::RequestUnreachable => "RequestUnreachable",
        ChainFault::RoomUnreachable => "RoomUnreachable",
    }
}

// The name of a server's error.
fn error_name(error: &Error) -> &'static str {
    match error {
        Error::DecodeMessage => "DecodeMessage",
        Error::EncodeMessage => "EncodeMessage",
        Error::FlushMessage => "FlushMessage",
        Error::MissingParameter => "MissingParameter",
        Error::MissingExtension => "MissingExtension",
        Error::InvalidHeaderLength => "InvalidHeaderLength",
        Error::InvalidCString => "InvalidCString",
        Error::InvalidCString2 => "InvalidCString2",
        Error::InvalidXattrSize(_) => "InvalidXattrSize",
        Error::DescriptorChainOverflow => "DescriptorChainOverflow",
        Error::SplitOutOfBounds(_) => "SplitOutOfBounds",
        Error::IoError(_) => "IoError",
        Error::OutOfMemory => "OutOfMemory",
    }
}

// The name of a fault, or a dash if there is none.
fn fault_name(fault: &Option<Fault>) -> &'static str {
    match fault {
        None => "-",
        Some(Fault::Chain(fault)) => chain_fault_name(fault),
        Some(Fault::Served(error)) => error_name(error),
    }
}

// A request that was returned, with its reply's length in bytes, its fault, and whether to notify the driver.
fn print_done<W: Write>(writer: &mut W, exchange: &Exchange, notify: bool) -> io::Result<()> {
    let head = exchange.head;
    let len = exchange.reply.len();
    let fault = fault_name(&exchange.fault);
    let notify = u8::from(notify);
    writeln!(writer, "done {head} {len} {fault} {notify}")
}

// The requests that were returned, and then the refusal that ended the run, if any.
fn print_run<W: Write>(writer: &mut W, run: &QueueRun) -> io::Result<()> {
    for (exchange, notify) in &run.done {
        print_done(writer, exchange, *notify)?;
    }
    match &run.refused {
        Some(error) => print_refused(writer, error.number()),
        None => Ok(()),
    }
}

/// The answer to a command of the machine.
pub fn print_answer<W: Write>(writer: &mut W, answer: &Answer) -> io::Result<()> {
    match answer {
        Answer::Done => print_ok(writer),
        Answer::Bytes(bytes) => print_bytes(writer, bytes),
        Answer::Block(block) => print_line(writer, b"block", &[*block as u64]),
        Answer::Served(run) => print_run(writer, run),
        Answer::Copied(_) => print_ok(writer),
        Answer::Pages(pages) => print_pages(writer, pages),
        Answer::Refused(refusal) => print_refused(writer, refusal.number()),
    }
}

/// `idle`: no request was available.
pub fn print_idle<W: Write>(writer: &mut W) -> io::Result<()> {
    writer.write_all(b"idle\n")
}

// The marked pages by block and number in it, or `none`.
fn print_pages<W: Write>(writer: &mut W, pages: &[HarvestedPage]) -> io::Result<()> {
    if pages.is_empty() {
        return writer.write_all(b"none\n");
    }
    for page in pages {
        let number = page.offset / PAGE_BYTES as usize;
        print_line(writer, b"page", &[page.block as u64, number as u64])?;
    }
    Ok(())
}
