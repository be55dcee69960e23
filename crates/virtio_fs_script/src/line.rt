//! The commands of a script, and the parser of a line.

use crate::number::{is_numeral, parse_number};
use crate::wrong::{WrongLine, WrongWord};
use fs_device::Command;
use fs_queue::{QueueLayout, QueueLayoutError};
use hex::FromHexError;
use std::alloc::{AllocError, Global};
use vm_memory_core::Permissions;

/// A queue's size, and the addresses of its three areas, as a line gives them: not yet checked.
#[derive(Clone, Copy)]
pub struct AskedLayout {
    pub size: u16,
    pub desc: u64,
    pub avail: u64,
    pub used: u64,
}

impl AskedLayout {
    /// The layout, or the error of `QueueLayout::new`.
    pub fn layout(self) -> Result<QueueLayout, QueueLayoutError> {
        QueueLayout::new(self.size, self.desc, self.avail, self.used)
    }
}

/// A command of the script.
#[derive(Drop)]
pub enum Line {
    /// Adds a queue.
    Queue(AskedLayout),
    /// Adds a region of guest memory over a new block.
    Region { base: u64, size: u64 },
    /// The device serves at most `most` requests of a queue.
    Kick { queue: u64, most: u16 },
    /// Resets a queue.
    Reset { queue: u64, layout: AskedLayout },
    /// Moves guest and device to another host.
    Move,
    /// One command of the machine: any other line.
    Machine(Command),
}

// The rest of a line: words with one space between each two, or None after the last word; and the word that
// was read last.
#[derive(Drop)]
struct Words<'a> {
    rest: Option<&'a [u8]>,
    last: &'a [u8],
}

impl<'a> Words<'a> {
    // The next word: it isn't empty, and doesn't end in a carriage return.
    fn next_word(&mut self) -> Result<&'a [u8], WrongLine> {
        let Some(rest) = self.rest else {
            return Err(WrongLine::MissingWord);
        };
        let (word, rest) = match rest.iter().position(|byte| *byte == b' ') {
            Some(space) => (&rest[..space], Some(&rest[space + 1..])),
            None => (rest, None),
        };
        self.rest = rest;
        self.last = word;
        match word.last() {
            None => Err(WrongLine::ExtraBlank),
            Some(b'\r') => Err(WrongLine::CarriageReturn),
            Some(_) => Ok(word),
        }
    }

    fn next_number(&mut self) -> Result<u64, WrongLine> {
        let word = self.next_word()?;
        match parse_number(word) {
            Some(number) => Ok(number),
            None if is_numeral(word) => Err(WrongLine::BigNumber),
            None => Err(WrongLine::NotANumber),
        }
    }

    fn next_pair(&mut self) -> Result<(u64, u64), WrongLine> {
        Ok((self.next_number()?, self.next_number()?))
    }

    fn next_short(&mut self) -> Result<u16, WrongLine> {
        match u16::try_from(self.next_number()?) {
            Ok(number) => Ok(number),
            Err(_) => Err(WrongLine::BigShort),
        }
    }

    fn next_layout(&mut self) -> Result<AskedLayout, WrongLine> {
        Ok(AskedLayout {
            size: self.next_short()?,
            desc: self.next_number()?,
            avail: self.next_number()?,
            used: self.next_number()?,
        })
    }

    // The permissions of a mapping.
    fn next_permissions(&mut self) -> Result<Permissions, WrongLine> {
        match self.next_word()? {
            b"none" => Ok(Permissions::No),
            b"r" => Ok(Permissions::Read),
            b"w" => Ok(Permissions::Write),
            b"rw" => Ok(Permissions::ReadWrite),
            _ => Err(WrongLine::NotPermissions),
        }
    }

    // A switch: true for `on`.
    fn next_switch(&mut self) -> Result<bool, WrongLine> {
        match self.next_word()? {
            b"on" => Ok(true),
            b"off" => Ok(false),
            _ => Err(WrongLine::NotASwitch),
        }
    }

    // The word that was read last, if it is wrong for this reason.
    fn wrong_word(&self, why: WrongLine) -> WrongWord {
        match why {
            WrongLine::MissingWord => WrongWord::none(),
            _ => WrongWord::of(self.last),
        }
    }

    // ExtraWord if a word is left.
    fn end(&mut self) -> Result<(), WrongLine> {
        match self.next_word() {
            Err(WrongLine::MissingWord) => Ok(()),
            Err(why) => Err(why),
            Ok(_) => Err(WrongLine::ExtraWord),
        }
    }
}

// The bytes of a word of hexadecimal digits, two for each byte.
fn parse_bytes(alloc: Global, word: &[u8]) -> Result<Result<Vec<u8>, WrongLine>, AllocError> {
    match hex::decode(alloc, word) {
        Ok(bytes) => Ok(Ok(bytes)),
        Err(FromHexError::OutOfMemory) => Err(AllocError),
        Err(_) => Ok(Err(WrongLine::NotBytes)),
    }
}

// The operands of `write`: the address, and the word of its bytes.
fn next_write<'a>(words: &mut Words<'a>) -> Result<(u64, &'a [u8]), WrongLine> {
    let addr = words.next_number()?;
    let word = words.next_word()?;
    words.end()?;
    Ok((addr, word))
}

// The rest of a `write` line.
fn parse_write(
    alloc: Global,
    words: &mut Words<'_>,
) -> Result<Result<Line, WrongLine>, AllocError> {
    let (addr, word) = match next_write(words) {
        Ok(operands) => operands,
        Err(why) => return Ok(Err(why)),
    };
    let bytes = parse_bytes(alloc, word)?;
    Ok(bytes.map(|bytes| Line::Machine(Command::GuestWrite { addr, bytes })))
}

// The rest of a `kick` line.
fn parse_kick(words: &mut Words<'_>) -> Result<Line, WrongLine> {
    Ok(Line::Kick {
        queue: words.next_number()?,
        most: words.next_short()?,
    })
}

// The rest of a `reset` line.
fn parse_reset(words: &mut Words<'_>) -> Result<Line, WrongLine> {
    Ok(Line::Reset {
        queue: words.next_number()?,
        layout: words.next_layout()?,
    })
}

// The rest of a `map` line.
fn parse_map(words: &mut Words<'_>) -> Result<Command, WrongLine> {
    let (iova, target) = words.next_pair()?;
    let len = words.next_number()? as usize;
    let perm = words.next_permissions()?;
    Ok(Command::Map {
        iova,
        target,
        len,
        perm,
    })
}

// The rest of a `region` line.
fn parse_region(words: &mut Words<'_>) -> Result<Line, WrongLine> {
    let (base, size) = words.next_pair()?;
    Ok(Line::Region { base, size })
}

// The rest of an `alias` line.
fn parse_alias(words: &mut Words<'_>) -> Result<Command, WrongLine> {
    let (base, block) = words.next_pair()?;
    let block = block as usize;
    Ok(Command::InsertRegion { base, block })
}

// The rest of an `unregion` line.
fn parse_unregion(words: &mut Words<'_>) -> Result<Command, WrongLine> {
    let (base, size) = words.next_pair()?;
    Ok(Command::RemoveRegion { base, size })
}

// The rest of a `read` line.
fn parse_read(words: &mut Words<'_>) -> Result<Command, WrongLine> {
    let (addr, len) = words.next_pair()?;
    let len = len as usize;
    Ok(Command::GuestRead { addr, len })
}

// The rest of an `unmap` line.
fn parse_unmap(words: &mut Words<'_>) -> Result<Command, WrongLine> {
    let (iova, len) = words.next_pair()?;
    let len = len as usize;
    Ok(Command::Unmap { iova, len })
}

// The command of a line other than `write`, by its first word and the operands after it.
fn parse_operands(name: &[u8], words: &mut Words<'_>) -> Result<Line, WrongLine> {
    match name {
        b"queue" => Ok(Line::Queue(words.next_layout()?)),
        b"region" => parse_region(words),
        b"kick" => parse_kick(words),
        b"reset" => parse_reset(words),
        b"harvest" => Ok(Line::Machine(Command::Harvest)),
        b"move" => Ok(Line::Move),
        b"map" => Ok(Line::Machine(parse_map(words)?)),
        b"iommu" => Ok(Line::Machine(Command::SetIommu(words.next_switch()?))),
        b"alias" => Ok(Line::Machine(parse_alias(words)?)),
        b"unregion" => Ok(Line::Machine(parse_unregion(words)?)),
        b"read" => Ok(Line::Machine(parse_read(words)?)),
        b"unmap" => Ok(Line::Machine(parse_unmap(words)?)),
        _ => Err(WrongLine::UnknownCommand),
    }
}

// The same, and ExtraWord if a word follows the last operand.
fn parse_all(name: &[u8], words: &mut Words<'_>) -> Result<Line, WrongLine> {
    let line = parse_operands(name, words)?;
    words.end()?;
    Ok(line)
}

// The command of these words, or the reason that they are none.
fn parse_words(
    alloc: Global,
    words: &mut Words<'_>,
) -> Result<Result<Line, WrongLine>, AllocError> {
    match words.next_word() {
        Ok(b"write") => parse_write(alloc, words),
        Ok(name) => Ok(parse_all(name, words)),
        Err(why) => Ok(Err(why)),
    }
}

/// The command of a line, or the reason that it is none, and the word that is wrong. AllocError if an
/// allocation fails.
pub fn parse(
    alloc: Global,
    line: &[u8],
) -> Result<Result<Line, (WrongLine, WrongWord)>, AllocError> {
    let mut words = Words {
        rest: Some(line),
        last: &[],
    };
    match parse_words(alloc, &mut words)? {
        Ok(line) => Ok(Ok(line)),
        Err(why) => Ok(Err((why, words.wrong_word(why)))),
    }
}
