//! The reasons that a line isn't a command.

use std::fmt;
use thiserror::Error;

/// Why a line isn't a command, or not one that is allowed there.
#[derive(Clone, Copy, Debug, PartialEq, Eq, Error)]
pub enum WrongLine {
    #[error("there is no such command")]
    UnknownCommand,
    #[error("a word is missing at the end")]
    MissingWord,
    #[error("there is a word too many")]
    ExtraWord,
    /// An empty word: a blank at either end of the line, or two in a row.
    #[error("the line begins or ends with a blank, or has two in a row")]
    ExtraBlank,
    #[error("a word ends with a carriage return")]
    CarriageReturn,
    #[error("a word that has to be a number isn't one")]
    NotANumber,
    #[error("a number doesn't fit 64 bits")]
    BigNumber,
    #[error("a number that has to fit 16 bits doesn't")]
    BigShort,
    #[error("a word isn't whole bytes in hexadecimal digits")]
    NotBytes,
    #[error("a mapping's permission isn't none, r, w or rw")]
    NotPermissions,
    #[error("a switch isn't on or off")]
    NotASwitch,
    #[error("there is no queue yet: lines of queue come first")]
    NoQueue,
    #[error("no queue can be added once another command has run")]
    LateQueue,
    #[error("there are 64 queues already")]
    ManyQueues,
}

// The most bytes of a wrong word that are printed.
const MOST_WORD_BYTES: usize = 40;

/// The word of a line that is wrong, or none if it isn't one word.
#[derive(Clone, Copy, Debug, PartialEq, Eq)]
pub struct WrongWord {
    bytes: [u8; MOST_WORD_BYTES],
    len: usize,
}

impl WrongWord {
    /// No word.
    pub fn none() -> WrongWord {
        WrongWord {
            bytes: [0; MOST_WORD_BYTES],
            len: 0,
        }
    }

    /// The first bytes of a word.
    pub fn of(word: &[u8]) -> WrongWord {
        let mut wrong = WrongWord::none();
        let len = word.len().min(MOST_WORD_BYTES);
        wrong.bytes[..len].copy_from_slice(&word[..len]);
        wrong.len = len;
        wrong
    }
}

// `: "WORD"`, with `\xNN` for each byte that isn't a printable ASCII character; nothing for no word.
impl fmt::Display for WrongWord {
    fn fmt<W: fmt::Write>(&self, f: &mut fmt::Formatter<W>) -> fmt::Result {
        if self.len == 0 {
            return Ok(());
        }
        f.write_str(": \"")?;
        for byte in self.bytes.iter().take(self.len) {
            if byte.is_ascii_graphic() {
                f.write_char(char::from(*byte))?;
            } else {
                write!(f, "\\x{:02x}", *byte)?;
            }
        }
        f.write_str("\"")
    }
}
