//! The calls of the file system since they were last printed.

use arrayvec::ArrayVec;

// The most calls that a list keeps.
const MOST_CALLS: usize = 64;

// The most bytes that are kept of a name.
const MOST_NAME_BYTES: usize = 16;

/// A call of the file system.
#[derive(Default, Drop)]
pub enum Call {
    #[default]
    Init,
    /// With the name's first 16 bytes.
    Lookup {
        parent: u64,
        name: ArrayVec<u8, MOST_NAME_BYTES>,
    },
    Forget {
        node: u64,
        count: u64,
    },
    Getattr {
        node: u64,
    },
    Read {
        node: u64,
    },
    Write {
        node: u64,
    },
    Readdir {
        node: u64,
    },
}

impl Call {
    /// A look-up of a name, which keeps the name's first 16 bytes.
    pub fn lookup(parent: u64, name: &[u8]) -> Call {
        let mut kept = ArrayVec::new();
        kept.try_extend_from_slice(&name[..name.len().min(MOST_NAME_BYTES)])
            .unwrap();
        Call::Lookup { parent, name: kept }
    }
}

/// The first 64 calls, and the number of later ones. Allocates no memory.
#[derive(Default, Drop)]
pub struct FirstCalls {
    pub calls: ArrayVec<Call, MOST_CALLS>,
    pub more: u64,
}

impl FirstCalls {
    /// Adds a call to the list, or counts it if the list is full.
    pub fn note(&mut self, call: Call) {
        if self.calls.is_full() {
            self.more = self.more.saturating_add(1);
        } else {
            self.calls.push(call);
        }
    }
}
