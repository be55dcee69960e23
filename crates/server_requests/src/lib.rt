//! The parts of FUSE requests: records, names, values and extensions, read from the front.
#![tactic(auto)]

pub mod extensions;
pub mod forgets;
pub mod names;
pub mod new_names;
pub mod records;
pub mod source;
pub mod xattrs;
