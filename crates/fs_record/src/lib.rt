//! The saved record of a device: it is written to a sink in version 2, and read from a source in version
//! 1 or 2.
#![tactic(auto)]

mod error;
mod fields;
pub mod laws;
mod restore;
mod save;
mod sink;
mod source;
mod stream;

pub use error::{RestoreError, WriteFault};
pub use restore::restore_record;
pub use save::save_record;
pub use sink::RecordSink;
pub use source::RecordSource;
pub use stream::Stream;
