//! A virtio-fs device, the machine of a guest and its device, and the copies for a move to another
//! host.
#![tactic(auto)]

mod answer_by_copy;
mod answer_by_front;
mod applying;
mod behind;
mod command;
mod copies;
mod device;
mod exchange;
mod fetched_request;
mod harvested;
pub mod laws;
mod layouts;
mod machine;
mod mappings;
mod migrating;
mod phases;
mod queues;
mod reply_front;
mod request_windows;
mod returned;
mod room_left;
mod room_writer;
mod run;
mod saved;
mod short_way;
mod source;
mod whole;

pub use applying::{ApplyError, apply};
pub use command::{Answer, Command};
pub use device::{Device, LEAST_LIMIT};
pub use exchange::Exchange;
pub use fetched_request::FetchedRequest;
pub use fs_record::{RecordSink, RecordSource, RestoreError, Stream, WriteFault};
pub use harvested::{HarvestedPage, harvest};
pub use machine::Machine;
pub use migrating::{Migrated, Stayed};
pub use plain_machine::{DeviceError, Fault, Refusal};
pub use queues::QueueRun;
pub use returned::Returned;
pub use whole::image;
