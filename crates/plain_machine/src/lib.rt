//! The plain machine that both devices are proved to be: a guest and its device, without windows,
//! buffers or handles. `specs/` defines its steps and runs; this is the code of their errors and
//! faults.
#![tactic(auto)]

mod error;
mod fault;
mod refusal;

pub use error::DeviceError;
pub use fault::Fault;
pub use refusal::Refusal;
