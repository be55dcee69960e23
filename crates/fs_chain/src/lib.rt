//! A chain of a queue from its pop to its push, by a handle that touches no memory, no file and no clock.
#![tactic(auto)]

mod ahead;
mod answering;
mod beginning;
mod chain_handle;
mod decoding;
mod driven;
mod error;
mod giving_up;
mod going_on;
mod iotlb;
mod iotlb_place;
pub mod laws;
mod listing;
mod loads;
mod looking;
mod notifications;
mod own_reply;
mod popping;
mod pushing;
mod queue;
mod ring_place;
mod state;
mod ticket;
mod window_cursor;

pub use answering::Replied;
pub use chain_handle::ChainHandle;
pub use decoding::Decoded;
pub use driven::push_whole;
pub use error::ChainError;
pub use iotlb_place::IotlbPlace;
pub use listing::AddOutcome;
pub use loads::LoadOutcome;
pub use notifications::NotificationStore;
pub use popping::PopOutcome;
pub use pushing::PushStores;
pub use queue::QueueState;
pub use ring_place::{HostPlace, RingPlace};
pub use state::{ChainReply, ChainState, InFlight, PopId};
pub use window_cursor::WindowCursor;
