//! The FUSE server in two phases: it returns the one call of a request as a value, and takes its answer.
#![tactic(auto)]

mod answering;
mod asking;
mod dispatch;
mod ending;
mod entries;
mod gathering;
mod listing;
mod rows;
mod session;
mod waiting;

pub use answering::{AnswerRefusal, Answered, RefusedAnswer, Sent};
pub use asking::{AskedFront, DecodedRequest};
pub use listing::{Listing, ListingReply, NotAdded};
pub use server_replies::fronts::Front;
pub use session::Session;
pub use waiting::{Awaits, Waiting};
