//! What a request means, and the reply to the answers of the calls that it asks for.
#![tactic(auto)]

mod data_apart;
mod meanings;
mod meanings_apart;
mod requests;
mod session_options;

pub use data_apart::{REPLY_FRONT, REQUEST_FRONT, begins_a_write};
pub use meanings::{RequestMeaning, row_meaning};
pub use meanings_apart::{
    ForgetsMeaning, InitMeaning, ListingMeaning, forgets_meaning, init_meaning, listing_meaning,
    read_with_room,
};
pub use requests::{MAX_REQUEST_LEN, opcode_of};
pub use session_options::{agree, known};
