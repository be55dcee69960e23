//! Runs a script of guest accesses and kicks on a virtio-fs device, over any reader and writer.
#![tactic(auto)]

mod calls;
mod files;
mod guest;
mod halt;
mod line;
mod number;
mod print;
mod script;
mod session;
mod wrong;

pub use calls::{Call, FirstCalls};
pub use files::{LoggingFiles, RootEntries};
pub use halt::Halt;
pub use line::{AskedLayout, Line, parse};
pub use number::parse_number;
pub use print::{
    print_answer, print_bad_layout, print_calls, print_idle, print_moved, print_ok, print_refused,
};
pub use script::{play_script, print_usage, read_script, run_script};
pub use wrong::{WrongLine, WrongWord};
