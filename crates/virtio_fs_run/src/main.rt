//! Reads a script of guest accesses and kicks from standard input, and runs it on a virtio-fs device.
#![tactic(auto)]

use std::env::{Env, FillError};
use std::io::{self, Write};
use std::process::ExitCode;
use virtio_fs_script::{Halt, play_script, print_usage};

// Whether the program was given an argument.
fn has_argument(environment: &impl Env) -> bool {
    !matches!(environment.arg(1, &mut []), Err(FillError::NotPresent))
}

// Runs the script, prints on standard error why a line isn't a command and its wrong word, and returns the
// exit status.
fn run(rt: &HostRuntime, writer: &mut impl Write) -> u8 {
    let Err(halt) = play_script(rt.alloc(), &mut rt.reader(), writer) else {
        return 0;
    };
    if let Halt::NotACommand(number, why, word) = halt {
        let _reported = eprintln!(rt; "line {number}: {why}{word}");
    }
    halt.status()
}

// Says that a stream failed, if one did.
fn report(rt: &HostRuntime, status: u8) {
    if status == Halt::Stream.status() {
        let _reported = eprintln!(rt; "the script can't be read, or the output can't be written");
    }
}

fn main(rt: HostRuntime) -> ExitCode {
    let mut writer = io::writer(&rt);
    let status = if has_argument(&rt) {
        print_usage(&mut writer)
    } else {
        run(&rt, &mut writer)
    };
    report(&rt, status);
    ExitCode::from(status)
}
