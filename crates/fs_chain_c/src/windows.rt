//! The host addresses of a chain's bytes.

ghost use Rattle.std.specs.Prelude.{◌≡◌, ◌<◌, ◌≤◌, ◌-◌, ◌^◌, min, IfSome, None};
ghost use Rattle.fs_chain.specs.Passing.{HasPassed};
ghost use Rattle.fs_chain_c.specs.Windows.{FillsWindows, HasNoMore, IsStretch};
ghost use Rattle.fs_chain_c.specs.Handles.{ReportsStretches};

use crate::handle::FsChain;
use crate::popping::host_at;
use fs_chain::{ChainHandle, WindowCursor};
use std::alloc::Global;

/// A piece of host memory, laid out as `struct iovec`.
#[repr(C)]
#[derive(Clone, Copy)]
pub struct FsWindow {
    /// Its host address.
    pub at: usize,
    /// How many bytes it has.
    pub len: usize,
}

// The window of the bytes of one direction from one on, at most so many, of these descriptors.
fn stretch(
    handle: &ChainHandle,
    write_only: bool,
    from: u64,
    most: u64,
    passed: &mut WindowCursor,
) -> Option<FsWindow>
    requires some { 0 < most }
    requires passed { HasPassed write_only handle.now.descriptors.items passed.old }
    ensures passed { HasPassed write_only handle.now.descriptors.items passed.new }
    ensures some { IfSome result (IsStretch handle.now write_only from most) }
    ensures none { result ≡ None → HasNoMore handle.now write_only from }
    ensures low { IfSome result (λ s. s.len ≤ most) }
{
    match handle.next_window(write_only, from, passed) {
        Some(window) => {
            let at = host_at(&window);
            let len = (window.len() as u64).min(most) as usize;
            Some(FsWindow { at, len })
        }
        None => None,
    }
}

/// Fills the first of some windows with those of the bytes of one direction from one on. They cover at most
/// `most` bytes, and none past 2^64 - 1. Returns how many windows it filled.
pub fn fill(
    handle: &ChainHandle,
    write_only: bool,
    from: u64,
    most: u64,
    windows: &mut [FsWindow],
) -> usize
    ensures { FillsWindows handle.now write_only from (min most (2 ^ 64 - 1 - from)) windows.old
        windows.new result }
{
    let (mut at, mut left) = (from, most.min(u64::MAX - from));
    let mut passed = WindowCursor::none();
    for k in 0..windows.len() {
        if left == 0 {
            return k;
        }
        let Some(stretch) = stretch(handle, write_only, at, left, &mut passed) else {
            return k;
        };
        windows[k] = stretch;
        left -= stretch.len as u64;
        at += stretch.len as u64;
    }
    windows.len()
}

/// Fills the windows of the bytes of one direction from one on, at most so many; returns how many windows.
#[inline(never)]
pub fn report_windows(
    alloc: Global,
    chain: &mut FsChain,
    write_only: bool,
    from: u64,
    len: u64,
    windows: &mut [FsWindow],
) -> usize
    ensures { ReportsStretches chain.old.held.value write_only from len windows.old result
        chain.new.held.value windows.new }
{
    let Some(handle) = chain.take(alloc) else {
        return 0;
    };
    let count = fill(&handle, write_only, from, len, windows);
    *chain = FsChain::of_box(handle);
    count
}
