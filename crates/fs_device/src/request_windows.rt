//! A request's bytes in its windows: the front is copied, and the other bytes are lent.

ghost use Rattle.std.specs.Prelude.{◌≡◌, ◌≤◌, ◌<◌, ◌+◌, ◌++◌, IfSome, drop, length, map, take, vec_capacity};
ghost use Rattle.std.specs.Prelude.{vec_len};
ghost use Rattle.server_segments.specs.Segments.{joined};
ghost use Rattle.vm_memory_core.specs.Host.{lengths};
ghost use Rattle.vm_memory_core.specs.Window.{AllLieIn, byte_in, places};

use std::alloc::Global;
use vm_memory_core::{HostBlocks, VolatileSlice};

// Copies bytes to a buffer from an offset on.
fn put_at(buffer: &mut [u8], at: usize, bytes: &[u8])
    requires { at + length bytes.now ≤ length buffer.old }
    ensures stored { buffer.new ≡ take at buffer.old ++ bytes.now ++ drop (at + length bytes.now) buffer.old }
    ensures len { length buffer.new ≡ length buffer.old }
{
    buffer[at..at + bytes.len()].copy_from_slice(bytes);
}

/// Copies the first bytes of some windows, joined, to a buffer, which they fill.
#[tactic(auto, unfolding(vm_memory_core::specs::Window::AllLieIn))]
#[inline(always)]
pub(crate) fn copy_front<H: HostBlocks>(host: &H, windows: &[VolatileSlice], buffer: &mut [u8])
    requires lie { AllLieIn (lengths (H.host host.now)) windows.now }
    requires enough { length buffer.old ≤ length (places windows.now) }
    ensures { buffer.new ≡ map (byte_in (H.host host.now)) (take (length buffer.old) (places windows.now)) }
{
    let mut done = 0;
    for window in windows {
        if done == buffer.len() {
            return;
        }
        let bytes = host.bytes(*window);
        let count = bytes.len().min(buffer.len() - done);
        put_at(buffer, done, &bytes[..count]);
        done += count;
    }
}

// Appends a segment, for which the list has space.
#[inline(always)]
fn push_segment<'a>(segments: &mut Vec<&'a [u8]>, segment: &'a [u8])
    requires { vec_len segments.old < vec_capacity segments.old }
    ensures joined { joined segments.new.items ≡ joined segments.old.items ++ segment.now }
    ensures len { vec_len segments.new ≡ vec_len segments.old + 1 }
    ensures capacity { vec_capacity segments.old ≤ vec_capacity segments.new }
{
    segments.push(segment).unwrap();
}

/// A front as the first segment, and the bytes behind it in some windows, lent as they are. None if an
/// allocation failed.
#[tactic(auto, unfolding(vm_memory_core::specs::Window::AllLieIn))]
#[inline(always)]
pub(crate) fn segments_behind<'a, H: HostBlocks>(
    alloc: Global,
    host: &'a H,
    windows: &[VolatileSlice],
    front: &'a [u8],
) -> Option<Vec<&'a [u8]>>
    requires { AllLieIn (lengths (H.host host.now)) windows.now }
    ensures { IfSome result (λ s. joined s.items
        ≡ front.now ++ map (byte_in (H.host host.now)) (drop (length front.now) (places windows.now))) }
{
    let Ok(mut segments) = Vec::with_capacity(alloc, windows.len() + 1) else {
        return None;
    };
    push_segment(&mut segments, front);
    let mut left = front.len();
    for window in windows {
        let bytes = host.bytes(*window);
        let count = left.min(bytes.len());
        push_segment(&mut segments, &bytes[count..]);
        left -= count;
    }
    Some(segments)
}
