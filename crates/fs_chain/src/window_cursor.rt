//! A cursor through the bytes of one direction of a chain.

ghost use Rattle.std.specs.Prelude.{◌≡◌, ◌≤◌, ◌<◌, IfSome, drop, length};
ghost use Rattle.fs_chain.specs.Passing.{HasPassed};

use fs_queue::Descriptor;

/// A cursor through the bytes of one direction of a chain: the first `index` descriptors have `bytes` of
/// them. With it the windows of a chain are found one after another, and no descriptor is passed twice.
#[derive(Clone, Copy, Debug)]
pub struct WindowCursor {
    /// How many descriptors it has passed.
    pub index: usize,
    /// How many bytes of the direction they have.
    pub bytes: u64,
}

impl WindowCursor {
    /// A cursor that has passed no descriptor.
    pub fn none() -> WindowCursor
        ensures index { result.index ≡ 0 }
        ensures bytes { result.bytes ≡ 0 }
    {
        WindowCursor { index: 0, bytes: 0 }
    }

    // Passes the next descriptor, unless byte `from` lies in it.
    fn pass_next(
        self,
        descriptors: &[Descriptor],
        write_only: bool,
        from: u64,
    ) -> Option<WindowCursor>
        requires passed { HasPassed write_only descriptors.now self }
        requires below { self.bytes ≤ from }
        requires more { self.index < length descriptors.now }
        ensures passed { IfSome result (HasPassed write_only descriptors.now) }
        ensures below { IfSome result (λ p. p.bytes ≤ from) }
    {
        let descriptor = &descriptors[self.index];
        let index = self.index + 1;
        if descriptor.is_write_only() != write_only {
            let bytes = self.bytes;
            return Some(WindowCursor { index, bytes });
        }
        let len = u64::from(descriptor.len);
        if from - self.bytes < len {
            return None;
        }
        let bytes = self.bytes + len;
        Some(WindowCursor { index, bytes })
    }

    // Passes the descriptors that end at or before byte `from`.
    fn pass(self, descriptors: &[Descriptor], write_only: bool, from: u64) -> WindowCursor
        requires passed { HasPassed write_only descriptors.now self }
        requires below { self.bytes ≤ from }
        ensures passed { HasPassed write_only descriptors.now result }
        ensures below { result.bytes ≤ from }
    {
        let mut passed = self;
        for _ in self.index..descriptors.len() {
            if passed.index == descriptors.len() {
                return passed;
            }
            match passed.pass_next(descriptors, write_only, from) {
                Some(next) => passed = next,
                None => return passed,
            }
        }
        passed
    }

    /// The descriptors that it hasn't passed.
    pub(crate) fn left<'a>(&self, descriptors: &'a [Descriptor]) -> &'a [Descriptor]
        requires { self.now.index ≤ length descriptors.now }
        ensures { result.now ≡ drop self.now.index descriptors.now }
    {
        &descriptors[self.index..]
    }

    /// Moves to the descriptor in which byte `from` lies, or to the end. It starts again from the first
    /// descriptor if that byte was passed already.
    pub(crate) fn pass_to(&mut self, descriptors: &[Descriptor], write_only: bool, from: u64)
        requires passed { HasPassed write_only descriptors.now self.old }
        ensures passed { HasPassed write_only descriptors.now self.new }
        ensures below { self.new.bytes ≤ from }
    {
        let start = if from < self.bytes {
            WindowCursor::none()
        } else {
            *self
        };
        *self = start.pass(descriptors, write_only, from);
    }
}
