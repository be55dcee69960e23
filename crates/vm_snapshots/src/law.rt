//! Properties of memory that threads share.

ghost use Rattle.std.specs.Prelude.{Bool, true};

/// A property of each memory that is put into a `GuestMemoryAtomic`, and so of each that it lends. The
/// caller that makes one chooses it: that a host has the blocks of the regions, say, or that the memory
/// is one of a few.
pub trait MemoryLaw<M> {
    // whether this memory may be put there
    ghost allows: { M → Bool };
}

/// The law that allows any memory.
pub struct AnyMemory;

impl<M> MemoryLaw<M> for AnyMemory {
    ghost allows = { λ m. true };
}
