//! Addresses of guest memory.

ghost use Rattle.std.specs.Prelude.{◌≡◌, ℕ, ◌+◌, ◌-◌, ◌%◌, ◌^◌, ◌<◌, ◌≤◌, ◌↔◌, IsSome, IfSome, IsFalse};
ghost use Rattle.std.specs.Int.RustNames.{bit_and, bit_or};

use std::ops::{BitAnd, BitOr};

/// A length or an offset in guest memory, in bytes (vm-memory's `GuestUsize`).
pub type GuestUsize = u64;

/// The number type of a kind of address (vm-memory's `AddressValue`).
pub trait AddressValue {
    /// The type of an address's number.
    type V;

    // The value as a natural number.
    ghost number: { Self.V → ℕ };

    /// The number 0.
    fn zero() -> Self::V
        ensures { number result ≡ 0 };

    /// The number 1.
    fn one() -> Self::V
        ensures { number result ≡ 1 };
}

/// A 64-bit address of a byte (vm-memory's `Address`).
pub trait Address: AddressValue
    + Copy
    + Default
    + Ord
    + BitAnd<Self::V, Output = Self>
    + BitOr<Self::V, Output = Self> {
    // The address as a number.
    ghost address: { Self → ℕ };

    /// The address with this number.
    fn new(number: Self::V) -> Self
        ensures { address result ≡ Self.number number };

    /// The address's number.
    fn raw_value(&self) -> Self::V
        ensures { Self.number result ≡ address self.now };

    /// The bitwise AND of the address's number and `mask`.
    fn mask(&self, mask: Self::V) -> Self::V
        ensures { Self.number result ≡ bit_and (address self.now) (Self.number mask) };

    /// The number of bytes from `base` up to this address. None if this address is below `base`.
    fn checked_offset_from(&self, base: Self) -> Option<Self::V>
        ensures some { IsSome result ↔ (address base ≤ address self.now) }
        ensures value { IfSome result (λ n. Self.number n ≡ address self.now - address base) };

    /// The address `other` bytes above. None if it would be 2^64 or more.
    fn checked_add(&self, other: Self::V) -> Option<Self>
        ensures some { IsSome result ↔ (address self.now + Self.number other < 2 ^ 64) }
        ensures value { IfSome result (λ a. address a ≡ address self.now + Self.number other) };

    /// The address `other` bytes below. None if it would be negative.
    fn checked_sub(&self, other: Self::V) -> Option<Self>
        ensures some { IsSome result ↔ (Self.number other ≤ address self.now) }
        ensures value { IfSome result (λ a. address a ≡ address self.now - Self.number other) };

    /// The address `other` bytes above modulo 2^64, and whether it wrapped.
    fn overflowing_add(&self, other: Self::V) -> (Self, bool)
        ensures value { address result.0 ≡ (address self.now + Self.number other) % 2 ^ 64 }
        ensures wrapped { IsFalse result.1 ↔ (address self.now + Self.number other < 2 ^ 64) };

    /// The address `other` bytes below modulo 2^64, and whether it wrapped.
    fn overflowing_sub(&self, other: Self::V) -> (Self, bool)
        ensures value { address result.0 ≡ (address self.now + (2 ^ 64 - Self.number other)) % 2 ^ 64 }
        ensures wrapped { IsFalse result.1 ↔ (Self.number other ≤ address self.now) };

    /// The number of bytes from `base` up to this address. `base` must not be above it.
    fn unchecked_offset_from(&self, base: Self) -> Self::V
        requires { address base ≤ address self.now }
        ensures { Self.number result ≡ address self.now - address base };

    /// The address `other` bytes above. It must be below 2^64.
    fn unchecked_add(&self, other: Self::V) -> Self
        requires { address self.now + Self.number other < 2 ^ 64 }
        ensures { address result ≡ address self.now + Self.number other };

    /// The address `other` bytes below. It must not be negative.
    fn unchecked_sub(&self, other: Self::V) -> Self
        requires { Self.number other ≤ address self.now }
        ensures { address result ≡ address self.now - Self.number other };
}

/// An address in the guest's physical memory (vm-memory's `GuestAddress`).
#[derive(Clone, Copy, Debug, Default, PartialEq, Eq, PartialOrd, Ord)]
pub struct GuestAddress(pub u64);

impl BitAnd<u64> for GuestAddress {
    type Output = GuestAddress;

    ghost bitand_gives = { λ a n r. r.0 ≡ bit_and a.0 n };

    fn bitand(self, number: u64) -> GuestAddress {
        GuestAddress(self.0 & number)
    }
}

impl BitOr<u64> for GuestAddress {
    type Output = GuestAddress;

    ghost bitor_gives = { λ a n r. r.0 ≡ bit_or a.0 n };

    fn bitor(self, number: u64) -> GuestAddress {
        GuestAddress(self.0 | number)
    }
}

impl AddressValue for GuestAddress {
    type V = u64;

    ghost number = { λ n. n };

    fn zero() -> u64 {
        0
    }

    fn one() -> u64 {
        1
    }
}

impl Address for GuestAddress {
    ghost address = { λ a. a.0 };

    fn new(number: u64) -> GuestAddress {
        GuestAddress(number)
    }

    fn raw_value(&self) -> u64 {
        let GuestAddress(number) = *self;
        number
    }

    fn mask(&self, mask: u64) -> u64 {
        let GuestAddress(bits) = *self;
        bits & mask
    }

    fn checked_offset_from(&self, base: GuestAddress) -> Option<u64> {
        self.0.checked_sub(base.0)
    }

    fn checked_add(&self, other: u64) -> Option<GuestAddress> {
        match self.0.checked_add(other) {
            Some(number) => Some(GuestAddress(number)),
            None => None,
        }
    }

    fn checked_sub(&self, other: u64) -> Option<GuestAddress> {
        match self.0.checked_sub(other) {
            Some(number) => Some(GuestAddress(number)),
            None => None,
        }
    }

    fn overflowing_add(&self, other: u64) -> (GuestAddress, bool) {
        let (number, wrapped) = self.0.overflowing_add(other);
        (GuestAddress(number), wrapped)
    }

    fn overflowing_sub(&self, other: u64) -> (GuestAddress, bool) {
        let (number, wrapped) = self.0.overflowing_sub(other);
        (GuestAddress(number), wrapped)
    }

    fn unchecked_offset_from(&self, base: GuestAddress) -> u64 {
        self.0 - base.0
    }

    fn unchecked_add(&self, other: u64) -> GuestAddress {
        GuestAddress(self.0 + other)
    }

    fn unchecked_sub(&self, other: u64) -> GuestAddress {
        GuestAddress(self.0 - other)
    }
}

/// An offset into a region of guest memory, in bytes (vm-memory's `MemoryRegionAddress`).
#[derive(Clone, Copy, Debug, Default, PartialEq, Eq, PartialOrd, Ord)]
pub struct MemoryRegionAddress(pub u64);

impl BitAnd<u64> for MemoryRegionAddress {
    type Output = MemoryRegionAddress;

    ghost bitand_gives = { λ a n r. r.0 ≡ bit_and a.0 n };

    fn bitand(self, number: u64) -> MemoryRegionAddress {
        MemoryRegionAddress(self.0 & number)
    }
}

impl BitOr<u64> for MemoryRegionAddress {
    type Output = MemoryRegionAddress;

    ghost bitor_gives = { λ a n r. r.0 ≡ bit_or a.0 n };

    fn bitor(self, number: u64) -> MemoryRegionAddress {
        MemoryRegionAddress(self.0 | number)
    }
}

impl AddressValue for MemoryRegionAddress {
    type V = GuestUsize;

    ghost number = { λ n. n };

    fn zero() -> GuestUsize {
        0
    }

    fn one() -> GuestUsize {
        1
    }
}

impl Address for MemoryRegionAddress {
    ghost address = { λ a. a.0 };

    fn new(number: u64) -> MemoryRegionAddress {
        MemoryRegionAddress(number)
    }

    fn raw_value(&self) -> u64 {
        let MemoryRegionAddress(number) = *self;
        number
    }

    fn mask(&self, mask: u64) -> u64 {
        let MemoryRegionAddress(bits) = *self;
        bits & mask
    }

    fn checked_offset_from(&self, base: MemoryRegionAddress) -> Option<u64> {
        self.0.checked_sub(base.0)
    }

    fn checked_add(&self, other: u64) -> Option<MemoryRegionAddress> {
        match self.0.checked_add(other) {
            Some(number) => Some(MemoryRegionAddress(number)),
            None => None,
        }
    }

    fn checked_sub(&self, other: u64) -> Option<MemoryRegionAddress> {
        match self.0.checked_sub(other) {
            Some(number) => Some(MemoryRegionAddress(number)),
            None => None,
        }
    }

    fn overflowing_add(&self, other: u64) -> (MemoryRegionAddress, bool) {
        let (number, wrapped) = self.0.overflowing_add(other);
        (MemoryRegionAddress(number), wrapped)
    }

    fn overflowing_sub(&self, other: u64) -> (MemoryRegionAddress, bool) {
        let (number, wrapped) = self.0.overflowing_sub(other);
        (MemoryRegionAddress(number), wrapped)
    }

    fn unchecked_offset_from(&self, base: MemoryRegionAddress) -> u64 {
        self.0 - base.0
    }

    fn unchecked_add(&self, other: u64) -> MemoryRegionAddress {
        MemoryRegionAddress(self.0 + other)
    }

    fn unchecked_sub(&self, other: u64) -> MemoryRegionAddress {
        MemoryRegionAddress(self.0 - other)
    }
}
