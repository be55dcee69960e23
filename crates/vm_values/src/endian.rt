//! Numbers with a fixed byte order.

ghost use Rattle.std.specs.Prelude.{◌≡◌, ◌==◌, [], ◌∷◌, refl};
ghost use Rattle.std.specs.Int.{w16, w32, w64};
ghost use Rattle.std.proofs.Common.{rules};
ghost use Rattle.vm_values.specs.Fields.{w, d, q, big_endian};

use crate::byte_valued::ByteValued;

/// A little-endian number of two bytes. The field is the number itself (vm-memory's `Le16`; VIRTIO 1.2, 1.4:
/// le16).
#[derive(Clone, Copy, Debug, Default, PartialEq, Eq)]
pub struct Le16(pub u16);

impl Le16 {
    /// The number itself, as Rust's integer.
    pub fn to_native(self) -> u16
        ensures { result ≡ self.0 }
    {
        let Le16(native) = self;
        native
    }

    /// Whether the number is `number`.
    pub fn eq_native(self, number: u16) -> bool
        ensures { result ≡ (self.0 == number) }
    {
        self == Le16(number)
    }
}

impl From<u16> for Le16 {
    ghost from_gives = { λ n r. r.0 ≡ n };

    fn from(n: u16) -> Self {
        Le16(n)
    }
}

impl From<Le16> for u16 {
    ghost from_gives = { λ x n. n ≡ x.0 };

    fn from(x: Le16) -> Self {
        x.to_native()
    }
}

impl ByteValued for Le16 {
    ghost SIZE = { 2 };

    const SIZE: usize = 2;

    ghost fields = { λ x. w x.0 ∷ [] };

    fn put_bytes(&self, out: &mut [u8]) {
        u16::put_bytes(&self.0, out);
    }

    fn get_bytes(bytes: &[u8]) -> Self {
        Le16(u16::get_bytes(bytes))
    }

    ghost lawful = { (λ x y. refl, λ x y h. Prim.search rules, Prim.search rules) };
}

/// A big-endian number of two bytes. The field is the number itself (vm-memory's `Be16`; VIRTIO 1.2, 1.4:
/// be16).
#[derive(Clone, Copy, Debug, Default, PartialEq, Eq)]
pub struct Be16(pub u16);

impl Be16 {
    /// The number itself, as Rust's integer.
    pub fn to_native(self) -> u16
        ensures { result ≡ self.0 }
    {
        let Be16(native) = self;
        native
    }

    /// Whether the number is `number`.
    pub fn eq_native(self, number: u16) -> bool
        ensures { result ≡ (self.0 == number) }
    {
        self == Be16(number)
    }
}

impl From<u16> for Be16 {
    ghost from_gives = { λ n r. r.0 ≡ n };

    fn from(n: u16) -> Self {
        Be16(n)
    }
}

impl From<Be16> for u16 {
    ghost from_gives = { λ x n. n ≡ x.0 };

    fn from(x: Be16) -> Self {
        x.to_native()
    }
}

impl ByteValued for Be16 {
    ghost SIZE = { 2 };

    const SIZE: usize = 2;

    ghost fields = { λ x. big_endian w16 x.0 ∷ [] };

    #[tactic(auto, unfolding(crate::specs::Fields::field_bytes, crate::specs::Fields::Fits))]
    fn put_bytes(&self, out: &mut [u8]) {
        out.copy_from_slice(&u16::to_be_bytes(self.0));
    }

    #[tactic(auto, using(std::proofs::lemmas::Nat::be_bytes_2), unfolding(crate::specs::Fields::field_bytes, crate::specs::Fields::Fits))]
    fn get_bytes(bytes: &[u8]) -> Self {
        Be16(u16::from_be_bytes([bytes[0], bytes[1]]))
    }

    ghost lawful = { (λ x y. refl, λ x y h. Prim.search rules, Prim.search rules) };
}

/// A little-endian number of four bytes. The field is the number itself (vm-memory's `Le32`; VIRTIO 1.2, 1.4:
/// le32).
#[derive(Clone, Copy, Debug, Default, PartialEq, Eq)]
pub struct Le32(pub u32);

impl Le32 {
    /// The number itself, as Rust's integer.
    pub fn to_native(self) -> u32
        ensures { result ≡ self.0 }
    {
        let Le32(native) = self;
        native
    }

    /// Whether the number is `number`.
    pub fn eq_native(self, number: u32) -> bool
        ensures { result ≡ (self.0 == number) }
    {
        self == Le32(number)
    }
}

impl From<u32> for Le32 {
    ghost from_gives = { λ n r. r.0 ≡ n };

    fn from(n: u32) -> Self {
        Le32(n)
    }
}

impl From<Le32> for u32 {
    ghost from_gives = { λ x n. n ≡ x.0 };

    fn from(x: Le32) -> Self {
        x.to_native()
    }
}

impl ByteValued for Le32 {
    ghost SIZE = { 4 };

    const SIZE: usize = 4;

    ghost fields = { λ x. d x.0 ∷ [] };

    fn put_bytes(&self, out: &mut [u8]) {
        u32::put_bytes(&self.0, out);
    }

    fn get_bytes(bytes: &[u8]) -> Self {
        Le32(u32::get_bytes(bytes))
    }

    ghost lawful = { (λ x y. refl, λ x y h. Prim.search rules, Prim.search rules) };
}

/// A big-endian number of four bytes. The field is the number itself (vm-memory's `Be32`; VIRTIO 1.2, 1.4:
/// be32).
#[derive(Clone, Copy, Debug, Default, PartialEq, Eq)]
pub struct Be32(pub u32);

impl Be32 {
    /// The number itself, as Rust's integer.
    pub fn to_native(self) -> u32
        ensures { result ≡ self.0 }
    {
        let Be32(native) = self;
        native
    }

    /// Whether the number is `number`.
    pub fn eq_native(self, number: u32) -> bool
        ensures { result ≡ (self.0 == number) }
    {
        self == Be32(number)
    }
}

impl From<u32> for Be32 {
    ghost from_gives = { λ n r. r.0 ≡ n };

    fn from(n: u32) -> Self {
        Be32(n)
    }
}

impl From<Be32> for u32 {
    ghost from_gives = { λ x n. n ≡ x.0 };

    fn from(x: Be32) -> Self {
        x.to_native()
    }
}

impl ByteValued for Be32 {
    ghost SIZE = { 4 };

    const SIZE: usize = 4;

    ghost fields = { λ x. big_endian w32 x.0 ∷ [] };

    #[tactic(auto, unfolding(crate::specs::Fields::field_bytes, crate::specs::Fields::Fits))]
    fn put_bytes(&self, out: &mut [u8]) {
        out.copy_from_slice(&u32::to_be_bytes(self.0));
    }

    #[tactic(auto, using(std::proofs::lemmas::Nat::be_bytes_4), unfolding(crate::specs::Fields::field_bytes, crate::specs::Fields::Fits))]
    fn get_bytes(bytes: &[u8]) -> Self {
        Be32(u32::from_be_bytes([bytes[0], bytes[1], bytes[2], bytes[3]]))
    }

    ghost lawful = { (λ x y. refl, λ x y h. Prim.search rules, Prim.search rules) };
}

/// A little-endian number of eight bytes. The field is the number itself (vm-memory's `Le64`; VIRTIO 1.2,
/// 1.4: le64).
#[derive(Clone, Copy, Debug, Default, PartialEq, Eq)]
pub struct Le64(pub u64);

impl Le64 {
    /// The number itself, as Rust's integer.
    pub fn to_native(self) -> u64
        ensures { result ≡ self.0 }
    {
        let Le64(native) = self;
        native
    }

    /// Whether the number is `number`.
    pub fn eq_native(self, number: u64) -> bool
        ensures { result ≡ (self.0 == number) }
    {
        self == Le64(number)
    }
}

impl From<u64> for Le64 {
    ghost from_gives = { λ n r. r.0 ≡ n };

    fn from(n: u64) -> Self {
        Le64(n)
    }
}

impl From<Le64> for u64 {
    ghost from_gives = { λ x n. n ≡ x.0 };

    fn from(x: Le64) -> Self {
        x.to_native()
    }
}

impl ByteValued for Le64 {
    ghost SIZE = { 8 };

    const SIZE: usize = 8;

    ghost fields = { λ x. q x.0 ∷ [] };

    fn put_bytes(&self, out: &mut [u8]) {
        u64::put_bytes(&self.0, out);
    }

    fn get_bytes(bytes: &[u8]) -> Self {
        Le64(u64::get_bytes(bytes))
    }

    ghost lawful = { (λ x y. refl, λ x y h. Prim.search rules, Prim.search rules) };
}

/// A big-endian number of eight bytes. The field is the number itself (vm-memory's `Be64`; VIRTIO 1.2, 1.4:
/// be64).
#[derive(Clone, Copy, Debug, Default, PartialEq, Eq)]
pub struct Be64(pub u64);

impl Be64 {
    /// The number itself, as Rust's integer.
    pub fn to_native(self) -> u64
        ensures { result ≡ self.0 }
    {
        let Be64(native) = self;
        native
    }

    /// Whether the number is `number`.
    pub fn eq_native(self, number: u64) -> bool
        ensures { result ≡ (self.0 == number) }
    {
        self == Be64(number)
    }
}

impl From<u64> for Be64 {
    ghost from_gives = { λ n r. r.0 ≡ n };

    fn from(n: u64) -> Self {
        Be64(n)
    }
}

impl From<Be64> for u64 {
    ghost from_gives = { λ x n. n ≡ x.0 };

    fn from(x: Be64) -> Self {
        x.to_native()
    }
}

impl ByteValued for Be64 {
    ghost SIZE = { 8 };

    const SIZE: usize = 8;

    ghost fields = { λ x. big_endian w64 x.0 ∷ [] };

    #[tactic(auto, unfolding(crate::specs::Fields::field_bytes, crate::specs::Fields::Fits))]
    fn put_bytes(&self, out: &mut [u8]) {
        out.copy_from_slice(&u64::to_be_bytes(self.0));
    }

    #[tactic(auto, using(std::proofs::lemmas::Nat::be_bytes_8), unfolding(crate::specs::Fields::field_bytes, crate::specs::Fields::Fits))]
    fn get_bytes(bytes: &[u8]) -> Self {
        Be64(u64::from_be_bytes([
            bytes[0], bytes[1], bytes[2], bytes[3], bytes[4], bytes[5], bytes[6], bytes[7],
        ]))
    }

    ghost lawful = { (λ x y. refl, λ x y h. Prim.search rules, Prim.search rules) };
}
