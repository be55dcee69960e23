//! Values that are encoded in a fixed number of bytes.

ghost use Rattle.std.specs.Prelude.{◌≡◌, ℕ, ◌+◌, ◌*◌, ◌≤◌, List, [], ◌∷◌, map, length, refl, replicate, ◌↔◌};
ghost use Rattle.std.specs.Prelude.{IsSome, IfSome, IfOk, OnOk};
ghost use Rattle.std.specs.Int.{w8, w16, w32, w64, w128};
ghost use Rattle.std.specs.Io.KnownBytes.{Appends, Consumes};
ghost use Rattle.std.proofs.Common.{rules};
ghost use Rattle.vm_values.specs.Fields.{Field, unsigned, signed, spelled, AllFit, HasOneReading, zero_field};
ghost use Rattle.vm_values.specs.UniqueProof.{fields_once};

use std::io::{self, Read, Write};

/// A value that is encoded in `SIZE` bytes (vm-memory's `ByteValued`). Rust's integers are little-endian,
/// signed ones in two's complement. A record's bytes are those of its fields in order, without a gap.
pub trait ByteValued: Copy {
    ghost SIZE: { ℕ };

    /// The number of bytes of a value: at most 256.
    const SIZE: usize;

    // The fields of a value. Their bytes in order are the value's bytes.
    ghost fields: { Self → List Field };

    /// Writes the value's bytes over `out`, which has `SIZE` bytes.
    fn put_bytes(&self, out: &mut [u8])
        requires { length out.old ≡ SIZE }
        ensures bytes { out.new ≡ spelled (fields self.now) }
        ensures fits { AllFit (fields self.now) };

    /// The value with these bytes, of which there are `SIZE`.
    fn get_bytes(bytes: &[u8]) -> Self
        requires { length bytes.now ≡ SIZE }
        ensures bytes { bytes.now ≡ spelled (fields result) }
        ensures fits { AllFit (fields result) };

    /// The value whose bytes are all zero.
    final fn zeroed() -> Self
        ensures { spelled (fields result) ≡ replicate SIZE 0 }
    {
        let zeros = [0; 256];
        Self::get_bytes(&zeros[..Self::SIZE])
    }

    /// The value with these bytes. None unless there are `SIZE` of them (vm-memory's
    /// `ByteValued::from_slice`, by value).
    final fn from_slice(bytes: &[u8]) -> Option<Self>
        ensures whole { IsSome result ↔ (length bytes.now ≡ SIZE) }
        ensures bytes { IfSome result (λ x. (bytes.now ≡ spelled (fields x)) × AllFit (fields x)) }
    {
        if bytes.len() == Self::SIZE {
            Some(Self::get_bytes(bytes))
        } else {
            None
        }
    }

    /// Writes the value's bytes to a stream (vm-memory's `ByteValued::write_all_to`). An error is the
    /// stream's; some of the bytes may then be written.
    final fn write_all_to<W: Write>(&self, w: &mut W) -> io::Result<()>
        ensures bytes { OnOk result
            (Appends (W.contents w.old) (W.contents w.new) (spelled (fields self.now))) }
    {
        let mut buffer = [0; 256];
        self.put_bytes(&mut buffer[..Self::SIZE]);
        w.write_all(&buffer[..Self::SIZE])
    }

    /// Reads a value's bytes from a stream (vm-memory's `ByteValued::read_exact_from`). An error is the
    /// stream's; some of the bytes may then be consumed.
    final fn read_exact_from<R: Read>(r: &mut R) -> io::Result<Self>
        ensures bytes { IfOk result
            (λ x. Consumes (R.remaining r.old) (R.remaining r.new) (spelled (fields x))
            × AllFit (fields x)) }
    {
        let mut buffer = [0; 256];
        r.read_exact(&mut buffer[..Self::SIZE])?;
        Ok(Self::get_bytes(&buffer[..Self::SIZE]))
    }

    // All values have fields of one shape, equal fields mean equal values, and `SIZE` is at most 256.
    ghost lawful: { ((x y : Self) → map zero_field (fields x) ≡ map zero_field (fields y))
        × ((x y : Self) → fields x ≡ fields y → x ≡ y)
        × (SIZE ≤ 256) };

    ghost one_reading: { HasOneReading fields } = { λ x y p r e.
        lawful.1 x y (fields_once (fields x) (fields y) (lawful.0 x y) p r e) };
}

impl ByteValued for u8 {
    ghost SIZE = { 1 };

    const SIZE: usize = 1;

    ghost fields = { λ n. unsigned w8 n ∷ [] };

    #[tactic(auto, using(crate::proofs::Places::one_byte), unfolding(crate::specs::Fields::field_bytes, crate::specs::Fields::Fits))]
    fn put_bytes(&self, out: &mut [u8]) {
        out.copy_from_slice(&u8::to_le_bytes(*self));
    }

    #[tactic(auto, using(crate::proofs::Places::one_byte), unfolding(crate::specs::Fields::field_bytes, crate::specs::Fields::Fits))]
    fn get_bytes(bytes: &[u8]) -> Self {
        u8::from_le_bytes([bytes[0]])
    }

    ghost lawful = { (λ x y. refl, λ x y h. Prim.search rules, Prim.search rules) };
}

impl ByteValued for u16 {
    ghost SIZE = { 2 };

    const SIZE: usize = 2;

    ghost fields = { λ n. unsigned w16 n ∷ [] };

    #[tactic(auto, unfolding(crate::specs::Fields::field_bytes, crate::specs::Fields::Fits))]
    fn put_bytes(&self, out: &mut [u8]) {
        out.copy_from_slice(&u16::to_le_bytes(*self));
    }

    #[tactic(auto, using(std::proofs::lemmas::Nat::le_bytes_2), unfolding(crate::specs::Fields::field_bytes, crate::specs::Fields::Fits))]
    fn get_bytes(bytes: &[u8]) -> Self {
        u16::from_le_bytes([bytes[0], bytes[1]])
    }

    ghost lawful = { (λ x y. refl, λ x y h. Prim.search rules, Prim.search rules) };
}

impl ByteValued for u32 {
    ghost SIZE = { 4 };

    const SIZE: usize = 4;

    ghost fields = { λ n. unsigned w32 n ∷ [] };

    #[tactic(auto, unfolding(crate::specs::Fields::field_bytes, crate::specs::Fields::Fits))]
    fn put_bytes(&self, out: &mut [u8]) {
        out.copy_from_slice(&u32::to_le_bytes(*self));
    }

    #[tactic(auto, using(std::proofs::lemmas::Nat::le_bytes_4), unfolding(crate::specs::Fields::field_bytes, crate::specs::Fields::Fits))]
    fn get_bytes(bytes: &[u8]) -> Self {
        u32::from_le_bytes([bytes[0], bytes[1], bytes[2], bytes[3]])
    }

    ghost lawful = { (λ x y. refl, λ x y h. Prim.search rules, Prim.search rules) };
}

impl ByteValued for u64 {
    ghost SIZE = { 8 };

    const SIZE: usize = 8;

    ghost fields = { λ n. unsigned w64 n ∷ [] };

    #[tactic(auto, unfolding(crate::specs::Fields::field_bytes, crate::specs::Fields::Fits))]
    fn put_bytes(&self, out: &mut [u8]) {
        out.copy_from_slice(&u64::to_le_bytes(*self));
    }

    #[tactic(auto, using(std::proofs::lemmas::Nat::le_bytes_8), unfolding(crate::specs::Fields::field_bytes, crate::specs::Fields::Fits))]
    fn get_bytes(bytes: &[u8]) -> Self {
        u64::from_le_bytes([
            bytes[0], bytes[1], bytes[2], bytes[3], bytes[4], bytes[5], bytes[6], bytes[7],
        ])
    }

    ghost lawful = { (λ x y. refl, λ x y h. Prim.search rules, Prim.search rules) };
}

impl ByteValued for u128 {
    ghost SIZE = { 16 };

    const SIZE: usize = 16;

    ghost fields = { λ n. unsigned w128 n ∷ [] };

    #[tactic(auto, unfolding(crate::specs::Fields::field_bytes, crate::specs::Fields::Fits))]
    fn put_bytes(&self, out: &mut [u8]) {
        out.copy_from_slice(&u128::to_le_bytes(*self));
    }

    #[tactic(auto, unfolding(crate::specs::Fields::field_bytes, crate::specs::Fields::Fits))]
    fn get_bytes(bytes: &[u8]) -> Self {
        let low = u64::get_bytes(&bytes[..8]);
        let high = u64::get_bytes(&bytes[8..]);
        high as u128 * 0x1_0000_0000_0000_0000 + low as u128
    }

    ghost lawful = { (λ x y. refl, λ x y h. Prim.search rules, Prim.search rules) };
}

impl ByteValued for usize {
    ghost SIZE = { 8 };

    const SIZE: usize = 8;

    ghost fields = { λ n. unsigned w64 n ∷ [] };

    #[tactic(auto, unfolding(crate::specs::Fields::field_bytes, crate::specs::Fields::Fits))]
    fn put_bytes(&self, out: &mut [u8]) {
        out.copy_from_slice(&usize::to_le_bytes(*self));
    }

    #[tactic(auto, using(std::proofs::lemmas::Nat::le_bytes_8), unfolding(crate::specs::Fields::field_bytes, crate::specs::Fields::Fits))]
    fn get_bytes(bytes: &[u8]) -> Self {
        usize::from_le_bytes([
            bytes[0], bytes[1], bytes[2], bytes[3], bytes[4], bytes[5], bytes[6], bytes[7],
        ])
    }

    ghost lawful = { (λ x y. refl, λ x y h. Prim.search rules, Prim.search rules) };
}

impl ByteValued for i8 {
    ghost SIZE = { 1 };

    const SIZE: usize = 1;

    ghost fields = { λ n. signed w8 n ∷ [] };

    #[tactic(auto, using(crate::proofs::Places::one_byte), unfolding(crate::specs::Fields::field_bytes, crate::specs::Fields::Fits))]
    fn put_bytes(&self, out: &mut [u8]) {
        out.copy_from_slice(&i8::to_le_bytes(*self));
    }

    #[tactic(auto, using(crate::proofs::Places::one_byte), unfolding(crate::specs::Fields::field_bytes, crate::specs::Fields::Fits))]
    fn get_bytes(bytes: &[u8]) -> Self {
        u8::get_bytes(bytes).cast_signed()
    }

    ghost lawful = { (λ x y. refl, λ x y h. Prim.search rules, Prim.search rules) };
}

impl ByteValued for i16 {
    ghost SIZE = { 2 };

    const SIZE: usize = 2;

    ghost fields = { λ n. signed w16 n ∷ [] };

    #[tactic(auto, unfolding(crate::specs::Fields::field_bytes, crate::specs::Fields::Fits))]
    fn put_bytes(&self, out: &mut [u8]) {
        out.copy_from_slice(&i16::to_le_bytes(*self));
    }

    #[tactic(auto, using(std::proofs::lemmas::Nat::le_bytes_2), unfolding(crate::specs::Fields::field_bytes, crate::specs::Fields::Fits))]
    fn get_bytes(bytes: &[u8]) -> Self {
        u16::get_bytes(bytes).cast_signed()
    }

    ghost lawful = { (λ x y. refl, λ x y h. Prim.search rules, Prim.search rules) };
}

impl ByteValued for i32 {
    ghost SIZE = { 4 };

    const SIZE: usize = 4;

    ghost fields = { λ n. signed w32 n ∷ [] };

    #[tactic(auto, unfolding(crate::specs::Fields::field_bytes, crate::specs::Fields::Fits))]
    fn put_bytes(&self, out: &mut [u8]) {
        out.copy_from_slice(&i32::to_le_bytes(*self));
    }

    #[tactic(auto, using(std::proofs::lemmas::Nat::le_bytes_4), unfolding(crate::specs::Fields::field_bytes, crate::specs::Fields::Fits))]
    fn get_bytes(bytes: &[u8]) -> Self {
        u32::get_bytes(bytes).cast_signed()
    }

    ghost lawful = { (λ x y. refl, λ x y h. Prim.search rules, Prim.search rules) };
}

impl ByteValued for i64 {
    ghost SIZE = { 8 };

    const SIZE: usize = 8;

    ghost fields = { λ n. signed w64 n ∷ [] };

    #[tactic(auto, unfolding(crate::specs::Fields::field_bytes, crate::specs::Fields::Fits))]
    fn put_bytes(&self, out: &mut [u8]) {
        out.copy_from_slice(&i64::to_le_bytes(*self));
    }

    #[tactic(auto, using(std::proofs::lemmas::Nat::le_bytes_8), unfolding(crate::specs::Fields::field_bytes, crate::specs::Fields::Fits))]
    fn get_bytes(bytes: &[u8]) -> Self {
        u64::get_bytes(bytes).cast_signed()
    }

    ghost lawful = { (λ x y. refl, λ x y h. Prim.search rules, Prim.search rules) };
}

impl ByteValued for i128 {
    ghost SIZE = { 16 };

    const SIZE: usize = 16;

    ghost fields = { λ n. signed w128 n ∷ [] };

    #[tactic(auto, unfolding(crate::specs::Fields::field_bytes, crate::specs::Fields::Fits))]
    fn put_bytes(&self, out: &mut [u8]) {
        out.copy_from_slice(&i128::to_le_bytes(*self));
    }

    #[tactic(auto, unfolding(crate::specs::Fields::field_bytes, crate::specs::Fields::Fits))]
    fn get_bytes(bytes: &[u8]) -> Self {
        u128::get_bytes(bytes).cast_signed()
    }

    ghost lawful = { (λ x y. refl, λ x y h. Prim.search rules, Prim.search rules) };
}

impl ByteValued for isize {
    ghost SIZE = { 8 };

    const SIZE: usize = 8;

    ghost fields = { λ n. signed w64 n ∷ [] };

    #[tactic(auto, unfolding(crate::specs::Fields::field_bytes, crate::specs::Fields::Fits))]
    fn put_bytes(&self, out: &mut [u8]) {
        out.copy_from_slice(&isize::to_le_bytes(*self));
    }

    #[tactic(auto, using(std::proofs::lemmas::Nat::le_bytes_8), unfolding(crate::specs::Fields::field_bytes, crate::specs::Fields::Fits))]
    fn get_bytes(bytes: &[u8]) -> Self {
        usize::get_bytes(bytes).cast_signed()
    }

    ghost lawful = { (λ x y. refl, λ x y h. Prim.search rules, Prim.search rules) };
}
