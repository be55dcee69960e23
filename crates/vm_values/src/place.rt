//! Writing and reading of values one after another, at an offset that moves.

ghost use Rattle.std.specs.Prelude.{◌≡◌, ◌+◌, ◌*◌, ◌≤◌, [], ◌∷◌, length, take, drop, refl};
ghost use Rattle.std.proofs.Common.{rules};
ghost use Rattle.vm_values.specs.Fields.{ds, then_fields, AllFit};

use crate::byte_valued::ByteValued;

/// Writes a record's fields in this order. They must fill the slice.
#[macro_export]
macro_rules! put_fields {
    ($record:expr, $out:expr; $($field:ident)*) => {{
        let mut at = 0;
        $($crate::put($out, &mut at, &$record.$field);)*
    }};
}

/// Reads a record's fields in this order. They must fill the slice.
#[macro_export]
macro_rules! get_fields {
    ($record:ident, $bytes:expr; $($field:ident)*) => {{
        let mut at = 0;
        $record {
            $($field: $crate::get($bytes, &mut at),)*
        }
    }};
}

/// Writes a value at offset `at`, and adds its length to `at`.
#[inline(always)]
pub fn put<T: ByteValued>(out: &mut [u8], at: &mut usize, value: &T)
    requires { at.old + T.SIZE ≤ length out.old }
    ensures place { at.new ≡ at.old + T.SIZE }
    ensures bytes { take at.new out.new ≡ then_fields (take at.old out.old) (T.fields value.now) }
    ensures behind { drop at.new out.new ≡ drop at.new out.old }
    ensures whole { at.new ≡ length out.new
        → out.new ≡ then_fields (take at.old out.old) (T.fields value.now) }
    ensures fits { AllFit (T.fields value.now) }
{
    value.put_bytes(&mut out[*at..*at + T::SIZE]);
    *at += T::SIZE;
}

/// Reads a value at offset `at`, and adds its length to `at`.
#[inline(always)]
pub fn get<T: ByteValued>(bytes: &[u8], at: &mut usize) -> T
    requires { at.old + T.SIZE ≤ length bytes.now }
    ensures place { at.new ≡ at.old + T.SIZE }
    ensures bytes { take at.new bytes.now ≡ then_fields (take at.old bytes.now) (T.fields result) }
    ensures whole { at.new ≡ length bytes.now
        → bytes.now ≡ then_fields (take at.old bytes.now) (T.fields result) }
    ensures fits { AllFit (T.fields result) }
{
    let value = T::get_bytes(&bytes[*at..*at + T::SIZE]);
    *at += T::SIZE;
    value
}

// Writes `N` numbers at offset `at`, and adds their length to `at`.
#[inline(always)]
fn put_array<const N: usize>(out: &mut [u8], at: &mut usize, values: &[u32; N])
    requires { at.old + 4 * N ≤ length out.old }
    ensures place { at.new ≡ at.old + 4 * N }
    ensures bytes { take at.new out.new ≡ then_fields (take at.old out.old) (ds N values.now ∷ []) }
    ensures behind { drop at.new out.new ≡ drop at.new out.old }
    ensures whole { at.new ≡ length out.new
        → out.new ≡ then_fields (take at.old out.old) (ds N values.now ∷ []) }
    ensures fits { AllFit (ds N values.now ∷ []) }
{
    for k in 0..N {
        put(out, at, &values[k]);
    }
}

// Reads `N` numbers at offset `at`, and adds their length to `at`.
#[inline(always)]
fn get_array<const N: usize>(bytes: &[u8], at: &mut usize) -> [u32; N]
    requires { at.old + 4 * N ≤ length bytes.now }
    ensures place { at.new ≡ at.old + 4 * N }
    ensures bytes { take at.new bytes.now ≡ then_fields (take at.old bytes.now) (ds N result ∷ []) }
    ensures whole { at.new ≡ length bytes.now
        → bytes.now ≡ then_fields (take at.old bytes.now) (ds N result ∷ []) }
    ensures fits { AllFit (ds N result ∷ []) }
{
    let mut values = [0; N];
    for k in 0..N {
        values[k] = get(bytes, at);
    }
    values
}

impl ByteValued for [u32; 6] {
    ghost SIZE = { 24 };

    const SIZE: usize = 24;

    ghost fields = { λ xs. ds 6 xs ∷ [] };

    fn put_bytes(&self, out: &mut [u8]) {
        let mut at = 0;
        put_array(out, &mut at, self);
    }

    fn get_bytes(bytes: &[u8]) -> Self {
        let mut at = 0;
        get_array(bytes, &mut at)
    }

    ghost lawful = { (λ x y. refl, λ x y h. Prim.search rules, Prim.search rules) };
}

impl ByteValued for [u32; 7] {
    ghost SIZE = { 28 };

    const SIZE: usize = 28;

    ghost fields = { λ xs. ds 7 xs ∷ [] };

    fn put_bytes(&self, out: &mut [u8]) {
        let mut at = 0;
        put_array(out, &mut at, self);
    }

    fn get_bytes(bytes: &[u8]) -> Self {
        let mut at = 0;
        get_array(bytes, &mut at)
    }

    ghost lawful = { (λ x y. refl, λ x y h. Prim.search rules, Prim.search rules) };
}

impl ByteValued for [u32; 11] {
    ghost SIZE = { 44 };

    const SIZE: usize = 44;

    ghost fields = { λ xs. ds 11 xs ∷ [] };

    fn put_bytes(&self, out: &mut [u8]) {
        let mut at = 0;
        put_array(out, &mut at, self);
    }

    fn get_bytes(bytes: &[u8]) -> Self {
        let mut at = 0;
        get_array(bytes, &mut at)
    }

    ghost lawful = { (λ x y. refl, λ x y h. Prim.search rules, Prim.search rules) };
}

/// Writes a value to `buffer` and reads it again. The contract says that the result is the value.
pub fn written_and_read<T: ByteValued>(value: &T, buffer: &mut [u8]) -> T
    requires { length buffer.old ≡ T.SIZE }
    ensures { result ≡ value.now }
{
    value.put_bytes(buffer);
    T::get_bytes(buffer)
}

/// Reads a value from `bytes` and writes it to `out`. The contract says that `out` is then `bytes`.
pub fn read_and_written<T: ByteValued>(bytes: &[u8], out: &mut [u8])
    requires bytes { length bytes.now ≡ T.SIZE }
    requires out { length out.old ≡ T.SIZE }
    ensures { out.new ≡ bytes.now }
{
    T::get_bytes(bytes).put_bytes(out);
}
