//! The numbers of a script.

ghost use Rattle.std.specs.Prelude.{◌≡◌, ◌<◌, ◌≤◌, ◌^◌, ◌↔◌, length, IsTrue};
ghost use Rattle.std.specs.Option.{SomeIff};
ghost use Rattle.std.specs.Str.Parse.{IsNumeral, digits_value};
ghost use Rattle.virtio_fs_script.specs.Number.{is_hexadecimal, radix_of, digits_of};

// The number of digits in a radix. None if there is no digit, a wrong one, or it doesn't fit 64 bits.
fn parse_digits(radix: u32, digits: &[u8]) -> Option<u64>
    requires low { 2 ≤ radix }
    requires high { radix ≤ 36 }
    ensures { SomeIff result (IsNumeral radix digits.now
        × (digits_value radix digits.now < 2 ^ 64)) (digits_value radix digits.now) }
{
    if digits.is_empty() {
        return None;
    }
    let mut value = 0u64;
    for digit in digits {
        let digit = char::from(*digit).to_digit(radix)?;
        value = value
            .checked_mul(u64::from(radix))?
            .checked_add(u64::from(digit))?;
    }
    Some(value)
}

// Whether a word begins with `0x`.
fn has_hexadecimal_prefix(word: &[u8]) -> bool
    ensures is { result ≡ is_hexadecimal word.now }
    ensures long { IsTrue result → 2 ≤ length word.now }
{
    word.len() >= 2 && word[0] == b'0' && word[1] == b'x'
}

/// The number of a word: decimal digits, or hexadecimal digits after `0x`. None if the word is no number, or
/// the number doesn't fit 64 bits.
pub fn parse_number(word: &[u8]) -> Option<u64>
    ensures { let radix = radix_of word.now in let digits = digits_of word.now in
        SomeIff result (IsNumeral radix digits
        × (digits_value radix digits < 2 ^ 64)) (digits_value radix digits) }
{
    if has_hexadecimal_prefix(word) {
        parse_digits(16, &word[2..])
    } else {
        parse_digits(10, word)
    }
}

// Whether the bytes are digits in a radix, at least one.
fn are_digits(radix: u32, digits: &[u8]) -> bool
    requires low { 2 ≤ radix }
    requires high { radix ≤ 36 }
    ensures { IsTrue result ↔ IsNumeral radix digits.now }
{
    for digit in digits {
        if char::from(*digit).to_digit(radix).is_none() {
            return false;
        }
    }
    !digits.is_empty()
}

/// Whether a word is a number by its digits, of any size.
pub(crate) fn is_numeral(word: &[u8]) -> bool
    ensures { IsTrue result ↔ IsNumeral (radix_of word.now) (digits_of word.now) }
{
    if has_hexadecimal_prefix(word) {
        are_digits(16, &word[2..])
    } else {
        are_digits(10, word)
    }
}
