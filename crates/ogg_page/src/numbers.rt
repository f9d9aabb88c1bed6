//! Numbers at the front of bytes, the lowest byte first.
ghost use Rattle.std.specs.Prelude.{◌≡◌, ◌≤◌, ◌+◌, ◌++◌, ◌∷◌, ◌<◌, ◌^◌, length, FitsSigned};
ghost use Rattle.std.specs.Int.{w64};
ghost use Rattle.ogg_page.specs.Numbers.{u16_bytes, u32_bytes, u64_bytes, i64_bytes, fraction_bytes, IsFraction};

use byteorder::{ByteOrder, LittleEndian};

/// Takes the first byte off the bytes, and returns it with what follows.
pub fn take_u8(bytes: &[u8]) -> (u8, &[u8])
    requires { 1 ≤ length bytes.now }
    ensures fits { result.0 < 2 ^ 8 }
    ensures value { bytes.now ≡ result.0 ∷ result.1.now }
    ensures rest { length result.1.now + 1 ≡ length bytes.now }
{
    let (number, rest) = bytes.split_at(1);
    (number[0], rest)
}

/// Takes the number of two bytes off the front, and returns it with what follows.
pub fn take_u16(bytes: &[u8]) -> (u16, &[u8])
    requires { 2 ≤ length bytes.now }
    ensures fits { result.0 < 2 ^ 16 }
    ensures value { bytes.now ≡ u16_bytes result.0 ++ result.1.now }
    ensures rest { length result.1.now + 2 ≡ length bytes.now }
{
    let (number, rest) = bytes.split_at(2);
    (LittleEndian::read_u16(number), rest)
}

/// Takes the number of four bytes off the front, and returns it with what follows.
pub fn take_u32(bytes: &[u8]) -> (u32, &[u8])
    requires { 4 ≤ length bytes.now }
    ensures fits { result.0 < 2 ^ 32 }
    ensures value { bytes.now ≡ u32_bytes result.0 ++ result.1.now }
    ensures rest { length result.1.now + 4 ≡ length bytes.now }
{
    let (number, rest) = bytes.split_at(4);
    (LittleEndian::read_u32(number), rest)
}

/// Takes the number of eight bytes off the front, and returns it with what follows.
pub fn take_u64(bytes: &[u8]) -> (u64, &[u8])
    requires { 8 ≤ length bytes.now }
    ensures fits { result.0 < 2 ^ 64 }
    ensures value { bytes.now ≡ u64_bytes result.0 ++ result.1.now }
    ensures rest { length result.1.now + 8 ≡ length bytes.now }
{
    let (number, rest) = bytes.split_at(8);
    (LittleEndian::read_u64(number), rest)
}

/// Takes the number of eight bytes with a sign, as two's complement, off the front, and returns it
/// with what follows.
pub fn take_i64(bytes: &[u8]) -> (i64, &[u8])
    requires { 8 ≤ length bytes.now }
    ensures fits { FitsSigned w64 result.0 }
    ensures value { bytes.now ≡ i64_bytes result.0 ++ result.1.now }
    ensures rest { length result.1.now + 8 ≡ length bytes.now }
{
    let (number, rest) = take_u64(bytes);
    (number.cast_signed(), rest)
}

/// Takes a numerator and a denominator, eight bytes each, off the front, and returns them with what
/// follows.
pub fn take_fraction(bytes: &[u8]) -> ((i64, i64), &[u8])
    requires { 16 ≤ length bytes.now }
    ensures fits { IsFraction result.0 }
    ensures value { bytes.now ≡ fraction_bytes result.0 ++ result.1.now }
    ensures rest { length result.1.now + 16 ≡ length bytes.now }
{
    let (numerator, rest) = take_i64(bytes);
    let (denominator, rest) = take_i64(rest);
    ((numerator, denominator), rest)
}
