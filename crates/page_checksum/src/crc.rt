//! The checksum of a page.
ghost use Rattle.std.specs.Prelude.{◌≡◌, ◌<◌, ◌≤◌, ◌++◌, replicate, List, ℕ};
ghost use Rattle.std.specs.Int.{to_be_bytes, to_le_bytes, w32};
ghost use Rattle.page_checksum.specs.Checksum.{bytes_of, checksum_of, entry_before};

use crate::folding::checksum_by_folding;
use crate::table::ENTRIES;

/// From this number of bytes on, folding is faster than the tables.
const MANY: usize = 512;

/// The checksum of the bytes: a cyclic redundancy check of 32 bits with the generator 0x04C11DB7,
/// most significant bit first, from 0 on (RFC 3533, section 6, field 7).
pub fn checksum(bytes: &[u8]) -> u32
    ensures { result ≡ checksum_of bytes.now }
{
    checksum_on(0, bytes)
}

/// The checksum of some bytes and then these, from the checksum of the bytes before.
pub fn checksum_on(before: u32, bytes: &[u8]) -> u32
    ensures { (front : List ℕ) → before ≡ checksum_of front → result ≡ checksum_of (front ++ bytes.now) }
{
    match bytes.split_first_chunk::<4>() {
        Some((first, rest)) if rest.len() >= MANY => {
            checksum_by_folding(before ^ u32::from_be_bytes(*first), rest)
        }
        _ => checksum_by_tables(before, bytes),
    }
}

/// The same, sixteen bytes at a time.
pub(crate) fn checksum_by_tables(before: u32, bytes: &[u8]) -> u32
    ensures { (front : List ℕ) → before ≡ checksum_of front → result ≡ checksum_of (front ++ bytes.now) }
{
    let mut sum = before;
    let mut rest = bytes;
    while let Some((sixteen, others)) = rest.split_first_chunk::<16>() {
        sum = checksum_on_sixteen(sum, sixteen);
        rest = others;
    }
    while let Some((eight, others)) = rest.split_first_chunk::<8>() {
        sum = checksum_on_eight(sum, eight);
        rest = others;
    }
    while let Some((four, others)) = rest.split_first_chunk::<4>() {
        sum = checksum_on_four(sum, four);
        rest = others;
    }
    checksum_on_each(sum, rest)
}

/// The same of sixteen bytes, as four words. What came before adds to the first, which is read with
/// its highest byte first. The others are read as they lie in memory, without a swap of their bytes.
fn checksum_on_sixteen(before: u32, bytes: &[u8; 16]) -> u32
    ensures { (front : List ℕ) → before ≡ checksum_of front → result ≡ checksum_of (front ++ bytes.now) }
{
    let first = before ^ u32::from_be_bytes([bytes[0], bytes[1], bytes[2], bytes[3]]);
    // Each of these is one read. Of `from_le_bytes` LLVM makes four, a byte each, which is slower.
    let second = u32::from_be_bytes([bytes[7], bytes[6], bytes[5], bytes[4]]);
    let third = u32::from_be_bytes([bytes[11], bytes[10], bytes[9], bytes[8]]);
    let fourth = u32::from_be_bytes([bytes[15], bytes[14], bytes[13], bytes[12]]);
    // The first word is the last to be added, since only that word waits for the bytes before.
    checksum_of_low_first(second, 8)
        ^ checksum_of_low_first(third, 4)
        ^ checksum_of_low_first(fourth, 0)
        ^ checksum_of_word(first, 12)
}

/// The checksum of some bytes and then of sixteen, from the checksum of the bytes before. The sixteen
/// are given as four words, each with its highest byte first: so they need not lie in memory.
///
/// What came before adds to the first word, and then each word adds the checksum that it has with the
/// words after it as zeros.
pub fn checksum_on_words(before: u32, first: u32, second: u32, third: u32, fourth: u32) -> u32
    ensures { (front : List ℕ) → before ≡ checksum_of front → result ≡ checksum_of (front ++ bytes_of first second third fourth) }
{
    // The first word is the last to be added, since only that word waits for the bytes before.
    checksum_of_word(second, 8)
        ^ checksum_of_word(third, 4)
        ^ checksum_of_word(fourth, 0)
        ^ checksum_of_word(before ^ first, 12)
}

/// The same of eight bytes.
fn checksum_on_eight(before: u32, bytes: &[u8; 8]) -> u32
    ensures { (front : List ℕ) → before ≡ checksum_of front → result ≡ checksum_of (front ++ bytes.now) }
{
    let first = before ^ u32::from_be_bytes([bytes[0], bytes[1], bytes[2], bytes[3]]);
    let second = u32::from_be_bytes([bytes[7], bytes[6], bytes[5], bytes[4]]);
    checksum_of_low_first(second, 0) ^ checksum_of_word(first, 4)
}

/// The same of four bytes.
fn checksum_on_four(before: u32, bytes: &[u8; 4]) -> u32
    ensures { (front : List ℕ) → before ≡ checksum_of front → result ≡ checksum_of (front ++ bytes.now) }
{
    checksum_of_word(before ^ u32::from_be_bytes(*bytes), 0)
}

/// The checksum of a word's bytes, the highest first, with this number of zeros after them.
fn checksum_of_word(word: u32, zeros: usize) -> u32
    requires { zeros ≤ 12 }
    ensures { result ≡ checksum_of (to_be_bytes w32 word ++ replicate zeros 0) }
{
    let [b0, b1, b2, b3] = word.to_be_bytes();
    entry(b0, zeros + 3) ^ entry(b1, zeros + 2) ^ entry(b2, zeros + 1) ^ entry(b3, zeros)
}

/// The checksum of a word's bytes, the lowest first, with this number of zeros after them.
fn checksum_of_low_first(word: u32, zeros: usize) -> u32
    requires { zeros ≤ 12 }
    ensures { result ≡ checksum_of (to_le_bytes w32 word ++ replicate zeros 0) }
{
    let [b0, b1, b2, b3] = word.to_le_bytes();
    entry(b0, zeros + 3) ^ entry(b1, zeros + 2) ^ entry(b2, zeros + 1) ^ entry(b3, zeros)
}

/// The checksum of a byte with this number of zeros after it.
fn entry(byte: u8, zeros: usize) -> u32
    requires { zeros < 16 }
    ensures { result ≡ entry_before zeros byte }
{
    ENTRIES[zeros][usize::from(byte)]
}

/// The same, byte by byte.
fn checksum_on_each(before: u32, bytes: &[u8]) -> u32
    ensures { (front : List ℕ) → before ≡ checksum_of front → result ≡ checksum_of (front ++ bytes.now) }
{
    let mut sum = before;
    for byte in bytes {
        sum = (sum << 8) ^ entry((sum >> 24) as u8 ^ *byte, 0);
    }
    sum
}
