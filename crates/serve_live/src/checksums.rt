//! The checksum of a page that gets another serial and another number.
ghost use Rattle.std.specs.Prelude.{◌≡◌, ◌≤◌, ◌<◌, ◌^◌, ◌++◌, ℕ, List, replicate};
ghost use Rattle.page_checksum.specs.Checksum.{checksum_of};
ghost use Rattle.serve_live.specs.Renaming.{names_change};

use crate::zeros::{MOST, MOVED};
use ogg_page::{SEQUENCE_END, checksum_on};

/// What the checksum of a page of this size changes by under another serial and with another number. No byte of the
/// page is needed.
pub fn names_change(old_serial: u32, old_number: u32, serial: u32, number: u32, size: u64) -> u32
    requires { 22 ≤ size }
    ensures { result ≡ names_change old_serial old_number serial number size }
{
    let [a0, a1, a2, a3] = old_serial.to_le_bytes();
    let [b0, b1, b2, b3] = old_number.to_le_bytes();
    let [c0, c1, c2, c3] = serial.to_le_bytes();
    let [d0, d1, d2, d3] = number.to_le_bytes();
    let differing = [
        a0 ^ c0,
        a1 ^ c1,
        a2 ^ c2,
        a3 ^ c3,
        b0 ^ d0,
        b1 ^ d1,
        b2 ^ d2,
        b3 ^ d3,
    ];
    with_zeros(checksum_on(0, &differing), size - SEQUENCE_END as u64)
}

/// The checksum of some bytes and this many zeros after them, from the checksum of the bytes. It takes a step for each
/// power of two that the count has, and one for each 32,768.
fn with_zeros(before: u32, count: u64) -> u32
    ensures { (front : List ℕ) → before ≡ checksum_of front → result ≡ checksum_of (front ++ replicate count 0) }
{
    let mut sum = before;
    let mut left = count;
    while left > 0 {
        let power = left.ilog2().min(MOST);
        sum = moved(sum, power);
        left -= 1 << power;
    }
    sum
}

/// The same of 2^power zeros: the checksum is linear, so each four of its bits become what the table has.
fn moved(before: u32, power: u32) -> u32
    requires { power ≤ 15 }
    ensures { (front : List ℕ) → before ≡ checksum_of front → result ≡ checksum_of (front ++ replicate (2 ^ power) 0) }
{
    let row = &MOVED[power as usize];
    let mut sum = 0;
    for place in 0..8 {
        let four = (before >> (4 * place)) % 16;
        sum ^= row[place][four as usize];
    }
    sum
}
