//! Checksums that are computed again and again, for measures.
use ogg_page::{checksum, checksum_on};
use std::io::{self, Write};

/// In pieces of so few bytes `page_checksum` reads its tables; more bytes at once are folded.
const PIECE: usize = 512;

/// The checksum of some bytes and then these, from that of the bytes before, by the tables alone.
fn sum_by_tables(before: u32, bytes: &[u8]) -> u32 {
    let mut sum = before;
    for piece in bytes.chunks(PIECE) {
        sum = checksum_on(sum, piece);
    }
    sum
}

/// The checksum of the bytes, once each turn: each goes on from the one before, so that none is left out.
fn sum_each_turn(by_tables: bool, turns: u32, bytes: &[u8]) -> u32 {
    let mut sum = 0;
    for _ in 0..turns {
        sum = if by_tables {
            sum_by_tables(sum, bytes)
        } else {
            checksum_on(sum, bytes)
        };
    }
    sum
}

/// Writes the checksum of the bytes, and of all turns together.
pub fn sum_again<W: Write>(
    by_tables: bool,
    turns: &str,
    bytes: &[u8],
    output: &mut W,
) -> io::Result<bool> {
    let Ok(turns) = turns.parse::<u32>() else {
        return Err(io::Error::from(io::ErrorKind::InvalidInput));
    };
    let sum = sum_each_turn(by_tables, turns, bytes);
    writeln!(output, "checksum {}", checksum(bytes))?;
    writeln!(output, "turns {sum}")?;
    Ok(true)
}
