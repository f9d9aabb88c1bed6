//! The checksum of many bytes, by a multiple of the generator that has few coefficients.
//!
//! The generator divides x^1976 + x^784 + x^768 + x^744 + x^488 + x^56 + 1. So a byte may be taken out
//! of a message if it is added to the bytes 149, 151, 154, 186, 240 and 247 places behind it: the
//! remainder stays as it is. Byte after byte goes this way, up to the last 256, without any table; for
//! those alone the tables are read. No byte waits for one of the 148 before it, so the compiler makes
//! vectors of the loop.
ghost use Rattle.std.specs.Prelude.{◌≡◌, ◌<◌, ◌≤◌, ◌+◌, ◌++◌, ℕ, bit_xor, length, slice_index};
ghost use Rattle.std.specs.Int.{to_be_bytes, w32};
ghost use Rattle.page_checksum.specs.Checksum.{checksum_of};
ghost use Rattle.page_checksum.specs.Pending.{pending_at};

use crate::crc::checksum_by_tables;

/// How many folded bytes are kept, and how many bytes are left to the tables.
const KEPT: usize = 256;

/// How many bytes are folded before those that are kept move to the front.
const PIECE: usize = 4096;

const ROOM: usize = 256 + 4096;

/// What the folded bytes before this place add to the byte there.
fn pending(folded: &[u8; ROOM], at: usize) -> u8
    requires from { 247 ≤ at }
    requires within { at < 4352 }
    ensures { result ≡ pending_at (slice_index folded.now) at }
{
    folded[at - 247]
        ^ folded[at - 240]
        ^ folded[at - 186]
        ^ folded[at - 154]
        ^ folded[at - 151]
        ^ folded[at - 149]
}

/// Puts the four bytes of a word last among those that are kept.
fn begin(folded: &mut [u8; ROOM], first: u32)
    ensures before { (i : ℕ) → i < 252 → slice_index folded.new i ≡ slice_index folded.old i }
    ensures word { (i : ℕ) → i < 4 → slice_index folded.new (252 + i) ≡ slice_index (to_be_bytes w32 first) i }
{
    folded[KEPT - 4..KEPT].copy_from_slice(&first.to_be_bytes());
}

/// Folds these bytes behind those that are kept.
fn fold(folded: &mut [u8; ROOM], piece: &[u8])
    requires { length piece.now ≤ 4096 }
    ensures each { (i : ℕ) → i < length piece.now → slice_index folded.new (256 + i) ≡ bit_xor (slice_index piece.now i) (pending_at (slice_index folded.new) (256 + i)) }
    ensures kept { (i : ℕ) → i < 256 → slice_index folded.new i ≡ slice_index folded.old i }
{
    for i in 0..piece.len() {
        folded[KEPT + i] = piece[i] ^ pending(folded, KEPT + i);
    }
}

/// Makes the bytes behind those that are kept 0, since nothing is folded there any more.
fn end(folded: &mut [u8; ROOM])
    ensures kept { (i : ℕ) → i < 256 → slice_index folded.new i ≡ slice_index folded.old i }
    ensures blank { (i : ℕ) → i < 256 → slice_index folded.new (256 + i) ≡ 0 }
{
    for i in 0..KEPT {
        folded[KEPT + i] = 0;
    }
}

/// The last bytes, with what is still to be added to them.
fn settle(folded: &[u8; ROOM], last: &[u8; KEPT]) -> [u8; KEPT]
    ensures long { length result ≡ 256 }
    ensures each { (i : ℕ) → i < 256 → slice_index result i ≡ bit_xor (slice_index last.now i) (pending_at (slice_index folded.now) (256 + i)) }
{
    let mut settled = [0; KEPT];
    for i in 0..KEPT {
        settled[i] = last[i] ^ pending(folded, KEPT + i);
    }
    settled
}

/// The checksum of four bytes, given as a word, and of these.
pub(crate) fn checksum_by_folding(first: u32, bytes: &[u8]) -> u32
    requires { 256 ≤ length bytes.now }
    ensures { result ≡ checksum_of (to_be_bytes w32 first ++ bytes.now) }
{
    let mut folded = [0; ROOM];
    begin(&mut folded, first);
    let mut rest = bytes;
    while rest.len() >= KEPT + 16 {
        let spare = rest.len() - KEPT;
        let (piece, others) = rest.split_at(PIECE.min(spare - spare % 16));
        fold(&mut folded, piece);
        folded.copy_within(piece.len()..piece.len() + KEPT, 0);
        rest = others;
    }
    end(&mut folded);
    match rest.split_first_chunk::<KEPT>() {
        Some((last, others)) => {
            checksum_by_tables(checksum_by_tables(0, &settle(&folded, last)), others)
        }
        None => unreachable!(),
    }
}
