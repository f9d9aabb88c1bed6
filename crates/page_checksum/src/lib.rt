//! The checksum of a page (RFC 3533, section 6, field 7).
//!
//! It is a cyclic redundancy check of 32 bits: the remainder of a long division of the bytes' bits. A
//! checksum can go on from that of the bytes before. Few bytes are looked up in tables, sixteen at a
//! time. Many are folded first, each onto six of those behind it, and the tables are read for the last
//! ones alone. It takes no memory, and 4 kB of the stack where it folds.
//!
//! Start at `specs/Checksum.antt`, which says what the checksum of bytes is, and at
//! `specs/Pending.antt`, which says what folding adds to a byte.
#![tactic(auto)]

mod crc;
mod folding;
mod table;

pub use crc::{checksum, checksum_on, checksum_on_words};
