//! The packet of a Skeleton's head.
ghost use Rattle.std.specs.Prelude.{◌≡◌, ◌+◌, ◌<◌, ◌++◌, length, IfOk, Ok, OnOk, OnErr, vec_len, vec_capacity};
ghost use Rattle.std.specs.Result.{result_err};
ghost use Rattle.skeleton3.specs.Fishead.{HoldsFishead, IsFishead, fishead_bytes, fishead_fault};

use crate::Memory;
use crate::fault::SkeletonFault;
use byteorder::{ByteOrder, LittleEndian};
use ogg_page::{take_fraction, take_u16};

/// How many bytes the packet has.
const SIZE: usize = 64;

const NAME: &[u8; 8] = b"fishead\0";

/// The major version that is written and read. The minor one is written as 0 and read as anything.
const MAJOR: u16 = 3;

/// A Skeleton's head: what holds of the whole link (Ogg Skeleton 3.0, "fishead").
#[derive(Clone, Copy, Debug, PartialEq, Eq)]
pub struct Fishead {
    /// When the presentation begins, in seconds: a numerator and a denominator.
    pub presentation: (i64, i64),
    /// The time of the granule position 0, in seconds: a numerator and a denominator.
    pub base: (i64, i64),
    /// The time in UTC that the base time stands for, as a text, which is neither made nor checked here.
    pub utc: [u8; 20],
}

impl Fishead {
    /// Reads a packet. Nothing of it is borrowed, and no memory is taken.
    pub fn read(packet: &[u8]) -> Result<Fishead, SkeletonFault>
        // `read` accepts exactly the packets that have no fault; of any other it reports the first fault.
        ensures fault { result_err result ≡ fishead_fault packet.now }
        // What is read is what the packet holds; so what was written is read as the same value.
        ensures ok { IfOk result (λ fishead. HoldsFishead packet.now fishead) }
        ensures each { (fishead : Fishead) → IsFishead fishead
            → HoldsFishead packet.now fishead → result ≡ Ok fishead }
    {
        if packet.len() != SIZE {
            return Err(SkeletonFault::Length);
        }
        let (name, rest) = packet.split_at(8);
        if name != NAME.as_slice() {
            return Err(SkeletonFault::Name);
        }
        let (major, rest) = take_u16(rest);
        if major != MAJOR {
            return Err(SkeletonFault::Version);
        }
        let (_minor, rest) = take_u16(rest);
        let (presentation, rest) = take_fraction(rest);
        let (base, rest) = take_fraction(rest);
        Ok(Fishead {
            presentation,
            base,
            utc: text_of(rest),
        })
    }

    /// How many bytes the packet has: 64.
    #[tactic(auto, unfolding(crate::specs::Fishead::fishead_with, ogg_page::specs::Numbers::u16_bytes, ogg_page::specs::Numbers::i64_bytes))]
    pub fn size(&self) -> u64
        ensures { result ≡ length (fishead_bytes self.now) }
    {
        SIZE as u64
    }

    /// Appends the packet, of version 3.0. After `Memory` the vector is unchanged.
    pub fn write(&self, out: &mut Vec<u8>) -> Result<(), Memory>
        ensures ok { OnOk result (out.new.items ≡ out.old.items ++ fishead_bytes self.now) }
        ensures err { OnErr result (out.new.items ≡ out.old.items) }
        ensures full { OnErr result
            (vec_capacity out.old < vec_len out.old + length (fishead_bytes self.now)) }
    {
        out.extend_from_slice(&self.bytes())
    }

    /// The packet, of version 3.0. No memory is taken.
    pub fn packet(&self) -> [u8; 64]
        ensures { result ≡ fishead_bytes self.now }
    {
        self.bytes()
    }

    #[tactic(auto, unfolding(crate::specs::Fishead::fishead_with, ogg_page::specs::Numbers::u16_bytes, ogg_page::specs::Numbers::i64_bytes))]
    fn bytes(&self) -> [u8; SIZE]
        ensures { result ≡ fishead_bytes self.now }
    {
        let mut bytes = [0; SIZE];
        bytes[..8].copy_from_slice(NAME);
        LittleEndian::write_u16(&mut bytes[8..], MAJOR);
        LittleEndian::write_i64(&mut bytes[12..], self.presentation.0);
        LittleEndian::write_i64(&mut bytes[20..], self.presentation.1);
        LittleEndian::write_i64(&mut bytes[28..], self.base.0);
        LittleEndian::write_i64(&mut bytes[36..], self.base.1);
        bytes[44..].copy_from_slice(&self.utc);
        bytes
    }
}

fn text_of(bytes: &[u8]) -> [u8; 20]
    requires { length bytes.now ≡ 20 }
    ensures { result ≡ bytes.now }
{
    let mut text = [0; 20];
    text.copy_from_slice(bytes);
    text
}
