//! Pages counted, and packets listed.
use md5::{Digest, Md5};
use ogg_page::{PageFault, Pages};
use packet_view::{Packet, Packets};
use std::io::{self, Write};

/// Pages up to the first fault: how many there are, where the last of them ends, and the fault with its offset.
#[derive(Clone, Copy)]
pub struct Counted {
    pub count: u64,
    pub end: u64,
    pub fault: Option<(u64, PageFault)>,
}

impl Counted {
    pub fn new() -> Counted {
        Counted {
            count: 0,
            end: 0,
            fault: None,
        }
    }

    /// Counts a page that has this offset and length.
    pub fn add(&mut self, offset: u64, length: usize) {
        self.count = self.count.saturating_add(1);
        self.end = offset.saturating_add(length as u64);
    }

    /// Writes what was counted, and returns whether there was no fault.
    pub fn write<W: Write>(&self, output: &mut W) -> io::Result<bool> {
        writeln!(output, "pages {} {}", self.count, self.end)?;
        match self.fault {
            None => Ok(true),
            Some((offset, fault)) => {
                writeln!(output, "fault {offset} {} {}", fault.code(), fault.name())?;
                Ok(false)
            }
        }
    }
}

/// Counts the pages up to the first fault.
pub fn count_pages<W: Write>(bytes: &[u8], output: &mut W) -> io::Result<bool> {
    let mut counted = Counted::new();
    for found in Pages::of(bytes) {
        match found {
            Ok((offset, page)) => counted.add(offset, page.whole().len()),
            Err(fault) => counted.fault = Some(fault),
        }
    }
    counted.write(output)
}

/// Lists the packets of a stream up to the first fault.
pub fn list_packets<W: Write>(bytes: &[u8], serial: u32, output: &mut W) -> io::Result<bool> {
    let mut packets = Packets::of(bytes, serial);
    // Each packet has a lacing value, so there are no more packets than bytes.
    for _ in 0..=bytes.len() {
        match packets.next() {
            Ok(Some(packet)) => write_packet(&packet, output)?,
            Ok(None) => break,
            Err(fault) => {
                writeln!(output, "fault {} {}", fault.code(), fault.name())?;
                return Ok(false);
            }
        }
    }
    writeln!(output, "end")?;
    Ok(true)
}

/// Writes a packet's digest and its length.
fn write_packet<W: Write>(packet: &Packet<'_>, output: &mut W) -> io::Result<()> {
    let mut hasher = Md5::new();
    for part in packet.parts() {
        hasher.update(part);
    }
    let digest = hasher.finalize();
    for byte in digest {
        write!(output, "{byte:02x}")?;
    }
    writeln!(output, " {}", packet.len())
}
