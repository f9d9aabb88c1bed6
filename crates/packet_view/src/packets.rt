//! The packets of a stream, one after the other.
ghost use Rattle.std.specs.Prelude.{◌≡◌};
ghost use Rattle.packet_view.specs.Packets.{packets_of};
ghost use Rattle.packet_view.specs.Giving.{TakesFirst};

use crate::fault::ViewFault;
use crate::finding::next_packet;
use crate::packet::Packet;
use crate::place::{Behind, Place};
use crate::unread::Unread;
use std::marker::Model;

/// The packets of one stream in bytes, in order: those that end before the first page at fault, and then that fault.
/// Pages of other streams are passed over, but one of them that is broken is a fault too. The stream's first page
/// isn't checked against any before it: it may have any number.
#[derive(Debug, Drop)]
pub struct Packets<'a> {
    serial: u32,
    reading: Reading<'a>,
}

/// Whether packets are still looked for.
#[derive(Clone, Copy, Debug)]
enum Reading<'a> {
    From(Place<'a>),
    /// There are no more, or there is this fault.
    Over(Option<ViewFault>),
}

impl<'a> Model for Packets<'a> {
    ghost use Rattle.packet_view.specs.Packets.{PacketsLeft};

    ghost Value = { PacketsLeft };

    ghost use Rattle.packet_view.specs.Reading.{packets_left_in};

    ghost view = { λ p. packets_left_in p.serial p.reading };
}

impl<'a> Packets<'a> {
    /// The packets of the stream with this serial, in all of these bytes. Nothing is read yet.
    pub fn of(bytes: &'a [u8], serial: u32) -> Packets<'a>
        ensures { result ≡ packets_of serial bytes.now }
    {
        let (none, _) = bytes.split_at(0);
        let unread = Unread {
            lacing: none,
            body: none,
            place: 0,
            position: None,
        };
        let behind = Behind {
            number: None,
            ended: false,
        };
        Packets {
            serial,
            reading: Reading::From(Place {
                behind,
                unread,
                rest: bytes,
                offset: 0,
            }),
        }
    }

    /// The stream's next packet, or `None` at the end of the bytes. A fault is the first in the order of
    /// [`ViewFault`]; each later call returns it again.
    pub fn next(&mut self) -> Result<Option<Packet<'a>>, ViewFault>
        ensures { TakesFirst self.old result self.new }
    {
        match self.reading {
            Reading::From(place) => match next_packet(self.serial, place) {
                Ok(Some((packet, behind))) => {
                    self.reading = Reading::From(behind);
                    Ok(Some(packet))
                }
                Ok(None) => {
                    self.reading = Reading::Over(None);
                    Ok(None)
                }
                Err(fault) => {
                    self.reading = Reading::Over(Some(fault));
                    Err(fault)
                }
            },
            Reading::Over(None) => Ok(None),
            Reading::Over(Some(fault)) => Err(fault),
        }
    }
}
