//! A command's packets, as they go into pages.
use crate::command::Entry;
use crate::listed::Listed;
use packetiser::TimedPacket;

impl TimedPacket for Listed<u8> {
    ghost use Rattle.ogg_command.specs.Packets.{header};

    // a header
    ghost timed = { header };

    fn packet(&self) -> &[u8] {
        self.as_slice()
    }

    fn position(&self) -> u64 {
        0
    }
}

impl TimedPacket for Entry {
    ghost use Rattle.ogg_command.specs.Packets.{timed};

    ghost timed = { timed };

    fn packet(&self) -> &[u8] {
        self.packet.as_slice()
    }

    fn position(&self) -> u64 {
        self.position
    }
}
