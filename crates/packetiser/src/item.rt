//! A packet of a run.
ghost use Rattle.std.specs.Prelude.{◌≡◌};
ghost use Rattle.packetiser.specs.Run.{Timed};

/// What can go into a run: a packet with its position.
pub trait TimedPacket {
    // the packet and its position, wherever its bytes lie
    ghost timed: { Self → Timed };

    /// The packet's bytes.
    fn packet(&self) -> &[u8]
        ensures { result.now ≡ (timed self.now).packet };

    /// The granule position that the stream has reached with the packet.
    fn position(&self) -> u64
        ensures { result ≡ (timed self.now).position };
}

/// A packet that is lent, and its position.
#[derive(Clone, Copy, Debug)]
pub struct Item<'a> {
    /// The packet's bytes.
    pub packet: &'a [u8],
    /// The granule position that the stream has reached with the packet.
    pub position: u64,
}

impl TimedPacket for Item<'_> {
    ghost timed = { λ item. record { position = item.position; packet = item.packet.now } };

    fn packet(&self) -> &[u8] {
        self.packet
    }

    fn position(&self) -> u64 {
        self.position
    }
}
