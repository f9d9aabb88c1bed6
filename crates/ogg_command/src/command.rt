//! Commands: what one call adds to a file.
use crate::listed::Listed;
use skeleton3::Field;

/// What one call adds to a file.
#[derive(Debug, Drop)]
pub enum Command {
    /// A new link.
    Begin(Begin),
    /// Packets for streams of the last link.
    Put(Put),
    /// The end of the stream with this serial, in the last link.
    End(u32),
}

/// A new link: a group of logical streams that begin together (RFC 3533, section 4).
#[derive(Debug, Drop)]
pub struct Begin {
    /// The head of a Skeleton that describes the streams (Ogg Skeleton 3.0), if there is to be one.
    pub skeleton: Option<SkeletonHead>,
    /// The streams, in the order of their first pages.
    pub streams: Listed<NewStream>,
}

/// The head of a link's Skeleton: the contents of its `fishead` packet.
#[derive(Clone, Copy, Debug, PartialEq, Eq)]
pub struct SkeletonHead {
    /// The serial of the Skeleton's own logical stream.
    pub serial: u32,
    /// The presentation time, in seconds, as a numerator and a denominator.
    pub presentation: (i64, i64),
    /// The base time, in seconds, as a numerator and a denominator.
    pub base: (i64, i64),
    /// The base time in UTC, as the caller writes it.
    pub utc: [u8; 20],
}

/// A logical stream of a new link. `media` and what comes after it are checked and written only if
/// the link has a Skeleton.
#[derive(Debug, Drop)]
pub struct NewStream {
    /// The stream's serial, which no other stream of the file has.
    pub serial: u32,
    /// Its header packets. The first stands alone in the stream's first page.
    pub headers: Listed<Listed<u8>>,
    /// Its media type, as `audio/vorbis`.
    pub media: Listed<u8>,
    /// Further message fields of its fisbone, in order.
    pub fields: Listed<Field>,
    /// How many units of its position a second has, as a numerator and a denominator.
    pub rate: (i64, i64),
    /// The position at which it begins.
    pub base_granule: i64,
    /// How many packets must be decoded before the first that is heard or seen.
    pub preroll: u32,
    /// How many low bits of a position count from the last key frame.
    pub shift: u8,
}

/// Packets for streams of the last link, in the order in which they go into the file.
#[derive(Debug, Drop)]
pub struct Put {
    /// The packets.
    pub entries: Listed<Entry>,
}

/// A packet for a stream of the last link.
#[derive(Debug, Drop)]
pub struct Entry {
    /// The stream's serial.
    pub serial: u32,
    /// The moment of its stream that the packet reaches, in the stream's own units.
    pub position: u64,
    /// The packet's bytes.
    pub packet: Listed<u8>,
}
