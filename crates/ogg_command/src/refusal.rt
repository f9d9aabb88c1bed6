//! Why a command is refused.
ghost use Rattle.std.specs.Prelude.{◌≡◌};
ghost use Rattle.ogg_command.specs.Refusal.{code_of, name_of, IsMemory};

use std::alloc::AllocError;
use thiserror::Error;

/// Why a command is refused: the first reason in this order. `SerialTaken` to `PositionBack` are
/// looked for item by item. A refusal up to `Memory` changes nothing.
#[derive(Clone, Copy, Debug, PartialEq, Eq, Error)]
pub enum Refusal {
    /// An earlier command met a failing disk, or there is no file.
    #[error("the recorder has failed")]
    Failed,
    /// A link can't begin while a stream of the last one hasn't ended.
    #[error("the last link is still open")]
    LinkOpen,
    /// There is no link, or all streams of the last one have ended.
    #[error("no link is open")]
    NoLink,
    /// A link without streams, or a put without packets.
    #[error("there is nothing in the command")]
    Empty,
    /// More streams, headers or packets than a command may have.
    #[error("the command has too many parts")]
    TooMany,
    /// Another stream of the file has this serial.
    #[error("the serial is taken")]
    SerialTaken,
    /// A stream has no header.
    #[error("a stream has no header")]
    NoHeader,
    /// A first header doesn't fit whole into one page.
    #[error("a first header is too long for one page")]
    HeadTooLong,
    /// A packet is longer than a packet may be.
    #[error("a packet is too long")]
    PacketTooLong,
    /// A media type isn't 1 to 255 printing ASCII characters, or has a space at an end.
    #[error("a media type is malformed")]
    BadType,
    /// A numerator or a denominator that must be above 0 isn't.
    #[error("a rate or a time isn't positive")]
    BadRate,
    /// The last link has no stream with this serial.
    #[error("the last link has no such stream")]
    UnknownSerial,
    /// The stream has ended.
    #[error("the stream has ended")]
    StreamEnded,
    /// A position is above 2^63 - 1.
    #[error("a position is out of range")]
    PositionRange,
    /// A position is below the stream's last one.
    #[error("a position goes back")]
    PositionBack,
    /// The command's packets are too long together.
    #[error("the packets are too long together")]
    BatchTooLong,
    /// A page would need a sequence number above 2^32 - 1.
    #[error("the stream has no sequence number left")]
    SequenceEnd,
    /// There are as many links as a file may have.
    #[error("the file has too many links")]
    LinksFull,
    /// The file would be longer than a file may be.
    #[error("the file is full")]
    FileFull,
    /// Memory was refused.
    #[error("out of memory")]
    Memory,
    /// The disk failed. Whether the command was kept is known once the file is opened again.
    #[error("the disk failed")]
    Disk,
}

impl Refusal {
    /// The refusal's number.
    pub fn code(self) -> u8
        ensures { result ≡ code_of self }
    {
        match self {
            Refusal::Failed => 1,
            Refusal::LinkOpen => 2,
            Refusal::NoLink => 3,
            Refusal::Empty => 4,
            Refusal::TooMany => 5,
            Refusal::SerialTaken => 6,
            Refusal::NoHeader => 7,
            Refusal::HeadTooLong => 8,
            Refusal::PacketTooLong => 9,
            Refusal::BadType => 10,
            Refusal::BadRate => 11,
            Refusal::UnknownSerial => 12,
            Refusal::StreamEnded => 13,
            Refusal::PositionRange => 14,
            Refusal::PositionBack => 15,
            Refusal::BatchTooLong => 16,
            Refusal::SequenceEnd => 17,
            Refusal::LinksFull => 18,
            Refusal::FileFull => 19,
            Refusal::Memory => 20,
            Refusal::Disk => 21,
        }
    }

    /// The refusal's name.
    pub fn name(self) -> &'static str
        ensures { result.now ≡ name_of self }
    {
        match self {
            Refusal::Failed => "Failed",
            Refusal::LinkOpen => "LinkOpen",
            Refusal::NoLink => "NoLink",
            Refusal::Empty => "Empty",
            Refusal::TooMany => "TooMany",
            Refusal::SerialTaken => "SerialTaken",
            Refusal::NoHeader => "NoHeader",
            Refusal::HeadTooLong => "HeadTooLong",
            Refusal::PacketTooLong => "PacketTooLong",
            Refusal::BadType => "BadType",
            Refusal::BadRate => "BadRate",
            Refusal::UnknownSerial => "UnknownSerial",
            Refusal::StreamEnded => "StreamEnded",
            Refusal::PositionRange => "PositionRange",
            Refusal::PositionBack => "PositionBack",
            Refusal::BatchTooLong => "BatchTooLong",
            Refusal::SequenceEnd => "SequenceEnd",
            Refusal::LinksFull => "LinksFull",
            Refusal::FileFull => "FileFull",
            Refusal::Memory => "Memory",
            Refusal::Disk => "Disk",
        }
    }
}

impl From<AllocError> for Refusal {
    ghost from_gives = { IsMemory };

    fn from(_refused: AllocError) -> Refusal {
        Refusal::Memory
    }
}
