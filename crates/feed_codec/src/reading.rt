//! Feeds, read one record at a time.
ghost use Rattle.std.specs.Prelude.{◌≡◌, ◌≢◌, ◌≤◌, ◌<◌, ◌⊎◌, ◌++◌, false, IfOk, IfErr, IfSome, IfNone, OnOk, length, take, vec_len, vec_capacity, Some, None, Err, Ok};
ghost use Rattle.feed_codec.specs.Room.{feed_room};
ghost use Rattle.std.specs.Io.Buffered.{reader_remaining};
ghost use Rattle.std.specs.Io.KnownBytes.{Consumes, Keeps, IsAtEnd};
ghost use Rattle.feed_records.specs.Record.{HasRecord, record_of};
ghost use Rattle.feed_codec.specs.Feed.{GivesEnd, GivesRecord, HasFault, HasItemFault, TakesHead, TakesItemPart, TakesWhereMemoryEnds, answer_at};
ghost use Rattle.feed_codec.specs.Reading.{HasPayload, IsHead, head_bytes, HasHeadFault, IsShort};

use crate::at_hand::put_at_front;
use crate::building::{build_record, put_of};
use crate::head::{Head, RecordKind, head_of};
use crate::payload::is_payload;
use crate::spare::Spare;
use feed_records::{HEAD, Record, Version};
use feed_replies::FeedFault;
use ogg_command::{Command, Put};
use std::alloc::Global;
use std::io::{BufRead, BufReader, Read};
use std::marker::Model;

/// Reads records, one after the other. Between them it keeps the memory of one payload, and that of the puts that are
/// given back. A contract sees three things: the version of the feed, once it is known; how the feed has ended, if
/// it has; and the room that it keeps.
#[derive(Debug, Drop)]
pub struct Feed {
    alloc: Global,
    payload: Vec<u8>,
    spare: Spare,
    version: Option<Version>,
    outcome: Option<Result<(), FeedFault>>,
}

impl Model for Feed {
    ghost use Rattle.feed_codec.specs.Feed.{FeedWithRoom};
    ghost use Rattle.feed_codec.specs.Room.{feed_room};

    ghost Value = { FeedWithRoom };

    ghost view = { λ feed. record {
      feed = record { version = feed.version; outcome = feed.outcome };
      room = feed_room feed.payload feed.spare.entries feed.spare.packets.items;
    } };
}

impl Feed {
    /// A feed that hasn't been read yet. No memory is taken.
    pub fn new(alloc: Global) -> Self
        ensures { result.feed ≡ record { version = None; outcome = None } }
    {
        Feed {
            alloc,
            payload: Vec::new(alloc),
            spare: Spare::new(alloc),
            version: None,
            outcome: None,
        }
    }

    /// The version of the feed, once its first record was read.
    pub fn version(&self) -> Option<Version>
        ensures { result ≡ self.now.feed.version }
    {
        self.version
    }

    /// The record at the front, or none at the end. An announcement in front of all records is passed over. After the
    /// end or a fault each call returns the same answer, and nothing is read.
    // What this takes of the stack, `next_at_hand` isn't to clear for each put.
    #[inline(never)]
    pub fn next<R: Read>(&mut self, reader: &mut R) -> Result<Option<Record>, FeedFault>
        // Only the record is consumed, and the announcement too if the record is the first.
        ensures record { IfOk result (λ found. IfSome found (λ given. (self.old.feed.outcome ≡ None) × (self.new.feed.outcome ≡ None)
            × GivesRecord self.old.feed.version self.new.feed.version (R.remaining reader.old) (R.remaining reader.new) given)) }

        // At the end no byte is left.
        ensures end { IfOk result (λ found. IfNone found (self.old.feed.outcome ≡ None
            → GivesEnd self.old.feed.version (R.remaining reader.old) (R.remaining reader.new))) }

        // A fault is the first of bytes that begin with no record. Or the reader failed. Or memory was refused, and
        // then the feed had too little room.
        ensures fault { IfErr result (λ fault. self.old.feed.outcome ≡ None → fault ≢ FeedFault.Read → fault ≢ FeedFault.Memory
            → HasFault self.old.feed.version (R.remaining reader.old) fault) }
        ensures memory { result ≡ Err FeedFault.Memory → self.old.feed.outcome ≡ None
            → TakesWhereMemoryEnds self.old.room self.old.feed.version (R.remaining reader.old) (R.remaining reader.new) }

        ensures room { self.old.room.payload ≤ self.new.room.payload }

        // The end and each fault stay.
        ensures ends { IfOk result (λ found. IfNone found (self.new.feed.outcome ≡ Some (Ok tt))) }
        ensures fails { IfErr result (λ fault. self.new.feed.outcome ≡ Some (Err fault)) }
        ensures stays { IfSome self.old.feed.outcome (λ outcome. (result ≡ answer_at outcome)
            × (self.new ≡ self.old) × (reader.new ≡ reader.old)) }
    {
        match self.outcome {
            Some(Ok(())) => return Ok(None),
            Some(Err(fault)) => return Err(fault),
            None => {}
        }
        let answer = next_record(
            self.alloc,
            &mut self.spare,
            &mut self.payload,
            &mut self.version,
            reader,
        );
        // The answer is handed on as it is: to move a record costs more than all else of a small one.
        match &answer {
            Ok(Some(_)) => {}
            Ok(None) => self.outcome = Some(Ok(())),
            Err(fault) => self.outcome = Some(Err(*fault)),
        }
        answer
    }

    /// The same of a reader that reads ahead. A put that lies whole in the reader's buffer is made of it where it lies:
    /// its payload isn't copied first.
    #[inline(always)]
    pub fn next_at_hand<R: Read>(
        &mut self,
        reader: &mut BufReader<R>,
    ) -> Result<Option<Record>, FeedFault>
        // Only the record is consumed, and the announcement too if the record is the first.
        ensures record { IfOk result (λ found. IfSome found (λ given. (self.old.feed.outcome ≡ None) × (self.new.feed.outcome ≡ None)
            × GivesRecord self.old.feed.version self.new.feed.version
            (reader_remaining R.remaining reader.old) (reader_remaining R.remaining reader.new) given)) }

        // At the end no byte is left.
        ensures end { IfOk result (λ found. IfNone found (self.old.feed.outcome ≡ None
            → GivesEnd self.old.feed.version
            (reader_remaining R.remaining reader.old) (reader_remaining R.remaining reader.new))) }

        // A fault is the first of bytes that begin with no record. Or the reader failed. Or memory was refused, and
        // then the feed had too little room.
        ensures fault { IfErr result (λ fault. self.old.feed.outcome ≡ None → fault ≢ FeedFault.Read → fault ≢ FeedFault.Memory
            → HasFault self.old.feed.version (reader_remaining R.remaining reader.old) fault) }
        ensures memory { result ≡ Err FeedFault.Memory → self.old.feed.outcome ≡ None
            → TakesWhereMemoryEnds self.old.room self.old.feed.version
            (reader_remaining R.remaining reader.old) (reader_remaining R.remaining reader.new) }

        ensures room { self.old.room.payload ≤ self.new.room.payload }

        // The end and each fault stay.
        ensures ends { IfOk result (λ found. IfNone found (self.new.feed.outcome ≡ Some (Ok tt))) }
        ensures fails { IfErr result (λ fault. self.new.feed.outcome ≡ Some (Err fault)) }
        ensures stays { IfSome self.old.feed.outcome (λ outcome. (result ≡ answer_at outcome)
            × (self.new ≡ self.old) × (reader.new ≡ reader.old)) }
    {
        let (Some(version), None) = (self.version, self.outcome) else {
            return self.next(reader);
        };
        let Some(payload) = put_at_front(version, reader.buffer()) else {
            return self.next(reader);
        };
        let taken = HEAD + payload.len();
        let put = put_of(self.alloc, &mut self.spare, version, payload);
        reader.consume(taken);
        // All else returns early: if the record were one of the values of a `match`, it would be moved once more.
        let Ok(put) = put else {
            self.outcome = Some(Err(FeedFault::Memory));
            return Err(FeedFault::Memory);
        };
        Ok(Some(Record::Command(Command::Put(put))))
    }

    /// Takes back a put that isn't needed any more. The next ones are made of its memory, as far as it goes: of up to
    /// 4,096 packets it is kept, of each up to 4,096 bytes. The call never fails: if the list of what is kept has no
    /// room, the memory goes back to the system.
    #[inline(always)]
    pub fn give_back(&mut self, put: Put)
        ensures { self.new.feed ≡ self.old.feed }
    {
        self.spare.keep(put);
    }
}

/// The record at the front of a feed of this version, or of a feed whose front shows its version.
fn next_record<R: Read>(
    alloc: Global,
    spare: &mut Spare,
    payload: &mut Vec<u8>,
    version: &mut Option<Version>,
    reader: &mut R,
) -> Result<Option<Record>, FeedFault>
    ensures record { IfOk result (λ found. IfSome found (λ given.
        GivesRecord version.old version.new (R.remaining reader.old) (R.remaining reader.new) given)) }
    ensures end { IfOk result (λ found. IfNone found (GivesEnd version.old (R.remaining reader.old) (R.remaining reader.new))) }
    ensures fault { IfErr result (λ fault. fault ≢ FeedFault.Read → fault ≢ FeedFault.Memory
        → HasFault version.old (R.remaining reader.old) fault) }
    ensures memory { IfErr result (λ fault. fault ≡ FeedFault.Memory
        → TakesWhereMemoryEnds (feed_room payload.old spare.old.entries spare.old.packets.items) version.old
        (R.remaining reader.old) (R.remaining reader.new)) }
    ensures room { vec_capacity payload.old ≤ vec_capacity payload.new }
{
    match *version {
        None => first_record(alloc, spare, payload, version, reader),
        Some(known) => later_record(alloc, spare, payload, known, reader),
    }
}

/// The first record of a feed, after the announcement if there is one, or none if no byte is left. The version is that
/// of the announcement.
fn first_record<R: Read>(
    alloc: Global,
    spare: &mut Spare,
    payload: &mut Vec<u8>,
    version: &mut Option<Version>,
    reader: &mut R,
) -> Result<Option<Record>, FeedFault>
    requires { version.old ≡ None }
    ensures record { IfOk result (λ found. IfSome found (λ given.
        GivesRecord None version.new (R.remaining reader.old) (R.remaining reader.new) given)) }
    ensures end { IfOk result (λ found. IfNone found (GivesEnd None (R.remaining reader.old) (R.remaining reader.new))) }
    ensures fault { IfErr result (λ fault. fault ≢ FeedFault.Read → fault ≢ FeedFault.Memory
        → HasFault None (R.remaining reader.old) fault) }
    ensures memory { IfErr result (λ fault. fault ≡ FeedFault.Memory
        → TakesWhereMemoryEnds (feed_room payload.old spare.old.entries spare.old.packets.items) None
        (R.remaining reader.old) (R.remaining reader.new)) }
    ensures room { vec_capacity payload.old ≤ vec_capacity payload.new }
{
    match next_payload(payload, true, Version::One, reader) {
        Ok(Some(head)) => match head.kind {
            RecordKind::Announcement => {
                *version = Some(Version::Two);
                later_record(alloc, spare, payload, Version::Two, reader)
            }
            kind => {
                *version = Some(Version::One);
                build_record(alloc, spare, Version::One, kind, &payload[..head.length])
            }
        },
        Ok(None) => Ok(None),
        Err(fault) => Err(fault),
    }
}

/// The record at the front, after the first record or the announcement of a feed; none if no byte is left.
fn later_record<R: Read>(
    alloc: Global,
    spare: &mut Spare,
    payload: &mut Vec<u8>,
    version: Version,
    reader: &mut R,
) -> Result<Option<Record>, FeedFault>
    ensures record { IfOk result (λ found. IfSome found (λ given. HasRecord version given
        × Consumes (R.remaining reader.old) (R.remaining reader.new) (record_of version given))) }
    ensures end { IfOk result (λ found. IfNone found (
        IsAtEnd (R.remaining reader.old) × Keeps (R.remaining reader.old) (R.remaining reader.new))) }
    ensures fault { IfErr result (λ fault. fault ≢ FeedFault.Read → fault ≢ FeedFault.Memory
        → HasItemFault false version (R.remaining reader.old) fault) }
    ensures memory { IfErr result (λ fault. fault ≡ FeedFault.Memory
        → TakesItemPart (feed_room payload.old spare.old.entries spare.old.packets.items) false version
        (R.remaining reader.old) (R.remaining reader.new)) }
    ensures room { vec_capacity payload.old ≤ vec_capacity payload.new }
{
    match next_payload(payload, false, version, reader) {
        Ok(Some(head)) => build_record(alloc, spare, version, head.kind, &payload[..head.length]),
        Ok(None) => Ok(None),
        Err(fault) => Err(fault),
    }
}

/// Reads the head and the payload of what stands at the front, and checks both: the payload is at the front of the
/// buffer then. There is no head if no byte is left.
fn next_payload<R: Read>(
    payload: &mut Vec<u8>,
    first: bool,
    version: Version,
    reader: &mut R,
) -> Result<Option<Head>, FeedFault>
    ensures head { IfOk result (λ found. IfSome found (λ head. (head.length ≤ vec_len payload.new)
        × HasPayload first version head (take head.length payload.new.items)
        × Consumes (R.remaining reader.old) (R.remaining reader.new) (head_bytes head ++ take head.length payload.new.items))) }
    ensures end { IfOk result (λ found. IfNone found (
        IsAtEnd (R.remaining reader.old) × Keeps (R.remaining reader.old) (R.remaining reader.new))) }
    ensures fault { IfErr result (λ fault. fault ≢ FeedFault.Read → fault ≢ FeedFault.Memory
        → HasItemFault first version (R.remaining reader.old) fault) }
    ensures memory { IfErr result (λ fault. fault ≡ FeedFault.Memory
        → TakesHead (vec_capacity payload.old) first (R.remaining reader.old) (R.remaining reader.new)) }
    ensures room { vec_capacity payload.old ≤ vec_capacity payload.new }
{
    let head = match next_head(first, reader) {
        Ok(Some(head)) => head,
        Ok(None) => return Ok(None),
        Err(fault) => return Err(fault),
    };
    match read_payload(head.length, payload, reader) {
        Ok(()) => {}
        Err(fault) => return Err(fault),
    }
    // Checked before any memory is asked for the command, so that a malformed payload costs none.
    if is_payload(version, head.kind, &payload[..head.length]) {
        Ok(Some(head))
    } else {
        Err(FeedFault::Form)
    }
}

/// The head of the record at the front, or none if no byte is left.
fn next_head<R: Read>(first: bool, reader: &mut R) -> Result<Option<Head>, FeedFault>
    ensures head { IfOk result (λ found. IfSome found (λ head. IsHead first head
        × Consumes (R.remaining reader.old) (R.remaining reader.new) (head_bytes head))) }
    ensures end { IfOk result (λ found. IfNone found (
        IsAtEnd (R.remaining reader.old) × Keeps (R.remaining reader.old) (R.remaining reader.new))) }
    ensures fault { IfErr result (λ fault. fault ≢ FeedFault.Read → HasHeadFault first (R.remaining reader.old) fault) }
    ensures taken { IfErr result (λ fault. fault ≢ FeedFault.Memory) }
{
    let mut bytes = [0u8; HEAD];
    match fill(reader, &mut bytes, HEAD) {
        Ok(0) => Ok(None),
        Ok(HEAD) => Ok(Some(head_of(first, &bytes)?)),
        Ok(_) => Err(FeedFault::Truncated),
        Err(fault) => Err(fault),
    }
}

/// Reads a payload of `wanted` bytes to the front of the buffer, which grows if it is shorter.
fn read_payload<R: Read>(
    wanted: usize,
    payload: &mut Vec<u8>,
    reader: &mut R,
) -> Result<(), FeedFault>
    ensures ok { OnOk result ((wanted ≤ vec_len payload.new)
        × Consumes (R.remaining reader.old) (R.remaining reader.new) (take wanted payload.new.items)) }
    ensures fault { IfErr result (λ fault. (fault ≡ FeedFault.Read)
        ⊎ ((fault ≡ FeedFault.Memory) × (reader.new ≡ reader.old) × (vec_capacity payload.old < wanted))
        ⊎ ((fault ≡ FeedFault.Truncated) × IsShort (R.remaining reader.old) wanted)) }
    ensures room { vec_capacity payload.old ≤ vec_capacity payload.new }
{
    // What was initialised once isn't filled with zeros again.
    if payload.len() < wanted && payload.resize(wanted, 0).is_err() {
        return Err(FeedFault::Memory);
    }
    match fill(reader, payload, wanted) {
        Ok(count) if count < wanted => Err(FeedFault::Truncated),
        Ok(_) => Ok(()),
        Err(fault) => Err(fault),
    }
}

/// Reads `wanted` bytes to the front of the buffer, or all that are left if they are fewer. An error of any kind is
/// `Read` and isn't tried again.
fn fill<R: Read>(reader: &mut R, buffer: &mut [u8], wanted: usize) -> Result<usize, FeedFault>
    requires { wanted ≤ length buffer.old }
    ensures ok { IfOk result (λ count. (count ≤ wanted)
        × Consumes (R.remaining reader.old) (R.remaining reader.new) (take count buffer.new)) }
    ensures end { IfOk result (λ count. count < wanted → IsAtEnd (R.remaining reader.new)) }
    ensures err { IfErr result (λ fault. fault ≡ FeedFault.Read) }
{
    let mut done = 0;
    for _ in 0..wanted {
        if done >= wanted {
            break;
        }
        match reader.read(&mut buffer[done..wanted]) {
            Ok(0) => return Ok(done),
            Ok(count) => done += count,
            Err(_) => return Err(FeedFault::Read),
        }
    }
    Ok(done)
}
