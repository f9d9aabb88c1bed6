//! Each call of a station is one of those of which the laws speak.
ghost use Rattle.std.specs.Prelude.{length};
ghost use Rattle.station_laws.specs.Calling.{Accepted, Aside, Closed, EndedOpen, IsCall, Looked, Next, NextTurn, PeerEnded, ReadFailed, Received, Stepped, Turned, Woken, WriteFailed, Wrote};
ghost use Rattle.station_laws.specs.Waiting.{IsInTime};

use disk_model::Disk;
use ogg_command::Refusal;
use station::{After, Done, Memory, Station, Trouble, Unaccepted, Visit};

/// A connection was made.
pub fn accepted<D: Disk + Drop>(station: &mut Station<D>, now: u64) -> Result<usize, Unaccepted>
    ensures call { IsCall D.Disk (Accepted now result) station.old station.new }
    ensures time { IsInTime D.Disk (Accepted now result) station.old station.new }
{
    station.accepted(now)
}

/// A connection was closed.
pub fn closed<D: Disk + Drop>(station: &mut Station<D>, key: usize) -> Option<Visit>
    ensures call { IsCall D.Disk (Closed key) station.old station.new }
    ensures time { IsInTime D.Disk (Closed key) station.old station.new }
{
    station.closed(key)
}

/// A connection has sent bytes.
pub fn received<D: Disk + Drop>(station: &mut Station<D>, key: usize, bytes: &[u8], now: u64)
    ensures call { IsCall D.Disk (Received key bytes.now now) station.old station.new }
    ensures time { IsInTime D.Disk (Received key bytes.now now) station.old station.new }
{
    station.received(key, bytes, now);
}

/// A connection sends no more.
pub fn peer_ended<D: Disk + Drop>(station: &mut Station<D>, key: usize)
    ensures call { IsCall D.Disk (PeerEnded key) station.old station.new }
    ensures time { IsInTime D.Disk (PeerEnded key) station.old station.new }
{
    station.peer_ended(key);
}

/// The next bytes for a connection.
pub fn next<D: Disk + Drop>(
    station: &mut Station<D>,
    key: usize,
    buffer: &mut [u8],
    now: u64,
) -> usize
    ensures call { IsCall D.Disk (Next key (length buffer.old) now result buffer.new) station.old station.new }
    ensures time { IsInTime D.Disk (Next key (length buffer.old) now result buffer.new) station.old station.new }
{
    station.next(key, buffer, now)
}

/// Bytes were written to a connection.
pub fn wrote<D: Disk + Drop>(
    station: &mut Station<D>,
    key: usize,
    bytes: &[u8],
    count: usize,
    now: u64,
)
    ensures call { IsCall D.Disk (Wrote key bytes.now count now) station.old station.new }
    ensures time { IsInTime D.Disk (Wrote key bytes.now count now) station.old station.new }
{
    station.wrote(key, bytes, count, now);
}

/// Nothing of a connection could be read.
pub fn read_failed<D: Disk + Drop>(station: &mut Station<D>, key: usize, trouble: Trouble)
    ensures call { IsCall D.Disk (ReadFailed key trouble) station.old station.new }
    ensures time { IsInTime D.Disk (ReadFailed key trouble) station.old station.new }
{
    station.read_failed(key, trouble);
}

/// None of these bytes could be written to a connection.
pub fn write_failed<D: Disk + Drop>(
    station: &mut Station<D>,
    key: usize,
    bytes: &[u8],
    trouble: Trouble,
)
    ensures call { IsCall D.Disk (WriteFailed key bytes.now trouble) station.old station.new }
    ensures time { IsInTime D.Disk (WriteFailed key bytes.now trouble) station.old station.new }
{
    station.write_failed(key, bytes, trouble);
}

/// The system has told of a connection.
pub fn wake<D: Disk + Drop>(station: &mut Station<D>, key: usize, readable: bool, writable: bool)
    ensures call { IsCall D.Disk (Woken key readable writable) station.old station.new }
    ensures time { IsInTime D.Disk (Woken key readable writable) station.old station.new }
{
    station.wake(key, readable, writable);
}

/// The connection whose turn it is.
pub fn next_turn<D: Disk + Drop>(station: &mut Station<D>) -> Option<usize>
    ensures call { IsCall D.Disk (NextTurn result) station.old station.new }
    ensures time { IsInTime D.Disk (NextTurn result) station.old station.new }
{
    station.next_turn()
}

/// A turn is over.
pub fn turned<D: Disk + Drop>(station: &mut Station<D>, key: usize, now: u64) -> After
    ensures call { IsCall D.Disk (Turned key now) station.old station.new }
    ensures time { IsInTime D.Disk (Turned key now) station.old station.new }
{
    station.turned(key, now)
}

/// Once a second everybody has a turn.
pub fn look<D: Disk + Drop>(station: &mut Station<D>, now: u64) -> bool
    ensures call { IsCall D.Disk (Looked now) station.old station.new }
    ensures time { IsInTime D.Disk (Looked now) station.old station.new }
{
    station.look(now)
}

/// What is next to be done for what is recorded.
pub fn step<D: Disk + Drop>(station: &mut Station<D>, now: u64) -> Done
    ensures call { IsCall D.Disk (Stepped now) station.old station.new }
    ensures time { IsInTime D.Disk (Stepped now) station.old station.new }
{
    station.step(now)
}

/// What is open is ended.
pub fn end_open<D: Disk + Drop>(station: &mut Station<D>) -> Result<(), Refusal>
    ensures call { IsCall D.Disk EndedOpen station.old station.new }
    ensures time { IsInTime D.Disk EndedOpen station.old station.new }
{
    station.end_open()
}

/// The input has given bytes.
pub fn input<D: Disk + Drop>(station: &mut Station<D>, bytes: &[u8], now: u64) -> Result<(), Memory>
    ensures call { IsCall D.Disk Aside station.old station.new }
    ensures time { IsInTime D.Disk Aside station.old station.new }
{
    station.input(bytes, now)
}

/// The input has ended.
pub fn input_ended<D: Disk + Drop>(station: &mut Station<D>, now: u64)
    ensures call { IsCall D.Disk Aside station.old station.new }
    ensures time { IsInTime D.Disk Aside station.old station.new }
{
    station.input_ended(now);
}

/// The last step that has committed more took so long.
pub fn spent<D: Disk + Drop>(station: &mut Station<D>, microseconds: u64)
    ensures call { IsCall D.Disk Aside station.old station.new }
    ensures time { IsInTime D.Disk Aside station.old station.new }
{
    station.spent(microseconds);
}
