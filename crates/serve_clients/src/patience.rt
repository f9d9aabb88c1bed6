//! How long is waited for a connection.
ghost use Rattle.std.specs.Prelude.{◌≡◌};
ghost use Rattle.std.specs.Option.{is_some};
ghost use Rattle.serve_clients.specs.Patience.{is_overdue, is_refused, patience};

use crate::client::{Client, Stage};

/// The greatest number of milliseconds until a head is complete.
const HEAD: u64 = 10_000;

/// For how many milliseconds a source waits until the one before it has left the air: an encoder that begins anew may be
/// here before its old connection is seen to end.
const WAITS: u64 = 1_000;

/// For how many milliseconds a source may send no byte.
const SENDS: u64 = 30_000;

/// For how many milliseconds a peer may take no byte of what is to be sent: of what is recorded, or of its last bytes.
const TAKES: u64 = 60_000;

/// The same of a response over the file, and of what was recorded before. Whoever plays it may have stopped for a while.
const RESTS: u64 = 600_000;

/// For how many milliseconds a peer that was told the end may take until it closes.
const CLOSES: u64 = 10_000;

/// How long is waited for this connection; none if it may take as long as it wants.
fn patience(client: &Client) -> Option<u64>
    ensures { result ≡ patience client.now.stage client.now.idle (is_some client.now.listener) }
{
    match client.stage {
        Stage::Asking | Stage::Offering | Stage::Waiting | Stage::Reading => Some(HEAD),
        Stage::Feeding => Some(SENDS),
        Stage::Sending => Some(RESTS),
        Stage::Ending => Some(TAKES),
        Stage::Hearing if client.idle => None,
        Stage::Hearing if client.listener.is_none() => Some(RESTS),
        Stage::Hearing => Some(TAKES),
        Stage::Closing => Some(CLOSES),
        Stage::Cut => Some(0),
    }
}

/// Whether it was waited long enough for this connection.
pub fn is_overdue(client: &Client, now: u64) -> bool
    ensures { result ≡ is_overdue client.now now }
{
    match patience(client) {
        Some(most) => most <= now.saturating_sub(client.since),
        None => false,
    }
}

/// Whether a source has waited for the air long enough.
pub fn is_refused(client: &Client, now: u64) -> bool
    ensures { result ≡ is_refused client.now now }
{
    client.stage == Stage::Waiting && WAITS <= now.saturating_sub(client.since)
}
