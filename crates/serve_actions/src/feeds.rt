//! The feed that is recorded while its file is served.
ghost use Rattle.std.specs.Prelude.{◌≡◌, IfSome, Some, None};
ghost use Rattle.serve_actions.specs.Ended.{fault_in, is_lost};

use crate::connections::first;
use disk_model::Disk;
use fault_lines::Fault;
use feed_replies::{FeedFault, RunFault};
use ogg_serve::{Hub, LiveFeed, Step};
use std::fs::File;
use std::io::{BufReader, Read, Stdout, Write};

/// How many bytes of the feed are read at once.
const AHEAD: usize = 65536;

/// More steps than a feed takes: 4,294,967,295 records, a flush, and its end.
const MOST_STEPS: u64 = 1 << 33;

/// A feed from a file, whose replies go to standard output.
pub type FileFeed = LiveFeed<BufReader<File>, Stdout>;

/// The feed in this file.
///
/// It is `File` if the file can't be opened, and `Feed` if memory is refused.
pub fn open_feed(rt: &HostRuntime, feed: &str) -> Result<FileFeed, Fault> {
    let Ok(file) = File::open(rt, feed) else {
        return Err(Fault::File);
    };
    match BufReader::with_capacity(rt.alloc(), AHEAD, file) {
        Ok(input) => Ok(LiveFeed::new(rt.alloc(), input, rt.stdout())),
        Err(_) => Err(Fault::Feed(FeedFault::Memory)),
    }
}

/// Records what is left of the feed. Returns the fault that was met before, or that of the feed.
pub fn record_rest<D: Disk + Drop, R: Read, W: Write + Drop>(
    hub: &mut Hub<D>,
    feed: &mut LiveFeed<R, W>,
    met: Option<Fault>,
) -> Option<Fault>
    ensures first { IfSome met (λ fault. result ≡ Some fault) }
    ensures later { met ≡ None → result ≡ fault_in feed.new.ended }
{
    for _ in 0..MOST_STEPS {
        if feed.ended().is_some() {
            break;
        }
        let _ = feed.step(hub);
    }
    first(met, fault_in(feed.ended()))
}

/// Whether the file could not be opened again.
pub fn is_lost<R: Read, W: Write + Drop>(feed: &LiveFeed<R, W>) -> bool
    ensures { result ≡ is_lost feed.now.ended }
{
    match feed.ended() {
        Some(Ok(Step::Lost(_))) => true,
        _ => false,
    }
}

/// The fault with which a feed has ended, if it has.
pub(crate) fn fault_in(ended: Option<Result<Step, RunFault>>) -> Option<Fault>
    ensures { result ≡ fault_in ended }
{
    match ended {
        Some(Ok(Step::Lost(fault))) => Some(Fault::Open(fault)),
        Some(Err(fault)) => Some(Fault::from(fault)),
        _ => None,
    }
}
