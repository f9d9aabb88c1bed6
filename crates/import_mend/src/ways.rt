//! What is done with a page.
ghost use Rattle.std.specs.Prelude.{◌≡◌, ◌-◌, ◌≤◌};
ghost use Rattle.std.specs.Option.{SomeIff};
ghost use Rattle.import_mend.specs.Ways.{is_one_more, is_repeated, leaves_number, restarts, way_of, number_due, way_of_first, way_of_later};

use link_chain::{
    Chain, MOST_LINKS, MOST_STREAMS, StreamState, is_open, is_whole_packet, stream_in,
};
use ogg_page::Page;

/// What is done with a page.
#[derive(Clone, Copy, Debug, PartialEq, Eq)]
pub enum Way {
    /// It is taken, mended if it has to be.
    Take,
    /// The open streams are ended before it, and it begins a link.
    Restart,
    /// It is left out: it is of no open stream of the link.
    Stranger,
    /// It is left out: it came before, or is behind its stream.
    Repeated,
    /// It is left out: it is no first page of a stream, though it is marked as one.
    Misshapen,
    /// It is left out: there would be too much with it.
    Full,
}

/// The number of bytes from which on no further page is taken.
pub const MOST_BYTES: u64 = 1 << 62;

/// What is done with a page. `lost` is how many pages of its stream were lost so far.
pub fn way_of(chain: &Chain, lost: u32, page: &Page<'_>) -> Way
    ensures { result ≡ way_of chain.now.chain lost page.now }
{
    if chain.len() >= MOST_BYTES {
        return Way::Full;
    }
    if page.is_first() {
        return way_of_first(chain, page);
    }
    match stream_in(chain.streams(), page.serial()) {
        None => Way::Stranger,
        Some(_) if chain.links() == 0 => Way::Stranger,
        Some(stream) => way_of_later(lost, stream, page),
    }
}

/// What is done with a page that is marked as its stream's first.
fn way_of_first(chain: &Chain, page: &Page<'_>) -> Way
    ensures { result ≡ way_of_first chain.now.chain page.now }
{
    if !is_whole_packet(page) {
        return Way::Misshapen;
    }
    if is_one_more(chain, page) || !leaves_number(page, u64::from(page.sequence())) {
        return Way::Full;
    }
    if restarts(chain, page) {
        Way::Restart
    } else {
        Way::Take
    }
}

/// Whether the page begins a link of its own though the last one is open.
fn restarts(chain: &Chain, page: &Page<'_>) -> bool
    ensures { result ≡ restarts chain.now.chain page.now }
{
    is_open(chain.streams())
        && (chain.has_data() || stream_in(chain.streams(), page.serial()).is_some())
}

/// Whether there would be too many links with the page, or too many streams in its link.
fn is_one_more(chain: &Chain, page: &Page<'_>) -> bool
    ensures { result ≡ is_one_more chain.now.chain page.now }
{
    if is_open(chain.streams()) && !restarts(chain, page) {
        chain.streams().len() >= MOST_STREAMS
    } else {
        chain.links() >= MOST_LINKS
    }
}

/// Whether the page can have this number, so that one is left for the stream's last page.
fn leaves_number(page: &Page<'_>, number: u64) -> bool
    ensures { result ≡ leaves_number page.now number }
{
    number < u64::from(u32::MAX) || (page.is_last() && number <= u64::from(u32::MAX))
}

/// What is done with a page of this stream that isn't marked as its first.
fn way_of_later(lost: u32, stream: StreamState, page: &Page<'_>) -> Way
    ensures { result ≡ way_of_later lost stream page.now }
{
    if stream.ended {
        return Way::Stranger;
    }
    if is_repeated(lost, stream, page) {
        return Way::Repeated;
    }
    if leaves_number(page, stream.next_sequence) {
        Way::Take
    } else {
        Way::Full
    }
}

/// Whether the page came before, or is behind its stream.
fn is_repeated(lost: u32, stream: StreamState, page: &Page<'_>) -> bool
    ensures { result ≡ is_repeated lost stream page.now }
{
    match missing(lost, stream, page) {
        None => true,
        Some(0) => false,
        Some(_) => page.position() < stream.last_position,
    }
}

/// How many pages are missing before the page; none if it came before.
pub fn missing(lost: u32, stream: StreamState, page: &Page<'_>) -> Option<u64>
    ensures { SomeIff result (number_due lost stream ≤ page.now.sequence) (page.now.sequence - number_due lost stream) }
{
    u64::from(page.sequence())
        .checked_sub(stream.next_sequence)?
        .checked_sub(u64::from(lost))
}
