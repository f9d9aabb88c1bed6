//! Whether a page is joined with its stream's page before.
ghost use Rattle.std.specs.Prelude.{◌≡◌, nat_eq};
ghost use Rattle.import_mend.specs.Mended.{ends_some, is_joined};
ghost use Rattle.import_mend.specs.Ways.{number_due};

use crate::ways::missing;
use link_chain::StreamState;
use ogg_page::{FULL_VALUE, Page};

/// Whether a packet ends among these lacing values.
fn ends_some(values: &[u8]) -> bool
    ensures { result ≡ ends_some values.now }
{
    values.iter().any(|value| *value < FULL_VALUE)
}

/// Whether the page has the number that is the stream's next.
fn is_next(lost: u32, stream: StreamState, page: &Page<'_>) -> bool
    ensures { result ≡ nat_eq page.now.sequence (number_due lost stream) }
{
    missing(lost, stream, page) == Some(0)
}

/// Whether the page is joined with its stream's page before. `lost` is how many pages of the stream were lost so far,
/// and `too_long` whether a packet is too long with the page.
pub fn is_joined(lost: u32, stream: StreamState, too_long: bool, page: &Page<'_>) -> bool
    ensures { result ≡ is_joined lost stream too_long page.now }
{
    is_next(lost, stream, page)
        && page.is_continued() != stream.finished
        && !too_long
        && !(page.is_last() && page.is_continued() && !ends_some(page.lacing()))
}
