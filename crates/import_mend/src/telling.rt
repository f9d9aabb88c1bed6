//! What is told of a page that is taken.
ghost use Rattle.std.specs.Prelude.{◌≡◌};
ghost use Rattle.ogg_page.specs.Lacing.{ends_open};
ghost use Rattle.import_mend.specs.Telling.{mend_of};

use crate::joining::is_joined;
use crate::mend::Mend;
use crate::ways::missing;
use link_chain::StreamState;
use ogg_page::{FULL_VALUE, Page};

/// Whether the lacing values say that their last packet goes on.
fn ends_open(lacing: &[u8]) -> bool
    ensures { result ≡ ends_open lacing.now }
{
    lacing.last() == Some(&FULL_VALUE)
}

/// What is mended of a page of an open stream that isn't its first and that begins at `offset`, if anything is.
pub fn mend_of(
    offset: u64,
    lost: u32,
    stream: StreamState,
    too_long: bool,
    page: &Page<'_>,
) -> Option<Mend>
    ensures { result ≡ mend_of offset lost stream too_long page.now }
{
    let serial = page.serial();
    let to = page.sequence();
    match missing(lost, stream, page) {
        Some(count) if count > 0 => {
            let from = to - count as u32;
            Some(Mend::Gap {
                offset,
                serial,
                from,
                to,
            })
        }
        _ if is_joined(lost, stream, too_long, page) => {
            let cut = page.is_last() && ends_open(page.lacing());
            cut.then_some(Mend::Unfinished { offset, serial })
        }
        _ if too_long => Some(Mend::TooLong { offset, serial }),
        _ => Some(Mend::Unfinished { offset, serial }),
    }
}
