//! The front part of a page, cut off what is left of it.
ghost use Rattle.std.specs.Prelude.{◌≡◌, IsSome, MatchOption, None, if◌then◌else◌};
ghost use Rattle.packet_view.specs.Packets.{ends_packet, position_in};
ghost use Rattle.packet_view.specs.Cut.{CutFits, CutsFront, HasCut, IsCut, rest_cut};

use crate::front::{ends_packet, full_values};
use crate::place::Behind;
use crate::walking::position_in;
use ogg_page::{Page, PageSource, SEGMENT, Window};

/// How far a page is read.
#[derive(Clone, Copy)]
pub(crate) struct Cut {
    /// How many lacing values are read.
    pub values: usize,
    /// How many bytes of the body.
    pub bytes: usize,
}

/// A part of the page that is lent, without its bytes.
#[derive(Clone, Copy)]
pub(crate) struct Given {
    /// Where its bytes begin in the page's body.
    pub start: usize,
    /// Where they end there.
    pub end: usize,
    pub first: bool,
    pub last: bool,
    pub position: Option<u64>,
}

/// How far a stream is read.
#[derive(Clone, Copy)]
pub(crate) struct Progress {
    /// What the stream's next page must fit.
    pub behind: Behind,
    /// Whether the packet of the next lacing value has one before it.
    pub unfinished: bool,
    /// How far the page that is lent is read, while lacing values of it are left.
    pub cut: Option<Cut>,
}

/// Cuts the front part off what is left of the page that the window lends.
pub(crate) fn cut_lent<S: PageSource>(
    window: &Window<S>,
    progress: Progress,
) -> Option<(Given, Progress)>
    requires fits { IsCut window.now.fault window.now.lent progress.cut }
    requires some { IsSome progress.cut }
    ensures { MatchOption result ⊥ (λ (given, new). CutsFront window.now.fault window.now.lent progress given new) }
{
    let cut = progress.cut?;
    let (_, page) = window.lent()?;
    Some(cut_front(&page, progress, cut))
}

/// Cuts the front part off a page that is read so far. It reads only the lacing values of that part, and those that
/// follow it up to the next end of a packet.
fn cut_front(page: &Page<'_>, progress: Progress, cut: Cut) -> (Given, Progress)
    requires { CutFits page.now cut }
    ensures { HasCut page.now progress cut result.0 result.1 }
{
    let lacing = page.lacing().split_at(cut.values).1;
    let full = full_values(lacing);
    if full == lacing.len() {
        let given = Given {
            start: cut.bytes,
            end: page.body().len(),
            first: !progress.unfinished,
            last: false,
            position: None,
        };
        return (
            given,
            Progress {
                behind: progress.behind,
                unfinished: true,
                cut: None,
            },
        );
    }
    let left = lacing.split_at(full + 1).1;
    let end = cut.bytes + (SEGMENT * full + usize::from(lacing[full]));
    let given = Given {
        start: cut.bytes,
        end,
        first: !progress.unfinished,
        last: true,
        position: position_before(left, page),
    };
    (
        given,
        Progress {
            behind: progress.behind,
            unfinished: false,
            cut: rest_of(left, cut.values + full + 1, end),
        },
    )
}

/// How far a page is read if these lacing values are left of it.
fn rest_of(left: &[u8], values: usize, bytes: usize) -> Option<Cut>
    ensures { result ≡ rest_cut left.now values bytes }
{
    if left.is_empty() {
        None
    } else {
        Some(Cut { values, bytes })
    }
}

/// The position of a packet that ends in a page, if these lacing values follow its own.
fn position_before(left: &[u8], page: &Page<'_>) -> Option<u64>
    ensures { result ≡ (if ends_packet left.now then None else position_in page.now) }
{
    if ends_packet(left) {
        None
    } else {
        position_in(page)
    }
}
