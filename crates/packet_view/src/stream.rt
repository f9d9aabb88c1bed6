//! The packets of one stream, part by part, out of a window.
ghost use Rattle.std.specs.Prelude.{◌≡◌};
ghost use Rattle.std.specs.Borrow.{sem};
ghost use Rattle.std.specs.Io.BufRead.{Rests};
ghost use Rattle.packet_view.specs.Stream.{HasGiven, stream, lent_part, lent_parts, part_answer};
ghost use Rattle.packet_view.specs.contracts.stream.Stream.{the_row};

use crate::cut::{Given, Progress, cut_lent};
use crate::fault::StreamFault;
use crate::part::Part;
use crate::place::Behind;
use crate::reaching::reach;
use ogg_page::{PageSource, Window};
use std::marker::Model;

/// The packets of one stream in the range of a window (RFC 3533, sections 5 and 6), part by part and in order: the
/// parts before the first page at fault, and then that fault. Joined from a first part to the next last one, they are
/// what [`Packets`](crate::Packets) returns for the same bytes. Only one page is in memory, and no call takes any.
#[derive(Drop)]
pub struct Stream<S: PageSource> {
    window: Window<S>,
    serial: u32,
    progress: Progress,
    given: Option<Given>,
    fault: Option<StreamFault>,
}

impl<S: PageSource> Model for Stream<S> {
    ghost use Rattle.packet_view.specs.Stream.{StreamState};

    ghost Value = { StreamState S };

    ghost use Rattle.packet_view.specs.Stream.{first_fault};
    ghost use Rattle.packet_view.specs.Cut.{IsCut, IsGiven, left_in, goes_on_in, given_in};

    ghost view = { λ s. record {
      window = s.window;
      serial = s.serial;
      left = left_in s.window.lent s.progress.unfinished s.progress.cut;
      behind = s.progress.behind;
      unfinished = goes_on_in s.window.lent s.progress.unfinished s.progress.cut;
      fault = first_fault s.fault s.window.fault;
      given = given_in s.window.lent s.given;
    } };

    ghost invariant = { λ s. IsCut s.window.fault s.window.lent s.progress.cut × IsGiven s.window.lent s.given };
}

impl<S: PageSource> Stream<S> {
    /// The packets of the stream with this serial, in what the window hasn't lent yet of its range. Nothing is read
    /// yet, and the window is the stream's until it is given back. A fault that the window has is the stream's.
    pub fn of(window: Window<S>, serial: u32) -> Stream<S>
        ensures { result ≡ stream window serial }
    {
        Stream {
            window,
            serial,
            progress: Progress {
                behind: Behind {
                    number: None,
                    ended: false,
                },
                unfinished: false,
                cut: None,
            },
            given: None,
            fault: None,
        }
    }

    /// Lends the next part, until the stream is used again; `None` at the end of the range. `View` is the first fault
    /// in the order of [`ViewFault`](crate::ViewFault), and `Source` says that a read failed; each later call returns
    /// the same fault again. Parts of an unfinished packet may come before a fault.
    pub fn next_part(&mut self) -> Result<Option<Part<'_>>, StreamFault>
        ensures* after_borrow { sem 𝓛 (Rests (the_row S.row S.PageSource) self.entry
            (λ new. HasGiven S.bytes S.is_honest S.size S.failures S.only_reads self.old (lent_parts result) new)) }
    {
        self.advance()?;
        Ok(self.part())
    }

    /// Goes to the next part, which is lent from then on.
    fn advance(&mut self) -> Result<(), StreamFault>
        ensures { HasGiven S.bytes S.is_honest S.size S.failures S.only_reads self.old (part_answer result self.new.given) self.new }
    {
        if let Some(fault) = self.fault {
            return Err(fault);
        }
        self.given = None;
        match reach(&mut self.window, self.serial, self.progress) {
            Ok(Some(progress)) => {
                if let Some((given, progress)) = cut_lent(&self.window, progress) {
                    self.given = Some(given);
                    self.progress = progress;
                }
                Ok(())
            }
            Ok(None) => Ok(()),
            Err(fault) => {
                self.fault = Some(fault);
                Err(fault)
            }
        }
    }

    /// The part that is lent.
    fn part(&self) -> Option<Part<'_>>
        ensures { lent_part result ≡ self.now.given }
    {
        let given = self.given?;
        let (_, page) = self.window.lent()?;
        Some(Part {
            bytes: &page.body()[given.start..given.end],
            first: given.first,
            last: given.last,
            position: given.position,
        })
    }

    /// The window, given back. The window's place is after the last page that the stream has read.
    pub fn into_window(self) -> Window<S>
        ensures { result ≡ self.window }
    {
        let Stream { window, .. } = self;
        window
    }
}
