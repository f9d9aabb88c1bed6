//! Pages of a source, lent one at a time.
ghost use Rattle.std.specs.Prelude.{◌≡◌, ◌≤◌, []};
ghost use Rattle.std.specs.Borrow.{sem, Lends};
ghost use Rattle.std.specs.Io.BufRead.{Rests};
ghost use Rattle.ogg_page.specs.Window.{WindowState, window, answer, HasMoved};
ghost use Rattle.ogg_page.specs.LentPage.{lent_value, lent_answer};
ghost use Rattle.ogg_page.specs.PageInWork.{started};
ghost use Rattle.ogg_page.specs.contracts.window.Window.{the_row};

use crate::buffer::PageBuffer;
use crate::fault::WindowFault;
use crate::finding::find;
use crate::held::{Held, Lent};
use crate::lent::LentPage;
use crate::page::Page;
use crate::reading::known_page;
use crate::source::PageSource;
use std::marker::Model;

/// A window over a range of a source's bytes.
#[derive(Drop)]
pub struct Window<S: PageSource> {
    source: S,
    room: Vec<u8>,
    held: Held,
    at: u64,
    to: u64,
    fault: Option<WindowFault>,
    lent: Option<Lent>,
}

impl<S: PageSource> Model for Window<S> {
    ghost use Rattle.ogg_page.specs.Window.{WindowState};
    ghost use Rattle.ogg_page.specs.Room.{HoldsBytes, IsLent, lent_of};

    ghost Value = { WindowState S };

    ghost view = { λ w. record { source = w.source; at = w.at; to = w.to; fault = w.fault; lent = lent_of w.room.items w.lent } };

    ghost invariant = { λ w. HoldsBytes (S.bytes w.source) (S.is_honest w.source) (S.size w.source) w.room.items w.held w.at w.to × IsLent w.room.items w.lent };
}

impl<S: PageSource> Window<S> {
    /// A window over the source's bytes from `from` to `to`. It reads into the buffer, and takes no
    /// memory.
    pub fn new(source: S, buffer: PageBuffer, from: u64, to: u64) -> Window<S>
        requires order { from ≤ to }
        requires inside { to ≤ S.size source }
        ensures { result ≡ window source from to }
    {
        Window {
            source,
            room: buffer.into_room(),
            held: Held { start: 0, end: 0 },
            at: from,
            to,
            fault: None,
            lent: None,
        }
    }

    /// Sets the range anew, after a fault too.
    pub fn set(&mut self, from: u64, to: u64)
        requires order { from ≤ to }
        requires inside { to ≤ S.size self.old.source }
        ensures { self.new ≡ window self.old.source from to }
    {
        self.held = Held { start: 0, end: 0 };
        self.at = from;
        self.to = to;
        self.fault = None;
        self.lent = None;
    }

    /// Passes on to the next page of the range, which is lent from then on. If none begins, that is
    /// its fault until the range is set anew.
    pub fn advance(&mut self) -> Result<(), WindowFault>
        ensures { HasMoved S.bytes S.is_honest S.size S.failures S.only_reads self.old (answer result self.new.lent) self.new }
    {
        if let Some(fault) = self.fault {
            return Err(fault);
        }
        self.lent = None;
        if self.at == self.to {
            return Ok(());
        }
        match find(
            &mut self.source,
            &mut self.room,
            &mut self.held,
            self.at,
            self.to,
        ) {
            Err(fault) => {
                self.fault = Some(fault);
                Err(fault)
            }
            Ok(size) => {
                let start = self.held.start;
                self.lent = Some(Lent {
                    offset: self.at,
                    start,
                    end: start + size,
                });
                self.held.start = start + size;
                self.at += size as u64;
                Ok(())
            }
        }
    }

    /// The page that is lent, and its offset.
    pub fn lent(&self) -> Option<(u64, Page<'_>)>
        ensures { result ≡ self.now.lent }
    {
        match self.lent {
            Some(lent) => Some((lent.offset, known_page(&self.room[lent.start..lent.end]))),
            None => None,
        }
    }

    /// Lends the next page and its offset, until the window is used again; `None` at the end of the
    /// range. If the source is honest, it is what [`Pages`](crate::Pages) returns for its bytes. A
    /// fault stays until the range is set anew.
    pub fn next(&mut self) -> Result<Option<LentPage<'_>>, WindowFault>
        ensures* after_borrow { sem 𝓛 (Rests (the_row S.row S.PageSource) self.entry (λ new. HasMoved S.bytes S.is_honest S.size S.failures S.only_reads self.old (lent_answer result) new)) }
    {
        self.advance()?;
        Ok(self.lent_page())
    }

    /// The page that is lent, as its bytes.
    fn lent_page(&self) -> Option<LentPage<'_>>
        ensures { lent_value result ≡ self.now.lent }
    {
        match self.lent {
            Some(lent) => Some(LentPage {
                offset: lent.offset,
                bytes: &self.room[lent.start..lent.end],
            }),
            None => None,
        }
    }

    /// The source, to be changed. The range becomes 0 to 0, so that nothing old is lent.
    pub fn source_mut(&mut self) -> &mut S
        ensures value { result.now ≡ self.old.source }
        ensures* writes_back { sem 𝓛 (Lends (the_row S.row S.PageSource) S.row self.entry result (λ source. window source 0 0)) }
    {
        self.set(0, 0);
        &mut self.source
    }

    /// The source and the buffer, given back. The buffer is then as after a `start` with no values.
    pub fn into_parts(self) -> (S, PageBuffer)
        ensures source { result.0 ≡ self.source }
        ensures buffer { result.1 ≡ started [] }
    {
        (self.source, PageBuffer::over(self.room))
    }
}
