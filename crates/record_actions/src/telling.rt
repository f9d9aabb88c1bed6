//! What is told of a recording: mends and refusals as they come, how far it has come at a terminal, and what it came
//! to.
ghost use Rattle.std.specs.Prelude.{◌≡◌, ◌≢◌, ◌↔◌, ◌&&◌, ◌||◌, ◌<◌, ℕ, nat_lt, IsTrue, None, Some, true, false};
ghost use Rattle.record_actions.specs.Telling.{HasCome, fault_of, is_told, links_after, mended_by, mended_in, more, nothing_to, packets_after, refuses_in, totals_with};
ghost use Rattle.ogg_command.specs.declared.refusal.Refusal.{Refusal as RefusalOf};

use crate::mends::MendLines;
use crate::searching::Search;
use fault_lines::{Fault, write_fault};
use import_feed::Mends;
use import_mend::Mend;
use import_record::{
    Answered, RecordFault, Step, Taken, Totals, archived_line, progress_line, refused_line,
};
use ogg_command::Refusal;
use ogg_page::write_whole;
use std::io::{IsTerminal, Stderr};
use std::time::{Duration, Instant};

/// After how many seconds the line at a terminal is renewed.
const RENEWED: u64 = 1;

/// Goes to the line before, and erases it (ECMA-48, CUU and EL).
const ERASE: &[u8] = b"\x1b[A\x1b[2K";

/// What a recording came to so far. Nobody is told of a standard error that takes no more.
#[derive(Drop)]
pub struct Told<'a> {
    rt: &'a HostRuntime,
    strict: bool,
    lines: MendLines<Stderr>,
    totals: Totals,
    // links and packets that wait for their commit
    links: u64,
    packets: u64,
    is_refused: bool,
    // a page has come
    has_pages: bool,
    // the length of the file when it was opened again
    reopened: Option<u64>,
    search: Search,
    // the caller has a line of its own for the terminal
    shows_other: bool,
    shown: Option<Instant>,
}

impl<'a> Told<'a> {
    /// Nothing has come, and the file's pages have `end` bytes. In a strict run the first mend or refusal is enough.
    pub fn new(rt: &'a HostRuntime, strict: bool, end: u64) -> Told<'a>
        ensures strict { result.strict ≡ strict }
        ensures nothing { (result.totals ≡ nothing_to end) × (result.links ≡ 0) × (result.packets ≡ 0) }
        ensures unseen { (result.is_refused ≡ false) × (result.has_pages ≡ false) × (result.reopened ≡ None) }
        ensures unshown { (result.shows_other ≡ false) × (result.shown ≡ None) }
    {
        Told {
            rt,
            strict,
            lines: MendLines::new(rt.alloc(), rt.stderr()),
            totals: Totals {
                links: 0,
                packets: 0,
                bytes: end,
                mends: 0,
            },
            links: 0,
            packets: 0,
            is_refused: false,
            has_pages: false,
            reopened: None,
            search: Search::at(0),
            shows_other: false,
            shown: None,
        }
    }

    /// Something was mended.
    pub fn mended(&mut self, mend: Option<Mend>)
        ensures { self.new ≡ record self.old
            { totals = mended_by mend self.old.totals; lines = self.new.lines; shown = self.new.shown } }
    {
        if let Some(mend) = mend {
            self.totals.mends = self.totals.mends.saturating_add(1);
            self.erase();
            self.lines.mended(&mend);
        }
    }

    /// A step of the stream was taken.
    pub fn stepped(&mut self, step: &Step)
        ensures page { HasCome step.now self.old.has_pages self.new.has_pages }
        ensures mends { self.new.totals ≡ mended_in step.now self.old.totals }
        ensures waits { (self.new.links ≡ links_after step.now self.old.links)
            × (self.new.packets ≡ packets_after step.now self.old.packets) }
        ensures noted { self.new.is_refused ≡ (self.old.is_refused || refuses_in step.now) }
        ensures rest { self.new ≡ record self.old {
          totals = self.new.totals;
          links = self.new.links;
          packets = self.new.packets;
          is_refused = self.new.is_refused;
          has_pages = self.new.has_pages;
          lines = self.new.lines;
          shown = self.new.shown;
        } }
    {
        match step {
            // Whether it was kept is seen by the file.
            Step::Flushed(_) | Step::PassedOver => {}
            Step::Page {
                offset,
                junk,
                taken,
            } => {
                self.has_pages = true;
                self.mended(*junk);
                self.taken(*offset, taken);
            }
            Step::Ended { junk } => self.mended(*junk),
        }
    }

    /// After a step the stream was read up to this offset. A mend is told only with the page after it, so if many bytes
    /// without a page come, as of a stream that is no Ogg at all, that is told while they come.
    pub fn searched(&mut self, step: &Step, offset: u64)
        ensures { self.new ≡ record self.old { search = self.new.search; shown = self.new.shown } }
    {
        match step {
            Step::Page { .. } => self.search = Search::at(offset),
            Step::PassedOver => self.passed_over(offset),
            Step::Flushed(_) => {}
            Step::Ended { .. } => {}
        }
    }

    /// Bytes up to this offset are of no page.
    fn passed_over(&mut self, offset: u64)
        ensures { self.new ≡ record self.old { search = self.new.search; shown = self.new.shown } }
    {
        if let Some(bytes) = self.search.passed(offset) {
            let line = self.search.line(bytes);
            self.tell(line.as_slice());
        }
    }

    /// A source was given up: what it sent later is lost.
    pub fn given_up(&mut self, fault: RecordFault)
        ensures noted { self.new.is_refused ≡ true }
        ensures rest { self.new ≡ record self.old { is_refused = true; shown = None } }
    {
        self.is_refused = true;
        self.erase();
        let _ = write_fault(&Fault::Archive(fault), &mut self.rt.stderr());
    }

    /// A source was turned away, which this line tells: nothing of it is recorded.
    pub fn turned_away(&mut self, line: &[u8])
        ensures noted { self.new.is_refused ≡ true }
        ensures rest { self.new ≡ record self.old { is_refused = true; shown = None } }
    {
        self.tell(line);
        self.is_refused = true;
    }

    /// A page that begins at this offset was taken.
    pub fn taken(&mut self, offset: u64, taken: &Taken)
        ensures { self.new ≡ record self.old {
          totals = mended_by taken.now.mend self.old.totals;
          links = more self.old.links taken.now.answered.links;
          packets = more self.old.packets taken.now.answered.packets;
          is_refused = self.old.is_refused || is_told taken.now.answered.refused;
          lines = self.new.lines;
          shown = self.new.shown;
        } }
    {
        self.mended(taken.mend);
        self.answered(offset, &taken.answered);
    }

    /// Commands were run when the input was read up to this offset.
    pub fn answered(&mut self, offset: u64, answered: &Answered)
        ensures { self.new ≡ record self.old {
          links = more self.old.links answered.now.links;
          packets = more self.old.packets answered.now.packets;
          is_refused = self.old.is_refused || is_told answered.now.refused;
          lines = self.new.lines;
          shown = self.new.shown;
        } }
    {
        if answered.links > 0 {
            self.lines.link_begun();
        }
        self.links = self.links.saturating_add(answered.links);
        self.packets = self.packets.saturating_add(answered.packets);
        self.unended(offset, answered.refused);
    }

    /// This was refused when the input was read up to this offset, if anything was. A fault of the disk is told when the
    /// file is opened again.
    pub fn unended(&mut self, offset: u64, refused: Option<Refusal>)
        ensures noted { (refusal : RefusalOf) → refused ≡ Some refusal → refusal ≢ Refusal.Disk → refusal ≢ Refusal.Failed
            → self.new.is_refused ≡ true }
        ensures rest { self.new ≡ record self.old
            { is_refused = self.old.is_refused || is_told refused; shown = self.new.shown } }
    {
        match refused {
            None | Some(Refusal::Disk | Refusal::Failed) => {}
            Some(refusal) => self.refused(refusal, offset),
        }
    }

    /// Packets of the page at this offset are refused.
    fn refused(&mut self, refusal: Refusal, offset: u64)
        ensures noted { self.new.is_refused ≡ true }
        ensures rest { self.new ≡ record self.old { is_refused = true; shown = None } }
    {
        self.is_refused = true;
        self.erase();
        let mut errors = self.rt.stderr();
        let _ = write_whole(&mut errors, refused_line(refusal, offset).as_slice());
    }

    /// Unless commands wait, all that was taken is on the disk.
    pub fn settle(&mut self, held: u64, failed: bool, end: u64)
        ensures waits { 0 < held → self.new ≡ self.old }
        ensures failed { failed ≡ true → self.new ≡ self.old }
        ensures kept { held ≡ 0 → failed ≡ false
            → self.new ≡ record self.old {
              totals = totals_with self.old.totals self.old.links self.old.packets end;
              links = 0;
              packets = 0;
              shown = self.new.shown;
            } }
    {
        if held == 0 && !failed {
            self.totals.links = self.totals.links.saturating_add(self.links);
            self.totals.packets = self.totals.packets.saturating_add(self.packets);
            self.totals.bytes = end;
            self.links = 0;
            self.packets = 0;
            self.show();
        }
    }

    /// The disk has failed once the input was read up to this offset, and what waited is lost. Whether the file, whose
    /// pages have `end` bytes, is to be opened again: not if nothing was kept since that was done before.
    pub fn lost(&mut self, offset: u64, end: u64) -> bool
        ensures again { IsTrue result ↔ (self.old.reopened ≢ Some end) }
        ensures noted { self.new ≡ record self.old
            { links = 0; packets = 0; is_refused = true; reopened = Some end; shown = None } }
    {
        self.refused(Refusal::Disk, offset);
        self.links = 0;
        self.packets = 0;
        let again = self.reopened != Some(end);
        self.reopened = Some(end);
        again
    }

    /// Whether a strict run ends here.
    pub fn has_enough(&self) -> bool
        ensures { result ≡ (self.now.strict && (self.now.is_refused || nat_lt 0 self.now.totals.mends)) }
    {
        self.strict && (self.is_refused || self.totals.mends > 0)
    }

    /// The fault with which the run ends, if it has one.
    pub fn fault(&self) -> Option<Fault>
        ensures { result ≡ fault_of self.now.is_refused self.now.strict self.now.has_pages self.now.totals.mends }
    {
        if self.is_refused {
            Some(Fault::Refused)
        } else if self.has_enough() {
            Some(Fault::Mended)
        } else if self.totals.mends > 0 && !self.has_pages {
            Some(Fault::NoPage)
        } else {
            None
        }
    }

    /// Tells what the recording came to.
    pub fn close(&mut self)
        ensures { self.new ≡ record self.old { shown = None } }
    {
        self.erase();
        let mut errors = self.rt.stderr();
        let _ = write_whole(&mut errors, archived_line(self.totals).as_slice());
    }

    /// Tells these lines.
    pub fn tell(&mut self, lines: &[u8])
        ensures { self.new ≡ record self.old { shown = None } }
    {
        self.erase();
        let _ = write_whole(&mut self.rt.stderr(), lines);
    }

    /// Shows this line at a terminal from now on, in place of how far the recording has come.
    pub fn show_other(&mut self, line: &[u8])
        ensures { self.new ≡ record self.old { shows_other = true; shown = self.new.shown } }
    {
        self.shows_other = true;
        let mut errors = self.rt.stderr();
        if !errors.is_terminal() {
            return;
        }
        self.erase();
        if let Ok(now) = Instant::now(self.rt) {
            self.shown = Some(now);
            let _ = write_whole(&mut errors, line);
        }
    }

    /// Takes the line off the terminal that tells how far the recording has come, if it stands there.
    fn erase(&mut self)
        ensures { self.new ≡ record self.old { shown = None } }
    {
        if self.shown.is_some() {
            self.shown = None;
            let _ = write_whole(&mut self.rt.stderr(), ERASE);
        }
    }

    /// Tells whoever sits at the terminal how far the recording has come, about once a second.
    fn show(&mut self)
        ensures { self.new ≡ record self.old { shown = self.new.shown } }
    {
        let mut errors = self.rt.stderr();
        if self.shows_other || !errors.is_terminal() {
            return;
        }
        let Ok(now) = Instant::now(self.rt) else {
            return;
        };
        if let Some(shown) = self.shown {
            if now.duration_since(shown) < Duration::from_secs(RENEWED) {
                return;
            }
        }
        self.erase();
        self.shown = Some(now);
        let _ = write_whole(&mut errors, progress_line(self.totals).as_slice());
    }
}
