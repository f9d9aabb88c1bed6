//! How a source that is on the air fares.
ghost use Rattle.std.specs.Prelude.{◌≡◌, ◌⊎◌, Some, false, length, true};
ghost use Rattle.station_sources.specs.Air.{HoldsMore, IsShort, IsStarved, foreign_answer, noted, outcome_of, parting_answer, wants_answer};
ghost use Rattle.station_sources.specs.Taking.{is_foreign};

use crate::air::OnAir;
use import_record::Taken;
use serve_sources::Outcome;

/// The first page of a stream of Ogg begins before so many bytes of it.
const MOST_BEFORE: u64 = 65_536;

impl OnAir {
    /// Whether the peer waits for an answer once its body has ended.
    pub fn wants_answer(&self) -> bool
        ensures { result ≡ wants_answer self.now.body }
    {
        match &self.body {
            Some(body) => body.awaits_answer(),
            None => false,
        }
    }

    /// What became of what has come, once the stream has ended.
    pub fn outcome(&self) -> Outcome
        ensures { result ≡ outcome_of self.now.lost self.now.complete self.now.body }
    {
        match &self.body {
            _ if self.lost => Outcome::Lost,
            Some(body) if body.is_framed() && !self.complete => Outcome::Broken,
            _ => Outcome::Whole,
        }
    }

    /// Further bytes have come. Without memory for them the source is given up, once what came before is taken.
    pub fn take(&mut self, bytes: &[u8])
        ensures kept { HoldsMore bytes.now self.old self.new ⊎ IsShort (length bytes.now) self.old self.new }
        ensures feeder { self.new.feeder ≡ self.old.feeder }
        ensures decoded { (self.new.decoded ≡ self.old.decoded) × (self.new.starved ≡ false) }
    {
        if self.push(bytes).is_err() {
            self.break_off();
        }
    }

    /// Whether no page was found in the first 64 KiB of the stream: it isn't Ogg.
    pub(crate) fn is_foreign(&self) -> bool
        ensures { result ≡ is_foreign self.now.has_page self.now.import.input.pages.offset }
    {
        !self.has_page && MOST_BEFORE <= self.import.offset()
    }

    /// What the peer is answered whose stream isn't Ogg, unless it has its last answer.
    fn foreign_answer(&self) -> Option<Outcome>
        ensures { result ≡ foreign_answer self.now.body }
    {
        match &self.body {
            Some(body) if !body.is_answered() => Some(Outcome::Foreign),
            _ => None,
        }
    }

    /// What the peer is answered that leaves the air: if its stream isn't Ogg, that; else once its body has ended, if it
    /// waits for that. Something of it may be lost.
    pub fn answer(&self, lost: bool) -> Option<Outcome>
        ensures { result ≡ parting_answer lost self.now }
    {
        if self.foreign {
            return self.foreign_answer();
        }
        if !self.wants_answer() {
            return None;
        }
        if lost {
            return Some(Outcome::Lost);
        }
        Some(self.outcome())
    }

    /// Whether nothing can be done before further bytes come.
    pub fn is_hungry(&self) -> bool
        ensures yes { result ≡ true → IsStarved self.now }
        ensures no { result ≡ false → ¬ (IsStarved self.now) }
    {
        !self.ended && self.starved && self.decoded == 0 && self.import.waits()
    }

    /// Something that came isn't recorded.
    pub fn lose(&mut self)
        ensures { self.new ≡ record self.old { lost = true } }
    {
        self.lost = true;
    }

    /// A page was taken, or the end. Packets that were refused are lost.
    pub(crate) fn note(&mut self, taken: &Taken)
        ensures { self.new ≡ noted taken.now self.old }
    {
        if taken.answered.refused.is_some() {
            self.lost = true;
        }
    }
}
