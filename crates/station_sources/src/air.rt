//! The source that is on the air: its bytes, as they come, and what is recorded of them.
ghost use Rattle.std.specs.Prelude.{◌≡◌, ◌≢◌, ◌⊎◌, ◌+◌, ◌-◌, ◌≤◌, ◌<◌, ◌++◌, ◌||◌, ℕ, [], Err, IfErr, IfOk, None, Ok, OnErr, OnOk, Option, drop, false, is_some, length, slice_range, true, vec_capacity, vec_len};
ghost use Rattle.station_sources.specs.Faring.{HasDecoded, look, stopped};
ghost use Rattle.station_sources.specs.Taking.{GivesUpFor, HasEndedBy, IsOver, PassesOn, StopsFor, TakesEnd, TakesStep, input_of, is_foreign, is_page, loses};
ghost use Rattle.import_mend.specs.declared.mend.Mend.{Mend as MendOf};
ghost use Rattle.import_record.specs.Pushing.{IsStepped};
ghost use Rattle.import_record.specs.Reading.{IsDue};
ghost use Rattle.import_record.specs.Steps.{StopsBy};
ghost use Rattle.import_record.specs.declared.intake.Taken.{Taken as TakenOf};
ghost use Rattle.import_record.specs.declared.reading.Step.{Step as StepOf};
ghost use Rattle.ogg_page.specs.Reading.{page_at};
ghost use Rattle.ogg_page.specs.declared.fault.PageFault.TheVariants.{Short};

use crate::Memory;
use feed_runner::Runner;
use import_mend::Mend;
use import_record::{ImportRun, RecordFault, Step, Taken};
use serve_sources::{Body, Piece};
use std::io;

/// Who sends the stream that is recorded.
#[derive(Clone, Copy, Debug, PartialEq, Eq)]
pub enum Feeder {
    /// The caller's input.
    Input,
    /// The connection with this key.
    Peer(usize),
    /// A connection that was closed.
    Gone,
}

impl Feeder {
    /// Whether it is this one.
    pub fn is(self, other: Feeder) -> bool
        ensures yes { result ≡ true → self ≡ other }
        ensures no { result ≡ false → self ≢ other }
    {
        match (self, other) {
            (Feeder::Input, Feeder::Input) | (Feeder::Gone, Feeder::Gone) => true,
            (Feeder::Peer(key), Feeder::Peer(other)) => key == other,
            _ => false,
        }
    }
}

/// What was done with a source's bytes.
#[derive(Clone, Copy, Debug, PartialEq, Eq)]
pub enum Took {
    /// Nothing: more bytes must come.
    Nothing,
    /// Bytes of its body went on to the pages.
    Bytes,
    /// A step was taken of its stream.
    Stepped(Step),
    /// Nothing, since the stream isn't Ogg: so many bytes of it were passed over, 64 KiB or more, and there is no page
    /// among them.
    Foreign {
        passed: u64,
    },
    /// The stream has ended at this offset, and so did what was recorded of it. The last bytes that are of no page are
    /// told.
    Ended {
        offset: u64,
        junk: Option<Mend>,
        taken: Taken,
    },
}

/// A source: its bytes that have come and aren't taken yet, and what the commands of its next pages depend on.
#[derive(Drop)]
pub struct OnAir {
    pub(crate) feeder: Feeder,
    pub(crate) import: ImportRun,
    // none if the bytes are the stream's own
    pub(crate) body: Option<Body>,
    pub(crate) pending: Vec<u8>,
    pub(crate) at: usize,
    // so many bytes at `at` are of the stream
    pub(crate) decoded: usize,
    // what is left of `pending` says nothing before more bytes come
    pub(crate) starved: bool,
    // no further byte comes
    pub(crate) ended: bool,
    // the end of the body was found
    pub(crate) complete: bool,
    // there was no memory for bytes that came after those that are pending
    pub(crate) short: bool,
    // something that came isn't recorded
    pub(crate) lost: bool,
    // a page of the stream was taken
    pub(crate) has_page: bool,
    // no page was found in its first 64 KiB
    pub(crate) foreign: bool,
    ghost within: { at + decoded ≤ vec_len pending },
}

impl OnAir {
    /// Who sends the stream.
    pub fn feeder(&self) -> Feeder
        ensures { result ≡ self.now.feeder }
    {
        self.feeder
    }

    /// Further bytes have come. After `Memory` none of them are kept.
    pub fn push(&mut self, bytes: &[u8]) -> Result<(), Memory>
        ensures ok { OnOk result (drop self.new.at self.new.pending.items ≡ drop self.old.at self.old.pending.items ++ bytes.now) }
        ensures err { OnErr result (drop self.new.at self.new.pending.items ≡ drop self.old.at self.old.pending.items) }
        ensures full { OnErr result (vec_capacity self.old.pending < vec_len self.old.pending - self.old.at + length bytes.now) }
        ensures stays { (self.new.feeder ≡ self.old.feeder) × (self.new.short ≡ self.old.short) × (self.new.lost ≡ self.old.lost) × (self.new.complete ≡ self.old.complete)
            × (self.new.has_page ≡ self.old.has_page) × (self.new.foreign ≡ self.old.foreign) }
        // What has come is looked at again, with these bytes. What was decoded of it stays so.
        ensures looks { self.new.starved ≡ false }
        ensures decoded { (self.new.decoded ≡ self.old.decoded) × (self.new.ended ≡ self.old.ended) }
        ensures same { (self.new.import ≡ self.old.import) × (self.new.body ≡ self.old.body) }
    {
        drop_front(&mut self.pending, self.at);
        self.at = 0;
        self.starved = false;
        self.pending.extend_from_slice(bytes)
    }

    /// No further byte comes.
    pub fn end(&mut self)
        ensures { self.new ≡ record self.old { ended = true } }
    {
        self.ended = true;
    }

    /// No further byte comes that can be kept. What was kept is taken, and then the source is given up.
    pub fn break_off(&mut self)
        ensures { self.new ≡ record self.old { ended = true; short = true } }
    {
        self.ended = true;
        self.short = true;
    }

    /// No further byte comes, and nobody waits for an answer.
    pub fn lose_feeder(&mut self)
        ensures { self.new ≡ record self.old { feeder = Feeder.Gone; ended = true } }
    {
        self.feeder = Feeder::Gone;
        self.ended = true;
    }

    /// Takes the next page, or the next bytes of the body, or the end.
    pub fn step<T: Runner>(&mut self, runner: &mut T) -> Result<Took, RecordFault>
        requires uncounted { (one : T) → T.counted one ≡ 0 }

        // What a step takes of the stream is what import_record takes of it.
        ensures steps { (before : T.State) (step : StepOf) → T.is_in before runner.old → result ≡ Ok (Took.Stepped step)
            → (after : T.State) × T.is_in after runner.new
            × TakesStep T.answers (IsOver self.old.ended self.old.starved self.old.decoded) step self.old.import self.new.import before after }
        ensures ends { (before : T.State) (offset : ℕ) (junk : Option MendOf) (taken : TakenOf) → T.is_in before runner.old
            → result ≡ Ok (Took.Ended offset junk taken) → (after : T.State) × T.is_in after runner.new
            × TakesEnd T.answers (IsOver self.old.ended self.old.starved self.old.decoded) offset junk taken self.old.import self.new.import before after }
        ensures bytes { result ≡ Ok Took.Bytes → (runner.new ≡ runner.old) × (((self.old.decoded ≡ 0) × (self.old.starved ≡ false) × (self.new.import ≡ self.old.import)
            × HasDecoded (drop self.old.at self.old.pending.items)
            (look self.old.body self.old.at self.old.decoded self.old.starved self.old.ended self.old.complete)
            (look self.new.body self.new.at self.new.decoded self.new.starved self.new.ended self.new.complete)
            × ((self.new.pending ≡ self.old.pending) ⊎ ((self.new.pending.items ≡ []) × (self.new.starved ≡ true) × (self.new.ended ≡ true))))
            ⊎ ((count : ℕ) × PassesOn (slice_range self.old.pending.items self.old.at (self.old.at + self.old.decoded)) count self.old.import self.new.import
            × (look self.new.body self.new.at self.new.decoded self.new.starved self.new.ended self.new.complete
            ≡ look self.old.body (self.old.at + count) (self.old.decoded - count) self.old.starved self.old.ended self.old.complete)
            × (self.new.pending ≡ self.old.pending))) }
        ensures stays { result ≡ Ok Took.Bytes
            → (self.new.feeder ≡ self.old.feeder) × (self.new.short ≡ self.old.short) × (self.new.lost ≡ self.old.lost)
            × (self.new.has_page ≡ self.old.has_page) }
        // A stream in whose first 64 KiB there is no page isn't Ogg: that is found before anything else, and nothing is done.
        ensures foreign { (passed : ℕ) → result ≡ Ok (Took.Foreign passed)
            → (is_foreign self.old.has_page self.old.import.input.pages.offset ≡ true) × (passed ≡ self.old.import.input.pages.offset)
            × (runner.new ≡ runner.old) × (self.new ≡ record self.old { foreign = true }) }
        ensures each { is_foreign self.old.has_page self.old.import.input.pages.offset ≡ true
            → result ≡ Ok (Took.Foreign self.old.import.input.pages.offset) }
        // A step is taken when import_record says that it is due: what waits is flushed only if something does.
        ensures due { (before : T.State) (step : StepOf) → T.is_in before runner.old → result ≡ Ok (Took.Stepped step)
            → IsDue step (T.held_in before) self.old.import.input.pages self.new.import.input.pages }
        // It does nothing only if more bytes must come.
        ensures nothing { result ≡ Ok Took.Nothing → (runner.new ≡ runner.old) × (self.new ≡ self.old) }
        ensures prompt { result ≡ Ok Took.Nothing → (self.old.ended ≡ false) × (self.old.starved ≡ true) × (self.old.decoded ≡ 0)
            × (page_at self.old.import.input.pages.unread ≡ Err Short) × (self.old.short ≡ false) }
        ensures stops { (before : T.State) → T.is_in before runner.old → IfErr result (λ fault. (after : T.State) × T.is_in after runner.new
            × StopsBy T.answers fault before after None None) }
        // It fails only if memory was wanted for which there was no room, or if a read has failed.
        ensures cause { (before : T.State) → T.is_in before runner.old
            → IfErr result (λ fault. GivesUpFor fault self.old.short self.old.import self.new.import) }

        // What is known of the source, and what is known by its end.
        ensures kept { (step : StepOf) → result ≡ Ok (Took.Stepped step)
            → (look self.new.body self.new.at self.new.decoded self.new.starved self.new.ended self.new.complete
            ≡ look self.old.body self.old.at self.old.decoded self.old.starved self.old.ended self.old.complete)
            × (self.new.pending ≡ self.old.pending) × (self.new.short ≡ self.old.short) × (self.new.feeder ≡ self.old.feeder)
            × (self.new.lost ≡ (loses step || self.old.lost)) × (self.new.has_page ≡ (is_page step || self.old.has_page)) }
        ensures lost { (offset : ℕ) (junk : Option MendOf) (taken : TakenOf) → result ≡ Ok (Took.Ended offset junk taken)
            → self.new.lost ≡ (is_some taken.answered.refused || self.old.lost) }
        ensures same { (offset : ℕ) (junk : Option MendOf) (taken : TakenOf) → result ≡ Ok (Took.Ended offset junk taken)
            → (self.new.feeder ≡ self.old.feeder) × (self.new.body ≡ self.old.body) × (self.new.complete ≡ self.old.complete)
            × (self.new.foreign ≡ self.old.foreign) }
        ensures err { OnErr result ((self.new.feeder ≡ self.old.feeder) × (self.new.body ≡ self.old.body) × (self.new.foreign ≡ self.old.foreign)) }
    {
        if self.is_foreign() {
            self.foreign = true;
            let passed = self.import.offset();
            return Ok(Took::Foreign { passed });
        }
        if !self.import.waits() {
            return self.take_page(runner);
        }
        if self.decoded > 0 {
            return self.pass_on();
        }
        if !self.starved {
            self.decode();
            return Ok(Took::Bytes);
        }
        if self.short {
            return Err(RecordFault::Memory);
        }
        if self.ended {
            return self.take_page(runner);
        }
        Ok(Took::Nothing)
    }

    /// Finds the next bytes of the stream among those that have come.
    fn decode(&mut self)
        requires { self.old.decoded ≡ 0 }
        ensures noted { HasDecoded (drop self.old.at self.old.pending.items)
            (look self.old.body self.old.at self.old.decoded self.old.starved self.old.ended self.old.complete)
            (look self.new.body self.new.at self.new.decoded self.new.starved self.new.ended self.new.complete) }
        ensures kept { (self.new.pending ≡ self.old.pending) ⊎ ((self.new.pending.items ≡ []) × (self.new.starved ≡ true) × (self.new.ended ≡ true)) }
        ensures stays { (self.new.lost ≡ self.old.lost) × (self.new.short ≡ self.old.short) × (self.new.feeder ≡ self.old.feeder)
            × (self.new.import ≡ self.old.import) × (self.new.has_page ≡ self.old.has_page) }
    {
        let bytes = &self.pending[self.at..];
        let Some(body) = &mut self.body else {
            self.decoded = bytes.len();
            self.starved = bytes.is_empty();
            return;
        };
        match body.next(bytes) {
            Ok(Piece::Data { start, end }) => {
                self.at += start;
                self.decoded = end - start;
            }
            Ok(Piece::More { used }) => {
                self.at += used;
                self.starved = true;
            }
            Ok(Piece::End { .. }) => {
                self.complete = true;
                self.stop();
            }
            Err(_) => self.stop(),
        }
    }

    /// What follows is no part of the stream.
    fn stop(&mut self)
        requires { self.old.decoded ≡ 0 }
        ensures stopped { look self.new.body self.new.at self.new.decoded self.new.starved self.new.ended self.new.complete
            ≡ stopped (look self.old.body self.old.at self.old.decoded self.old.starved self.old.ended self.old.complete) }
        ensures none { self.new.pending.items ≡ [] }
        ensures stays { (self.new.lost ≡ self.old.lost) × (self.new.short ≡ self.old.short) × (self.new.feeder ≡ self.old.feeder)
            × (self.new.import ≡ self.old.import) × (self.new.has_page ≡ self.old.has_page) }
    {
        self.pending.clear();
        self.at = 0;
        self.starved = true;
        self.ended = true;
    }

    /// Passes decoded bytes on to the pages.
    fn pass_on(&mut self) -> Result<Took, RecordFault>
        requires waits { page_at self.old.import.input.pages.unread ≡ Err Short }
        requires some { 0 < self.old.decoded }
        ensures passes { IfOk result (λ took. (took ≡ Took.Bytes) × ((count : ℕ)
            × PassesOn (slice_range self.old.pending.items self.old.at (self.old.at + self.old.decoded)) count self.old.import self.new.import
            × (look self.new.body self.new.at self.new.decoded self.new.starved self.new.ended self.new.complete
            ≡ look self.old.body (self.old.at + count) (self.old.decoded - count) self.old.starved self.old.ended self.old.complete)
            × (self.new.pending ≡ self.old.pending))) }
        ensures fault { OnErr result (result ≡ Err RecordFault.Read) }
        ensures cause { IfErr result (λ fault. StopsFor fault self.old.import self.new.import) }
        ensures stays { (self.new.feeder ≡ self.old.feeder) × (self.new.body ≡ self.old.body) × (self.new.short ≡ self.old.short)
            × (self.new.lost ≡ self.old.lost) × (self.new.has_page ≡ self.old.has_page) × (self.new.foreign ≡ self.old.foreign) }
    {
        let mut bytes = &self.pending[self.at..self.at + self.decoded];
        match self.import.read_once(&mut bytes) {
            Ok(count) => {
                self.at += count;
                self.decoded -= count;
                Ok(Took::Bytes)
            }
            Err(_) => Err(RecordFault::Read),
        }
    }

    /// Takes the next page that is whole, or passes over what isn't one, or ends the stream.
    fn take_page<T: Runner>(&mut self, runner: &mut T) -> Result<Took, RecordFault>
        requires uncounted { (one : T) → T.counted one ≡ 0 }
        ensures steps { (before : T.State) (step : StepOf) → T.is_in before runner.old → result ≡ Ok (Took.Stepped step)
            → (after : T.State) × T.is_in after runner.new
            × IsStepped T.answers [] step self.new.import.input.pages.lent (input_of self.old.import) (input_of self.new.import) before after }
        ensures ends { (before : T.State) (offset : ℕ) (junk : Option MendOf) (taken : TakenOf) → T.is_in before runner.old
            → result ≡ Ok (Took.Ended offset junk taken) → (after : T.State) × T.is_in after runner.new
            × HasEndedBy T.answers offset junk taken self.old.import self.new.import before after }
        ensures stops { (before : T.State) → T.is_in before runner.old → IfErr result (λ fault. (after : T.State) × T.is_in after runner.new
            × StopsBy T.answers fault before after None None) }
        ensures cause { (before : T.State) → T.is_in before runner.old → IfErr result (λ fault. StopsFor fault self.old.import self.new.import) }
        ensures due { (before : T.State) (step : StepOf) → T.is_in before runner.old → result ≡ Ok (Took.Stepped step)
            → IsDue step (T.held_in before) self.old.import.input.pages self.new.import.input.pages }
        ensures other { (result ≢ Ok Took.Bytes) × (result ≢ Ok Took.Nothing) }
        ensures found { (passed : ℕ) → result ≢ Ok (Took.Foreign passed) }
        ensures lost { (offset : ℕ) (junk : Option MendOf) (taken : TakenOf) → result ≡ Ok (Took.Ended offset junk taken)
            → self.new.lost ≡ (is_some taken.answered.refused || self.old.lost) }
        ensures noted { (step : StepOf) → result ≡ Ok (Took.Stepped step) → self.new.lost ≡ (loses step || self.old.lost) }
        ensures stays { (self.new.feeder ≡ self.old.feeder) × (self.new.body ≡ self.old.body) × (self.new.complete ≡ self.old.complete)
            × (self.new.foreign ≡ self.old.foreign) }
        ensures pages { (step : StepOf) → result ≡ Ok (Took.Stepped step) → self.new.has_page ≡ (is_page step || self.old.has_page) }
        ensures kept { (look self.new.body self.new.at self.new.decoded self.new.starved self.new.ended self.new.complete
            ≡ look self.old.body self.old.at self.old.decoded self.old.starved self.old.ended self.old.complete)
            × (self.new.pending ≡ self.old.pending) × (self.new.short ≡ self.old.short) }
    {
        match self.import.step(runner, &mut io::empty(), &mut io::sink()) {
            Ok(Step::Ended { junk }) => {
                let offset = self.import.offset();
                let taken = self.import.finish(runner, &mut io::sink())?;
                self.note(&taken);
                Ok(Took::Ended {
                    offset,
                    junk,
                    taken,
                })
            }
            Ok(step) => {
                if let Step::Page { taken, .. } = &step {
                    self.has_page = true;
                    self.note(taken);
                }
                Ok(Took::Stepped(step))
            }
            Err(fault) => Err(fault),
        }
    }
}

/// Drops this many bytes at the front.
fn drop_front(bytes: &mut Vec<u8>, count: usize)
    requires { count ≤ vec_len bytes.old }
    ensures items { bytes.new.items ≡ drop count bytes.old.items }
    ensures capacity { vec_capacity bytes.old ≤ vec_capacity bytes.new }
{
    let length = bytes.len();
    bytes.copy_within(count..length, 0);
    bytes.truncate(length - count);
}
