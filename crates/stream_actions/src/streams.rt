//! The commands that read a feed from standard input.
ghost use Rattle.std.specs.Prelude.{◌≡◌, ◌⊎◌, ◌||◌, IfOk, IfErr, OnErr, Ok, Err, None, Some, true, false};
ghost use Rattle.disk_model.specs.Image.{IsSettled};
ghost use Rattle.fault_lines.specs.Fault.{fault_of_run};
ghost use Rattle.fault_lines.specs.declared.fault.Fault.{Fault as FaultOf};
ghost use Rattle.file_recorder.specs.Recorder.{committed};
ghost use Rattle.gate_file.specs.declared.fault.OpenFault.{OpenFault as OpenFaultOf};
ghost use Rattle.record_actions.specs.Foreign.{IsForeign, front_of};
ghost use Rattle.record_actions.specs.Opening.{IsOpenFault};

use disk_model::{Disk, FileDisk};
use fault_lines::Fault;
use feed_mux::{check_feed_for, mux_for};
use feed_replies::{FeedFault, RunFault, Tally};
use feed_run::{Buffered, run_feed_for};
use feed_runner::{Batched, FirstRefusal, Together};
use file_recorder::{Recorder, end_open_streams};
use import_feed::{ChangeOptions, make_feed, make_mended_feed};
use import_renumber::Renumbered;
use ogg_page::write_whole;
use ogg_recorder::record_feed_for;
use record_actions::{
    Asides, LockedFile, MendLines, Missing, Opening, TailFiles, lock_file, open_recorder,
    seal_after,
};
use std::alloc::Global;
use std::io::{self, BufReader, BufWriter, IsTerminal, Stdin, Write};
use text_line::Line;

/// How many bytes of the feed are read at once.
const AHEAD: usize = 65536;

/// How many bytes of pages are written at once.
const TOGETHER: usize = 65536;

/// The lines of replies, which may end a run.
type ReplyLines<W> = FirstRefusal<Batched<W>>;

/// Writes the pages of the feed on standard input to standard output, and the replies to standard error. If `strict`
/// says so, the feed ends after the first refusal.
///
/// It is `Feed` or `TooMany` if the feed isn't run to its end, `Write` if a stream takes no more, `Memory` if memory is
/// refused, and in a strict run `Refused`. The pages and the replies of the records before are written then.
pub fn mux(rt: &HostRuntime, strict: bool) -> Result<(), Fault> {
    let mut feed = input(rt)?;
    let Ok(mut pages) = BufWriter::with_capacity(rt.alloc(), TOGETHER, rt.stdout()) else {
        return Err(Fault::Memory);
    };
    let mut replies = reply_lines(rt, rt.stderr(), Together::Ahead, strict)?;
    let ran = mux_for::<Buffered, _, _, _>(rt.alloc(), &mut feed, &mut pages, &mut replies);
    told(rt, ended(ran, &replies), false, outcome(&replies))
}

/// Checks the feed on standard input: writes to standard output the replies that `mux` would write, and makes no page.
/// If `strict` says so, the feed ends after the first refusal. Its faults are those of `mux`.
pub fn check(rt: &HostRuntime, strict: bool) -> Result<(), Fault> {
    let mut feed = input(rt)?;
    let mut replies = reply_lines(rt, rt.stdout(), Together::Ahead, strict)?;
    let ran = check_feed_for::<Buffered, _, _>(rt.alloc(), &mut feed, &mut replies);
    told(rt, ended(ran, &replies), false, outcome(&replies))
}

/// What is done to a file before and after a feed is recorded into it.
#[derive(Clone, Copy)]
pub struct RecordEnds {
    /// The streams that an earlier run left open are ended first.
    pub end_open: bool,
    /// The same, and streams get serials that the file doesn't have.
    pub renumber: bool,
    /// After the feed's end the file is cut to its pages; after a fault it isn't.
    pub seal: bool,
}

impl RecordEnds {
    /// Whether it goes on with what an earlier run has left.
    fn goes_on(self) -> bool
        ensures { result ≡ (self.end_open || self.renumber) }
    {
        self.end_open || self.renumber
    }

    /// How the file is opened.
    fn opening(self) -> Opening
        ensures own { (self.end_open || self.renumber) ≡ true → result ≡ Opening.Own }
        ensures as_it_is { (self.end_open || self.renumber) ≡ false → result ≡ Opening.AsItIs }
    {
        if self.goes_on() {
            Opening::Own
        } else {
            Opening::AsItIs
        }
    }
}

/// Records the feed on standard input into the file, which is made if there is none, and writes the replies to
/// standard output. `most` commands share a commit. If `strict` says so, the feed ends after the first refusal.
///
/// It is `Locked`, `File`, `Memory` or `Open` if the file can't be opened, and `Foreign` if it was to go on with a file
/// that holds something else than a recording: nothing of the feed is read then. It is `Feed`, `TooMany`, `Write`, `Memory`
/// or `Refused` as for `mux`, `Failed` if the disk has failed, and `Seal` if the file isn't cut. What was told as kept stays in the file.
pub fn record(
    rt: &HostRuntime,
    file: &str,
    ends: RecordEnds,
    most: u32,
    strict: bool,
) -> Result<(), Fault> {
    let mut recorder = open_file(rt, file, ends)?;
    // `clap` has checked that `most` lies in this range, and nothing waits yet.
    recorder.group(most.clamp(1, 1024));
    record_by(rt, recorder, ends, strict)
}

/// Opens the file to record into it, and locks it.
fn open_file(rt: &HostRuntime, file: &str, ends: RecordEnds) -> Result<Recorder<FileDisk>, Fault>
    ensures { IfOk result (λ recorder. recorder.held ≡ 0) }
{
    let locked = lock_file(rt, file, Missing::Made)?;
    recorder_for(rt.alloc(), locked, ends, &mut TailFiles::of(rt, file))
}

/// A recorder on a file that was locked. Nothing waits in it. What goes on with a file may not begin in one that holds
/// something else. No tail is kept.
fn recorder_for<D: Disk + Drop, A: Asides>(
    alloc: Global,
    file: LockedFile<D>,
    ends: RecordEnds,
    asides: &mut A,
) -> Result<Recorder<D>, Fault>
    ensures held { IfOk result (λ recorder. recorder.held ≡ 0) }
    ensures foreign { (ends.end_open || ends.renumber) ≡ true → D.is_honest file
        → IsForeign (front_of (D.state file).contents)
        → (result ≡ Err Fault.Foreign) ⊎ (result ≡ Err (Fault.Open OpenFaultOf.Disk)) }
    ensures only { D.is_honest file → result ≡ Err Fault.Foreign → IsForeign (front_of (D.state file).contents) }
    // As the specification has it, any file is recorded into that can be.
    ensures as_it_is { (ends.end_open || ends.renumber) ≡ false → IfErr result IsOpenFault }
{
    match open_recorder(alloc, file, ends.opening(), asides) {
        Ok((recorder, _)) => Ok(recorder),
        Err(fault) => Err(fault),
    }
}

/// Records the feed on standard input by this recorder, and writes the replies to standard output.
fn record_by(
    rt: &HostRuntime,
    recorder: Recorder<FileDisk>,
    ends: RecordEnds,
    strict: bool,
) -> Result<(), Fault> {
    let mut feed = input(rt)?;
    record_in(rt, recorder, ends, strict, &mut feed)
}

/// Records this feed, and writes the replies to standard output.
fn record_in(
    rt: &HostRuntime,
    recorder: Recorder<FileDisk>,
    ends: RecordEnds,
    strict: bool,
    feed: &mut BufReader<Stdin>,
) -> Result<(), Fault> {
    let mut replies = reply_lines(rt, rt.stdout(), Together::Groups, strict)?;
    record_ended(rt, recorder, ends, feed, &mut replies)
}

/// Ends what is to be ended first, and records the feed.
fn record_ended<W: Write + Drop>(
    rt: &HostRuntime,
    mut recorder: Recorder<FileDisk>,
    ends: RecordEnds,
    feed: &mut BufReader<Stdin>,
    replies: &mut ReplyLines<W>,
) -> Result<(), Fault> {
    if ends.goes_on() && end_open_streams(&mut recorder, replies).is_err() {
        return Err(Fault::Write);
    }
    if ends.renumber {
        record_renumbered(rt, recorder, ends.seal, feed, replies)
    } else {
        record_plain(rt, recorder, ends.seal, feed, replies)
    }
}

/// Records the feed as it is.
fn record_plain<W: Write + Drop>(
    rt: &HostRuntime,
    mut recorder: Recorder<FileDisk>,
    seal: bool,
    feed: &mut BufReader<Stdin>,
    replies: &mut ReplyLines<W>,
) -> Result<(), Fault> {
    let ran = record_feed_for::<Buffered, _, _, _>(rt.alloc(), feed, replies, &mut recorder);
    let (closed, _) = close_record(rt, recorder, ended(ran, replies), outcome(replies), seal);
    closed
}

/// Records the feed under serials that the file doesn't have.
fn record_renumbered<W: Write + Drop>(
    rt: &HostRuntime,
    recorder: Recorder<FileDisk>,
    seal: bool,
    feed: &mut BufReader<Stdin>,
    replies: &mut ReplyLines<W>,
) -> Result<(), Fault> {
    let mut runner = renumbered(rt, recorder)?;
    let ran = run_feed_for::<Buffered, _, _, _, _>(
        rt.alloc(),
        &mut runner,
        feed,
        &mut io::sink(),
        replies,
    );
    let recorder = runner.give_back();
    let (closed, _) = close_record(rt, recorder, ended(ran, replies), outcome(replies), seal);
    closed
}

/// The recorder, which gives streams serials that its file doesn't have.
fn renumbered(
    rt: &HostRuntime,
    recorder: Recorder<FileDisk>,
) -> Result<Renumbered<Recorder<FileDisk>>, Fault> {
    let serials = serials_of(rt, &recorder)?;
    match Renumbered::new(rt.alloc(), recorder, serials.as_slice()) {
        Ok(runner) => Ok(runner),
        Err(_) => Err(Fault::Memory),
    }
}

/// A copy of the serials that the file has.
fn serials_of(rt: &HostRuntime, recorder: &Recorder<FileDisk>) -> Result<Vec<u32>, Fault> {
    let mut serials = Vec::new(rt.alloc());
    match serials.extend_from_slice(recorder.serials().as_slice()) {
        Ok(()) => Ok(serials),
        Err(_) => Err(Fault::Memory),
    }
}

/// Tells what was recorded. Unless a fault came, or a refusal ended the run, the file is sealed, if that is asked for.
/// The disk is returned as it stands otherwise; it is let go if the sealing fails.
fn close_record<D: Disk + Drop>(
    rt: &HostRuntime,
    recorder: Recorder<D>,
    ended: Result<Tally, Fault>,
    outcome: Result<(), Fault>,
    seal: bool,
) -> (Result<(), Fault>, Option<D>)
    // Nothing is sealed after a fault, or unasked.
    ensures ended { IfErr ended (λ fault. result ≡ (Err fault, Some recorder.file.disk)) }
    ensures failed { IfOk ended (λ tally. recorder.file.failed ≡ true
        → result ≡ (Err Fault.Failed, Some recorder.file.disk)) }
    ensures refused { (fault : FaultOf) → IfOk ended (λ tally. recorder.file.failed ≡ false → outcome ≡ Err fault
        → result ≡ (Err fault, Some recorder.file.disk)) }
    ensures unasked { IfOk ended (λ tally. recorder.file.failed ≡ false → outcome ≡ Ok tt → seal ≡ false
        → result ≡ (Ok tt, Some recorder.file.disk)) }

    // Nothing is told as sealed that isn't, and one fault alone comes of the sealing.
    ensures asked { IfOk ended (λ tally. recorder.file.failed ≡ false → outcome ≡ Ok tt → seal ≡ true
        → result.0 ≡ Ok tt → (disk : D) × (result.1 ≡ Some disk) × (D.is_honest recorder.file.disk
        → IsSettled (D.state disk) × ((D.state disk).contents ≡ committed D.state recorder))) }
    ensures only { IfOk ended (λ tally. recorder.file.failed ≡ false → outcome ≡ Ok tt
        → OnErr result.0 (result ≡ (Err Fault.Seal, None))) }
{
    let told = told(rt, ended, recorder.is_failed(), outcome);
    seal_after(recorder, told, seal)
}

/// Tells what was recorded, and returns the first thing that was met.
fn told(
    rt: &HostRuntime,
    ended: Result<Tally, Fault>,
    failed: bool,
    outcome: Result<(), Fault>,
) -> Result<(), Fault>
    ensures ended { IfErr ended (λ fault. result ≡ Err fault) }
    ensures failed { IfOk ended (λ tally. failed ≡ true → result ≡ Err Fault.Failed) }
    ensures outcome { IfOk ended (λ tally. failed ≡ false → result ≡ outcome) }
{
    sum_up(rt, ended?);
    if failed {
        return Err(Fault::Failed);
    }
    outcome
}

/// Standard input, read ahead.
fn input(rt: &HostRuntime) -> Result<BufReader<Stdin>, Fault> {
    match BufReader::with_capacity(rt.alloc(), AHEAD, rt.stdin()) {
        Ok(input) => Ok(input),
        Err(_) => Err(Fault::Feed(FeedFault::Memory)),
    }
}

/// The lines of replies to this writer. If `strict` says so, the first refusal ends the run.
fn reply_lines<W: Write + Drop>(
    rt: &HostRuntime,
    out: W,
    together: Together,
    strict: bool,
) -> Result<ReplyLines<W>, Fault> {
    match Batched::new(rt.alloc(), out, together) {
        Ok(lines) => Ok(FirstRefusal::new(lines, strict)),
        Err(_) => Err(Fault::Memory),
    }
}

/// What a run came to. If its last lines, or the pages before them, could not be written, that is its fault.
fn ended<W: Write + Drop>(
    ran: Result<Tally, RunFault>,
    replies: &ReplyLines<W>,
) -> Result<Tally, Fault>
    ensures unwritten { replies.now.replies.failed ≡ true → result ≡ Err Fault.Write }
    ensures ran { replies.now.replies.failed ≡ false → IfOk ran (λ tally. result ≡ Ok tally) }
    ensures fault { replies.now.replies.failed ≡ false → IfErr ran (λ fault. result ≡ Err (fault_of_run fault)) }
{
    if replies.replies().has_failed() {
        return Err(Fault::Write);
    }
    Ok(ran?)
}

/// Whether a refusal has ended the run.
fn outcome<W: Write + Drop>(replies: &ReplyLines<W>) -> Result<(), Fault>
    ensures refused { replies.now.refused ≡ true → result ≡ Err Fault.Refused }
    ensures none { replies.now.refused ≡ false → result ≡ Ok tt }
{
    if replies.has_refused() {
        return Err(Fault::Refused);
    }
    Ok(())
}

/// Writes the feed of the Ogg bitstream on standard input to standard output, changed as the options ask. If `mend`
/// says so, any input is mended, and what was mended is told on standard error.
///
/// It is `Make` if no feed was made of the whole input: the records of what came before are written then.
pub fn feed(rt: &HostRuntime, mend: bool, options: ChangeOptions) -> Result<(), Fault> {
    // The standard streams keep no bytes back: what is written is out, and what can be read at once is read.
    let (mut input, mut out) = (rt.stdin(), rt.stdout());
    let made = if mend {
        let mut lines = MendLines::new(rt.alloc(), rt.stderr());
        make_mended_feed(rt.alloc(), &mut input, &mut out, &mut lines, options)
    } else {
        make_feed(rt.alloc(), &mut input, &mut out, options)
    };
    match made {
        Ok(_) => Ok(()),
        Err(fault) => Err(Fault::Make(fault)),
    }
}

/// Tells whoever sits at the terminal the run's result.
fn sum_up(rt: &HostRuntime, tally: Tally) {
    let mut errors = rt.stderr();
    if errors.is_terminal() {
        let mut line = Line::new();
        line.put_text(b" refused");
        line.put_number(tally.refused);
        line.put_text(b" kept, ");
        line.put_number(tally.kept);
        line.put_text(b" commands, ");
        line.put_number(tally.commands);
        // Nobody is told of a terminal that is gone.
        let _ = write_whole(&mut errors, line.as_slice());
    }
}
