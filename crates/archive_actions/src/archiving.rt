//! A stream that is recorded as it comes.
ghost use Rattle.std.specs.Prelude.{◌≡◌, ◌≢◌, ◌⊎◌, ◌↔◌, [], IfOk, OnOk, OnErr, Err, true, false};
ghost use Rattle.gate_file.specs.declared.fault.OpenFault.{OpenFault as OpenFaultOf};
ghost use Rattle.import_changes.specs.Changed.{HasChangedBeside};
ghost use Rattle.link_chain.specs.ChainState.{is_open};
ghost use Rattle.ogg_command.specs.declared.refusal.Refusal.{Refusal as RefusalOf};
ghost use Rattle.record_actions.specs.Foreign.{IsForeign, front_of};
ghost use Rattle.record_actions.specs.Tail.{IsKeptAside};
ghost use Rattle.archive_record.specs.Resting.{IsAtRest};

use crate::filing::{Filing, archive_folder, is_folder, now};
use crate::recording::{FileRecording, Recording};
use archive_clock::utc_of;
use archive_record::Unended;
use disk_model::{Disk, FileDisk};
use fault_lines::{Fault, is_input};
use file_recorder::Recorder;
use import_feed::{ChangeOptions, Skeletons};
use import_record::{ImportRun, RecordFault};
use record_actions::{
    Aside, Asides, LockedFile, Missing, Opening, TailFiles, lock_file, open_recorder,
};
use std::alloc::Global;

/// How many bytes of the stream are read at once.
const ROOM: usize = 1 << 20;

/// How a stream is recorded.
#[derive(Clone, Copy)]
pub struct ArchiveOptions {
    /// What becomes of Skeletons.
    pub skeletons: Skeletons,
    /// How many commands may share a commit while more of the stream is at hand.
    pub most: u32,
    /// The first mend or refusal ends the run.
    pub strict: bool,
    /// At the end, if no fault came, the file is cut to its pages.
    pub seal: bool,
}

/// Records the Ogg stream on standard input into the file or the folder, which is made if there is none. What an earlier run left
/// open is ended first. What is mended or refused is told on standard error, and at the end what was recorded.
///
/// It is `Archive` if standard input is the file itself, which isn't opened then, or if the stream isn't recorded to
/// its end. It is `Locked`, `File`, `Foreign`, `Memory` or `Open` if the file can't be opened, first or after a fault of
/// the disk, and `Failed` if the disk fails again before anything more is kept. It is `Refused` or `Mended` after a refusal, or
/// in a strict run a mend, and `Seal` if the file isn't cut. What was told as recorded stays in the file.
pub fn archive(
    rt: &HostRuntime,
    path: &str,
    filing: Filing,
    options: ArchiveOptions,
) -> Result<(), Fault> {
    if is_folder(rt, path, filing) {
        archive_folder(rt, path, filing, options)
    } else {
        archive_file(rt, path, options)
    }
}

/// The same into one file.
fn archive_file(rt: &HostRuntime, file: &str, options: ArchiveOptions) -> Result<(), Fault> {
    if is_input(rt, file) {
        return Err(Fault::Archive(RecordFault::Read));
    }
    let mut recording = FileRecording::open(rt, file, options.most, options.strict)?;
    record_stream(rt, &mut recording, options.skeletons)?;
    recording.seal(options.seal)
}

/// Opens the file, which is made if there is none, and ends what an earlier run left open in it. What follows its pages
/// is kept beside it first, unless a stop may have left that.
pub(crate) fn open_ended(
    rt: &HostRuntime,
    file: &str,
    most: u32,
) -> Result<Recorder<FileDisk>, Fault> {
    let locked = lock_file(rt, file, Missing::Made)?;
    match ended_on(rt.alloc(), locked, &mut TailFiles::of(rt, file), most) {
        Ok((recorder, _)) => Ok(recorder),
        Err(fault) => Err(fault),
    }
}

/// A recorder on a file that holds a recording, or nothing yet, and what keeps the tail that the file had, unless a stop
/// may have left that. What was open is ended, and that is kept.
///
/// Its faults are those of `open_recorder` and of `end_open`.
fn ended_on<D: Disk + Drop, A: Asides>(
    alloc: Global,
    file: LockedFile<D>,
    asides: &mut A,
    most: u32,
) -> Result<(Recorder<D>, Option<Aside<A::Copy>>), Fault>
    ensures rests { IfOk result (λ (recorder, aside). IsAtRest recorder) }
    ensures foreign { D.is_honest file → IsForeign (front_of (D.state file).contents)
        → (result ≡ Err Fault.Foreign) ⊎ (result ≡ Err (Fault.Open OpenFaultOf.Disk)) }
    ensures only { D.is_honest file → result ≡ Err Fault.Foreign → IsForeign (front_of (D.state file).contents) }
    ensures kept { IfOk result (λ (recorder, aside). D.is_honest file
        → IsKeptAside A.Copy.Disk (D.state file).contents aside) }
{
    let (mut recorder, aside) = open_recorder(alloc, file, Opening::Kept, asides)?;
    // `clap` has checked that `most` lies in this range, and nothing waits yet.
    recorder.group(most.clamp(1, 1024));
    end_open(&mut recorder)?;
    Ok((recorder, aside))
}

/// Ends the streams that are open in the file, and keeps that with all that waits.
///
/// It is `Failed` if the disk has failed, and `Refused` if an end was refused for something else.
pub(crate) fn end_open<D: Disk>(recorder: &mut Recorder<D>) -> Result<(), Fault>
    ensures rests { OnOk result (IsAtRest recorder.new) }
    ensures failed { result ≡ Err Fault.Failed → recorder.new.file.failed ≡ true }
    ensures refused { result ≡ Err Fault.Refused → is_open recorder.new.chain ≡ true }
    ensures own { result ≢ Err Fault.Foreign }
{
    match archive_record::end_open(recorder) {
        Ok(()) => Ok(()),
        Err(unended) => Err(unended_fault(unended)),
    }
}

/// The fault of ends that aren't kept.
pub(crate) fn unended_fault(unended: Unended) -> Fault
    ensures failed { (result ≡ Fault.Failed) ↔ (unended ≡ Unended.Failed) }
    ensures refused { (result ≡ Fault.Refused) ↔ ((refusal : RefusalOf) × (unended ≡ Unended.Refused refusal)) }
    ensures own { result ≢ Fault.Foreign }
{
    match unended {
        Unended::Failed => Fault::Failed,
        Unended::Refused(_) => Fault::Refused,
    }
}

/// Records the Ogg stream on standard input. Its streams get serials that what it is recorded into doesn't have.
pub(crate) fn record_stream<R: Recording>(
    rt: &HostRuntime,
    recording: &mut R,
    skeletons: Skeletons,
) -> Result<(), Fault> {
    let serials = recording.serials()?;
    let mut import = import_beside(rt.alloc(), serials.as_slice(), skeletons)?;
    let recorded = record_all(rt, recording, &mut import);
    recording.close();
    recorded
}

/// A run over a stream that is recorded beside streams with these serials: its own get others.
fn import_beside(alloc: Global, serials: &[u32], skeletons: Skeletons) -> Result<ImportRun, Fault>
    ensures renumbers { IfOk result (λ run. run.changes.options ≡ record { renumber = true; skeletons = skeletons }) }
    ensures beside { IfOk result (λ run. HasChangedBeside serials.now run.changes [] []) }
    ensures memory { OnErr result (result ≡ Err Fault.Memory) }
{
    let options = ChangeOptions {
        renumber: true,
        skeletons,
    };
    match ImportRun::new(alloc, ROOM, options, serials) {
        Ok(import) => Ok(import),
        Err(_) => Err(Fault::Memory),
    }
}

/// Records what comes until the stream ends, or has to. Then what is open is ended, and what waits is kept.
fn record_all<R: Recording>(
    rt: &HostRuntime,
    recording: &mut R,
    import: &mut ImportRun,
) -> Result<(), Fault> {
    let met = record_steps(rt, recording, import);
    let ended = match met {
        // If the reader has failed, what has come is a stream that stops there.
        Ok(()) | Err(Fault::Archive(RecordFault::Read)) => recording.finish(import),
        Err(_) => Ok(()),
    };
    let kept = recording.end_open(import);
    met.and(ended).and(kept)
}

/// Records what comes, page by page, until the stream ends, or a strict run has to end.
fn record_steps<R: Recording>(
    rt: &HostRuntime,
    recording: &mut R,
    import: &mut ImportRun,
) -> Result<(), Fault> {
    let mut more = true;
    // Bytes have come over which no step was taken yet: a file is looked for, or they are told, also if the stream ends
    // with them.
    let mut came = false;
    for _ in 0..u64::MAX {
        if recording.has_enough() {
            return Ok(());
        }
        let (waiting, _) = recording.waiting();
        if !more || !import.waits() {
            if recording.step(import, more || came)? {
                return Ok(());
            }
            came = false;
        } else if waiting > 0 {
            // What waits is kept before more is waited for.
            recording.keep(import)?;
        } else {
            more = read_more(rt, import)?;
            came = came || more;
        }
    }
    Ok(())
}

/// Waits for more of the stream, and returns whether some has come. Its links begin at the time at which they come.
fn read_more(rt: &HostRuntime, import: &mut ImportRun) -> Result<bool, Fault> {
    if !import.waits() {
        return Ok(true);
    }
    match import.read_once(&mut rt.stdin()) {
        Ok(0) => Ok(false),
        Ok(_) => {
            import.tell_time(utc_of(now(rt)));
            Ok(true)
        }
        Err(fault) => Err(Fault::Archive(fault)),
    }
}
