//! Lines of standard input, recorded as they come.
ghost use Rattle.archive_record.specs.Files.{AllKept};

use archive_actions::{
    FileRecording, Filing, FolderRecording, Keeper, Recording, granted, is_folder, is_input_in,
    lock_folder, now, with_slash,
};
use archive_folder::{Folder, SystemFolder};
use archive_record::{ArchiveNames, Rules};
use disk_model::Disk;
use fault_lines::{Fault, is_input};
use import_feed::{ChangeOptions, Skeletons};
use import_record::{ImportRun, RecordFault, refused_line};
use line_packets::{Acks, LeftOut, LineFault, LinePages, Streams, kept_line, left_line};
use ogg_command::Listed;
use ogg_page::write_whole;
use record_actions::Told;
use std::alloc::{AllocError, Global};
use std::io::{ErrorKind, Read};

/// How many commands may share a commit.
const MOST: u32 = 1024;

/// How many bytes of the input are read at once.
const AT_ONCE: usize = 1 << 18;

/// How many lines are put at once, if nothing else is asked for.
const LINES_AT_ONCE: usize = 4096;

/// How many bytes of pages are taken at once.
const ROOM: usize = 1 << 20;

/// How lines are recorded.
#[derive(Clone, Copy)]
pub struct LineOptions<'a> {
    /// How many lines may share a commit, if that isn't all that are at hand.
    pub most: Option<u32>,
    /// Each commit is told on standard output.
    pub acks: bool,
    /// The media type of the lines.
    pub media: &'a str,
    /// The name of the stream, or, with commas between, those of several.
    pub names: &'a str,
    /// There are several streams: a line begins with the name of its own and a tab.
    pub tagged: bool,
    /// At the end, if no fault came, the file is cut to its pages.
    pub seal: bool,
}

/// Records each line of standard input as a packet into the file or the folder, which is made if there is none. What an
/// earlier run left open is ended first. What is left out or refused is told on standard error, and at the end what was
/// recorded.
///
/// It is `LeftOut` if lines were left out, `Write` if standard output doesn't take what is told there, and otherwise as
/// for `archive`. What was told as kept stays in the file.
pub fn lines(
    rt: &HostRuntime,
    path: &str,
    filing: Filing,
    options: LineOptions<'_>,
) -> Result<(), Fault> {
    let streams = streams_of(rt.alloc(), options.names, options.tagged)?;
    if is_folder(rt, path, filing) {
        into_folder(rt, path, filing, streams, options)
    } else {
        into_file(rt, path, streams, options)
    }
}

/// The names, which have commas between if there are several.
fn names_of(alloc: Global, names: &str, tagged: bool) -> Result<Vec<Listed<u8>>, AllocError> {
    let mut all = Vec::new(alloc);
    if tagged {
        for name in names.split(',') {
            all.push(Listed::of(name.as_bytes().to_vec(alloc)?))?;
        }
    } else {
        all.push(Listed::of(names.as_bytes().to_vec(alloc)?))?;
    }
    Ok(all)
}

/// The streams with these names.
fn streams_of(alloc: Global, names: &str, tagged: bool) -> Result<Streams, Fault> {
    let names = granted(names_of(alloc, names, tagged))?;
    match Streams::named(tagged, names) {
        Some(streams) => Ok(streams),
        // The command line takes no more names than a link may have.
        None => Err(Fault::Refused),
    }
}

/// The same into one file.
fn into_file(
    rt: &HostRuntime,
    file: &str,
    streams: Streams,
    options: LineOptions<'_>,
) -> Result<(), Fault> {
    if is_input(rt, file) {
        return Err(Fault::Archive(RecordFault::Read));
    }
    let mut recording = FileRecording::open(rt, file, MOST, false)?;
    record_lines(rt, &mut recording, streams, options)?;
    recording.seal(options.seal)
}

/// The same into a folder.
fn into_folder(
    rt: &HostRuntime,
    path: &str,
    filing: Filing,
    streams: Streams,
    options: LineOptions<'_>,
) -> Result<(), Fault> {
    let folder = with_slash(rt.alloc(), path)?;
    let folder = folder.as_str();
    if is_input_in(rt, folder) {
        return Err(Fault::Archive(RecordFault::Read));
    }
    let _lock = lock_folder(rt, folder)?;
    let files = granted(SystemFolder::at(rt.alloc(), rt, ArchiveNames, folder))?;
    let keeper = Keeper::new(rt, folder, Told::new(rt, false, 0));
    into_files(rt, files, keeper, filing.rules(MOST), streams, options)
}

/// Records the lines into the files of this folder.
fn into_files<D: Disk + Drop, F: Folder<File = D> + Drop>(
    rt: &HostRuntime,
    folder: F,
    keeper: Keeper<'_>,
    rules: Rules,
    streams: Streams,
    options: LineOptions<'_>,
) -> Result<(), Fault>
    requires { F.is_honest folder → AllKept (F.names folder) (F.file folder) }
{
    let mut recording = FolderRecording::open(rt, folder, keeper, rules)?;
    record_lines(rt, &mut recording, streams, options)?;
    recording.seal(options.seal)
}

/// Records the lines of standard input.
fn record_lines<R: Recording>(
    rt: &HostRuntime,
    recording: &mut R,
    streams: Streams,
    options: LineOptions<'_>,
) -> Result<(), Fault> {
    let serials = recording.serials()?;
    let mut run = granted(Run::new(rt, serials.as_slice(), streams, options))?;
    let recorded = run.record(recording);
    recording.close();
    run.ended(recorded)
}

/// A run over the lines of standard input.
#[derive(Drop)]
struct Run<'a> {
    rt: &'a HostRuntime,
    options: LineOptions<'a>,
    lines: LinePages,
    // the pages of lines that were taken, and what takes them
    pages: Vec<u8>,
    import: ImportRun,
    acks: Acks,
    has_left_out: bool,
    // standard output has taken no more
    is_unwritten: bool,
}

impl<'a> Run<'a> {
    /// Nothing has come yet. The streams get serials other than these.
    fn new(
        rt: &'a HostRuntime,
        serials: &[u32],
        streams: Streams,
        options: LineOptions<'a>,
    ) -> Result<Run<'a>, AllocError> {
        let changes = ChangeOptions {
            renumber: true,
            // One that is kept would go on to name the serials of the input.
            skeletons: Skeletons::Made(0),
        };
        Ok(Run {
            rt,
            options,
            lines: LinePages::new(rt.alloc(), streams),
            pages: Vec::new(rt.alloc()),
            import: ImportRun::new(rt.alloc(), ROOM, changes, serials)?,
            acks: Acks::new(),
            has_left_out: false,
            is_unwritten: false,
        })
    }

    /// How many lines are put at once.
    fn most(&self) -> usize {
        match self.options.most {
            Some(most) => most as usize,
            None => LINES_AT_ONCE,
        }
    }

    /// What the run has come to, if it met no fault.
    fn ended(&self, recorded: Result<(), Fault>) -> Result<(), Fault> {
        recorded?;
        if self.is_unwritten {
            return Err(Fault::Write);
        }
        if self.has_left_out {
            return Err(Fault::LeftOut);
        }
        Ok(())
    }

    /// Records what comes until the input ends, and then what has come of a last line. All is kept.
    fn record<R: Recording>(&mut self, recording: &mut R) -> Result<(), Fault> {
        let met = self.record_all(recording);
        let ended = match met {
            // If the reader has failed, what has come is an input that stops there.
            Ok(()) | Err(Fault::Archive(RecordFault::Read)) => self.record_last(recording),
            Err(fault) => Err(fault),
        };
        if ended.is_err() {
            // Not all that was taken was recorded.
            self.acks.lose();
        }
        let kept = self.end(recording);
        if kept.is_ok() {
            self.tell_kept(recording);
        }
        met.and(ended).and(kept)
    }

    /// Ends the link, and keeps all.
    fn end<R: Recording>(&mut self, recording: &mut R) -> Result<(), Fault> {
        recording.finish(&mut self.import)?;
        recording.end_open(&mut self.import)
    }

    /// Records what comes until the input ends.
    fn record_all<R: Recording>(&mut self, recording: &mut R) -> Result<(), Fault> {
        let mut room = Vec::new(self.rt.alloc());
        granted(room.resize(AT_ONCE, 0))?;
        for _ in 0..u64::MAX {
            let count = match self.rt.stdin().read(room.as_mut_slice()) {
                Ok(0) => return Ok(()),
                Ok(count) => count,
                Err(error) if error.kind() == ErrorKind::Interrupted => continue,
                Err(_) => return Err(Fault::Archive(RecordFault::Read)),
            };
            if let Some(piece) = room.as_slice().get(..count) {
                self.record_piece(recording, piece)?;
            }
        }
        Ok(())
    }

    /// Records the lines that end in this piece of the input, and keeps them.
    fn record_piece<R: Recording>(&mut self, recording: &mut R, piece: &[u8]) -> Result<(), Fault> {
        let time = now(self.rt);
        let most = self.most();
        let mut rest = piece;
        for _ in 0..u64::MAX {
            // No piece has more bytes than are read at once.
            if rest.is_empty() || rest.len() > AT_ONCE {
                break;
            }
            self.pages.clear();
            let media = self.options.media.as_bytes();
            let taken = self.lines.take(rest, time, most, media, &mut self.pages);
            let taken = self.took(recording, taken)?;
            rest = taken.rest;
            self.give(recording, taken.lines, taken.left)?;
            if self.options.most.is_some() {
                self.keep(recording)?;
            }
        }
        self.keep(recording)
    }

    /// Records what has come of a line at the end of the input.
    fn record_last<R: Recording>(&mut self, recording: &mut R) -> Result<(), Fault> {
        let time = now(self.rt);
        self.pages.clear();
        let media = self.options.media.as_bytes();
        let last = self.lines.finish(time, media, &mut self.pages);
        let (lines, left) = self.took(recording, last)?;
        self.give(recording, lines, left)
    }

    /// Tells why the last line is left out, if it is.
    fn tell_left<R: Recording>(&mut self, recording: &mut R, left: Option<LeftOut>) {
        if let Some(left) = left {
            self.has_left_out = true;
            recording.tell(left_line(self.acks.taken, left).as_slice());
        }
    }

    /// What was taken. Of packets that are refused that is told.
    fn took<R: Recording, T>(
        &mut self,
        recording: &mut R,
        taken: Result<T, LineFault>,
    ) -> Result<T, Fault> {
        match taken {
            Ok(taken) => Ok(taken),
            Err(LineFault::Memory) => Err(Fault::Memory),
            Err(LineFault::Refused(refusal)) => {
                self.acks.lose();
                recording.tell(refused_line(refusal, self.import.offset()).as_slice());
                Err(Fault::Refused)
            }
        }
    }

    /// Records the pages of so many lines, of which the last may be left out.
    fn give<R: Recording>(
        &mut self,
        recording: &mut R,
        lines: u64,
        left: Option<LeftOut>,
    ) -> Result<(), Fault> {
        self.acks.take(lines);
        self.tell_left(recording, left);
        let mut rest = self.pages.as_slice();
        for _ in 0..u64::MAX {
            if !self.import.waits() {
                recording.step(&mut self.import, true)?;
            } else if rest.is_empty() {
                return Ok(());
            } else {
                match self.import.read_once(&mut rest) {
                    Ok(_) => {}
                    Err(fault) => return Err(Fault::Archive(fault)),
                }
            }
        }
        Ok(())
    }

    /// Keeps what waits, and tells it.
    fn keep<R: Recording>(&mut self, recording: &mut R) -> Result<(), Fault> {
        recording.keep(&mut self.import)?;
        self.tell_kept(recording);
        Ok(())
    }

    /// Tells how many lines are on the disk, if that is asked for and is more than was told.
    fn tell_kept<R: Recording>(&mut self, recording: &mut R) {
        if recording.fault().is_some() {
            self.acks.lose();
        }
        let (waiting, failed) = recording.waiting();
        if !self.options.acks || self.is_unwritten {
            return;
        }
        if let Some(lines) = self.acks.due(waiting, failed) {
            let line = kept_line(lines);
            if write_whole(&mut self.rt.stdout(), line.as_slice()).is_err() {
                self.is_unwritten = true;
            }
        }
    }
}
