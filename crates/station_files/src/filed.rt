//! The files of a folder under a station: the one that is recorded, and when the next one is begun.
ghost use Rattle.std.specs.Prelude.{◌≡◌, ◌<◌, IfOk, None, Ok, OnOk, Some, false, filter, true};
ghost use Rattle.station_files.specs.Moving.{GoesOver, GoesOverTo, IsJoined};
ghost use Rattle.station_files.specs.Named.{has_number, only_one};
ghost use Rattle.station_sources.specs.Pending.{HasCome};
ghost use Rattle.station_sources.specs.declared.air.OnAir.{OnAir as OnAirOf};
ghost use Rattle.archive_record.specs.Files.{AllKept};

use crate::seats::{Meeting, Next, Stations};
use archive_folder::{FileName, Folder};
use archive_record::{ArchiveFault, Beside, Damage, Rotation, Rules};
use archive_times::Join;
use disk_model::{Disk, Memory};
use file_recorder::{Recorder, end_streams};
use gate_file::OpenFault;
use import_record::{Answered, RecordFault};
use link_chain::{MOST_LINKS, StreamState, is_open};
use serve_hub::Hub;
use serve_live::open_streams;
use station::Done;
use station_hub::LiveHub;
use std::alloc::Global;

/// For how many milliseconds a change of the file is put off that can't be made.
const PUT_OFF: u64 = 1000;

/// How many commands share a commit, at most: the station says when they are committed.
const GROUP: u32 = 1024;

/// Opens a file of the folder once more, to read it alone.
pub trait Readers<D: Disk> {
    /// The file under this name, if it can be opened.
    fn open(&mut self, file: FileName) -> Option<D>;
}

/// The time, by two clocks, in milliseconds: one that never goes back, and one that counts since 1970.
#[derive(Clone, Copy, Debug, PartialEq, Eq)]
pub struct Clocks {
    pub steady: u64,
    pub day: u64,
}

/// The files of a folder, of which the newest is recorded and served by a station.
#[derive(Drop)]
pub struct Filed<F: Folder> {
    alloc: Global,
    rotation: Rotation<F>,
    name: FileName,
    // how many connections may have a session
    most: usize,
    // until when no change is tried, as one couldn't be made
    put_off: u64,
    // how many bytes were committed when the newest file was left for a fault, if nothing was kept since
    left_at: Option<u64>,
}

/// A hub over a recorder in which nothing waits, with room for this many sessions.
fn hub_over<D: Disk + Drop>(
    alloc: Global,
    recorder: Recorder<D>,
    most: usize,
) -> Result<Hub<D>, ArchiveFault>
    requires { recorder.held ≡ 0 }
    ensures room { IfOk result (λ hub. hub.room ≡ most) }
{
    match Hub::with_room(alloc, recorder, most) {
        Ok(mut hub) => {
            hub.group(GROUP);
            Ok(hub)
        }
        Err(_) => Err(ArchiveFault::Memory),
    }
}

/// What is served live of a hub to which nobody is connected.
fn live_over<D: Disk + Drop>(alloc: Global, hub: Hub<D>) -> Result<LiveHub<D>, ArchiveFault>
    ensures hub { IfOk result (λ live. live.hub ≡ hub) }
{
    match LiveHub::new(alloc, hub) {
        Ok(live) => Ok(live),
        Err(_) => Err(ArchiveFault::Memory),
    }
}

/// The serials that a file has.
fn serials_of<D: Disk>(alloc: Global, hub: &Hub<D>) -> Result<Vec<u32>, Memory> {
    hub.serials().to_vec(alloc)
}

/// Whether a hub's file takes no further link.
fn is_full<D: Disk>(hub: &Hub<D>) -> bool {
    hub.links() >= MOST_LINKS && !is_open(hub.streams())
}

/// Where the open link of a station is joined, if one is open.
fn join_of<D: Disk + Drop>(stations: &Stations<D>) -> Option<Join> {
    let place = stations.newest().place()?;
    Some(Join {
        begin: place.begin,
        begun: place.begun,
    })
}

/// Whether a link goes on: these streams were open at the end of the file before, and have ended there.
fn goes_on(is_ended: bool, open: &[StreamState]) -> bool
    ensures { is_ended ≡ false → result ≡ false }
{
    is_ended && !open.is_empty()
}

/// The link goes on, if one does, that was open at the end of the file before with these streams, if it has begun in this one
/// with as many, and that is kept.
fn join_link<D: Disk + Drop>(
    alloc: Global,
    stations: &mut Stations<D>,
    goes_on: bool,
    open: Vec<StreamState>,
) -> Result<(), ArchiveFault>
    ensures joined { IsJoined «open».items stations.old stations.new }
    ensures none { goes_on ≡ false → stations.new ≡ stations.old }
{
    if !goes_on {
        return Ok(());
    }
    let hub = stations.newest().hub();
    if hub.held() > 0 || hub.is_failed() {
        return Ok(());
    }
    let Ok(begun) = open_streams(alloc, hub.streams()) else {
        return Err(ArchiveFault::Memory);
    };
    if begun.len() != open.len() {
        return Ok(());
    }
    let begun_end = hub.end();
    stations.goes_on(Meeting {
        open,
        begun,
        begun_end,
    });
    Ok(())
}

/// Begins the link that is open in the source again, under serials that are none of these. Whether something of the source
/// is lost is noted.
fn begin_link<D: Disk + Drop>(
    stations: &mut Stations<D>,
    serials: &[u32],
    is_lost: bool,
) -> Result<Answered, ArchiveFault>
    ensures rest { stations.new ≡ record stations.old { newest = stations.new.newest } }
{
    match stations.newest_mut().begin_again(serials, is_lost) {
        Ok(answered) => Ok(answered),
        Err(RecordFault::Memory) => Err(ArchiveFault::Memory),
        Err(fault) => Err(ArchiveFault::Input(fault)),
    }
}

/// The name with this number. None if there is none, or more than one.
fn only_named(names: &[FileName], number: u64) -> Option<FileName>
    ensures { result ≡ only_one (filter (has_number number) names.now) }
{
    let mut found = None;
    for name in names {
        if name.number == number {
            if found.is_some() {
                return None;
            }
            found = Some(*name);
        }
    }
    found
}

impl<D: Disk + Drop, F: Folder<File = D> + Drop> Filed<F> {
    /// Opens a folder. Its newest file is recorded into, if it can be gone on with; otherwise the next one is begun at once.
    /// It returns a hub over the file. What is to be thrown away is.
    ///
    /// It is `Folder` if the folder can't be read or written, and `Memory`.
    pub fn open<B: Beside>(
        alloc: Global,
        folder: F,
        rules: Rules,
        most: usize,
        now: u64,
        beside: &mut B,
    ) -> Result<(Filed<F>, Hub<D>), ArchiveFault>
        requires { F.is_honest folder → AllKept (F.names folder) (F.file folder) }
    {
        let mut rotation = Rotation::open(alloc, folder, rules, now)?;
        let (name, recorder) = open_or_begin(&mut rotation, now, beside)?;
        let hub = hub_over(alloc, recorder, most)?;
        rotation.throw_away(now, beside);
        let filed = Filed {
            alloc,
            rotation,
            name,
            most,
            put_off: 0,
            left_at: None,
        };
        Ok((filed, hub))
    }

    /// The name of the file that is recorded.
    pub fn name(&self) -> FileName
        ensures { result ≡ self.now.name }
    {
        self.name
    }

    /// The file with this number. None if there is no such file, or more than one.
    pub fn named(&self, number: u64) -> Option<FileName>
        ensures { result ≡ only_one (filter (has_number number) self.now.rotation.files.files) }
    {
        only_named(self.rotation.names(), number)
    }

    /// Begins the next file, if something has come that is recorded, and the newest is over. It returns what was answered when
    /// the open link began again in it, if it was changed.
    ///
    /// After a fault nothing is recorded any more.
    pub fn change_if_due<B: Beside, R: Readers<D>>(
        &mut self,
        stations: &mut Stations<D>,
        readers: &mut R,
        clocks: Clocks,
        beside: &mut B,
    ) -> Result<Option<Answered>, ArchiveFault>
        // Nothing is done before a change may be tried again, or if nothing has come that would be recorded.
        ensures early { clocks.steady < self.old.put_off → (result ≡ Ok None) × (self.new ≡ self.old) × (stations.new ≡ stations.old) }
        ensures idle { stations.old.newest.air ≡ None → (result ≡ Ok None) × (self.new ≡ self.old) × (stations.new ≡ stations.old) }
    {
        if clocks.steady < self.put_off || !self.is_due(stations, clocks.day) {
            return Ok(None);
        }
        if stations.prepare().is_err() {
            self.put_off = clocks.steady.saturating_add(PUT_OFF);
            return Ok(None);
        }
        let Some(disk) = readers.open(self.name) else {
            self.put_off = clocks.steady.saturating_add(PUT_OFF);
            return Ok(None);
        };
        self.change(stations, disk, clocks, beside)
    }

    /// Whether something has come, and belongs into the next file.
    fn is_due(&self, stations: &Stations<D>, day: u64) -> bool
        ensures idle { stations.now.newest.air ≡ None → result ≡ false }
        ensures due { result ≡ true → (air : OnAirOf) × (stations.now.newest.air ≡ Some air) × HasCome air }
    {
        let station = stations.newest();
        if !station.has_come() {
            return false;
        }
        let hub = station.hub();
        !hub.is_failed()
            && self
                .rotation
                .is_over(self.name, hub.length(), is_full(hub), day)
    }

    /// Ends what is open, and begins the next file; the one before is read from this disk, to where the open link goes on. If
    /// the disk has failed meanwhile nothing is changed.
    fn change<B: Beside>(
        &mut self,
        stations: &mut Stations<D>,
        disk: D,
        clocks: Clocks,
        beside: &mut B,
    ) -> Result<Option<Answered>, ArchiveFault> {
        stations.newest_mut().keep();
        let hub = stations.newest().hub();
        if hub.is_failed() {
            return Ok(None);
        }
        let Ok(serials) = serials_of(self.alloc, hub) else {
            return Err(ArchiveFault::Memory);
        };
        let Ok(open) = open_streams(self.alloc, hub.streams()) else {
            return Err(ArchiveFault::Memory);
        };
        let (end, join) = (hub.end(), join_of(stations));
        let Ok(reading) = Recorder::to_read(self.alloc, disk, end) else {
            self.put_off = clocks.steady.saturating_add(PUT_OFF);
            return Ok(None);
        };
        let recorder = match stations.newest_mut().read_by(reading) {
            Ok(recorder) => recorder,
            Err(disk) => {
                // A hub without a file has failed.
                self.rotation.give_back(self.name, disk);
                return Ok(None);
            }
        };
        match self.end(recorder, join, clocks.day, beside) {
            Ok(is_ended) => {
                let answered = self.begin(
                    stations,
                    open,
                    serials.as_slice(),
                    // What couldn't be kept at the end of the file before is lost.
                    is_ended,
                    clocks.day,
                    beside,
                )?;
                Ok(Some(answered))
            }
            Err(recorder) => {
                // `recover` goes on with the disk that has failed.
                let _ = stations.newest_mut().read_by(recorder);
                Ok(None)
            }
        }
    }

    /// Ends the file for good: what is open is ended, and the file is cut to its pages. Returns whether all of its streams
    /// have ended. If the disk fails the recorder is handed back.
    fn end<B: Beside>(
        &mut self,
        recorder: Recorder<D>,
        join: Option<Join>,
        day: u64,
        beside: &mut B,
    ) -> Result<bool, Recorder<D>> {
        let mut recorder = recorder;
        // The ends share one commit.
        recorder.hold_all();
        let ended = end_streams(&mut recorder);
        self.rotation
            .end_group(self.name, recorder, join, day, beside)?;
        match ended {
            Ok(()) => Ok(true),
            Err(refusal) => {
                beside.refused(0, refusal);
                Ok(false)
            }
        }
    }

    /// Begins the next file, and in it the link that is open in the source, under serials that are none of these. These
    /// streams were open at the end of the file before; whether they have ended there is said: if not, it is noted that
    /// something of the source is lost. Who hears the link hears on, if as many go on.
    fn begin<B: Beside>(
        &mut self,
        stations: &mut Stations<D>,
        open: Vec<StreamState>,
        serials: &[u32],
        is_ended: bool,
        day: u64,
        beside: &mut B,
    ) -> Result<Answered, ArchiveFault>
        ensures another { OnOk result (GoesOver «open».items Next.Another stations.old stations.new) }
        ensures parted { is_ended ≡ false → OnOk result (GoesOverTo Next.Another stations.old stations.new) }
    {
        let goes_on = goes_on(is_ended, open.as_slice());
        let (name, recorder) = self.rotation.begin(goes_on, day, beside)?;
        self.name = name;
        let hub = hub_over(self.alloc, recorder, self.most)?;
        stations.change(live_over(self.alloc, hub)?, Next::Another);
        let answered = begin_link(stations, serials, !is_ended)?;
        self.tell_time(stations, day, beside);
        join_link(self.alloc, stations, goes_on, open)?;
        self.rotation.throw_away(day, beside);
        Ok(answered)
    }

    /// The file can't be recorded into as it is. If no room is left, and only so many bytes are kept, the oldest file goes,
    /// and the newest is opened again; otherwise it is left as it is, and the next one is begun. What waited is lost. It
    /// returns what the station has done with that.
    ///
    /// It is `Disk` if nothing was kept since that was done before, or the file can't be opened to be read.
    pub fn recover<B: Beside, R: Readers<D>>(
        &mut self,
        stations: &mut Stations<D>,
        readers: &mut R,
        why: OpenFault,
        clocks: Clocks,
        beside: &mut B,
    ) -> Result<Done, ArchiveFault> {
        let end = stations.newest().hub().end();
        if self.left_at == Some(end) {
            return Err(ArchiveFault::Disk);
        }
        let Ok(serials) = serials_of(self.alloc, stations.newest().hub()) else {
            return Err(ArchiveFault::Memory);
        };
        if stations.prepare().is_err() {
            return Err(ArchiveFault::Memory);
        }
        let Some(disk) = readers.open(self.name) else {
            return Err(ArchiveFault::Disk);
        };
        let Ok(reading) = Recorder::to_read(self.alloc, disk, end) else {
            return Err(ArchiveFault::Disk);
        };
        let disk = match stations.newest_mut().read_by(reading) {
            Ok(recorder) => recorder.give_back(),
            Err(disk) => disk,
        };
        self.rotation.give_back(self.name, disk);
        if self.rotation.make_room(beside) {
            if let Ok(recorder) = self.rotation.open_again(beside) {
                return self.open_again(stations, recorder, clocks, beside);
            }
        }
        beside.damaged(self.name, Damage::Open(why));
        self.left_at = Some(0);
        let answered = self.begin(
            stations,
            Vec::new(self.alloc),
            serials.as_slice(),
            false,
            clocks.day,
            beside,
        )?;
        Ok(Done::Reopened(answered))
    }

    /// The newest file is recorded into again.
    fn open_again<B: Beside>(
        &mut self,
        stations: &mut Stations<D>,
        recorder: Recorder<D>,
        clocks: Clocks,
        beside: &mut B,
    ) -> Result<Done, ArchiveFault>
        requires { recorder.held ≡ 0 }
        ensures same { OnOk result (GoesOverTo Next.Same stations.old stations.new) }
    {
        let hub = hub_over(self.alloc, recorder, self.most)?;
        stations.change(live_over(self.alloc, hub)?, Next::Same);
        self.opened(stations, clocks.day, beside);
        Ok(stations.newest_mut().resume(clocks.steady))
    }

    /// After a step: a line of times is written, unless something waits, or one was written within the last second that tells
    /// of the open link. Once something is kept the next fault is the first again.
    pub fn stepped<B: Beside>(&mut self, stations: &Stations<D>, day: u64, beside: &mut B) {
        let hub = stations.newest().hub();
        if hub.held() > 0 || hub.is_failed() {
            return;
        }
        if hub.end() > 0 {
            self.left_at = None;
        }
        if self.rotation.is_time_due(join_of(stations), day) {
            self.tell_time(stations, day, beside);
        }
    }

    /// The file was opened again, or at first: its times are gone on with.
    pub fn opened<B: Beside>(&mut self, stations: &Stations<D>, day: u64, beside: &mut B) {
        self.rotation
            .opened(self.name, stations.newest().hub().end(), beside);
        self.tell_time(stations, day, beside);
    }

    /// A line of times is written, if what is committed says more than the last one.
    fn tell_time<B: Beside>(&mut self, stations: &Stations<D>, day: u64, beside: &mut B) {
        let end = stations.newest().hub().end();
        self.rotation.tell_time(end, join_of(stations), day, beside);
    }

    /// Ends the newest file for good, once nothing is recorded any more. Returns whether it is cut to its pages.
    pub fn close<B: Beside>(&mut self, recorder: Recorder<D>, beside: &mut B) -> bool {
        self.rotation.end(self.name, recorder, beside)
    }
}

/// The newest file of a folder, if it can be gone on with; otherwise the next one.
fn open_or_begin<D: Disk + Drop, F: Folder<File = D> + Drop, B: Beside>(
    rotation: &mut Rotation<F>,
    now: u64,
    beside: &mut B,
) -> Result<(FileName, Recorder<D>), ArchiveFault>
    ensures works { IfOk result (λ (file, r). r.held ≡ 0) }
{
    match rotation.open_newest(beside)? {
        Some((name, recorder)) => {
            rotation.opened(name, recorder.end(), beside);
            Ok((name, recorder))
        }
        None => rotation.begin(false, now, beside),
    }
}
