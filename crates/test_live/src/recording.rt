//! A recording made at random.
use crate::generator::Generator;
use disk_model::MemDisk;
use ogg_command::{Begin, Command, Entry, Listed, NewStream, Put, SkeletonHead};
use ogg_recorder::{Outcome, Recorder};
use serve_live::{AHEAD, Boundaries, JoinPlace};
use std::alloc::{AllocError, Global};

/// How many commands are made for a recording.
const COMMANDS: u64 = 20;

/// A boundary at which a listener may join, and the end of the link's last command.
#[derive(Clone, Copy, Debug)]
pub struct Joinable {
    pub place: JoinPlace,
    pub link_end: u64,
}

/// A file, and where listeners may join it.
#[derive(Drop)]
pub struct Made {
    pub bytes: Vec<u8>,
    pub boundaries: Vec<Joinable>,
}

/// A stream of the open link.
#[derive(Clone, Copy, Debug)]
struct Open {
    serial: u32,
    position: u64,
}

/// What is recorded, and the streams that are open.
#[derive(Drop)]
struct Making {
    recorder: Recorder<MemDisk>,
    kept: Boundaries,
    streams: Vec<Open>,
    next_serial: u32,
    begin: u64,
    begun: u64,
    boundaries: Vec<Joinable>,
    agrees: bool,
}

/// Makes a recording. None is made if a command is refused, or `Boundaries` tells another place than it should.
pub fn record(alloc: Global, seed: u64) -> Result<Option<Made>, AllocError> {
    let Ok(recorder) = Recorder::open(alloc, MemDisk::of(alloc, b"")?) else {
        return Ok(None);
    };
    let mut making = Making {
        recorder,
        kept: Boundaries::new(alloc)?,
        streams: Vec::new(alloc),
        next_serial: 1,
        begin: 0,
        begun: 0,
        boundaries: Vec::new(alloc),
        agrees: true,
    };
    let mut random = Generator::of(seed);
    for _ in 0..COMMANDS {
        if !making.step(alloc, &mut random)? {
            return Ok(None);
        }
    }
    making.finish(alloc)
}

impl Making {
    /// Records a command, and tells the boundaries of it. It returns whether it was kept.
    fn step(&mut self, alloc: Global, random: &mut Generator) -> Result<bool, AllocError> {
        let start = self.recorder.end();
        if self.streams.is_empty() {
            let command = self.begin_link(alloc, random)?;
            return Ok(self.keep_begin(&command, start));
        }
        let choice = random.below(12);
        let command = if choice == 0 {
            let last = random.below(self.streams.len() as u64) as usize;
            let Some(stream) = self.streams.get(last).copied() else {
                return Ok(false);
            };
            self.remove(alloc, stream.serial)?;
            Command::End(stream.serial)
        } else {
            self.put(alloc, random)?
        };
        self.keep(&command)
    }

    /// The streams but for one.
    fn remove(&mut self, alloc: Global, serial: u32) -> Result<(), AllocError> {
        let mut rest = Vec::new(alloc);
        for stream in &self.streams {
            if stream.serial != serial {
                rest.push(*stream)?;
            }
        }
        self.streams = rest;
        Ok(())
    }

    fn keep_begin(&mut self, command: &Command, start: u64) -> bool {
        match self.recorder.command(command) {
            Ok(Outcome::Kept(kept)) => {
                self.begin = start;
                self.begun = kept.end;
                self.kept.begun(start, kept.end);
                true
            }
            _ => false,
        }
    }

    fn keep(&mut self, command: &Command) -> Result<bool, AllocError> {
        match self.recorder.command(command) {
            Ok(Outcome::Kept(kept)) => {
                if self.streams.is_empty() {
                    self.kept.ended();
                    self.agrees = self.agrees && self.kept.place().is_none();
                } else {
                    self.kept.went_on(kept.end);
                }
                self.note(kept.end)?;
                Ok(true)
            }
            _ => Ok(false),
        }
    }

    /// Notes the boundary after a command, and compares what `Boundaries` tells with a plain search.
    fn note(&mut self, end: u64) -> Result<(), AllocError> {
        let (begin, begun) = (self.begin, self.begun);
        for known in self.boundaries.iter_mut() {
            if known.place.begin == begin {
                known.link_end = end;
            }
        }
        if self.streams.is_empty() {
            return Ok(());
        }
        let place = JoinPlace {
            begin,
            begun,
            boundary: end,
        };
        self.boundaries.push(Joinable {
            place,
            link_end: end,
        })?;
        let mut newest = begun;
        for known in &self.boundaries {
            let far = end.saturating_sub(known.place.boundary) >= AHEAD;
            if known.place.begin == begin && far {
                newest = known.place.boundary;
            }
        }
        let told = self.kept.place().map_or(0, |place| place.boundary);
        self.agrees = self.agrees && told == newest;
        Ok(())
    }

    /// A Begin of one to three streams, half of them with a Skeleton.
    fn begin_link(&mut self, alloc: Global, random: &mut Generator) -> Result<Command, AllocError> {
        let skeleton = if random.below(2) == 0 {
            None
        } else {
            Some(SkeletonHead {
                serial: self.new_serial(),
                presentation: (0, 1000),
                base: (0, 1000),
                utc: [0; 20],
            })
        };
        let mut streams = Vec::new(alloc);
        for _ in 0..1 + random.below(3) {
            let serial = self.new_serial();
            self.streams.push(Open {
                serial,
                position: 0,
            })?;
            streams.push(new_stream(alloc, random, serial)?)?;
        }
        Ok(Command::Begin(Begin {
            skeleton,
            streams: Listed::of(streams),
        }))
    }

    fn new_serial(&mut self) -> u32 {
        let serial = self.next_serial;
        self.next_serial = serial.wrapping_add(1);
        serial
    }

    /// One to three packets for open streams.
    fn put(&mut self, alloc: Global, random: &mut Generator) -> Result<Command, AllocError> {
        let mut entries = Vec::new(alloc);
        for _ in 0..1 + random.below(3) {
            let at = random.below(self.streams.len() as u64) as usize;
            if let Some(stream) = self.streams.as_mut_slice().get_mut(at) {
                stream.position = stream.position.saturating_add(1 + random.below(1000));
                let entry = Entry {
                    serial: stream.serial,
                    position: stream.position,
                    packet: Listed::of(packet(alloc, random)?),
                };
                entries.push(entry)?;
            }
        }
        Ok(Command::Put(Put {
            entries: Listed::of(entries),
        }))
    }

    /// The committed bytes, and the boundaries.
    fn finish(self, alloc: Global) -> Result<Option<Made>, AllocError> {
        let end = self.recorder.end() as usize;
        let agrees = self.agrees;
        let boundaries = self.boundaries;
        let disk = self.recorder.give_back();
        let contents = disk.contents();
        if !agrees || end > contents.len() {
            return Ok(None);
        }
        let bytes = Vec::from_slice(alloc, &contents[..end])?;
        Ok(Some(Made { bytes, boundaries }))
    }
}

/// A stream with one to three headers.
fn new_stream(alloc: Global, random: &mut Generator, serial: u32) -> Result<NewStream, AllocError> {
    let mut headers = Vec::new(alloc);
    for _ in 0..1 + random.below(3) {
        let len = 1 + random.below(60);
        headers.push(Listed::of(bytes(alloc, random, len)?))?;
    }
    Ok(NewStream {
        serial,
        headers: Listed::of(headers),
        media: Listed::of(Vec::from_slice(alloc, b"audio/x-test")?),
        fields: Listed::of(Vec::new(alloc)),
        rate: (1000, 1),
        base_granule: 0,
        preroll: 0,
        shift: 0,
    })
}

/// A packet: most have some bytes, some a page or several.
fn packet(alloc: Global, random: &mut Generator) -> Result<Vec<u8>, AllocError> {
    let len = match random.below(200) {
        0 => 65_000 + random.below(70_000),
        1..10 => 1_000 + random.below(2_000),
        10..20 => 255 * random.below(4),
        _ => random.below(100),
    };
    bytes(alloc, random, len)
}

fn bytes(alloc: Global, random: &mut Generator, len: u64) -> Result<Vec<u8>, AllocError> {
    let mut bytes = Vec::new(alloc);
    for _ in 0..len {
        bytes.push((random.next() % 256) as u8)?;
    }
    Ok(bytes)
}
