//! What was recorded between two times, cut out while it is sent: a piece in each turn.

use crate::requests::Requests;
use archive_fetch::{Memory, Reply, answer_in, cut_head, head_of};
use disk_model::Disk;
use fault_lines::Fault;
use file_actions::{Cutting, Finding};
use ogg_http::{Answer, Verb};
use std::alloc::Global;

/// How many bytes are cut out in one turn, about, and how many pages are passed at most.
const PIECE: usize = 65_536;

const PAGES: u32 = 4096;

/// The answer to a request that can't be met, since the folder or one of its files can't be read.
pub const FAILED: &[u8] = b"HTTP/1.1 500 Internal Server Error\r\n\
    Content-Length: 0\r\n\
    Connection: close\r\n\r\n";

/// A cut that is looked for, or sent.
#[derive(Drop)]
pub struct Cutout<'a> {
    verb: Verb,
    // the value of the request's Range
    range: Option<Vec<u8>>,
    state: State<'a>,
    // how many bytes of the cut are passed over before the first that is sent, and how many are sent from there on
    skip: u64,
    left: u64,
    // what is to be sent next
    piece: Vec<u8>,
}

/// How far a cut has come.
#[derive(Drop)]
enum State<'a> {
    Finding(Finding<'a>),
    Writing(Cutting<'a>),
    Over,
}

/// Which bytes of a cut follow the head, and how many.
fn stretch_of(verb: Verb, answer: Answer) -> (u64, u64) {
    match (verb, answer) {
        (Verb::Get, Answer::Full(len)) => (0, len),
        (Verb::Get, Answer::Part(first, last, _)) => (
            first,
            last.saturating_sub(first).saturating_add(1),
        ),
        _ => (0, 0),
    }
}

fn granted<T: Drop>(made: Result<T, Memory>) -> Result<T, Fault> {
    match made {
        Ok(made) => Ok(made),
        Err(_) => Err(Fault::Memory),
    }
}

impl<'a> Cutout<'a> {
    /// The cut that a request asks for by this method, and with this value of `Range`.
    pub fn new(
        alloc: Global,
        finding: Finding<'a>,
        verb: Verb,
        range: Option<Vec<u8>>,
    ) -> Cutout<'a> {
        Cutout {
            verb,
            range,
            state: State::Finding(finding),
            skip: 0,
            left: 0,
            piece: Vec::new(alloc),
        }
    }

    /// Goes on with it. It returns whether more is to follow what is to be sent next.
    fn step(&mut self, alloc: Global) -> Result<bool, Fault> {
        self.piece.clear();
        match std::mem::replace(&mut self.state, State::Over) {
            State::Finding(finding) => self.find(alloc, finding),
            State::Writing(cutting) => self.write(cutting),
            State::Over => Ok(false),
        }
    }

    /// Looks at the next file. Once all were looked at the head is to be sent.
    fn find(&mut self, alloc: Global, finding: Finding<'a>) -> Result<bool, Fault> {
        let mut finding = finding;
        match finding.step() {
            Ok(true) => match Cutting::of(finding, false)? {
                Some(cutting) => self.begin(alloc, cutting),
                None => {
                    let reply = Reply::Refused(Answer::NotFound);
                    self.piece = granted(head_of(alloc, reply))?;
                    Ok(false)
                }
            },
            Ok(false) => {
                self.state = State::Finding(finding);
                Ok(true)
            }
            Err(Fault::Memory) => Err(Fault::Memory),
            Err(_) => {
                granted(self.piece.extend_from_slice(FAILED))?;
                Ok(false)
            }
        }
    }

    /// All is found: the head is to be sent.
    fn begin(&mut self, alloc: Global, cutting: Cutting<'a>) -> Result<bool, Fault> {
        let range = match &self.range {
            Some(range) => Some(range.as_slice()),
            None => None,
        };
        let answer = answer_in(self.verb, range, cutting.bytes());
        let (since, until) = cutting.times();
        self.piece = granted(cut_head(alloc, answer, since, until))?;
        let (skip, left) = stretch_of(self.verb, answer);
        self.skip = skip;
        self.left = left;
        if left == 0 {
            return Ok(false);
        }
        self.state = State::Writing(cutting);
        Ok(true)
    }

    /// The next piece of it is to be sent, as far as it is asked for.
    fn write(&mut self, cutting: Cutting<'a>) -> Result<bool, Fault> {
        let mut cutting = cutting;
        for _ in 0..PAGES {
            if PIECE <= self.piece.len() {
                break;
            }
            if !cutting.step(&mut self.piece)? {
                self.trim();
                return if self.left == 0 {
                    Ok(false)
                } else {
                    Err(Fault::File)
                };
            }
        }
        self.trim();
        if self.left == 0 {
            return Ok(false);
        }
        self.state = State::Writing(cutting);
        Ok(true)
    }

    /// Leaves of the piece what is asked for.
    fn trim(&mut self) {
        let len = self.piece.len();
        let passed = self.skip.min(len as u64);
        self.skip -= passed;
        let start = (passed as usize).min(len);
        self.piece.copy_within(start.., 0);
        let count = self.left.min((len - start) as u64);
        self.piece.truncate(count as usize);
        self.left -= count;
    }
}

impl<D: Disk + Drop> Requests<'_, D> {
    /// A connection that gets a cut has nothing left of it: the next piece is made.
    pub(crate) fn supply(&mut self, key: usize) {
        let Some(cutout) = self.cuts.get_mut(&key) else {
            return self.fetches.cut(key);
        };
        match cutout.step(self.rt.alloc()) {
            Ok(more) => {
                self.fetches.supply(key, cutout.piece.as_slice());
                if !more {
                    self.fetches.ends(key);
                } else if cutout.piece.is_empty() {
                    self.fetches.wake(key, false, true);
                }
            }
            Err(_) => self.fetches.cut(key),
        }
    }
}
