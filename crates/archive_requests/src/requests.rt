//! Requests for what an archive has, and who gets the answers.
ghost use Rattle.ogg_http.specs.Answer.{AnswerFits};

use crate::cutting::{Cutout, FAILED};
use crate::hearing::{Seen, Unheard};
use archive_clock::SystemZone;
use archive_fetch::{
    Body, Content, Fetches, FileFacts, LIVE, Memory, Reply, Wish, asked_of, condition_in, head_of,
    is_had, list_answer, past_time, refusal_of, reply_to,
};
use archive_reading::Prefix;
use disk_model::Disk;
use fault_lines::Fault;
use file_actions::{Finding, list_text};
use jiff::tz::TimeZone;
use ogg_http::{Answer, Request, Verb, response_head};
use serve_clients::Client;
use serve_texts::Visit;
use std::collections::HashMap;

/// For how many milliseconds the list of the files is told as it was.
const LISTED: u64 = 1000;

/// The files of an archive that can be read.
pub trait Shelf<D: Disk> {
    /// Whether it is a folder. Of one file alone only the list can be fetched, which is empty.
    fn is_folder(&self) -> bool;

    /// The file with this number, to be read, and how it stands: all of it that is committed, which is so much of the
    /// newest. None if there is no such file, or more than one.
    fn file(&mut self, number: u64, committed: u64) -> Option<(FileFacts, Prefix<D>)>;

    /// The number of the file that is recorded.
    fn newest(&self) -> u64;
}

/// How things stand when a request has come, or when a connection has its turn.
#[derive(Clone, Copy, Debug, PartialEq, Eq)]
pub struct Present {
    /// How many bytes of the newest file are committed.
    pub committed: u64,
    /// Where the pages end with which the newest file's first link began, if that is still open.
    pub begun: Option<u64>,
    /// Whether nothing more is recorded.
    pub is_finished: bool,
    /// When the round began, in milliseconds since the start of the program.
    pub now: u64,
}

/// A response: a text, what follows it, and where that comes from if it is a cut.
#[derive(Drop)]
pub struct Response<'a, D: Disk> {
    text: Vec<u8>,
    content: Option<Content<D>>,
    cut: Option<Cutout<'a>>,
}

impl<'a, D: Disk> Response<'a, D> {
    /// A text that nothing follows.
    fn text(text: Vec<u8>) -> Response<'a, D> {
        Response {
            text,
            content: None,
            cut: None,
        }
    }
}

/// The list of the files, as it was told last.
#[derive(Drop)]
struct ToldList {
    text: Vec<u8>,
    // none if it is to be made anew
    since: Option<u64>,
}

/// Who fetches something of an archive, and where that comes from.
#[derive(Drop)]
pub struct Requests<'a, D: Disk + Drop> {
    pub(crate) rt: &'a HostRuntime,
    // with a slash at the end
    pub(crate) folder: &'a str,
    /// Who gets an answer, and how far each has come.
    pub fetches: Fetches<D>,
    list: ToldList,
    pub(crate) seen: Seen,
    // the cuts that connections get, by their keys
    pub(crate) cuts: HashMap<usize, Cutout<'a>>,
    // in which times without an offset are asked for, UTC if there is none
    zone: Option<SystemZone>,
}

impl<'a, D: Disk + Drop> Requests<'a, D> {
    /// Nobody has asked for anything yet. The folder's path has a slash at its end.
    pub fn new(rt: &'a HostRuntime, folder: &'a str) -> Result<Requests<'a, D>, Memory> {
        Ok(Requests {
            rt,
            folder,
            fetches: Fetches::new(rt.alloc())?,
            list: ToldList {
                text: Vec::new(rt.alloc()),
                since: None,
            },
            seen: Seen::new(Vec::new(rt.alloc())),
            cuts: HashMap::new(rt.alloc()),
            zone: SystemZone::read(rt),
        })
    }

    /// What a connection is answered whose head begins so, by the time of day in milliseconds since 1970. None if it asks
    /// for nothing of the archive, or if not enough of its head has come.
    pub fn answer<S: Shelf<D>>(
        &mut self,
        front: &[u8],
        day: u64,
        shelf: &mut S,
        present: Present,
    ) -> Option<Result<Response<'a, D>, Memory>> {
        let (request, wish) = asked_of(front)?;
        if let Some(refusal) = refusal_of(&request) {
            return Some(self.refused(refusal));
        }
        let condition = condition_in(front);
        Some(self.grant(&request, wish, condition, day, shelf, present))
    }

    /// What is answered to a request that isn't refused as it stands.
    fn grant<S: Shelf<D>>(
        &mut self,
        request: &Request<'_>,
        wish: Wish<'_>,
        condition: Option<&[u8]>,
        day: u64,
        shelf: &mut S,
        present: Present,
    ) -> Result<Response<'a, D>, Memory> {
        match wish {
            Wish::Files => self.list(request, shelf.is_folder(), present.now),
            _ if !shelf.is_folder() => self.refused(Answer::NotFound),
            Wish::File(number) => self.file(
                request,
                condition,
                shelf.file(number, present.committed),
            ),
            Wish::From(since) => match self.time_of(since, day) {
                Some(since) => self.from(request, since, shelf, present),
                None => self.refused(Answer::NotFound),
            },
            Wish::Between(since, until) => {
                match (self.time_of(since, day), self.time_of(until, day)) {
                    (Some(since), Some(until)) => self.between(request, since, until),
                    _ => self.refused(Answer::NotFound),
                }
            }
        }
    }

    /// The time that a part of a path asks for, if it isn't yet to come.
    fn time_of(&self, text: &[u8], day: u64) -> Option<u64> {
        match &self.zone {
            Some(zone) => past_time(text, day, &zone.zone()),
            None => past_time(text, day, &TimeZone::UTC),
        }
    }

    fn refused(&self, answer: Answer) -> Result<Response<'a, D>, Memory>
        requires { AnswerFits answer }
    {
        let mut text = Vec::new(self.rt.alloc());
        response_head(&answer, &mut text)?;
        Ok(Response::text(text))
    }

    /// A text that is always the same.
    pub fn constant(&self, answer: &[u8]) -> Result<Response<'a, D>, Memory> {
        let mut text = Vec::new(self.rt.alloc());
        text.extend_from_slice(answer)?;
        Ok(Response::text(text))
    }

    /// The folder can't be read.
    fn failed(&self) -> Result<Response<'a, D>, Memory> {
        self.constant(FAILED)
    }

    /// The list of the files. There are none beside one file.
    fn list(
        &mut self,
        request: &Request<'_>,
        is_folder: bool,
        now: u64,
    ) -> Result<Response<'a, D>, Memory> {
        let is_old = match self.list.since {
            Some(since) => LISTED <= now.saturating_sub(since),
            None => true,
        };
        if is_old && is_folder {
            self.list.since = None;
            match list_text(self.rt, self.folder) {
                Ok(text) => self.list.text = text,
                Err(Fault::Memory) => return Err(Memory),
                Err(_) => return self.failed(),
            }
            self.list.since = Some(now);
        }
        let list = self.list.text.as_slice();
        let answer = list_answer(request, list.len() as u64);
        let mut text = Vec::new(self.rt.alloc());
        response_head(&answer, &mut text)?;
        if request.verb == Verb::Get {
            text.extend_from_slice(list)?;
        }
        Ok(Response::text(text))
    }

    /// A file of the folder, if there is one.
    fn file(
        &self,
        request: &Request<'_>,
        condition: Option<&[u8]>,
        found: Option<(FileFacts, Prefix<D>)>,
    ) -> Result<Response<'a, D>, Memory> {
        let Some((file, source)) = found else {
            return self.refused(Answer::NotFound);
        };
        let had = match condition {
            Some(value) => is_had(value, file),
            None => false,
        };
        let reply = reply_to(request, had, Some(file));
        let text = head_of(self.rt.alloc(), reply)?;
        Ok(Response {
            text,
            content: match reply {
                Reply::Found(..) => Some(Content::File(Body::of(source, request.verb, reply))),
                _ => None,
            },
            cut: None,
        })
    }

    /// What was recorded from a time on, and goes on.
    fn from<S: Shelf<D>>(
        &mut self,
        request: &Request<'_>,
        since: u64,
        shelf: &mut S,
        present: Present,
    ) -> Result<Response<'a, D>, Memory> {
        let heard = match self.heard_from(since, shelf, present) {
            Ok(Some(heard)) => heard,
            Ok(None) => return self.refused(Answer::NotFound),
            Err(Unheard::Memory) => return Err(Memory),
            Err(Unheard::Folder) => return self.failed(),
        };
        let mut text = Vec::new(self.rt.alloc());
        text.extend_from_slice(LIVE)?;
        Ok(Response {
            text,
            content: if request.verb == Verb::Get {
                Some(Content::Heard(heard))
            } else {
                None
            },
            cut: None,
        })
    }

    /// What was recorded between two times: its head comes once all of it is found.
    fn between(
        &self,
        request: &Request<'_>,
        since: u64,
        until: u64,
    ) -> Result<Response<'a, D>, Memory> {
        let alloc = self.rt.alloc();
        let finding = match Finding::new(self.rt, self.folder, Some(since), Some(until)) {
            Ok(finding) => finding,
            Err(Fault::Memory) => return Err(Memory),
            Err(_) => return self.failed(),
        };
        let range = match request.range {
            Some(range) => Some(range.to_vec(alloc)?),
            None => None,
        };
        Ok(Response {
            text: Vec::new(alloc),
            content: Some(Content::Given),
            cut: Some(Cutout::new(alloc, finding, request.verb, range)),
        })
    }

    /// A connection comes that gets this response, and has the key that is returned from now on. Without memory for that it
    /// is gone.
    pub fn enter(
        &mut self,
        client: Client,
        response: Result<Response<'a, D>, Memory>,
        now: u64,
    ) -> Option<usize> {
        let Response { text, content, cut } = response.ok()?;
        let key = self
            .fetches
            .enter(client, text.as_slice(), content, now)
            .ok()?;
        if let Some(cut) = cut {
            // Without memory for the cut it is cut off.
            if self.cuts.insert(key, cut).is_err() {
                self.fetches.cut(key);
            }
        }
        Some(key)
    }

    /// Before a turn of a connection: what it gets next is made ready.
    pub fn make_ready<S: Shelf<D>>(&mut self, key: usize, shelf: &mut S, present: Present) {
        self.hear_on(key, shelf, present);
        if self.fetches.needs(key) {
            self.supply(key);
        }
    }

    /// The connection is closed. Returns what is told of it.
    pub fn closed(&mut self, key: usize) -> Option<Visit> {
        let _ = self.cuts.remove(&key);
        self.fetches.closed(key)
    }
}
