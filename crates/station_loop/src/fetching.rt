//! Connections that fetch something of the folder: what they ask for is looked at before the station has it, and they get
//! turns of their own.

use crate::filing::Recorded;
use crate::running::Running;
use crate::sockets::trouble;
use crate::telling::seconds;
use archive_actions::now;
use archive_fetch::may_ask;
use archive_requests::{Memory, Present, Response, Shelf};
use disk_model::Disk;
use serve_origins::{PREFLIGHT, Preflight, preflight_in};
use serve_sources::is_source;
use station::After;
use station_files::{Move, Seat};
use std::io::Read;

/// How many bytes of a head are looked at, at most.
const LONGEST_HEAD: usize = 8192;

/// So many of the first bytes, or all if there are fewer.
pub(crate) fn front_of(bytes: &[u8], count: usize) -> &[u8] {
    let (front, _) = bytes.split_at(count.min(bytes.len()));
    front
}

impl<'a, D: Disk + Drop, R: Recorded<D> + Shelf<D> + Drop> Running<'a, D, R> {
    /// The seats of those who fetch something get one turn each.
    pub(crate) fn serve_fetches(&mut self) {
        for _ in 0..self.requests.fetches.turns() {
            let Some(key) = self.requests.fetches.next_turn() else {
                return;
            };
            self.fetch_turn(Seat::of_fetch(key));
        }
    }

    /// A turn of a connection that fetches something: one read, and one write.
    fn fetch_turn(&mut self, seat: Seat) {
        self.read_fetch(seat);
        let present = self.present();
        self.requests
            .make_ready(seat.key, &mut self.recorded, present);
        self.write_fetch(seat);
        match self.requests.fetches.turned(seat.key, self.now) {
            After::Goes => {}
            After::Shuts => self.sockets.shut(seat),
            After::Closes => self.close_fetch(seat),
        }
    }

    /// How what is recorded stands in this round.
    fn present(&self) -> Present {
        let newest = self.stations.newest();
        Present {
            committed: newest.hub().end(),
            begun: match newest.place() {
                Some(place) if place.begin == 0 => Some(place.begun),
                _ => None,
            },
            is_finished: self.stations.is_finished(self.now),
            now: self.now,
        }
    }

    /// Reads what a connection sends that fetches something: it is passed over.
    fn read_fetch(&mut self, seat: Seat) {
        if !self.requests.fetches.reads(seat.key) {
            return;
        }
        let Some(connection) = self.sockets.connections.get(&seat.token()) else {
            return;
        };
        let read = (&connection.stream).read(self.sockets.buffer.as_mut_slice());
        let fetches = &mut self.requests.fetches;
        match read {
            Ok(0) => fetches.peer_ended(seat.key),
            Ok(_) => fetches.passed(seat.key),
            Err(error) => fetches.read_failed(seat.key, trouble(&error)),
        }
    }

    /// Writes the next bytes of what it fetches.
    fn write_fetch(&mut self, seat: Seat) {
        let fetches = &mut self.requests.fetches;
        if !fetches.writes(seat.key) {
            return;
        }
        let buffer = self.sockets.buffer.as_mut_slice();
        let count = fetches.next(seat.key, buffer, self.now);
        if count == 0 {
            return;
        }
        let put = self.sockets.put(self.allowed.as_ref(), seat, count);
        let bytes = front_of(self.sockets.buffer.as_slice(), count);
        match put {
            Ok(written) => {
                fetches.wrote(seat.key, bytes, written, self.now);
                self.stations.newest_mut().sent_beside(written as u64);
            }
            Err(error) => fetches.write_failed(seat.key, bytes, trouble(&error)),
        }
    }

    /// The connection is closed, and told in the log.
    fn close_fetch(&mut self, seat: Seat) {
        let visit = self.requests.closed(seat.key);
        if let Some(connection) = self.sockets.connections.remove(&seat.token()) {
            if let Some(visit) = visit {
                self.log
                    .visited(connection.address, &visit, seconds(self.rt));
            }
        }
    }

    /// So many bytes of the buffer have come of a connection. If it asks for something of the folder it gets that at another
    /// seat; the station takes all else, once it can be nothing of the folder.
    pub(crate) fn received(&mut self, seat: Seat, count: usize) {
        if seat.station == 0 {
            if let Some(front) = self.head_so_far(seat.key, count) {
                let front = front.as_slice();
                if is_source(front) {
                    self.sockets.leave_plain(seat);
                }
                let preflight = self.preflight_of(front);
                if let Some(response) = self.response_to(front, preflight) {
                    return self.fetch(seat, count, response);
                }
                if preflight == Preflight::More || may_ask(front) {
                    let bytes = front_of(self.sockets.buffer.as_slice(), count);
                    return self.stations.newest_mut().hold(seat.key, bytes);
                }
            }
        }
        if let Some(station) = self.stations.at(seat) {
            let bytes = front_of(self.sockets.buffer.as_slice(), count);
            station.received(seat.key, bytes, self.now);
        }
    }

    /// Whether a browser asks what it may ask for. Without an origin whose pages may, that is answered as any other method.
    fn preflight_of(&self, front: &[u8]) -> Preflight {
        match &self.allowed {
            Some(_) => preflight_in(front),
            None => Preflight::No,
        }
    }

    /// What is answered beside the station to a connection whose head begins so, if something is.
    fn response_to(
        &mut self,
        front: &[u8],
        preflight: Preflight,
    ) -> Option<Result<Response<'a, D>, Memory>> {
        if preflight == Preflight::Yes {
            return Some(self.requests.constant(PREFLIGHT));
        }
        let present = self.present();
        self.requests
            .answer(front, now(self.rt), &mut self.recorded, present)
    }

    /// What has come of the head of a connection that hasn't said yet what it asks for, with so many bytes of the buffer.
    fn head_so_far(&self, key: usize, count: usize) -> Option<Vec<u8>> {
        let head = self.stations.newest().asking(key)?;
        let mut front = Vec::new(self.rt.alloc());
        front.extend_from_slice(head).ok()?;
        let room = LONGEST_HEAD.saturating_sub(head.len()).min(count);
        let bytes = front_of(self.sockets.buffer.as_slice(), room);
        front.extend_from_slice(bytes).ok()?;
        Some(front)
    }

    /// The connection leaves the station, and gets this response. Without memory for that it is closed.
    fn fetch(&mut self, seat: Seat, count: usize, response: Result<Response<'a, D>, Memory>) {
        let Some(mut client) = self.stations.newest_mut().leave(seat.key) else {
            return;
        };
        client.note_heard(front_of(self.sockets.buffer.as_slice(), count));
        let key = self.requests.enter(client, response, self.now);
        let to = key.map(Seat::of_fetch);
        if self.sockets.moved(Move { from: seat, to }).is_some() {
            if let Some(key) = key {
                let _ = self.requests.closed(key);
            }
        }
    }
}
