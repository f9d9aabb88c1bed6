//! A station that runs: round after round bytes go between its sockets and the machine, which decides everything.

use crate::fetching::front_of;
use crate::filing::Recorded;
use crate::sockets::{Connection, Sockets, trouble};
use crate::telling::{seconds, tell_done};
use archive_actions::{Keeper, now};
use archive_requests::{Requests, Shelf};
use disk_model::Disk;
use fault_lines::Fault;
use import_record::RecordFault;
use serve_actions::{Log, tell_foreign};
use serve_origins::Allowed;
use station::{After, Done, FULL, Feeder, Trouble, station_line};
use station_files::{Clocks, Seat, Stations};
use std::io::{self, Read, Write};
use std::net::{Shutdown, SocketAddr};
use std::time::Instant;

/// How many connections are accepted in one round, and how many steps of the recording are taken.
const IN_ROUND: u32 = 64;

/// A station that runs.
#[derive(Drop)]
pub struct Running<'a, D: Disk + Drop, R: Recorded<D> + Shelf<D> + Drop> {
    pub rt: &'a HostRuntime,
    pub stations: Stations<D>,
    /// What is told, and what stands beside the files of a folder.
    pub keeper: Keeper<'a>,
    /// What it is recorded into.
    pub recorded: R,
    pub sockets: Sockets,
    /// Who fetches something of the folder.
    pub requests: Requests<'a, D>,
    /// What responses get, so that pages of another site may read them.
    pub allowed: Option<Allowed>,
    pub log: Log,
    /// The greatest number of connections.
    pub most: usize,
    pub start: Instant,
    // when its round began, in milliseconds since its start
    pub now: u64,
}

impl<D: Disk + Drop, R: Recorded<D> + Shelf<D> + Drop> Running<'_, D, R> {
    /// Runs until a fault, or until the station has come to its end. A fault that was told is the last to be returned.
    pub fn run_to_end(&mut self) -> Result<(), Fault> {
        let ran = self.run();
        self.keeper.sync_ended();
        self.keeper.told.close();
        ran?;
        match self.keeper.told.fault() {
            Some(fault) => Err(fault),
            None => Ok(()),
        }
    }

    /// Round after round, until a fault, or until the station has come to its end.
    fn run(&mut self) -> Result<(), Fault> {
        let mut busy = true;
        for _ in 0..u64::MAX {
            if self.wait(busy).is_err() {
                return Err(Fault::Net);
            }
            busy = self.round()?;
            if self.is_finished() {
                break;
            }
        }
        Ok(())
    }

    /// Waits until something can be done. If the station is busy nothing is waited for.
    fn wait(&mut self, busy: bool) -> io::Result<()> {
        let most = if busy || self.has_input() {
            0
        } else {
            let now = self.microseconds()? / 1000;
            self.until_next(now)
        };
        self.sockets
            .wait(&mut self.stations, &mut self.requests.fetches, most)?;
        self.now = self.microseconds()? / 1000;
        Ok(())
    }

    /// How many milliseconds may be waited, if nothing comes, until there is something to do.
    fn until_next(&self, now: u64) -> u64 {
        if self.requests.fetches.turns() > 0 {
            0
        } else {
            self.stations.until_next(now)
        }
    }

    /// Whether the station has come to its end. Whoever fetches a file then gets the rest of it, within a minute.
    fn is_finished(&self) -> bool {
        self.stations.is_finished(self.now)
            && (self.requests.fetches.connections() == 0 || self.stations.has_waited(self.now))
    }

    /// Takes what has come, records it, and sends what there is to send. It returns whether more can be done at once.
    fn round(&mut self) -> Result<bool, Fault> {
        let crowded = self.accept();
        self.take_input();
        // A step wakes nobody whom a look has just woken, so that nobody has a second turn for nothing.
        self.look();
        let recording = self.record()?;
        self.serve();
        self.serve_fetches();
        self.log.tell(&mut self.keeper.told);
        Ok(crowded || recording)
    }

    /// How many microseconds it has run.
    fn microseconds(&self) -> io::Result<u64> {
        let passed = self.start.elapsed(self.rt)?;
        Ok(u64::try_from(passed.as_micros()).unwrap_or(u64::MAX))
    }
}

impl<D: Disk + Drop, R: Recorded<D> + Shelf<D> + Drop> Running<'_, D, R> {
    /// Accepts connections that wait. It returns whether there may be more of them.
    fn accept(&mut self) -> bool {
        for _ in 0..IN_ROUND {
            let Some(connection) = self.sockets.accept() else {
                return false;
            };
            self.add(connection);
        }
        true
    }

    /// A connection was accepted. If there are too many it is told so, and closed.
    fn add(&mut self, connection: Connection) {
        let elsewhere = self.requests.fetches.connections();
        let Ok(key) = self.stations.accepted(self.most, elsewhere, self.now) else {
            let _ = (&connection.stream).write(FULL);
            let _ = connection.stream.shutdown(Shutdown::Write);
            self.log.refused(connection.address, seconds(self.rt));
            return;
        };
        let seat = Seat { station: 0, key };
        if self.sockets.keep(seat, connection).is_ok() {
            self.stations.wake(seat, true, true);
        } else {
            let _ = self.stations.newest_mut().closed(key);
        }
    }

    /// Gives each connection that has something to do one turn, at one station after the other: the newest comes first.
    fn serve(&mut self) {
        for at in 0..self.stations.count() {
            self.serve_at(at);
        }
    }

    /// Gives each connection that has something to do at this station one turn. Who has another one at once waits for the
    /// next round.
    fn serve_at(&mut self, at: usize) {
        for _ in 0..self.stations.turns_at(at) {
            let Some(seat) = self.stations.next_turn_at(at) else {
                return;
            };
            self.turn(seat);
        }
    }

    /// A turn of a connection: one read, and one write. Who has heard all of a file that has ended goes on to the next.
    fn turn(&mut self, seat: Seat) {
        let Some(after) = self.move_bytes(seat) else {
            return;
        };
        match after {
            After::Goes => {}
            After::Shuts => self.sockets.shut(seat),
            After::Closes => self.close(seat),
        }
        self.stations.move_on(seat);
        self.take_moves();
    }

    /// Reads and writes once, and says what becomes of the connection.
    fn move_bytes(&mut self, seat: Seat) -> Option<After> {
        if self.stations.at(seat)?.reads(seat.key) {
            self.read(seat);
        }
        if !self.sockets.connections.contains_key(&seat.token()) {
            return None;
        }
        self.write(seat);
        Some(self.stations.at(seat)?.turned(seat.key, self.now))
    }

    /// Writes once, if there is something to send, and the connection takes it.
    fn write(&mut self, seat: Seat) {
        let count = self.next(seat);
        if count == 0 {
            return;
        }
        let allowed = self.allowed.as_ref();
        let put = self.sockets.put(allowed, seat, count);
        let Some(station) = self.stations.at(seat) else {
            return;
        };
        let bytes = front_of(self.sockets.buffer.as_slice(), count);
        match put {
            Ok(written) => station.wrote(seat.key, bytes, written, self.now),
            Err(error) => station.write_failed(seat.key, bytes, trouble(&error)),
        }
    }

    /// The next bytes for a connection that takes some come into the buffer. Returns how many these are.
    fn next(&mut self, seat: Seat) -> usize {
        let Some(station) = self.stations.at(seat) else {
            return 0;
        };
        if !station.writes(seat.key) {
            return 0;
        }
        station.next(seat.key, self.sockets.buffer.as_mut_slice(), self.now)
    }

    /// Reads once. Whoever asks for something of the folder has another seat then.
    fn read(&mut self, seat: Seat) {
        let Some(connection) = self.sockets.connections.get(&seat.token()) else {
            return;
        };
        let read = (&connection.stream).read(self.sockets.buffer.as_mut_slice());
        let Some(station) = self.stations.at(seat) else {
            return;
        };
        match read {
            Ok(0) => station.peer_ended(seat.key),
            Ok(count) => self.received(seat, count),
            Err(error) => station.read_failed(seat.key, trouble(&error)),
        }
    }

    /// The connection is closed, and told in the log.
    fn close(&mut self, seat: Seat) {
        let Some(connection) = self.sockets.connections.remove(&seat.token()) else {
            return;
        };
        let Some(station) = self.stations.at(seat) else {
            return;
        };
        if let Some(visit) = station.closed(seat.key) {
            self.log
                .visited(connection.address, &visit, seconds(self.rt));
        }
    }

    /// Connections have got other seats: the system tells of them by these from now on.
    fn take_moves(&mut self) {
        if self.stations.moves().is_empty() {
            return;
        }
        for at in 0..self.stations.moves().len() {
            let Some(moved) = self.stations.moves().get(at) else {
                return;
            };
            let moved = *moved;
            if let Some(seat) = self.sockets.moved(moved) {
                if let Some(station) = self.stations.at(seat) {
                    let _ = station.closed(seat.key);
                }
            }
        }
        self.stations.took_moves();
    }
}

impl<D: Disk + Drop, R: Recorded<D> + Shelf<D> + Drop> Running<'_, D, R> {
    /// Whether standard input is to be read now.
    fn has_input(&self) -> bool {
        self.sockets.has_input && self.stations.newest().wants_input()
    }

    /// Reads standard input once, if that is to be done. After a fault the input has ended.
    fn take_input(&mut self) {
        if !self.has_input() {
            return;
        }
        let read = self.read_input();
        if let Ok(true) = read {
            self.sockets.watch_input();
            return;
        }
        self.sockets.has_input = false;
        self.stations.newest_mut().input_ended(self.now);
        if let Err(fault) = read {
            self.keeper.told.given_up(fault);
        }
    }

    /// Reads standard input once. It returns whether there may be more of it.
    fn read_input(&mut self) -> Result<bool, RecordFault> {
        let buffer = self.sockets.buffer.as_mut_slice();
        match self.rt.stdin().read(buffer) {
            Ok(0) => Ok(false),
            Ok(count) => match self.stations.newest_mut().input(&buffer[..count], self.now) {
                Ok(()) => Ok(true),
                Err(_) => Err(RecordFault::Memory),
            },
            Err(error) if trouble(&error) == Trouble::Broken => Err(RecordFault::Read),
            Err(_) => Ok(true),
        }
    }

    /// Takes steps of what is recorded, and tells them. It returns whether there may be more of them now.
    fn record(&mut self) -> Result<bool, Fault> {
        for _ in 0..IN_ROUND {
            self.change_if_due()?;
            let done = self.step();
            if let Done::Nothing = done {
                return Ok(false);
            }
            let clocks = self.clocks();
            let done = self
                .recorded
                .after(done, &mut self.stations, clocks, &mut self.keeper)?;
            if let Done::Foreign { feeder, .. } = done {
                self.turned_away(feeder);
            }
            tell_done(
                &mut self.keeper.told,
                &mut self.log,
                &done,
                self.stations.newest(),
            )?;
            self.take_moves();
        }
        Ok(true)
    }

    /// The source of this feeder has left the air, since its stream isn't Ogg. Standard input is no source any more then.
    fn turned_away(&mut self, feeder: Feeder) {
        let address = self.address(feeder);
        tell_foreign(
            self.rt,
            &mut self.keeper.told,
            feeder == Feeder::Input,
            address,
        );
        if feeder == Feeder::Input {
            self.sockets.leave_input();
            self.stations.newest_mut().input_ended(self.now);
        }
    }

    /// Goes over to the next file, if that is due.
    fn change_if_due(&mut self) -> Result<(), Fault> {
        let clocks = self.clocks();
        let changed = self
            .recorded
            .before(&mut self.stations, clocks, &mut self.keeper)?;
        if let Some(answered) = &changed {
            let hub = self.stations.newest().hub();
            self.keeper.told.answered(0, answered);
            self.keeper
                .told
                .settle(hub.held(), hub.is_failed(), hub.end());
        }
        self.take_moves();
        Ok(())
    }

    /// The time, by both clocks.
    fn clocks(&self) -> Clocks {
        Clocks {
            steady: self.now,
            day: now(self.rt),
        }
    }

    /// Takes a step of what is recorded. The time is counted that it takes to commit.
    fn step(&mut self) -> Done {
        let source = self.source();
        self.log.source(self.stations.newest().counts(), source);
        let commits = self.stations.newest().counts().commits;
        let begun = self.microseconds().unwrap_or(0);
        let done = self.stations.newest_mut().step(self.now);
        if self.stations.newest().counts().commits != commits {
            let ended = self.microseconds().unwrap_or(0);
            self.stations
                .newest_mut()
                .spent(ended.saturating_sub(begun));
        }
        done
    }

    /// The address of the source, if it is a connection.
    fn source(&self) -> Option<SocketAddr> {
        self.address(self.stations.newest().feeder()?)
    }

    /// The address of this feeder, if it is a connection.
    fn address(&self, feeder: Feeder) -> Option<SocketAddr> {
        match feeder {
            Feeder::Peer(key) => {
                let seat = Seat { station: 0, key };
                Some(self.sockets.connections.get(&seat.token())?.address)
            }
            _ => None,
        }
    }

    /// Once a second everybody has a turn, and the line at a terminal tells how it goes.
    fn look(&mut self) {
        if self.stations.look(self.now) {
            let elsewhere = self.requests.fetches.kinds().and(self.stations.kinds());
            self.stations.newest_mut().tell_elsewhere(elsewhere);
            let line = station_line(self.stations.newest().shown());
            self.keeper.told.show_other(line.as_slice());
            self.stations.close_unread();
            self.requests.fetches.look(self.now);
        }
    }
}
