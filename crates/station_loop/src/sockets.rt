//! The sockets of a station, and standard input: the system tells when they have something.

use archive_fetch::Fetches;
use disk_model::Disk;
use mio::net::{TcpListener, TcpStream};
use mio::unix::SourceFd;
use mio::{Events, Interest, Poll, Token};
use serve_origins::{Added, Allowed};
use station::Trouble;
use station_files::{Move, Seat, Stations};
use std::collections::HashMap;
use std::io::{self, ErrorKind, IsTerminal, Write};
use std::net::{Shutdown, SocketAddr};
use std::time::Duration;

/// The tokens of the listener and of standard input. A connection's is its seat's, which is less.
const LISTENER: usize = usize::MAX;

const INPUT: usize = usize::MAX - 1;

/// How many bytes are read or written at once.
const PIECE: usize = 65_536;

/// How many events are taken from the system at once.
const EVENTS: usize = 1024;

/// The sockets of a station: its connections by the tokens of their seats.
#[derive(Drop)]
pub struct Sockets {
    poll: Poll,
    events: Events,
    pub listener: TcpListener,
    accepting: bool,
    pub connections: HashMap<usize, Connection>,
    // the system tells when standard input has bytes
    watched: bool,
    // standard input is no source any more
    left: bool,
    /// Whether standard input may have bytes, or its end.
    pub has_input: bool,
    pub buffer: Vec<u8>,
    // what is written in place of these bytes, with what is added
    text: Vec<u8>,
}

impl Sockets {
    /// Listens to the address, and watches standard input, unless it is a terminal.
    pub fn new(rt: &HostRuntime, address: SocketAddr) -> io::Result<Sockets> {
        let mut sockets = Sockets {
            poll: Poll::new(rt)?,
            events: Events::with_capacity(rt.alloc(), EVENTS)?,
            listener: TcpListener::bind(rt, address)?,
            accepting: true,
            connections: HashMap::new(rt.alloc()),
            watched: false,
            left: false,
            has_input: !rt.stdin().is_terminal(),
            buffer: vec![in rt.alloc(); 0; PIECE]?,
            text: Vec::new(rt.alloc()),
        };
        let registry = sockets.poll.registry();
        registry.register(&mut sockets.listener, Token(LISTENER), Interest::READABLE)?;
        if sockets.has_input {
            sockets.watch_input();
        }
        Ok(sockets)
    }

    /// Waits at most this many milliseconds until the system tells that something can be done, and wakes the
    /// connections of which it tells that.
    pub fn wait<D: Disk + Drop>(
        &mut self,
        stations: &mut Stations<D>,
        fetches: &mut Fetches<D>,
        most: u64,
    ) -> io::Result<()> {
        let most = Some(Duration::from_millis(most));
        match self.poll.poll(&mut self.events, most) {
            Err(error) if error.kind() != ErrorKind::Interrupted => return Err(error),
            _ => {}
        }
        for event in &self.events {
            match event.token() {
                Token(LISTENER) => self.accepting = true,
                Token(INPUT) => self.has_input = !self.left,
                Token(token) => {
                    let seat = Seat::of_token(token);
                    if seat.is_fetch() {
                        fetches.wake(seat.key, event.is_readable(), event.is_writable());
                    } else {
                        stations.wake(seat, event.is_readable(), event.is_writable());
                    }
                }
            }
        }
        Ok(())
    }

    /// Has the system tell when standard input has bytes. It can't of a file, which has bytes, or its end, at any time.
    pub fn watch_input(&mut self) {
        let (registry, fd) = (self.poll.registry(), 0);
        let source = &mut SourceFd(&fd);
        let told = if self.watched {
            registry.reregister(source, Token(INPUT), Interest::READABLE)
        } else {
            registry.register(source, Token(INPUT), Interest::READABLE)
        };
        self.watched = told.is_ok();
        self.has_input = !self.watched;
    }

    /// Standard input isn't read any more.
    pub fn leave_input(&mut self) {
        self.left = true;
        self.has_input = false;
    }

    /// The next connection that waits to be accepted, if one does.
    pub fn accept(&mut self) -> Option<Connection> {
        if !self.accepting {
            return None;
        }
        match self.listener.accept() {
            Ok((stream, address)) => {
                let _ = stream.set_nodelay(true);
                Some(Connection {
                    stream,
                    address,
                    added: Added::Nothing,
                })
            }
            Err(error) => {
                // What waits after another error is accepted in a later round.
                self.accepting = error.kind() != ErrorKind::WouldBlock;
                None
            }
        }
    }

    /// Keeps a connection, and has the system tell of it.
    pub fn keep(&mut self, seat: Seat, mut connection: Connection) -> io::Result<()> {
        let both = Interest::READABLE | Interest::WRITABLE;
        let registry = self.poll.registry();
        registry.register(&mut connection.stream, Token(seat.token()), both)?;
        self.connections.insert(seat.token(), connection)?;
        Ok(())
    }

    /// A connection has got another seat: the system tells of it by that from now on. If it can't, or if there is no other
    /// seat, the connection is closed, and the seat is returned that is to be free again.
    pub fn moved(&mut self, moved: Move) -> Option<Seat> {
        let mut connection = self.connections.remove(&moved.from.token())?;
        let seat = moved.to?;
        let both = Interest::READABLE | Interest::WRITABLE;
        let registry = self.poll.registry();
        let token = Token(seat.token());
        if registry
            .reregister(&mut connection.stream, token, both)
            .is_err()
        {
            return Some(seat);
        }
        match self.connections.insert(seat.token(), connection) {
            Ok(_) => None,
            Err(_) => Some(seat),
        }
    }

    /// Nothing is added to what this connection is answered.
    pub fn leave_plain(&mut self, seat: Seat) {
        if let Some(connection) = self.connections.get_mut(&seat.token()) {
            connection.added = Added::Whole;
        }
    }

    /// Writes so many bytes of the buffer to this connection once, as the next of its response, and says how many of them
    /// were written.
    pub fn put(
        &mut self,
        allowed: Option<&Allowed>,
        seat: Seat,
        count: usize,
    ) -> io::Result<usize> {
        let (bytes, _) = self.buffer.split_at(count.min(self.buffer.len()));
        match self.connections.get_mut(&seat.token()) {
            Some(connection) => connection.put(allowed, bytes, &mut self.text),
            None => Err(ErrorKind::NotConnected.into()),
        }
    }

    /// The peer is told that no further byte comes.
    pub fn shut(&mut self, seat: Seat) {
        if let Some(connection) = self.connections.get(&seat.token()) {
            let _ = connection.stream.shutdown(Shutdown::Write);
        }
    }
}

/// A connection's socket, and its peer's address.
#[derive(Drop)]
pub struct Connection {
    pub stream: TcpStream,
    pub address: SocketAddr,
    /// How much was written of what its response gets so that pages of another site may read it.
    pub added: Added,
}

impl Connection {
    /// Writes the next bytes of the response once, and says how many of them were written.
    fn put(
        &mut self,
        allowed: Option<&Allowed>,
        bytes: &[u8],
        text: &mut Vec<u8>,
    ) -> io::Result<usize> {
        match allowed {
            Some(allowed) if self.added != Added::Whole => {
                allowed.put(self.added, bytes, text)?;
                let written = (&self.stream).write(text.as_slice())?;
                let (added, own) = allowed.wrote(self.added, bytes, written);
                self.added = added;
                Ok(own)
            }
            _ => (&self.stream).write(bytes),
        }
    }
}

/// What an error says of a connection, or of standard input.
pub fn trouble(error: &io::Error) -> Trouble {
    match error.kind() {
        ErrorKind::WouldBlock => Trouble::Blocked,
        ErrorKind::Interrupted => Trouble::Interrupted,
        _ => Trouble::Broken,
    }
}
