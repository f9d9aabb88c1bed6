//! How a connection's socket stands, as far as the caller has told.
ghost use Rattle.std.specs.Prelude.{◌≡◌};
ghost use Rattle.serve_clients.specs.Line.{moved_on, new_line, queued_as, read_failed_by, taken_off, told_of, write_failed_by};

/// Why bytes couldn't be read or written.
#[derive(Clone, Copy, Debug, PartialEq, Eq)]
pub enum Trouble {
    /// There are none, or there is no room for them: the system tells when that changes.
    Blocked,
    /// A signal came: it may be tried again.
    Interrupted,
    /// The connection has failed.
    Broken,
}

/// How a socket stands.
#[derive(Clone, Copy, Debug, PartialEq, Eq)]
pub struct Line {
    /// It has a place in the queue of turns.
    pub queued: bool,
    /// It may have bytes: the system hasn't said otherwise since it last told of some.
    pub readable: bool,
    /// It may have room for bytes.
    pub writable: bool,
    /// In this turn bytes went over it, or may go at once.
    pub moved: bool,
}

impl Line {
    /// A socket of which nothing was told.
    pub fn new() -> Line
        ensures { result ≡ new_line }
    {
        Line {
            queued: false,
            readable: false,
            writable: false,
            moved: false,
        }
    }

    /// The system has told that it may have bytes, or room for some.
    pub fn told(self, readable: bool, writable: bool) -> Line
        ensures { result ≡ told_of readable writable self }
    {
        Line {
            readable: self.readable || readable,
            writable: self.writable || writable,
            ..self
        }
    }

    /// It has got a place in the queue, or none was to be had.
    pub fn queued(self, queued: bool) -> Line
        ensures { result ≡ queued_as queued self }
    {
        Line { queued, ..self }
    }

    /// Its turn has come.
    pub fn begins_turn(self) -> Line
        ensures { result ≡ taken_off self }
    {
        Line {
            queued: false,
            moved: false,
            ..self
        }
    }

    /// Bytes went over it.
    pub fn moves(self) -> Line
        ensures { result ≡ moved_on self }
    {
        Line {
            moved: true,
            ..self
        }
    }

    /// Nothing could be read.
    pub fn read_failed(self, trouble: Trouble) -> Line
        ensures { result ≡ read_failed_by trouble self }
    {
        match trouble {
            Trouble::Blocked => Line {
                readable: false,
                ..self
            },
            Trouble::Interrupted => self.moves(),
            Trouble::Broken => self,
        }
    }

    /// Nothing could be written.
    pub fn write_failed(self, trouble: Trouble) -> Line
        ensures { result ≡ write_failed_by trouble self }
    {
        match trouble {
            Trouble::Blocked => Line {
                writable: false,
                ..self
            },
            Trouble::Interrupted => self.moves(),
            Trouble::Broken => self,
        }
    }
}
