//! A line of text and the room in front of it.
ghost use Rattle.std.specs.Prelude.{◌≡◌, ◌≤◌, ◌+◌, ◌++◌, ◌∷◌, [], length, drop, decimal};

use itoa::write_digits;
use std::marker::Model;

/// The greatest length of a line, in bytes: a word, four numbers of 20 digits, and what stands between them.
const LONGEST: usize = 128;

/// A line of text, put together from its end. It takes no memory.
#[derive(Drop)]
pub struct Line {
    bytes: [u8; LONGEST],
    start: usize,
}

impl Model for Line {
    ghost use Rattle.std.specs.Prelude.{◌≤◌, drop};
    ghost use Rattle.text_line.specs.Line.{LineState};

    ghost Value = { LineState };

    ghost view = { λ l. record { text = drop l.start l.bytes; room = l.start } };

    ghost invariant = { λ l. l.start ≤ 128 };
}

impl Line {
    /// Only a line feed.
    pub fn new() -> Line
        ensures text { result.text ≡ 10 ∷ [] }
        ensures room { result.room ≡ 127 }
    {
        let mut bytes = [0; LONGEST];
        bytes[LONGEST - 1] = b'\n';
        Line {
            bytes,
            start: LONGEST - 1,
        }
    }

    /// The line so far.
    pub fn as_slice(&self) -> &[u8]
        ensures { result.now ≡ self.now.text }
    {
        let (_, text) = self.bytes.split_at(self.start);
        text
    }

    /// Puts a text in front.
    pub fn put_text(&mut self, text: &[u8])
        requires { length text.now ≤ self.old.room }
        ensures text { self.new.text ≡ text.now ++ self.old.text }
        ensures room { self.new.room + length text.now ≡ self.old.room }
    {
        let start = self.start - text.len();
        self.bytes[start..self.start].copy_from_slice(text);
        self.start = start;
    }

    /// Puts a number in front.
    pub fn put_number(&mut self, number: u64)
        requires { 20 ≤ self.old.room }
        ensures text { self.new.text ≡ decimal number ++ self.old.text }
        ensures room { self.old.room ≤ self.new.room + 20 }
    {
        self.start = write_digits(number, &mut self.bytes, self.start);
    }
}
