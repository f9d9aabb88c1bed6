//! A name, and its text.
ghost use Rattle.std.specs.Prelude.{◌≡◌, ◌≤◌, ◌+◌, ◌++◌, ◌/◌, ℕ, pos};
ghost use Rattle.jiff_core.specs.Date.{epoch_day};
ghost use Rattle.jiff_core.specs.declared.civil.date.Date.{Date as DateOf};
ghost use Rattle.archive_names.specs.Name.{IsText, clock_digits, day_digits, kind_text, on_text, padded};

use jiff_core::civil::Date;
use std::marker::Model;
use text_line::Line;

/// The last second of the year 9999, since 1970.
pub const LAST_SECOND: u64 = 253_402_300_799;

/// The name of one file of an archive.
#[derive(Clone, Copy, Debug, PartialEq, Eq, PartialOrd, Ord)]
pub struct Name {
    /// Gives the order of the files.
    pub number: u64,
    /// When the file was begun, in seconds since 1970. What lies past the year 9999 is told as its last second.
    pub begin: u64,
    /// Whether the first link goes on with the last one of the file before.
    pub goes_on: bool,
}

/// What stands under a name.
#[derive(Clone, Copy, Debug, PartialEq, Eq)]
pub enum Kind {
    /// The file itself.
    Pages,
    /// Its lines of times.
    Times,
    /// The mark that it is never to be thrown away.
    Keep,
}

/// The text of a name. It takes no memory.
#[derive(Drop)]
pub struct NameText {
    line: Line,
}

impl Model for NameText {
    ghost use Rattle.std.specs.Prelude.{ℕ, List, length, take, ◌-◌};

    ghost Value = { List ℕ };

    // A line ends with a line feed, and a name doesn't.
    ghost view = { λ t. take (length t.line.text - 1) t.line.text };
}

impl NameText {
    /// The bytes of the name, which are ASCII.
    pub fn as_slice(&self) -> &[u8]
        ensures { result.now ≡ self.now }
    {
        match self.line.as_slice() {
            [text @ .., _] => text,
            [] => &[],
        }
    }
}

impl Kind {
    fn text(self) -> &'static [u8]
        ensures { result.now ≡ kind_text self }
    {
        match self {
            Kind::Pages => b".ogg",
            Kind::Times => b".times",
            Kind::Keep => b".ogg.keep",
        }
    }
}

fn on_text(goes_on: bool) -> &'static [u8]
    ensures { result.now ≡ on_text goes_on }
{
    if goes_on { b"-on" } else { b"" }
}

/// Puts a number in front, with zeros up to the width.
fn put_padded(line: &mut Line, width: usize, number: u64)
    requires width { width ≤ 8 }
    requires room { 28 ≤ line.old.room }
    ensures text { line.new.text ≡ padded width number ++ line.old.text }
    ensures room { line.old.room ≤ line.new.room + 28 }
{
    let before = line.as_slice().len();
    line.put_number(number);
    let digits = line.as_slice().len() - before;
    line.put_text(&b"00000000"[..width.saturating_sub(digits)]);
}

/// The digits of the date of a day since 1970.
fn day_digits(day: u64) -> u64
    requires { day ≤ 2932896 }
    ensures { (date : DateOf) × (epoch_day date ≡ pos day) × (result ≡ day_digits date) }
{
    let date = Date::from_unix_epoch_day(day as i64).unwrap();
    u64::from(date.year.unsigned_abs()) * 10_000 + u64::from(date.month) * 100 + u64::from(date.day)
}

fn clock_digits(second: u64) -> u64
    requires { second ≤ 86399 }
    ensures { result ≡ clock_digits second }
{
    second / 60 / 60 * 10_000 + second / 60 % 60 * 100 + second % 60
}

impl Name {
    /// The name's text.
    pub fn text(self, kind: Kind) -> NameText
        ensures { IsText kind self result }
    {
        let begin = self.begin.min(LAST_SECOND);
        let mut line = Line::new();
        line.put_text(kind.text());
        line.put_text(on_text(self.goes_on));
        line.put_text(b"Z");
        put_padded(&mut line, 6, clock_digits(begin % 86_400));
        line.put_text(b"T");
        put_padded(&mut line, 8, day_digits(begin / 86_400));
        line.put_text(b"-");
        put_padded(&mut line, 6, self.number);
        NameText { line }
    }
}
