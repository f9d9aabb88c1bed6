//! A time, told.
ghost use Rattle.std.specs.Prelude.{◌≡◌, ◌+◌, ◌%◌, ◌≤◌, ◌++◌, ℕ, List};
ghost use Rattle.archive_clock.specs.Told.{IsCivil, IsTimeText, IsUtcText, digit, time_text, utc_text};

use jiff_core::civil::Date;
use text_line::Line;

/// The last millisecond of the year 9999.
const LAST_TIME: u64 = 253_402_300_799_999;

fn digit(number: u64) -> u8
    ensures { result ≡ digit number }
{
    b'0' + (number % 10) as u8
}

#[rattlefmt::skip]
fn time_text(year: u64, month: u64, day: u64, time: u64) -> [u8; 24]
    ensures { result ≡ time_text year month day time }
{
    let minute = time / 60_000 % 60;
    let second = time / 1000 % 60;
    [
        digit(year / 1000), digit(year / 100), digit(year / 10), digit(year), b'-',
        digit(month / 10), digit(month), b'-', digit(day / 10), digit(day), b'T',
        digit(time / 36_000_000), digit(time / 3_600_000), b':', digit(minute / 10), digit(minute), b':',
        digit(second / 10), digit(second), b'.', digit(time / 100), digit(time / 10), digit(time), b'Z',
    ]
}

/// The year, the month, the day and the millisecond of the day of a time in milliseconds since 1970.
fn civil_of(time: u64) -> (u64, u64, u64, u64)
    ensures { IsCivil time result.0 result.1 result.2 result.3 }
{
    let time = time.min(LAST_TIME);
    let date = Date::from_unix_epoch_day((time / 86_400_000) as i64).unwrap();
    let year = u64::from(date.year.unsigned_abs());
    let month = u64::from(date.month);
    let day = u64::from(date.day);
    (year, month, day, time % 86_400_000)
}

/// The text of a time in milliseconds since 1970.
fn text_of(time: u64) -> [u8; 24]
    ensures { IsTimeText time result }
{
    let (year, month, day, millisecond) = civil_of(time);
    time_text(year, month, day, millisecond)
}

#[rattlefmt::skip]
fn utc_text(year: u64, month: u64, day: u64, time: u64) -> [u8; 20]
    ensures { result ≡ utc_text year month day time }
{
    let minute = time / 60_000 % 60;
    let second = time / 1000 % 60;
    [
        digit(year / 1000), digit(year / 100), digit(year / 10), digit(year),
        digit(month / 10), digit(month), digit(day / 10), digit(day), b'T',
        digit(time / 36_000_000), digit(time / 3_600_000), digit(minute / 10), digit(minute), digit(second / 10),
        digit(second), b'.', digit(time / 100), digit(time / 10), digit(time), b'Z',
    ]
}

/// The text of a time in milliseconds since 1970 that stands in a Skeleton's fishead (`20261128T140500.310Z`). What lies
/// past the year 9999 is told as its last millisecond.
pub fn utc_of(time: u64) -> [u8; 20]
    ensures { IsUtcText time result }
{
    let (year, month, day, millisecond) = civil_of(time);
    utc_text(year, month, day, millisecond)
}

/// Puts a time in front of a line, as RFC 3339 in UTC with milliseconds. What lies past the year 9999 is told as its
/// last millisecond.
pub fn put_time(line: &mut Line, time: u64)
    requires { 24 ≤ line.old.room }
    ensures text { (told : List ℕ) × IsTimeText time told × (line.new.text ≡ told ++ line.old.text) }
    ensures room { line.new.room + 24 ≡ line.old.room }
{
    line.put_text(&text_of(time));
}
