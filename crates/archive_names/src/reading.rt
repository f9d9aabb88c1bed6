//! A name, read from any bytes.
ghost use Rattle.std.specs.Prelude.{◌≡◌, ◌+◌, ◌*◌, ◌/◌, ◌%◌, ◌++◌, ◌≤◌, ◌<◌, ℕ, Bool, IfSome, Some, pos};
ghost use Rattle.jiff_core.specs.Date.{epoch_day};
ghost use Rattle.jiff_core.specs.declared.civil.date.Date.{Date as DateOf};
ghost use Rattle.archive_names.specs.Name.{IsName, IsText, clock_digits, day_digits, kind_text, on_text};
ghost use Rattle.archive_names.specs.declared.name.Kind.{Kind as KindOf};
ghost use Rattle.archive_names.specs.declared.name.Name.{Name as NameOf};

use crate::name::{Kind, Name};
use archive_times::number_at_front;
use jiff_core::civil::Date;

fn day_from_1970(date: Date) -> Option<u64>
    ensures each { (day : ℕ) → epoch_day date ≡ pos day → result ≡ Some day }
    ensures bound { IfSome result (λ day. day ≤ 2932896) }
{
    let day = date.to_unix_epoch_day();
    if day < 0 { None } else { Some(day as u64) }
}

/// The day of a date's digits, since 1970.
fn day_of(digits: u64) -> Option<u64>
    ensures each { (date : DateOf) (day : ℕ) → epoch_day date ≡ pos day → digits ≡ day_digits date → result ≡ Some day }
    ensures bound { IfSome result (λ day. day ≤ 2932896) }
{
    let year = (digits / 10_000 % 10_000) as i16;
    let month = (digits / 100 % 100) as i8;
    match Date::new(year, month, (digits % 100) as i8) {
        Ok(date) => day_from_1970(date),
        Err(_) => None,
    }
}

fn second_of(digits: u64) -> u64
    ensures each { (second : ℕ) → second ≤ 86399 → digits ≡ clock_digits second → result ≡ second }
    ensures small { result < 1000000 }
{
    digits / 10_000 % 100 * 3600 + digits / 100 % 100 * 60 + digits % 100
}

/// Whether a name goes on, and what it names, by what stands behind its time.
fn ending(rest: &[u8]) -> (bool, Kind)
    ensures { (on : Bool) (kind : KindOf) → rest.now ≡ on_text on ++ kind_text kind → result ≡ (on, kind) }
{
    let goes_on = match rest {
        [b'-', ..] => true,
        _ => false,
    };
    let kind = match rest {
        [.., b's'] => Kind::Times,
        [.., b'p'] => Kind::Keep,
        _ => Kind::Pages,
    };
    (goes_on, kind)
}

/// The name that a text has, if it has one.
fn name_read(text: &[u8]) -> Option<(Name, Kind)>
    ensures { (name : NameOf) (kind : KindOf) → IsName name → IsText kind name text.now → result ≡ Some (name, kind) }
{
    let (number, rest) = number_at_front(text);
    let (day, rest) = number_at_front(rest);
    let (clock, rest) = number_at_front(rest);
    let (goes_on, kind) = ending(rest);
    let day = day_of(day)?;
    let begin = day * 86_400 + second_of(clock);
    let name = Name {
        number,
        begin,
        goes_on,
    };
    Some((name, kind))
}

impl Name {
    /// The name that has this text, and what it names, if there is one.
    pub fn read(text: &[u8]) -> Option<(Name, Kind)>
        // Exactly the texts that are written are read.
        ensures name { IfSome result (λ (name, kind). IsText kind name text.now) }
        ensures each { (name : NameOf) (kind : KindOf) → IsName name → IsText kind name text.now
            → result ≡ Some (name, kind) }
    {
        let (name, kind) = name_read(text)?;
        // What was read may be no name at all: only its own text is taken.
        let written = name.text(kind);
        if written.as_slice() == text {
            Some((name, kind))
        } else {
            None
        }
    }
}
