//! Which of the files is the newest.
ghost use Rattle.std.specs.Prelude.{◌≡◌, ◌+◌, ◌<◌, ◌≤◌, ◌^◌, ◌↔◌, IsTrue, SomeIff};
ghost use Rattle.archive_names.specs.Among.{highest, how_many, newest};

use crate::name::Name;

/// The highest number, or 0 if there is no name.
fn highest(names: &[Name]) -> u64
    ensures { result ≡ highest names.now }
{
    let mut highest = 0;
    for name in names {
        highest = name.number.max(highest);
    }
    highest
}

/// The number of the next file, which is above all, if one is left. The first has 1.
pub fn next_number(names: &[Name]) -> Option<u64>
    ensures { SomeIff result (highest names.now + 1 < 2 ^ 64) (highest names.now + 1) }
{
    highest(names).checked_add(1)
}

/// The name of the newest file, if only one has the highest number.
pub fn newest(names: &[Name]) -> Option<Name>
    ensures { result ≡ newest names.now }
{
    let highest = highest(names);
    let mut found = None;
    for name in names {
        if name.number == highest {
            if found.is_some() {
                return None;
            }
            found = Some(*name);
        }
    }
    found
}

/// Whether two of the files or more have this number.
pub fn stands_twice(names: &[Name], number: u64) -> bool
    ensures { IsTrue result ↔ (2 ≤ how_many number names.now) }
{
    names.iter().filter(|name| name.number == number).count() >= 2
}
