//! The serials that streams of a link have now.
ghost use Rattle.std.specs.Prelude.{◌≡◌, ◌⊎◌, ◌<◌, ◌+◌, ◌≤◌, ◌∷◌, ◌++◌, [], false, true, nat_eq, IfOk, OnOk, OnErr, length, vec_len, vec_capacity};
ghost use Rattle.std.specs.List.{AllByRecursion, list_any};
ghost use Rattle.std.specs.Map.{keys_of, values_of};
ghost use Rattle.import_changes.specs.Naming.{AreNamed, AreNames, AreOnlyOf, Keeps, KeepsAll, Renames, name_of, serials_of};
ghost use Rattle.import_changes.specs.Naming.{AreAllTaken, IsFirstFree, IsFreeFrom, IsLow};

use link_chain::Serials;
use ogg_command::{Memory, NewStream};
use std::alloc::AllocError;

/// The serial that the stream with this one has now.
pub fn name_of(names: &[(u32, u32)], serial: u32) -> Option<u32>
    ensures { result ≡ name_of names.now serial }
{
    for name in names {
        if name.0 == serial {
            return Some(name.1);
        }
    }
    None
}

/// Whether a stream has this serial now.
fn is_name(names: &[(u32, u32)], serial: u32) -> bool
    ensures { result ≡ list_any (nat_eq serial) (values_of names.now) }
{
    for name in names {
        if name.1 == serial {
            return true;
        }
    }
    false
}

/// The first serial from `from` on that no stream has now.
fn free_from(given: &Serials, names: &[(u32, u32)], from: u32) -> Option<u32>
    ensures { IsFreeFrom from given.now.listed (values_of names.now) result }
{
    for serial in from..=u32::MAX {
        if !given.contains(serial) && !is_name(names, serial) {
            return Some(serial);
        }
    }
    None
}

/// The first serial from `from` on that no stream has now, or if there is none, the first of all. The fault says that
/// all serials are taken.
pub fn free_serial(given: &Serials, names: &[(u32, u32)], from: u32) -> Result<u32, Memory>
    ensures free { IfOk result (λ serial. IsFirstFree from given.now.listed (values_of names.now) serial) }
    ensures full { OnErr result (AreAllTaken given.now.listed (values_of names.now)) }
{
    match free_from(given, names, from) {
        Some(free) => Ok(free),
        None => match free_from(given, names, 0) {
            Some(free) => Ok(free),
            None => Err(AllocError),
        },
    }
}

/// The first serial of all that no stream has now, if those below `low` are taken. The fault says that all are.
fn first_free(given: &Serials, names: &[(u32, u32)], low: u32) -> Result<u32, Memory>
    requires { IsLow given.now.listed (values_of names.now) low }
    ensures free { IfOk result (λ serial. IsFirstFree 0 given.now.listed (values_of names.now) serial) }
    ensures full { OnErr result (AreAllTaken given.now.listed (values_of names.now)) }
{
    match free_from(given, names, low) {
        Some(free) => Ok(free),
        None => Err(AllocError),
    }
}

/// Names the stream with this serial by it, if no stream of an earlier link has it.
fn keep(given: &Serials, names: &mut Vec<(u32, u32)>, serial: u32) -> Result<(), Memory>
    ensures kept { OnOk result (Keeps given.now.listed serial names.old.items names.new.items) }
    ensures full { OnErr result (vec_capacity names.new < vec_len names.new + 1) }
    ensures unnamed { OnErr result ((names.new.items ≡ names.old.items) × (list_any (nat_eq serial) (keys_of names.old.items) ≡ false)) }
    ensures capacity { vec_capacity names.old ≤ vec_capacity names.new }
{
    if given.contains(serial) {
        return Ok(());
    }
    if name_of(names.as_slice(), serial).is_some() {
        return Ok(());
    }
    match names.reserve(1) {
        Ok(()) => {}
        Err(refused) => return Err(refused),
    }
    names.push_reserved((serial, serial));
    Ok(())
}

/// Names the streams whose serials no stream of an earlier link has, each by its own.
fn keep_all(
    given: &Serials,
    names: &mut Vec<(u32, u32)>,
    streams: &[NewStream],
) -> Result<(), Memory>
    requires { names.old.items ≡ [] }
    ensures kept { OnOk result (KeepsAll given.now.listed names.new.items (serials_of streams.now)) }
    ensures full { OnErr result (vec_capacity names.new < vec_len names.new + 1) }
    ensures unnamed { OnErr result (length names.new.items < length streams.now) }
    ensures capacity { vec_capacity names.old ≤ vec_capacity names.new }
{
    for stream in streams {
        match keep(given, names, stream.serial) {
            Ok(()) => {}
            Err(refused) => return Err(refused),
        }
    }
    Ok(())
}

/// Names the stream with this serial, if it isn't named yet, by the first free serial. Those below `low` are taken, and
/// `low` becomes that serial. It fails only if all serials are taken, or where there is no room for a name.
fn rename(
    given: &Serials,
    names: &mut Vec<(u32, u32)>,
    serial: u32,
    low: &mut u32,
) -> Result<(), Memory>
    requires { IsLow given.now.listed (values_of names.old.items) low.old }
    ensures names { OnOk result (Renames given.now.listed serial names.old.items names.new.items) }
    ensures low { OnOk result (IsLow given.now.listed (values_of names.new.items) low.new) }
    ensures full { OnErr result (AreAllTaken given.now.listed (values_of names.new.items) ⊎ (vec_capacity names.new < vec_len names.new + 1)) }
    ensures unnamed { OnErr result ((names.new.items ≡ names.old.items) × (list_any (nat_eq serial) (keys_of names.old.items) ≡ false)) }
    ensures capacity { vec_capacity names.old ≤ vec_capacity names.new }
{
    if name_of(names.as_slice(), serial).is_some() {
        return Ok(());
    }
    let free = match first_free(given, names.as_slice(), *low) {
        Ok(free) => free,
        Err(taken) => return Err(taken),
    };
    match names.reserve(1) {
        Ok(()) => {}
        Err(refused) => return Err(refused),
    }
    *low = free;
    names.push_reserved((serial, free));
    Ok(())
}

/// Names the streams that aren't named yet.
fn rename_all(
    given: &Serials,
    names: &mut Vec<(u32, u32)>,
    streams: &[NewStream],
    low: &mut u32,
) -> Result<(), Memory>
    requires kept { KeepsAll given.now.listed names.old.items (serials_of streams.now) }
    requires low { IsLow given.now.listed (values_of names.old.items) low.old }
    ensures names { OnOk result (AreNames given.now.listed names.new.items) }
    ensures named { OnOk result (AreNamed names.new.items (serials_of streams.now)) }
    ensures only { OnOk result (AreOnlyOf names.new.items (serials_of streams.now)) }
    ensures low { OnOk result (IsLow given.now.listed (values_of names.new.items) low.new) }
    ensures full { OnErr result (AreAllTaken given.now.listed (values_of names.new.items) ⊎ (vec_capacity names.new < vec_len names.new + 1)) }
    ensures unnamed { OnErr result (length names.new.items < length streams.now) }
    ensures capacity { vec_capacity names.old ≤ vec_capacity names.new }
{
    for stream in streams {
        match rename(given, names, stream.serial, low) {
            Ok(()) => {}
            Err(refused) => return Err(refused),
        }
    }
    Ok(())
}

/// Names the streams of a new link, where the serials below `low` are taken. Returns the serial below which all are
/// taken then. It fails only if a stream isn't named yet and all serials are taken, or there is no room for a name.
pub fn name_all(
    given: &Serials,
    names: &mut Vec<(u32, u32)>,
    streams: &[NewStream],
    low: u32,
) -> Result<u32, Memory>
    requires { IsLow given.now.listed [] low }
    ensures names { OnOk result (AreNames given.now.listed names.new.items) }
    ensures named { OnOk result (AreNamed names.new.items (serials_of streams.now)) }
    ensures only { OnOk result (AreOnlyOf names.new.items (serials_of streams.now)) }
    ensures low { IfOk result (IsLow given.now.listed (values_of names.new.items)) }
    ensures full { OnErr result (AreAllTaken given.now.listed (values_of names.new.items) ⊎ (vec_capacity names.new < vec_len names.new + 1)) }
    ensures unnamed { OnErr result (length names.new.items < length streams.now) }
    ensures capacity { vec_capacity names.old ≤ vec_capacity names.new }
{
    names.clear();
    match keep_all(given, names, streams) {
        Ok(()) => {}
        Err(refused) => return Err(refused),
    }
    let mut next = low;
    match rename_all(given, names, streams, &mut next) {
        Ok(()) => Ok(next),
        Err(refused) => Err(refused),
    }
}
