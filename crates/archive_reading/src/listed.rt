//! The files of a folder, by the names that stand there.
ghost use Rattle.std.specs.Prelude.{◌≡◌, ◌++◌, ◌∷◌, [], nat_le, if◌then◌else◌, IfOk, OnOk};
ghost use Rattle.std.specs.List.{AllByRecursion};
ghost use Rattle.std.specs.List.Sorted.{IsNonDecreasingBy, IsPermutation};
ghost use Rattle.archive_reading.specs.Folder.{AreGrouped, AreRead, IsOther, file_of, files_in, how_many, is_keep, is_kind, is_named, is_pages, is_times, only, option_list, stands, with_beside};
ghost use Rattle.archive_reading.specs.declared.listed.Entry.{Entry as EntryOf};

use crate::Memory;
use archive_names::{Kind, Name};
use std::alloc::Global;

/// One of our names, and what stands under it.
#[derive(Clone, Copy, Debug, PartialEq, Eq)]
pub struct Entry {
    pub name: Name,
    pub kind: Kind,
}

/// One file of an archive.
#[derive(Clone, Copy, Debug, PartialEq, Eq)]
pub struct Listed {
    pub name: Name,
    /// Whether its lines of times stand beside it.
    pub has_times: bool,
    /// Whether the mark stands beside it that it is never to be thrown away.
    pub is_kept: bool,
}

/// What a folder has.
#[derive(Debug, Drop)]
pub struct Seen {
    /// Its files, in the order of their numbers.
    pub files: Vec<Listed>,
    /// The numbers that two files have or more, rising. These files are none of `files`.
    pub twice: Vec<u64>,
}

fn is_pages(kind: Kind) -> bool
    ensures { result ≡ is_pages kind }
{
    match kind {
        Kind::Pages => true,
        Kind::Times | Kind::Keep => false,
    }
}

fn is_times(kind: Kind) -> bool
    ensures { result ≡ is_times kind }
{
    match kind {
        Kind::Times => true,
        Kind::Pages | Kind::Keep => false,
    }
}

fn is_keep(kind: Kind) -> bool
    ensures { result ≡ is_keep kind }
{
    match kind {
        Kind::Keep => true,
        Kind::Pages | Kind::Times => false,
    }
}

fn is_named(a: Name, b: Name) -> bool
    ensures { result ≡ is_named a b }
{
    a.number == b.number && a.begin == b.begin && a.goes_on == b.goes_on
}

/// The file among these names, if only one is.
fn only(entries: &[Entry]) -> Option<Entry>
    ensures { result ≡ only (files_in entries.now) }
{
    let mut found = None;
    for entry in entries {
        if is_pages(entry.kind) {
            if found.is_some() {
                return None;
            }
            found = Some(*entry);
        }
    }
    found
}

fn is_kind(wanted: Kind, kind: Kind) -> bool
    ensures { result ≡ is_kind wanted kind }
{
    match wanted {
        Kind::Pages => is_pages(kind),
        Kind::Times => is_times(kind),
        Kind::Keep => is_keep(kind),
    }
}

/// Whether this stands among the names.
fn stands(entries: &[Entry], kind: Kind, name: Name) -> bool
    ensures { result ≡ stands entries.now kind name }
{
    for entry in entries {
        if is_kind(kind, entry.kind) && is_named(entry.name, name) {
            return true;
        }
    }
    false
}

/// A file, and what stands beside it, by all names that have its number.
fn with_beside(entries: &[Entry], name: Name) -> Listed
    ensures { result ≡ with_beside entries.now name }
{
    Listed {
        name,
        has_times: stands(entries, Kind::Times, name),
        is_kept: stands(entries, Kind::Keep, name),
    }
}

/// The file that is named, if only one is, by all names that have one number.
fn file_of(entries: &[Entry]) -> Option<Listed>
    ensures { result ≡ file_of entries.now }
{
    match only(entries) {
        Some(file) => Some(with_beside(entries, file.name)),
        None => None,
    }
}

/// Whether two of these are files or more.
fn is_twice(entries: &[Entry]) -> bool
    ensures { result ≡ nat_le 2 (how_many entries.now) }
{
    entries.iter().filter(|entry| is_pages(entry.kind)).count() >= 2
}

/// The names in front that have this number, and the rest.
fn split_number(entries: &[Entry], number: u64) -> (&[Entry], &[Entry])
    ensures joined { entries.now ≡ result.0.now ++ result.1.now }
    ensures same { AllByRecursion (λ (entry : EntryOf). entry.name.number ≡ number) result.0.now }
    ensures other { IsOther number result.1.now }
{
    let mut rest = entries;
    let mut count = 0;
    while let Some((entry, others)) = rest.split_first() {
        if entry.name.number != number {
            return entries.split_at(count);
        }
        rest = others;
        count += 1;
    }
    (entries, &[])
}

/// Puts names in the order of their numbers.
fn sort_by_number(entries: &mut Vec<Entry>)
    ensures same { IsPermutation entries.old.items entries.new.items }
    ensures sorted { IsNonDecreasingBy (λ (entry : EntryOf). entry.name.number) entries.new.items }
{
    entries.sort_unstable_by_key(|entry| entry.name.number);
}

/// Adds the file, if there is one.
fn push_file(files: &mut Vec<Listed>, file: Option<Listed>) -> Result<(), Memory>
    ensures { OnOk result (files.new.items ≡ files.old.items ++ option_list file) }
{
    if let Some(file) = file {
        files.push(file)?;
    }
    Ok(())
}

/// Adds the number, if it stands twice.
fn push_number(numbers: &mut Vec<u64>, number: u64, is_twice: bool) -> Result<(), Memory>
    ensures { OnOk result (numbers.new.items ≡ numbers.old.items ++ (if is_twice then number ∷ [] else [])) }
{
    if is_twice {
        numbers.push(number)?;
    }
    Ok(())
}

/// Adds the files of names that stand in the order of their numbers, and the numbers that stand twice.
fn add_files(entries: &[Entry], files: &mut Vec<Listed>, twice: &mut Vec<u64>) -> Result<(), Memory>
    requires none { (files.old.items ≡ []) × (twice.old.items ≡ []) }
    ensures grouped { OnOk result (IsNonDecreasingBy (λ (entry : EntryOf). entry.name.number) entries.now
        → AreGrouped entries.now files.new.items twice.new.items) }
{
    let mut rest = entries;
    while let Some((first, _)) = rest.split_first() {
        let number = first.name.number;
        let (group, others) = split_number(rest, number);
        push_file(files, file_of(group))?;
        push_number(twice, number, is_twice(group))?;
        rest = others;
    }
    Ok(())
}

/// The files that the names of a folder are, with what stands beside each. The names may come in any order.
pub fn read_entries(alloc: Global, entries: Vec<Entry>) -> Result<Seen, Memory>
    ensures { IfOk result (λ seen. AreRead entries.items seen.files.items seen.twice.items) }
{
    let mut entries = entries;
    sort_by_number(&mut entries);
    let mut files = Vec::new(alloc);
    let mut twice = Vec::new(alloc);
    add_files(entries.as_slice(), &mut files, &mut twice)?;
    Ok(Seen { files, twice })
}
