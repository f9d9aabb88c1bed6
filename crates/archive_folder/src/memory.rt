//! A folder in memory, of disks in memory. It keeps the calls so far, so it knows what a stop might have left.
ghost use Rattle.std.specs.Prelude.{◌≡◌, ◌≢◌, ◌⊎◌, ◌↔◌, ◌+◌, ◌-◌, ◌^◌, ◌<◌, ◌≤◌, ℕ, [], ◌∷◌, ◌++◌, length, set, slice_get, Option, None, Some, OnOk, OnErr, IfOk, IfSome, IfNone, IsSome};
ghost use Rattle.archive_folder.specs.Names.{Nowhere, Out, Kept, IsKept, AreRising, numbers_of, listed, made, removed, synced};
ghost use Rattle.archive_folder.specs.Slots.{slot, place_in, place_of, put};
ghost use Rattle.disk_model.specs.declared.memory.MemDisk.{MemDisk as Disk};
ghost use Rattle.archive_folder.specs.NamesLaws.{rising_prop};
ghost use Rattle.archive_folder.specs.Calls.{after_calls};

use crate::folder::fail;
use crate::{Fate, FileFacts, FileName, Folder, Name};
use disk_model::{DiskFault, MemDisk, Memory};
use std::alloc::Global;

/// A call that succeeded and on which the names depend.
#[derive(Clone, Copy, Debug, PartialEq, Eq)]
pub enum Call {
    Make(u64),
    Remove(u64),
    Sync,
}

/// A file under a number: it is handed out if there is no disk.
#[derive(Drop)]
pub struct Slot {
    number: u64,
    disk: Option<MemDisk>,
}

/// A folder in memory. It is honest always, and fails if memory is refused.
#[derive(Drop)]
pub struct MemFolder {
    names: Vec<Name>,
    titles: Vec<FileName>,
    slots: Vec<Slot>,
    calls: Vec<Call>,
    failures: u64,
    ghost replayed: { after_calls calls.items [] ≡ names.items },
    ghost rising: { AreRising names.items } by { rising_prop names.items },
}

impl MemFolder {
    ghost use Rattle.archive_folder.specs.MemFolder.{names_in, failures_of};

    /// An empty folder that hasn't failed.
    pub fn new(alloc: Global) -> MemFolder
        ensures names { names_in result ≡ [] }
        ensures failures { failures_of result ≡ 0 }
    {
        MemFolder {
            names: Vec::new(alloc),
            titles: Vec::new(alloc),
            slots: Vec::new(alloc),
            calls: Vec::new(alloc),
            failures: 0,
        }
    }

    /// What is known of each name, in the order of the numbers.
    pub fn names(&self) -> &[Name]
        ensures { result.now ≡ names_in self.now }
    {
        &self.names
    }
}

/// The names that a list gives.
fn files_of(alloc: Global, names: &[Name], titles: &[FileName]) -> Result<Vec<FileName>, Memory>
    ensures { IfOk result (λ files. numbers_of files.items ≡ listed names.now) }
{
    let mut files = Vec::new(alloc);
    for name in names {
        match name.fate {
            Fate::Goes => {}
            _ => files.push(title_of(titles, name.number))?,
        }
    }
    Ok(files)
}

/// What the last name said that was made with this number.
fn title_of(titles: &[FileName], number: u64) -> FileName
    ensures { result.number ≡ number }
{
    let mut found = FileName {
        number,
        begun: 0,
        goes_on: false,
    };
    for title in titles {
        if title.number == number {
            found = *title;
        }
    }
    found
}

/// The names after a sync.
fn synced_names(alloc: Global, names: &[Name]) -> Result<Vec<Name>, Memory>
    ensures { IfOk result (λ kept. kept.items ≡ synced names.now) }
{
    let mut kept = Vec::new(alloc);
    for name in names {
        match name.fate {
            Fate::Goes => {}
            _ => kept.push(Name {
                number: name.number,
                fate: Fate::Stays,
            })?,
        }
    }
    Ok(kept)
}

/// Notes that the first name with this number may come back.
fn let_go(names: &mut [Name], number: u64)
    ensures { names.new ≡ removed number names.old }
{
    for i in 0..names.len() {
        if names[i].number == number {
            names[i].fate = Fate::Goes;
            return;
        }
    }
}

/// The first slot with this number.
fn slot_at(slots: &[Slot], number: u64) -> Option<usize>
    ensures found { IfSome result (λ i. (i < length slots.now)
        × ((disk : Option Disk) → put number disk slots.now ≡ set slots.now i (slot number disk))) }
    ensures place { IfSome result (λ i. (there : _) → slice_get slots.now i ≡ Some there
        → (there.number ≡ number) × (place_of number slots.now ≡ place_in there.disk)) }
    ensures none { IfNone result ((disk : Option Disk)
        → put number disk slots.now ≡ slots.now ++ slot number disk ∷ []) }
    ensures nowhere { IfNone result (place_of number slots.now ≡ Nowhere) }
{
    for i in 0..slots.len() {
        if slots[i].number == number {
            return Some(i);
        }
    }
    None
}

/// The length of a file, if it isn't handed out.
fn length_at(slots: &[Slot], number: u64) -> u64 {
    match slot_at(slots, number) {
        Some(i) => match &slots[i].disk {
            Some(disk) => disk.contents().len() as u64,
            None => 0,
        },
        None => 0,
    }
}

/// Notes that a file is handed out.
fn note_out(slots: &mut Vec<Slot>, number: u64) -> Result<(), Memory>
    ensures ok { OnOk result (slots.new.items ≡ put number None slots.old.items) }
    ensures err { OnErr result (slots.new.items ≡ slots.old.items) }
{
    match slot_at(slots, number) {
        Some(i) => slots[i] = Slot { number, disk: None },
        None => {
            slots.reserve(1)?;
            slots.push_reserved(Slot { number, disk: None });
        }
    }
    Ok(())
}

/// Hands a file out that is there.
fn take_out(slots: &mut Vec<Slot>, number: u64) -> Option<MemDisk>
    requires { IsKept (place_of number slots.old.items) }
    ensures found { IsSome result }
    ensures taken { IfSome result (λ disk. place_of number slots.old.items ≡ Kept disk) }
    ensures out { slots.new.items ≡ put number None slots.old.items }
{
    match slot_at(slots, number) {
        Some(i) => slots[i].disk.take(),
        None => None,
    }
}

/// Takes a file back that was handed out.
fn bring_back(slots: &mut Vec<Slot>, number: u64, disk: MemDisk)
    requires { place_of number slots.old.items ≡ Out }
    ensures { slots.new.items ≡ put number (Some disk) slots.old.items }
{
    if let Some(i) = slot_at(slots, number) {
        slots[i] = Slot {
            number,
            disk: Some(disk),
        };
    }
}

/// Makes a name and a slot, and notes the call. If memory is refused nothing changes.
fn make(
    names: &mut Vec<Name>,
    titles: &mut Vec<FileName>,
    slots: &mut Vec<Slot>,
    calls: &mut Vec<Call>,
    title: FileName,
) -> Result<(), Memory>
    ensures names { OnOk result (names.new.items ≡ made title.number names.old.items) }
    ensures titles { OnOk result (titles.new.items ≡ titles.old.items ++ title ∷ []) }
    ensures slots { OnOk result (slots.new.items ≡ put title.number None slots.old.items) }
    ensures recorded { OnOk result (calls.new.items ≡ calls.old.items ++ Call.Make title.number ∷ []) }
    ensures err { OnErr result ((names.new.items ≡ names.old.items) × (titles.new.items ≡ titles.old.items)
        × (slots.new.items ≡ slots.old.items) × (calls.new.items ≡ calls.old.items)) }
{
    names.reserve(1)?;
    titles.reserve(1)?;
    calls.reserve(1)?;
    note_out(slots, title.number)?;
    names.push_reserved(Name {
        number: title.number,
        fate: Fate::Comes,
    });
    titles.push_reserved(title);
    calls.push_reserved(Call::Make(title.number));
    Ok(())
}

/// Removes a name, and notes the call. If memory is refused nothing changes.
fn remove(names: &mut Vec<Name>, calls: &mut Vec<Call>, number: u64) -> Result<(), Memory>
    ensures names { OnOk result (names.new.items ≡ removed number names.old.items) }
    ensures recorded { OnOk result (calls.new.items ≡ calls.old.items ++ Call.Remove number ∷ []) }
    ensures err { OnErr result ((names.new.items ≡ names.old.items) × (calls.new.items ≡ calls.old.items)) }
{
    calls.push(Call::Remove(number))?;
    let_go(names, number);
    Ok(())
}

/// Syncs the names, and notes the call. If memory is refused nothing changes.
fn sync(names: &mut Vec<Name>, calls: &mut Vec<Call>) -> Result<(), Memory>
    ensures names { OnOk result (names.new.items ≡ synced names.old.items) }
    ensures recorded { OnOk result (calls.new.items ≡ calls.old.items ++ Call.Sync ∷ []) }
    ensures err { OnErr result ((names.new.items ≡ names.old.items) × (calls.new.items ≡ calls.old.items)) }
{
    let kept = synced_names(*names.allocator(), names)?;
    calls.push(Call::Sync)?;
    *names = kept;
    Ok(())
}

impl Folder for MemFolder {
    ghost use Rattle.archive_folder.specs.MemFolder.{names_in, file_in, moment_of, left_since_of, failures_of};
    ghost use Rattle.archive_folder.specs.Clock.{NamesPass};
    ghost use Rattle.archive_folder.specs.Names.{AreBelow};
    ghost use Rattle.archive_folder.specs.Calls.{has_left};
    ghost use Rattle.disk_model.specs.Fault.{HasCause};
    ghost use Rattle.disk_model.specs.Image.{settled};
    ghost use Rattle.disk_model.specs.MemDisk.{state_of};

    type File = MemDisk;

    ghost names = { names_in };

    ghost file = { file_in };

    ghost is_honest = { λ _. Unit {0} };

    ghost moment = { moment_of };

    ghost left_since = { left_since_of };

    ghost failures = { failures_of };

    ghost laws = { λ m _. has_left m.names.items m.calls.items m.replayed m.rising };

    fn list(&mut self, alloc: Global) -> Result<Vec<FileName>, DiskFault> {
        match files_of(alloc, &self.names, &self.titles) {
            Ok(files) => Ok(files),
            Err(Memory) => Err(fail(&mut self.failures)),
        }
    }

    fn facts(&mut self, name: FileName) -> Result<FileFacts, DiskFault> {
        Ok(FileFacts {
            bytes: length_at(&self.slots, name.number),
            is_held: false,
        })
    }

    fn make(&mut self, name: FileName) -> Result<MemDisk, DiskFault> {
        let disk = match MemDisk::of(*self.names.allocator(), &[]) {
            Ok(disk) => disk,
            Err(Memory) => return Err(fail(&mut self.failures)),
        };
        match make(
            &mut self.names,
            &mut self.titles,
            &mut self.slots,
            &mut self.calls,
            name,
        ) {
            Ok(()) => Ok(disk),
            Err(Memory) => Err(fail(&mut self.failures)),
        }
    }

    fn open(&mut self, name: FileName) -> Result<MemDisk, DiskFault> {
        match take_out(&mut self.slots, name.number) {
            Some(disk) => Ok(disk),
            None => Err(fail(&mut self.failures)),
        }
    }

    fn give_back(&mut self, number: u64, disk: MemDisk) {
        bring_back(&mut self.slots, number, disk);
    }

    fn remove(&mut self, name: FileName) -> Result<(), DiskFault> {
        match remove(&mut self.names, &mut self.calls, name.number) {
            Ok(()) => Ok(()),
            Err(Memory) => Err(fail(&mut self.failures)),
        }
    }

    fn sync(&mut self) -> Result<(), DiskFault> {
        match sync(&mut self.names, &mut self.calls) {
            Ok(()) => Ok(()),
            Err(Memory) => Err(fail(&mut self.failures)),
        }
    }

    /// Memory alone is wanting here.
    fn is_full(&self) -> bool {
        false
    }
}
