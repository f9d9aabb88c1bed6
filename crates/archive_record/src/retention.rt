//! Which files are thrown away, and that they are.

ghost use Rattle.std.specs.Prelude.{◌≡◌, ◌↔◌, ◌+◌, ◌<◌, ◌++◌, ◌∷◌, [], ℕ, IsTrue, List, OnOk, length, None, false, true};
ghost use Rattle.archive_folder.specs.declared.names.FileName.{FileName as FileNameOf};
ghost use Rattle.archive_history.specs.Archive.{Archive as Account, names};
ghost use Rattle.ogg_command.specs.declared.command.Command.{Command as CommandOf};
ghost use Rattle.archive_record.specs.Account.{LeadsTo, NewestIsLast, StaysWritten};
ghost use Rattle.archive_record.specs.Reaching.{Reaches};
ghost use Rattle.archive_record.specs.Retention.{IsLeftOf, MayGo, how_many, throws};

use crate::archive::ArchiveFault;
use crate::beside::Beside;
use crate::files::Files;
use crate::laws::files_lead_on;
use crate::naming::name_of;
use crate::rotation::Rotation;
use archive_folder::{FileName, Folder};
use archive_names::{Going, Held, Keeping, next_for_room, next_to_go};
use disk_model::{Disk, DiskFault};

/// Whether a file may have to be thrown away at all.
fn throws(keeping: Keeping) -> bool
    ensures { result ≡ throws keeping }
{
    keeping.span.is_some() || keeping.bytes.is_some()
}

/// The last moment of a file that the next one follows, in milliseconds since 1970: what the file has was recorded before
/// the next one was begun.
fn last_of(next: Option<&FileName>, now: u64) -> u64 {
    match next {
        Some(next) => name_of(*next)
            .begin
            .saturating_mul(1000)
            .saturating_add(999),
        None => now,
    }
}

/// Whether exactly one of the files has this number.
fn has_once(files: &[FileName], number: u64) -> bool
    ensures { IsTrue result ↔ (how_many number files.now ≡ 1) }
{
    files.iter().filter(|file| file.number == number).count() == 1
}

/// Whether the newest of the files, which is the last, has this number.
fn is_newest(files: &[FileName], number: u64) -> bool
    ensures { (front : List FileNameOf) (newest : FileNameOf) → files.now ≡ front ++ newest ∷ []
        → (result ≡ true) ↔ (newest.number ≡ number) }
{
    match files {
        [.., newest] => newest.number == number,
        [] => false,
    }
}

/// Whether the file with this number may be thrown away: no other has it, and it isn't the newest.
fn may_go(files: &[FileName], number: u64) -> bool
    ensures { result ≡ true → MayGo number files.now }
{
    has_once(files, number) && !is_newest(files, number)
}

/// What stands under a name. A file that can't be looked at is never thrown away.
fn look<F: Folder>(files: &mut Files<F>, name: FileName, last: u64) -> Held
    // An event of the law leads there.
    ensures leads { F.is_honest files.old.folder → (a : Account CommandOf) (disks : ℕ → F.File)
        → F.names files.old.folder ≡ names a
        → LeadsTo F.names F.moment F.left_since F.File.Disk a files.old.folder disks a files.new.folder disks }
    ensures names { F.is_honest files.old.folder → F.names files.new.folder ≡ F.names files.old.folder }
    ensures places { F.is_honest files.old.folder → F.file files.new.folder ≡ F.file files.old.folder }
    ensures honest { F.is_honest files.old.folder ↔ F.is_honest files.new.folder }
    ensures files { files.new.files ≡ files.old.files }
    ensures out { files.new.out ≡ files.old.out }
{
    match files.facts(name) {
        Ok(facts) => Held {
            bytes: facts.bytes,
            last,
            is_kept: facts.is_held,
        },
        Err(DiskFault) => Held {
            bytes: 0,
            last,
            is_kept: true,
        },
    }
}

impl<D: Disk + Drop, F: Folder<File = D> + Drop> Rotation<F> {
    /// What stands under each name is noted, in the order of the files, if something may have to be thrown away.
    pub(crate) fn look_at_all(&mut self, now: u64) -> Result<(), ArchiveFault>
        requires { self.old.held.items ≡ [] }
        // Events of the law lead there, to the same account.
        ensures leads { F.is_honest self.old.files.folder → (a : Account CommandOf) (disks : ℕ → D) → F.names self.old.files.folder ≡ names a
            → Reaches F.names F.moment F.left_since D.Disk a self.old.files.folder disks a self.new.files.folder disks }
        ensures places { F.is_honest self.old.files.folder → F.file self.new.files.folder ≡ F.file self.old.files.folder }
        ensures honest { F.is_honest self.old.files.folder ↔ F.is_honest self.new.files.folder }
        ensures files { self.new.files.files ≡ self.old.files.files }
        ensures paired { OnOk result (throws self.old.rules.keeping ≡ true → length self.new.held.items ≡ length self.new.files.files) }
        ensures out { self.new.files.out ≡ self.old.files.out }
        ensures rules { self.new.rules ≡ self.old.rules }
    {
        // For the proof alone.
        files_lead_on::<D, F>();
        if !throws(self.rules.keeping) {
            return Ok(());
        }
        for at in 0..self.files.names().len() {
            let Some(name) = self.files.names().get(at) else {
                return Ok(());
            };
            let (name, last) = (*name, last_of(self.files.names().get(at + 1), now));
            let held = look(&mut self.files, name, last);
            match self.held.push(held) {
                Ok(()) => {}
                Err(_) => return Err(ArchiveFault::Memory),
            }
        }
        Ok(())
    }

    /// A file was begun: the one before it has ended.
    pub(crate) fn look_at_newest(&mut self, now: u64) -> Result<(), ArchiveFault>
        // Events of the law lead there: the file that is written stays so.
        ensures leads { F.is_honest self.old.files.folder → (a : Account CommandOf) (disks : ℕ → D)
            → F.names self.old.files.folder ≡ names a
            → StaysWritten F.names F.moment F.left_since D.Disk a self.old.files.folder disks self.new.files.folder }
        ensures honest { F.is_honest self.old.files.folder ↔ F.is_honest self.new.files.folder }
        ensures paired { OnOk result (throws self.old.rules.keeping ≡ true
            → length self.old.held.items + 1 ≡ length self.old.files.files
            → length self.new.held.items ≡ length self.new.files.files) }
        ensures files { self.new.files.files ≡ self.old.files.files }
        ensures out { self.new.files.out ≡ self.old.files.out }
        ensures rules { self.new.rules ≡ self.old.rules }
    {
        if !throws(self.rules.keeping) {
            return Ok(());
        }
        if let [.., before, _] = self.files.names() {
            let before = *before;
            self.held.pop();
            let held = look(&mut self.files, before, now);
            match self.held.push(held) {
                Ok(()) => {}
                Err(_) => return Err(ArchiveFault::Memory),
            }
        }
        let newest = Held {
            bytes: 0,
            last: now,
            is_kept: false,
        };
        match self.held.push(newest) {
            Ok(()) => Ok(()),
            Err(_) => Err(ArchiveFault::Memory),
        }
    }

    /// Throws away what is to be thrown away at this time in milliseconds since 1970, oldest first, and tells it. Call it
    /// when the folder was opened, and when what begins a new file is kept.
    pub fn throw_away<B: Beside>(&mut self, now: u64, beside: &mut B)
        // Events of the law lead there: the file that is written stays so.
        ensures leads { F.is_honest self.old.files.folder → (a : Account CommandOf) (disks : ℕ → D)
            → NewestIsLast self.old.files.files a → F.names self.old.files.folder ≡ names a
            → StaysWritten F.names F.moment F.left_since D.Disk a self.old.files.folder disks self.new.files.folder }
        ensures honest { F.is_honest self.old.files.folder ↔ F.is_honest self.new.files.folder }
        ensures left { IsLeftOf self.old.files.files self.new.files.files }
        ensures paired { length self.old.held.items ≡ length self.old.files.files
            → length self.new.held.items ≡ length self.new.files.files }
        ensures out { self.new.files.out ≡ self.old.files.out }
        ensures rules { self.new.rules ≡ self.old.rules }
    {
        let mut gone: usize = 0;
        for _ in 0..self.held.len() {
            let Some(going) = next_to_go(self.held.as_slice(), self.rules.keeping, now, gone) else {
                return;
            };
            if self.throw_one(going, beside) && going.by_age {
                gone = gone.saturating_add(1);
            }
        }
    }

    /// How often a call is made that fails for want of room: each time but the last a file is thrown away.
    pub(crate) fn tries(&self) -> usize {
        self.held.len().saturating_add(1)
    }

    /// If a call has failed as no room is left, and only so many bytes are kept, the oldest file goes that may. Returns
    /// whether one did. The file that is handed out is given back first.
    pub fn make_room<B: Beside>(&mut self, beside: &mut B) -> bool
        // Events of the law lead there: the file that is written stays so.
        ensures leads { F.is_honest self.old.files.folder → (a : Account CommandOf) (disks : ℕ → D)
            → NewestIsLast self.old.files.files a → F.names self.old.files.folder ≡ names a
            → StaysWritten F.names F.moment F.left_since D.Disk a self.old.files.folder disks self.new.files.folder }
        ensures places { F.is_honest self.old.files.folder → F.file self.new.files.folder ≡ F.file self.old.files.folder }
        ensures honest { F.is_honest self.old.files.folder ↔ F.is_honest self.new.files.folder }
        ensures bound { self.old.rules.keeping.bytes ≡ None → (result ≡ false) × (self.new ≡ self.old) × (beside.new ≡ beside.old) }
        ensures left { IsLeftOf self.old.files.files self.new.files.files }
        ensures paired { length self.old.held.items ≡ length self.old.files.files
            → length self.new.held.items ≡ length self.new.files.files }
        ensures out { self.new.files.out ≡ self.old.files.out }
        ensures rules { self.new.rules ≡ self.old.rules }
    {
        if self.rules.keeping.bytes.is_none() || !self.files.is_full() {
            return false;
        }
        // Each time a file is thrown away, forgotten or marked.
        for _ in 0..self.held.len() {
            let Some(at) = next_for_room(self.held.as_slice(), self.rules.keeping) else {
                return false;
            };
            if self.throw_one(Going { at, by_age: false }, beside) {
                return true;
            }
        }
        false
    }

    /// Throws a file away, and returns whether it did: not if it has a mark by now, if another file has its number, or if
    /// it is the newest.
    fn throw_one<B: Beside>(&mut self, going: Going, beside: &mut B) -> bool
        // Events of the law lead there: the file that is written stays so.
        ensures leads { F.is_honest self.old.files.folder → (a : Account CommandOf) (disks : ℕ → D)
            → NewestIsLast self.old.files.files a → F.names self.old.files.folder ≡ names a
            → StaysWritten F.names F.moment F.left_since D.Disk a self.old.files.folder disks self.new.files.folder }
        ensures places { F.is_honest self.old.files.folder → F.file self.new.files.folder ≡ F.file self.old.files.folder }
        ensures honest { F.is_honest self.old.files.folder ↔ F.is_honest self.new.files.folder }
        ensures left { IsLeftOf self.old.files.files self.new.files.files }
        // What is noted of the files goes with them.
        ensures paired { length self.old.held.items ≡ length self.old.files.files
            → length self.new.held.items ≡ length self.new.files.files }
        ensures out { self.new.files.out ≡ self.old.files.out }
        ensures rules { self.new.rules ≡ self.old.rules }
    {
        let Some(name) = self.files.names().get(going.at) else {
            return false;
        };
        let name = *name;
        if !may_go(self.files.names(), name.number) {
            self.keep(going.at);
            return false;
        }
        match self.files.facts(name) {
            Ok(facts) if facts.is_held => {
                self.keep(going.at);
                return false;
            }
            Ok(_) => {}
            Err(DiskFault) => {
                self.keep(going.at);
                beside.stays(name);
                return false;
            }
        }
        match self.files.throw_away(name) {
            Ok(true) => {
                self.forget(going.at);
                beside.removed(name);
                true
            }
            Ok(false) => {
                self.keep(going.at);
                false
            }
            // The file is forgotten until the archive is opened again.
            Err(DiskFault) => {
                self.forget(going.at);
                beside.stays(name);
                false
            }
        }
    }

    /// The file at this place isn't to be thrown away.
    fn keep(&mut self, at: usize)
        ensures files { self.new.files ≡ self.old.files }
        ensures held { length self.new.held.items ≡ length self.old.held.items }
        ensures rules { self.new.rules ≡ self.old.rules }
    {
        if let Some(held) = self.held.get_mut(at) {
            held.is_kept = true;
        }
    }

    /// The file at this place is gone.
    fn forget(&mut self, at: usize)
        ensures files { self.new.files ≡ self.old.files }
        ensures held { at < length self.old.held.items → length self.new.held.items + 1 ≡ length self.old.held.items }
        ensures rules { self.new.rules ≡ self.old.rules }
    {
        if at < self.held.len() {
            self.held.remove(at);
        }
    }
}
