//! A file whose committed bytes grow by whole appends.
ghost use Rattle.std.specs.Prelude.{◌≡◌, ◌≢◌, ◌↔◌, ◌⊎◌, ◌+◌, ◌-◌, ◌^◌, ◌<◌, ◌≤◌, ◌++◌, [], ℕ, length, take, drop, true, false, OnOk, OnErr, IfOk, IfErr, IsErr, ⊤};
ghost use Rattle.disk_model.specs.Image.{IsSettled};
ghost use Rattle.disk_model.specs.Leaving.{LeavesOnly};
ghost use Rattle.disk_model.specs.Fault.{HasCause, Rises};
ghost use Rattle.disk_model.specs.Frame.{Frame};
ghost use Rattle.gate_file.specs.Commit.{ArePages, CommitsTo, CommitsToEither};
ghost use Rattle.gate_file.specs.Gate.{IsAppend, IsReadyAt, EachImage, pages_in};
ghost use Rattle.gate_file.specs.GateFile.{committed, staged_bytes};
ghost use Rattle.gate_file.specs.Reading.{OnlyReads};

use crate::committing::{append_pages, commit_staged};
use crate::sealing::{commit_cut, cut_behind};
use crate::staging::{stage_last_pages, stage_pages};
use disk_model::{Disk, DiskFault};
use std::marker::Model;

/// Whether the disk has this many bytes.
fn has_bytes<D: Disk>(disk: &mut D, count: u64) -> bool
    ensures short { result ≡ true → count < 2 ^ 63 }
    ensures yes { result ≡ true → D.is_honest disk.old → count ≤ length (D.state disk.old).contents }
    ensures no { result ≡ false → D.is_honest disk.old
        → Rises (D.failures disk.old) (D.failures disk.new) ⊎ (length (D.state disk.old).contents < count) }
    ensures reads { OnlyReads D.Disk disk.old disk.new }
{
    match disk.len() {
        Ok(length) => count <= length,
        Err(DiskFault) => false,
    }
}

/// A file whose committed bytes grow by whole appends, and by whole groups of pages that are staged and then
/// committed. It owns its disk. Once a write or a sync has failed, the file has failed: it can still be read and
/// given back.
#[derive(Drop)]
pub struct GateFile<D: Disk> {
    disk: D,
    end: u64,
    staged: u64,
    whole: bool,
    failed: bool,
}

impl<D: Disk> Model for GateFile<D> {
    ghost use Rattle.gate_file.specs.GateFile.{GateState, gate_state, IsKept};

    ghost Value = { GateState D };

    ghost view = { λ f. gate_state f.disk f.end f.staged f.whole f.failed };

    ghost invariant = { λ f. IsKept D.Disk (gate_state f.disk f.end f.staged f.whole f.failed) };
}

impl<D: Disk> GateFile<D> {
    ghost use Rattle.gate_file.specs.GateFile.{gate_state};

    /// A file whose committed bytes end here, with a closed byte after them.
    pub(crate) fn at(disk: D, end: u64) -> GateFile<D>
        requires short { end < 2 ^ 63 }
        requires ready { D.is_honest disk → IsReadyAt end (D.state disk) }
        ensures { result ≡ gate_state disk end 0 false false }
    {
        GateFile {
            disk,
            end,
            staged: 0,
            whole: false,
            failed: false,
        }
    }

    /// A file that is only read: the first `end` bytes of the disk are committed, and like one that has failed it takes
    /// no pages. The disk is given back if it is shorter, or has failed.
    pub fn to_read(disk: D, end: u64) -> Result<GateFile<D>, D>
        ensures reads { IfOk result (λ file. (file ≡ gate_state file.disk end 0 false true) × OnlyReads D.Disk disk file.disk) }
        ensures back { IfErr result (λ back. OnlyReads D.Disk disk back) }
        ensures cause { IfErr result (λ back. D.is_honest disk
            → Rises (D.failures disk) (D.failures back) ⊎ (length (D.state disk).contents < end)) }
    {
        let mut disk = disk;
        if !has_bytes(&mut disk, end) {
            return Err(disk);
        }
        Ok(GateFile {
            disk,
            end,
            staged: 0,
            whole: false,
            failed: true,
        })
    }

    /// The length of the committed bytes.
    pub fn end(&self) -> u64
        ensures end { result ≡ self.now.end }
        ensures inside { D.is_honest self.now.disk → self.now.end ≤ length (D.state self.now.disk).contents }
    {
        self.end
    }

    /// Whether a write or a sync has failed.
    pub fn is_failed(&self) -> bool
        ensures { result ≡ self.now.failed }
    {
        self.failed
    }

    /// How many bytes are staged.
    pub fn staged(&self) -> u64
        ensures { result ≡ self.now.staged }
    {
        self.staged
    }

    /// Whether the last page is staged, so that what is staged can be committed.
    pub fn is_whole(&self) -> bool
        ensures { result ≡ self.now.whole }
    {
        self.whole
    }

    /// The disk as it stands. What is staged is lost.
    pub fn give_back(self) -> D
        ensures { result ≡ self.disk }
    {
        self.disk
    }

    /// Fills the buffer with committed bytes from `from` on, after a fault too. If the read fails the buffer may hold
    /// anything, and the file hasn't failed.
    pub fn read(&mut self, from: u64, buffer: &mut [u8]) -> Result<(), DiskFault>
        requires { from + length buffer.old ≤ self.old.end }
        ensures read { OnOk result (D.is_honest self.old.disk
            → buffer.new ≡ take (length buffer.old) (drop from (committed D.state self.old))) }
        ensures reads { OnlyReads D.Disk self.old.disk self.new.disk }
        ensures same { self.new ≡ gate_state self.new.disk self.old.end self.old.staged self.old.whole self.old.failed }
        ensures cause { HasCause (D.failures self.old.disk) (D.failures self.new.disk) result }
    {
        self.disk.read_at(from, buffer)
    }

    /// Commits one page or more, by four calls of the disk: a write, a sync, the write of the one byte that decides,
    /// a sync. In the slice one byte 00 follows the pages. After a fault the file has failed, and opening finds the
    /// bytes that were committed before, without these pages or with them.
    pub fn append(&mut self, bytes: &[u8]) -> Result<(), DiskFault>
        requires pages { IsAppend bytes.now }
        requires good { self.old.failed ≡ false }
        requires none { self.old.staged ≡ 0 }

        ensures failed { self.new.failed ≡ true ↔ IsErr result }
        ensures none { OnOk result (self.new.staged ≡ 0) }
        ensures end { OnOk result (self.new.end ≡ self.old.end + length (pages_in bytes.now)) }
        ensures end_err { OnErr result (self.new.end ≡ self.old.end) }
        ensures grown { OnOk result (D.is_honest self.old.disk
            → committed D.state self.new ≡ committed D.state self.old ++ pages_in bytes.now) }

        // The committed bytes stay in front, after a fault too.
        ensures front { D.is_honest self.old.disk
            → take self.old.end (D.state self.new.disk).contents ≡ committed D.state self.old }

        // Every image since the call began commits to the bytes before, without the pages or with them; in the end
        // with them.
        ensures any_moment { D.is_honest self.old.disk → LeavesOnly D.Disk self.old.disk self.new.disk
            (CommitsToEither (committed D.state self.old) (pages_in bytes.now)) }
        ensures only { OnOk result (D.is_honest self.old.disk → EachImage (D.state self.new.disk)
            (CommitsTo (committed D.state self.old ++ pages_in bytes.now))) }
        ensures frame { Frame D.Disk self.old.disk self.new.disk (IsErr result) }
    {
        self.failed = true;
        append_pages(&mut self.disk, self.end, bytes)?;
        self.end += bytes.len() as u64 - 1;
        self.failed = false;
        Ok(())
    }

    /// Stages pages after those that are staged, by one write. The pages count once the last ones are staged and
    /// committed. After a fault the file has failed, and what was staged is lost.
    pub fn stage(&mut self, pages: &[u8]) -> Result<(), DiskFault>
        requires pages { ArePages pages.now }
        requires some { pages.now ≢ [] }
        requires good { self.old.failed ≡ false }

        ensures failed { self.new.failed ≡ true ↔ IsErr result }
        ensures whole { OnOk result (self.new.whole ≡ false) }
        ensures size { OnOk result (self.new.staged ≡ self.old.staged + length pages.now) }
        ensures end { self.new.end ≡ self.old.end }
        ensures staged { OnOk result (D.is_honest self.old.disk
            → staged_bytes D.state self.new ≡ staged_bytes D.state self.old ++ pages.now) }
        ensures front { D.is_honest self.old.disk → committed D.state self.new ≡ committed D.state self.old }

        // Every image since the call began commits to the bytes before.
        ensures any_moment { D.is_honest self.old.disk → LeavesOnly D.Disk self.old.disk self.new.disk
            (CommitsTo (committed D.state self.old)) }
        ensures frame { Frame D.Disk self.old.disk self.new.disk (IsErr result) }
    {
        self.failed = true;
        stage_pages(&mut self.disk, self.end, self.staged, pages)?;
        self.staged += pages.len() as u64;
        self.whole = false;
        self.failed = false;
        Ok(())
    }

    /// Stages the last pages, by one write. In the slice one byte 00 follows them. The staged pages can be
    /// committed then, or further pages can be staged, which are written over that byte. After a fault the file has
    /// failed, and what was staged is lost.
    pub fn stage_last(&mut self, bytes: &[u8]) -> Result<(), DiskFault>
        requires pages { IsAppend bytes.now }
        requires good { self.old.failed ≡ false }

        ensures failed { self.new.failed ≡ true ↔ IsErr result }
        ensures whole { OnOk result (self.new.whole ≡ true) }
        ensures size { OnOk result (self.new.staged ≡ self.old.staged + length (pages_in bytes.now)) }
        ensures end { self.new.end ≡ self.old.end }
        ensures staged { OnOk result (D.is_honest self.old.disk
            → staged_bytes D.state self.new ≡ staged_bytes D.state self.old ++ pages_in bytes.now) }
        ensures front { D.is_honest self.old.disk → committed D.state self.new ≡ committed D.state self.old }

        // Every image since the call began commits to the bytes before.
        ensures any_moment { D.is_honest self.old.disk → LeavesOnly D.Disk self.old.disk self.new.disk
            (CommitsTo (committed D.state self.old)) }
        ensures frame { Frame D.Disk self.old.disk self.new.disk (IsErr result) }
    {
        self.failed = true;
        stage_last_pages(&mut self.disk, self.end, self.staged, bytes)?;
        self.staged += bytes.len() as u64 - 1;
        self.whole = true;
        self.failed = false;
        Ok(())
    }

    /// Commits what is staged, by three calls of the disk: a sync, the write of the one byte that decides, a sync.
    /// After a fault the file has failed, and opening finds the bytes that were committed before, without the
    /// staged ones or with all of them.
    pub fn commit(&mut self) -> Result<(), DiskFault>
        requires good { self.old.failed ≡ false }
        requires whole { self.old.whole ≡ true }

        ensures failed { self.new.failed ≡ true ↔ IsErr result }
        ensures none { OnOk result (self.new.staged ≡ 0) }
        ensures end { OnOk result (self.new.end ≡ self.old.end + self.old.staged) }
        ensures end_err { OnErr result (self.new.end ≡ self.old.end) }
        ensures grown { OnOk result (D.is_honest self.old.disk
            → committed D.state self.new ≡ committed D.state self.old ++ staged_bytes D.state self.old) }
        ensures front { D.is_honest self.old.disk
            → take self.old.end (D.state self.new.disk).contents ≡ committed D.state self.old }

        // Every image since the call began commits to the bytes before, without the staged ones or with them; in
        // the end with them.
        ensures any_moment { D.is_honest self.old.disk → LeavesOnly D.Disk self.old.disk self.new.disk
            (CommitsToEither (committed D.state self.old) (staged_bytes D.state self.old)) }
        ensures only { OnOk result (D.is_honest self.old.disk → EachImage (D.state self.new.disk)
            (CommitsTo (committed D.state self.old ++ staged_bytes D.state self.old))) }
        ensures frame { Frame D.Disk self.old.disk self.new.disk (IsErr result) }
    {
        self.failed = true;
        commit_staged(&mut self.disk, self.end, self.staged)?;
        self.end += self.staged;
        self.staged = 0;
        self.whole = false;
        self.failed = false;
        Ok(())
    }

    /// Commits what is staged, if anything is, and cuts the file to its committed bytes, by four calls of the disk: a cut
    /// of what follows the staged bytes, a sync, the write of the one byte that decides, a sync. So it takes a sync less
    /// than `commit` and then `seal`. After a fault the file has failed, and opening finds the bytes that were committed
    /// before, without the staged ones or with all of them.
    pub fn commit_and_seal(self) -> Result<D, (DiskFault, GateFile<D>)>
        requires good { self.failed ≡ false }
        requires whole { self.staged ≢ 0 → self.whole ≡ true }

        ensures sealed { IfOk result (λ disk. D.is_honest self.disk
            → IsSettled (D.state disk)
            × ((D.state disk).contents ≡ committed D.state self ++ staged_bytes D.state self)) }
        ensures failed { IfErr result (λ e. e.1 ≡ gate_state e.1.disk self.end self.staged self.whole true) }
        ensures front { IfErr result (λ e. D.is_honest self.disk
            → committed D.state e.1 ≡ committed D.state self) }

        // Every image since the call began commits to the bytes before, without the staged ones or with them.
        ensures any_moment { IfOk result (λ disk. D.is_honest self.disk
            → LeavesOnly D.Disk self.disk disk
            (CommitsToEither (committed D.state self) (staged_bytes D.state self))) }
        ensures any_moment_err { IfErr result (λ e. D.is_honest self.disk
            → LeavesOnly D.Disk self.disk e.1.disk
            (CommitsToEither (committed D.state self) (staged_bytes D.state self))) }
        ensures only { IfOk result (λ disk. D.is_honest self.disk → EachImage (D.state disk)
            (CommitsTo (committed D.state self ++ staged_bytes D.state self))) }
        ensures frame { IfOk result (λ disk. Frame D.Disk self.disk disk ⊥) }
        ensures frame_err { IfErr result (λ e. Frame D.Disk self.disk e.1.disk ⊤) }
    {
        let mut file = self;
        file.failed = true;
        match commit_cut(&mut file.disk, file.end, file.staged) {
            Ok(()) => Ok(file.give_back()),
            Err(fault) => Err((fault, file)),
        }
    }

    /// Cuts the file to its committed bytes and syncs. After a fault the disk is given back: opening finds the same
    /// bytes.
    pub fn seal(self) -> Result<D, (DiskFault, D)>
        requires good { self.failed ≡ false }
        requires none { self.staged ≡ 0 }

        ensures sealed { IfOk result (λ disk. D.is_honest self.disk
            → IsSettled (D.state disk) × ((D.state disk).contents ≡ committed D.state self)) }
        ensures front { IfErr result (λ e. D.is_honest self.disk
            → take self.end (D.state e.1).contents ≡ committed D.state self) }

        // Every image since the call began commits to the same bytes.
        ensures any_moment { IfOk result (λ disk. D.is_honest self.disk
            → LeavesOnly D.Disk self.disk disk (CommitsTo (committed D.state self))) }
        ensures any_moment_err { IfErr result (λ e. D.is_honest self.disk
            → LeavesOnly D.Disk self.disk e.1 (CommitsTo (committed D.state self))) }
        ensures frame { IfOk result (λ disk. Frame D.Disk self.disk disk ⊥) }
        ensures frame_err { IfErr result (λ e. Frame D.Disk self.disk e.1 ⊤) }
    {
        let GateFile { mut disk, end, .. } = self;
        match cut_behind(&mut disk, end) {
            Ok(()) => Ok(disk),
            Err(fault) => Err((fault, disk)),
        }
    }
}
