//! A file whose committed bytes were found.
ghost use Rattle.std.specs.Prelude.{◌≡◌, ◌↔◌, ◌⊎◌, [], ◌+◌, ◌-◌, ◌^◌, ◌<◌, ◌≤◌, ℕ, length, take, drop, true, false, OnOk, IfOk, IfErr, IsTrue, IsErr, ⊤};
ghost use Rattle.disk_model.specs.Image.{settled};
ghost use Rattle.disk_model.specs.Leaving.{LeavesOnly};
ghost use Rattle.disk_model.specs.Fault.{HasCause};
ghost use Rattle.disk_model.specs.Frame.{Frame};
ghost use Rattle.gate_file.specs.Commit.{CommitsTo};
ghost use Rattle.gate_file.specs.Found.{FoundState, HasEnd, found_bytes, found_state};
ghost use Rattle.gate_file.specs.Gate.{IsReadyAt};
ghost use Rattle.gate_file.specs.GateFile.{committed, gate_state};
ghost use Rattle.gate_file.specs.Reading.{OnlyReads, nothing_read, reads_then};

use crate::steps::write_synced;
use crate::{GateFile, OpenFault};
use disk_model::{Disk, DiskFault};
use ogg_page::{PageSource, SourceFault};
use std::marker::Model;

/// A disk whose committed bytes were found. It is read as a source of their pages, and made ready for writing.
#[derive(Drop)]
pub struct Found<D: Disk> {
    disk: D,
    end: u64,
    tail: u64,
    closed: bool,
}

impl<D: Disk> Model for Found<D> {
    ghost use Rattle.gate_file.specs.Found.{FoundState, IsFound, found_state};

    ghost Value = { FoundState D };

    ghost view = { λ f. found_state f.disk f.end f.tail f.closed };

    ghost invariant = { λ f. IsFound D.Disk (found_state f.disk f.end f.tail f.closed) };
}

impl<D: Disk> Found<D> {
    ghost use Rattle.gate_file.specs.Found.{FoundState, HasEnd, found_bytes, found_state};

    /// The committed bytes end here, and `tail` bytes follow.
    pub(crate) fn at(disk: D, end: u64, tail: u64, closed: bool) -> Found<D>
        requires short { end + tail < 2 ^ 63 }
        requires ends { D.is_honest disk → HasEnd end tail closed (D.state disk) }
        ensures { result ≡ found_state disk end tail closed }
    {
        Found {
            disk,
            end,
            tail,
            closed,
        }
    }

    /// What is found of a disk that was made, so that it is empty whatever stops: nothing. No call of it is made.
    pub fn empty(disk: D) -> Found<D>
        requires { D.is_honest disk → D.state disk ≡ settled [] }
        ensures { result ≡ found_state disk 0 0 false }
    {
        Found::at(disk, 0, 0, false)
    }

    /// The length of the committed bytes.
    pub fn end(&self) -> u64
        ensures end { result ≡ self.now.end }
        ensures ends { D.is_honest self.now.disk
            → HasEnd self.now.end self.now.tail self.now.closed (D.state self.now.disk) }
    {
        self.end
    }

    /// How many bytes follow them. They aren't part of the file's pages, and the next append writes over them.
    pub fn tail(&self) -> u64
        ensures { result ≡ self.now.tail }
    {
        self.tail
    }

    /// The disk as it stands.
    pub fn give_back(self) -> D
        ensures { result ≡ self.disk }
    {
        self.disk
    }

    /// Fills the buffer with committed bytes from `from` on. If the read fails the buffer may hold anything.
    pub fn read(&mut self, from: u64, buffer: &mut [u8]) -> Result<(), DiskFault>
        requires { from + length buffer.old ≤ self.old.end }
        ensures read { OnOk result (D.is_honest self.old.disk
            → buffer.new ≡ take (length buffer.old) (drop from (found_bytes D.state self.old))) }
        ensures reads { OnlyReads D.Disk self.old.disk self.new.disk }
        ensures same { self.new ≡ found_state self.new.disk self.old.end self.old.tail self.old.closed }
        ensures cause { HasCause (D.failures self.old.disk) (D.failures self.new.disk) result }
    {
        self.disk.read_at(from, buffer)
    }

    /// Makes the file ready for pages: if no closed byte follows the committed bytes, one byte 00 is written there
    /// and synced. Otherwise no call of the disk is made. The one fault is `Disk`, and opening then finds the same
    /// bytes.
    pub fn ready(self) -> Result<GateFile<D>, (OpenFault, D)>
        ensures ready { IfOk result (λ file. file ≡ gate_state file.disk self.end 0 false false) }
        ensures same { IfOk result (λ file. D.is_honest self.disk
            → committed D.state file ≡ found_bytes D.state self) }
        ensures front { IfErr result (λ e. D.is_honest self.disk
            → take self.end (D.state e.1).contents ≡ found_bytes D.state self) }

        // Every image since the call began commits to the bytes that were found.
        ensures any_moment { IfOk result (λ file. D.is_honest self.disk
            → LeavesOnly D.Disk self.disk file.disk (CommitsTo (found_bytes D.state self))) }
        ensures any_moment_err { IfErr result (λ e. D.is_honest self.disk
            → LeavesOnly D.Disk self.disk e.1 (CommitsTo (found_bytes D.state self))) }
        ensures fault { IfErr result (λ e. e.0 ≡ OpenFault.Disk) }
        ensures frame { IfOk result (λ file. Frame D.Disk self.disk file.disk ⊥) }
        ensures frame_err { IfErr result (λ e. Frame D.Disk self.disk e.1 ⊤) }
    {
        let Found {
            mut disk,
            end,
            closed,
            ..
        } = self;
        match close_behind(&mut disk, end, closed) {
            Ok(()) => Ok(GateFile::at(disk, end)),
            Err(DiskFault) => Err((OpenFault::Disk, disk)),
        }
    }
}

/// Writes a closed byte after the committed bytes, if there is none.
fn close_behind<D: Disk>(disk: &mut D, end: u64, closed: bool) -> Result<(), DiskFault>
    requires ends { D.is_honest disk.old → (tail : ℕ) × HasEnd end tail closed (D.state disk.old) }
    ensures ready { OnOk result (D.is_honest disk.old → IsReadyAt end (D.state disk.new)) }
    ensures front { D.is_honest disk.old
        → take end (D.state disk.new).contents ≡ take end (D.state disk.old).contents }
    ensures any_moment { D.is_honest disk.old → LeavesOnly D.Disk disk.old disk.new
        (CommitsTo (take end (D.state disk.old).contents)) }
    ensures frame { Frame D.Disk disk.old disk.new (IsErr result) }
{
    if !closed {
        write_synced(disk, end, &[0])?;
    }
    Ok(())
}

impl<D: Disk> PageSource for Found<D> {
    ghost use Rattle.std.specs.Prelude.{◌≡◌, ◌≤◌, length, take};
    ghost use Rattle.gate_file.specs.Found.{found_bytes};
    ghost use Rattle.gate_file.specs.Reading.{OnlyReads, nothing_read, reads_then};

    ghost bytes = { λ f. found_bytes D.state f };

    ghost size = { λ f. f.end };

    ghost is_honest = { λ f. D.is_honest f.disk × (length (found_bytes D.state f) ≡ f.end) };

    ghost failures = { λ f. D.failures f.disk };

    ghost only_reads = { λ old new. OnlyReads D.Disk old.disk new.disk };

    fn end(&self) -> u64 {
        self.end
    }

    fn read_at(&mut self, at: u64, buffer: &mut [u8]) -> Result<(), SourceFault> {
        match self.disk.read_at(at, buffer) {
            Ok(()) => Ok(()),
            Err(_) => Err(SourceFault),
        }
    }

    ghost fits = { λ f h. h.1 };

    ghost reads_nothing = { λ f. nothing_read _ f.disk
        (λ h image since. (D.laws f.disk h).only_now image since) };

    ghost reads_on = { λ a b c first second. reads_then _ a.disk b.disk c.disk first second };
}
