//! The front of a disk, as a source of pages.
ghost use Rattle.std.specs.Prelude.{◌≡◌, ◌↔◌, ◌+◌, ◌≤◌, ◌<◌, ◌^◌, length, min, take, drop, OnErr, OnOk, IfOk, IfErr};
ghost use Rattle.disk_model.specs.Fault.{HasCause};
ghost use Rattle.archive_reading.specs.Prefix.{IsSameDisk, PrefixState, prefix_bytes, prefix_state};
ghost use Rattle.gate_file.specs.Reading.{OnlyReads, nothing_read, reads_then};

use disk_model::{Disk, DiskFault};
use ogg_page::{PageSource, SourceFault};
use std::marker::Model;

/// The front of a disk, which is only read: a source of the pages that stand there.
#[derive(Drop)]
pub struct Prefix<D: Disk> {
    disk: D,
    end: u64,
}

impl<D: Disk> Model for Prefix<D> {
    ghost use Rattle.std.specs.Prelude.{◌≤◌, length};
    ghost use Rattle.archive_reading.specs.Prefix.{PrefixState, prefix_state};

    ghost Value = { PrefixState D };

    ghost view = { λ p. prefix_state p.disk p.end };

    ghost invariant = { λ p. D.is_honest p.disk → p.end ≤ length (D.state p.disk).contents };
}

impl<D: Disk> Prefix<D> {
    /// All bytes that the disk has now. After a fault it is given back.
    pub fn whole(disk: D) -> Result<Prefix<D>, (DiskFault, D)>
        ensures whole { IfOk result (λ p. D.is_honest disk → (D.is_honest p.disk) × (D.state p.disk ≡ D.state disk)
            × (p.end ≡ length (D.state disk).contents)) }
    {
        let mut disk = disk;
        match disk.len() {
            Ok(end) => Ok(Prefix { disk, end }),
            Err(fault) => Err((fault, disk)),
        }
    }

    /// The same up to an earlier end.
    pub fn up_to(self, end: u64) -> Prefix<D>
        requires { end ≤ self.end }
        ensures { result ≡ prefix_state self.disk end }
    {
        Prefix {
            disk: self.disk,
            end,
        }
    }

    /// The disk may have grown: the front has all bytes that it has now, up to this end. After a fault it is as it was.
    pub fn look_again(&mut self, most: u64) -> Result<(), DiskFault>
        ensures again { IfOk result (λ u. D.is_honest self.old.disk → self.new.end ≡ min (length (D.state self.old.disk).contents) most) }
        ensures short { IfOk result (λ u. D.is_honest self.old.disk → length (D.state self.old.disk).contents < 2 ^ 63) }
        ensures same { OnErr result (self.new.end ≡ self.old.end) }
        ensures disk { IsSameDisk D.Disk self.old.disk self.new.disk }
        ensures cause { HasCause (D.failures self.old.disk) (D.failures self.new.disk) result }
    {
        let len = self.disk.len()?;
        self.end = len.min(most);
        Ok(())
    }

    /// The disk as it stands.
    pub fn into_disk(self) -> D
        ensures { result ≡ self.disk }
    {
        self.disk
    }
}

impl<D: Disk> PageSource for Prefix<D> {
    ghost use Rattle.std.specs.Prelude.{◌≡◌, ◌≤◌, length};
    ghost use Rattle.archive_reading.specs.Prefix.{prefix_bytes};
    ghost use Rattle.gate_file.specs.Reading.{OnlyReads, nothing_read, reads_then};

    ghost bytes = { λ p. prefix_bytes D.state p };

    ghost size = { λ p. p.end };

    ghost is_honest = { λ p. D.is_honest p.disk × (length (prefix_bytes D.state p) ≡ p.end) };

    ghost failures = { λ p. D.failures p.disk };

    ghost only_reads = { λ old new. OnlyReads D.Disk old.disk new.disk };

    fn end(&self) -> u64 {
        self.end
    }

    fn read_at(&mut self, at: u64, buffer: &mut [u8]) -> Result<(), SourceFault> {
        match self.disk.read_at(at, buffer) {
            Ok(()) => Ok(()),
            Err(_) => Err(SourceFault),
        }
    }

    ghost fits = { λ p h. h.1 };

    ghost reads_nothing = { λ p. nothing_read _ p.disk
        (λ h image since. (D.laws p.disk h).only_now image since) };

    ghost reads_on = { λ a b c first second. reads_then _ a.disk b.disk c.disk first second };
}
