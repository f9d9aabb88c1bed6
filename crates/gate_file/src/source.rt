//! A disk as a source of pages.
ghost use Rattle.std.specs.Prelude.{◌≡◌, ◌↔◌, ◌+◌, ◌≤◌, length, take, drop, OnOk};
ghost use Rattle.gate_file.specs.DiskSource.{SourceState, source_state};
ghost use Rattle.gate_file.specs.Reading.{OnlyReads, nothing_read, reads_then};

use disk_model::Disk;
use ogg_page::{PageSource, SourceFault};
use std::marker::Model;

/// A disk, and the length that it reported.
#[derive(Drop)]
pub(crate) struct DiskSource<D: Disk> {
    disk: D,
    size: u64,
}

impl<D: Disk> Model for DiskSource<D> {
    ghost use Rattle.std.specs.Prelude.{◌≡◌, length};
    ghost use Rattle.gate_file.specs.DiskSource.{SourceState, source_state};

    ghost Value = { SourceState D };

    ghost view = { λ s. source_state s.disk s.size };

    ghost invariant = { λ s. D.is_honest s.disk → length (D.state s.disk).contents ≡ s.size };
}

impl<D: Disk> DiskSource<D> {
    /// A source of all bytes of the disk.
    pub(crate) fn of(disk: D, size: u64) -> DiskSource<D>
        requires { D.is_honest disk → length (D.state disk).contents ≡ size }
        ensures { result ≡ source_state disk size }
    {
        DiskSource { disk, size }
    }

    /// The disk as it stands.
    pub(crate) fn into_disk(self) -> D
        ensures { result ≡ self.disk }
    {
        self.disk
    }
}

impl<D: Disk> PageSource for DiskSource<D> {
    ghost use Rattle.std.specs.Prelude.{◌≡◌, length};
    ghost use Rattle.gate_file.specs.Reading.{OnlyReads, nothing_read, reads_then};

    ghost bytes = { λ s. (D.state s.disk).contents };

    ghost size = { λ s. s.size };

    ghost is_honest = { λ s. D.is_honest s.disk × (length (D.state s.disk).contents ≡ s.size) };

    ghost failures = { λ s. D.failures s.disk };

    ghost only_reads = { λ old new. OnlyReads D.Disk old.disk new.disk };

    fn end(&self) -> u64 {
        self.size
    }

    fn read_at(&mut self, at: u64, buffer: &mut [u8]) -> Result<(), SourceFault> {
        match self.disk.read_at(at, buffer) {
            Ok(()) => Ok(()),
            Err(_) => Err(SourceFault),
        }
    }

    ghost fits = { λ s h. h.1 };

    ghost reads_nothing = { λ s. nothing_read _ s.disk
        (λ h image since. (D.laws s.disk h).only_now image since) };

    ghost reads_on = { λ a b c first second. reads_then _ a.disk b.disk c.disk first second };
}
