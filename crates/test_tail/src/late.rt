//! A disk that tells a call as failed after it was done.
ghost use Rattle.std.specs.Prelude.{◌≡◌, ◌⊎◌, ◌+◌, ◌-◌, ◌^◌, ◌<◌, ◌≤◌, min, OnOk, OnErr};

use disk_model::{Disk, DiskFault};

/// Over another disk. One write, cut or sync fails. The write or the cut was done, the sync wasn't.
#[derive(Drop)]
pub struct LateDisk<D: Disk> {
    disk: D,
    left: u64,
    failures: u64,
}

impl<D: Disk> LateDisk<D> {
    /// The call with this number fails. The first has the number 1; with 0 none does.
    pub fn over(disk: D, call: u64) -> LateDisk<D> {
        LateDisk {
            disk,
            left: call,
            failures: 0,
        }
    }
}

/// Counts a call, and fails if it is the one.
fn count(left: &mut u64, failures: &mut u64) -> Result<(), DiskFault>
    ensures later { failures.old ≤ failures.new }
    ensures rises { OnErr result ((failures.old < failures.new) ⊎ (failures.new ≡ 2 ^ 64 - 1)) }
    ensures same { OnOk result (failures.new ≡ failures.old) }
{
    let last = *left == 1;
    *left = left.saturating_sub(1);
    if last {
        *failures = failures.saturating_add(1);
        return Err(DiskFault);
    }
    Ok(())
}

impl<D: Disk> Disk for LateDisk<D> {
    ghost state = { λ l. D.Disk.state l.disk };

    ghost is_honest = { λ l. D.Disk.is_honest l.disk };

    ghost moment = { λ l. D.Disk.moment l.disk };

    ghost images_since = { λ l. D.Disk.images_since l.disk };

    ghost failures = { λ l. min (D.Disk.failures l.disk + l.failures) (2 ^ 64 - 1) };

    ghost laws = { λ l. D.Disk.laws l.disk };

    fn len(&mut self) -> Result<u64, DiskFault> {
        self.disk.len()
    }

    fn read_at(&mut self, at: u64, buffer: &mut [u8]) -> Result<(), DiskFault> {
        self.disk.read_at(at, buffer)
    }

    fn write_at(&mut self, at: u64, bytes: &[u8]) -> Result<(), DiskFault> {
        self.disk.write_at(at, bytes)?;
        count(&mut self.left, &mut self.failures)
    }

    fn cut(&mut self, to: u64) -> Result<(), DiskFault> {
        self.disk.cut(to)?;
        count(&mut self.left, &mut self.failures)
    }

    fn sync(&mut self) -> Result<(), DiskFault> {
        count(&mut self.left, &mut self.failures)?;
        self.disk.sync()
    }
}
