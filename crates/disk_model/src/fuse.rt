//! A disk that fails at a chosen call, or from one on.
ghost use Rattle.std.specs.Prelude.{◌≡◌, ◌⊎◌, ◌↔◌, ◌+◌, ◌-◌, ◌^◌, ◌<◌, ◌≤◌, min, length, take, drop, IfOk, OnOk, OnErr, IsErr, IsTrue};
ghost use Rattle.disk_model.specs.Image.{IsWithin, overwritten, after_write, after_cut, settled};
ghost use Rattle.disk_model.specs.Clock.{Elapses};
ghost use Rattle.disk_model.specs.Fault.{HasCause};
ghost use Rattle.disk_model.specs.Fuse.{blows_after};

use crate::{Disk, DiskFault};

#[derive(Clone, Copy, Debug, PartialEq, Eq)]
enum Fuse {
    StopAfter(u64),
    FailOnce(u64),
}

#[derive(Drop)]
pub struct FuseDisk<D: Disk> {
    disk: D,
    fuse: Fuse,
    made: u64,
    failures: u64,
}

impl<D: Disk> FuseDisk<D> {
    ghost use Rattle.disk_model.specs.Fuse.{blows_after};
    ghost use Rattle.disk_model.specs.FuseDisk.{disk_of, fuse_of, calls_made, own_failures};

    /// Every call after the first `calls` fails and does nothing.
    pub fn stop_after(disk: D, calls: u64) -> FuseDisk<D>
        ensures disk { disk_of result ≡ disk }
        ensures fuse { fuse_of result ≡ Fuse.StopAfter calls }
        ensures made { calls_made result ≡ 0 }
        ensures failures { own_failures result ≡ 0 }
    {
        FuseDisk::over(disk, Fuse::StopAfter(calls))
    }

    /// One call, counted from 1, fails and does nothing.
    pub fn fail_once(disk: D, call: u64) -> FuseDisk<D>
        ensures disk { disk_of result ≡ disk }
        ensures fuse { fuse_of result ≡ Fuse.FailOnce call }
        ensures made { calls_made result ≡ 0 }
        ensures failures { own_failures result ≡ 0 }
    {
        FuseDisk::over(disk, Fuse::FailOnce(call))
    }

    /// No call is made yet.
    fn over(disk: D, fuse: Fuse) -> FuseDisk<D>
        ensures disk { disk_of result ≡ disk }
        ensures fuse { fuse_of result ≡ fuse }
        ensures made { calls_made result ≡ 0 }
        ensures failures { own_failures result ≡ 0 }
    {
        FuseDisk {
            disk,
            fuse,
            made: 0,
            failures: 0,
        }
    }

    /// The disk as it stands.
    pub fn into_inner(self) -> D
        ensures { result ≡ disk_of self }
    {
        let FuseDisk { disk, .. } = self;
        disk
    }
}

/// Counts a call, and fails if the fuse blows.
fn spend(fuse: &Fuse, made: &mut u64, failures: &mut u64) -> Result<(), DiskFault>
    ensures blown { IsErr result ↔ IsTrue (blows_after fuse.now made.old) }
    ensures made { made.new ≡ min (made.old + 1) (2 ^ 64 - 1) }
    ensures later { failures.old ≤ failures.new }
    ensures rises { OnErr result ((failures.old < failures.new) ⊎ (failures.new ≡ 2 ^ 64 - 1)) }
    ensures same { OnOk result (failures.new ≡ failures.old) }
{
    let blown = match fuse {
        Fuse::StopAfter(calls) => *calls <= *made,
        Fuse::FailOnce(call) => *call > *made && *call - *made == 1,
    };
    *made = made.saturating_add(1);
    if blown {
        *failures = failures.saturating_add(1);
        return Err(DiskFault);
    }
    Ok(())
}

impl<D: Disk> Disk for FuseDisk<D> {
    ghost use Rattle.disk_model.specs.FuseDisk.{disk_of, failures_of, Spends};

    ghost state = { λ f. D.Disk.state f.disk };

    ghost is_honest = { λ f. D.Disk.is_honest f.disk };

    ghost moment = { λ f. D.Disk.moment f.disk };

    ghost images_since = { λ f. D.Disk.images_since f.disk };

    ghost failures = { failures_of D.Disk.failures };

    ghost laws = { λ f. D.Disk.laws f.disk };

    fn len(&mut self) -> Result<u64, DiskFault>
        ensures len { IfOk result (λ n. D.is_honest (disk_of self.old)
            → n ≡ length (D.state (disk_of self.old)).contents) }
        ensures short { IfOk result (λ n. n < 2 ^ 63) }
        ensures same { D.is_honest (disk_of self.old)
            → D.state (disk_of self.new) ≡ D.state (disk_of self.old) }
        ensures time { D.is_honest (disk_of self.old)
            → Elapses D.moment D.images_since (disk_of self.old) (disk_of self.new)
            (D.state (disk_of self.old)) }
        ensures honest { D.is_honest (disk_of self.old) ↔ D.is_honest (disk_of self.new) }
        ensures cause { HasCause (failures_of D.failures self.old) (failures_of D.failures self.new) result }
        ensures spends { Spends D.failures self.old self.new result }
    {
        spend(&self.fuse, &mut self.made, &mut self.failures)?;
        self.disk.len()
    }

    fn read_at(&mut self, at: u64, buffer: &mut [u8]) -> Result<(), DiskFault>
        requires { D.is_honest (disk_of self.old)
            → at + length buffer.old ≤ length (D.state (disk_of self.old)).contents }
        ensures read { OnOk result (D.is_honest (disk_of self.old)
            → buffer.new ≡ take (length buffer.old) (drop at (D.state (disk_of self.old)).contents)) }
        ensures same { D.is_honest (disk_of self.old)
            → D.state (disk_of self.new) ≡ D.state (disk_of self.old) }
        ensures time { D.is_honest (disk_of self.old)
            → Elapses D.moment D.images_since (disk_of self.old) (disk_of self.new)
            (D.state (disk_of self.old)) }
        ensures honest { D.is_honest (disk_of self.old) ↔ D.is_honest (disk_of self.new) }
        ensures cause { HasCause (failures_of D.failures self.old) (failures_of D.failures self.new) result }
        ensures spends { Spends D.failures self.old self.new result }
    {
        spend(&self.fuse, &mut self.made, &mut self.failures)?;
        self.disk.read_at(at, buffer)
    }

    fn write_at(&mut self, at: u64, bytes: &[u8]) -> Result<(), DiskFault>
        requires { D.is_honest (disk_of self.old) → at ≤ length (D.state (disk_of self.old)).contents }
        ensures written { OnOk result (D.is_honest (disk_of self.old)
            → (D.state (disk_of self.new)).contents ≡ overwritten (D.state (disk_of self.old)).contents at bytes.now) }
        ensures images { D.is_honest (disk_of self.old)
            → IsWithin (D.state (disk_of self.new)) (after_write at (length bytes.now) (D.state (disk_of self.old))) }
        ensures too_long { 2 ^ 63 ≤ at + length bytes.now → IsErr result × (D.is_honest (disk_of self.old)
            → (D.state (disk_of self.new) ≡ D.state (disk_of self.old))
            × Elapses D.moment D.images_since (disk_of self.old) (disk_of self.new)
            (D.state (disk_of self.old))) }
        ensures time { D.is_honest (disk_of self.old)
            → Elapses D.moment D.images_since (disk_of self.old) (disk_of self.new)
            (after_write at (length bytes.now) (D.state (disk_of self.old))) }
        ensures honest { D.is_honest (disk_of self.old) ↔ D.is_honest (disk_of self.new) }
        ensures cause { HasCause (failures_of D.failures self.old) (failures_of D.failures self.new) result }
        ensures spends { Spends D.failures self.old self.new result }
    {
        spend(&self.fuse, &mut self.made, &mut self.failures)?;
        self.disk.write_at(at, bytes)
    }

    fn cut(&mut self, to: u64) -> Result<(), DiskFault>
        requires { D.is_honest (disk_of self.old) → to ≤ length (D.state (disk_of self.old)).contents }
        ensures cut { OnOk result (D.is_honest (disk_of self.old)
            → (D.state (disk_of self.new)).contents ≡ take to (D.state (disk_of self.old)).contents) }
        ensures images { D.is_honest (disk_of self.old)
            → IsWithin (D.state (disk_of self.new)) (after_cut to (D.state (disk_of self.old))) }
        ensures time { D.is_honest (disk_of self.old)
            → Elapses D.moment D.images_since (disk_of self.old) (disk_of self.new)
            (after_cut to (D.state (disk_of self.old))) }
        ensures honest { D.is_honest (disk_of self.old) ↔ D.is_honest (disk_of self.new) }
        ensures cause { HasCause (failures_of D.failures self.old) (failures_of D.failures self.new) result }
        ensures spends { Spends D.failures self.old self.new result }
    {
        spend(&self.fuse, &mut self.made, &mut self.failures)?;
        self.disk.cut(to)
    }

    fn sync(&mut self) -> Result<(), DiskFault>
        ensures same { OnOk result (D.is_honest (disk_of self.old)
            → (D.state (disk_of self.new)).contents ≡ (D.state (disk_of self.old)).contents) }
        ensures settled { OnOk result (D.is_honest (disk_of self.old)
            → IsWithin (D.state (disk_of self.new)) (settled (D.state (disk_of self.old)).contents)) }
        ensures images { OnErr result (D.is_honest (disk_of self.old)
            → IsWithin (D.state (disk_of self.new)) (D.state (disk_of self.old))) }
        ensures time { D.is_honest (disk_of self.old)
            → Elapses D.moment D.images_since (disk_of self.old) (disk_of self.new)
            (D.state (disk_of self.old)) }
        ensures honest { D.is_honest (disk_of self.old) ↔ D.is_honest (disk_of self.new) }
        ensures cause { HasCause (failures_of D.failures self.old) (failures_of D.failures self.new) result }
        ensures spends { Spends D.failures self.old self.new result }
    {
        spend(&self.fuse, &mut self.made, &mut self.failures)?;
        self.disk.sync()
    }
}
