//! A disk as its callers see it.
ghost use Rattle.std.specs.Prelude.{◌≡◌, ◌⊎◌, ◌↔◌, ◌+◌, ◌-◌, ◌^◌, ◌<◌, ◌≤◌, ℕ, List, length, take, drop, IfOk, OnOk, OnErr, IsErr};
ghost use Rattle.disk_model.specs.Image.{DiskState, IsWithin, overwritten, after_write, after_cut, settled};
ghost use Rattle.disk_model.specs.Clock.{Elapses, HasImages};
ghost use Rattle.disk_model.specs.Fault.{HasCause};

use thiserror::Error;

/// A disk holds at most this many bytes.
pub(crate) const MAX_LENGTH: u64 = (1 << 63) - 1;

/// The disk has failed.
#[derive(Clone, Copy, Debug, PartialEq, Eq, Error)]
#[error("the disk failed")]
pub struct DiskFault;

/// A disk. What it says of contents and images holds if it is honest; that a fault has a cause holds always.
pub trait Disk {
    /// What a read returns, and what bounds the images that a stop may leave now.
    ghost state: { Self → DiskState };

    ghost is_honest: { Self → Type 0 };

    /// The moment, as a number that doesn't fall.
    ghost moment: { Self → ℕ };

    /// The images that there have been since a moment, inside a call or between two.
    ghost images_since: { Self → ℕ → List ℕ → Type 0 };

    /// How often it has failed.
    ghost failures: { Self → ℕ };

    fn len(&mut self) -> Result<u64, DiskFault>
        ensures len { IfOk result (λ n. is_honest self.old → n ≡ length (state self.old).contents) }
        ensures short { IfOk result (λ n. n < 2 ^ 63) }
        ensures same { is_honest self.old → state self.new ≡ state self.old }
        ensures time { is_honest self.old
            → Elapses moment images_since self.old self.new (state self.old) }
        ensures honest { is_honest self.old ↔ is_honest self.new }
        ensures cause { HasCause (failures self.old) (failures self.new) result };

    /// Fills the buffer with what stands at `at`. After a fault the buffer may hold anything.
    fn read_at(&mut self, at: u64, buffer: &mut [u8]) -> Result<(), DiskFault>
        requires { is_honest self.old
            → at + length buffer.old ≤ length (state self.old).contents }
        ensures read { OnOk result (is_honest self.old
            → buffer.new ≡ take (length buffer.old) (drop at (state self.old).contents)) }
        ensures same { is_honest self.old → state self.new ≡ state self.old }
        ensures time { is_honest self.old
            → Elapses moment images_since self.old self.new (state self.old) }
        ensures honest { is_honest self.old ↔ is_honest self.new }
        ensures cause { HasCause (failures self.old) (failures self.new) result };

    /// A write that fails counts as having written its range. One that would pass 2^63 - 1 fails and does nothing.
    fn write_at(&mut self, at: u64, bytes: &[u8]) -> Result<(), DiskFault>
        requires { is_honest self.old → at ≤ length (state self.old).contents }
        ensures written { OnOk result (is_honest self.old
            → (state self.new).contents ≡ overwritten (state self.old).contents at bytes.now) }
        ensures images { is_honest self.old
            → IsWithin (state self.new) (after_write at (length bytes.now) (state self.old)) }
        ensures too_long { 2 ^ 63 ≤ at + length bytes.now → IsErr result × (is_honest self.old
            → (state self.new ≡ state self.old)
            × Elapses moment images_since self.old self.new (state self.old)) }
        ensures time { is_honest self.old → Elapses moment images_since self.old self.new
            (after_write at (length bytes.now) (state self.old)) }
        ensures honest { is_honest self.old ↔ is_honest self.new }
        ensures cause { HasCause (failures self.old) (failures self.new) result };

    /// Shortens the disk. A cut that fails counts as having reached its length.
    fn cut(&mut self, to: u64) -> Result<(), DiskFault>
        requires { is_honest self.old → to ≤ length (state self.old).contents }
        ensures cut { OnOk result (is_honest self.old
            → (state self.new).contents ≡ take to (state self.old).contents) }
        ensures images { is_honest self.old
            → IsWithin (state self.new) (after_cut to (state self.old)) }
        ensures time { is_honest self.old → Elapses moment images_since self.old self.new
            (after_cut to (state self.old)) }
        ensures honest { is_honest self.old ↔ is_honest self.new }
        ensures cause { HasCause (failures self.old) (failures self.new) result };

    /// After a sync that succeeds the contents are the only image. One that fails leaves no new image.
    fn sync(&mut self) -> Result<(), DiskFault>
        ensures same { OnOk result (is_honest self.old
            → (state self.new).contents ≡ (state self.old).contents) }
        ensures settled { OnOk result (is_honest self.old
            → IsWithin (state self.new) (settled (state self.old).contents)) }
        ensures images { OnErr result (is_honest self.old
            → IsWithin (state self.new) (state self.old)) }
        ensures time { is_honest self.old
            → Elapses moment images_since self.old self.new (state self.old) }
        ensures honest { is_honest self.old ↔ is_honest self.new }
        ensures cause { HasCause (failures self.old) (failures self.new) result };

    /// What an honest disk's images are at each moment, whatever its calls.
    ghost laws: { (disk : Self) → is_honest disk
        → HasImages (state disk) (moment disk) (images_since disk) };
}

/// Counts a failure.
pub(crate) fn fail(failures: &mut u64) -> DiskFault
    ensures rises { (failures.old < failures.new) ⊎ (failures.new ≡ 2 ^ 64 - 1) }
    ensures later { failures.old ≤ failures.new }
{
    *failures = failures.saturating_add(1);
    DiskFault
}
