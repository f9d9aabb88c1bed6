//! A disk that answers reads of its last bytes from memory.
ghost use Rattle.std.specs.Prelude.{◌≡◌, ◌⊎◌, ◌↔◌, ◌+◌, ◌-◌, ◌^◌, ◌<◌, ◌≤◌, [], length, take, drop, IfOk, OnOk, OnErr, IsOk, IsErr};
ghost use Rattle.disk_model.specs.Image.{IsWithin, overwritten, after_write, after_cut, settled};
ghost use Rattle.disk_model.specs.Clock.{Elapses};
ghost use Rattle.disk_model.specs.Fault.{HasCause};
ghost use Rattle.disk_tail.specs.Tail.{Holds, tail_at, forgotten, tail_written, tail_cut};
ghost use Rattle.disk_tail.specs.TailDisk.{tail_state};

use crate::tail::Kept;
use disk_model::{Disk, DiskFault, Memory};
use std::alloc::Global;
use std::marker::Model;

/// A disk over another one, which it owns. The last bytes that were written are kept in memory, and reads of them make
/// no call of the disk below.
#[derive(Drop)]
pub struct TailDisk<D: Disk> {
    disk: D,
    kept: Kept,
}

impl<D: Disk> Model for TailDisk<D> {
    ghost use Rattle.disk_tail.specs.TailDisk.{TailState, tail_state, IsRight};

    ghost Value = { TailState D };

    ghost view = { λ t. tail_state t.disk t.kept };

    ghost invariant = { λ t. IsRight D.Disk (tail_state t.disk t.kept) };
}

impl<D: Disk> TailDisk<D> {
    /// Nothing is kept before the first write. Of the bytes that are written one after the other the last `room / 2`
    /// are kept at least, and `room` at most. The memory for them is taken here, and no other later. After `Memory`
    /// the disk is lost.
    pub fn new(alloc: Global, disk: D, room: usize) -> Result<TailDisk<D>, Memory>
    where
        D: Drop,
        ensures { IfOk result (λ t. t ≡ tail_state disk (tail_at 0 [] room)) }
    {
        Ok(TailDisk {
            disk,
            kept: Kept::new(alloc, room)?,
        })
    }

    /// The disk below as it stands.
    pub fn into_disk(self) -> D
        ensures { result ≡ self.disk }
    {
        self.disk
    }
}

impl<D: Disk> Disk for TailDisk<D> {
    ghost state = { λ t. D.Disk.state t.disk };

    ghost is_honest = { λ t. D.Disk.is_honest t.disk };

    ghost moment = { λ t. D.Disk.moment t.disk };

    ghost images_since = { λ t. D.Disk.images_since t.disk };

    ghost failures = { λ t. D.Disk.failures t.disk };

    ghost laws = { λ t. D.Disk.laws t.disk };

    fn len(&mut self) -> Result<u64, DiskFault>
        ensures len { IfOk result (λ n. D.is_honest self.old.disk
            → n ≡ length (D.state self.old.disk).contents) }
        ensures short { IfOk result (λ n. n < 2 ^ 63) }
        ensures same { D.is_honest self.old.disk → D.state self.new.disk ≡ D.state self.old.disk }
        ensures time { D.is_honest self.old.disk
            → Elapses D.moment D.images_since self.old.disk self.new.disk (D.state self.old.disk) }
        ensures honest { D.is_honest self.old.disk ↔ D.is_honest self.new.disk }
        ensures cause { HasCause (D.failures self.old.disk) (D.failures self.new.disk) result }
        ensures tail { self.new.tail ≡ self.old.tail }
    {
        self.disk.len()
    }

    #[tactic(auto, using(crate::proofs::InContents::held_is_read))]
    fn read_at(&mut self, at: u64, buffer: &mut [u8]) -> Result<(), DiskFault>
        requires { D.is_honest self.old.disk
            → at + length buffer.old ≤ length (D.state self.old.disk).contents }
        ensures read { OnOk result (D.is_honest self.old.disk
            → buffer.new ≡ take (length buffer.old) (drop at (D.state self.old.disk).contents)) }
        ensures same { D.is_honest self.old.disk → D.state self.new.disk ≡ D.state self.old.disk }
        ensures time { D.is_honest self.old.disk
            → Elapses D.moment D.images_since self.old.disk self.new.disk (D.state self.old.disk) }
        ensures honest { D.is_honest self.old.disk ↔ D.is_honest self.new.disk }
        ensures cause { HasCause (D.failures self.old.disk) (D.failures self.new.disk) result }
        ensures tail { self.new.tail ≡ self.old.tail }

        // A read that lies in the tail makes no call, and succeeds.
        ensures kept { Holds at (length buffer.old) self.old.tail → IsOk result × (self.new ≡ self.old) }
    {
        if self.kept.read(at, buffer) {
            return Ok(());
        }
        self.disk.read_at(at, buffer)
    }

    #[tactic(auto, using(crate::proofs::InContents::write_goes_on))]
    fn write_at(&mut self, at: u64, bytes: &[u8]) -> Result<(), DiskFault>
        requires { D.is_honest self.old.disk → at ≤ length (D.state self.old.disk).contents }
        ensures written { OnOk result (D.is_honest self.old.disk
            → (D.state self.new.disk).contents ≡ overwritten (D.state self.old.disk).contents at bytes.now) }
        ensures images { D.is_honest self.old.disk
            → IsWithin (D.state self.new.disk) (after_write at (length bytes.now) (D.state self.old.disk)) }
        ensures too_long { 2 ^ 63 ≤ at + length bytes.now → IsErr result × (D.is_honest self.old.disk
            → (D.state self.new.disk ≡ D.state self.old.disk)
            × Elapses D.moment D.images_since self.old.disk self.new.disk (D.state self.old.disk)) }
        ensures time { D.is_honest self.old.disk
            → Elapses D.moment D.images_since self.old.disk self.new.disk
            (after_write at (length bytes.now) (D.state self.old.disk)) }
        ensures honest { D.is_honest self.old.disk ↔ D.is_honest self.new.disk }
        ensures cause { HasCause (D.failures self.old.disk) (D.failures self.new.disk) result }
        ensures tail_ok { OnOk result (self.new.tail ≡ tail_written at bytes.now self.old.tail) }
        ensures tail_err { OnErr result (self.new.tail ≡ forgotten self.old.tail) }
    {
        match self.disk.write_at(at, bytes) {
            Ok(()) => {
                self.kept.write(at, bytes);
                Ok(())
            }
            Err(fault) => {
                self.kept.forget();
                Err(fault)
            }
        }
    }

    #[tactic(auto, using(crate::proofs::InContents::cut_goes_on))]
    fn cut(&mut self, to: u64) -> Result<(), DiskFault>
        requires { D.is_honest self.old.disk → to ≤ length (D.state self.old.disk).contents }
        ensures cut { OnOk result (D.is_honest self.old.disk
            → (D.state self.new.disk).contents ≡ take to (D.state self.old.disk).contents) }
        ensures images { D.is_honest self.old.disk
            → IsWithin (D.state self.new.disk) (after_cut to (D.state self.old.disk)) }
        ensures time { D.is_honest self.old.disk
            → Elapses D.moment D.images_since self.old.disk self.new.disk
            (after_cut to (D.state self.old.disk)) }
        ensures honest { D.is_honest self.old.disk ↔ D.is_honest self.new.disk }
        ensures cause { HasCause (D.failures self.old.disk) (D.failures self.new.disk) result }
        ensures tail_ok { OnOk result (self.new.tail ≡ tail_cut to self.old.tail) }
        ensures tail_err { OnErr result (self.new.tail ≡ forgotten self.old.tail) }
    {
        match self.disk.cut(to) {
            Ok(()) => {
                self.kept.cut(to);
                Ok(())
            }
            Err(fault) => {
                self.kept.forget();
                Err(fault)
            }
        }
    }

    fn sync(&mut self) -> Result<(), DiskFault>
        ensures same { OnOk result (D.is_honest self.old.disk
            → (D.state self.new.disk).contents ≡ (D.state self.old.disk).contents) }
        ensures settled { OnOk result (D.is_honest self.old.disk
            → IsWithin (D.state self.new.disk) (settled (D.state self.old.disk).contents)) }
        ensures images { OnErr result (D.is_honest self.old.disk
            → IsWithin (D.state self.new.disk) (D.state self.old.disk)) }
        ensures time { D.is_honest self.old.disk
            → Elapses D.moment D.images_since self.old.disk self.new.disk (D.state self.old.disk) }
        ensures honest { D.is_honest self.old.disk ↔ D.is_honest self.new.disk }
        ensures cause { HasCause (D.failures self.old.disk) (D.failures self.new.disk) result }
        ensures tail_ok { OnOk result (self.new.tail ≡ self.old.tail) }
        ensures tail_err { OnErr result (self.new.tail ≡ forgotten self.old.tail) }
    {
        match self.disk.sync() {
            Ok(()) => Ok(()),
            Err(fault) => {
                self.kept.forget();
                Err(fault)
            }
        }
    }
}
