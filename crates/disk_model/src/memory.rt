//! A disk in memory. It keeps what it held at first and the calls since, so it knows its images at each moment.
ghost use Rattle.std.specs.Prelude.{◌≡◌, ◌⊎◌, ◌↔◌, ◌+◌, ◌-◌, ◌^◌, ◌<◌, ◌≤◌, ℕ, false, [], ◌∷◌, ◌++◌, length, take, drop, slice_get, OnOk, OnErr, IfOk, IsOk, IsErr, IsTrue};
ghost use Rattle.disk_model.specs.Image.{IsImage, disk_state, is_written, overwritten, settled};
ghost use Rattle.disk_model.specs.Calls.{after_calls, was_image_now, only_image_now, was_image_earlier};

use crate::disk::{MAX_LENGTH, fail};
use crate::{Disk, DiskFault};
use std::alloc::Global;

/// Memory was refused.
pub use std::alloc::AllocError as Memory;

/// A call that succeeded and on which the images depend.
#[derive(Drop)]
pub enum Call {
    Write(u64, Vec<u8>),
    Cut(u64),
    Sync,
}

/// A disk in memory. It is honest always, and fails if memory is refused: for the bytes, or for the record of the
/// calls.
#[derive(Drop)]
pub struct MemDisk {
    bytes: Vec<u8>,
    synced: Vec<u8>,
    written: Vec<(u64, u64)>,
    least: u64,
    greatest: u64,
    failures: u64,
    first: Vec<u8>,
    calls: Vec<Call>,
    ghost replayed: { after_calls calls.items (settled first.items)
        ≡ disk_state bytes.items synced.items written.items least greatest },
    ghost stands: { IsImage (disk_state bytes.items synced.items written.items least greatest) bytes.items },
    ghost fits: { greatest < 2 ^ 63 },
}

impl MemDisk {
    ghost use Rattle.disk_model.specs.MemDisk.{state_of, failures_of};

    /// A disk that holds these bytes, all of them synced, and that hasn't failed.
    pub fn of(alloc: Global, bytes: &[u8]) -> Result<MemDisk, Memory>
        ensures settled { IfOk result (λ disk. state_of disk ≡ settled bytes.now) }
        ensures failures { IfOk result (λ disk. failures_of disk ≡ 0) }
    {
        let length = bytes.len() as u64;
        Ok(MemDisk {
            bytes: bytes.to_vec(alloc)?,
            synced: bytes.to_vec(alloc)?,
            written: Vec::new(alloc),
            least: length,
            greatest: length,
            failures: 0,
            first: bytes.to_vec(alloc)?,
            calls: Vec::new(alloc),
        })
    }

    /// What a read returns.
    pub fn contents(&self) -> &[u8]
        ensures { result.now ≡ (state_of self.now).contents }
    {
        &self.bytes
    }

    /// Whether a stop now may leave these bytes.
    pub fn is_image(&self, image: &[u8]) -> bool
        ensures { IsTrue result ↔ IsImage (state_of self.now) image.now }
    {
        let length = image.len() as u64;
        self.least <= length
            && length <= self.greatest
            && agrees(image, &self.written, &self.synced)
    }
}

/// Whether the bytes are the synced ones at each position that wasn't written.
fn agrees(image: &[u8], written: &[(u64, u64)], synced: &[u8]) -> bool
    ensures { IsTrue result ↔ ((k : ℕ) → k < length image.now → is_written written.now k ≡ false
        → slice_get image.now k ≡ slice_get synced.now k) }
{
    for k in 0..image.len() {
        if !is_among(written, k as u64) && image.get(k) != synced.get(k) {
            return false;
        }
    }
    true
}

/// Whether one of the ranges has this position.
fn is_among(ranges: &[(u64, u64)], at: u64) -> bool
    ensures { result ≡ is_written ranges.now at }
{
    ranges
        .iter()
        .any(|range| range.0 <= at && at - range.0 < range.1)
}

impl Disk for MemDisk {
    ghost use Rattle.disk_model.specs.MemDisk.{state_of, moment_of, images_since_of, failures_of};
    ghost use Rattle.disk_model.specs.Image.{written_at, cut_to, after_write, after_cut};
    ghost use Rattle.disk_model.specs.Clock.{Elapses};
    ghost use Rattle.disk_model.specs.Fault.{HasCause};

    ghost state = { state_of };

    ghost is_honest = { λ _. Unit {0} };

    ghost moment = { moment_of };

    ghost images_since = { images_since_of };

    ghost failures = { failures_of };

    ghost laws = { λ m _. record {
      contents_is_image = m.stands;
      counts_now = was_image_now (settled m.first.items) (state_of m) m.calls.items m.replayed;
      only_now = only_image_now (settled m.first.items) (state_of m) m.calls.items m.replayed;
      since_earlier = was_image_earlier (settled m.first.items) m.calls.items;
      fits = m.fits;
    } };

    fn len(&mut self) -> Result<u64, DiskFault>
        ensures len { result ≡ Ok (length (state_of self.old).contents) }
        ensures short { IfOk result (λ n. n < 2 ^ 63) }
        ensures same { self.new ≡ self.old }
    {
        Ok(self.bytes.len() as u64)
    }

    fn read_at(&mut self, at: u64, buffer: &mut [u8]) -> Result<(), DiskFault>
        requires { at + length buffer.old ≤ length (state_of self.old).contents }
        ensures ok { IsOk result }
        ensures read { buffer.new
            ≡ take (length buffer.old) (drop at (state_of self.old).contents) }
        ensures same { self.new ≡ self.old }
    {
        let at = at as usize;
        buffer.copy_from_slice(&self.bytes[at..at + buffer.len()]);
        Ok(())
    }

    fn write_at(&mut self, at: u64, bytes: &[u8]) -> Result<(), DiskFault>
        requires { at ≤ length (state_of self.old).contents }
        ensures ok { OnOk result
            (state_of self.new ≡ written_at at bytes.now (state_of self.old)) }
        ensures err { OnErr result ((state_of self.new ≡ state_of self.old)
            × Elapses moment_of images_since_of self.old self.new (state_of self.old)) }
        ensures too_long { 2 ^ 63 ≤ at + length bytes.now → IsErr result }
        ensures time { Elapses moment_of images_since_of self.old self.new
            (after_write at (length bytes.now) (state_of self.old)) }
        ensures cause { HasCause (failures_of self.old) (failures_of self.new) result }
    {
        let n = bytes.len() as u64;
        if n > MAX_LENGTH - at {
            return Err(fail(&mut self.failures));
        }
        match write(
            &mut self.bytes,
            &mut self.written,
            &mut self.calls,
            at,
            bytes,
        ) {
            Ok(()) => {
                self.greatest = self.greatest.max(at + n);
                Ok(())
            }
            Err(Memory) => Err(fail(&mut self.failures)),
        }
    }

    fn cut(&mut self, to: u64) -> Result<(), DiskFault>
        requires { to ≤ length (state_of self.old).contents }
        ensures ok { OnOk result (state_of self.new ≡ cut_to to (state_of self.old)) }
        ensures err { OnErr result ((state_of self.new ≡ state_of self.old)
            × Elapses moment_of images_since_of self.old self.new (state_of self.old)) }
        ensures time { Elapses moment_of images_since_of self.old self.new
            (after_cut to (state_of self.old)) }
        ensures cause { HasCause (failures_of self.old) (failures_of self.new) result }
    {
        match cut(&mut self.bytes, &mut self.calls, to) {
            Ok(()) => {
                self.least = self.least.min(to);
                Ok(())
            }
            Err(Memory) => Err(fail(&mut self.failures)),
        }
    }

    fn sync(&mut self) -> Result<(), DiskFault>
        ensures ok { OnOk result
            (state_of self.new ≡ settled (state_of self.old).contents) }
        ensures err { OnErr result ((state_of self.new ≡ state_of self.old)
            × Elapses moment_of images_since_of self.old self.new (state_of self.old)) }
        ensures time { Elapses moment_of images_since_of self.old self.new
            (state_of self.old) }
        ensures cause { HasCause (failures_of self.old) (failures_of self.new) result }
    {
        match sync(&self.bytes, &mut self.synced, &mut self.calls) {
            Ok(()) => {
                self.written.clear();
                self.least = self.bytes.len() as u64;
                self.greatest = self.least;
                Ok(())
            }
            Err(Memory) => Err(fail(&mut self.failures)),
        }
    }
}

/// Writes, and notes the range and the call. If memory is refused nothing changes.
fn write(
    file: &mut Vec<u8>,
    written: &mut Vec<(u64, u64)>,
    calls: &mut Vec<Call>,
    at: u64,
    bytes: &[u8],
) -> Result<(), Memory>
    requires { at ≤ length file.old.items }
    ensures ok { OnOk result (file.new.items ≡ overwritten file.old.items at bytes.now) }
    ensures noted { OnOk result
        (written.new.items ≡ written.old.items ++ (at, length bytes.now) ∷ []) }
    ensures recorded { OnOk result ((copy : _) × (copy.items ≡ bytes.now)
        × (calls.new.items ≡ calls.old.items ++ Call.Write at copy ∷ [])) }
    ensures err { OnErr result ((file.new.items ≡ file.old.items)
        × (written.new.items ≡ written.old.items) × (calls.new.items ≡ calls.old.items)) }
{
    let copy = bytes.to_vec(*file.allocator())?;
    written.reserve(1)?;
    calls.reserve(1)?;
    overwrite(file, at as usize, bytes)?;
    written.push_reserved((at, bytes.len() as u64));
    calls.push_reserved(Call::Write(at, copy));
    Ok(())
}

fn overwrite(file: &mut Vec<u8>, at: usize, bytes: &[u8]) -> Result<(), Memory>
    requires { at ≤ length file.old.items }
    ensures ok { OnOk result (file.new.items ≡ overwritten file.old.items at bytes.now) }
    ensures err { OnErr result (file.new.items ≡ file.old.items) }
{
    let inside = bytes.len().min(file.len() - at);
    file.extend_from_slice(&bytes[inside..])?;
    file[at..at + inside].copy_from_slice(&bytes[..inside]);
    Ok(())
}

/// Cuts, and notes the call. If memory is refused nothing changes.
fn cut(file: &mut Vec<u8>, calls: &mut Vec<Call>, to: u64) -> Result<(), Memory>
    requires { to ≤ length file.old.items }
    ensures ok { OnOk result (file.new.items ≡ take to file.old.items) }
    ensures recorded { OnOk result (calls.new.items ≡ calls.old.items ++ Call.Cut to ∷ []) }
    ensures err { OnErr result ((file.new.items ≡ file.old.items)
        × (calls.new.items ≡ calls.old.items)) }
{
    calls.push(Call::Cut(to))?;
    file.truncate(to as usize);
    Ok(())
}

/// Keeps a copy, and notes the call. If memory is refused nothing changes.
fn sync(bytes: &[u8], synced: &mut Vec<u8>, calls: &mut Vec<Call>) -> Result<(), Memory>
    ensures ok { OnOk result (synced.new.items ≡ bytes.now) }
    ensures recorded { OnOk result (calls.new.items ≡ calls.old.items ++ Call.Sync ∷ []) }
    ensures err { OnErr result ((synced.new.items ≡ synced.old.items)
        × (calls.new.items ≡ calls.old.items)) }
{
    let copy = bytes.to_vec(*synced.allocator())?;
    calls.push(Call::Sync)?;
    *synced = copy;
    Ok(())
}
