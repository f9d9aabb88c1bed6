//! What callers may rest on beyond single calls: laws of images, of torn writes and cuts, and of the clock.
ghost use Rattle.std.specs.Prelude.{◌≡◌, ◌+◌, ◌<◌, ◌≤◌, ℕ, List, [], ◌∷◌, ◌++◌, length, take, drop};
ghost use Rattle.disk_model.specs.Image.{DiskState, IsImage, IsWithin, IsSettled, overwritten, after_write, after_cut, settled};
ghost use Rattle.disk_model.specs.Clock.{Elapses};
ghost use Rattle.disk_model.specs.Torn.{IsTorn, IsShortened, KeepsFront};

use crate::Disk;

/// A bound has every image of a disk state within it, and every image of a state within that one too.
pub fn bounds_have_every_image()
    ensures image { (disk bound : DiskState) (image : List ℕ)
        → IsWithin disk bound → IsImage disk image → IsImage bound image }
    ensures within { (disk mid bound : DiskState)
        → IsWithin disk mid → IsWithin mid bound → IsWithin disk bound }
{}

/// What was synced is an image, and the only one.
pub fn settled_disk_has_one_image()
    ensures is_image { (contents : List ℕ) → IsImage (settled contents) contents }
    ensures only { (disk : DiskState) (image : List ℕ)
        → IsSettled disk → IsImage disk image → image ≡ disk.contents }
{}

/// A write and a cut that succeed make an image of each image.
pub fn calls_keep_images()
    ensures write { (disk : DiskState) (image bytes : List ℕ) (at : ℕ)
        → IsImage disk image → at ≤ length image
        → IsImage (after_write at (length bytes) disk) (overwritten image at bytes) }
    ensures cut { (disk : DiskState) (image : List ℕ) (to : ℕ)
        → IsImage disk image → to ≤ length image → IsImage (after_cut to disk) (take to image) }
{}

/// A write that wasn't synced leaves what stood before its range and after it.
pub fn torn_writes_keep_the_rest()
    ensures torn { (disk : DiskState) (image : List ℕ) (at n : ℕ)
        → IsSettled disk → IsImage (after_write at n disk) image → IsTorn at n disk.contents image }
    ensures front { (old image : List ℕ) (at n : ℕ)
        → at ≤ length old → IsTorn at n old image → take at image ≡ take at old }
    ensures back { (old image : List ℕ) (at n : ℕ)
        → IsTorn at n old image → drop (at + n) image ≡ drop (at + n) old }
{}

/// A cut that wasn't synced leaves a front of the bytes, at least as long as it asked for.
pub fn unsynced_cuts_leave_a_front()
    ensures { (disk : DiskState) (image : List ℕ) (to : ℕ)
        → IsSettled disk → to ≤ length disk.contents → IsImage (after_cut to disk) image
        → IsShortened to disk.contents image }
{}

/// Writes after a front leave it in every image. A settled disk has its contents in front, as far as one likes.
pub fn writes_behind_keep_the_front()
    ensures settled { (n : ℕ) (disk : DiskState)
        → IsSettled disk → n ≤ length disk.contents
        → KeepsFront n (take n disk.contents) disk }
    ensures keeps { (n : ℕ) (front : List ℕ) (disk new : DiskState) (at m : ℕ)
        → KeepsFront n front disk → IsWithin new (after_write at m disk) → n ≤ at
        → KeepsFront n front new }
    ensures image { (n : ℕ) (front : List ℕ) (disk : DiskState) (image : List ℕ)
        → KeepsFront n front disk → IsImage disk image → take n image ≡ front }
{}

/// Calls one after the other leave no other images than those of their bounds, as one call would.
pub fn time_adds_up<D: Disk>()
    ensures { (old mid new : D) (bound : DiskState)
        → Elapses D.moment D.images_since old mid bound
        → Elapses D.moment D.images_since mid new bound
        → Elapses D.moment D.images_since old new bound }
{}
