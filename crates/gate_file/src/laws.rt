//! What callers may rest on beyond single calls: which bytes an image commits to.
ghost use Rattle.std.specs.Prelude.{◌≡◌, List, ℕ};
ghost use Rattle.ogg_page.specs.declared.fault.PageFault.{PageFault};
ghost use Rattle.gate_file.specs.Commit.{ArePages, CommitsTo, IsDamaged};
ghost use Rattle.gate_file.specs.Found.{IsDamagedAt};

/// An image has one list of committed bytes at most.
pub fn committed_bytes_are_unique()
    ensures { (b c image : List ℕ) → CommitsTo b image → CommitsTo c image → b ≡ c }
{}

/// Pages commit to themselves if nothing follows them, so the bytes of a sealed file are those that
/// opening finds.
pub fn pages_commit_to_themselves()
    ensures { (b : List ℕ) → ArePages b → CommitsTo b b }
{}

/// Damaged bytes have no committed bytes, so no file is refused that could be opened.
pub fn damaged_bytes_commit_to_nothing()
    ensures { (contents : List ℕ) (offset : ℕ) (fault : PageFault) → IsDamagedAt contents offset fault → IsDamaged contents }
{}
