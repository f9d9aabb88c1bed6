//! Why a tail is right, and what it is good for.
ghost use Rattle.std.specs.Prelude.{◌≡◌, ◌+◌, ◌/◌, ◌≤◌, ℕ, List, min, length, take, drop, ◌-◌};
ghost use Rattle.disk_model.specs.Image.{overwritten};
ghost use Rattle.disk_tail.specs.Tail.{Tail, StandsIn, Holds, end_of, tail_written, tail_cut};

/// A tail that stands in the contents does so after each write and after each cut, and what it holds is what a read
/// returns.
pub fn tails_stand_in_the_contents()
    ensures read { (contents : List ℕ) (tail : Tail) (at n : ℕ)
        → StandsIn contents tail → Holds at n tail
        → take n (drop (at - tail.start) tail.bytes) ≡ take n (drop at contents) }
    ensures write { (contents bytes : List ℕ) (tail : Tail) (at : ℕ)
        → StandsIn contents tail → at ≤ length contents
        → StandsIn (overwritten contents at bytes) (tail_written at bytes tail) }
    ensures cut { (contents : List ℕ) (tail : Tail) (to : ℕ)
        → StandsIn contents tail → to ≤ length contents
        → StandsIn (take to contents) (tail_cut to tail) }
{}

/// What is appended to a tail stays in it: the tail ends where the bytes end, and has all of them and of those before,
/// or at least half a room.
#[tactic(auto, unfolding(crate::specs::Tail::tail_written))]
pub fn appended_bytes_are_kept()
    ensures end { (tail : Tail) (bytes : List ℕ)
        → end_of (tail_written (end_of tail) bytes tail) ≡ end_of tail + length bytes }
    ensures kept { (tail : Tail) (bytes : List ℕ)
        → min (length tail.bytes + length bytes) (tail.room / 2) ≤ length (tail_written (end_of tail) bytes tail).bytes }
{}

/// A tail never has more bytes than its room.
#[tactic(auto, unfolding(crate::specs::Tail::tail_written, crate::specs::Tail::tail_cut))]
pub fn tails_stay_in_their_room()
    ensures write { (tail : Tail) (bytes : List ℕ) (at : ℕ)
        → length tail.bytes ≤ tail.room
        → length (tail_written at bytes tail).bytes ≤ tail.room }
    ensures cut { (tail : Tail) (to : ℕ)
        → length tail.bytes ≤ tail.room
        → length (tail_cut to tail).bytes ≤ tail.room }
{}
