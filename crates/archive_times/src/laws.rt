//! What always holds of lines of times.
ghost use Rattle.std.specs.Prelude.{◌≡◌, ◌≤◌, ◌<◌, ◌^◌, ℕ, List, true, nat_eq, ◌∷◌, ◌++◌, map, length, None, Option};
ghost use Rattle.std.specs.List.{list_any};
ghost use Rattle.archive_times.specs.Asked.{IsPlaceAt, RiseFrom, line_at, offset_at, offset_of, place_of};
ghost use Rattle.archive_times.specs.Times.{AreLinesOf, AreTimes, IsLine, behind_feed, has_no_line_feed, last_of, line_text, times_text};
ghost use Rattle.archive_times.specs.declared.line.Line.{Line as LineOf};

use crate::line::LONGEST_LINE;

/// A text has the same lines whoever reads it. What was written is read, also if its last line was torn. A text that
/// is read in pieces has the lines of the pieces, and after a line feed in what was written its last lines follow.
pub fn lines_are_known_by_their_text()
    ensures same { (committed : ℕ) (last : Option LineOf) (text : List ℕ) (a b : List LineOf) (rest after : List ℕ)
        → committed < 2 ^ 64 → AreLinesOf committed last text a rest → AreLinesOf committed last text b after → (a ≡ b) × (rest ≡ after) }
    ensures written { (committed : ℕ) (last : Option LineOf) (lines : List LineOf) (torn : List ℕ)
        → AreTimes committed last lines → has_no_line_feed torn ≡ true
        → AreLinesOf committed last (times_text lines ++ torn) lines torn }
    ensures pieces { (committed : ℕ) (last : Option LineOf) (a b : List LineOf) (text rest : List ℕ)
        → AreTimes committed last a → AreLinesOf committed (last_of last a) text b rest
        → AreLinesOf committed last (times_text a ++ text) (a ++ b) rest }
    ensures ends { (committed : ℕ) (last : Option LineOf) (lines : List LineOf) (torn before after : List ℕ)
        → committed < 2 ^ 64 → AreTimes committed last lines → has_no_line_feed torn ≡ true
        → times_text lines ++ torn ≡ before ++ after
        → (front left : List LineOf) × (rest : List ℕ) × (lines ≡ front ++ left)
        × AreLinesOf committed None (behind_feed after) left rest }
    ensures short { (committed : ℕ) (line : LineOf) → committed < 2 ^ 64 → IsLine committed line
        → length (line_text line) ≤ LONGEST_LINE }
{}

/// The place of a time is that of the last line whose time is at most this one, or where the file begins. A later time
/// has no earlier place.
pub fn the_place_of_a_time()
    ensures place { (begin time : ℕ) (lines : List LineOf) → RiseFrom begin lines → IsPlaceAt begin lines time (offset_at begin lines time) }
    ensures known { (begin time : ℕ) (lines : List LineOf) → list_any (nat_eq (offset_at begin lines time)) (begin ∷ map offset_of lines) ≡ true }
    ensures rises { (begin earlier later : ℕ) (lines : List LineOf) → RiseFrom begin lines → earlier ≤ later →
        offset_at begin lines earlier ≤ offset_at begin lines later }

    // It is the place of the line that is found.
    ensures found { (begin time : ℕ) (lines : List LineOf) → offset_at begin lines time ≡ place_of begin (line_at None lines time) }

    // Lines that are read rise.
    ensures read { (committed : ℕ) (lines : List LineOf) → AreTimes committed None lines → RiseFrom 0 lines }
{}
