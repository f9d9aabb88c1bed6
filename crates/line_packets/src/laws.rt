//! What always holds of lines.
ghost use Rattle.std.specs.Prelude.{◌≡◌, ◌++◌, List, ℕ};
ghost use Rattle.line_packets.specs.Lines.{lines_from, rest_from};

/// However an input is divided into reads, the lines of the reads are those of the whole input, in order, each once; and
/// what is left is what follows the last line feed.
pub fn lines_are_those_of_the_whole_input()
    ensures lines { (line a b : List ℕ) → lines_from line (a ++ b) ≡ lines_from line a ++ lines_from (rest_from line a) b }
    ensures rest { (line a b : List ℕ) → rest_from line (a ++ b) ≡ rest_from (rest_from line a) b }
{}
