//! What always holds of the pages of a run.
ghost use Rattle.std.specs.Prelude.{◌≡◌, ◌+◌, ◌≤◌, ◌^◌, ℕ, ◌<◌, List, [], map, length};
ghost use Rattle.std.specs.List.{AllByRecursion};
ghost use Rattle.ogg_page.specs.Page.{IsPage};
ghost use Rattle.ogg_page.specs.LogicalStream.{HoldsPackets};
ghost use Rattle.packetiser.specs.Run.{Timed, IsTimed, pages_of_run, pages_for, run_lacing};

/// The pages of a run hold exactly its packets, whole and in order.
pub fn run_is_held()
    ensures { (serial first : ℕ) (run : List Timed) →
        HoldsPackets (pages_of_run serial first run) (map (λ item. item.packet) run) 0 [] }
{}

/// The pages of a run are pages, as long as its sequence numbers last.
pub fn run_is_pages()
    ensures { (serial first : ℕ) (run : List Timed) → serial < 2 ^ 32 → first + pages_for (length (run_lacing run)) ≤ 2 ^ 32 →
        AllByRecursion IsTimed run → AllByRecursion IsPage (pages_of_run serial first run) }
{}
