//! What always holds of a source.
ghost use Rattle.std.specs.Prelude.{◌≡◌, ◌++◌, [], None, List, ℕ};
ghost use Rattle.import_record.specs.Pushing.{Call, Feeds, Imports, InputState, bytes_in};
ghost use Rattle.import_record.specs.Whole.{Event};
ghost use Rattle.import_record.specs.declared.reading.Step.{Step as StepOf};
ghost use Rattle.station_sources.specs.Taking.{input_of};
ghost use Rattle.station_sources.specs.declared.air.OnAir.{OnAir as OnAirOf};
ghost use Rattle.station_sources.specs.Importing.{Finishes, Move, Moves, fed_in, rest_of};

use feed_runner::Runner;

/// Whatever is done with a source, in whichever order, what is recorded of it is an import of the bytes that came to its
/// stream, however they came. Without a framing these are all that have come, in their order.
pub fn sources_are_imported<T: Runner>()
    ensures so_far { (moves : List Move) (old new : OnAirOf) (before after : T.State) → Moves T.answers moves old new before after
        → (calls : List Call) × Feeds T.answers calls (input_of old.import) (input_of new.import) before after
        × (old.body ≡ None → (rest_of old ++ fed_in moves ≡ bytes_in calls ++ rest_of new) × (new.body ≡ None)) }
    ensures all { (moves : List Move) (last : List StepOf) (old mid : OnAirOf) (new : InputState) (before between after : T.State)
        → Moves T.answers moves old mid before between → Finishes T.answers last mid new between after
        → (bytes : List ℕ) × (events : List Event) × Imports T.answers bytes events (input_of old.import) new before after
        × (old.body ≡ None → rest_of old ++ fed_in moves ≡ bytes ++ rest_of mid) }
{}
