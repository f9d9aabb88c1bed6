//! What always holds of runs.
ghost use Rattle.std.specs.Prelude.{◌≡◌, ◌∷◌, ◌++◌, [], ℕ, List, Option, Bool, None};
ghost use Rattle.std.specs.Io.KnownBytes.{Appends};
ghost use Rattle.feed_records.specs.declared.item.Record.{Record};
ghost use Rattle.feed_replies.specs.declared.reply.Reply.{Reply};
ghost use Rattle.feed_replies.specs.Reply.{reply_line};
ghost use Rattle.feed_run.specs.Run.{HasRun, RunState, RunsOne, StopsAt, Streams};
ghost use Rattle.feed_runner.specs.Telling.{TellsPart};

use feed_runner::Runner;

/// A run that hasn't begun has run nothing; and a run that takes one more step has run that record after the
/// others. So steps are a run if each begins in the state to which the one before it has led, whatever happens
/// between them.
pub fn runs_go_on<T: Runner>()
    ensures begins { (start : Streams) (before : T.State) → HasRun T.answers start start None [] [] before before }
    ensures goes_on { (start old new : Streams) (was now : RunState) (records : List Record) (replies : List Reply)
        (before mid after : T.State) (reply : Reply) → HasRun T.answers start old was.version records replies before mid
        → (one : RunsOne T.answers old new was now mid after reply)
        → HasRun T.answers start new now.version (records ++ one.given ∷ []) (replies ++ reply ∷ []) before after }
{}

/// A writer that fails over a record without pages fails at its line: the record has been run.
pub fn records_without_pages_are_run<T: Runner>()
    ensures { (waits : Bool) (pages new_pages lines new_lines : Option (List ℕ)) (reply : Reply) (before reached after : T.State)
        → StopsAt waits pages new_pages lines new_lines [] reply before reached after
        → Appends pages new_pages [] × TellsPart waits lines new_lines (reply_line reply) × (after ≡ reached) }
{}
