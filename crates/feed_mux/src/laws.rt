//! What always holds of a run.
ghost use Rattle.std.specs.Prelude.{◌≡◌, List, [], ℕ, length};
ghost use Rattle.std.specs.List.{AllByRecursion};
ghost use Rattle.ogg_command.specs.Command.{IsCommand};
ghost use Rattle.chain_rules.specs.Commands.{AreKept, bytes_of_commands, links_behind};
ghost use Rattle.chain_rules.specs.Recording.{Holds, after};
ghost use Rattle.feed_records.specs.declared.item.Record.{Record};
ghost use Rattle.feed_replies.specs.declared.reply.Reply.{Reply};
ghost use Rattle.feed_runner.specs.Answering.{AnswersAll};
ghost use Rattle.feed_runner.specs.Counting.{commands_in, kept_of};
ghost use Rattle.feed_run.specs.Run.{IsClosed, Streams};
ghost use Rattle.feed_runner.specs.Telling.{Stays};
ghost use Rattle.feed_mux.specs.Checking.{ChecksRecord};
ghost use Rattle.feed_mux.specs.Progress.{Progress, AnswersRecord, at_start, nothing_held};

use chain_rules::commands_add_their_packets;

/// The pages that a run has written are exactly those of the commands that were kept, and none of these is refused
/// after those before it. The pages are a chain of links that holds exactly the commands' packets (RFC 3533, sections
/// 4 to 6). No flush comes after the last record.
pub fn run_writes_what_was_kept()
    ensures pages { (records : List Record) (replies : List Reply) (bytes : List ℕ) (behind : Progress) →
        AnswersAll AnswersRecord at_start records replies bytes behind →
        AreKept [] (kept_of records replies) × (bytes ≡ bytes_of_commands [] (kept_of records replies))
        × (behind.links ≡ links_behind [] (kept_of records replies)) × (behind.kept ≡ length (kept_of records replies)) }
    ensures holds { (records : List Record) (replies : List Reply) (bytes : List ℕ) (behind : Progress) →
        AllByRecursion IsCommand (commands_in records) → AnswersAll AnswersRecord at_start records replies bytes behind →
        Holds bytes (after [] (kept_of records replies)) }
    ensures closing { (at now : Streams) (before behind : Progress) (closing : List Record) (last : List Reply) →
        IsClosed AnswersRecord nothing_held at now before behind closing last →
        (closing ≡ []) × (last ≡ []) × (behind ≡ before) × Stays now.waits at.lines now.lines }
{
    commands_add_their_packets();
}

/// A check answers records as a run may, and leaves the same progress. A run answers them as a check may. A check has
/// no pages. The two can differ only in whether a command meets lack of memory.
pub fn checks_reply_as_runs_do()
    ensures as_runs { (before : Progress) (records : List Record) (replies : List Reply) (bytes : List ℕ) (behind : Progress) →
        AnswersAll ChecksRecord before records replies bytes behind →
        (bytes ≡ []) × (pages : List ℕ) × AnswersAll AnswersRecord before records replies pages behind }
    ensures as_checks { (before : Progress) (records : List Record) (replies : List Reply) (pages : List ℕ) (behind : Progress) →
        AnswersAll AnswersRecord before records replies pages behind → AnswersAll ChecksRecord before records replies [] behind }
{}
