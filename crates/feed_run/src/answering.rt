//! One record, and its reply.
ghost use Rattle.std.specs.Prelude.{◌≡◌, ◌≢◌, ◌⊎◌, ◌<◌, ◌≤◌, ◌+◌, ◌^◌, [], ℕ, List, IfOk, IfSome, IfNone, OnErr, true};
ghost use Rattle.std.specs.Io.KnownBytes.{Appends};
ghost use Rattle.ogg_page.specs.Output.{WritesPart};
ghost use Rattle.ogg_command.specs.Command.{IsCommand};
ghost use Rattle.feed_replies.specs.Reply.{reply_line};
ghost use Rattle.feed_runner.specs.Counting.{counts_with};
ghost use Rattle.feed_run.specs.Run.{StopsAt};
ghost use Rattle.feed_records.specs.Record.{HasRecord};
ghost use Rattle.feed_records.specs.declared.version.Version.{Version as VersionOf};
ghost use Rattle.feed_records.specs.declared.item.Record.{Record as RecordOf};
ghost use Rattle.feed_replies.specs.declared.reply.Reply.{Reply as ReplyOf};

use feed_codec::Feed;
use feed_records::Record;
use feed_replies::Reply;
use feed_runner::{Counts, Replies, Runner};
use ogg_command::Command;
use ogg_page::WriteFault;
use std::io::Write;

/// Has a record run, and returns its reply.
pub fn run_record<T: Runner, P: Write>(
    runner: &mut T,
    given: &Record,
    pages: &mut P,
) -> Result<Reply, WriteFault>
    requires numbers { (version : VersionOf) × HasRecord version given.now }
    requires count { T.counted runner.old < 2 ^ 63 }
    ensures ok { (before : T.State) → T.is_in before runner.old → IfOk result (λ reply. (own : List ℕ) × (after : T.State)
        × T.answers before given.now reply own after × T.is_in after runner.new
        × Appends (P.contents pages.old) (P.contents pages.new) own) }
    ensures err { (before : T.State) → T.is_in before runner.old → OnErr result ((reply : ReplyOf) × (own : List ℕ) × (after : T.State)
        × T.answers before given.now reply own after × T.is_in before runner.new
        × WritesPart (P.contents pages.old) (P.contents pages.new) own) }
    ensures count { T.counted runner.new ≤ T.counted runner.old + 1 }
{
    match given {
        Record::Command(command) => runner.run_command(command, pages),
        Record::Flush => Ok(runner.run_flush()),
    }
}

/// Has a record that was read run, counts it, and tells the reply.
pub fn answer<T: Runner, P: Write, S: Replies>(
    feed: &mut Feed,
    counts: Counts,
    given: Record,
    runner: &mut T,
    pages: &mut P,
    replies: &mut S,
) -> Result<(Reply, Counts), WriteFault>
    requires numbers { (version : VersionOf) × HasRecord version given }
    requires count { T.counted runner.old < 2 ^ 63 }
    requires adds_up { counts.kept + counts.waiting ≤ counts.commands }
    requires few { counts.commands < 2 ^ 32 }
    ensures feed { feed.new.feed ≡ feed.old.feed }
    ensures ok { (before : T.State) → T.is_in before runner.old → IfOk result (λ (reply, now). (own : List ℕ) × (after : T.State)
        × T.answers before given reply own after × T.is_in after runner.new
        × Appends (P.contents pages.old) (P.contents pages.new) own
        × Appends (S.lines replies.old) (S.lines replies.new) (reply_line reply)) }
    ensures counts { IfOk result (λ (reply, now). now ≡ counts_with counts given reply) }
    ensures err { (before : T.State) → T.is_in before runner.old → OnErr result (
        (reply : ReplyOf) × (own : List ℕ) × (reached : T.State) × (after : T.State)
        × T.answers before given reply own reached × T.is_in after runner.new
        × (StopsAt S.waits (P.contents pages.old) (P.contents pages.new) (S.lines replies.old) (S.lines replies.new) own reply before reached after)) }
    ensures enough { S.enough replies.old ≡ true → S.enough replies.new ≡ true }
    ensures count { T.counted runner.new ≤ T.counted runner.old + 1 }
{
    let reply = run_record(runner, &given, pages)?;
    let counts = counts.with(&given, reply);
    match given {
        Record::Command(Command::Put(put)) => feed.give_back(put),
        Record::Command(Command::Begin(_begin)) => {}
        Record::Command(Command::End(_)) | Record::Flush => {}
    }
    replies.reply(&reply, pages)?;
    Ok((reply, counts))
}
