//! The flush after the last record.
ghost use Rattle.std.specs.Prelude.{◌≡◌, ◌<◌, ◌≤◌, ◌+◌, [], IfOk, IfSome, IfNone, OnErr, true};
ghost use Rattle.std.specs.Io.KnownBytes.{Appends};
ghost use Rattle.feed_replies.specs.Reply.{reply_line};
ghost use Rattle.feed_runner.specs.Telling.{Stays, TellsPart};
ghost use Rattle.feed_records.specs.declared.item.Record.{Record as RecordOf};
ghost use Rattle.feed_replies.specs.declared.reply.Reply.{Reply as ReplyOf};

use feed_replies::Reply;
use feed_runner::{Replies, Runner};
use ogg_page::WriteFault;
use std::io::Write;

/// Flushes what waits, tells the reply, and returns it. If nothing waits there is no flush. What waits with the taker
/// of replies goes out, since the run ends.
pub fn flush_waiting<T: Runner, P: Write, S: Replies>(
    runner: &mut T,
    pages: &mut P,
    replies: &mut S,
) -> Result<Option<Reply>, WriteFault>
    ensures replied { (before : T.State) → T.is_in before runner.old → IfOk result (λ found. IfSome found (λ reply.
        (0 < T.held_in before) × (after : T.State) × T.answers before RecordOf.Flush reply [] after × T.is_in after runner.new
        × Appends (S.lines replies.old) (S.lines replies.new) (reply_line reply))) }
    ensures none { (before : T.State) → T.is_in before runner.old → IfOk result (λ found. IfNone found (
        (T.held_in before ≡ 0) × (runner.new ≡ runner.old) × Stays S.waits (S.lines replies.old) (S.lines replies.new))) }
    ensures err { (before : T.State) → T.is_in before runner.old → OnErr result ((0 < T.held_in before) × (reply : ReplyOf) × (after : T.State)
        × T.answers before RecordOf.Flush reply [] after × T.is_in after runner.new
        × TellsPart S.waits (S.lines replies.old) (S.lines replies.new) (reply_line reply)) }
    ensures pages { Stays S.waits (P.contents pages.old) (P.contents pages.new) }
    ensures enough { S.enough replies.old ≡ true → S.enough replies.new ≡ true }
    ensures count { T.counted runner.new ≤ T.counted runner.old + 1 }
{
    if runner.waiting() == 0 {
        replies.ready(pages);
        return Ok(None);
    }
    let reply = runner.run_flush();
    replies.reply(&reply, pages)?;
    replies.ready(pages);
    Ok(Some(reply))
}
