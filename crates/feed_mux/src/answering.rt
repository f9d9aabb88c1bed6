//! The answer to one command: its pages written and the chain moved on, or a refusal.
ghost use Rattle.std.specs.Prelude.{◌≡◌, ◌<◌, ◌≤◌, ◌^◌, ◌+◌, ℕ, List, [], Ok, IfOk, OnErr, length, vec_capacity};
ghost use Rattle.std.specs.Io.KnownBytes.{Appends};
ghost use Rattle.ogg_page.specs.Output.{WritesPart};
ghost use Rattle.chain_rules.specs.Encoding.{command_bytes};
ghost use Rattle.chain_rules.specs.Shape.{HasRoom};
ghost use Rattle.feed_replies.specs.declared.reply.Reply.{Reply as ReplyOf};
ghost use Rattle.feed_mux.specs.Progress.{Progress, Answers};
ghost use Rattle.feed_mux.specs.Reached.{HasReached};

use chain_rules::{Command, Plan, Refusal, Shape, refusals_are_of_the_table};
use feed_replies::{Kept, Reply};
use ogg_page::{WriteFault, write_whole};
use std::io::Write;

/// Writes the pages of a command, adds it to the chain, counts it, and returns the reply. A refusal writes nothing and
/// leaves the chain and the count as they are. A fault leaves them too, and then not all of the pages were
/// written, but a part from their front.
/// `plan` and `bytes` are room for the command's plan and its pages, used again for each command.
pub fn answer<P: Write>(
    shape: &mut Shape,
    count: &mut u64,
    command: &Command,
    plan: &mut Plan,
    bytes: &mut Vec<u8>,
    pages: &mut P,
) -> Result<Reply, WriteFault>
    requires { count.old < 2 ^ 63 }
    ensures ok { (before : Progress) → HasReached shape.old.chain count.old before →
        IfOk result (λ reply. (own : List ℕ) × (behind : Progress) × Answers before command.now reply own behind
        × HasReached shape.new.chain count.new behind × Appends (P.contents pages.old) (P.contents pages.new) own) }
    ensures err { (before : Progress) → HasReached shape.old.chain count.old before →
        OnErr result ((reply : ReplyOf) × (own : List ℕ) × (behind : Progress) × Answers before command.now reply own behind
        × HasReached shape.new.chain count.new before × WritesPart (P.contents pages.old) (P.contents pages.new) own) }
    ensures count { count.new ≤ count.old + 1 }

    // Memory is short only if there is no room for what the command adds, or for its pages.
    ensures full { result ≡ Ok (Reply.Refused Refusal.Memory) → HasRoom shape.old command.now
        → vec_capacity bytes.old < length (command_bytes shape.old.chain command.now) }
{
    // For the proof alone.
    refusals_are_of_the_table();
    match shape.plan(command, plan) {
        Ok(_) => {}
        Err(refusal) => return Ok(Reply::Refused(refusal)),
    }
    match shape.prepare(command) {
        Ok(()) => {}
        Err(_) => return Ok(Reply::Refused(Refusal::Memory)),
    }
    bytes.clear();
    match shape.lay(command, bytes) {
        Ok(()) => {}
        Err(_) => return Ok(Reply::Refused(Refusal::Memory)),
    }
    match write_whole(pages, bytes.as_slice()) {
        Ok(()) => {}
        Err(fault) => return Err(fault),
    }
    shape.accept_plan(command, plan);
    *count += 1;
    Ok(Reply::Kept(Kept {
        count: *count,
        end: shape.len(),
    }))
}
