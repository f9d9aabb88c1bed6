//! What runs the records of a feed.
ghost use Rattle.std.specs.Prelude.{◌≡◌, ◌<◌, ◌≤◌, ◌+◌, ◌^◌, [], ℕ, List, IfOk, OnErr};
ghost use Rattle.std.specs.Io.KnownBytes.{Appends};
ghost use Rattle.ogg_page.specs.Output.{WritesPart};
ghost use Rattle.feed_records.specs.declared.item.Record.{Record as RecordOf};
ghost use Rattle.feed_replies.specs.declared.reply.Reply.{Reply as ReplyOf};

use feed_replies::Reply;
use ogg_command::Command;
use ogg_page::WriteFault;
use std::io::Write;

/// Runs commands and flushes, and says how each is answered.
///
/// Its answers depend on a state, which only contracts see. A command may be kept, refused, or held until a later
/// command or a flush keeps it with the others that wait.
pub trait Runner {
    /// What its answers depend on.
    ghost State: { Type 0 };

    /// The runner is in this state.
    ghost is_in: { State → Self → Type 0 };

    /// In the first state this reply answers the record, these bytes are its pages, and the second state follows.
    ghost answers: { State → RecordOf → ReplyOf → List ℕ → State → Type 0 };

    /// How many commands wait.
    ghost held_in: { State → ℕ };

    /// The length of what has been kept.
    ghost end_in: { State → ℕ };

    /// How many commands it has counted, if its own counts could overflow; a runner without such counts may have 0
    /// here.
    ghost counted: { Self → ℕ };

    /// Runs a command. Its pages are written to `pages`, if the runner doesn't keep them itself. If that fails, not
    /// all of them were written, but a part from their front, and the runner is as before.
    fn run_command<P: Write>(
        &mut self,
        command: &Command,
        pages: &mut P,
    ) -> Result<Reply, WriteFault>
        requires count { counted self.old < 2 ^ 63 }
        ensures ok { (before : State) → is_in before self.old → IfOk result (λ reply. (own : List ℕ) × (after : State)
            × answers before (RecordOf.Command command.now) reply own after × is_in after self.new
            × Appends (P.contents pages.old) (P.contents pages.new) own) }
        ensures err { (before : State) → is_in before self.old → OnErr result ((reply : ReplyOf) × (own : List ℕ) × (after : State)
            × answers before (RecordOf.Command command.now) reply own after × is_in before self.new
            × WritesPart (P.contents pages.old) (P.contents pages.new) own) }
        ensures count { counted self.new ≤ counted self.old + 1 };

    /// Keeps what waits, and returns the reply of a flush. It writes no page.
    fn run_flush(&mut self) -> Reply
        ensures answers { (before : State) → is_in before self.old → (after : State)
            × answers before RecordOf.Flush result [] after × is_in after self.new }
        ensures count { counted self.new ≤ counted self.old + 1 };

    /// How many commands wait.
    fn waiting(&self) -> u64
        ensures { (state : State) → is_in state self.now → result ≡ held_in state };

    /// How many bytes have been kept.
    fn kept_length(&self) -> u64
        ensures { (state : State) → is_in state self.now → result ≡ end_in state };
}
