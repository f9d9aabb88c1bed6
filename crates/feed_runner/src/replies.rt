//! What takes the replies of a run.
ghost use Rattle.std.specs.Prelude.{◌≡◌, ℕ, List, Option, Bool, true, false, OnOk, OnErr, ⊤};
ghost use Rattle.std.specs.Io.KnownBytes.{Appends};
ghost use Rattle.feed_replies.specs.Reply.{reply_line};
ghost use Rattle.feed_runner.specs.Telling.{Stays, TellsPart};

use feed_replies::{Reply, write_reply};
use ogg_page::WriteFault;
use std::io::Write;

/// What takes the replies of a run, each as a value. It may have lines wait for each other, and it may end the run.
///
/// The pages of a run go to a writer of their own. Whoever has lines wait may have pages wait in that writer too, and
/// flushes it before it writes a line.
pub trait Replies {
    /// The lines that it was told, out or waiting, if it shows them.
    ghost lines: { Self → Option (List ℕ) };

    /// Whether lines or pages may wait with it.
    ghost waits: { Bool };

    /// Whether it wants no further record.
    ghost enough: { Self → Bool };

    /// Nothing waits with it, or it wants no further record.
    ghost is_out: { Self → Type 0 };

    /// Takes a reply, whose pages were written before. After a fault it may have taken a part of the line, or
    /// all of it if lines may wait with it.
    fn reply<P: Write>(&mut self, reply: &Reply, pages: &mut P) -> Result<(), WriteFault>
        ensures ok { OnOk result (Appends (lines self.old) (lines self.new) (reply_line reply.now)) }
        ensures err { OnErr result (TellsPart waits (lines self.old) (lines self.new) (reply_line reply.now)) }
        ensures pages { Stays waits (P.contents pages.old) (P.contents pages.new) }
        ensures enough { enough self.old ≡ true → enough self.new ≡ true };

    /// More of the feed may be waited for now, or the run has ended: what waits goes out. If that fails, it wants no
    /// further record.
    fn ready<P: Write>(&mut self, pages: &mut P)
        ensures lines { Stays waits (lines self.old) (lines self.new) }
        ensures pages { Stays waits (P.contents pages.old) (P.contents pages.new) }
        ensures enough { enough self.old ≡ true → enough self.new ≡ true }
        ensures sent { is_out self.new };

    /// Whether it wants no further record.
    fn has_enough(&self) -> bool
        ensures { result ≡ enough self.now };
}

/// A writer takes each line as it comes, and never ends a run.
impl<W: Write> Replies for W {
    ghost lines = { W.contents };

    ghost waits = { false };

    ghost enough = { λ _. false };

    ghost is_out = { λ _. ⊤ };

    fn reply<P: Write>(&mut self, reply: &Reply, _: &mut P) -> Result<(), WriteFault> {
        write_reply(reply, self)
    }

    fn ready<P: Write>(&mut self, _: &mut P) {}

    fn has_enough(&self) -> bool {
        false
    }
}
