//! Lines of replies that are written together.
ghost use Rattle.std.specs.Prelude.{◌≡◌, ◌⊎◌, ◌<◌, ◌++◌, [], true, false, IfOk, OnOk, OnErr, length};
ghost use Rattle.std.specs.Io.KnownBytes.{Appends, Keeps, append_known};
ghost use Rattle.ogg_page.specs.Output.{WritesPart, WritesPrefix};
ghost use Rattle.feed_replies.specs.Reply.{reply_line};
ghost use Rattle.feed_runner.specs.Together.{may_wait};

use crate::replies::Replies;
use feed_replies::{Reply, write_reply};
use ogg_page::{Memory, WriteFault, write_counted};
use std::alloc::Global;
use std::io::Write;

/// For how many bytes of lines there is room.
const ROOM: usize = 16384;

/// No line is longer.
const LONGEST_LINE: usize = 64;

/// Which lines may wait for others.
#[derive(Clone, Copy, Debug, PartialEq, Eq)]
pub enum Together {
    /// Those of commands that wait for their group. Such a line promises nothing.
    Groups,
    /// All lines, as long as more of the feed is at hand.
    Ahead,
}

/// Takes replies, and writes their lines together. Before a line goes out the writer of pages is flushed, so no reply
/// comes before its pages. Once one of the two writers has failed nothing goes out any more, and no further record is
/// wanted.
#[derive(Drop)]
pub struct Batched<W> {
    out: W,
    waiting: Vec<u8>,
    together: Together,
    failed: bool,
}

impl<W: Write + Drop> Batched<W> {
    /// No reply has come yet. After `Memory` the writer is lost.
    pub fn new(alloc: Global, out: W, together: Together) -> Result<Batched<W>, Memory>
        ensures lines { IfOk result (λ batched. batched.waiting.items ≡ []) }
        ensures out { IfOk result (λ batched. batched.out ≡ out) }
    {
        let mut waiting = Vec::new(alloc);
        waiting.reserve(ROOM)?;
        Ok(Batched {
            out,
            waiting,
            together,
            failed: false,
        })
    }

    /// Whether a line, or the pages before it, could not be written.
    pub fn has_failed(&self) -> bool
        ensures { result ≡ self.now.failed }
    {
        self.failed
    }

    /// Whether the reply's line may wait.
    fn may_wait(&self, reply: &Reply) -> bool
        ensures { result ≡ may_wait self.now.together reply.now }
    {
        match self.together {
            Together::Groups => matches!(reply, Reply::Held(_)),
            Together::Ahead => true,
        }
    }

    /// Writes what waits if there may be no room for a further line. It fails if a writer has failed before.
    fn make_room<P: Write>(&mut self, pages: &mut P) -> Result<(), WriteFault>
        ensures lines { Keeps (append_known (W.contents self.old.out) self.old.waiting.items)
            (append_known (W.contents self.new.out) self.new.waiting.items) }
        ensures pages { Keeps (P.contents pages.old) (P.contents pages.new) }
        ensures out { WritesPrefix (W.contents self.old.out) (W.contents self.new.out) self.old.waiting.items }
        ensures left { 0 < length self.old.waiting.items → OnErr result (0 < length self.new.waiting.items) }
        ensures stays { self.old.failed ≡ true → self.new.failed ≡ true }
        ensures together { self.new.together ≡ self.old.together }
    {
        if !self.failed && self.waiting.len() <= ROOM - LONGEST_LINE {
            return Ok(());
        }
        self.send(pages)
    }

    /// Writes what waits: the pages, and then the lines.
    fn send<P: Write>(&mut self, pages: &mut P) -> Result<(), WriteFault>
        ensures lines { Keeps (append_known (W.contents self.old.out) self.old.waiting.items)
            (append_known (W.contents self.new.out) self.new.waiting.items) }
        ensures pages { Keeps (P.contents pages.old) (P.contents pages.new) }
        ensures out { WritesPrefix (W.contents self.old.out) (W.contents self.new.out) self.old.waiting.items }
        ensures ok { OnOk result (self.new.waiting.items ≡ []) }
        ensures left { 0 < length self.old.waiting.items → OnErr result (0 < length self.new.waiting.items) }
        ensures err { OnErr result (self.new.failed ≡ true) }
        ensures stays { self.old.failed ≡ true → self.new.failed ≡ true }
        ensures together { self.new.together ≡ self.old.together }
    {
        if self.failed {
            return Err(WriteFault);
        }
        if self.waiting.is_empty() {
            return Ok(());
        }
        let sent = match pages.flush() {
            Ok(()) => drain(&mut self.waiting, &mut self.out),
            Err(_) => Err(WriteFault),
        };
        if sent.is_err() {
            self.failed = true;
        }
        sent
    }
}

impl<W: Write + Drop> Replies for Batched<W> {
    ghost lines = { λ b. append_known (W.contents b.out) b.waiting.items };

    ghost waits = { true };

    ghost enough = { λ b. b.failed };

    ghost is_out = { λ b. (b.failed ≡ true) ⊎ (b.waiting.items ≡ []) };

    #[inline(always)]
    fn reply<P: Write>(&mut self, reply: &Reply, pages: &mut P) -> Result<(), WriteFault>
        ensures ok { OnOk result (Appends (append_known (W.contents self.old.out) self.old.waiting.items)
            (append_known (W.contents self.new.out) self.new.waiting.items) (reply_line reply.now)) }
        ensures err { OnErr result (WritesPrefix (append_known (W.contents self.old.out) self.old.waiting.items)
            (append_known (W.contents self.new.out) self.new.waiting.items) (reply_line reply.now)) }
        // Of what waited and the line not all is out then.
        ensures part { OnErr result (WritesPart (W.contents self.old.out) (W.contents self.new.out) (self.old.waiting.items ++ reply_line reply.now)) }
        ensures pages { Keeps (P.contents pages.old) (P.contents pages.new) }
        ensures enough { self.old.failed ≡ true → self.new.failed ≡ true }
        // A line that may not wait is out, and so are those before it.
        ensures sent { may_wait self.old.together reply.now ≡ false → OnOk result (self.new.waiting.items ≡ []) }
    {
        self.make_room(pages)?;
        write_reply(reply, &mut self.waiting)?;
        if self.may_wait(reply) {
            return Ok(());
        }
        self.send(pages)
    }

    fn ready<P: Write>(&mut self, pages: &mut P)
        ensures lines { Keeps (append_known (W.contents self.old.out) self.old.waiting.items)
            (append_known (W.contents self.new.out) self.new.waiting.items) }
        ensures pages { Keeps (P.contents pages.old) (P.contents pages.new) }
        ensures enough { self.old.failed ≡ true → self.new.failed ≡ true }
        // All lines are out, or a writer has failed.
        ensures sent { (self.new.failed ≡ true) ⊎ (self.new.waiting.items ≡ []) }
    {
        // What failed is seen by `has_enough`.
        let _ = self.send(pages);
    }

    fn has_enough(&self) -> bool {
        self.failed
    }
}

/// Writes what waits, and takes off what was written.
#[tactic(auto, using(crate::proofs::Sent::drained, crate::proofs::Sent::drained_all, crate::proofs::Sent::all_out, crate::proofs::Sent::front_out, crate::proofs::Sent::some_left))]
fn drain<W: Write>(waiting: &mut Vec<u8>, out: &mut W) -> Result<(), WriteFault>
    ensures lines { Keeps (append_known (W.contents out.old) waiting.old.items)
        (append_known (W.contents out.new) waiting.new.items) }
    ensures out { WritesPrefix (W.contents out.old) (W.contents out.new) waiting.old.items }
    ensures ok { OnOk result (waiting.new.items ≡ []) }
    ensures left { OnErr result (0 < length waiting.new.items) }
{
    match write_counted(out, waiting.as_slice()) {
        Ok(()) => {
            waiting.clear();
            Ok(())
        }
        Err(count) => {
            waiting.drain(..count);
            Err(WriteFault)
        }
    }
}
