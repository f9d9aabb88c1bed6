//! A run that ends after the first refusal.
ghost use Rattle.std.specs.Prelude.{◌≡◌, ◌||◌, ◌&&◌, true, false, OnOk, OnErr};
ghost use Rattle.std.specs.Io.KnownBytes.{Appends};
ghost use Rattle.feed_replies.specs.Reply.{reply_line};
ghost use Rattle.feed_runner.specs.Telling.{Stays, TellsPart};
ghost use Rattle.feed_runner.specs.Refusing.{refuses};

use crate::replies::Replies;
use feed_replies::Reply;
use ogg_page::WriteFault;
use std::io::Write;

/// Passes replies on, and wants no further record after one that refuses a command, if it is asked to be strict.
#[derive(Debug, Drop)]
pub struct FirstRefusal<S> {
    replies: S,
    strict: bool,
    refused: bool,
}

impl<S: Replies> FirstRefusal<S> {
    /// No reply has come yet. Unless it is strict, no refusal ends the run.
    pub fn new(replies: S, strict: bool) -> FirstRefusal<S>
        ensures replies { result.replies ≡ replies }
        ensures strict { result.strict ≡ strict }
        ensures refused { result.refused ≡ false }
    {
        FirstRefusal {
            replies,
            strict,
            refused: false,
        }
    }

    /// Whether a refusal has ended the run.
    pub fn has_refused(&self) -> bool
        ensures { result ≡ self.now.refused }
    {
        self.refused
    }

    /// What the replies were passed on to.
    pub fn replies(&self) -> &S
        ensures { result.now ≡ self.now.replies }
    {
        &self.replies
    }
}

/// Whether the reply refuses a command.
fn refuses(reply: &Reply) -> bool
    ensures { result ≡ refuses reply.now }
{
    matches!(reply, Reply::Refused(_))
}

impl<S: Replies> Replies for FirstRefusal<S> {
    ghost lines = { λ f. S.lines f.replies };

    ghost waits = { S.waits };

    ghost enough = { λ f. f.refused || S.enough f.replies };

    ghost is_out = { λ f. S.is_out f.replies };

    #[inline(always)]
    fn reply<P: Write>(&mut self, reply: &Reply, pages: &mut P) -> Result<(), WriteFault>
        ensures ok { OnOk result (Appends (S.lines self.old.replies) (S.lines self.new.replies) (reply_line reply.now)) }
        ensures err { OnErr result (TellsPart S.waits (S.lines self.old.replies) (S.lines self.new.replies) (reply_line reply.now)) }
        ensures pages { Stays S.waits (P.contents pages.old) (P.contents pages.new) }
        ensures enough { self.old.refused || S.enough self.old.replies ≡ true → self.new.refused || S.enough self.new.replies ≡ true }
        // The run ends with this reply only if it refuses a command, and refusals are to end it.
        ensures refused { OnOk result (self.new.refused ≡ (self.old.refused || (self.old.strict && refuses reply.now))) }
        ensures strict { self.new.strict ≡ self.old.strict }
    {
        self.replies.reply(reply, pages)?;
        self.refused = self.refused || self.strict && refuses(reply);
        Ok(())
    }

    fn ready<P: Write>(&mut self, pages: &mut P) {
        self.replies.ready(pages);
    }

    fn has_enough(&self) -> bool {
        self.refused || self.replies.has_enough()
    }
}
