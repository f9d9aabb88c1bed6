//! A response that is being sent.
ghost use Rattle.std.specs.Prelude.{◌≡◌, ◌≤◌, ℕ, List, ◌++◌, length, IfOk, IsErr, OnErr};
ghost use Rattle.ogg_page.specs.Window.{KeepsSource};
ghost use Rattle.serve_sending.specs.Sending.{Gives, IsFaultOf, IsLeft};

use crate::Memory;
use crate::answering::{lacks_host, plain, respond};
use crate::body::Body;
use crate::finding::find;
use crate::pulling::{is_empty_body, pull_body, pull_text};
use link_index::Index;
use ogg_http::{Answer, Request};
use ogg_page::{PageSource, SourceFault, Window};
use serve_machine::Pulled;
use std::alloc::Global;
use std::marker::Model;

/// A response, as far as it isn't sent yet: a text that it owns, and then what stays in the file until it is sent.
#[derive(Debug, Drop)]
pub struct Sending {
    text: Vec<u8>,
    sent: usize,
    body: Body,
}

impl Model for Sending {
    ghost use Rattle.std.specs.Prelude.{◌≤◌, drop, length};
    ghost use Rattle.serve_sending.specs.Sending.{SendingState};

    ghost Value = { SendingState };

    ghost view = { λ s. record { text = drop s.sent s.text.items; body = s.body } };

    ghost invariant = { λ s. s.sent ≤ length s.text.items };
}

impl Sending {
    ghost use Rattle.std.specs.Prelude.{option_map};
    ghost use Rattle.ogg_page.specs.Page.{Page};
    ghost use Rattle.link_chain.specs.Links.{AreLinks};
    ghost use Rattle.link_index.specs.Adding.{IsIndexOf};
    ghost use Rattle.serve_responses.specs.Response.{asked_by, response};

    /// A text and what follows it.
    pub(crate) fn new(text: Vec<u8>, body: Body) -> Sending
        ensures text { result.text ≡ text.items }
        ensures body { result.body ≡ body }
    {
        Sending {
            text,
            sent: 0,
            body,
        }
    }

    /// The response to a request, or to what is no request, over the file's bytes that the index is of (RFC 9110,
    /// RFC 9112). None of it is sent yet. Memory is taken for its head, and for a listing.
    ///
    /// `Memory` is the answer if there is no room for them.
    pub fn of(alloc: Global, request: Option<Request<'_>>, index: &Index) -> Result<Sending, Memory>
        ensures { (committed : List ℕ) (links : List (List Page)) → AreLinks committed links → IsIndexOf links index.now
            → IfOk result (λ sending. IsLeft committed sending (response links (option_map asked_by request.entry))) }
    {
        match request {
            Some(request) => {
                if lacks_host(&request) {
                    plain(alloc, Answer::BadRequest)
                } else {
                    let found = find(index, request.target);
                    respond(alloc, index, request.verb, request.range, found)
                }
            }
            None => plain(alloc, Answer::BadRequest),
        }
    }

    /// Fills the buffer with the first bytes of what is left, as many as it holds, or all. `count` is how many these
    /// are, and `done` says that none is left then. What the buffer holds after them means nothing. No memory is
    /// taken, and the window's source is only read. Of a stream's pages only their heads are read, and the bytes that
    /// go into the buffer, so that a page costs little even if it goes out in many pieces.
    ///
    /// `SourceFault` is the answer if a read failed or found no page's head. The response is left as it was then, and
    /// the buffer may hold anything.
    pub fn pull<S: PageSource>(
        &mut self,
        window: &mut Window<S>,
        buffer: &mut [u8],
    ) -> Result<Pulled, SourceFault>
        ensures gives { (committed more rest : List ℕ) → S.is_honest window.old.source → S.bytes window.old.source ≡ committed ++ more
            → IsLeft committed self.old rest → IfOk result (λ pulled. Gives committed rest (length buffer.old) buffer.new pulled self.new) }

        // A fault has a cause, and comes only if a byte was to be given.
        ensures cause { (committed more rest : List ℕ) → S.is_honest window.old.source → S.bytes window.old.source ≡ committed ++ more
            → IsLeft committed self.old rest → IsErr result
            → IsFaultOf rest (length buffer.old) (S.failures window.old.source) (S.failures window.new.source) }
        ensures same { OnErr result (self.new ≡ self.old) }

        // What always holds.
        ensures within { IfOk result (λ pulled. pulled.count ≤ length buffer.old) }
        ensures later { S.failures window.old.source ≤ S.failures window.new.source }
        ensures source { KeepsSource S.bytes S.is_honest S.size S.only_reads window.old.source window.new.source }
    {
        let (_, text) = self.text.as_slice().split_at(self.sent);
        let count = pull_text(text, buffer);
        let (_, room) = buffer.split_at_mut(count);
        match pull_body(window, self.body, room) {
            Ok((more, body)) => {
                self.sent += count;
                self.body = body;
                let done = self.sent == self.text.len() && is_empty_body(body);
                Ok(Pulled {
                    count: count + more,
                    done,
                })
            }
            Err(fault) => Err(fault),
        }
    }
}
