//! What is remembered of a connection for its line in the log.
ghost use Rattle.std.specs.Prelude.{◌≡◌, ◌≤◌, ◌<◌, ◌+◌, ◌-◌, ◌++◌, ◌⊎◌, [], OnOk, OnErr, true, false, length, take, vec_len, vec_capacity};
ghost use Rattle.httpdate.specs.declared.date.HttpDate.{HttpDate as Date};
ghost use Rattle.serve_texts.specs.Log.{IsAt, log_line};
ghost use Rattle.serve_texts.specs.Reply.{fresh, reply_after};

use crate::Memory;
use crate::log::append_line;
use crate::reply::{Reply, fresh, reply_after};
use std::alloc::Global;

/// The greatest number of bytes that are remembered of what was heard.
const MOST_HEARD: usize = 2048;

/// What is remembered of a connection for its line in the log: the first 2,048 bytes that its client sent, and how much
/// of a response it got. Of what the client sent, the line has the request line and the fields `Referer` and
/// `User-Agent`, and nothing else.
#[derive(Drop)]
pub struct Visit {
    pub(crate) head: Vec<u8>,
    // memory was refused, so no more is remembered
    pub(crate) deaf: bool,
    pub(crate) reply: Reply,
    ghost short: { vec_len head ≤ 2048 },
}

/// Appends as many of the bytes as are remembered. After `Memory` the vector is unchanged.
fn remember(head: &mut Vec<u8>, bytes: &[u8]) -> Result<(), Memory>
    requires { vec_len head.old ≤ 2048 }
    ensures ok { OnOk result (head.new.items ≡ head.old.items ++ take (2048 - vec_len head.old) bytes.now) }
    ensures err { OnErr result (head.new.items ≡ head.old.items) }
    ensures full { OnErr result
        (vec_capacity head.old < vec_len head.old + length (take (2048 - vec_len head.old) bytes.now)) }
    ensures short { vec_len head.new ≤ 2048 }
{
    let room = MOST_HEARD - head.len();
    head.extend_from_slice(&bytes[..bytes.len().min(room)])
}

impl Visit {
    /// Nothing was heard or sent yet. It takes no memory.
    pub fn new(alloc: Global) -> Visit
        ensures head { result.head.items ≡ [] }
        ensures deaf { result.deaf ≡ false }
        ensures reply { result.reply ≡ fresh }
    {
        Visit {
            head: Vec::new(alloc),
            deaf: false,
            reply: fresh(),
        }
    }

    /// The client sent these bytes. If memory is refused, nothing is lost of what was there, and no more is remembered.
    pub fn heard(&mut self, bytes: &[u8])
        ensures more { self.new.deaf ≡ false
            → self.new.head.items ≡ self.old.head.items ++ take (2048 - vec_len self.old.head) bytes.now }
        ensures deaf { self.new.deaf ≡ true → self.new.head.items ≡ self.old.head.items }
        ensures full { self.new.deaf ≡ true → (self.old.deaf ≡ true) ⊎ (vec_capacity self.old.head
            < vec_len self.old.head + length (take (2048 - vec_len self.old.head) bytes.now)) }
        ensures stays { self.old.deaf ≡ true → self.new.deaf ≡ true }
        ensures reply { self.new.reply ≡ self.old.reply }
    {
        if self.deaf {
            return;
        }
        self.deaf = remember(&mut self.head, bytes).is_err();
    }

    /// These bytes were sent to the client. A response that is followed by another is passed over.
    pub fn sent(&mut self, bytes: &[u8])
        ensures reply { self.new.reply ≡ reply_after self.old.reply bytes.now }
        ensures head { self.new.head ≡ self.old.head }
        ensures deaf { self.new.deaf ≡ self.old.deaf }
    {
        self.reply = reply_after(self.reply, bytes);
    }

    /// Appends the line of a connection from this address that ended at this second, counted from 1970. After `Memory`
    /// the vector is unchanged.
    pub fn append_line(&self, out: &mut Vec<u8>, address: &[u8], seconds: u64) -> Result<(), Memory>
        ensures ok { OnOk result ((date : Date) × IsAt seconds date
            × (out.new.items ≡ out.old.items ++ log_line address.now date self.now.head.items self.now.reply)) }
        ensures err { OnErr result (out.new.items ≡ out.old.items) }
        ensures full { OnErr result ((date : Date) × IsAt seconds date × (vec_capacity out.old
            < vec_len out.old + length (log_line address.now date self.now.head.items self.now.reply))) }
    {
        append_line(out, address, seconds, self.head.as_slice(), &self.reply)
    }
}
