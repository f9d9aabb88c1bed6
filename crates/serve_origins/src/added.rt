//! A field that a response gets after its first line.
ghost use Rattle.std.specs.Prelude.{◌≡◌, ◌≤◌, ◌<◌, ◌==◌, ◌++◌, ℕ, List, Some, length, position, IfOk, OnErr, vec_capacity};
ghost use Rattle.serve_origins.specs.Added.{HasWritten, field_of, left_of, with_field};

pub use std::alloc::AllocError as Memory;
use std::alloc::Global;
use std::marker::Model;

/// How much of the field was written in a response.
#[derive(Clone, Copy, Debug, PartialEq, Eq)]
pub enum Added {
    /// The response's first line isn't whole yet.
    Nothing,
    /// Its first line was written, and of the field so many bytes.
    Part(usize),
    /// All that follows is the response's own.
    Whole,
}

/// The field that lets the pages of an origin read a response.
#[derive(Drop)]
pub struct Allowed {
    // with its line's end
    field: Vec<u8>,
}

impl Model for Allowed {
    ghost use Rattle.std.specs.Prelude.{ℕ, List};

    ghost Value = { List ℕ };

    ghost view = { λ a. a.field.items };
}

/// Where the first line ends, once it is whole: at its line feed.
fn line_end(bytes: &[u8]) -> Option<usize>
    ensures { result ≡ position (λ b. b == 10) bytes.now }
{
    bytes.iter().position(|b| *b == b'\n')
}

/// So many bytes were written of what is left of the field, and of the response's own that follow: where the field stands
/// then, and how many of these were the response's.
fn past_field(field: &[u8], sent: usize, count: usize) -> (Added, usize)
    ensures few { result.1 ≤ count }
    ensures written { (bytes : List ℕ) → count ≤ length (left_of (Added.Part sent) field.now bytes)
        → HasWritten field.now (Added.Part sent) bytes count result.0 result.1 }
{
    let left = field.len().saturating_sub(sent);
    if count < left {
        (Added::Part(sent.saturating_add(count)), 0)
    } else {
        (Added::Whole, count.saturating_sub(left))
    }
}

/// Makes the text these three, one after the other.
fn join(text: &mut Vec<u8>, first: &[u8], then: &[u8], last: &[u8]) -> Result<(), Memory>
    ensures ok { IfOk result (λ _. text.new.items ≡ first.now ++ (then.now ++ last.now)) }
    ensures full { OnErr result (vec_capacity text.old < length (first.now ++ (then.now ++ last.now))) }
{
    text.clear();
    text.extend_from_slice(first)?;
    text.extend_from_slice(then)?;
    text.extend_from_slice(last)
}

impl Allowed {
    /// The field for this origin.
    pub fn of(alloc: Global, origin: &[u8]) -> Result<Allowed, Memory>
        ensures { IfOk result (λ allowed. allowed ≡ field_of origin.now) }
    {
        let mut field = Vec::new(alloc);
        field.extend_from_slice(b"Access-Control-Allow-Origin: ")?;
        field.extend_from_slice(origin)?;
        field.extend_from_slice(b"\r\n")?;
        Ok(Allowed { field })
    }

    /// Makes the text what is to be written in place of these bytes, which are the next of a response. `Memory`: the text had
    /// no room for it, and got none.
    pub fn put(&self, added: Added, bytes: &[u8], text: &mut Vec<u8>) -> Result<(), Memory>
        ensures ok { IfOk result (λ _. text.new.items ≡ left_of added self.now bytes.now) }
        ensures full { OnErr result (vec_capacity text.old < length (left_of added self.now bytes.now)) }
    {
        match added {
            Added::Nothing => self.put_first(bytes, text),
            Added::Part(sent) => {
                let (_, left) = self.field.as_slice().split_at(sent.min(self.field.len()));
                join(text, left, b"", bytes)
            }
            Added::Whole => join(text, b"", b"", bytes),
        }
    }

    /// The same of the first bytes of a response.
    fn put_first(&self, bytes: &[u8], text: &mut Vec<u8>) -> Result<(), Memory>
        ensures ok { IfOk result (λ _. text.new.items ≡ with_field self.now bytes.now) }
        ensures full { OnErr result (vec_capacity text.old < length (with_field self.now bytes.now)) }
    {
        match line_end(bytes) {
            Some(end) => {
                let (line, rest) = bytes.split_at(end + 1);
                join(text, line, self.field.as_slice(), rest)
            }
            None => join(text, b"", b"", bytes),
        }
    }

    /// So many bytes were written of what was to be written in place of these: how much of the field that is now, and how many
    /// of the response's own bytes.
    pub fn wrote(&self, added: Added, bytes: &[u8], count: usize) -> (Added, usize)
        ensures written { count ≤ length (left_of added self.now bytes.now) → HasWritten self.now added bytes.now count result.0 result.1 }
        ensures inside { result.1 ≤ length bytes.now }
    {
        let (added, own) = match added {
            Added::Nothing => self.wrote_first(bytes, count),
            Added::Part(sent) => past_field(self.field.as_slice(), sent, count),
            Added::Whole => (Added::Whole, count),
        };
        (added, own.min(bytes.len()))
    }

    /// The same of the first bytes of a response.
    fn wrote_first(&self, bytes: &[u8], count: usize) -> (Added, usize)
        ensures { count ≤ length (with_field self.now bytes.now) → HasWritten self.now Added.Nothing bytes.now count result.0 result.1 }
    {
        match line_end(bytes) {
            Some(end) => self.wrote_line(bytes, end, count),
            None => (Added::Nothing, count),
        }
    }

    /// The same of bytes that have the end of the first line at this place.
    fn wrote_line(&self, bytes: &[u8], end: usize, count: usize) -> (Added, usize)
        requires { position (λ b. b == 10) bytes.now ≡ Some end }
        ensures { count ≤ length (with_field self.now bytes.now) → HasWritten self.now Added.Nothing bytes.now count result.0 result.1 }
    {
        if count <= end {
            return (Added::Nothing, count);
        }
        let (added, own) = past_field(self.field.as_slice(), 0, count - end - 1);
        (added, own.saturating_add(end + 1))
    }
}
