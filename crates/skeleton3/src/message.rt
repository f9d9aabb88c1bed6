//! The message fields of a fisbone, one after the other.
ghost use Rattle.std.specs.Prelude.{◌≡◌, ◌∷◌, [], ◌<◌, length, Some, IsTrue, is_some, option_map, MatchOption, position, ◌==◌};
ghost use Rattle.skeleton3.specs.Fields.{fields_of, kept_line, lines_of, shown};

use crate::fields::{field_of, without_return};
use std::marker::Model;

/// The message fields of a fisbone as names and values, in order, lent from the packet. A value has no spaces and tabs
/// at its ends. No memory is taken.
#[derive(Debug, Drop)]
pub struct MessageFields<'a> {
    /// What is left of the packet.
    rest: &'a [u8],
}

impl<'a> Model for MessageFields<'a> {
    ghost use Rattle.std.specs.Prelude.{List, [], IsTrue, is_some, unwrap_or};
    ghost use Rattle.skeleton3.specs.Fields.{NamedValue, fields_of};

    ghost Value = { List NamedValue };

    ghost view = { λ m. unwrap_or (fields_of m.rest.now) [] };

    ghost invariant = { λ m. IsTrue (is_some (fields_of m.rest.now)) };
}

impl<'a> MessageFields<'a> {
    /// The fields of this text, of which each line has a colon.
    pub(crate) fn of(text: &'a [u8]) -> Self
        requires { IsTrue (is_some (fields_of text.now)) }
        ensures { fields_of text.now ≡ Some result }
    {
        MessageFields { rest: text }
    }
}

impl<'a> Iterator for MessageFields<'a> {
    ghost use Rattle.std.specs.Iterator.{YieldsFirstBy, item_count};

    type Item = (&'a [u8], &'a [u8]);

    ghost next_gives = { YieldsFirstBy shown (λ s. s) };

    ghost remaining = { item_count (λ s. s) };

    fn next(&mut self) -> Option<(&'a [u8], &'a [u8])> {
        let (field, rest) = next_field(self.rest)?;
        self.rest = rest;
        Some(field)
    }
}

/// The first field of a text of which each line has a colon, and the text after its line.
fn next_field(text: &[u8]) -> Option<((&[u8], &[u8]), &[u8])>
    requires { IsTrue (is_some (fields_of text.now)) }
    ensures { MatchOption result (fields_of text.now ≡ Some [])
        (λ (field, rest). (fields_of text.now ≡ option_map (λ fields. shown field ∷ fields) (fields_of rest.now))
        × IsTrue (is_some (fields_of rest.now))) }
{
    let mut rest = text;
    while !rest.is_empty() {
        let (line, behind) = first_line(rest);
        rest = behind;
        if !line.is_empty() {
            return Some((field_of(line)?, rest));
        }
    }
    None
}

/// The first line of a text, which may be empty, and the text after it.
fn first_line(text: &[u8]) -> (&[u8], &[u8])
    requires { 0 < length text.now }
    ensures lines { lines_of text.now ≡ kept_line result.0.now (lines_of result.1.now) }
    ensures shorter { length result.1.now < length text.now }
{
    match first_feed(text) {
        Some(at) => (without_return(&text[..at]), &text[at + 1..]),
        None => (without_return(text), &[]),
    }
}

/// Where the first LF stands.
fn first_feed(text: &[u8]) -> Option<usize>
    ensures { result ≡ position (λ b. b == 10) text.now }
{
    text.iter().position(|b| *b == b'\n')
}
