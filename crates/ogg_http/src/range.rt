//! Which bytes a `Range` field asks for.
ghost use Rattle.std.specs.Prelude.{◌≡◌, ◌<◌, ◌==◌, position};
ghost use Rattle.ogg_http.specs.Range.{LiesIn, Spells, dash, has_unit, range_of, selected, spec_of_set, spec_of, spec_of_ends};
ghost use Rattle.ogg_http.specs.declared.range.RangeSpec.{RangeSpec};

use crate::digits::number_of;

/// A range as a request writes it. Bytes are counted from 0.
#[derive(Clone, Copy, Debug, PartialEq, Eq)]
enum RangeSpec {
    /// `FIRST-LAST`, both bytes in it.
    Between(u64, u64),
    /// `FIRST-`: from this byte on.
    From(u64),
    /// `-COUNT`: this number of bytes at the end.
    Suffix(u64),
}

/// Which bytes are asked for.
#[derive(Clone, Copy, Debug, PartialEq, Eq)]
pub enum Ranged {
    /// All of them.
    Whole,
    /// Those from the first number to the second, both bytes in it.
    Part(u64, u64),
    /// None that is there.
    Unsatisfiable,
}

fn first_dash(text: &[u8]) -> Option<usize>
    ensures { result ≡ position (λ b. b == dash) text.now }
{
    text.iter().position(|b| *b == b'-')
}

fn has_unit(text: &[u8]) -> bool
    ensures { result ≡ has_unit text.now }
{
    text.len() >= 6 && text[..6].eq_ignore_ascii_case(b"bytes=")
}

fn spec_of_ends(first: &[u8], last: &[u8]) -> Option<RangeSpec>
    ensures { result ≡ spec_of_ends first.now last.now }
{
    match (first, last) {
        ([], count) => Some(RangeSpec::Suffix(number_of(count)?)),
        (first, []) => Some(RangeSpec::From(number_of(first)?)),
        (first, last) => Some(RangeSpec::Between(number_of(first)?, number_of(last)?)),
    }
}

fn spec_of_set(text: &[u8]) -> Option<RangeSpec>
    ensures { result ≡ spec_of_set text.now }
{
    let dash = first_dash(text)?;
    spec_of_ends(&text[..dash], &text[dash + 1..])
}

fn spec_of(text: &[u8]) -> Option<RangeSpec>
    ensures { result ≡ spec_of text.now }
{
    if has_unit(text) {
        spec_of_set(&text[6..])
    } else {
        None
    }
}

fn selected(spec: RangeSpec, len: u64) -> Ranged
    requires { 0 < len }
    ensures { result ≡ selected spec len }
{
    match spec {
        RangeSpec::Between(first, last) if last < first => Ranged::Whole,
        RangeSpec::Between(first, _) | RangeSpec::From(first) if len <= first =>
            Ranged::Unsatisfiable,
        RangeSpec::Between(first, last) => Ranged::Part(first, last.min(len - 1)),
        RangeSpec::From(first) => Ranged::Part(first, len - 1),
        RangeSpec::Suffix(0) => Ranged::Unsatisfiable,
        RangeSpec::Suffix(count) => Ranged::Part(len - count.min(len), len - 1),
    }
}

/// Which bytes of a representation of `len` bytes a `Range` field of this value asks for.
pub fn range_of(text: &[u8], len: u64) -> Ranged
    // A text that spells a range selects what the range asks for; any other text selects the whole.
    ensures spelled { (spec : RangeSpec)
        → Spells spec text.now → 0 < len → result ≡ selected spec len }
    ensures other { ((spec : RangeSpec) → ¬ (Spells spec text.now)) → result ≡ Ranged.Whole }
    ensures empty { len ≡ 0 → result ≡ Ranged.Whole }

    // The same as a function, and the fact that an answer needs of a part.
    ensures range { result ≡ range_of text.now len }
    ensures inside { LiesIn len result }
{
    if len == 0 {
        return Ranged::Whole;
    }
    match spec_of(text) {
        Some(spec) => selected(spec, len),
        None => Ranged::Whole,
    }
}
