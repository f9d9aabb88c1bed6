//! The values of samples, as text.
ghost use Rattle.std.specs.Prelude.{◌≡◌, ◌≤◌, length};
ghost use Rattle.serve_texts.specs.Status.{three_digits, value_line};

use text_line::Line;

/// A value as it is written.
#[derive(Clone, Copy)]
pub enum Value {
    Whole(u64),
    /// A number of thousandths, written as a fraction.
    Thousandths(u64),
}

/// The last three digits of a number, with zeros at the front.
pub fn three_digits(number: u64) -> [u8; 3]
    ensures { result ≡ three_digits number }
{
    [
        b'0' + (number / 100 % 10) as u8,
        b'0' + (number / 10 % 10) as u8,
        b'0' + (number % 10) as u8,
    ]
}

#[tactic(auto, using(crate::proofs::Values::whole_is_short))]
fn whole(number: u64) -> Line
    ensures text { result.text ≡ value_line (Value.Whole number) }
    ensures short { length result.text ≤ 25 }
{
    let mut line = Line::new();
    line.put_number(number);
    line
}

#[tactic(auto, using(crate::proofs::Values::thousandths_are_short))]
fn thousandths(number: u64) -> Line
    ensures text { result.text ≡ value_line (Value.Thousandths number) }
    ensures short { length result.text ≤ 25 }
{
    let mut line = Line::new();
    line.put_text(&three_digits(number));
    line.put_text(b".");
    line.put_number(number / 1000);
    line
}

impl Value {
    /// The value and the end of its line.
    pub fn line(self) -> Line
        ensures text { result.text ≡ value_line self }
        ensures short { length result.text ≤ 25 }
    {
        match self {
            Value::Whole(number) => whole(number),
            Value::Thousandths(number) => thousandths(number),
        }
    }
}
