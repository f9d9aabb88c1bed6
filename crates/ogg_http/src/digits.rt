//! Decimal numbers in a request.
ghost use Rattle.std.specs.Prelude.{◌≡◌, true};
ghost use Rattle.std.specs.List.{list_all};
ghost use Rattle.std.specs.Char.{is_ascii_digit};
ghost use Rattle.ogg_http.specs.Digits.{is_number, number_of, value_of};

fn are_digits(text: &[u8]) -> bool
    ensures { result ≡ list_all is_ascii_digit text.now }
{
    text.iter().all(|b| b.is_ascii_digit())
}

/// Whether the text is one digit or more.
pub fn is_number(text: &[u8]) -> bool
    ensures { result ≡ is_number text.now }
{
    0 < text.len() && are_digits(text)
}

/// The value of the digits, or the largest of 64 bits if it is past that.
pub fn value_of(digits: &[u8]) -> u64
    requires { is_number digits.now ≡ true }
    ensures { result ≡ value_of digits.now }
{
    let mut value = 0u64;
    for digit in digits {
        value = value
            .saturating_mul(10)
            .saturating_add(u64::from(digit.wrapping_sub(b'0')));
    }
    value
}

/// The value of a text that is a number.
pub fn number_of(text: &[u8]) -> Option<u64>
    ensures { result ≡ number_of text.now }
{
    if is_number(text) {
        Some(value_of(text))
    } else {
        None
    }
}
