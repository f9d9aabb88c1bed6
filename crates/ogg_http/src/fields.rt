//! Fields of a head by their names.
ghost use Rattle.std.specs.Prelude.{◌≡◌, ◌≤◌, length, map, option_copied, All};
ghost use Rattle.httparse.specs.Spans.{IsHeaderWithin, header_bytes};
ghost use Rattle.ogg_http.specs.Fields.{is_named, count_of, first_of_name, range_in};
ghost use Rattle.ogg_http.specs.Head.{most_fields};

use httparse::spans::HeaderSpan;

fn is_named(name: &[u8], wanted: &[u8]) -> bool
    ensures { result ≡ is_named wanted.now name.now }
{
    name.eq_ignore_ascii_case(wanted)
}

/// How many fields have this name. The spans are of the first `len` bytes of `bytes`.
pub fn count_of(bytes: &[u8], len: usize, fields: &[HeaderSpan], wanted: &[u8]) -> u32
    requires room { length fields.now ≤ most_fields }
    requires inside { len ≤ length bytes.now }
    requires within { All (IsHeaderWithin len) fields.now }
    ensures { result ≡ count_of wanted.now (map (header_bytes bytes.now) fields.now) }
{
    let mut count = 0;
    for field in fields {
        if is_named(field.name.of(bytes), wanted) {
            count += 1;
        }
    }
    count
}

/// The value of the first field with this name. The spans are of the first `len` bytes of `bytes`.
pub fn first_of_name<'b>(
    bytes: &'b [u8],
    len: usize,
    fields: &[HeaderSpan],
    wanted: &[u8],
) -> Option<&'b [u8]>
    requires inside { len ≤ length bytes.now }
    requires within { All (IsHeaderWithin len) fields.now }
    ensures { option_copied result
        ≡ first_of_name wanted.now (map (header_bytes bytes.now) fields.now) }
{
    for field in fields {
        if is_named(field.name.of(bytes), wanted) {
            return Some(field.value.of(bytes));
        }
    }
    None
}

/// The value of the one `Range` field, if there is no `If-Range`.
pub fn range_in<'b>(bytes: &'b [u8], len: usize, fields: &[HeaderSpan]) -> Option<&'b [u8]>
    requires room { length fields.now ≤ most_fields }
    requires inside { len ≤ length bytes.now }
    requires within { All (IsHeaderWithin len) fields.now }
    ensures { option_copied result ≡ range_in (map (header_bytes bytes.now) fields.now) }
{
    let is_single = count_of(bytes, len, fields, b"range") == 1;
    if is_single && count_of(bytes, len, fields, b"if-range") == 0 {
        first_of_name(bytes, len, fields, b"range")
    } else {
        None
    }
}
