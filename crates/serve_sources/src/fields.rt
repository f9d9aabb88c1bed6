//! A field that counts only if it comes once.
ghost use Rattle.std.specs.Prelude.{◌≡◌, ◌≤◌, length, map, option_copied, All, IfSome};
ghost use Rattle.httparse.specs.Spans.{IsHeaderWithin, header_bytes};
ghost use Rattle.serve_sources.specs.Fields.{only};

use http1::text::eq_ignore_case;
use httparse::spans::HeaderSpan;

/// The value of the only field with this name. The spans are of `bytes`.
pub fn only<'b>(bytes: &'b [u8], fields: &[HeaderSpan], name: &[u8]) -> Option<&'b [u8]>
    requires { All (IsHeaderWithin (length bytes.now)) fields.now }
    ensures only { option_copied result ≡ only name.now (map (header_bytes bytes.now) fields.now) }
    ensures short { IfSome result (λ value. length value.now ≤ length bytes.now) }
{
    let mut found = None;
    for field in fields {
        if eq_ignore_case(field.name.of(bytes), name) {
            if found.is_some() {
                return None;
            }
            found = Some(field.value.of(bytes));
        }
    }
    found
}
