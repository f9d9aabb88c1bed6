//! Lacing values.
ghost use Rattle.std.specs.Prelude.{◌≡◌, ◌≤◌, ◌*◌, length, sum};
ghost use Rattle.ogg_page.specs.Sizes.{most_values, full_value};

/// How many bytes the lacing values of a page stand for (RFC 3533, section 5). There are at most 255.
pub fn body_size(lacing: &[u8]) -> usize
    requires { length lacing.now ≤ most_values }
    ensures value { result ≡ sum lacing.now }
    ensures bound { result ≤ full_value * length lacing.now }
{
    let mut size = 0;
    for value in lacing {
        size += usize::from(*value);
    }
    size
}
