//! The streams that lines go to.
ghost use Rattle.std.specs.Prelude.{◌≡◌, ◌≤◌, ◌↔◌, length, IfSome, IsSome, vec_len};

use ogg_command::Listed;

/// The streams of a link that lines go to, under the serials from 1 on.
#[derive(Debug, Drop)]
pub struct Streams {
    /// Whether a line begins with the name of its stream and a tab. Otherwise there is one stream, and all lines go to it.
    pub tagged: bool,
    /// Their names, in order.
    pub names: Listed<Listed<u8>>,
    // a link has 64 streams at most, and one of them is its Skeleton
    ghost few: { length names ≤ 63 },
}

impl Streams {
    /// Streams with these names, if they are as many as a link may have.
    pub fn named(tagged: bool, names: Vec<Listed<u8>>) -> Option<Streams>
        ensures some { IsSome result ↔ (vec_len names ≤ 63) }
        ensures named { IfSome result (λ streams. (streams.tagged ≡ tagged) × (streams.names ≡ names.items)) }
    {
        if names.len() > 63 {
            return None;
        }
        Some(Streams {
            tagged,
            names: Listed::of(names),
        })
    }
}
