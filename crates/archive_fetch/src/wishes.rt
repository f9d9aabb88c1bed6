//! What is asked for by a target.
ghost use Rattle.std.specs.Prelude.{◌≡◌, ◌^◌, ◌<◌, ◌++◌, ℕ, List, Some, IfSome, IsSome, codes};
ghost use Rattle.std.specs.Fmt.{decimal};
ghost use Rattle.ogg_http.specs.Target.{first_slash, path_of};
ghost use Rattle.archive_fetch.specs.Wishes.{IsSegment, IsWish, path_to};
ghost use Rattle.archive_fetch.specs.declared.wishes.Wish.{Wish as WishOf};

use archive_times::number_at_front;
use itoa::Buffer;
use ogg_http::path_of;

/// What a request asks for of an archive. Times are as they are written in the target.
#[derive(Clone, Copy, Debug, PartialEq, Eq)]
pub enum Wish<'a> {
    /// The files that there are, with their times: `/files`.
    Files,
    /// The file with this number: `/file/NUMBER`.
    File(u64),
    /// What was recorded from this time on, and what goes on to be recorded: `/from/TIME`.
    From(&'a [u8]),
    /// What was recorded between these times: `/from/TIME/to/TIME`.
    Between(&'a [u8], &'a [u8]),
}

fn first_slash(text: &[u8]) -> Option<usize>
    ensures { result ≡ first_slash text.now }
{
    text.iter().position(|b| *b == b'/')
}

/// The number whose decimal digits these are, without zeros in front.
fn number_of(text: &[u8]) -> Option<u64>
    ensures of { IfSome result (λ number. text.now ≡ decimal number) }
    ensures each { (number : ℕ) → number < 2 ^ 64 → text.now ≡ decimal number → result ≡ Some number }
{
    let (number, _) = number_at_front(text);
    let mut buffer = Buffer::new();
    if buffer.format(number).as_bytes() == text {
        Some(number)
    } else {
        None
    }
}

/// The second time, of what follows the first one.
fn until_of(rest: &[u8]) -> Option<&[u8]>
    ensures of { IfSome result (λ until. IsSegment until.now × (rest.now ≡ codes "/to/" ++ until.now)) }
    ensures each { (until : List ℕ) → IsSegment until → rest.now ≡ codes "/to/" ++ until → IsSome result }
{
    if !rest.starts_with(b"/to/") {
        return None;
    }
    let until = &rest[4..];
    if until.is_empty() || first_slash(until).is_some() {
        None
    } else {
        Some(until)
    }
}

/// What is asked for by one time, or by two with `/to/` between them.
fn times_of(text: &[u8]) -> Option<Wish<'_>>
    ensures named { IfSome result (λ wish. IsWish wish × (codes "/from/" ++ text.now ≡ path_to wish)) }
    ensures each { (wish : WishOf) → IsWish wish → codes "/from/" ++ text.now ≡ path_to wish → IsSome result }
{
    let Some(slash) = first_slash(text) else {
        return if text.is_empty() {
            None
        } else {
            Some(Wish::From(text))
        };
    };
    let (since, rest) = text.split_at(slash);
    match until_of(rest) {
        Some(until) if !since.is_empty() => Some(Wish::Between(since, until)),
        _ => None,
    }
}

impl<'a> Wish<'a> {
    /// What the target names, if it is one of these.
    pub fn of(target: &'a [u8]) -> Option<Wish<'a>>
        ensures named { IfSome result (λ wish. IsWish wish × (path_of target.now ≡ path_to wish)) }
        ensures each { (wish : WishOf) → IsWish wish → path_of target.now ≡ path_to wish → IsSome result }
    {
        let path = path_of(target);
        if path == b"/files".as_slice() {
            Some(Wish::Files)
        } else if path.starts_with(b"/file/") {
            Some(Wish::File(number_of(&path[6..])?))
        } else if path.starts_with(b"/from/") {
            times_of(&path[6..])
        } else {
            None
        }
    }
}
