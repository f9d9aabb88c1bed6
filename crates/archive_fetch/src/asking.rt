//! What a connection asks for of an archive.
ghost use Rattle.std.specs.Prelude.{◌≡◌, ◌≤◌, ℕ, List, false, true, length, IfSome, IsSome};
ghost use Rattle.httparse.specs.Grammar.{RequestHead, ReadsRequest};
ghost use Rattle.ogg_http.specs.Head.{HoldsRequest, IsAwaited, head_bytes, most_fields};
ghost use Rattle.ogg_http.specs.Target.{path_of};
ghost use Rattle.serve_sources.specs.Asking.{is_source};
ghost use Rattle.archive_fetch.specs.Wishes.{IsSettled, IsWish, may_begin, may_name, may_wish, path_to};
ghost use Rattle.archive_fetch.specs.declared.wishes.Wish.{Wish as WishOf};

use crate::wishes::Wish;
use ogg_http::{HeadRead, Request, read_head};
use serve_sources::{is_source, may_be_listener, may_have_scheme};

/// The request at the front of these bytes and what it asks for of an archive, once its head is whole, if it does. Whoever
/// sends a stream asks for nothing.
pub fn asked_of<'a>(front: &'a [u8]) -> Option<(Request<'a>, Wish<'a>)>
    ensures asked { IfSome result (λ (request, wish). (is_source front.now ≡ false)
        × ((head : RequestHead) × HoldsRequest (head_bytes front.now) head request) × IsWish wish × (path_of request.target.now ≡ path_to wish)) }
    ensures each { (head : RequestHead) (rest : List ℕ) (wish : WishOf) → is_source front.now ≡ false
        → ReadsRequest (head_bytes front.now) head rest → length head.fields ≤ most_fields
        → IsWish wish → path_of head.target ≡ path_to wish → IsSome result }
{
    if is_source(front) {
        return None;
    }
    match read_head(front) {
        HeadRead::Whole(request) => {
            let wish = Wish::of(request.target)?;
            Some((request, wish))
        }
        _ => None,
    }
}

fn may_begin(name: &[u8], target: &[u8]) -> bool
    ensures { result ≡ may_begin name.now target.now }
{
    name.starts_with(target) || target.starts_with(name)
}

fn may_name(target: &[u8]) -> bool
    ensures { result ≡ may_name target.now }
{
    may_begin(b"/file", target) || may_begin(b"/from/", target) || may_have_scheme(target)
}

fn may_wish(front: &[u8]) -> bool
    ensures { result ≡ may_wish front.now }
{
    if may_be_listener(front) {
        true
    } else if front.starts_with(b"GET ") {
        may_name(&front[4..])
    } else if front.starts_with(b"HEAD ") {
        may_name(&front[5..])
    } else {
        false
    }
}

/// Whether more bytes may make this a listener's request for something of an archive: neither its method and its target, as
/// far as they have come, rule that out, nor what follows them.
pub fn may_ask(front: &[u8]) -> bool
    ensures awaited { result ≡ true → (may_wish front.now ≡ true) × IsAwaited front.now }
    ensures settled { result ≡ false → IsSettled front.now }
{
    match read_head(front) {
        HeadRead::Partial => may_wish(front),
        HeadRead::Whole(_) => false,
        HeadRead::Bad => false,
    }
}
