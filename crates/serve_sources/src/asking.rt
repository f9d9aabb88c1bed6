//! What the first bytes of a connection ask for.
ghost use Rattle.std.specs.Prelude.{◌≡◌, ◌≢◌, ◌↔◌, ◌<◌, length, Bool, true, false, nat_eq, IfSome, Some};
ghost use Rattle.serve_sources.specs.declared.own.OwnResource.{OwnResource};
ghost use Rattle.std.specs.List.{starts_with};
ghost use Rattle.serve_sources.specs.Asking.{IsOther, IsOwn, MayCome, is_source, listener_method, may_be_listener, may_be_own, may_be_source, may_name_own, named};

use crate::own::{OwnResource, may_be_own_target, own_of};
use crate::places::place_of;
use ogg_http::{HeadRead, read_head};

/// What the first bytes of a connection ask for.
#[derive(Clone, Copy, Debug, PartialEq, Eq)]
pub enum Asks {
    /// More bytes must come before this is known.
    More,
    /// A source: the request's method is PUT or SOURCE.
    Source,
    /// What the station answers itself: `GET` or `HEAD` of its path.
    Own { resource: OwnResource, head: bool },
    /// Anything else. The file server answers it, byte for byte.
    File,
}

/// Whether a source's method comes first, and a space after it.
pub fn is_source(front: &[u8]) -> bool
    ensures { result ≡ is_source front.now }
{
    front.starts_with(b"PUT ") || front.starts_with(b"SOURCE ")
}

fn may_be_source(front: &[u8]) -> bool
    ensures { result ≡ may_be_source front.now }
{
    b"PUT ".starts_with(front) || b"SOURCE ".starts_with(front)
}

fn may_name_own(target: &[u8]) -> bool
    ensures { result ≡ may_name_own target.now }
{
    match place_of(b' ', target) {
        Some(end) => own_of(&target[..end]).is_some(),
        None => may_be_own_target(target),
    }
}

/// Whether more bytes may make this a listener's method, and a space after it.
pub fn may_be_listener(front: &[u8]) -> bool
    ensures { result ≡ may_be_listener front.now }
{
    b"GET ".starts_with(front) || b"HEAD ".starts_with(front)
}

fn may_be_own(front: &[u8]) -> bool
    ensures { result ≡ may_be_own front.now }
{
    if may_be_listener(front) {
        true
    } else if front.starts_with(b"GET ") {
        may_name_own(&front[4..])
    } else if front.starts_with(b"HEAD ") {
        may_name_own(&front[5..])
    } else {
        false
    }
}

fn named(target: &[u8], http11: bool, hosts: u32) -> Option<OwnResource>
    ensures { result ≡ named target.now http11 hosts }
{
    if http11 && hosts != 1 {
        None
    } else {
        own_of(target)
    }
}

/// What a whole head asks for that isn't a source's, if it names this of what the station answers itself.
fn asks_whole(front: &[u8], named: Option<OwnResource>) -> Asks
    ensures never { (result ≢ Asks.More) × (result ≢ Asks.Source) }
    ensures own { (resource : OwnResource) (head : Bool) → (result ≡ Asks.Own resource head) ↔
        ((starts_with nat_eq front.now (listener_method head) ≡ true) × (named ≡ Some resource)) }
{
    let Some(resource) = named else {
        return Asks::File;
    };
    if front.starts_with(b"GET ") {
        Asks::Own {
            resource,
            head: false,
        }
    } else if front.starts_with(b"HEAD ") {
        Asks::Own {
            resource,
            head: true,
        }
    } else {
        Asks::File
    }
}

impl Asks {
    /// What the bytes that have come so far ask for. It stays the same whatever follows, unless it is `More`.
    pub fn of(front: &[u8]) -> Asks
        // A source is known by its method.
        ensures source { (result ≡ Asks.Source) ↔ (is_source front.now ≡ true) }

        // A listener is known once its head is whole, and only then.
        ensures own { (resource : OwnResource) (head : Bool) → (result ≡ Asks.Own resource head) ↔ IsOwn resource head front.now }

        // What is awaited may come, and what isn't awaited doesn't come.
        ensures more { result ≡ Asks.More → MayCome front.now }
        ensures short { result ≡ Asks.More → length front.now < 8192 }
        ensures begins { may_be_source front.now ≡ true → is_source front.now ≡ false → result ≡ Asks.More }
        ensures file { result ≡ Asks.File → IsOther front.now }
    {
        if is_source(front) {
            return Asks::Source;
        }
        if may_be_source(front) {
            return Asks::More;
        }
        match read_head(front) {
            HeadRead::Whole(request) => {
                let named = named(request.target, request.http11, request.hosts);
                asks_whole(front, named)
            }
            HeadRead::Partial if may_be_own(front) => Asks::More,
            _ => Asks::File,
        }
    }
}
