//! The targets that a station answers itself.
ghost use Rattle.std.specs.Prelude.{◌≡◌};
ghost use Rattle.ogg_http.specs.Target.{path_of};
ghost use Rattle.serve_sources.specs.Own.{ends_path, is_at, may_be_at, may_be_own_path, may_be_own_target, may_have_scheme, own_at, own_of};

use ogg_http::path_of;

/// What a station answers itself. Each has its path, which a query may follow.
#[derive(Clone, Copy, Debug, PartialEq, Eq)]
pub enum OwnResource {
    /// What is recorded now, without an end: `/live` or `/live.ogg`.
    Live,
    /// A page on which people listen: `/player`.
    Player,
    /// How the station fares, in numbers: `/status`.
    Status,
}

fn ends_path(rest: &[u8]) -> bool
    ensures { result ≡ ends_path rest.now }
{
    match rest {
        [] => true,
        [b, ..] => *b == b'?',
    }
}

fn is_at(name: &[u8], path: &[u8]) -> bool
    ensures { result ≡ is_at name.now path.now }
{
    path.starts_with(name) && ends_path(&path[name.len()..])
}

fn own_at(path: &[u8]) -> Option<OwnResource>
    ensures { result ≡ own_at path.now }
{
    if is_at(b"/live", path) || is_at(b"/live.ogg", path) {
        Some(OwnResource::Live)
    } else if is_at(b"/player", path) {
        Some(OwnResource::Player)
    } else if is_at(b"/status", path) {
        Some(OwnResource::Status)
    } else {
        None
    }
}

/// What the target names, if the station answers it itself.
pub fn own_of(target: &[u8]) -> Option<OwnResource>
    ensures { result ≡ own_of target.now }
{
    own_at(path_of(target))
}

fn may_be_at(name: &[u8], path: &[u8]) -> bool
    ensures { result ≡ may_be_at name.now path.now }
{
    name.starts_with(path) || is_at(name, path)
}

fn may_be_own_path(path: &[u8]) -> bool
    ensures { result ≡ may_be_own_path path.now }
{
    may_be_at(b"/live", path)
        || may_be_at(b"/live.ogg", path)
        || may_be_at(b"/player", path)
        || may_be_at(b"/status", path)
}

/// Whether the target is the beginning of an absolute form (RFC 9112, section 3.2.2).
pub fn may_have_scheme(target: &[u8]) -> bool
    ensures { result ≡ may_have_scheme target.now }
{
    let count = target.len().min(7);
    target[..count].eq_ignore_ascii_case(&b"http://"[..count])
}

/// Whether more bytes may make this a target that the station answers itself.
pub fn may_be_own_target(target: &[u8]) -> bool
    ensures { result ≡ may_be_own_target target.now }
{
    may_be_own_path(target) || may_have_scheme(target)
}
