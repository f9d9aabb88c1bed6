//! What the target of a request names.
ghost use Rattle.std.specs.Prelude.{◌≡◌, IfSome};
ghost use Rattle.ogg_http.specs.Target.{IsResource, first_slash, has_scheme, name_of, named_by, named_by_numbers, path_of, path_to, resource_of};
ghost use Rattle.ogg_http.specs.declared.target.Resource.{Resource};

use crate::digits::{is_number, value_of};

/// What is served.
#[derive(Clone, Copy, Debug, PartialEq, Eq)]
pub enum Resource {
    /// The listing of links and streams.
    List,
    /// The whole file.
    All,
    /// A link, by its number from 0.
    Link(u32),
    /// A stream of a link, by its serial.
    Stream(u32, u32),
}

fn first_slash(text: &[u8]) -> Option<usize>
    ensures { result ≡ first_slash text.now }
{
    text.iter().position(|b| *b == b'/')
}

fn has_scheme(target: &[u8]) -> bool
    ensures { result ≡ has_scheme target.now }
{
    target.len() >= 7 && target[..7].eq_ignore_ascii_case(b"http://")
}

/// The path of a target: what follows the authority of one in absolute form (RFC 9112, section 3.2.2), `/` if nothing
/// does, and any other target as it is.
pub fn path_of(target: &[u8]) -> &[u8]
    ensures { result.now ≡ path_of target.now }
{
    if !has_scheme(target) {
        return target;
    }
    let rest = &target[7..];
    match first_slash(rest) {
        Some(slash) => &rest[slash..],
        None => b"/",
    }
}

fn name_of(text: &[u8]) -> Option<u32>
    ensures { result ≡ name_of text.now }
{
    if is_number(text) && (text.len() == 1 || text[0] != b'0') {
        // A value past 64 bits was cut to the largest of 64 bits, and that is past 32 bits too.
        u32::try_from(value_of(text)).ok()
    } else {
        None
    }
}

fn named_by_numbers(text: &[u8]) -> Option<Resource>
    ensures { result ≡ named_by_numbers (first_slash text.now) text.now }
{
    match first_slash(text) {
        Some(slash) => {
            let link = name_of(&text[..slash])?;
            let serial = name_of(&text[slash + 1..])?;
            Some(Resource::Stream(link, serial))
        }
        None => Some(Resource::Link(name_of(text)?)),
    }
}

fn named_by(path: &[u8]) -> Option<Resource>
    ensures { result ≡ named_by path.now }
{
    if path == b"/".as_slice() {
        Some(Resource::List)
    } else if path == b"/all".as_slice() {
        Some(Resource::All)
    } else if path.starts_with(b"/link/") {
        named_by_numbers(&path[6..])
    } else {
        None
    }
}

impl Resource {
    /// What the target names, if anything.
    pub fn of(target: &[u8]) -> Option<Resource>
        // A target names exactly the resource whose path it has.
        ensures named { IfSome result (λ resource. path_of target.now ≡ path_to resource) }
        ensures each { (resource : Resource) → IsResource resource
            → path_of target.now ≡ path_to resource → result ≡ Some resource }

        // The same as a function.
        ensures resource { result ≡ resource_of target.now }
    {
        named_by(path_of(target))
    }
}
