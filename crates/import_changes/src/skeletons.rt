//! Skeletons among the streams of a link: which are left out, and for which links one is made.
ghost use Rattle.std.specs.Prelude.{◌≡◌, ◌∷◌, ◌++◌, [], false, not, IfOk, OnErr, OnOk, length};
ghost use Rattle.std.specs.List.{filter, list_all};
ghost use Rattle.ogg_command.specs.declared.command.NewStream.{NewStream as NewStreamOf};
ghost use Rattle.import_commands.specs.Headers.{begins};
ghost use Rattle.skeleton3.specs.Fishead.{fishead_name};
ghost use Rattle.import_changes.specs.Memory.{IsParted};
ghost use Rattle.import_changes.specs.Said.{first_of};
ghost use Rattle.import_changes.specs.Skeletons.{headers_in, is_other, is_skeleton, leaves_out, made_for, said_in, staying};

use crate::options::Skeletons;
use link_chain::MOST_STREAMS;
use ogg_command::{Listed, Memory, NewStream};
use std::alloc::Global;

/// A stream's first header, or no bytes if it has none.
pub fn first_header(headers: &[Listed<u8>]) -> &[u8]
    ensures { result.now ≡ first_of headers.now }
{
    match headers.first() {
        Some(first) => first.as_slice(),
        None => &[],
    }
}

/// Whether the stream is a Skeleton: its first header begins as a fishead.
fn is_skeleton(stream: &NewStream) -> bool
    ensures { result ≡ is_skeleton stream.now }
{
    first_header(stream.headers.as_slice()).starts_with(b"fishead\0")
}

/// Whether each of the streams is a Skeleton.
fn are_skeletons(streams: &[NewStream]) -> bool
    ensures { result ≡ list_all is_skeleton streams.now }
{
    for stream in streams {
        if !is_skeleton(stream) {
            return false;
        }
    }
    true
}

/// Appends a stream's headers.
fn add_headers(said: &mut Vec<Listed<u8>>, headers: Vec<Listed<u8>>) -> Result<(), Memory>
    ensures { OnOk result (said.new.items ≡ said.old.items ++ headers.items) }
{
    for header in headers {
        said.push(header)?;
    }
    Ok(())
}

/// The streams that are no Skeletons, and the headers of those that are.
fn parted(
    alloc: Global,
    streams: Vec<NewStream>,
) -> Result<(Vec<NewStream>, Vec<Listed<u8>>), Memory>
    ensures { IfOk result (λ now. (now.0.items ≡ filter is_other streams.items)
        × (now.1.items ≡ headers_in (filter is_skeleton streams.items))) }
{
    let mut others = Vec::new(alloc);
    let mut said = Vec::new(alloc);
    for stream in streams {
        if is_skeleton(&stream) {
            add_headers(&mut said, stream.headers.into_vec())?;
        } else {
            others.push(stream)?;
        }
    }
    Ok((others, said))
}

/// Whether Skeletons are left out.
fn leaves_out(skeletons: Skeletons) -> bool
    ensures { result ≡ leaves_out skeletons }
{
    match skeletons {
        Skeletons::Kept => false,
        Skeletons::LeftOut | Skeletons::Made(_) => true,
    }
}

/// The streams of a link that stay, and the headers of those that are left out.
pub fn staying(
    alloc: Global,
    skeletons: Skeletons,
    streams: Vec<NewStream>,
) -> Result<(Vec<NewStream>, Vec<Listed<u8>>), Memory>
    ensures stay { IfOk result (λ now. (now.0.items ≡ staying skeletons streams.items)
        × (now.1.items ≡ said_in skeletons streams.items)) }
    ensures full { OnErr result (IsParted skeletons streams.items) }
{
    if !leaves_out(skeletons) || are_skeletons(streams.as_slice()) {
        return Ok((streams, Vec::new(alloc)));
    }
    parted(alloc, streams)
}

/// The serial from which the search for a free one begins, if a Skeleton is made for these streams.
pub fn made_for(skeletons: Skeletons, streams: &[NewStream]) -> Option<u32>
    ensures { result ≡ made_for skeletons streams.now }
{
    match skeletons {
        Skeletons::Kept | Skeletons::LeftOut => None,
        Skeletons::Made(from) => {
            if are_skeletons(streams) || streams.len() >= MOST_STREAMS {
                return None;
            }
            Some(from)
        }
    }
}
