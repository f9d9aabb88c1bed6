//! The pages that bytes begin with, taken into a chain.
ghost use Rattle.std.specs.Prelude.{◌≡◌, ◌≤◌, ◌<◌, ◌+◌, ◌^◌, List, Some, length};
ghost use Rattle.ogg_page.specs.Page.{Page};
ghost use Rattle.link_chain.specs.ChainState.{chain_state_of};
ghost use Rattle.link_chain.specs.Walk.{TakesPages};

use crate::chain::Chain;
use crate::chain_fault::ChainFault;
use ogg_page::{PageFault, split_page};

/// Why no further page is taken.
#[derive(Clone, Copy, Debug, PartialEq, Eq)]
pub enum WalkFault {
    /// No page stands there.
    Page(PageFault),
    /// The page that stands there may not follow, or memory was refused.
    Chain(ChainFault),
}

/// What taking the pages of bytes has done.
#[derive(Clone, Copy, Debug, PartialEq, Eq)]
pub struct Walk {
    /// How many bytes the pages that were taken have.
    pub end: usize,
    /// Why the page after them wasn't taken, if bytes are left.
    pub fault: Option<WalkFault>,
}

/// Takes the pages that the bytes begin with into the chain, one by one. It stops at the first
/// place with no page, or with one that may not follow.
pub fn take_pages(chain: &mut Chain, bytes: &[u8]) -> Walk
    requires { chain.old.chain.length_of + length bytes.now < 2 ^ 63 }
    ensures walk { (links : List (List Page)) → chain.old.chain ≡ chain_state_of links → TakesPages links bytes.now chain.new.chain result }
    ensures grows { chain.new.chain.length_of ≡ chain.old.chain.length_of + result.end }
{
    let mut rest = bytes;
    while !rest.is_empty() {
        let (page, behind) = match split_page(rest) {
            Ok(split) => split,
            Err(fault) => return stopped(bytes, rest, WalkFault::Page(fault)),
        };
        if let Err(fault) = chain.take_page(&page) {
            return stopped(bytes, rest, WalkFault::Chain(fault));
        }
        rest = behind;
    }
    Walk {
        end: bytes.len(),
        fault: None,
    }
}

/// The walk stops with these bytes left.
fn stopped(bytes: &[u8], rest: &[u8], fault: WalkFault) -> Walk
    requires { length rest.now ≤ length bytes.now }
    ensures end { result.end + length rest.now ≡ length bytes.now }
    ensures fault { result.fault ≡ Some fault }
{
    Walk {
        end: bytes.len() - rest.len(),
        fault: Some(fault),
    }
}
