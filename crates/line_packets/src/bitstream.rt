//! The pages of commands, one after the other.
ghost use Rattle.std.specs.Prelude.{◌≡◌, [], List, OnOk, OnErr};
ghost use Rattle.ogg_page.specs.Page.{Page};
ghost use Rattle.link_chain.specs.ChainState.{chain_state_of};
ghost use Rattle.line_packets.specs.Bitstream.{Adds};

use chain_rules::{Command, Plan, Refusal, Shape};
use std::alloc::Global;

/// A bitstream that is made command by command (RFC 3533, section 4).
#[derive(Debug, Drop)]
pub struct Bitstream {
    pub(crate) shape: Shape,
    // what one command makes of the chain
    plan: Plan,
}

impl Bitstream {
    /// It has no page yet. It takes no memory.
    pub fn new(alloc: Global) -> Bitstream
        ensures { result.shape.chain ≡ chain_state_of [] }
    {
        Bitstream {
            shape: Shape::new(alloc),
            plan: Plan::new(),
        }
    }

    /// Appends the pages of a command. After a refusal nothing is appended, and the bitstream is as it was.
    pub fn add(&mut self, command: &Command, pages: &mut Vec<u8>) -> Result<(), Refusal>
        ensures ok { OnOk result ((links : List (List Page)) → self.old.shape.chain ≡ chain_state_of links
            → Adds links command.now pages.old.items pages.new.items self.new.shape.chain) }
        ensures err { OnErr result ((self.new.shape.chain ≡ self.old.shape.chain) × (pages.new.items ≡ pages.old.items)) }
    {
        self.shape.plan(command, &mut self.plan)?;
        if self.shape.prepare(command).is_err() || self.shape.lay(command, pages).is_err() {
            return Err(Refusal::Memory);
        }
        self.shape.accept_plan(command, &self.plan);
        Ok(())
    }
}
