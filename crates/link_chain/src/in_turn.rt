//! What takes pages in turn.
ghost use Rattle.std.specs.Prelude.{◌≡◌, ◌+◌, ◌<◌, ◌^◌, ℕ, List, OnOk, IfErr};
ghost use Rattle.ogg_page.specs.Page.{Page as PageValue, page_size};
ghost use Rattle.link_chain.specs.Taking.{IsTaken};
ghost use Rattle.link_chain.specs.declared.chain_fault.ChainFault.{ChainFault as ChainFaultOf};

use crate::chain::Chain;
use crate::chain_fault::ChainFault;
use ogg_page::Page;

/// What takes the pages of a bitstream in turn, by the rules of a chain: a chain, or an index of one.
pub trait TakesInTurn {
    /// It has taken the pages of these links.
    ghost is_of: { List (List PageValue) → Self → Type 0 };

    /// How many bytes its pages have.
    ghost size: { Self → ℕ };

    /// Why it doesn't take a page, and what it is then.
    ghost refuses: { Self → PageValue → ChainFaultOf → Self → Type 0 };

    /// How many bytes its pages have.
    fn size(&self) -> u64
        ensures { result ≡ size self.now };

    /// Takes a page, or reports why it may not follow.
    fn take(&mut self, page: &Page<'_>) -> Result<(), ChainFault>
        requires { size self.old + page_size page.now < 2 ^ 63 }
        ensures taken { OnOk result (IsTaken is_of size self.old page.now self.new) }
        ensures refused { IfErr result (λ fault. refuses self.old page.now fault self.new) };
}

impl TakesInTurn for Chain {
    ghost use Rattle.std.specs.Prelude.{◌≡◌};
    ghost use Rattle.link_chain.specs.ChainState.{chain_state_of};
    ghost use Rattle.link_chain.specs.Taking.{IsRefused};

    ghost is_of = { λ links c. c.chain ≡ chain_state_of links };

    ghost size = { λ c. c.chain.length_of };

    ghost refuses = { IsRefused };

    fn size(&self) -> u64 {
        self.len()
    }

    fn take(&mut self, page: &Page<'_>) -> Result<(), ChainFault> {
        self.take_page(page)
    }
}
