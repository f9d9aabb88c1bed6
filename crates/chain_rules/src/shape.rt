//! The chain of the links so far.
ghost use Rattle.std.specs.Prelude.{◌≡◌, ◌≤◌, ◌<◌, ◌+◌, ◌++◌, ◌^◌, ℕ, List, [], OnOk, OnErr, IfOk, IfSome, IsOk, Ok, Err, Option, Some, None, length, vec_len, vec_capacity};
ghost use Rattle.ogg_page.specs.Page.{Page as PageValue, page_size};

use crate::Memory;
use crate::accepting::{has_more_pages, streams_of};
use crate::begin::stream_count;
use crate::checks::{check_begin, check_end, check_put};
use crate::plan::Plan;
use command_pages::{CommandPages, lay_command};
use link_chain::{Chain, ChainFault, Serials, StreamState};
use ogg_command::{Begin, Command, Put, Refusal};
use ogg_page::Page;
use std::alloc::Global;
use std::marker::Model;

/// The chain of the links so far, as far as the rules for a next command depend on it.
#[derive(Debug, Drop)]
pub struct Shape {
    chain: Chain,
}

impl Model for Shape {
    ghost use Rattle.chain_rules.specs.Shape.{ShapeState};

    ghost Value = { ShapeState };

    ghost view = { λ s. s.chain };
}

impl Shape {
    ghost use Rattle.link_chain.specs.ChainState.{chain_state_of};
    ghost use Rattle.chain_rules.specs.Decision.{decision};
    ghost use Rattle.chain_rules.specs.Limits.{longest_file};
    ghost use Rattle.chain_rules.specs.Plan.{IsPlanOf, chain_by};
    ghost use Rattle.chain_rules.specs.Shape.{HasRoom};
    ghost use Rattle.chain_rules.specs.Encoding.{command_bytes, links_after, pages_of_command};
    ghost use Rattle.link_chain.specs.Taking.{fault_of_page, links_with, unfinished_stream, HasRoomFor};
    ghost use Rattle.link_chain.specs.declared.chain_fault.ChainFault.{ChainFault as ChainFaultOf};

    /// The chain of no links.
    pub fn new(alloc: Global) -> Self
        ensures { result.chain ≡ chain_state_of [] }
    {
        Shape {
            chain: Chain::new(alloc),
        }
    }

    /// The chain to which a command is added next, as that of a file that is opened.
    pub fn of(chain: Chain) -> Self
        ensures { result ≡ chain }
    {
        Shape { chain }
    }

    /// How many bytes the pages of its links have.
    pub fn len(&self) -> u64
        ensures { result ≡ self.now.chain.length_of }
    {
        self.chain.len()
    }

    /// The streams of the last link, in the order of their first pages.
    pub fn streams(&self) -> &[StreamState]
        ensures { result.now ≡ self.now.chain.streams }
    {
        self.chain.streams()
    }

    /// The serials of all streams of all links.
    pub fn serials(&self) -> &Serials
        ensures { result.now.listed ≡ self.now.chain.serials }
    {
        self.chain.serials()
    }

    /// How many links there are.
    pub fn links(&self) -> u64
        ensures { result ≡ self.now.chain.links }
    {
        self.chain.links()
    }

    /// The size in bytes of the pages that a command would add, or why it is refused: the first reason in the order
    /// of `Refusal`. With them, and the byte after them, the file isn't longer than it may be.
    pub fn check(&self, command: &Command) -> Result<u64, Refusal>
        ensures decides { result ≡ decision self.now.chain command.now }
        ensures fits { IfOk result (λ size. self.now.chain.length_of + size < longest_file) }
    {
        self.decide(command)
    }

    fn decide(&self, command: &Command) -> Result<u64, Refusal>
        ensures { result ≡ decision self.now.chain command.now }
    {
        match command {
            Command::Begin(begin) => check_begin(
                self.chain.streams(),
                self.chain.serials(),
                self.chain.links(),
                self.chain.len(),
                begin,
            ),
            Command::Put(put) => check_put(self.chain.streams(), self.chain.len(), put),
            Command::End(serial) => check_end(self.chain.streams(), self.chain.len(), *serial),
        }
    }

    /// Decides a command as `check` does, and plans what the chain is after it, for `accept_plan`. After a refusal the
    /// plan may be anything.
    #[inline(always)]
    pub fn plan(&self, command: &Command, plan: &mut Plan) -> Result<u64, Refusal>
        ensures decides { result ≡ decision self.now.chain command.now }
        ensures fits { IfOk result (λ size. self.now.chain.length_of + size < longest_file) }
        ensures planned { IfOk result (λ _. IsPlanOf self.now.chain command.now plan.new) }
    {
        self.decide_by(command, plan)
    }

    fn decide_by(&self, command: &Command, plan: &mut Plan) -> Result<u64, Refusal>
        ensures decides { result ≡ decision self.now.chain command.now }
        ensures planned { IfOk result (λ _. IsPlanOf self.now.chain command.now plan.new) }
    {
        match command {
            Command::Begin(begin) => self.plan_begin(begin, plan),
            Command::Put(put) => self.plan_put(put, plan),
            Command::End(serial) => self.plan_end(*serial, plan),
        }
    }

    fn plan_begin(&self, begin: &Begin, plan: &mut Plan) -> Result<u64, Refusal>
        ensures decides { result ≡ decision self.now.chain (Command.Begin begin.now) }
        ensures planned { IfOk result (λ _. IsPlanOf self.now.chain (Command.Begin begin.now) plan.new) }
    {
        let size = match check_begin(
            self.chain.streams(),
            self.chain.serials(),
            self.chain.links(),
            self.chain.len(),
            begin,
        ) {
            Ok(size) => size,
            Err(refusal) => return Err(refusal),
        };
        let streams = streams_of(begin.skeleton, begin.streams.as_slice());
        plan.set(streams.as_slice(), size);
        Ok(size)
    }

    fn plan_put(&self, put: &Put, plan: &mut Plan) -> Result<u64, Refusal>
        ensures decides { result ≡ decision self.now.chain (Command.Put put.now) }
        ensures planned { IfOk result (λ _. IsPlanOf self.now.chain (Command.Put put.now) plan.new) }
    {
        plan.put(self.chain.streams(), self.chain.len(), put)
    }

    fn plan_end(&self, serial: u32, plan: &mut Plan) -> Result<u64, Refusal>
        ensures decides { result ≡ decision self.now.chain (Command.End serial) }
        ensures planned { IfOk result (λ _. IsPlanOf self.now.chain (Command.End serial) plan.new) }
    {
        let size = match check_end(self.chain.streams(), self.chain.len(), serial) {
            Ok(size) => size,
            Err(refusal) => return Err(refusal),
        };
        plan.end(self.chain.streams(), serial, size);
        Ok(size)
    }

    /// Appends the pages of a command that `check` takes. After `Memory` the vector is unchanged.
    #[inline(always)]
    pub fn lay(&self, command: &Command, out: &mut Vec<u8>) -> Result<(), Memory>
        requires { IsOk (decision self.now.chain command.now) }
        ensures ok { OnOk result (out.new.items ≡ out.old.items ++ command_bytes self.now.chain command.now) }
        ensures err { OnErr result (out.new.items ≡ out.old.items) }
        ensures full { OnErr result (vec_capacity out.old < vec_len out.old + length (command_bytes self.now.chain command.now)) }
        ensures capacity { vec_capacity out.old ≤ vec_capacity out.new }
    {
        lay_command(&self.chain, command, out)
    }

    /// The pages of a command that `check` takes, as `lay` appends them, to be made one at a time. Neither this nor
    /// making them takes memory, so there are always pages.
    pub fn pages<'a>(&self, command: &'a Command) -> Result<CommandPages<'a>, Memory>
        requires { IsOk (decision self.now.chain command.now) }
        ensures always { IsOk result }
        ensures pages { IfOk result (λ pages. pages ≡ pages_of_command self.now.chain command.entry.now) }
    {
        Ok(CommandPages::of(&self.chain, command))
    }

    /// Makes the room that `accept` needs for a command. The chain stays as it is. After `Memory` a
    /// part of the room may be made.
    #[inline]
    pub fn prepare(&mut self, command: &Command) -> Result<(), Memory>
        ensures chain { self.new.chain ≡ self.old.chain }
        ensures room { OnOk result (HasRoom self.new command.now) }
        ensures full { OnErr result (HasRoom self.old command.now → ⊥) }
    {
        if let Command::Begin(begin) = command {
            self.chain.reserve_link(stream_count(begin))?;
        }
        Ok(())
    }

    /// Adds a command to the chain. It takes no memory: `prepare` has made the room.
    pub fn accept(&mut self, command: &Command)
        requires kept { IsOk (decision self.old.chain command.now) }
        requires room { HasRoom self.old command.now }
        ensures links { (links : List (List PageValue)) → self.old.chain ≡ chain_state_of links
            → self.new.chain ≡ chain_state_of (links_after links command.now) }
        ensures grows { (links : List (List PageValue)) (size : ℕ) → self.old.chain ≡ chain_state_of links → decision self.old.chain command.now ≡ Ok size
            → self.new.chain.length_of ≡ self.old.chain.length_of + size }
    {
        let mut plan = Plan::new();
        if self.plan(command, &mut plan).is_ok() {
            self.accept_plan(command, &plan);
        }
    }

    /// Adds a command to the chain by its plan, and decides nothing again. It takes no memory: `prepare` has made the
    /// room.
    #[inline(always)]
    pub fn accept_plan(&mut self, command: &Command, plan: &Plan)
        requires planned { IsPlanOf self.old.chain command.now plan.now }
        requires room { HasRoom self.old command.now }
        ensures links { (links : List (List PageValue)) → self.old.chain ≡ chain_state_of links
            → self.new.chain ≡ chain_state_of (links_after links command.now) }
        ensures grows { (links : List (List PageValue)) (size : ℕ) → self.old.chain ≡ chain_state_of links
            → decision self.old.chain command.now ≡ Ok size → self.new.chain.length_of ≡ self.old.chain.length_of + size }
    {
        match command {
            Command::Begin(begin) => self.add_link(begin, plan.streams(), plan.size()),
            Command::Put(_) => self.chain.go_on(plan.streams(), plan.size()),
            Command::End(_) => self.chain.go_on(plan.streams(), plan.size()),
        }
    }

    /// Adds a new link, after which there are these streams; its pages have this size.
    fn add_link(&mut self, begin: &Begin, streams: &[StreamState], size: u64)
        requires planned { IsPlanOf self.old.chain (Command.Begin begin.now)
            (record { streams = streams.now; size = size }) }
        requires room { HasRoom self.old (Command.Begin begin.now) }
        ensures after { self.new.chain ≡ chain_by self.old.chain (Command.Begin begin.now)
            (record { streams = streams.now; size = size }) }
        ensures time { IfSome begin.now.skeleton (λ head. length head.utc ≡ 20) }
    {
        let has_data = has_more_pages(begin.skeleton, begin.streams.as_slice());
        self.chain.add_link(streams, has_data, size);
    }

    /// Takes a page that was read into the chain, or reports why it may not follow: the first fault in this order. A
    /// page that isn't its stream's first: `BosPlace`, `NoStream`, `AfterEos`, `Sequence`, `Continued`,
    /// `EosUnfinished`. A first page that begins a link, since all streams have ended: `BosShape`, `TooMany`. Another
    /// first page: `BosWhileOpen`, `SerialTwice`, `BosShape`, `TooMany`. Last comes `Memory`, which only a first page
    /// can meet. After a fault the chain is as it was (RFC 3533, sections 4 to 6).
    pub fn take_page(&mut self, page: &Page<'_>) -> Result<(), ChainFault>
        requires { self.old.chain.length_of + page_size page.now < 2 ^ 63 }
        ensures fault { (fault : ChainFaultOf) → fault_of_page self.old.chain page.now ≡ Some fault → result ≡ Err fault }
        ensures memory { fault_of_page self.old.chain page.now ≡ None → OnErr result ((result ≡ Err ChainFault.Memory) × (HasRoomFor self.old page.now → ⊥)) }
        ensures links { OnOk result ((links : List (List PageValue)) → self.old.chain ≡ chain_state_of links
            → self.new.chain ≡ chain_state_of (links_with links page.now)) }
        ensures grows { OnOk result (self.new.chain.length_of ≡ self.old.chain.length_of + page_size page.now) }
        ensures same { OnErr result (self.new.chain ≡ self.old.chain) }
    {
        self.chain.take_page(page)
    }

    /// The serial of the first stream of the last link, in the order of their first pages, that has
    /// an unfinished packet. In the links before it none has one, once their pages were taken.
    pub fn unfinished(&self) -> Option<u32>
        ensures { result ≡ unfinished_stream self.now.chain }
    {
        self.chain.unfinished()
    }
}
