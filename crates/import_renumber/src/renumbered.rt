//! A runner over a runner, which gives streams other serials.
ghost use Rattle.std.specs.Prelude.{◌≡◌, ◌<◌, ◌≤◌, ◌+◌, ◌^◌, ◌++◌, [], ℕ, List, Ok, Err, IfOk, OnErr, false, nat_eq, length};
ghost use Rattle.std.specs.List.{list_any};
ghost use Rattle.std.specs.Map.{values_of};
ghost use Rattle.feed_runner.specs.Refusing.{refuses};
ghost use Rattle.import_renumber.specs.Renumbering.{Answered, BeginsUnder, Failed, IsHeadFree, IsSpare, IsUnder, Renumbering, begun_serials, end_given, put_given};
ghost use Rattle.ogg_command.specs.declared.command.Command.{Command as CommandOf};

use crate::Memory;
use crate::copying::{entries_given, given_to, streams_named};
use feed_replies::Reply;
use feed_runner::Runner;
use import_changes::{free_serial, name_all};
use link_chain::Serials;
use ogg_command::{Begin, Command, Listed, NewStream, Put, Refusal, SkeletonHead};
use ogg_page::WriteFault;
use std::alloc::Global;
use std::io::Write;

/// A runner whose commands reach the runner below under serials that are free.
#[derive(Drop)]
pub struct Renumbered<T> {
    alloc: Global,
    below: T,
    // the serials that streams of the file have had
    taken: Serials,
    // of the last link that was begun: the serial that a stream had, and the one that it has now
    names: Vec<(u32, u32)>,
}

/// The names of a link's streams, the link under them, and the serials that it has then.
#[derive(Drop)]
struct Named {
    names: Vec<(u32, u32)>,
    begin: Begin,
    serials: Vec<u32>,
}

/// The Skeleton under the first free serial from its own on.
fn head_named(
    taken: &Serials,
    names: &[(u32, u32)],
    skeleton: Option<SkeletonHead>,
) -> Result<Option<SkeletonHead>, Memory>
    ensures { IfOk result (λ now. IsHeadFree taken.now.listed names.now skeleton now) }
{
    match skeleton {
        Some(head) => {
            let serial = free_serial(taken, names, head.serial)?;
            Ok(Some(SkeletonHead { serial, ..head }))
        }
        None => Ok(None),
    }
}

/// The serials of a link: its Skeleton's, if it has one, and its streams'.
fn serials_begun(alloc: Global, begin: &Begin) -> Result<Vec<u32>, Memory>
    ensures { IfOk result (λ serials. serials.items ≡ begun_serials begin.now) }
{
    let mut serials = Vec::new(alloc);
    if let Some(head) = begin.skeleton {
        serials.push(head.serial)?;
    }
    for stream in begin.streams.as_slice() {
        serials.push(stream.serial)?;
    }
    Ok(serials)
}

/// A copy of a new link, under serials that aren't taken.
fn begin_named(alloc: Global, taken: &Serials, begin: &Begin) -> Result<Named, Memory>
    ensures begins { IfOk result (λ named. BeginsUnder taken.now.listed named.names.items begin.now named.begin) }
    ensures serials { IfOk result (λ named. named.serials.items ≡ begun_serials named.begin) }
{
    let mut names = Vec::new(alloc);
    let _low = name_all(taken, &mut names, begin.streams.as_slice(), 0)?;
    let skeleton = head_named(taken, names.as_slice(), begin.skeleton)?;
    let streams = streams_named(alloc, names.as_slice(), begin.streams.as_slice())?;
    let begin = Begin {
        skeleton,
        streams: Listed::of(streams),
    };
    let serials = serials_begun(alloc, &begin)?;
    Ok(Named {
        names,
        begin,
        serials,
    })
}

/// Adds these serials, for which there is room.
fn push_all(taken: &mut Serials, serials: &[u32])
    requires { length serials.now ≤ taken.old.room }
    ensures { taken.new.listed ≡ taken.old.listed ++ serials.now }
{
    for serial in serials {
        taken.push_reserved(*serial);
    }
}

/// A serial that no stream of the link has.
fn spare_serial(taken: &Serials, names: &[(u32, u32)]) -> Result<u32, Memory>
    ensures { IfOk result (λ spare. IsSpare names.now spare) }
{
    free_serial(taken, names, u32::MAX)
}

/// A copy of packets, under the serials that their streams have now.
fn put_given(
    alloc: Global,
    taken: &Serials,
    names: &[(u32, u32)],
    put: &Put,
) -> Result<Command, Memory>
    ensures { IfOk result (λ now. (spare : ℕ) × IsSpare names.now spare × (now ≡ put_given names.now spare put.now)) }
{
    let spare = spare_serial(taken, names)?;
    let entries = entries_given(alloc, names, spare, put.entries.as_slice())?;
    Ok(Command::Put(Put {
        entries: Listed::of(entries),
    }))
}

/// The end of a stream, under the serial that it has now.
fn end_given(taken: &Serials, names: &[(u32, u32)], serial: u32) -> Result<Command, Memory>
    ensures { IfOk result (λ now. (spare : ℕ) × IsSpare names.now spare × (now ≡ end_given names.now spare serial)) }
{
    let spare = spare_serial(taken, names)?;
    Ok(Command::End(given_to(names, spare, serial)))
}

/// These serials, which are taken.
fn all_taken(alloc: Global, serials: &[u32]) -> Result<Serials, Memory>
    ensures { IfOk result (λ taken. taken.listed ≡ serials.now) }
{
    let mut taken = Serials::new(alloc);
    taken.reserve(serials.len())?;
    push_all(&mut taken, serials);
    Ok(taken)
}

/// Whether the reply is a refusal.
fn is_refusal(reply: Reply) -> bool
    ensures { result ≡ refuses reply }
{
    match reply {
        Reply::Held(_) => false,
        Reply::Kept(_) => false,
        Reply::Refused(_) => true,
    }
}

impl<T: Runner + Drop> Renumbered<T> {
    /// Streams get none of these serials, as those of the file that the runner below records into. After `Memory` the
    /// runner is lost.
    pub fn new(alloc: Global, below: T, serials: &[u32]) -> Result<Renumbered<T>, Memory>
        ensures below { IfOk result (λ runner. runner.below ≡ below) }
        ensures taken { IfOk result (λ runner. runner.taken.listed ≡ serials.now) }
        ensures names { IfOk result (λ runner. runner.names.items ≡ []) }
    {
        let taken = all_taken(alloc, serials)?;
        Ok(Renumbered {
            alloc,
            below,
            taken,
            names: Vec::new(alloc),
        })
    }

    /// The runner below.
    pub fn below(&self) -> &T
        ensures { result.now ≡ self.now.below }
    {
        &self.below
    }

    /// Gives back the runner below.
    pub fn give_back(self) -> T
        ensures { result ≡ self.below }
    {
        self.below
    }
}

impl<T: Runner> Renumbered<T> {
    /// Has a link begun under serials that are free.
    fn run_begin<P: Write>(&mut self, begin: &Begin, pages: &mut P) -> Result<Reply, WriteFault>
        requires count { T.counted self.old.below < 2 ^ 63 }
        ensures ok { (before : Renumbering T.State) → IsUnder T.is_in before self.old.below self.old.taken.listed self.old.names.items
            → IfOk result (λ reply. Answered T.answers T.is_in before (CommandOf.Begin begin.now) reply self.new.below self.new.taken.listed
            self.new.names.items (P.contents pages.old) (P.contents pages.new)) }
        ensures err { (before : Renumbering T.State) → IsUnder T.is_in before self.old.below self.old.taken.listed self.old.names.items
            → OnErr result (Failed T.answers T.is_in before (CommandOf.Begin begin.now) self.new.below self.new.taken.listed self.new.names.items
            (P.contents pages.old) (P.contents pages.new)) }
        ensures count { T.counted self.new.below ≤ T.counted self.old.below + 1 }
    {
        let named = match begin_named(self.alloc, &self.taken, begin) {
            Ok(named) => named,
            Err(_) => return Ok(Reply::Refused(Refusal::Memory)),
        };
        match self.taken.reserve(named.serials.len()) {
            Ok(()) => {}
            Err(_) => return Ok(Reply::Refused(Refusal::Memory)),
        }
        let Named {
            names,
            begin: now,
            serials,
        } = named;
        let reply = match self.below.run_command(&Command::Begin(now), pages) {
            Ok(reply) => reply,
            Err(fault) => return Err(fault),
        };
        if is_refusal(reply) {
            return Ok(reply);
        }
        push_all(&mut self.taken, serials.as_slice());
        self.names = names;
        Ok(reply)
    }

    /// Has packets put under the serials that their streams have now.
    fn run_put<P: Write>(&mut self, put: &Put, pages: &mut P) -> Result<Reply, WriteFault>
        requires count { T.counted self.old.below < 2 ^ 63 }
        ensures ok { (before : Renumbering T.State) → IsUnder T.is_in before self.old.below self.old.taken.listed self.old.names.items
            → IfOk result (λ reply. Answered T.answers T.is_in before (CommandOf.Put put.now) reply self.new.below self.new.taken.listed
            self.new.names.items (P.contents pages.old) (P.contents pages.new)) }
        ensures err { (before : Renumbering T.State) → IsUnder T.is_in before self.old.below self.old.taken.listed self.old.names.items
            → OnErr result (Failed T.answers T.is_in before (CommandOf.Put put.now) self.new.below self.new.taken.listed self.new.names.items
            (P.contents pages.old) (P.contents pages.new)) }
        ensures count { T.counted self.new.below ≤ T.counted self.old.below + 1 }
    {
        let now = match put_given(self.alloc, &self.taken, self.names.as_slice(), put) {
            Ok(now) => now,
            Err(_) => return Ok(Reply::Refused(Refusal::Memory)),
        };
        self.below.run_command(&now, pages)
    }

    /// Has a stream ended under the serial that it has now.
    fn run_end<P: Write>(&mut self, serial: u32, pages: &mut P) -> Result<Reply, WriteFault>
        requires count { T.counted self.old.below < 2 ^ 63 }
        ensures ok { (before : Renumbering T.State) → IsUnder T.is_in before self.old.below self.old.taken.listed self.old.names.items
            → IfOk result (λ reply. Answered T.answers T.is_in before (CommandOf.End serial) reply self.new.below self.new.taken.listed
            self.new.names.items (P.contents pages.old) (P.contents pages.new)) }
        ensures err { (before : Renumbering T.State) → IsUnder T.is_in before self.old.below self.old.taken.listed self.old.names.items
            → OnErr result (Failed T.answers T.is_in before (CommandOf.End serial) self.new.below self.new.taken.listed self.new.names.items
            (P.contents pages.old) (P.contents pages.new)) }
        ensures count { T.counted self.new.below ≤ T.counted self.old.below + 1 }
    {
        let now = match end_given(&self.taken, self.names.as_slice(), serial) {
            Ok(now) => now,
            Err(_) => return Ok(Reply::Refused(Refusal::Memory)),
        };
        self.below.run_command(&now, pages)
    }
}

impl<T: Runner> Runner for Renumbered<T> {
    ghost use Rattle.import_renumber.specs.Renumbering.{AnswersUnder, IsUnder, Renumbering};

    ghost State = { Renumbering T.State };

    ghost is_in = { λ before runner. IsUnder T.is_in before runner.below runner.taken.listed runner.names.items };

    ghost answers = { AnswersUnder T.answers };

    ghost held_in = { λ before. T.held_in before.below };

    ghost end_in = { λ before. T.end_in before.below };

    ghost counted = { λ runner. T.counted runner.below };

    fn run_command<P: Write>(
        &mut self,
        command: &Command,
        pages: &mut P,
    ) -> Result<Reply, WriteFault> {
        match command {
            Command::Begin(begin) => self.run_begin(begin, pages),
            Command::Put(put) => self.run_put(put, pages),
            Command::End(serial) => self.run_end(*serial, pages),
        }
    }

    fn run_flush(&mut self) -> Reply {
        self.below.run_flush()
    }

    fn waiting(&self) -> u64 {
        self.below.waiting()
    }

    fn kept_length(&self) -> u64 {
        self.below.kept_length()
    }
}
