//! The pages of a command are staged after those that wait.
ghost use Rattle.std.specs.Prelude.{◌≡◌, ◌↔◌, ◌⊎◌, ◌+◌, ◌-◌, ◌^◌, ◌<◌, ◌≤◌, ◌++◌, ◌∷◌, [], true, false, List, ℕ, length, Some, OnOk, IsOk, IsErr, Ok, Err, vec_capacity};
ghost use Rattle.std.specs.List.{AllByRecursion};
ghost use Rattle.disk_model.specs.Leaving.{LeavesOnly};
ghost use Rattle.disk_model.specs.Frame.{Frame};
ghost use Rattle.ogg_page.specs.Page.{Page, IsPage, page_bytes, bytes_of_pages};
ghost use Rattle.gate_file.specs.Commit.{CommitsTo};
ghost use Rattle.gate_file.specs.Gate.{EachImage};
ghost use Rattle.gate_file.specs.GateFile.{committed, staged_bytes};
ghost use Rattle.chain_rules.specs.Decision.{decision};
ghost use Rattle.chain_rules.specs.Encoding.{command_bytes, pages_of_command};
ghost use Rattle.chain_rules.specs.Shape.{HasRoom};
ghost use Rattle.file_recorder.specs.Small.{is_small, most_small};

use chain_rules::{Command, CommandPages, Shape, command_adds_its_packets};
use disk_model::{Disk, DiskFault};
use gate_file::{GateFile, Memory};
use ogg_page::PageBuffer;
use std::alloc::Global;
use std::marker::Model;

/// A page of at most this many bytes is made in room that is kept, and isn't made in the buffer.
const SMALL: u64 = 4_096;

/// Room for the page of a small command and the byte after it, taken once.
#[derive(Drop)]
pub(crate) struct SmallPage {
    bytes: Vec<u8>,
}

impl Model for SmallPage {
    ghost use Rattle.std.specs.Prelude.{List, ℕ, ◌<◌, vec_capacity};
    ghost use Rattle.file_recorder.specs.Small.{most_small};

    ghost Value = { List ℕ };

    ghost view = { λ s. s.bytes.items };

    ghost invariant = { λ s. most_small < vec_capacity s.bytes };
}

impl SmallPage {
    /// Takes the room.
    pub(crate) fn new(alloc: Global) -> Result<SmallPage, Memory> {
        let bytes = Vec::with_capacity(alloc, SMALL as usize + 1)?;
        Ok(SmallPage { bytes })
    }

    /// Makes the pages of a command, and a closed byte after them. It takes no memory.
    fn make(&mut self, shape: &Shape, command: &Command)
        requires kept { IsOk (decision shape.now.chain command.now) }
        requires small { length (command_bytes shape.now.chain command.now) ≤ most_small }
        ensures { self.new ≡ command_bytes shape.now.chain command.now ++ 0 ∷ [] }
    {
        make_closed(shape, command, &mut self.bytes);
    }

    /// The page that was made, and the byte after it.
    fn as_slice(&self) -> &[u8]
        ensures { result.now ≡ self.now }
    {
        self.bytes.as_slice()
    }
}

/// Why the pages of a command aren't staged.
pub(crate) enum Unstaged {
    /// Memory was refused before the first call of the disk.
    Memory,
    Disk,
}

/// Makes the room for a command in the chain, and stages its pages, which have this many bytes. No other memory is
/// taken. The one page of a small command is made in `small`, and other pages in turn in the buffer.
pub(crate) fn stage_command<D: Disk>(
    file: &mut GateFile<D>,
    shape: &mut Shape,
    command: &Command,
    size: u64,
    buffer: &mut PageBuffer,
    small: &mut SmallPage,
) -> Result<(), Unstaged>
    requires kept { decision shape.old.chain command.now ≡ Ok size }
    requires are { AllByRecursion IsPage (pages_of_command shape.old.chain command.now) }
    requires some { 0 < length (pages_of_command shape.old.chain command.now) }
    requires good { file.old.failed ≡ false }
    requires images { D.is_honest file.old.disk → EachImage (D.state file.old.disk) (CommitsTo (committed D.state file.old)) }
    ensures chain { shape.new.chain ≡ shape.old.chain }
    ensures room { OnOk result (HasRoom shape.new command.now) }
    ensures memory { result ≡ Err Unstaged.Memory → file.new ≡ file.old }
    ensures full { result ≡ Err Unstaged.Memory → HasRoom shape.old command.now → ⊥ }
    ensures failed { result ≡ Err Unstaged.Disk → file.new.failed ≡ true }
    ensures good { OnOk result (file.new.failed ≡ false) }
    ensures whole { OnOk result (file.new.whole ≡ true) }
    ensures end { file.new.end ≡ file.old.end }
    ensures staged { OnOk result (D.is_honest file.old.disk
        → staged_bytes D.state file.new ≡ staged_bytes D.state file.old ++ command_bytes shape.old.chain command.now) }
    ensures front { D.is_honest file.old.disk → committed D.state file.new ≡ committed D.state file.old }
    ensures any_moment { OnOk result (D.is_honest file.old.disk
        → LeavesOnly D.Disk file.old.disk file.new.disk (CommitsTo (committed D.state file.old))) }
    ensures any_moment_err { result ≡ Err Unstaged.Disk → D.is_honest file.old.disk
        → LeavesOnly D.Disk file.old.disk file.new.disk (CommitsTo (committed D.state file.old)) }
    ensures frame { Frame D.Disk file.old.disk file.new.disk (result ≡ Err Unstaged.Disk) }
{
    // For the proof alone.
    command_adds_its_packets();
    match shape.prepare(command) {
        Ok(()) => {}
        Err(Memory) => return Err(Unstaged::Memory),
    }
    let staged = if is_small(command, size) {
        small.make(shape, command);
        file.stage_last(small.as_slice())
    } else {
        stage_large(file, shape, command, buffer)
    };
    match staged {
        Ok(()) => Ok(()),
        Err(DiskFault) => Err(Unstaged::Disk),
    }
}

/// Stages the pages of a command, made in turn in the buffer. What is still to be made of them takes 2 KB of the stack,
/// which no small command is to clear: so this is a function of its own.
#[inline(never)]
fn stage_large<D: Disk>(
    file: &mut GateFile<D>,
    shape: &Shape,
    command: &Command,
    buffer: &mut PageBuffer,
) -> Result<(), DiskFault>
    requires kept { IsOk (decision shape.now.chain command.now) }
    requires are { AllByRecursion IsPage (pages_of_command shape.now.chain command.now) }
    requires some { 0 < length (pages_of_command shape.now.chain command.now) }
    requires good { file.old.failed ≡ false }
    requires images { D.is_honest file.old.disk → EachImage (D.state file.old.disk) (CommitsTo (committed D.state file.old)) }
    ensures failed { file.new.failed ≡ true ↔ IsErr result }
    ensures whole { OnOk result (file.new.whole ≡ true) }
    ensures end { file.new.end ≡ file.old.end }
    ensures staged { OnOk result (D.is_honest file.old.disk
        → staged_bytes D.state file.new ≡ staged_bytes D.state file.old ++ command_bytes shape.now.chain command.now) }
    ensures front { D.is_honest file.old.disk → committed D.state file.new ≡ committed D.state file.old }
    ensures any_moment { D.is_honest file.old.disk → LeavesOnly D.Disk file.old.disk file.new.disk
        (CommitsTo (committed D.state file.old)) }
    ensures frame { Frame D.Disk file.old.disk file.new.disk (IsErr result) }
{
    let mut pages = shape.pages(command).unwrap();
    stage_pages(file, &mut pages, buffer)
}

/// Whether a command whose pages have this many bytes has one page, and a small one.
fn is_small(command: &Command, size: u64) -> bool
    ensures { result ≡ is_small command.now size }
{
    match command {
        Command::Begin(_) => false,
        Command::Put(put) => put.entries.len() == 1 && size <= SMALL,
        Command::End(_) => size <= SMALL,
    }
}

/// Makes the pages of a command in a vector that has room for them, and a closed byte after them.
fn make_closed(shape: &Shape, command: &Command, bytes: &mut Vec<u8>)
    requires kept { IsOk (decision shape.now.chain command.now) }
    requires room { length (command_bytes shape.now.chain command.now) < vec_capacity bytes.old }
    ensures items { bytes.new.items ≡ command_bytes shape.now.chain command.now ++ 0 ∷ [] }
    ensures capacity { vec_capacity bytes.old ≤ vec_capacity bytes.new }
{
    bytes.clear();
    shape.lay(command, bytes).unwrap();
    bytes.push_reserved(0);
}

/// Stages pages, made one at a time in the buffer. A closed byte follows the last of them.
pub(crate) fn stage_pages<D: Disk>(
    file: &mut GateFile<D>,
    pages: &mut CommandPages<'_>,
    buffer: &mut PageBuffer,
) -> Result<(), DiskFault>
    requires are { AllByRecursion IsPage pages.old }
    requires some { 0 < length pages.old }
    requires good { file.old.failed ≡ false }
    requires images { D.is_honest file.old.disk → EachImage (D.state file.old.disk) (CommitsTo (committed D.state file.old)) }
    ensures failed { file.new.failed ≡ true ↔ IsErr result }
    ensures whole { OnOk result (file.new.whole ≡ true) }
    ensures end { file.new.end ≡ file.old.end }
    ensures staged { OnOk result (D.is_honest file.old.disk
        → staged_bytes D.state file.new ≡ staged_bytes D.state file.old ++ bytes_of_pages pages.old) }
    ensures front { D.is_honest file.old.disk → committed D.state file.new ≡ committed D.state file.old }
    ensures any_moment { D.is_honest file.old.disk → LeavesOnly D.Disk file.old.disk file.new.disk
        (CommitsTo (committed D.state file.old)) }
    ensures frame { Frame D.Disk file.old.disk file.new.disk (IsErr result) }
{
    'pages: while pages.next(buffer) {
        match stage_page(file, buffer, pages.left() == 0) {
            Ok(()) => {}
            Err(fault) => return Err(fault),
        }
    }
    Ok(())
}

/// Stages the page that was made in the buffer.
fn stage_page<D: Disk>(
    file: &mut GateFile<D>,
    buffer: &PageBuffer,
    is_last: bool,
) -> Result<(), DiskFault>
    requires made { (page : Page) × IsPage page × (buffer.now.finished ≡ Some page) }
    requires good { file.old.failed ≡ false }
    ensures failed { file.new.failed ≡ true ↔ IsErr result }
    ensures whole { OnOk result (is_last ≡ true → file.new.whole ≡ true) }
    ensures end { file.new.end ≡ file.old.end }
    ensures staged { OnOk result ((page : Page) → buffer.now.finished ≡ Some page → D.is_honest file.old.disk
        → staged_bytes D.state file.new ≡ staged_bytes D.state file.old ++ page_bytes page) }
    ensures front { D.is_honest file.old.disk → committed D.state file.new ≡ committed D.state file.old }
    ensures any_moment { D.is_honest file.old.disk → LeavesOnly D.Disk file.old.disk file.new.disk
        (CommitsTo (committed D.state file.old)) }
    ensures frame { Frame D.Disk file.old.disk file.new.disk (IsErr result) }
{
    if is_last {
        file.stage_last(buffer.closed())
    } else {
        file.stage(buffer.bytes())
    }
}
