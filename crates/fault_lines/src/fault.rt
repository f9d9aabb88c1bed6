//! The faults, and how a line is written.
ghost use Rattle.std.specs.Prelude.{◌≡◌, ◌≤◌, ◌+◌, ◌++◌, IfOk, IfErr, OnOk, OnErr, codes, decimal, length};
ghost use Rattle.std.specs.Io.KnownBytes.{Appends};
ghost use Rattle.std.specs.Process.{exit_status};
ghost use Rattle.ogg_page.specs.Output.{WritesPart};
ghost use Rattle.feed_replies.specs.Reply.{line_end};
ghost use Rattle.fault_lines.specs.Fault.{IsOfRun, coded, fault_line, index_rest, make_rest, numbered, open_rest, place};

use feed_replies::{FeedFault, RunFault};
use gate_file::OpenFault;
use import_feed::MakingFault;
use import_record::RecordFault;
use link_index::IndexFault;
use ogg_finish::FinishFault;
use ogg_page::{WriteFault, write_whole};
use ogg_split::SplitFault;
use serve_machine::HubFault;
use std::io::Write;
use std::process::ExitCode;
use text_line::Line;
use thiserror::Error;

/// What ends the program with status 1: the first fault that it met.
#[derive(Clone, Copy, Debug, PartialEq, Eq, Error)]
pub enum Fault {
    /// A file can't be opened.
    #[error("the file can't be opened")]
    File,
    /// Another program writes the file.
    #[error("another program writes the file")]
    Locked,
    /// A file holds something else than a recording.
    #[error("the file holds something else than a recording")]
    Foreign,
    /// Memory was refused.
    #[error("memory was refused")]
    Memory,
    /// A file isn't one that the program can go on with.
    #[error("{0}")]
    Open(OpenFault),
    /// The feed has a fault.
    #[error("{0}")]
    Feed(FeedFault),
    /// A standard stream took no more bytes.
    #[error("writing failed")]
    Write,
    /// The feed has more records than a run takes.
    #[error("the feed has too many records")]
    TooMany,
    /// The pages of a file aren't links.
    #[error("{0}")]
    Index(IndexFault),
    /// A link or a stream wasn't copied as a whole.
    #[error("{0}")]
    Split(SplitFault),
    /// A link wasn't written finished as a whole.
    #[error("{0}")]
    Finish(FinishFault),
    /// No feed was made of the whole input.
    #[error("{0}")]
    Make(MakingFault),
    /// The input wasn't recorded to its end.
    #[error("{0}")]
    Archive(RecordFault),
    /// The input has bytes, and no page.
    #[error("the input has no page")]
    NoPage,
    /// Something was mended, in a run that ends at the first mend.
    #[error("the input had to be mended")]
    Mended,
    /// The address can't be listened to.
    #[error("the address can't be listened to")]
    Net,
    /// A connection wasn't served, for this reason of the hub.
    #[error("{0}")]
    Serve(HubFault),
    /// The disk has failed while it recorded.
    #[error("the disk has failed")]
    Failed,
    /// A command was refused, in a run that ends at the first refusal.
    #[error("a command was refused")]
    Refused,
    /// A file wasn't cut to its committed bytes.
    #[error("the file wasn't sealed")]
    Seal,
    /// Nothing was recorded in the time that was asked for.
    #[error("nothing was recorded in that time")]
    Nothing,
    /// A file or a folder that was read holds damage, which was told.
    #[error("there is damage")]
    Damaged,
    /// Lines of an input were left out, which was told.
    #[error("lines were left out")]
    LeftOut,
    /// No link that was read has the stream that was asked for.
    #[error("there is no such stream")]
    NoStream,
    /// A time was asked for of a file by itself, which has none.
    #[error("a file by itself has no times")]
    NoTimes,
}

impl From<RunFault> for Fault {
    ghost from_gives = { IsOfRun };

    fn from(fault: RunFault) -> Fault {
        match fault {
            RunFault::Feed(fault) => Fault::Feed(fault),
            RunFault::Write => Fault::Write,
            RunFault::TooMany => Fault::TooMany,
        }
    }
}

/// Writes the fault's line. After a fault of the writer a part of the line was written.
pub fn write_fault<W: Write>(fault: &Fault, writer: &mut W) -> Result<(), WriteFault>
    ensures ok { OnOk result (Appends (W.contents writer.old) (W.contents writer.new) (fault_line fault.now)) }
    ensures err { OnErr result (WritesPart (W.contents writer.old) (W.contents writer.new) (fault_line fault.now)) }
{
    write_whole(writer, line_of(*fault).as_slice())
}

/// The status of a program that has ended so. A fault's line goes to standard error.
pub fn status_of(rt: &HostRuntime, ended: Result<(), Fault>) -> ExitCode
    ensures done { IfOk ended (λ done. exit_status result ≡ 0) }
    ensures fault { IfErr ended (λ fault. exit_status result ≡ 1) }
    ensures within { exit_status result ≤ 1 }
{
    match ended {
        Ok(()) => ExitCode::SUCCESS,
        Err(fault) => {
            let _ = write_fault(&fault, &mut rt.stderr());
            ExitCode::from(1)
        }
    }
}

/// The fault's line, with its line feed.
pub(crate) fn line_of(fault: Fault) -> Line
    ensures { result.text ≡ fault_line fault }
{
    match fault {
        Fault::File => words(b"fault file"),
        Fault::Locked => words(b"fault locked"),
        Fault::Foreign => words(b"fault foreign"),
        Fault::Memory => words(b"fault memory"),
        Fault::Open(fault) => {
            let mut line = open_rest(fault);
            put_coded(&mut line, fault.code(), fault.name());
            line.put_text(b"fault open ");
            line
        }
        Fault::Feed(fault) => {
            let mut line = Line::new();
            put_coded(&mut line, fault.code(), fault.name());
            line.put_text(b"fault feed ");
            line
        }
        Fault::Write => words(b"fault write"),
        Fault::TooMany => words(b"fault run 3 TooMany"),
        Fault::Index(fault) => {
            let mut line = index_rest(fault);
            put_coded(&mut line, fault.code(), fault.name());
            line.put_text(b"fault index ");
            line
        }
        Fault::Split(fault) => {
            let mut line = Line::new();
            put_coded(&mut line, fault.code(), fault.name());
            line.put_text(b"fault split ");
            line
        }
        Fault::Finish(fault) => {
            let mut line = Line::new();
            put_coded(&mut line, fault.code(), fault.name());
            line.put_text(b"fault finish ");
            line
        }
        Fault::Make(fault) => {
            let mut line = make_rest(fault);
            put_coded(&mut line, fault.code(), fault.name());
            line.put_text(b"fault make ");
            line
        }
        Fault::Archive(fault) => {
            let mut line = Line::new();
            put_coded(&mut line, fault.code(), fault.name());
            line.put_text(b"fault archive ");
            line
        }
        Fault::NoPage => words(b"fault archive 4 NoPage"),
        Fault::Mended => words(b"fault mended"),
        Fault::Net => words(b"fault net"),
        Fault::Serve(fault) => {
            let mut line = Line::new();
            put_coded(&mut line, fault.code(), fault.name());
            line.put_text(b"fault serve ");
            line
        }
        Fault::Failed => words(b"fault failed"),
        Fault::Refused => words(b"fault refused"),
        Fault::Seal => words(b"fault seal"),
        Fault::Nothing => words(b"fault cut 1 Nothing"),
        Fault::Damaged => words(b"fault damaged"),
        Fault::LeftOut => words(b"fault lines 1 LeftOut"),
        Fault::NoStream => words(b"fault packets 1 NoStream"),
        Fault::NoTimes => words(b"fault packets 2 NoTimes"),
    }
}

/// A line of words only.
fn words(text: &[u8]) -> Line
    requires { length text.now ≤ 60 }
    ensures { result.text ≡ text.now ++ line_end }
{
    let mut line = Line::new();
    line.put_text(text);
    line
}

/// What follows the name of a fault of opening.
fn open_rest(fault: OpenFault) -> Line
    ensures text { result.text ≡ open_rest fault }
    ensures room { 60 ≤ result.room }
{
    match fault {
        OpenFault::Page(offset, fault) => place(offset, fault.code(), fault.name()),
        OpenFault::Chain(offset, fault) => place(offset, fault.code(), fault.name()),
        OpenFault::Unfinished(serial) => number(u64::from(serial)),
        OpenFault::Disk | OpenFault::Memory => Line::new(),
    }
}

/// What follows the name of a fault of indexing.
fn index_rest(fault: IndexFault) -> Line
    ensures text { result.text ≡ index_rest fault }
    ensures room { 60 ≤ result.room }
{
    match fault {
        IndexFault::Page(offset, fault) => place(offset, fault.code(), fault.name()),
        IndexFault::Chain(offset, fault) => place(offset, fault.code(), fault.name()),
        IndexFault::Memory => Line::new(),
    }
}

/// What follows the name of a fault of making a feed.
fn make_rest(fault: MakingFault) -> Line
    ensures text { result.text ≡ make_rest fault }
    ensures room { 60 ≤ result.room }
{
    match fault {
        MakingFault::Page(offset, fault) => place(offset, fault.code(), fault.name()),
        MakingFault::Chain(offset, fault) => place(offset, fault.code(), fault.name()),
        MakingFault::PacketTooLong(offset)
        | MakingFault::TooLong(offset)
        | MakingFault::Read(offset) => number(offset),
        MakingFault::Unfinished(offset, serial) => {
            let mut line = number(u64::from(serial));
            line.put_number(offset);
            line.put_text(b" ");
            line
        }
        MakingFault::Limit | MakingFault::Write | MakingFault::Memory => Line::new(),
    }
}

/// A number at the end of a line.
fn number(value: u64) -> Line
    ensures text { result.text ≡ numbered value line_end }
    ensures room { 100 ≤ result.room }
{
    let mut line = Line::new();
    line.put_number(value);
    line.put_text(b" ");
    line
}

/// A page's offset, and the number and the name of what is wrong with it.
fn place(offset: u64, code: u8, name: &str) -> Line
    requires { length name.now ≤ 13 }
    ensures text { result.text ≡ place offset code name.now }
    ensures room { 60 ≤ result.room }
{
    let mut line = Line::new();
    put_coded(&mut line, code, name);
    line.put_text(b" ");
    line.put_number(offset);
    line.put_text(b" ");
    line
}

/// Puts a number and a name in front of a line.
pub(crate) fn put_coded(line: &mut Line, code: u8, name: &str)
    requires short { length name.now ≤ 13 }
    requires room { 34 ≤ line.old.room }
    ensures text { line.new.text ≡ coded code name.now line.old.text }
    ensures room { line.old.room ≤ line.new.room + 34 }
{
    line.put_text(name.as_bytes());
    line.put_text(b" ");
    line.put_number(u64::from(code));
}
