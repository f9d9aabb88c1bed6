//! What stands beside the files of an archive, and what is told of them.
ghost use Rattle.std.specs.Prelude.{◌≤◌, ◌+◌, length};

use archive_names::Kind;
use archive_record::{Beside, Damage, FileName, name_of, text_of};
use archive_times::{Line, last_line};
use fault_lines::{Fault, write_fault};
use ogg_command::Refusal;
use record_actions::Told;
use std::fs::{File, OpenFile, OpenOptions};
use std::io::Read;
use std::os::unix::fs::FileExt;
use text_line::Line as Text;

/// The times of a file, as they are written.
#[derive(Drop)]
struct Times {
    file: File,
    // how many bytes it has
    end: u64,
}

/// Tells what becomes of an archive's files, and keeps their times in the folder. If times can't be written, that is told
/// once for each file, and the file has none from then on.
#[derive(Drop)]
pub struct Keeper<'a> {
    rt: &'a HostRuntime,
    // with a slash at the end
    folder: &'a str,
    /// What the recording came to so far.
    pub told: Told<'a>,
    times: Option<Times>,
    // those of the file before, which has ended: they aren't synced yet
    ended: Option<File>,
    // how many lines were told since a file was begun, 255 at most
    lines: u8,
    // it was told that the file has no times
    has_told: bool,
}

impl<'a> Keeper<'a> {
    /// The folder, with a slash at the end; empty if one file is recorded into.
    pub fn folder(&self) -> &'a str {
        self.folder
    }

    /// Nothing was told yet. The folder's path has a slash at its end.
    pub fn new(rt: &'a HostRuntime, folder: &'a str, told: Told<'a>) -> Keeper<'a> {
        Keeper {
            rt,
            folder,
            told,
            times: None,
            ended: None,
            lines: 0,
            has_told: false,
        }
    }

    /// Syncs the times of the file that ended last, unless that was done. Call it when nothing waits to be told.
    pub fn sync_ended(&mut self) {
        if let Some(file) = self.ended.take() {
            let _ = OpenFile::sync_data(&file);
        }
    }

    /// The path of what stands under a file's name.
    fn path_of(&self, file: FileName, kind: Kind) -> Option<String> {
        let alloc = self.rt.alloc();
        let Ok(name) = text_of(alloc, file, kind) else {
            return None;
        };
        joined(alloc, self.folder, name.as_str())
    }

    /// Tells that a file has no times from here on.
    fn lose_times(&mut self) {
        self.times = None;
        if !self.has_told {
            self.has_told = true;
            self.told
                .tell(b"no times: they can't be written for this file\n");
        }
    }

    /// Opens the times of a file, cut behind their last sound line, which is returned.
    fn open_times(&mut self, file: FileName, committed: u64) -> Option<Line> {
        let path = self.path_of(file, Kind::Times)?;
        let mut options = OpenOptions::new();
        options.read(true);
        options.write(true);
        options.create(true);
        let Ok(mut times) = options.open(self.rt, path.as_str()) else {
            return None;
        };
        let mut text = Vec::new(self.rt.alloc());
        if times.read_to_end(&mut text).is_err() {
            return None;
        }
        let (last, rest) = last_line(text.as_slice(), None, committed);
        let end = text.len().saturating_sub(rest.len()) as u64;
        if !rest.is_empty() && OpenFile::set_len(&times, end).is_err() {
            return None;
        }
        self.times = Some(Times { file: times, end });
        last
    }
}

/// Puts a file's name in front of a line. A name has 44 bytes at most.
fn put_name(line: &mut Text, file: FileName)
    requires { 50 ≤ line.old.room }
    ensures { line.old.room ≤ line.new.room + 50 }
{
    let name = name_of(file).text(Kind::Pages);
    let text = name.as_slice();
    if text.len() <= 50 {
        line.put_text(text);
    }
}

/// Puts `file NUMBER WORD NAME` in front of a line.
fn put_file(line: &mut Text, file: FileName, word: &[u8])
    requires word { length word.now ≤ 10 }
    requires room { 90 ≤ line.old.room }
{
    put_name(line, file);
    line.put_text(b" ");
    line.put_text(word);
    line.put_text(b" ");
    line.put_number(file.number);
    line.put_text(b"file ");
}

/// The line that says this of a file.
fn file_line(file: FileName, word: &[u8]) -> Text
    requires { length word.now ≤ 10 }
{
    let mut line = Text::new();
    put_file(&mut line, file, word);
    line
}

/// The line that a file has ended.
fn ended_line(file: FileName, bytes: u64) -> Text {
    let mut line = Text::new();
    line.put_number(bytes);
    line.put_text(b" ");
    put_file(&mut line, file, b"ends");
    line
}

/// The line that two files have this number.
fn twice_line(number: u64) -> Text {
    let mut line = Text::new();
    line.put_number(number);
    line.put_text(b"twice ");
    line
}

/// What a line says of a file that is left as it is, before the reason.
fn damaged_front(file: FileName) -> Text {
    let mut line = Text::new();
    put_name(&mut line, file);
    line.put_text(b"damaged ");
    line
}

/// The reason, if bytes follow the pages that no stop leaves.
fn tail_line(offset: u64) -> Text {
    let mut line = Text::new();
    line.put_number(offset);
    line.put_text(b" tail ");
    line
}

/// One text behind the other.
fn joined(alloc: std::alloc::Global, front: &str, rest: &str) -> Option<String> {
    let Ok(mut text) = String::from_str(alloc, front) else {
        return None;
    };
    match text.push_str(rest) {
        Ok(()) => Some(text),
        Err(_) => None,
    }
}

impl Beside for Keeper<'_> {
    fn opened(&mut self, file: FileName, committed: u64) -> Option<Line> {
        self.times = None;
        self.has_told = false;
        self.open_times(file, committed)
    }

    fn begun(&mut self, file: FileName) {
        self.times = None;
        self.lines = 0;
        self.has_told = false;
        let _ = self.open_times(file, 0);
        self.told.tell(file_line(file, b"begins").as_slice());
    }

    fn timed(&mut self, line: Line) {
        // The first line comes with the commit that begins the file, whose answer is waited for, and the second may come as
        // the file ends: the times of the file before wait for the third.
        if self.lines > 1 {
            self.sync_ended();
        }
        self.lines = self.lines.saturating_add(1);
        let text = line.text();
        let text = text.as_slice();
        if let Some(times) = &mut self.times {
            if FileExt::write_all_at(&times.file, text, times.end).is_ok() {
                times.end = times.end.saturating_add(text.len() as u64);
                return;
            }
        }
        self.lose_times();
    }

    fn ended(&mut self, file: FileName, bytes: u64) {
        // If files end so fast that those of the file before aren't synced yet, the system writes them back in its time.
        self.ended = match self.times.take() {
            Some(Times { file, .. }) => Some(file),
            None => None,
        };
        self.told.tell(ended_line(file, bytes).as_slice());
    }

    fn lost(&mut self, offset: u64, committed: u64) {
        self.told.lost(offset, committed);
    }

    fn refused(&mut self, offset: u64, refusal: Refusal) {
        self.told.unended(offset, Some(refusal));
    }

    fn removed(&mut self, file: FileName) {
        self.told.tell(file_line(file, b"removed").as_slice());
    }

    fn stays(&mut self, file: FileName) {
        self.told.tell(file_line(file, b"stays").as_slice());
    }

    fn stands_twice(&mut self, number: u64) {
        self.told.tell(twice_line(number).as_slice());
    }

    fn damaged(&mut self, file: FileName, why: Damage) {
        let mut text = Vec::new(self.rt.alloc());
        let line = damaged_line(&mut text, file, why);
        match line {
            Ok(()) => self.told.tell(text.as_slice()),
            Err(_) => self.told.tell(b"damaged\n"),
        }
    }
}

/// The line that a file is left as it is, and why: what follows its name is what follows `fault` in a fault's line.
fn damaged_line(
    text: &mut Vec<u8>,
    file: FileName,
    why: Damage,
) -> Result<(), std::alloc::AllocError> {
    let front = damaged_front(file);
    // The line feed comes with the reason.
    if let [front @ .., _] = front.as_slice() {
        text.extend_from_slice(front)?;
    }
    let fault = match why {
        Damage::Unreadable => Fault::File,
        Damage::Foreign => Fault::Foreign,
        Damage::Open(fault) => Fault::Open(fault),
        Damage::Tail(offset) => {
            return text.extend_from_slice(tail_line(offset).as_slice());
        }
    };
    let mut line = Vec::new(*text.allocator());
    let _ = write_fault(&fault, &mut line);
    let rest = line.as_slice();
    text.extend_from_slice(rest.strip_prefix(b"fault").unwrap_or(rest))
}
