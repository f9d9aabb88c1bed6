//! Which packets of links are written, and in which order.
ghost use Rattle.std.specs.Prelude.{◌≡◌, ◌++◌, ◌∷◌, ◌&&◌, not, map, nat_eq, if◌then◌else◌, ◌<◌, ◌≤◌, ◌^◌, [], List, ℕ, OnOk, IfOk, IfSome, IfNone, None, Some, length};
ghost use Rattle.line_packets.specs.Choosing.{AreLines, IsLine, Names, NamesAll, NamesFrom, NamesIf, Writes, WritesAll, WritesEntries, WritesHeaders, WritesOf, WritesOne, asks, begun_by, coming, first_named, is_at, is_link, is_named, is_skeleton, is_wanted, known_from, name_among, no_link, number_of, own_packet, stream_with, told};
ghost use Rattle.line_packets.specs.declared.choosing.Named.{Named as NamedOf};

use crate::Memory;
use crate::texts::{Told, put_json, put_plain};
use ogg_command::{Command, Entry, Listed, NewStream};
use skeleton3::{Fisbone, MessageFields};
use std::alloc::Global;
use std::marker::Model;

/// Which packets are wanted.
#[derive(Debug, Drop)]
pub struct Wanted {
    /// The name of the stream, as its Skeleton tells it; without it those of every stream are.
    pub name: Option<Listed<u8>>,
    /// The place of the stream in its link, from 1 on, if the name is a number. A Skeleton isn't counted.
    pub place: Option<u64>,
    /// The number of the link in its file.
    pub link: Option<u64>,
    /// Header packets too, and a Skeleton's.
    pub headers: bool,
    /// Each is told as an object of JSON.
    pub json: bool,
}

/// What is known of a packet that comes now, beside what its command says.
#[derive(Clone, Copy, Debug, PartialEq, Eq)]
pub struct When {
    /// When it was on the disk, in milliseconds since 1970, if that is known.
    pub time: Option<u64>,
    /// The number of its file, if that has one.
    pub file: Option<u64>,
    /// It is among those that are asked for.
    pub is_asked: bool,
}

/// A stream of a link: its place from 1 on, or 0 for a Skeleton.
#[derive(Clone, Copy, Debug, PartialEq, Eq)]
pub struct Known {
    pub(crate) serial: u32,
    pub(crate) place: u64,
}

impl Known {
    /// Whether it is a Skeleton's.
    fn is_skeleton(&self) -> bool
        ensures { result ≡ nat_eq self.now.place 0 }
    {
        self.place == 0
    }
}

/// A name that a Skeleton gives.
#[derive(Debug, Drop)]
pub struct Named {
    pub(crate) serial: u32,
    pub(crate) name: Listed<u8>,
}

/// The last link that has begun.
#[derive(Debug, Drop)]
pub struct Link {
    // how many have begun in the file
    begun: u64,
    streams: Vec<Known>,
    names: Vec<Named>,
}

impl Model for Link {
    ghost use Rattle.line_packets.specs.Choosing.{LinkState};

    ghost Value = { LinkState };

    ghost view = { λ l. record { begun = l.begun; streams = l.streams.items; names = l.names.items } };
}

/// Whether these are the headers of a Skeleton.
fn is_skeleton(headers: &[Listed<u8>]) -> bool
    ensures { result ≡ is_skeleton headers.now }
{
    match headers {
        [first, ..] => first.as_slice().starts_with(b"fishead\0"),
        [] => false,
    }
}

/// The stream with this serial.
fn stream_with(streams: &[Known], serial: u32) -> Option<&Known>
    ensures some { IfSome result (λ stream. stream_with serial streams.now ≡ Some stream.now) }
    ensures none { IfNone result (stream_with serial streams.now ≡ None) }
{
    let mut rest = streams;
    while let Some((stream, others)) = rest.split_first() {
        if stream.serial == serial {
            return Some(stream);
        }
        rest = others;
    }
    None
}

/// The first name that a Skeleton gives to the stream.
fn name_among(names: &[Named], serial: u32) -> Option<&[u8]>
    ensures some { IfSome result (λ name. name_among names.now serial ≡ Some name.now) }
    ensures none { IfNone result (name_among names.now serial ≡ None) }
{
    let mut rest = names;
    while let Some((one, others)) = rest.split_first() {
        if one.serial == serial {
            return Some(one.name.as_slice());
        }
        rest = others;
    }
    None
}

/// Whether this is the name that a Skeleton gives to the stream.
fn has_name(names: &[Named], serial: u32, name: &[u8]) -> bool
    ensures { result ≡ is_named name.now (name_among names.now serial) }
{
    match name_among(names, serial) {
        Some(own) => *own == *name,
        None => false,
    }
}

fn is_at(asked: Option<u64>, place: u64) -> bool
    ensures { result ≡ is_at asked place }
{
    match asked {
        Some(asked) => asked == place,
        None => false,
    }
}

impl Wanted {
    /// Whether a stream is asked for, of which a Skeleton has given these names.
    fn takes(&self, names: &[Named], stream: &Known) -> bool
        ensures { result ≡ is_wanted self.now names.now stream.now }
    {
        match &self.name {
            None => true,
            Some(name) => {
                if stream.place == 0 {
                    return false;
                }
                has_name(names, stream.serial, name.as_slice()) || is_at(self.place, stream.place)
            }
        }
    }
}

/// The streams of a link that begins.
fn known_streams(alloc: Global, streams: &[NewStream]) -> Result<Vec<Known>, Memory>
    requires { length streams.now < 2 ^ 62 }
    ensures { IfOk result (λ all. all.items ≡ known_from 0 streams.now) }
{
    let mut all = Vec::new(alloc);
    let mut before: u64 = 0;
    let mut rest = streams;
    while let Some((stream, others)) = rest.split_first() {
        let serial = stream.serial;
        if is_skeleton(stream.headers.as_slice()) {
            all.push(Known { serial, place: 0 })?;
        } else {
            before += 1;
            all.push(Known {
                serial,
                place: before,
            })?;
        }
        rest = others;
    }
    Ok(all)
}

/// The value of the first field called `Name`.
fn first_named<'a>(fields: MessageFields<'a>) -> Option<&'a [u8]>
    ensures some { IfSome result (λ name. first_named fields.entry ≡ Some name.now) }
    ensures none { IfNone result (first_named fields.entry ≡ None) }
{
    for (name, value) in fields {
        if name.eq_ignore_ascii_case(b"name") {
            return Some(value);
        }
    }
    None
}

/// The stream of which a fisbone speaks, and the name that it gives to it, if it gives one.
fn name_in(packet: &[u8]) -> Option<(u32, &[u8])>
    ensures some { IfSome result (λ (serial, name). Names packet.now (record { serial = serial; name = name.now } ∷ [])) }
    ensures none { IfNone result (Names packet.now []) }
{
    let Ok(fisbone) = Fisbone::read(packet) else {
        return None;
    };
    let Ok(fields) = Fisbone::message(packet) else {
        return None;
    };
    match first_named(fields) {
        Some(name) => Some((fisbone.serial, name)),
        None => None,
    }
}

/// Appends the line of a packet. After `Memory` a part of it may stand there.
fn put_line(lines: &mut Vec<u8>, json: bool, told: Told, packet: &[u8]) -> Result<(), Memory>
    ensures { OnOk result ((line : List ℕ) × IsLine json told packet.now line × (lines.new.items ≡ lines.old.items ++ line)) }
{
    if json {
        put_json(lines, told, packet)
    } else {
        put_plain(lines, packet)
    }
}

/// Appends the lines of packets of which the same is told.
fn put_lines(
    lines: &mut Vec<u8>,
    json: bool,
    told: Told,
    packets: &[Listed<u8>],
) -> Result<(), Memory>
    ensures { OnOk result ((text : List ℕ) × AreLines json told packets.now text × (lines.new.items ≡ lines.old.items ++ text)) }
{
    let mut rest = packets;
    while let Some((packet, others)) = rest.split_first() {
        put_line(lines, json, told, packet.as_slice())?;
        rest = others;
    }
    Ok(())
}

fn is_link(asked: Option<u64>, number: u64) -> bool
    ensures { result ≡ is_link asked number }
{
    match asked {
        Some(asked) => asked == number,
        None => true,
    }
}

impl Wanted {
    /// Whether what comes now of the link with this number is asked for.
    fn asks(&self, when: When, number: u64) -> bool
        ensures { result ≡ asks self.now when number }
    {
        when.is_asked && is_link(self.link, number)
    }
}

impl Link {
    /// No link has begun.
    fn new(alloc: Global) -> Link
        ensures { result ≡ no_link }
    {
        Link {
            begun: 0,
            streams: Vec::new(alloc),
            names: Vec::new(alloc),
        }
    }

    /// The number of the last link that has begun.
    fn number(&self) -> u64
        ensures { result ≡ number_of self.now }
    {
        self.begun.saturating_sub(1)
    }

    /// What is told of a packet of this stream with this position.
    fn told(&self, when: When, stream: &Known, position: u64) -> Told
        ensures { result ≡ told when self.now stream.now position }
    {
        Told {
            time: when.time,
            file: when.file,
            link: self.number(),
            serial: u64::from(stream.serial),
            position,
        }
    }

    /// Appends a packet of a stream, if it is asked for.
    fn write_own(
        &self,
        wanted: &Wanted,
        when: When,
        stream: &Known,
        entry: &Entry,
        lines: &mut Vec<u8>,
    ) -> Result<(), Memory>
        ensures { OnOk result ((text : List ℕ) × AreLines wanted.now.json (told when self.now stream.now entry.now.position)
            (own_packet wanted.now when self.now stream.now entry.now.packet) text × (lines.new.items ≡ lines.old.items ++ text)) }
    {
        let told = self.told(when, stream, entry.position);
        let is_asked = wanted.asks(when, self.number()) && (wanted.headers || stream.place > 0);
        if wanted.takes(self.names.as_slice(), stream) && is_asked {
            put_line(lines, wanted.json, told, entry.packet.as_slice())?;
        }
        Ok(())
    }

    /// If this is a packet of a Skeleton, it may name a stream.
    fn name_if(&mut self, is_skeleton: bool, packet: &[u8]) -> Result<(), Memory>
        ensures { OnOk result ((names : List NamedOf) × NamesIf is_skeleton (packet.now ∷ []) names
            × (self.new ≡ record { begun = self.old.begun; streams = self.old.streams; names = self.old.names ++ names })) }
    {
        if !is_skeleton {
            return Ok(());
        }
        name_by(&mut self.names, packet)
    }

    /// Appends a packet, if it is asked for.
    fn take_entry(
        &mut self,
        wanted: &Wanted,
        when: When,
        entry: &Entry,
        lines: &mut Vec<u8>,
    ) -> Result<(), Memory>
        ensures { OnOk result ((text : List ℕ) × WritesOf wanted.now when self.old entry.now (stream_with entry.now.serial self.old.streams) self.new text
            × (lines.new.items ≡ lines.old.items ++ text)) }
    {
        let Some(stream) = stream_with(self.streams.as_slice(), entry.serial) else {
            return Ok(());
        };
        let is_skeleton = stream.is_skeleton();
        self.write_own(wanted, when, stream, entry, lines)?;
        self.name_if(is_skeleton, entry.packet.as_slice())
    }

    /// Appends the packets of a put that are asked for.
    fn take_entries(
        &mut self,
        wanted: &Wanted,
        when: When,
        entries: &[Entry],
        lines: &mut Vec<u8>,
    ) -> Result<(), Memory>
        ensures { OnOk result ((text : List ℕ) × WritesEntries wanted.now when self.old entries.now self.new text
            × (lines.new.items ≡ lines.old.items ++ text)) }
    {
        let mut rest = entries;
        while let Some((entry, others)) = rest.split_first() {
            self.take_entry(wanted, when, entry, lines)?;
            rest = others;
        }
        Ok(())
    }

    /// Appends the headers of a stream, if they are asked for.
    fn write_one(
        &self,
        wanted: &Wanted,
        when: When,
        stream: &NewStream,
        lines: &mut Vec<u8>,
    ) -> Result<(), Memory>
        ensures { OnOk result ((text : List ℕ) × WritesOne wanted.now when self.now stream.now.headers (stream_with stream.now.serial self.now.streams) text
            × (lines.new.items ≡ lines.old.items ++ text)) }
    {
        let Some(known) = stream_with(self.streams.as_slice(), stream.serial) else {
            return Ok(());
        };
        let told = self.told(when, known, 0);
        let is_asked = wanted.asks(when, self.number()) && wanted.headers;
        let headers = if wanted.takes(self.names.as_slice(), known) && is_asked {
            stream.headers.as_slice()
        } else {
            &[]
        };
        put_lines(lines, wanted.json, told, headers)
    }

    /// Appends the headers of the link's streams that are asked for.
    fn write_headers(
        &self,
        wanted: &Wanted,
        when: When,
        streams: &[NewStream],
        lines: &mut Vec<u8>,
    ) -> Result<(), Memory>
        ensures { OnOk result ((text : List ℕ) × WritesHeaders wanted.now when self.now streams.now text
            × (lines.new.items ≡ lines.old.items ++ text)) }
    {
        let mut rest = streams;
        while let Some((stream, others)) = rest.split_first() {
            self.write_one(wanted, when, stream, lines)?;
            rest = others;
        }
        Ok(())
    }

    /// Whether one of its streams is asked for.
    fn has_wanted(&self, wanted: &Wanted) -> bool {
        let mut rest = self.streams.as_slice();
        while let Some((stream, others)) = rest.split_first() {
            if wanted.takes(self.names.as_slice(), stream) {
                return true;
            }
            rest = others;
        }
        false
    }

    /// A link of these streams begins.
    fn begin(&mut self, streams: &[NewStream]) -> Result<(), Memory>
        requires { length streams.now < 2 ^ 62 }
        ensures { OnOk result ((names : List NamedOf) × NamesFrom streams.now names × (self.new ≡ begun_by self.old streams.now names)) }
    {
        let alloc = *self.names.allocator();
        let known = known_streams(alloc, streams)?;
        let names = names_from(alloc, streams)?;
        self.begun = self.begun.saturating_add(1);
        self.streams = known;
        self.names = names;
        Ok(())
    }
}

/// Appends the name that a packet of a Skeleton gives, if it gives one.
fn name_by(names: &mut Vec<Named>, packet: &[u8]) -> Result<(), Memory>
    ensures { OnOk result ((more : List NamedOf) × Names packet.now more × (names.new.items ≡ names.old.items ++ more)) }
{
    if let Some((serial, name)) = name_in(packet) {
        let name = Listed::of(name.to_vec(*names.allocator())?);
        names.push(Named { serial, name })?;
    }
    Ok(())
}

/// Appends the names that packets of a Skeleton give.
fn name_all(names: &mut Vec<Named>, packets: &[Listed<u8>]) -> Result<(), Memory>
    ensures { OnOk result ((more : List NamedOf) × NamesAll packets.now more × (names.new.items ≡ names.old.items ++ more)) }
{
    let mut rest = packets;
    while let Some((packet, others)) = rest.split_first() {
        name_by(names, packet.as_slice())?;
        rest = others;
    }
    Ok(())
}

/// Appends the names that a stream's headers give, if it is a Skeleton's.
fn name_streams(names: &mut Vec<Named>, headers: &[Listed<u8>]) -> Result<(), Memory>
    ensures { OnOk result ((more : List NamedOf) × NamesIf (is_skeleton headers.now) headers.now more × (names.new.items ≡ names.old.items ++ more)) }
{
    if !is_skeleton(headers) {
        return Ok(());
    }
    name_all(names, headers)
}

/// The names that the Skeletons of a link give.
fn names_from(alloc: Global, streams: &[NewStream]) -> Result<Vec<Named>, Memory>
    ensures { IfOk result (λ names. NamesFrom streams.now names.items) }
{
    let mut names = Vec::new(alloc);
    let mut rest = streams;
    while let Some((stream, others)) = rest.split_first() {
        name_streams(&mut names, stream.headers.as_slice())?;
        rest = others;
    }
    Ok(names)
}

/// What is written of links, command by command. Links are counted from the beginning of each file.
#[derive(Debug, Drop)]
pub struct Choosing {
    pub(crate) wanted: Wanted,
    pub(crate) link: Link,
    has_found: bool,
}

impl Choosing {
    /// Nothing has come.
    pub fn new(alloc: Global, wanted: Wanted) -> Choosing
        ensures wanted { result.wanted ≡ wanted }
        ensures link { result.link ≡ no_link }
    {
        Choosing {
            has_found: wanted.name.is_none(),
            wanted,
            link: Link::new(alloc),
        }
    }

    /// Whether a stream that is asked for was found, or each is.
    pub fn has_found(&self) -> bool
        ensures { result ≡ self.now.has_found }
    {
        self.has_found
    }

    /// Takes a command, and appends the lines of its packets that are asked for: of a `Begin` the headers. After `Memory` a
    /// part of the lines may stand there: take no further command.
    pub fn take(&mut self, command: &Command, when: When, lines: &mut Vec<u8>) -> Result<(), Memory>
        ensures writes { OnOk result ((text : List ℕ) × Writes self.old.wanted when self.old.link command.now self.new.link text
            × (lines.new.items ≡ lines.old.items ++ text)) }
        ensures wanted { self.new.wanted ≡ self.old.wanted }
    {
        match command {
            Command::Begin(begin) => {
                let streams = begin.streams.as_slice();
                self.link.begin(streams)?;
                self.link.write_headers(&self.wanted, when, streams, lines)?;
            }
            Command::Put(put) => {
                let entries = put.entries.as_slice();
                self.link.take_entries(&self.wanted, when, entries, lines)?;
            }
            Command::End(_) => {}
        }
        self.has_found = self.has_found || self.link.has_wanted(&self.wanted);
        Ok(())
    }

    /// Takes these commands, one after the other.
    pub fn take_all(
        &mut self,
        commands: &[Command],
        when: When,
        lines: &mut Vec<u8>,
    ) -> Result<(), Memory>
        ensures writes { OnOk result ((text : List ℕ) × WritesAll self.old.wanted self.old.link (map (coming when) commands.now) self.new.link text
            × (lines.new.items ≡ lines.old.items ++ text)) }
        ensures wanted { self.new.wanted ≡ self.old.wanted }
    {
        let mut rest = commands;
        while let Some((command, others)) = rest.split_first() {
            self.take(command, when, lines)?;
            rest = others;
        }
        Ok(())
    }

    /// Another file begins: its links are counted from 0.
    pub fn begin_file(&mut self)
        ensures wanted { self.new.wanted ≡ self.old.wanted }
        ensures found { self.new.has_found ≡ self.old.has_found }
        ensures link { self.new.link ≡ no_link }
    {
        self.link = Link::new(*self.link.names.allocator());
    }
}
