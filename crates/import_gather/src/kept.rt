//! What is kept of a stream of the last link.
ghost use Rattle.std.specs.Prelude.{◌≡◌, ◌≤◌, ◌<◌, ◌-◌, ◌^◌, [], IfOk, sum_by, length};
ghost use Rattle.std.specs.Option.{SomeIff};
ghost use Rattle.import_gather.specs.Kept.{KeptStream, TakesPage, entered, is_waiting, without_rest};
ghost use Rattle.import_gather.specs.Giving.{bare};
ghost use Rattle.import_gather.specs.Refusals.{IsNoted};

use crate::cutting::cut_page;
use crate::grower::Grower;
use crate::headers::{keep_headers, left_behind, wanted};
use ogg_command::{Listed, Memory};
use ogg_page::Page;
use std::marker::Model;
use std::mem;

/// What is kept of a stream of the last link.
#[derive(Debug, Drop)]
pub struct Kept {
    serial: u32,
    // the headers, while the link waits
    headers: Vec<Listed<u8>>,
    // the bytes of the unfinished packet
    rest: Vec<u8>,
    ended: bool,
}

impl Model for Kept {
    ghost use Rattle.import_gather.specs.Kept.{KeptStream};

    ghost Value = { KeptStream };

    ghost view = { λ k. record { serial = k.serial; headers = k.headers.items; rest = k.rest.items; ended = k.ended } };
}

impl Kept {
    /// A stream after its first page, which holds one whole packet.
    pub fn enter(grower: &mut Grower, page: &Page<'_>) -> Result<Kept, Memory>
        ensures noted { IsNoted result grower.old grower.new }
        ensures kept { IfOk result (λ kept. kept ≡ entered page.now) }
    {
        let mut packet = grower.empty();
        grower.append(&mut packet, page.body())?;
        let mut headers = grower.empty();
        grower.push(&mut headers, Listed::of(packet))?;
        Ok(Kept {
            serial: page.serial(),
            headers,
            rest: grower.empty(),
            ended: page.is_last(),
        })
    }

    /// The stream's serial.
    pub fn serial(&self) -> u32
        ensures { result ≡ self.now.serial }
    {
        self.serial
    }

    /// How many bytes of the unfinished packet are kept.
    pub fn rest_len(&self) -> usize
        ensures value { result ≡ length self.now.rest }
        ensures bound { result < 2 ^ 63 }
    {
        self.rest.len()
    }

    /// Drops the unfinished packet, if the stream has this serial.
    pub fn drop_rest(&mut self, serial: u32)
        ensures { self.new ≡ without_rest serial self.old }
    {
        if self.serial == serial {
            self.rest.clear();
        }
    }

    /// Takes a page of the stream, and gives back the packets that end in it and aren't kept as headers.
    pub fn take_page(
        &mut self,
        grower: &mut Grower,
        page: &Page<'_>,
        begun: bool,
    ) -> Result<Vec<Listed<u8>>, Memory>
        ensures noted { IsNoted result grower.old grower.new }
        ensures takes { IfOk result (λ later. TakesPage begun page.now self.old self.new later.items) }
    {
        let packets = cut_page(grower, &mut self.rest, page)?;
        self.ended = self.ended || page.is_last();
        if begun {
            return Ok(packets);
        }
        let later = keep_headers(grower, &mut self.headers, packets)?;
        Ok(later)
    }

    /// Whether the stream, which hasn't ended, wants further headers.
    pub fn is_waiting(&self) -> bool
        ensures { result ≡ is_waiting self.now }
    {
        !self.ended && self.headers.len() < wanted(self.headers.as_slice())
    }

    /// What is left of a number of bytes after the stream's headers; none if the headers have more bytes together.
    pub fn left_behind(&self, left: usize) -> Option<usize>
        ensures { SomeIff result (sum_by length self.now.headers ≤ left) (left - sum_by length self.now.headers) }
    {
        left_behind(left, self.headers.as_slice())
    }

    /// Takes the headers out.
    pub fn take_headers(&mut self, grower: &Grower) -> Vec<Listed<u8>>
        ensures value { result.items ≡ self.old.headers }
        ensures after { self.new ≡ bare self.old }
    {
        mem::replace(&mut self.headers, grower.empty())
    }
}
