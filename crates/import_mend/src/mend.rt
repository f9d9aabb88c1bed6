//! What was mended.
ghost use Rattle.std.specs.Prelude.{◌≡◌};
ghost use Rattle.import_mend.specs.Mend.{code_of, name_of, offset_of};

/// What was mended, with the offset in the input at which it begins.
#[derive(Clone, Copy, Debug, PartialEq, Eq)]
pub enum Mend {
    /// So many bytes are of no page: they are passed over.
    Junk {
        offset: u64,
        bytes: u64,
    },
    /// Pages of a stream are missing: those with the numbers from `from` on, before the page with the number `to`.
    Gap {
        offset: u64,
        serial: u32,
        from: u32,
        to: u32,
    },
    /// A link begins while streams of the one before it are open: these are ended.
    Restart {
        offset: u64,
    },
    /// A page of no open stream of the link: it is left out.
    Stranger {
        offset: u64,
        serial: u32,
    },
    /// A page that came before, or that is behind its stream: it is left out.
    Repeated {
        offset: u64,
        serial: u32,
    },
    /// A packet of a stream has no end or no beginning: it is left out.
    Unfinished {
        offset: u64,
        serial: u32,
    },
    /// A packet of a stream is longer than a packet may be: it is left out.
    TooLong {
        offset: u64,
        serial: u32,
    },
    /// A stream's first page doesn't hold exactly one whole packet: it is left out.
    Misshapen {
        offset: u64,
        serial: u32,
    },
    /// A page with which there would be too many streams, links, pages or bytes: it is left out.
    Full {
        offset: u64,
        serial: u32,
    },
}

impl Mend {
    /// The mend's number.
    pub fn code(self) -> u8
        ensures { result ≡ code_of self }
    {
        match self {
            Mend::Junk { .. } => 1,
            Mend::Gap { .. } => 2,
            Mend::Restart { .. } => 3,
            Mend::Stranger { .. } => 4,
            Mend::Repeated { .. } => 5,
            Mend::Unfinished { .. } => 6,
            Mend::TooLong { .. } => 7,
            Mend::Misshapen { .. } => 8,
            Mend::Full { .. } => 9,
        }
    }

    /// The mend's name.
    pub fn name(self) -> &'static str
        ensures { result.now ≡ name_of self }
    {
        match self {
            Mend::Junk { .. } => "Junk",
            Mend::Gap { .. } => "Gap",
            Mend::Restart { .. } => "Restart",
            Mend::Stranger { .. } => "Stranger",
            Mend::Repeated { .. } => "Repeated",
            Mend::Unfinished { .. } => "Unfinished",
            Mend::TooLong { .. } => "TooLong",
            Mend::Misshapen { .. } => "Misshapen",
            Mend::Full { .. } => "Full",
        }
    }

    /// The offset in the input at which what was mended begins.
    pub fn offset(self) -> u64
        ensures { result ≡ offset_of self }
    {
        match self {
            Mend::Junk { offset, .. } => offset,
            Mend::Gap { offset, .. } => offset,
            Mend::Restart { offset } => offset,
            Mend::Stranger { offset, .. } => offset,
            Mend::Repeated { offset, .. } => offset,
            Mend::Unfinished { offset, .. } => offset,
            Mend::TooLong { offset, .. } => offset,
            Mend::Misshapen { offset, .. } => offset,
            Mend::Full { offset, .. } => offset,
        }
    }
}
