//! The rows of the tables.

/// The program.
#[derive(Clone, Copy)]
pub(crate) struct Program {
    pub(crate) name: &'static str,
    pub(crate) version: &'static str,
    /// The first line of its help.
    pub(crate) about: &'static str,
    /// The text after its help.
    pub(crate) help: &'static str,
}

/// A subcommand.
#[derive(Clone, Copy)]
pub(crate) struct Subcommand {
    pub(crate) name: &'static str,
    /// Its line in the program's help, and the first of its own help.
    pub(crate) about: &'static str,
    /// What may follow its name; those without `--` in their order.
    pub(crate) arguments: &'static [Argument],
    /// The text after its own help.
    pub(crate) help: &'static str,
}

/// An argument of a subcommand.
#[derive(Clone, Copy)]
pub(crate) struct Argument {
    /// What it is read back by, which also follows `--` or is what help shows at its place.
    pub(crate) name: &'static str,
    pub(crate) kind: Kind,
    /// Its line in help.
    pub(crate) help: &'static str,
}

/// What an argument is.
#[derive(Clone, Copy)]
pub(crate) enum Kind {
    /// A text at its place, which has to be there.
    Text,
    /// A number at its place, which has to be there.
    Number(Bounds),
    /// A number at its place, which may be left out.
    MaybeNumber(Bounds),
    /// `--name`.
    Flag,
    /// `--name`, which may not stand beside this other argument.
    FlagWithout(&'static str),
    /// `--name TEXT`, where help calls the text by this name.
    Named(&'static str),
    /// `--name T`: a time, which may begin with `-`.
    Time,
    /// `--name NUMBER`, where help calls the number `value`.
    Valued {
        value: &'static str,
        bounds: Bounds,
        /// The number that is meant if there is none.
        default: Option<&'static str>,
    },
}

/// The least and the greatest number that is taken.
#[derive(Clone, Copy)]
pub(crate) struct Bounds {
    pub(crate) least: u32,
    pub(crate) most: u32,
}

/// Any number.
pub(crate) const ANY: Bounds = Bounds {
    least: 0,
    most: u32::MAX,
};

/// How many commands may share one commit.
pub(crate) const GROUPS: Bounds = Bounds {
    least: 1,
    most: 1024,
};

/// How many connections may be served.
pub(crate) const COUNTS: Bounds = Bounds {
    least: 1,
    most: 65536,
};

/// How many connections a station may have at once.
pub(crate) const CONNECTIONS: Bounds = Bounds {
    least: 1,
    most: 16384,
};
