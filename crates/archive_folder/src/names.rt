//! A name in a folder: what it says, and what is known of it.

/// What a stop may do to a name.
#[derive(Clone, Copy, Debug, PartialEq, Eq)]
pub enum Fate {
    /// It is there, and every stop leaves it.
    Stays,
    /// It is there, and a stop may lose it: it was made since the last sync of the folder.
    Comes,
    /// It isn't there, and a stop may bring it back: it was removed since.
    Goes,
}

/// A name, as a number.
#[derive(Clone, Copy, Debug, PartialEq, Eq)]
pub struct Name {
    pub number: u64,
    pub fate: Fate,
}

/// What a file's name says. Its order among the others is the number's.
#[derive(Clone, Copy, Debug, PartialEq, Eq)]
pub struct FileName {
    pub number: u64,
    /// When the file was begun, in seconds since 1970.
    pub begun: i64,
    /// Whether its first link goes on with the last link of the file before.
    pub goes_on: bool,
}

/// What stands under a name, as far as it matters to what is thrown away.
#[derive(Clone, Copy, Debug, PartialEq, Eq)]
pub struct FileFacts {
    /// The length of the file, and that of the times beside it.
    pub bytes: u64,
    /// Whether a mark beside it says that it is to be kept.
    pub is_held: bool,
}
