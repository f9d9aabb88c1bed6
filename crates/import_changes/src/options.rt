//! What is changed.
ghost use Rattle.std.specs.Prelude.{◌≡◌};
ghost use Rattle.import_changes.specs.Options.{is_none, no_options};

/// What becomes of Skeletons.
#[derive(Clone, Copy, Debug, PartialEq, Eq)]
pub enum Skeletons {
    /// A Skeleton of the input stays as it is.
    Kept,
    /// A Skeleton is left out if its link has another stream.
    LeftOut,
    /// Skeletons are left out likewise, and each link of other streams begins with a new one, if a `Begin` may have
    /// one stream more. The new Skeleton's serial is the first from this one on that no stream has had and none of the
    /// link has. The new Skeleton says of the link and of each stream what the one says that is left out, if that
    /// keeps the rules of a `Begin`, and otherwise what the stream's first packet says.
    Made(u32),
}

/// What is changed.
#[derive(Clone, Copy, Debug, PartialEq, Eq)]
pub struct ChangeOptions {
    /// Whether a stream gets another serial if a stream of an earlier link has its serial.
    pub renumber: bool,
    /// What becomes of Skeletons.
    pub skeletons: Skeletons,
}

impl ChangeOptions {
    /// Nothing is changed.
    pub fn none() -> ChangeOptions
        ensures { result ≡ no_options }
    {
        ChangeOptions {
            renumber: false,
            skeletons: Skeletons::Kept,
        }
    }

    /// Whether nothing is changed.
    pub(crate) fn is_none(self) -> bool
        ensures { result ≡ is_none self }
    {
        match self.skeletons {
            Skeletons::Kept => !self.renumber,
            Skeletons::LeftOut | Skeletons::Made(_) => false,
        }
    }
}
