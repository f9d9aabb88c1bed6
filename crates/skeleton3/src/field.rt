//! A message field of a fisbone, as a command has it.
ghost use Rattle.std.specs.Prelude.{◌≡◌};

use std::marker::Model;

/// A message field (Ogg Skeleton 3.0, "Message header fields"): a name and its value, both of which it owns. Contracts
/// see only the two byte lists, not where they lie or how much room they have.
#[derive(Debug, Drop)]
pub struct Field {
    name: Vec<u8>,
    value: Vec<u8>,
}

impl Model for Field {
    ghost use Rattle.skeleton3.specs.Fields.{NamedValue};

    ghost Value = { NamedValue };

    ghost view = { λ f. (f.name.items, f.value.items) };
}

impl Field {
    /// A field of this name and value. Neither is copied, and no memory is taken.
    pub fn of(name: Vec<u8>, value: Vec<u8>) -> Self
        ensures { result ≡ (name.items, value.items) }
    {
        Field { name, value }
    }

    /// The name.
    pub fn name(&self) -> &[u8]
        ensures { result.now ≡ self.now.0 }
    {
        self.name.as_slice()
    }

    /// The value.
    pub fn value(&self) -> &[u8]
        ensures { result.now ≡ self.now.1 }
    {
        self.value.as_slice()
    }
    /// Gives back its name and its value.
    pub fn into_parts(self) -> (Vec<u8>, Vec<u8>)
        ensures { (result.0.items, result.1.items) ≡ self }
    {
        let Field { name, value } = self;
        (name, value)
    }
}
