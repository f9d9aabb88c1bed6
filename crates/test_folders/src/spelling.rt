//! A spelling of names for the tests: a number in decimal digits, and `.ogg`.
ghost use Rattle.std.specs.Prelude.{⊤};

use archive_folder::{FaultKind, FileName, Naming};
use std::alloc::{AllocError, Global};

#[derive(Clone, Copy)]
pub struct Digits;

/// A name with this number, as `Digits` reads it.
pub fn named(number: u64) -> FileName {
    FileName {
        number,
        begun: 0,
        goes_on: false,
    }
}

fn spelt(alloc: Global, number: u64) -> Result<String, AllocError> {
    let mut text = number.to_string(alloc)?;
    text.push_str(".ogg")?;
    Ok(text)
}

impl Naming for Digits {
    // No promise of it is asked for.
    ghost spells = { λ _ _. ⊤ };

    ghost is_told = { λ _. ⊥ };

    fn read(&self, text: &str) -> Option<FileName> {
        match text.strip_suffix(".ogg") {
            Some(digits) => match digits.parse::<u64>() {
                Ok(number) => Some(named(number)),
                Err(_) => None,
            },
            None => None,
        }
    }

    fn write(&self, alloc: Global, name: FileName) -> Result<String, FaultKind> {
        match spelt(alloc, name.number) {
            Ok(text) => Ok(text),
            Err(AllocError) => Err(FaultKind::Memory),
        }
    }
}
