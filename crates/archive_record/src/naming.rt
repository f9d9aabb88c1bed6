//! How the files of a folder are named.
ghost use Rattle.std.specs.Prelude.{◌≡◌, IfOk, IfSome, Some, string_bytes};
ghost use Rattle.archive_folder.specs.declared.names.FileName.{FileName as FileNameOf};
ghost use Rattle.archive_names.specs.Name.{IsText};
ghost use Rattle.archive_record.specs.Spelling.{name_of, Spells, IsTold};

use archive_folder::{FaultKind, FileName, Naming};
use archive_names::{Kind, Name};
use std::alloc::{AllocError, Global};

/// The names of archive_names.
#[derive(Clone, Copy, Debug)]
pub struct ArchiveNames;

/// The name as archive_names has it. A time before 1970 is told as 1970.
pub fn name_of(file: FileName) -> Name
    ensures { result ≡ name_of file }
{
    Name {
        number: file.number,
        begin: u64::try_from(file.begun).unwrap_or(0),
        goes_on: file.goes_on,
    }
}

/// The file of this name, if its time can be told.
fn file_of(name: Name) -> Option<FileName>
    ensures some { IfSome result (λ file. name_of file ≡ name) }
    ensures each { (file : FileNameOf) → IsTold file → name_of file ≡ name → result ≡ Some file }
{
    match i64::try_from(name.begin) {
        Ok(begun) => Some(FileName {
            number: name.number,
            begun,
            goes_on: name.goes_on,
        }),
        Err(_) => None,
    }
}

impl Naming for ArchiveNames {
    ghost spells = { Spells };

    ghost is_told = { IsTold };

    fn read(&self, text: &str) -> Option<FileName> {
        match Name::read(text.as_bytes()) {
            Some((name, kind)) => match kind {
                Kind::Pages => file_of(name),
                Kind::Times => None,
                Kind::Keep => None,
            },
            None => None,
        }
    }

    fn write(&self, alloc: Global, file: FileName) -> Result<String, FaultKind> {
        match text_of(alloc, file, Kind::Pages) {
            Ok(text) => Ok(text),
            Err(AllocError) => Err(FaultKind::Memory),
        }
    }
}

/// The text of the file's name, of what stands beside it, or of its mark.
pub fn text_of(alloc: Global, file: FileName, kind: Kind) -> Result<String, AllocError>
    ensures { IfOk result (λ text. IsText kind (name_of file) (string_bytes text)) }
{
    let text = name_of(file).text(kind);
    match str::from_utf8(text.as_slice()) {
        Ok(text) => String::from_str(alloc, text),
        // It is never met: the text is ASCII.
        Err(_) => Err(AllocError),
    }
}
