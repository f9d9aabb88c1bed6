//! Names that are made, synced and listed in memory.
ghost use Rattle.std.specs.Prelude.{◌≡◌};

use archive_folder::{FileName, Folder, MemFolder};
use std::test::Fail;

fn named(number: u64) -> FileName
    ensures { result.number ≡ number }
{
    FileName {
        number,
        begun: 1_795_874_400,
        goes_on: number > 1,
    }
}

#[test]
fn names_are_listed_as_they_were_made(rt: HostRuntime) -> Result<(), Fail> {
    let mut folder = MemFolder::new(rt.alloc());
    assert!(rt; folder.make(named(1)).is_ok());
    assert!(rt; folder.sync() == Ok(()));
    assert!(rt; folder.make(named(2)).is_ok());
    let files = folder.list(rt.alloc())?;
    assert!(rt; files.as_slice() == [named(1), named(2)].as_slice());
    Ok(())
}
