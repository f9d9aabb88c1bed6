//! A folder over a raw one whose list comes in any order, and whose calls fail in turn.
ghost use Rattle.std.specs.Prelude.{◌≡◌, [], IfOk};
ghost use Rattle.disk_model.specs.Image.{settled};
ghost use Rattle.disk_model.specs.MemDisk.{state_of};
ghost use Rattle.archive_folder.specs.Names.{Nowhere};

use crate::spelling::named;
use archive_folder::{FaultKind, FileFacts, FileFolder, FileName, Folder, FuseFolder, RawFolder};
use disk_model::MemDisk;
use std::alloc::Global;
use std::test::Fail;

/// Its files are 7, 5 and 6. The call with this number fails; the first has the number 1.
#[derive(Drop)]
struct FailingFolder {
    alloc: Global,
    bad: u64,
    calls: u64,
}

impl FailingFolder {
    /// Counts a call of the folder.
    fn call(&mut self) -> Result<(), FaultKind> {
        self.calls = self.calls.saturating_add(1);
        if self.calls == self.bad {
            Err(FaultKind::Full)
        } else {
            Ok(())
        }
    }

    fn empty_file(&mut self) -> Result<MemDisk, FaultKind>
        ensures { IfOk result (λ disk. state_of disk ≡ settled []) }
    {
        match MemDisk::of(self.alloc, &[]) {
            Ok(disk) => Ok(disk),
            Err(_) => Err(FaultKind::Memory),
        }
    }
}

impl RawFolder for FailingFolder {
    type File = MemDisk;

    // It promises nothing: the test says what it does.
    ghost is_honest = { λ _. ⊥ };

    ghost names = { λ _. [] };

    ghost file = { λ _ _. Nowhere };

    ghost moment = { λ _. 0 };

    ghost left_since = { λ _ _ _. ⊥ };

    ghost laws = { λ _ honest. absurd honest };

    fn entries(&mut self, alloc: Global) -> Result<Vec<FileName>, FaultKind> {
        self.call()?;
        match Vec::from_slice(alloc, &[named(7), named(5), named(6)]) {
            Ok(files) => Ok(files),
            Err(_) => Err(FaultKind::Memory),
        }
    }

    fn facts(&mut self, name: FileName) -> Result<FileFacts, FaultKind> {
        self.call()?;
        Ok(FileFacts {
            bytes: name.number,
            is_held: false,
        })
    }

    fn create_new(&mut self, _name: FileName) -> Result<MemDisk, FaultKind> {
        self.call()?;
        self.empty_file()
    }

    fn open(&mut self, _name: FileName) -> Result<MemDisk, FaultKind> {
        self.call()?;
        self.empty_file()
    }

    fn take_back(&mut self, _number: u64, _disk: MemDisk) -> Option<FaultKind> {
        self.call().err()
    }

    fn remove_file(&mut self, _name: FileName) -> Result<(), FaultKind> {
        self.call()
    }

    fn sync_all(&mut self) -> Result<(), FaultKind> {
        self.call()
    }
}

/// How many calls `answers` makes, a file that is given back among them.
const CALLS: usize = 7;

/// Whether each call was answered, one after the other, and why it failed. What has no answer counts as answered.
fn answers(
    folder: &mut FileFolder<FailingFolder>,
    alloc: Global,
) -> [(bool, Option<FaultKind>); CALLS] {
    let is_listed = match folder.list(alloc) {
        Ok(files) => files.as_slice() == [named(5), named(6), named(7)].as_slice(),
        Err(_) => false,
    };
    let listed = (is_listed, folder.last_fault());
    let told = (folder.facts(named(5)).is_ok(), folder.last_fault());
    let made = (folder.make(named(8)).is_ok(), folder.last_fault());
    let file = folder.open(named(7));
    let opened = (file.is_ok(), folder.last_fault());
    if let Ok(disk) = file {
        folder.give_back(7, disk);
    }
    let given_back = (true, folder.last_fault());
    let removed = (folder.remove(named(5)).is_ok(), folder.last_fault());
    let synced = (folder.sync().is_ok(), folder.last_fault());
    [listed, told, made, opened, given_back, removed, synced]
}

#[test]
fn a_call_that_fails_is_told_with_its_kind(rt: HostRuntime) -> Result<(), Fail> {
    for bad in 0..=CALLS {
        let mut folder = FileFolder::over(FailingFolder {
            alloc: rt.alloc(),
            bad: bad as u64,
            calls: 0,
        });
        let answered = answers(&mut folder, rt.alloc());
        for k in 0..CALLS {
            // The fifth call takes a file back, and has no answer. It isn't made if the file wasn't opened, and then the
            // kind is that of the opening still.
            let (is_answered, fault) = answered[k];
            assert!(rt; is_answered == (k + 1 != bad || k == 4));
            let fails = k + 1 == bad || k == 4 && bad == 4;
            assert!(rt; (fault == Some(FaultKind::Full)) == fails);
            assert!(rt; fault.is_none() != fails);
        }
    }
    Ok(())
}

/// Which of four syncs were answered.
fn syncs(folder: &mut FuseFolder<FileFolder<FailingFolder>>) -> [bool; 4] {
    [
        folder.sync().is_ok(),
        folder.sync().is_ok(),
        folder.sync().is_ok(),
        folder.sync().is_ok(),
    ]
}

#[test]
fn a_fuse_fails_the_calls_that_it_should_fail(rt: HostRuntime) -> Result<(), Fail> {
    let whole = FileFolder::over(FailingFolder {
        alloc: rt.alloc(),
        bad: 0,
        calls: 0,
    });
    let mut once = FuseFolder::fail_once(whole, 3);
    assert!(rt; syncs(&mut once) == [true, true, false, true]);
    let mut stopped = FuseFolder::stop_after(once.into_inner(), 1);
    assert!(rt; syncs(&mut stopped) == [true, false, false, false]);
    Ok(())
}
