//! How a file is begun, opened and ended.
ghost use Rattle.std.specs.Prelude.{◌≡◌, ◌≢◌, ◌↔◌, ◌<◌, ◌++◌, ◌∷◌, [], Bool, List, ℕ, IfOk, IfErr, IfSome, IfNone, OnOk, OnErr, None, Some, Ok, Err, true, false};
ghost use Rattle.disk_model.specs.Image.{settled};
ghost use Rattle.archive_folder.specs.Names.{Kept, made, synced};
ghost use Rattle.archive_folder.specs.declared.names.Fate.TheVariants.{Stays};
ghost use Rattle.archive_history.specs.Archive.{Archive as Account, Content, Known, Newest as NewestOf, Whole, names};
ghost use Rattle.archive_history.specs.History.{with_disk};
ghost use Rattle.history.specs.World.{World, start};
ghost use Rattle.ogg_command.specs.declared.command.Command.{Command as CommandOf};
ghost use Rattle.file_recorder.specs.Recorder.{IsIn, committed, staged};
ghost use Rattle.archive_record.specs.Filing.{HasExactly, IsNew, unwritten};
ghost use Rattle.archive_record.specs.Resting.{IsAtRest};
ghost use Rattle.archive_record.specs.Reaching.{AreAt, ComesBack, ComesFree, ComesWritten, IsAtHand, IsBegun, IsLetGo, IsWritten, Reaches, in_world, with_file, with_newest};
ghost use Rattle.archive_record.specs.Writing.{HasGoneOn};

use crate::archive::ArchiveFault;
use crate::damage::Damage;
use crate::ending::end_open;
use crate::files::Files;
use crate::laws::files_lead_on;
use crate::opening::open_sound;
use archive_folder::{FileName, Folder};
use disk_model::{Disk, DiskFault};
use file_recorder::{Recorder, records_are_steps};
use gate_file::OpenFault;
use std::alloc::Global;

/// Why the newest file isn't gone on with.
pub(crate) enum Left {
    /// Memory was refused.
    Memory,
    /// Another file has this number, which is its own.
    Twice(u64),
    /// It is left exactly as it is.
    Damaged(FileName, Damage),
}

/// Opens the newest file of a folder, if there is one that can be gone on with, and ends what is open in it. Every other
/// is left as it is.
pub(crate) fn open_newest<D: Disk + Drop, F: Folder<File = D>>(
    alloc: Global,
    files: &mut Files<F>,
    most: u32,
) -> Result<Option<(FileName, Recorder<D>)>, Left>
    // Only what rests is recorded into.
    ensures rests { IfOk result (λ newest. IfSome newest (λ (file, r). IsAtRest r)) }
    ensures empty { files.old.files ≡ [] → (result ≡ Ok None) × (files.new ≡ files.old) }
    // Events of the law lead on, if the last file may be opened: the recorder writes it, or no file is written. What isn't
    // opened may be opened again.
    ensures leads { IfOk result (λ newest. IfSome newest (λ (file, r). F.is_honest files.old.folder
        → (a : Account CommandOf) (last : NewestOf CommandOf) (disks : ℕ → D) → AreAt F.names D.Disk files.old a disks
        → IsAtHand F.file D.Disk files.old.folder a last disks
        → ComesWritten F.names F.moment F.left_since D.Disk files.old a disks file.number r files.new)) }
    ensures passed { result ≡ Ok None → F.is_honest files.old.folder
        → (a : Account CommandOf) (last : NewestOf CommandOf) (disks : ℕ → D) → AreAt F.names D.Disk files.old a disks
        → IsAtHand F.file D.Disk files.old.folder a last disks
        → ComesFree F.names F.moment F.left_since D.Disk files.old a disks files.new }
    ensures unopened { OnErr result (F.is_honest files.old.folder
        → (a : Account CommandOf) (last : NewestOf CommandOf) (disks : ℕ → D) → AreAt F.names D.Disk files.old a disks
        → IsAtHand F.file D.Disk files.old.folder a last disks
        → ComesBack F.names F.moment F.left_since D.Disk F.file files.old a disks last.name.number files.new) }
    // What isn't gone on with is with the folder.
    ensures free { files.old.out ≡ None → OnErr result (files.new.out ≡ None) }
    ensures honest { F.is_honest files.old.folder ↔ F.is_honest files.new.folder }
{
    // For the proof alone.
    files_lead_on::<D, F>();
    if let [.., other, newest] = files.names() {
        if other.number == newest.number {
            return Err(Left::Twice(newest.number));
        }
    }
    let name = match files.names() {
        [.., newest] => *newest,
        [] => return Ok(None),
    };
    match open_last(alloc, files) {
        Ok((name, recorder)) => open_ended(files, name, recorder, most),
        Err(Damage::Open(OpenFault::Memory)) => Err(Left::Memory),
        Err(why) => Err(Left::Damaged(name, why)),
    }
}

/// A recorder on the newest file, in which nothing waits. If there is none, the file is with the folder.
pub(crate) fn open_last<D: Disk + Drop, F: Folder<File = D>>(
    alloc: Global,
    files: &mut Files<F>,
) -> Result<(FileName, Recorder<D>), Damage>
    ensures fresh { IfOk result (λ (file, r). (r.file.failed ≡ false) × (r.held ≡ 0)) }
    ensures out { IfOk result (λ (file, r). files.new.out ≡ Some file.number) }
    ensures newest { IfOk result (λ (file, r). (front : _) × (files.old.files ≡ front ++ file ∷ [])) }
    ensures same { OnErr result (files.new.out ≡ files.old.out) }
    ensures files { files.new.files ≡ files.old.files }
    // Events of the law lead on: the recorder writes the account's newest file.
    ensures leads { IfOk result (λ (file, r). F.is_honest files.old.folder → (a : Account CommandOf) (newest : NewestOf CommandOf) (disks : ℕ → D)
        → AreAt F.names D.Disk files.old a disks → IsAtHand F.file D.Disk files.old.folder a newest disks
        → ComesWritten F.names F.moment F.left_since D.Disk files.old a disks newest.name.number r files.new) }
    // What isn't opened is left as it is, and may be opened later.
    ensures unopened { OnErr result (F.is_honest files.old.folder → (a : Account CommandOf) (newest : NewestOf CommandOf) (disks : ℕ → D)
        → AreAt F.names D.Disk files.old a disks → IsAtHand F.file D.Disk files.old.folder a newest disks
        → ComesBack F.names F.moment F.left_since D.Disk F.file files.old a disks newest.name.number files.new) }
    ensures honest { F.is_honest files.old.folder ↔ F.is_honest files.new.folder }
{
    // For the proof alone.
    files_lead_on::<D, F>();
    if !files.is_free() {
        return Err(Damage::Unreadable);
    }
    match files.open_newest() {
        Ok(Some((name, disk))) => match open_sound(alloc, disk) {
            Ok(recorder) => Ok((name, recorder)),
            Err((why, disk)) => {
                files.give_back(name.number, disk);
                Err(why)
            }
        },
        Ok(None) | Err(DiskFault) => Err(Damage::Unreadable),
    }
}

/// Ends what is open in a file that was opened. One that goes on with another and holds no page is ended, and passed over.
fn open_ended<D: Disk + Drop, F: Folder<File = D>>(
    files: &mut Files<F>,
    name: FileName,
    recorder: Recorder<D>,
    most: u32,
) -> Result<Option<(FileName, Recorder<D>)>, Left>
    requires { recorder.held ≡ 0 }
    ensures rests { IfOk result (λ newest. IfSome newest (λ (file, r). IsAtRest r)) }
    ensures named { IfOk result (λ newest. IfSome newest (λ (file, r). file ≡ name)) }
    ensures passed { name.goes_on ≡ true → recorder.file.end ≡ 0 → result ≡ Ok None }
    // Events of the law lead on: the recorder that is returned writes the file, or none is written. After a fault it may be
    // opened again.
    ensures leads { IfOk result (λ newest. IfSome newest (λ (file, r). F.is_honest files.old.folder
        → (a : Account CommandOf) (last : NewestOf CommandOf) (disks : ℕ → D) → AreAt F.names D.Disk files.old a disks
        → IsWritten D.Disk a last name.number recorder disks → files.old.out ≡ Some name.number
        → ComesWritten F.names F.moment F.left_since D.Disk files.old a disks file.number r files.new)) }
    ensures over { result ≡ Ok None → F.is_honest files.old.folder
        → (a : Account CommandOf) (last : NewestOf CommandOf) (disks : ℕ → D) → AreAt F.names D.Disk files.old a disks
        → IsWritten D.Disk a last name.number recorder disks
        → ComesFree F.names F.moment F.left_since D.Disk files.old a disks files.new }
    ensures failed { OnErr result (F.is_honest files.old.folder
        → (a : Account CommandOf) (last : NewestOf CommandOf) (disks : ℕ → D) → AreAt F.names D.Disk files.old a disks
        → IsWritten D.Disk a last name.number recorder disks → files.old.out ≡ Some name.number
        → ComesBack F.names F.moment F.left_since D.Disk F.file files.old a disks name.number files.new) }
    // What isn't gone on with is with the folder.
    ensures free { files.old.out ≡ Some name.number → OnErr result (files.new.out ≡ None) }
    ensures free_over { result ≡ Ok None → files.old.out ≡ Some name.number → files.new.out ≡ None }
    ensures honest { F.is_honest files.old.folder ↔ F.is_honest files.new.folder }
{
    // For the proof alone.
    files_lead_on::<D, F>();
    records_are_steps::<D>();
    if recorder.end() == 0 && name.goes_on {
        if files.is_out(name.number) {
            end_file(files, name, recorder);
        }
        return Ok(None);
    }
    match ended(recorder, most) {
        Ok(recorder) => Ok(Some((name, recorder))),
        Err(recorder) => {
            give_back(files, name, recorder.give_back());
            Err(Left::Damaged(name, Damage::Open(OpenFault::Disk)))
        }
    }
}

/// Gives a file back that is handed out.
pub(crate) fn give_back<D: Disk + Drop, F: Folder<File = D>>(
    files: &mut Files<F>,
    name: FileName,
    disk: D,
)
    ensures free { files.old.out ≡ Some name.number → files.new.out ≡ None }
    // Its disk is with the folder, and events of the law lead on.
    ensures kept { F.is_honest files.old.folder → files.old.out ≡ Some name.number → F.file files.new.folder name.number ≡ Kept disk }
    ensures leads { F.is_honest files.old.folder → (a : Account CommandOf) (disks : ℕ → D) → F.names files.old.folder ≡ names a
        → Reaches F.names F.moment F.left_since D.Disk a files.old.folder disks a files.new.folder disks }
    ensures honest { F.is_honest files.old.folder ↔ F.is_honest files.new.folder }
    ensures files { files.new.files ≡ files.old.files }
{
    // For the proof alone.
    files_lead_on::<D, F>();
    if files.is_out(name.number) {
        files.give_back(name.number, disk);
    }
}

/// Cuts the file to its pages and gives it back, unless its disk has failed or a command waits: then it is given back as
/// it stands. Returns whether it is cut.
pub(crate) fn end_file<D: Disk + Drop, F: Folder<File = D>>(
    files: &mut Files<F>,
    name: FileName,
    recorder: Recorder<D>,
) -> bool
    requires { files.old.out ≡ Some name.number }
    // A file that has ended has its committed bytes, whatever stops, and nothing else.
    ensures sealed { result ≡ true → F.is_honest files.old.folder → D.is_honest recorder.file.disk
        → HasExactly D.Disk (F.file files.new.folder) name.number (committed D.state recorder) }
    ensures failed { recorder.file.failed ≡ true → result ≡ false }
    ensures waits { 0 < recorder.held → result ≡ false }
    ensures none { files.new.out ≡ None }
    ensures files { files.new.files ≡ files.old.files }
    ensures next { files.new.next ≡ files.old.next }
    ensures names { F.is_honest files.old.folder → F.names files.new.folder ≡ F.names files.old.folder }
    ensures honest { F.is_honest files.old.folder ↔ F.is_honest files.new.folder }
    ensures others { F.is_honest files.old.folder
        → (n : ℕ) → n ≢ name.number → F.file files.new.folder n ≡ F.file files.old.folder n }
    // Events of the law lead on: the file is sealed and has ended, or else is set aside as it stands. Its disk is with the
    // folder.
    ensures leads { F.is_honest files.old.folder → (a : Account CommandOf) (file : NewestOf CommandOf) (disks : ℕ → D)
        → F.names files.old.folder ≡ names a → IsWritten D.Disk a file name.number recorder disks
        → (content : Content CommandOf) × (disk : D) × IsLetGo result file.world content
        × (F.file files.new.folder name.number ≡ Kept disk) × D.is_honest disk
        × Reaches F.names F.moment F.left_since D.Disk a files.old.folder disks
        (with_file a file.name content) files.new.folder (with_disk name.number disk disks) }
{
    // For the proof alone.
    files_lead_on::<D, F>();
    if recorder.is_failed() || recorder.held() > 0 {
        files.give_back(name.number, recorder.give_back());
        return false;
    }
    match recorder.seal() {
        Ok(disk) => {
            files.give_back(name.number, disk);
            true
        }
        Err((DiskFault, disk)) => {
            files.give_back(name.number, disk);
            false
        }
    }
}

/// Opens the newest file and ends it. Returns its number, if it has ended.
pub(crate) fn end_last<D: Disk + Drop, F: Folder<File = D>>(
    alloc: Global,
    files: &mut Files<F>,
) -> Option<u64>
    ensures none { files.old.out ≡ None → files.new.out ≡ None }
    // Events of the law lead on: no file is written. One that hasn't ended may be opened again.
    ensures ended { IfSome result (λ n. F.is_honest files.old.folder → (a : Account CommandOf) (newest : NewestOf CommandOf) (disks : ℕ → D)
        → AreAt F.names D.Disk files.old a disks → IsAtHand F.file D.Disk files.old.folder a newest disks
        → ComesFree F.names F.moment F.left_since D.Disk files.old a disks files.new) }
    ensures back { IfNone result (F.is_honest files.old.folder → (a : Account CommandOf) (newest : NewestOf CommandOf) (disks : ℕ → D)
        → AreAt F.names D.Disk files.old a disks → IsAtHand F.file D.Disk files.old.folder a newest disks
        → ComesBack F.names F.moment F.left_since D.Disk F.file files.old a disks newest.name.number files.new) }
    ensures honest { F.is_honest files.old.folder ↔ F.is_honest files.new.folder }
{
    // For the proof alone.
    files_lead_on::<D, F>();
    match open_last(alloc, files) {
        Ok((name, recorder)) => if end_file(files, name, recorder) {
            Some(name.number)
        } else {
            None
        },
        Err(_) => None,
    }
}

/// Commits what waits in the file, cuts it to its pages and gives it back, with two syncs. After a fault the recorder is
/// handed back, which has failed.
pub(crate) fn end_group<D: Disk + Drop, F: Folder<File = D>>(
    files: &mut Files<F>,
    name: FileName,
    recorder: Recorder<D>,
) -> Result<(), Recorder<D>>
    requires { files.old.out ≡ Some name.number }
    // A file that has ended has what was committed and what waited, whatever stops, and nothing else.
    ensures ended { OnOk result (F.is_honest files.old.folder → D.is_honest recorder.file.disk
        → HasExactly D.Disk (F.file files.new.folder) name.number (committed D.state recorder ++ staged D.state recorder)) }
    // Events of the law lead there: what waited is kept, the file is sealed, and it has ended with all that was kept. Its
    // disk is with the folder.
    ensures ends { OnOk result (F.is_honest files.old.folder → (a : Account CommandOf) (file : NewestOf CommandOf) (disks : ℕ → D)
        → F.names files.old.folder ≡ names a → IsWritten D.Disk a file name.number recorder disks
        → (bytes : List ℕ) × (disk : D) × (F.file files.new.folder name.number ≡ Kept disk) × D.is_honest disk
        × Reaches F.names F.moment F.left_since D.Disk a files.old.folder disks
        (with_file a file.name (Whole bytes (file.world.acknowledged ++ file.world.held))) files.new.folder (with_disk name.number disk disks)) }
    // After a fault the recorder that is handed back writes the file.
    ensures unended { IfErr result (λ back. (a : Account CommandOf) (file : NewestOf CommandOf) (disks : ℕ → D)
        → F.names files.old.folder ≡ names a → IsWritten D.Disk a file name.number recorder disks
        → (b : Account CommandOf) × (now : NewestOf CommandOf) × (after : ℕ → D) × (now.name ≡ file.name)
        × IsWritten D.Disk b now name.number back after
        × Reaches F.names F.moment F.left_since D.Disk a files.old.folder disks b files.old.folder after) }
    ensures failed { IfErr result (λ back. back.file.failed ≡ true) }
    ensures front { D.is_honest recorder.file.disk → IfErr result (λ back. committed D.state back ≡ committed D.state recorder) }
    ensures none { OnOk result (files.new.out ≡ None) }
    ensures same { OnErr result (files.new ≡ files.old) }
    ensures files { files.new.files ≡ files.old.files }
    ensures next { files.new.next ≡ files.old.next }
    ensures names { F.is_honest files.old.folder → F.names files.new.folder ≡ F.names files.old.folder }
    ensures honest { F.is_honest files.old.folder ↔ F.is_honest files.new.folder }
    ensures others { F.is_honest files.old.folder
        → (n : ℕ) → n ≢ name.number → F.file files.new.folder n ≡ F.file files.old.folder n }
{
    // For the proof alone.
    files_lead_on::<D, F>();
    if recorder.is_failed() {
        return Err(recorder);
    }
    match recorder.flush_and_seal() {
        Ok(disk) => {
            files.give_back(name.number, disk);
            Ok(())
        }
        Err((DiskFault, recorder)) => Err(recorder),
    }
}

/// Ends what is open in a file, and lets this many commands share a commit from then on. If that can't be done the
/// recorder is given back as an error.
pub(crate) fn ended<D: Disk + Drop>(
    recorder: Recorder<D>,
    most: u32,
) -> Result<Recorder<D>, Recorder<D>>
    requires { recorder.held ≡ 0 }
    ensures rests { IfOk result IsAtRest }
    // Whatever the answer, what was done is steps of the file's history.
    ensures does { (w : World CommandOf) → IfOk result (λ r. HasGoneOn D.Disk w recorder r) }
    ensures does_err { (w : World CommandOf) → IfErr result (λ r. HasGoneOn D.Disk w recorder r) }
{
    let mut recorder = recorder;
    recorder.group(most.clamp(1, 1024));
    match end_open(&mut recorder) {
        Ok(()) => Ok(recorder),
        Err(_) => Err(recorder),
    }
}

/// A recorder on a file that was begun and holds nothing yet. After a fault the file is given back.
pub(crate) fn first_recorder<D: Disk + Drop, F: Folder<File = D>>(
    alloc: Global,
    files: &mut Files<F>,
    name: FileName,
    disk: D,
    most: u32,
) -> Result<Recorder<D>, ArchiveFault>
    requires out { files.old.out ≡ Some name.number }
    requires fresh { D.is_honest disk → D.state disk ≡ settled [] }
    ensures works { IfOk result (λ recorder. (recorder.held ≡ 0) × (recorder.file.failed ≡ false)) }
    ensures unwritten { IfOk result (IsNew D.Disk) }
    ensures same { IfOk result (λ recorder. files.new ≡ files.old) }
    ensures none { OnErr result (files.new.out ≡ None) }
    ensures files { files.new.files ≡ files.old.files }
    ensures honest { F.is_honest files.old.folder ↔ F.is_honest files.new.folder }
    ensures memory { result ≢ Err ArchiveFault.Numbers }
    // Events of the law lead on: the file is opened, with nothing in it, or else is set aside, and its disk is with the folder.
    ensures leads { IfOk result (λ recorder. (a : Account CommandOf) (file : NewestOf CommandOf) (disks : ℕ → D)
        → F.names files.old.folder ≡ names a → IsBegun D.Disk a file name.number disk disks
        → IsWritten D.Disk (with_newest a (in_world file unwritten)) (in_world file unwritten) name.number recorder
        (with_disk name.number recorder.file.disk disks)
        × Reaches F.names F.moment F.left_since D.Disk a files.old.folder disks
        (with_newest a (in_world file unwritten)) files.old.folder (with_disk name.number recorder.file.disk disks)) }
    ensures unopened { OnErr result (F.is_honest files.old.folder → (a : Account CommandOf) (file : NewestOf CommandOf) (disks : ℕ → D)
        → F.names files.old.folder ≡ names a → IsBegun D.Disk a file name.number disk disks
        → (now : D) × (F.file files.new.folder name.number ≡ Kept now) × D.is_honest now
        × Reaches F.names F.moment F.left_since D.Disk a files.old.folder disks
        (with_file a file.name (Known start)) files.new.folder (with_disk name.number now disks)) }
{
    // For the proof alone.
    files_lead_on::<D, F>();
    match Recorder::open_empty(alloc, disk) {
        Ok(recorder) => {
            let mut recorder = recorder;
            recorder.group(most.clamp(1, 1024));
            Ok(recorder)
        }
        Err((fault, disk)) => {
            files.give_back(name.number, disk);
            Err(fault_of(fault))
        }
    }
}

/// The fault of an archive whose new file can't be opened.
fn fault_of(fault: OpenFault) -> ArchiveFault
    ensures { result ≢ ArchiveFault.Numbers }
{
    match fault {
        OpenFault::Memory => ArchiveFault::Memory,
        _ => ArchiveFault::Folder,
    }
}
