//! Which file can be gone on with.
ghost use Rattle.std.specs.Prelude.{◌≡◌, ◌⊎◌, Bool, ℕ, IfOk, IfErr, take, false};
ghost use Rattle.chain_rules.specs.Recording.{add};
ghost use Rattle.disk_model.specs.Frame.{Frame};
ghost use Rattle.disk_model.specs.Image.{IsImage};
ghost use Rattle.disk_model.specs.Leaving.{LeavesOnly};
ghost use Rattle.file_recorder.specs.Recorder.{IsIn, IsRecorderStep, committed};
ghost use Rattle.file_recorder.specs.Recovery.{Shows};
ghost use Rattle.file_recorder.specs.Taking.{HoldsChain};
ghost use Rattle.gate_file.specs.Gate.{EndsAt};
ghost use Rattle.gate_file.specs.declared.fault.OpenFault.{OpenFault as OpenFaultOf};
ghost use Rattle.history.specs.History.{StandsIn};
ghost use Rattle.history.specs.World.{Faulted, Looked, Opened, Opening, World, happens};
ghost use Rattle.link_chain.specs.Recording.{Recording};
ghost use Rattle.ogg_command.specs.declared.command.Command.{Command as CommandOf};
ghost use Rattle.record_actions.specs.Foreign.{IsForeign, front_of};
ghost use Rattle.record_actions.specs.Tail.{IsSoundAt};
ghost use Rattle.archive_record.specs.Opening.{CanGoOn, IsLeftBy};

use crate::damage::Damage;
use disk_model::{Disk, DiskFault};
use file_recorder::{Recorder, what_shows_a_recording_is_opened};
use gate_file::{OpenFault, committed_bytes_are_unique};
use record_actions::{find_tail, is_foreign};
use std::alloc::Global;

/// A recorder on a disk that holds a recording, or nothing yet. Nothing waits in it, and each command is a group of its
/// own.
///
/// Nothing is written to what can't be gone on with, and its disk is given back: to what begins with bytes of another
/// kind, to what is no chain of links, and to what has two bytes or more after its last whole page of which the first
/// isn't 00. What a stop leaves there begins with 00, or is one byte.
pub fn open_sound<D: Disk + Drop>(alloc: Global, disk: D) -> Result<Recorder<D>, (Damage, D)>
    ensures fresh { IfOk result (λ r. (r.file.failed ≡ false) × (r.held ≡ 0)) }
    ensures sound { IfOk result (λ r. D.is_honest disk → IsSoundAt (D.state disk).contents r.file.end
        × (IsForeign (front_of (D.state disk).contents) → ⊥)) }
    ensures commits { IfOk result (λ r. D.is_honest disk → committed D.state r ≡ take r.file.end (D.state disk).contents) }
    ensures left { IfErr result (λ (why, back). IsLeftBy D.Disk disk why back) }

    // Exactly what can be gone on with is opened, unless memory is refused or the disk fails.
    ensures good { IfOk result (λ r. D.is_honest disk → CanGoOn (D.state disk).contents) }
    ensures each { IfErr result (λ (why, back). D.is_honest disk → CanGoOn (D.state disk).contents
        → (why ≡ Damage.Open OpenFaultOf.Memory) ⊎ (why ≡ Damage.Open OpenFaultOf.Disk)) }

    // It is a step of each history that led to the disk, with all looks before: an opening, or a look at what isn't opened.
    ensures step { IfOk result (λ r. (first : Recording) (w : World CommandOf) → StandsIn Shows add first w (D.state disk)
        → w.is_open ≡ false → D.is_honest disk → (found : Bool)
        × IsRecorderStep D.Disk first w (Opened found) disk r.file.disk
        × IsIn D.Disk first (happens w (Opened found)) r) }
    ensures step_err { IfErr result (λ (why, back). (first : Recording) (w : World CommandOf) → D.is_honest disk
        → IsRecorderStep D.Disk first w Looked disk back) }
{
    // For the proof alone.
    committed_bytes_are_unique();
    what_shows_a_recording_is_opened();
    match with_own(disk) {
        Ok(disk) => match with_sound_tail(alloc, disk) {
            Ok(disk) => recorder_on(alloc, disk),
            Err(left) => Err(left),
        },
        Err(left) => Err(left),
    }
}

/// The same disk, if it doesn't begin with bytes of another kind.
fn with_own<D: Disk + Drop>(disk: D) -> Result<D, (Damage, D)>
    ensures own { IfOk result (λ same. D.is_honest disk → (D.state same ≡ D.state disk)
        × (IsForeign (front_of (D.state disk).contents) → ⊥)) }
    // Every image since the call began is one of those at its start.
    ensures any_moment { IfOk result (λ same. D.is_honest disk → LeavesOnly D.Disk disk same (IsImage (D.state disk))) }
    ensures any_moment_err { IfErr result (λ (why, back). D.is_honest disk → LeavesOnly D.Disk disk back (IsImage (D.state disk))) }
    ensures frame { IfOk result (λ same. Frame D.Disk disk same ⊥) }
    ensures left { IfErr result (λ (why, back). IsLeftBy D.Disk disk why back) }
{
    let mut disk = disk;
    match is_foreign(&mut disk) {
        Ok(false) => Ok(disk),
        Ok(true) => Err((Damage::Foreign, disk)),
        Err(DiskFault) => Err((Damage::Open(OpenFault::Disk), disk)),
    }
}

/// The same disk, synced, if what follows its last whole page is what a stop may leave.
fn with_sound_tail<D: Disk + Drop>(alloc: Global, disk: D) -> Result<D, (Damage, D)>
    ensures same { IfOk result (λ same. D.is_honest disk → (D.state same).contents ≡ (D.state disk).contents) }
    ensures sound { IfOk result (λ same. D.is_honest disk → (end : ℕ) × IsSoundAt (D.state disk).contents end) }
    // Every image since the call began is one of those at its start.
    ensures any_moment { IfOk result (λ same. D.is_honest disk → LeavesOnly D.Disk disk same (IsImage (D.state disk))) }
    ensures any_moment_err { IfErr result (λ (why, back). D.is_honest disk → LeavesOnly D.Disk disk back (IsImage (D.state disk))) }
    ensures frame { IfOk result (λ same. Frame D.Disk disk same ⊥) }
    ensures left { IfErr result (λ (why, back). IsLeftBy D.Disk disk why back) }
{
    match find_tail(alloc, disk) {
        Ok((disk, tail)) => match tail {
            Some(tail) => Err((Damage::Tail(tail.offset), disk)),
            None => Ok(disk),
        },
        Err((fault, disk)) => Err((Damage::Open(fault), disk)),
    }
}

/// A recorder on this disk.
fn recorder_on<D: Disk + Drop>(alloc: Global, disk: D) -> Result<Recorder<D>, (Damage, D)>
    ensures fresh { IfOk result (λ r. (r.file.failed ≡ false) × (r.held ≡ 0)) }
    ensures ends { IfOk result (λ r. D.is_honest disk → EndsAt (D.state disk).contents r.file.end
        × (committed D.state r ≡ take r.file.end (D.state disk).contents)) }
    ensures holds { IfOk result (λ r. D.is_honest disk → HoldsChain (committed D.state r) r.chain) }
    ensures step { IfOk result (λ r. (first : Recording) (w : World CommandOf) → StandsIn Shows add first w (D.state disk)
        → w.is_open ≡ false → D.is_honest disk → (found : Bool)
        × IsRecorderStep D.Disk first w (Opened found) disk r.file.disk
        × IsIn D.Disk first (happens w (Opened found)) r) }
    ensures step_err { IfErr result (λ (why, back). (first : Recording) (w : World CommandOf) → w.is_open ≡ false
        → D.is_honest disk → IsRecorderStep D.Disk first w (Faulted Opening) disk back) }
    ensures left { IfErr result (λ (why, back). IsLeftBy D.Disk disk why back) }
{
    match Recorder::open(alloc, disk) {
        Ok(recorder) => Ok(recorder),
        Err((fault, disk)) => Err((Damage::Open(fault), disk)),
    }
}
