//! A recorder of commands.
ghost use Rattle.std.specs.Prelude.{◌≡◌, ◌≢◌, ◌↔◌, [], ◌⊎◌, ◌+◌, ◌-◌, ◌^◌, ◌<◌, ◌≤◌, true, false, Bool, ℕ, List, length, take, drop, OnOk, IfOk, IfErr, ◌++◌, ⊤};
ghost use Rattle.disk_model.specs.Image.{IsSettled, settled};
ghost use Rattle.disk_model.specs.Leaving.{LeavesOnly};
ghost use Rattle.disk_model.specs.Fault.{HasCause, Rises};
ghost use Rattle.disk_model.specs.Frame.{Frame};
ghost use Rattle.link_chain.specs.Recording.{Recording};
ghost use Rattle.link_chain.specs.declared.chain_fault.ChainFault.{ChainFault as ChainFaultOf};
ghost use Rattle.gate_file.specs.Commit.{CommitsTo, CommitsToEither};
ghost use Rattle.gate_file.specs.Gate.{EachImage, EndsAt};
ghost use Rattle.gate_file.specs.Reading.{OnlyReads};
ghost use Rattle.gate_file.specs.Opening.{Opens, GivesBack};
ghost use Rattle.chain_rules.specs.Recording.{add};
ghost use Rattle.ogg_command.specs.declared.command.Command.{Command as CommandOf};
ghost use Rattle.history.specs.Showing.{IsAsBefore};
ghost use Rattle.history.specs.World.{World, Opening, Opened, Flushing, Flushed, Sealing, Sealed, Looked, Faulted, happens};
ghost use Rattle.history.specs.History.{StandsIn};
ghost use Rattle.file_recorder.specs.Recovery.{Commits, Shows};
ghost use Rattle.file_recorder.specs.Taking.{HoldsChain, IsBrokenAt, IsUnfinished};
ghost use Rattle.file_recorder.specs.Recorder.{RecorderState, IsRecorder, IsIn, over_disk, committed, staged, IsRecorderStep};

use crate::opening::{FoundChain, find_chain, find_empty, rooms};
use crate::staging::SmallPage;
use chain_rules::{Plan, Serials, Shape, StreamState};
use disk_model::{Disk, DiskFault};
use gate_file::{GateFile, OpenFault};
use history::disks_stand_in_their_world;
use ogg_page::{PageBuffer, PageSource, SourceFault};
use std::alloc::Global;
use std::marker::Model;

/// A recorder of commands into a file of links. It owns the file's disk. Once the disk has failed the recorder has
/// failed: what is committed can still be read, and the disk can be given back and opened again.
#[derive(Drop)]
pub struct Recorder<D: Disk> {
    pub(crate) file: GateFile<D>,
    pub(crate) shape: Shape,
    // room for what one command makes of the chain
    pub(crate) plan: Plan,
    // room for one page
    pub(crate) buffer: PageBuffer,
    // room for a small page and the byte after it
    pub(crate) small: SmallPage,
    pub(crate) tail: u64,
    pub(crate) kept: u64,
    pub(crate) held: u64,
    pub(crate) most: u32,
}

impl<D: Disk> Model for Recorder<D> {
    ghost use Rattle.file_recorder.specs.Recorder.{RecorderState, IsRecorder, recorder_state};

    ghost Value = { RecorderState D };

    ghost view = { λ r. recorder_state r.file r.shape.chain r.tail r.kept r.held r.most };

    ghost invariant = { λ r. IsRecorder D.Disk (recorder_state r.file r.shape.chain r.tail r.kept r.held r.most) };
}

impl<D: Disk> Recorder<D> {
    ghost use Rattle.file_recorder.specs.Recorder.{RecorderState, committed, to_read};

    /// Opens a file that a stop may have left. It syncs, finds the committed bytes and takes their pages into a
    /// chain, all in one pass and in the memory of one page and of the chain. If no closed byte follows the committed
    /// bytes, it writes one. Each command is then a group of its own. The faults are `Page`, `Chain`, `Unfinished`,
    /// in this order, and `Memory` and `Disk`; after each but `Disk` the contents are as they were.
    pub fn open(alloc: Global, disk: D) -> Result<Recorder<D>, (OpenFault, D)>
        ensures fresh { IfOk result (λ r. (r.file.failed ≡ false) × (r.file.staged ≡ 0)
            × (r ≡ record r { kept = 0; held = 0; most = 1 })) }
        // The committed bytes are links that hold a recording.
        ensures ends { IfOk result (λ r. D.is_honest disk → EndsAt (D.state disk).contents r.file.end
            × (r.file.end + r.tail ≡ length (D.state disk).contents)
            × (committed D.state r ≡ take r.file.end (D.state disk).contents)) }
        ensures holds { IfOk result (λ r. D.is_honest disk → HoldsChain (committed D.state r) r.chain) }

        ensures broken { IfErr result (λ e. (offset : ℕ) (fault : ChainFaultOf) → e.0 ≡ OpenFault.Chain offset fault
            → D.is_honest disk → (end : ℕ) × EndsAt (D.state disk).contents end
            × IsBrokenAt (take end (D.state disk).contents) offset fault) }
        ensures unfinished { IfErr result (λ e. (serial : ℕ) → e.0 ≡ OpenFault.Unfinished serial
            → D.is_honest disk → (end : ℕ) × EndsAt (D.state disk).contents end
            × IsUnfinished (take end (D.state disk).contents) serial) }

        // What a recorder left in any history is refused only for want of memory, or by the disk.
        ensures reopens { IfErr result (λ e. (first : Recording) (w : World CommandOf) → StandsIn Shows add first w (D.state disk)
            → D.is_honest disk → (e.0 ≡ OpenFault.Disk) ⊎ (e.0 ≡ OpenFault.Memory)) }

        // Every image since the call began commits to what an image at its start commits to.
        ensures opens { IfOk result (λ r. Opens D.Disk (IsAsBefore Commits (D.state disk)) disk r.file.disk) }
        ensures gives_back { IfErr result (λ e. GivesBack D.Disk (IsAsBefore Commits (D.state disk)) OpenFault.Disk
            OpenFault.Page disk e.0 e.1) }

        // It is a step of each history that led to the disk.
        ensures step { IfOk result (λ r. (first : Recording) (w : World CommandOf) → StandsIn Shows add first w (D.state disk)
            → w.is_open ≡ false → D.is_honest disk → (found : Bool)
            × IsRecorderStep D.Disk first w (Opened found) disk r.file.disk
            × IsIn D.Disk first (happens w (Opened found)) r) }
        ensures step_err { IfErr result (λ e. (first : Recording) (w : World CommandOf) → w.is_open ≡ false → D.is_honest disk
            → IsRecorderStep D.Disk first w (Faulted Opening) disk e.1) }
    {
        // For the proof alone.
        disks_stand_in_their_world::<D, crate::laws::Recorded>();
        let FoundChain {
            found,
            shape,
            buffer,
            small,
        } = match find_chain(alloc, disk) {
            Ok(found) => found,
            Err(fault) => return Err(fault),
        };
        let tail = found.tail();
        match found.ready() {
            Ok(file) => Ok(Recorder {
                file,
                shape,
                plan: Plan::new(),
                buffer,
                small,
                tail,
                kept: 0,
                held: 0,
                most: 1,
            }),
            Err(fault) => Err(fault),
        }
    }

    /// A recorder that is only read: the first `end` bytes of the disk are committed, and like one that has failed it
    /// takes no command. It knows no streams. The faults are `Memory` and `Disk`, which says too that the disk is shorter.
    pub fn to_read(alloc: Global, disk: D, end: u64) -> Result<Recorder<D>, (OpenFault, D)>
        ensures reads { IfOk result (λ r. (r ≡ to_read r.file.disk end) × OnlyReads D.Disk disk r.file.disk) }
        ensures back { IfErr result (λ e. OnlyReads D.Disk disk e.1) }
        ensures cause { IfErr result (λ e. (e.0 ≡ OpenFault.Memory) ⊎ ((e.0 ≡ OpenFault.Disk) × (D.is_honest disk
            → Rises (D.failures disk) (D.failures e.1) ⊎ (length (D.state disk).contents < end)))) }
    {
        let Ok((shape, buffer, small)) = rooms(alloc) else {
            return Err((OpenFault::Memory, disk));
        };
        match GateFile::to_read(disk, end) {
            Ok(file) => Ok(Recorder {
                file,
                shape,
                plan: Plan::new(),
                buffer,
                small,
                tail: 0,
                kept: 0,
                held: 0,
                most: 1,
            }),
            Err(disk) => Err((OpenFault::Disk, disk)),
        }
    }

    /// Opens a file that was made, whose disk is empty whatever stops. It writes a closed byte and syncs, so that it takes a
    /// sync less than `open`. Each command is then a group of its own. The faults are `Memory` and `Disk`; after the first
    /// one no call of the disk was made.
    pub fn open_empty(alloc: Global, disk: D) -> Result<Recorder<D>, (OpenFault, D)>
        requires { D.is_honest disk → D.state disk ≡ settled [] }
        ensures fresh { IfOk result (λ r. (r.file.failed ≡ false) × (r.file.end ≡ 0) × (r.file.staged ≡ 0)
            × (r ≡ record r { tail = 0; kept = 0; held = 0; most = 1 })) }
        ensures faults { IfErr result (λ e. (e.0 ≡ OpenFault.Disk) ⊎ ((e.0 ≡ OpenFault.Memory) × (e.1 ≡ disk))) }

        // Every image since the call began commits to nothing.
        ensures any_moment { IfOk result (λ r. D.is_honest disk → LeavesOnly D.Disk disk r.file.disk (CommitsTo [])) }
        ensures any_moment_err { IfErr result (λ e. D.is_honest disk → LeavesOnly D.Disk disk e.1 (CommitsTo [])) }

        // It is a step of each history that led to the disk.
        ensures step { IfOk result (λ r. (first : Recording) (w : World CommandOf) → StandsIn Shows add first w (D.state disk)
            → w.is_open ≡ false → D.is_honest disk → (found : Bool)
            × IsRecorderStep D.Disk first w (Opened found) disk r.file.disk
            × IsIn D.Disk first (happens w (Opened found)) r) }
        ensures step_err { IfErr result (λ e. (first : Recording) (w : World CommandOf) → w.is_open ≡ false → D.is_honest disk
            → IsRecorderStep D.Disk first w (Faulted Opening) disk e.1) }
        ensures frame { IfOk result (λ r. Frame D.Disk disk r.file.disk ⊥) }
        ensures frame_err { IfErr result (λ e. Frame D.Disk disk e.1 (e.0 ≡ OpenFault.Disk)) }
    {
        // For the proof alone.
        disks_stand_in_their_world::<D, crate::laws::Recorded>();
        let FoundChain {
            found,
            shape,
            buffer,
            small,
        } = match find_empty(alloc, disk) {
            Ok(found) => found,
            Err(disk) => return Err((OpenFault::Memory, disk)),
        };
        match found.ready() {
            Ok(file) => Ok(Recorder {
                file,
                shape,
                plan: Plan::new(),
                buffer,
                small,
                tail: 0,
                kept: 0,
                held: 0,
                most: 1,
            }),
            Err(fault) => Err(fault),
        }
    }

    /// The length of the committed bytes: those of the last command that was kept, after a fault too.
    pub fn end(&self) -> u64
        ensures end { result ≡ self.now.file.end }
        // What holds of each recorder.
        ensures always { IsRecorder D.Disk self.now }
        ensures inside { D.is_honest self.now.file.disk → length (committed D.state self.now) ≡ self.now.file.end }
        // While it hasn't failed, every image commits to them.
        ensures images { self.now.file.failed ≡ false → D.is_honest self.now.file.disk
            → EachImage (D.state self.now.file.disk) (CommitsTo (committed D.state self.now)) }
    {
        self.file.end()
    }

    /// The length of the committed bytes and of those of the commands that wait. After a fault it still counts those
    /// of the group in doubt, as the streams and the serials do.
    pub fn length(&self) -> u64
        ensures length { result ≡ self.now.chain.length_of }
        // While it hasn't failed: a command that is accepted next has its bytes from there on.
        ensures bytes { self.now.file.failed ≡ false → D.is_honest self.now.file.disk
            → result ≡ length (committed D.state self.now ++ staged D.state self.now) }
    {
        self.shape.len()
    }

    /// How many bytes followed the committed ones when the file was opened.
    pub fn tail(&self) -> u64
        ensures { result ≡ self.now.tail }
    {
        self.tail
    }

    /// How many commands were accepted since the file was opened, those that wait included.
    pub fn count(&self) -> u64
        ensures { result ≡ self.now.kept + self.now.held }
    {
        self.kept + self.held
    }

    /// How many commands wait for the commit of their group.
    pub fn held(&self) -> u64
        ensures { result ≡ self.now.held }
    {
        self.held
    }

    /// The streams of the last link, in the order of their first pages; what waits has been added to it.
    pub fn streams(&self) -> &[StreamState]
        ensures { result.now ≡ self.now.chain.streams }
    {
        self.shape.streams()
    }

    /// The serials of all streams of the file, those that wait included.
    pub fn serials(&self) -> &Serials
        ensures { result.now.listed ≡ self.now.chain.serials }
    {
        self.shape.serials()
    }

    /// How many links the file has, those that wait included.
    pub fn links(&self) -> u64
        ensures { result ≡ self.now.chain.links }
    {
        self.shape.links()
    }

    /// Whether the disk has failed.
    pub fn is_failed(&self) -> bool
        ensures { result ≡ self.now.file.failed }
    {
        self.file.is_failed()
    }

    /// Fills the buffer with committed bytes from `from` on, after a fault too. If the read fails the buffer may hold
    /// anything, and the recorder hasn't failed.
    pub fn read(&mut self, from: u64, buffer: &mut [u8]) -> Result<(), DiskFault>
        requires { from + length buffer.old ≤ self.old.file.end }
        ensures read { OnOk result (D.is_honest self.old.file.disk
            → buffer.new ≡ take (length buffer.old) (drop from (committed D.state self.old))) }
        ensures reads { OnlyReads D.Disk self.old.file.disk self.new.file.disk }
        ensures same { self.new ≡ over_disk self.new.file.disk self.old }
        ensures step { (first : Recording) (w : World CommandOf) → IsIn D.Disk first w self.old
            → D.is_honest self.old.file.disk
            → IsRecorderStep D.Disk first w Looked self.old.file.disk self.new.file.disk
            × IsIn D.Disk first w self.new }
        ensures cause { HasCause (D.failures self.old.file.disk) (D.failures self.new.file.disk) result }
    {
        self.file.read(from, buffer)
    }

    /// Cuts the file to its committed bytes and syncs. After a fault the disk is given back: opening finds the same
    /// bytes.
    pub fn seal(self) -> Result<D, (DiskFault, D)>
        requires good { self.file.failed ≡ false }
        requires none { self.held ≡ 0 }

        ensures sealed { IfOk result (λ disk. D.is_honest self.file.disk
            → IsSettled (D.state disk) × ((D.state disk).contents ≡ committed D.state self)) }
        ensures front { IfErr result (λ e. D.is_honest self.file.disk
            → take self.file.end (D.state e.1).contents ≡ committed D.state self) }

        // Every image since the call began commits to the same bytes.
        ensures any_moment { IfOk result (λ disk. D.is_honest self.file.disk
            → LeavesOnly D.Disk self.file.disk disk (CommitsTo (committed D.state self))) }
        ensures any_moment_err { IfErr result (λ e. D.is_honest self.file.disk
            → LeavesOnly D.Disk self.file.disk e.1 (CommitsTo (committed D.state self))) }
        ensures step { IfOk result (λ disk. (first : Recording) (w : World CommandOf) → IsIn D.Disk first w self
            → D.is_honest self.file.disk
            → IsRecorderStep D.Disk first w Sealed self.file.disk disk) }
        ensures step_err { IfErr result (λ e. (first : Recording) (w : World CommandOf) → IsIn D.Disk first w self
            → D.is_honest self.file.disk
            → IsRecorderStep D.Disk first w (Faulted Sealing) self.file.disk e.1) }

        ensures frame { IfOk result (λ disk. Frame D.Disk self.file.disk disk ⊥) }
        ensures frame_err { IfErr result (λ e. Frame D.Disk self.file.disk e.1 ⊤) }
    {
        self.file.seal()
    }

    /// Commits what waits, and cuts the file to its committed bytes, by four calls of the disk, of which two are syncs.
    /// After a fault the recorder has failed, what waited is lost, and opening finds what was kept, without this group or
    /// with all of it.
    pub fn flush_and_seal(self) -> Result<D, (DiskFault, Recorder<D>)>
        requires { self.file.failed ≡ false }

        ensures sealed { IfOk result (λ disk. D.is_honest self.file.disk
            → IsSettled (D.state disk) × ((D.state disk).contents ≡ committed D.state self ++ staged D.state self)) }
        ensures faulted { IfErr result (λ e. (e.1.file.failed ≡ true) × (e.1.file.end ≡ self.file.end)
            × (e.1 ≡ record self { file = e.1.file; held = 0 })) }
        ensures front { IfErr result (λ e. D.is_honest self.file.disk → committed D.state e.1 ≡ committed D.state self) }

        // Every image since the call began commits to what was committed, without the group or with all of it.
        ensures any_moment { IfOk result (λ disk. D.is_honest self.file.disk → LeavesOnly D.Disk self.file.disk disk
            (CommitsToEither (committed D.state self) (staged D.state self))) }
        ensures any_moment_err { IfErr result (λ e. D.is_honest self.file.disk → LeavesOnly D.Disk self.file.disk e.1.file.disk
            (CommitsToEither (committed D.state self) (staged D.state self))) }

        // It is two steps of each history in which the recorder stands: what waited is kept, and the file is sealed.
        ensures step { IfOk result (λ disk. (first : Recording) (w : World CommandOf) → IsIn D.Disk first w self
            → D.is_honest self.file.disk
            → IsRecorderStep D.Disk first w Flushed self.file.disk disk
            × IsRecorderStep D.Disk first (happens w Flushed) Sealed disk disk) }
        ensures step_err { IfErr result (λ e. (first : Recording) (w : World CommandOf) → IsIn D.Disk first w self
            → D.is_honest self.file.disk
            → IsRecorderStep D.Disk first w (Faulted Flushing) self.file.disk e.1.file.disk
            × IsIn D.Disk first (happens w (Faulted Flushing)) e.1) }

        ensures frame { IfOk result (λ disk. Frame D.Disk self.file.disk disk ⊥) }
        ensures frame_err { IfErr result (λ e. Frame D.Disk self.file.disk e.1.file.disk ⊤) }
    {
        let Recorder {
            file,
            shape,
            plan,
            buffer,
            small,
            tail,
            kept,
            most,
            ..
        } = self;
        match file.commit_and_seal() {
            Ok(disk) => Ok(disk),
            Err((fault, file)) => Err((
                fault,
                Recorder {
                    file,
                    shape,
                    plan,
                    buffer,
                    small,
                    tail,
                    kept,
                    held: 0,
                    most,
                },
            )),
        }
    }

    /// The disk as it stands. What waits is lost.
    pub fn give_back(self) -> D
        ensures { result ≡ self.file.disk }
    {
        self.file.give_back()
    }
}

impl<D: Disk> PageSource for Recorder<D> {
    ghost use Rattle.std.specs.Prelude.{◌≡◌, length, refl};
    ghost use Rattle.std.proofs.Common.{◌∙◌, ap};
    ghost use Rattle.gate_file.specs.Reading.{OnlyReads, nothing_read, reads_then};
    ghost use Rattle.file_recorder.specs.Recorder.{committed, over_disk};

    ghost bytes = { λ r. committed D.state r };

    ghost size = { λ r. r.file.end };

    ghost is_honest = { λ r. D.is_honest r.file.disk × (length (committed D.state r) ≡ r.file.end) };

    ghost failures = { λ r. D.failures r.file.disk };

    ghost only_reads = { λ old new. OnlyReads D.Disk old.file.disk new.file.disk × (new ≡ over_disk new.file.disk old) };

    fn end(&self) -> u64 {
        self.file.end()
    }

    fn read_at(&mut self, at: u64, buffer: &mut [u8]) -> Result<(), SourceFault> {
        match self.file.read(at, buffer) {
            Ok(()) => Ok(()),
            Err(DiskFault) => Err(SourceFault),
        }
    }

    ghost fits = { λ r h. h.1 };

    ghost reads_nothing = { λ r. (
      nothing_read _ r.file.disk
          (λ h image since. (D.laws r.file.disk h).only_now image since),
      refl,
    ) };

    ghost reads_on = { λ a b c first second. (
      reads_then _ a.file.disk b.file.disk c.file.disk first.0 second.0,
      second.1 ∙ ap (over_disk c.file.disk) first.1,
    ) };
}
