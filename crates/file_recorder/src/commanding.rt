//! Commands are recorded, in groups that share a commit.
ghost use Rattle.std.specs.Prelude.{◌≡◌, ◌≢◌, ◌↔◌, ◌⊎◌, ◌+◌, ◌-◌, ◌^◌, ◌<◌, ◌≤◌, ◌++◌, true, false, List, [], ℕ, length, OnOk, OnErr, IfOk, IfErr, IsOk, Ok, Err};
ghost use Rattle.disk_model.specs.Leaving.{LeavesOnly};
ghost use Rattle.disk_model.specs.Frame.{Frame};
ghost use Rattle.gate_file.specs.Commit.{CommitsTo, CommitsToEither};
ghost use Rattle.link_chain.specs.ChainState.{chain_state_of};
ghost use Rattle.link_chain.specs.Recording.{Recording};
ghost use Rattle.chain_rules.specs.Decision.{decision};
ghost use Rattle.chain_rules.specs.Encoding.{command_bytes, links_after};
ghost use Rattle.ogg_command.specs.declared.command.Command.{Command as CommandOf};
ghost use Rattle.ogg_command.specs.declared.refusal.Refusal.{Refusal as RefusalOf};
ghost use Rattle.feed_replies.specs.declared.reply.Kept.{Kept as KeptOf};
ghost use Rattle.history.specs.World.{World, happens};
ghost use Rattle.file_recorder.specs.Recovery.{Links};
ghost use Rattle.file_recorder.specs.Recorder.{IsIn, committed, staged, IsRecorderStep};
ghost use Rattle.file_recorder.specs.Small.{begins_link};
ghost use Rattle.file_recorder.specs.Answer.{Tells, kept_by, call_of, command_step, flush_step};

use crate::Recorder;
use crate::staging::{Unstaged, stage_command};
use chain_rules::{
    Command, Refusal, command_adds_its_packets, command_adds_pages, refusals_are_of_the_table,
};
use disk_model::{Disk, DiskFault};
use feed_replies::{Kept, Outcome};
use ogg_command::command_is_in_range;

impl<D: Disk> Recorder<D> {
    ghost use Rattle.file_recorder.specs.Recorder.{RecorderState, committed, staged};

    /// From now on `most` commands share a commit, 1 to 1,024. Nothing waits.
    pub fn group(&mut self, most: u32)
        requires some { 1 ≤ most }
        requires few { most ≤ 1024 }
        requires none { self.old.held ≡ 0 }
        ensures set { self.new ≡ record self.old { most = most } }
        ensures stands { (first : Recording) (w : World CommandOf) → IsIn D.Disk first w self.old
            → IsIn D.Disk first w self.new }
    {
        self.most = most;
    }

    /// From now on every command waits until it is flushed, or sealed with the file. What waits still does.
    pub fn hold_all(&mut self)
        ensures set { self.new ≡ record self.old { most = 2 ^ 32 - 1 } }
        ensures stands { (first : Recording) (w : World CommandOf) → IsIn D.Disk first w self.old
            → IsIn D.Disk first w self.new }
    {
        self.most = u32::MAX;
    }

    /// Records a command. First the rules may refuse it, then want of memory, then the disk. Memory is taken for the
    /// streams of a new link alone. Each of a command's pages is staged by one call of the disk, and the command that
    /// makes a group whole commits it by three more. A refusal
    /// up to `Memory` makes no call of the disk and changes nothing: what waits still waits. After `Disk` the
    /// recorder has failed, what waited is lost, and opening finds what was kept, without this group or with all of
    /// it.
    #[inline(always)]
    pub fn command(&mut self, command: &Command) -> Result<Outcome, Refusal>
        ensures by_failed { self.old.file.failed ≡ true → result ≡ Err Refusal.Failed }
        ensures by_rules { self.old.file.failed ≡ false → (refusal : RefusalOf)
            → decision self.old.chain command.now ≡ Err refusal → result ≡ Err refusal }
        ensures otherwise { self.old.file.failed ≡ false → IsOk (decision self.old.chain command.now)
            → IfErr result (λ refusal. (refusal ≡ Refusal.Memory) ⊎ (refusal ≡ Refusal.Disk)) }
        // Only a new link takes memory, for its streams.
        ensures memory { begins_link command.now ≡ false → result ≢ Err Refusal.Memory }
        ensures accepted { OnOk result ((self.old.file.failed ≡ false) × IsOk (decision self.old.chain command.now)) }
        ensures same { IfErr result (λ refusal. refusal ≢ Refusal.Disk → self.new ≡ self.old) }
        ensures faulted { IfErr result (λ refusal. refusal ≡ Refusal.Disk → (self.new.file.failed ≡ true)
            × (self.new.file.end ≡ self.old.file.end)
            × (self.new ≡ record self.old { file = self.new.file; held = 0 })) }
        ensures tells { IfOk result (λ outcome. Tells self.old outcome self.new) }
        ensures good { OnOk result (self.new.file.failed ≡ false) }
        ensures links { OnOk result ((links : Links) → self.old.chain ≡ chain_state_of links
            → self.new.chain ≡ chain_state_of (links_after links command.now)) }

        // What is committed and what waits, together, grow by the command's pages.
        ensures grows { OnOk result (D.is_honest self.old.file.disk → committed D.state self.new ++ staged D.state self.new
            ≡ (committed D.state self.old ++ staged D.state self.old) ++ command_bytes self.old.chain command.now) }
        ensures front { D.is_honest self.old.file.disk → IfErr result (λ _. committed D.state self.new ≡ committed D.state self.old) }

        // What waits isn't committed, and what is kept doesn't wait.
        ensures stays { D.is_honest self.old.file.disk → IfOk result (λ outcome. (count : ℕ) → outcome ≡ Outcome.Held count
            → committed D.state self.new ≡ committed D.state self.old) }
        ensures none_waits { IfOk result (λ outcome. (kept : KeptOf) → outcome ≡ Outcome.Kept kept → staged D.state self.new ≡ []) }

        // Every image since the call began commits to what was committed, without the group or with all of it.
        ensures any_moment { D.is_honest self.old.file.disk → self.old.file.failed ≡ false
            → LeavesOnly D.Disk self.old.file.disk self.new.file.disk
            (CommitsToEither (committed D.state self.old) (staged D.state self.old ++ command_bytes self.old.chain command.now)) }

        ensures waits { D.is_honest self.old.file.disk → IfOk result (λ outcome. (count : ℕ) → outcome ≡ Outcome.Held count
            → LeavesOnly D.Disk self.old.file.disk self.new.file.disk (CommitsTo (committed D.state self.old))) }

        // It is a step of each history in which the recorder stands.
        ensures step { (first : Recording) (w : World CommandOf) → IsIn D.Disk first w self.old
            → D.is_honest self.old.file.disk
            → IsRecorderStep D.Disk first w
            (command_step result (call_of self.old.most w command.now) command.now) self.old.file.disk self.new.file.disk
            × IsIn D.Disk first
            (happens w (command_step result (call_of self.old.most w command.now) command.now)) self.new }

        ensures frame { Frame D.Disk self.old.file.disk self.new.file.disk (result ≡ Err Refusal.Disk) }
    {
        // For the proof alone.
        command_is_in_range(command);
        command_adds_its_packets();
        command_adds_pages();
        refusals_are_of_the_table();
        if self.file.is_failed() {
            return Err(Refusal::Failed);
        }
        let size = match self.shape.plan(command, &mut self.plan) {
            Ok(size) => size,
            Err(refusal) => return Err(refusal),
        };
        match stage_command(
            &mut self.file,
            &mut self.shape,
            command,
            size,
            &mut self.buffer,
            &mut self.small,
        ) {
            Ok(()) => {}
            Err(Unstaged::Memory) => return Err(Refusal::Memory),
            Err(Unstaged::Disk) => {
                self.held = 0;
                return Err(Refusal::Disk);
            }
        }
        if self.held + 1 < u64::from(self.most) {
            self.shape.accept_plan(command, &self.plan);
            self.held += 1;
            return Ok(Outcome::Held(self.kept + self.held));
        }
        match self.file.commit() {
            Ok(()) => {}
            Err(DiskFault) => {
                self.held = 0;
                return Err(Refusal::Disk);
            }
        }
        self.shape.accept_plan(command, &self.plan);
        self.kept += self.held + 1;
        self.held = 0;
        Ok(Outcome::Kept(Kept {
            count: self.kept,
            end: self.file.end(),
        }))
    }

    /// Commits what waits, by three calls of the disk; if nothing waits it makes none. After `Disk` the recorder has
    /// failed, what waited is lost, and opening finds what was kept, without this group or with all of it.
    pub fn flush(&mut self) -> Result<Kept, Refusal>
        ensures by_failed { self.old.file.failed ≡ true → (result ≡ Err Refusal.Failed) × (self.new ≡ self.old) }
        ensures refusals { IfErr result (λ refusal. ((refusal ≡ Refusal.Failed) × (self.old.file.failed ≡ true)) ⊎ (refusal ≡ Refusal.Disk)) }
        ensures nothing { self.old.file.failed ≡ false → self.old.held ≡ 0
            → (result ≡ Ok (kept_by self.old)) × (self.new ≡ self.old) }
        ensures faulted { IfErr result (λ refusal. refusal ≡ Refusal.Disk → (self.new.file.failed ≡ true)
            × (self.new.file.end ≡ self.old.file.end)
            × (self.new ≡ record self.old { file = self.new.file; held = 0 })) }
        ensures tells { IfOk result (λ kept. (kept ≡ kept_by self.new)
            × (self.new ≡ record self.old { file = self.new.file; kept = self.old.kept + self.old.held; held = 0 })) }
        ensures good { OnOk result ((self.old.file.failed ≡ false) × (self.new.file.failed ≡ false)) }

        // What waited is committed.
        ensures grows { OnOk result (D.is_honest self.old.file.disk
            → committed D.state self.new ≡ committed D.state self.old ++ staged D.state self.old) }
        ensures none_waits { OnOk result (staged D.state self.new ≡ []) }
        ensures front { D.is_honest self.old.file.disk → IfErr result (λ _. committed D.state self.new ≡ committed D.state self.old) }

        // Every image since the call began commits to what was committed, without the group or with all of it.
        ensures any_moment { D.is_honest self.old.file.disk → self.old.file.failed ≡ false
            → LeavesOnly D.Disk self.old.file.disk self.new.file.disk
            (CommitsToEither (committed D.state self.old) (staged D.state self.old)) }

        // It is a step of each history in which the recorder stands.
        ensures step { (first : Recording) (w : World CommandOf) → IsIn D.Disk first w self.old
            → w.is_open ≡ true → D.is_honest self.old.file.disk
            → IsRecorderStep D.Disk first w
            (flush_step result) self.old.file.disk self.new.file.disk
            × IsIn D.Disk first (happens w (flush_step result)) self.new }

        ensures frame { Frame D.Disk self.old.file.disk self.new.file.disk (result ≡ Err Refusal.Disk) }
    {
        if self.file.is_failed() {
            return Err(Refusal::Failed);
        }
        if self.held == 0 {
            return Ok(Kept {
                count: self.kept,
                end: self.file.end(),
            });
        }
        match self.file.commit() {
            Ok(()) => {}
            Err(DiskFault) => {
                self.held = 0;
                return Err(Refusal::Disk);
            }
        }
        self.kept += self.held;
        self.held = 0;
        Ok(Kept {
            count: self.kept,
            end: self.file.end(),
        })
    }
}
