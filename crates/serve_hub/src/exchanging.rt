//! The file of a hub is exchanged for another place of the same bytes, which is only read.
ghost use Rattle.std.specs.Prelude.{◌≡◌, None, Some, true, IfOk, IfErr};
ghost use Rattle.gate_file.specs.Commit.{CommitsTo};
ghost use Rattle.gate_file.specs.Gate.{EachImage};
ghost use Rattle.file_recorder.specs.Recorder.{committed};
ghost use Rattle.serve_machine.specs.Hub.{HubState};
ghost use Rattle.serve_hub.specs.Exchanging.{only_read};
ghost use Rattle.serve_hub.specs.Parts.{hub_parts, is_settled, lost_file};
ghost use Rattle.serve_hub.specs.Showing.{Shows};

use crate::hub::Hub;
use disk_model::Disk;
use file_recorder::Recorder;

impl<D: Disk + Drop> Hub<D> {
    ghost use Rattle.serve_hub.specs.Showing.{Shows};

    /// From now on the file is read by this recorder, and the sessions go on. The one before is returned, or its disk if
    /// there is no file.
    pub fn read_by(&mut self, recorder: Recorder<D>) -> Result<Recorder<D>, D>
        ensures before { IfOk result (λ before. self.old.file ≡ Some before) }
        ensures lost { IfErr result (λ disk. self.old.file ≡ None) }
        ensures rest { self.new ≡ hub_parts (Some recorder) self.new.lost self.old.index self.old.sessions self.old.next self.old.most self.old.room }
        // If all that was accepted is kept, and the recorder reads just that, the machine goes on without a recorder.
        ensures shown { (machine : HubState) → Shows D.Disk self.old machine → is_settled self.old.file ≡ true
            → recorder.file.failed ≡ true → D.is_honest recorder.file.disk
            → committed D.state recorder ≡ machine.committed
            → EachImage (D.state recorder.file.disk) (CommitsTo machine.committed)
            → Shows D.Disk self.new (only_read recorder machine) }
    {
        match self.file.replace(recorder) {
            Some(before) => Ok(before),
            None => Err(self.lost.take().unwrap().disk),
        }
    }
}
