//! The calls of a hub that runs, seen as steps.
ghost use Rattle.std.specs.Prelude.{List};
ghost use Rattle.std.specs.List.{AllZip};
ghost use Rattle.serve_machine.specs.Hub.{HubState};
ghost use Rattle.serve_machine.specs.Run.{Step, AreSteps};
ghost use Rattle.serve_machine.specs.Calls.{Call, AreCalls, IsSeenAs};

/// A hub that runs.
pub trait SeenAsHub {
    /// The hub can be seen as this state of the machine.
    ghost shows: { Self → HubState → Type 0 };
}

/// If each of some calls is a step, they are steps in turn, whichever machine the hub is seen as at first. So what
/// holds of all steps holds of the calls.
pub fn calls_are_steps<H: SeenAsHub>()
    ensures { (hub : H) (start : HubState) (calls : List (Call H)) → H.shows hub start → AreCalls H.shows hub calls
        → (steps : List Step) × AreSteps start steps × AllZip (IsSeenAs H.shows) calls steps }
{}
