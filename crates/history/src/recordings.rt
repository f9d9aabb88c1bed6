//! What images show, and what commands change.
ghost use Rattle.std.specs.Prelude.{List, ℕ};
ghost use Rattle.history.specs.Showing.{ShowsOne};

/// What images show, which commands are accepted, and what they change.
pub trait Recordings {
    ghost Command: { Type 0 };

    /// A state, which says which commands are accepted.
    ghost State: { Type 0 };

    /// What users see of a state.
    ghost Recording: { Type 0 };

    /// An opening that reads the image finds the state.
    ghost shows: { List ℕ → State → Type 0 };

    ghost accepts: { State → Command → Type 0 };

    /// The state after a command that was accepted.
    ghost next: { State → Command → State };

    ghost holds: { State → Recording → Type 0 };

    ghost add: { Recording → Command → Recording };

    /// An image shows one state at most.
    ghost one: { ShowsOne shows };

    /// A command that is accepted adds what it says, and nothing else.
    ghost adds: { (state : State) (recording : Recording) (command : Command)
        → accepts state command → holds state recording
        → holds (next state command) (add recording command) };
}
