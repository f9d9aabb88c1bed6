//! What always holds of what is left.
ghost use Rattle.std.specs.Prelude.{◌≡◌, ◌++◌, ℕ, List};
ghost use Rattle.ogg_page.specs.Page.{AreBytes};
ghost use Rattle.serve_sending.specs.Sending.{IsLeft, SendingState, left};

use serve_machine::{parts_are_places, stream_rests_are_found, stream_rests_are_places};

/// What is left of a response stays the same while the committed bytes grow. There is one such rest: the one that
/// `left` finds.
pub fn rests_of_responses_stay()
    ensures stays { (committed more rest : List ℕ) (sending : SendingState) → IsLeft committed sending rest
        → IsLeft (committed ++ more) sending rest }
    ensures found { (committed rest : List ℕ) (sending : SendingState) → AreBytes committed
        → IsLeft committed sending rest → left committed sending ≡ rest }
{
    parts_are_places();
    stream_rests_are_places();
    stream_rests_are_found();
}
