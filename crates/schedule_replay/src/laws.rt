ghost use Rattle.std.specs.Prelude.{◌≡◌, ℕ, List, None};
ghost use Rattle.schedule_replay.specs.Explained.{IsReplay};
ghost use Rattle.schedule_replay.specs.Replays.{replayed};

use stacks::stacks_explain;

/// Of each text of which no line is refused, what replay writes is a replay: the text of a trace and of an image that explains it.
/// No other text is one of these bytes, and none of a text with a refused line.
pub fn replays_are_explained()
    ensures explained { (bytes : List ℕ) → (replayed bytes).refused ≡ None → IsReplay bytes (replayed bytes).out }
    ensures nothing_else { (bytes text : List ℕ) → IsReplay bytes text
        → ((replayed bytes).refused ≡ None) × (text ≡ (replayed bytes).out) }
{
    stacks_explain();
}
