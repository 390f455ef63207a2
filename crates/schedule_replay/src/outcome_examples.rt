ghost use Rattle.std.specs.Prelude.{[], ◌++◌, Err, Ok, codes, false, replicate, true};
ghost use Rattle.schedule_replay.specs.Examples.{comes_to, keeps_up, one_input, stopped, taken, two_steps};
ghost use Rattle.schedule_replay.specs.Outcomes.{HasCause, KeepsSink};
ghost use Rattle.schedule_replay.specs.Replaying.{no_counts};

use crate::ReplayFault;
use schedule_text::Why;

/// What a replay of two steps comes to: it takes both, one of them is refused, or a read fails. Nothing is left of a whole text, what is
/// written is just the trace, and the line and the counts are no others.
#[tactic(auto, unfolding(schedule_text::specs::Headers::header_of))]
pub fn worked_outcomes()
    ensures done { comes_to taken [] (codes "held\nin 1 lock\n") (Ok two_steps) }
    ensures not_to_the_end { comes_to taken (codes "1\n") (codes "held\nin 1 lock\n") (Ok two_steps) → ⊥ }
    ensures not_written { comes_to taken [] (codes "held\n") (Ok two_steps) → ⊥ }
    ensures held_no_more { comes_to taken [] (codes "in 1 lock\n") (Ok two_steps) → ⊥ }
    ensures with_other_counts { comes_to taken [] (codes "held\nin 1 lock\n") (Ok no_counts) → ⊥ }
    ensures done_though_refused { comes_to stopped [] (codes "held\nin 1 lock\n") (Ok no_counts) → ⊥ }
    ensures refused { comes_to stopped [] (codes "held\nin 1 lock\n") (Err (ReplayFault.Refused 3 Why.NoCopy)) }
    ensures refused_at_another { comes_to stopped [] (codes "held\nin 1 lock\n") (Err (ReplayFault.Refused 2 Why.NoCopy)) → ⊥ }
    ensures refused_for_another { comes_to stopped [] (codes "held\nin 1 lock\n") (Err (ReplayFault.Refused 3 Why.NodeDown)) → ⊥ }
    ensures refused_though_taken { comes_to taken [] (codes "held\nin 1 lock\n") (Err (ReplayFault.Refused 3 Why.NoCopy)) → ⊥ }
    ensures refused_unwritten { comes_to stopped [] (codes "held\n") (Err (ReplayFault.Refused 3 Why.NoCopy)) → ⊥ }
    ensures broke_off { comes_to taken (codes "1\n") (codes "held\nin 1 lock\n") (Err ReplayFault.Read) }
    ensures broke_off_unwritten { comes_to taken (codes "1\n") (codes "held\n") (Err ReplayFault.Read) → ⊥ }
    ensures broke_off_though_refused { comes_to stopped (codes "1\n") (codes "held\nin 1 lock\n") (Err ReplayFault.Read) → ⊥ }
{}

/// A failed read has its fault, and comes before the end; and no fault of the sink, nor a want, is hidden.
pub fn worked_causes()
    ensures read { HasCause false 2 3 5 5 ReplayFault.Read }
    ensures read_uncounted { HasCause false 2 2 5 5 ReplayFault.Read → ⊥ }
    ensures read_past_the_end { HasCause true 2 3 5 5 ReplayFault.Read → ⊥ }
    ensures write { HasCause true 2 2 5 6 ReplayFault.Write }
    ensures write_uncounted { HasCause true 2 2 5 5 ReplayFault.Write → ⊥ }
    ensures done_quietly { KeepsSink 5 5 7 7 (Ok two_steps) }
    ensures done_with_a_fault { KeepsSink 5 6 7 7 (Ok two_steps) → ⊥ }
    ensures done_with_a_want { KeepsSink 5 5 7 8 (Ok two_steps) → ⊥ }
    ensures read_with_a_fault { KeepsSink 5 6 7 7 (Err ReplayFault.Read) → ⊥ }
    ensures refused_with_a_fault { KeepsSink 5 6 7 7 (Err (ReplayFault.Refused 3 Why.NoCopy)) → ⊥ }
    ensures refused_with_a_want { KeepsSink 5 5 7 8 (Err (ReplayFault.Refused 3 Why.NoCopy)) → ⊥ }
{}

/// How far a replay keeps up with what it was given: of the last 4,096 bytes nothing need be written, and of all before them the trace.
#[tactic(auto, unfolding(schedule_text::specs::Headers::header_of))]
pub fn worked_keeping()
    ensures a_buffer { keeps_up one_input [] [] }
    ensures ahead_of_a_buffer { keeps_up one_input [] (codes "in 1 lock\n") }
    ensures more_than_a_buffer { keeps_up (one_input ++ replicate 4096 35) [] (codes "in 1 lock\n") }
    ensures nothing_of_it { keeps_up (one_input ++ replicate 4096 35) [] [] → ⊥ }
    ensures a_front_of_it { keeps_up (one_input ++ replicate 4096 35) [] (codes "in 1") → ⊥ }
    ensures nothing_of_it_while_some_is_left { keeps_up (one_input ++ replicate 4096 35 ++ codes "\n") (codes "\n") [] → ⊥ }
    ensures another_left { keeps_up one_input (codes "#") [] → ⊥ }
{}
