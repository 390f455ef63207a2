ghost use Rattle.std.specs.Prelude.{◌≡◌, ◌++◌, [], ◌∷◌, None, Some, codes, replicate};
ghost use Rattle.command_line.specs.declared.command.Command.TheVariants as command;
ghost use Rattle.schedule_replay.specs.Examples.{one_input};
ghost use Rattle.commands.specs.Lines.{memory_line, read_failed_line};
ghost use Rattle.commands.specs.Answers.{permitted_line, usage_line};
ghost use Rattle.commands.specs.Complaints.{HasCause, HidesNothing, MaySay, Told, WasSaying};
ghost use Rattle.commands.specs.Examples.{backwards, err_failed, err_wanted, out_failed, out_wanted, quiet_run, quiet_sink, read_failed};
ghost use Rattle.commands.specs.Runs.{IsComplete};
ghost use Rattle.commands.specs.Seen.{KeepsCounts};
ghost use Rattle.commands.specs.Statuses.{AreWordsRefused, HasReadFailed, HasWriteFailed, IsDenied, IsDone, IsLineRefused, IsOutOfMemory};
ghost use Rattle.schedule_text.specs.ExampleTexts.{groundless_claim, idle, idle_claim, unsent};

use crate::Complaint;
use line_reader::Why;
use schedule_replay::replays_are_explained;
use trace_check::permitted_claims_are_explained;
use vst_base::StackId;

/// What a run may say on its error stream. A run in which a call failed may say no other line than of that.
#[tactic(auto, unfolding(schedule_text::specs::Headers::header_of))]
pub fn worked_complaints()
    ensures usage { MaySay None (quiet_run [] [] [] []) usage_line }
    ensures usage_of_no_command { HasCause (Some command.Replay) (quiet_run [] [] [] []) Complaint.Words → ⊥ }
    ensures refused_line { MaySay (Some command.Replay) (quiet_run unsent [] [] []) (codes "line 2: no copy\n") }
    ensures another_line { MaySay (Some command.Replay) (quiet_run unsent [] [] []) (codes "line 1: no copy\n") → ⊥ }
    ensures condition { MaySay (Some (command.Check StackId.Lock)) (quiet_run groundless_claim [] [] []) (codes "condition 5 line 1\n") }
    ensures condition_of_a_replay { HasCause (Some command.Replay) (quiet_run [] [] [] []) (Complaint.Condition 5 1) → ⊥ }
    ensures read { MaySay (Some command.Replay) (read_failed (quiet_run (codes "\n") (codes "\n") [] [])) read_failed_line }
    ensures read_that_did_not_fail { HasCause (Some command.Replay) (quiet_run (codes "\n") (codes "\n") [] []) Complaint.Read → ⊥ }
    ensures read_past_a_refused_line { HasCause (Some command.Replay) (read_failed (quiet_run unsent [] [] [])) Complaint.Read → ⊥ }
    ensures memory { MaySay (Some command.Replay) (quiet_run [] [] [] []) memory_line }
    ensures memory_wanted_by_out { HidesNothing Complaint.Memory (out_wanted (quiet_run [] [] [] [])) }
    ensures memory_after_a_failed_read { HidesNothing Complaint.Memory (read_failed (quiet_run [] [] [] [])) → ⊥ }
    ensures memory_after_a_failed_write { HidesNothing Complaint.Memory (out_failed (quiet_run [] [] [] [])) → ⊥ }
    ensures a_read_after_a_failed_write { HidesNothing Complaint.Read (out_failed (read_failed (quiet_run [] [] [] []))) → ⊥ }
    ensures a_line_after_a_failed_read { HidesNothing (Complaint.Line 2 Why.NoCopy) (read_failed (quiet_run [] [] [] [])) → ⊥ }
    ensures a_line_where_out_wanted_memory { HidesNothing (Complaint.Line 2 Why.NoCopy) (out_wanted (quiet_run [] [] [] [])) → ⊥ }
    ensures saying_a_front { WasSaying (Some command.Replay) (quiet_run [] [] [] (codes "mem")) }
    ensures saying_for_a_failed_read { WasSaying (Some command.Replay) (read_failed (quiet_run (codes "\n") (codes "\n") [] (codes "rea"))) }
    ensures saying_for_a_failed_write { WasSaying (Some command.Replay) (out_failed (quiet_run [] [] [] (codes "mem"))) → ⊥ }
{}

/// What telling a complaint comes to: want of memory only where its line is made of numbers.
#[tactic(auto, unfolding(schedule_text::specs::Headers::header_of))]
pub fn worked_tellings()
    ensures said { Told Complaint.Read (quiet_sink []) (quiet_sink read_failed_line) 4 }
    ensures another_status { Told Complaint.Read (quiet_sink []) (quiet_sink read_failed_line) 8 → ⊥ }
    ensures a_read_told_as_memory { Told Complaint.Read (quiet_sink []) (quiet_sink memory_line) 8 → ⊥ }
    ensures usage_told_as_memory { Told Complaint.Words (quiet_sink []) (quiet_sink memory_line) 8 → ⊥ }
    ensures a_line_that_cannot_be_made { Told (Complaint.Line 2 Why.NoCopy) (quiet_sink []) (quiet_sink memory_line) 8 }
    ensures a_condition_that_cannot_be_made { Told (Complaint.Condition 5 1) (quiet_sink []) (quiet_sink memory_line) 8 }
    ensures memory_told_as_usage { Told Complaint.Memory (quiet_sink []) (quiet_sink usage_line) 2 → ⊥ }
{}

/// Which status comes where no call failed, and that no count falls.
#[tactic(auto, unfolding(schedule_text::specs::Headers::header_of))]
pub fn worked_counts()
    ensures complete { IsComplete (Some command.Replay) (quiet_run idle [] [] []) 0 }
    ensures wanting { IsComplete (Some command.Replay) (quiet_run idle [] [] []) 8 }
    ensures another_status { IsComplete (Some command.Replay) (quiet_run idle [] [] []) 5 → ⊥ }
    ensures refused_as_done { IsComplete (Some command.Replay) (quiet_run (codes "deliver 7\n") [] [] []) 0 → ⊥ }
    ensures any_status_at_a_fault { IsComplete (Some command.Replay) (out_failed (quiet_run idle [] [] [])) 5 }
    ensures counted { KeepsCounts (out_failed (quiet_run [] [] [] [])) }
    ensures a_read_uncounted { KeepsCounts (backwards (read_failed (quiet_run [] [] [] []))) → ⊥ }
    ensures a_write_uncounted { KeepsCounts (backwards (out_failed (quiet_run [] [] [] []))) → ⊥ }
    ensures a_line_uncounted { KeepsCounts (backwards (err_failed (quiet_run [] [] [] []))) → ⊥ }
{}

/// What each status says: a run that it fits, and one that it does not fit.
#[tactic(auto, unfolding(schedule_text::specs::Headers::header_of))]
pub fn worked_statuses()
    ensures replayed { IsDone (Some command.Replay) (quiet_run idle [] idle_claim []) }
    ensures replayed_without_an_image { IsDone (Some command.Replay) (quiet_run idle [] (codes "below\n") []) → ⊥ }
    ensures permitted { IsDone (Some (command.Check StackId.Lock)) (quiet_run idle_claim [] permitted_line []) }
    ensures permitted_in_silence { IsDone (Some (command.Check StackId.Lock)) (quiet_run idle_claim [] [] []) → ⊥ }
    ensures not_read_to_its_end { IsDone (Some (command.Check StackId.Lock)) (quiet_run idle_claim (codes "\n") permitted_line []) → ⊥ }
    ensures denied { IsDenied (Some (command.Check StackId.Lock)) (quiet_run groundless_claim [] [] (codes "condition 5 line 1\n")) }
    ensures denied_and_permitted { IsDenied (Some (command.Check StackId.Lock)) (quiet_run groundless_claim [] permitted_line (codes "condition 5 line 1\n")) → ⊥ }
    ensures denied_replay { IsDenied (Some command.Replay) (quiet_run idle [] [] (codes "condition 5 line 1\n")) → ⊥ }
    ensures words { AreWordsRefused (codes "vst" ∷ codes "frob" ∷ []) (quiet_run idle idle [] usage_line) }
    ensures words_and_an_input_read { AreWordsRefused (codes "vst" ∷ codes "frob" ∷ []) (quiet_run idle [] [] usage_line) → ⊥ }
    ensures refused { IsLineRefused (Some command.Replay) (quiet_run unsent [] [] (codes "line 2: no copy\n")) }
    ensures refused_words_of_no_line { IsLineRefused None (quiet_run [] [] [] usage_line) → ⊥ }
    ensures refused_and_a_fault_hidden { IsLineRefused (Some command.Replay) (err_failed (quiet_run unsent [] [] (codes "line 2: no copy\n"))) → ⊥ }
    ensures read { HasReadFailed (Some command.Replay) (read_failed (quiet_run (codes "schedule 1 bag lock 2\nin 1 lock\n") (codes " lock\n") [] read_failed_line)) }
    ensures read_that_did_not_fail { HasReadFailed (Some command.Replay) (quiet_run (codes "schedule 1 bag lock 2\nin 1 lock\n") (codes " lock\n") [] read_failed_line) → ⊥ }
    ensures write { HasWriteFailed (Some (command.Check StackId.Lock)) (out_failed (quiet_run idle_claim [] (codes "per") [])) }
    ensures write_of_a_line { HasWriteFailed (Some command.Replay) (err_failed (quiet_run unsent [] [] (codes "line"))) }
    ensures write_that_did_not_fail { HasWriteFailed (Some command.Replay) (quiet_run unsent [] [] []) → ⊥ }
    ensures write_after_a_failed_read { HasWriteFailed (Some (command.Check StackId.Lock)) (read_failed (out_failed (quiet_run idle_claim [] (codes "per") []))) → ⊥ }
    ensures write_of_both { HasWriteFailed (Some (command.Check StackId.Lock)) (err_failed (out_failed (quiet_run idle_claim [] (codes "per") []))) → ⊥ }
    ensures write_that_wanted_memory { HasWriteFailed (Some command.Replay) (err_wanted (quiet_run idle [] [] (codes "mem"))) → ⊥ }
    ensures write_held_back { HasWriteFailed (Some command.Replay) (out_failed (quiet_run (one_input ++ replicate 8192 35) [] [] [])) → ⊥ }
    ensures memory { IsOutOfMemory (Some command.Replay) (quiet_run idle [] (codes "bel") memory_line) }
    ensures memory_of_the_error_stream { IsOutOfMemory (Some command.Replay) (err_wanted (quiet_run idle [] [] (codes "mem"))) }
    ensures memory_with_all_held_back { IsOutOfMemory (Some command.Replay) (quiet_run (one_input ++ replicate 8192 35) [] [] memory_line) → ⊥ }
    ensures memory_in_silence { IsOutOfMemory (Some command.Replay) (quiet_run idle [] [] []) → ⊥ }
    ensures memory_for_a_failed_write { IsOutOfMemory (Some command.Replay) (out_failed (quiet_run idle [] (codes "bel") memory_line)) → ⊥ }
    ensures memory_for_a_failed_line { IsOutOfMemory (Some command.Replay) (err_failed (quiet_run idle [] [] memory_line)) → ⊥ }
    ensures memory_for_a_failed_read { IsOutOfMemory (Some command.Replay) (read_failed (quiet_run idle [] [] memory_line)) → ⊥ }
    ensures memory_while_it_said_read { IsOutOfMemory (Some command.Replay) (err_wanted (read_failed (quiet_run idle [] [] (codes "re")))) }
{
    replays_are_explained();
    permitted_claims_are_explained();
}
