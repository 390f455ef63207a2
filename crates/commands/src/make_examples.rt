ghost use Rattle.std.specs.Prelude.{◌≡◌, [], None, Some, codes};
ghost use Rattle.command_line.specs.declared.command.Command.TheVariants as command;
ghost use Rattle.commands.specs.Lines.{memory_line, read_failed_line};
ghost use Rattle.commands.specs.Answers.{answer_by, counts_text, so_far_by};
ghost use Rattle.commands.specs.Complaints.{HasCause, MaySay};
ghost use Rattle.commands.specs.Examples.{one_tick, one_tick_text, out_failed, quiet_run, read_failed};
ghost use Rattle.commands.specs.Statuses.{HasReadFailed, HasWriteFailed, IsDenied, IsDone, IsLineRefused, IsOutOfMemory};

use crate::Complaint;
use made_schedules::made_schedules_are_replayed;

/// What the two commands that read nothing write.
#[tactic(auto, unfolding(schedule_text::specs::Headers::header_of))]
pub fn worked_making()
    ensures made { answer_by (Some (command.Make one_tick)) (codes "left alone") ≡ record { status = 0; out = one_tick_text; err = [] } }
    ensures summarized { answer_by (Some (command.Summarize one_tick)) []
        ≡ record { status = 0; out = codes "events 1\ninputs 0\noutputs 0\nreplies 0\nimage 1\n"; err = [] } }
    ensures counts { counts_text (record { events = 10; inputs = 2; outputs = 3; replies = 4; image = 5 })
        ≡ codes "events 10\ninputs 2\noutputs 3\nreplies 4\nimage 5\n" }
    ensures nothing_breaks_off { so_far_by (Some (command.Make one_tick)) (codes "left") ≡ record { out = []; refused = None } }
{}

/// What each status says of them: a run that it fits, and one that it does not fit.
#[tactic(auto, unfolding(schedule_text::specs::Headers::header_of))]
pub fn worked_make_statuses()
    ensures made { IsDone (Some (command.Make one_tick)) (quiet_run (codes "left alone") (codes "left alone") one_tick_text []) }
    ensures a_step_missing { IsDone (Some (command.Make one_tick)) (quiet_run [] [] (codes "schedule 1 bag lock 4\n") []) → ⊥ }
    ensures summarized_as_a_text { IsDone (Some (command.Summarize one_tick)) (quiet_run [] [] one_tick_text []) → ⊥ }
    ensures write { HasWriteFailed (Some (command.Make one_tick)) (out_failed (quiet_run [] [] (codes "sch") [])) }
    ensures write_of_another_text { HasWriteFailed (Some (command.Make one_tick)) (out_failed (quiet_run [] [] (codes "tick") [])) → ⊥ }
    ensures memory { IsOutOfMemory (Some (command.Make one_tick)) (quiet_run [] [] (codes "sch") memory_line) }
    ensures memory_in_silence { IsOutOfMemory (Some (command.Make one_tick)) (quiet_run [] [] (codes "sch") []) → ⊥ }
    ensures no_read { HasReadFailed (Some (command.Make one_tick)) (read_failed (quiet_run [] [] [] read_failed_line)) → ⊥ }
    ensures no_line { IsLineRefused (Some (command.Make one_tick)) (quiet_run [] [] [] (codes "line 1: header\n")) → ⊥ }
    ensures says_memory { MaySay (Some (command.Make one_tick)) (quiet_run [] [] [] []) memory_line }
    ensures says_no_usage { HasCause (Some (command.Make one_tick)) (quiet_run [] [] [] []) Complaint.Words → ⊥ }
    ensures says_no_read { HasCause (Some (command.Summarize one_tick)) (read_failed (quiet_run [] [] [] [])) Complaint.Read → ⊥ }
    ensures memory_for_a_failed_write { IsOutOfMemory (Some (command.Make one_tick)) (out_failed (quiet_run [] [] (codes "sch") memory_line)) → ⊥ }
    ensures no_condition { IsDenied (Some (command.Summarize one_tick)) (quiet_run [] [] [] (codes "condition 5 line 1\n")) → ⊥ }
{
    made_schedules_are_replayed();
}
