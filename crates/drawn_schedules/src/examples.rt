ghost use Rattle.std.specs.Prelude.{[], Err, Ok, codes};
ghost use Rattle.commands.specs.Lines.{memory_line, read_failed_line};
ghost use Rattle.commands.specs.Seen.{Run};
ghost use Rattle.schedule_replay.specs.Replays.{replayed};
ghost use Rattle.commands.specs.Examples.{err_failed, err_wanted, out_failed, quiet_run, read_failed};
ghost use Rattle.drawn_schedules.specs.Drawing.{DrawsTo, IsItsRefusal, Writes};
ghost use Rattle.drawn_schedules.specs.Endings.{EndsAs};
ghost use Rattle.drawn_schedules.specs.Examples.{refused_text, sink, taken_text, untold};
ghost use Rattle.schedule_text.specs.ExampleTexts.{idle, unsent};

use line_reader::Why;
use schedule_replay::ReplayFault;

/// What drawing a text comes to: it is drawn, or the first line that a replay refuses is named, with the cause.
#[tactic(auto, unfolding(schedule_text::specs::Headers::header_of))]
pub fn worked_drawing()
    ensures drawn { DrawsTo taken_text (Ok tt) }
    ensures drawn_without_a_step { DrawsTo idle (Ok tt) }
    ensures a_refused_step_drawn { ¬ DrawsTo refused_text (Ok tt) }
    ensures a_refused_input_drawn { ¬ DrawsTo (codes "schedule 1 bag lock 2\nin 1 grab\n") (Ok tt) }
    ensures nothing_drawn { ¬ DrawsTo [] (Ok tt) }
    ensures refused { DrawsTo refused_text (Err (ReplayFault.Refused 3 Why.NoCopy)) }
    ensures no_header { DrawsTo [] (Err (ReplayFault.Refused 1 Why.Header)) }
    ensures another_line { ¬ DrawsTo refused_text (Err (ReplayFault.Refused 2 Why.NoCopy)) }
    ensures another_cause { ¬ DrawsTo refused_text (Err (ReplayFault.Refused 3 Why.NoSuchNode)) }
    ensures a_later_line { ¬ DrawsTo (codes "schedule 1 bag lock 2\ndeliver 7\ndeliver 8\n") (Err (ReplayFault.Refused 3 Why.NoCopy)) }
    ensures a_taken_line { ¬ DrawsTo taken_text (Err (ReplayFault.Refused 3 Why.NoCopy)) }
    ensures memory { DrawsTo taken_text (Err ReplayFault.Memory) }

    ensures its_refusal { IsItsRefusal (replayed refused_text) (ReplayFault.Refused 3 Why.NoCopy) }
    ensures another_text { ¬ IsItsRefusal (replayed unsent) (ReplayFault.Refused 3 Why.NoCopy) }
    ensures no_refusal { ¬ IsItsRefusal (replayed taken_text) (ReplayFault.Refused 1 Why.Header) }
    ensures a_read_of_a_refused_text { IsItsRefusal (replayed refused_text) ReplayFault.Read }
    ensures a_write_of_a_refused_text { IsItsRefusal (replayed refused_text) ReplayFault.Write }
{}

/// What drawing does to an output that held `a`, on which one write had failed and two had wanted memory.
#[tactic(auto, unfolding(schedule_text::specs::Headers::header_of))]
pub fn worked_writes()
    ensures drawn { Writes (sink (codes "a") 1 2) (sink (codes "a<svg>") 1 2) (Ok tt) }
    ensures drawn_and_a_fault_hidden { ¬ Writes (sink (codes "a") 1 2) (sink (codes "a<svg>") 2 2) (Ok tt) }
    ensures drawn_and_a_want_hidden { ¬ Writes (sink (codes "a") 1 2) (sink (codes "a<svg>") 1 3) (Ok tt) }
    ensures unread { Writes (sink (codes "a") 1 2) (sink (codes "a") 1 2) (Err ReplayFault.Read) }
    ensures unread_and_a_front_written { ¬ Writes (sink (codes "a") 1 2) (sink (codes "a<") 1 2) (Err ReplayFault.Read) }
    ensures unread_and_a_fault_hidden { ¬ Writes (sink (codes "a") 1 2) (sink (codes "a") 2 2) (Err ReplayFault.Read) }
    ensures refused { Writes (sink (codes "a") 1 2) (sink (codes "a") 1 2) (Err (ReplayFault.Refused 3 Why.NoCopy)) }
    ensures refused_and_a_front_written { ¬ Writes (sink (codes "a") 1 2) (sink (codes "a<") 1 2) (Err (ReplayFault.Refused 3 Why.NoCopy)) }
    ensures refused_and_a_want_hidden { ¬ Writes (sink (codes "a") 1 2) (sink (codes "a") 1 3) (Err (ReplayFault.Refused 3 Why.NoCopy)) }
    ensures failed { Writes (sink (codes "a") 1 2) (sink (codes "a<") 2 2) (Err ReplayFault.Write) }
    ensures failed_uncounted { ¬ Writes (sink (codes "a") 1 2) (sink (codes "a<") 1 2) (Err ReplayFault.Write) }
    ensures failed_and_a_want_hidden { ¬ Writes (sink (codes "a") 1 2) (sink (codes "a<") 2 3) (Err ReplayFault.Write) }
    ensures wanted { Writes (sink (codes "a") 1 2) (sink (codes "a<") 1 3) (Err ReplayFault.Memory) }
    ensures wanted_before_a_write { Writes (sink (codes "a") 1 2) (sink (codes "a") 1 2) (Err ReplayFault.Memory) }
    ensures wanted_and_a_fault_hidden { ¬ Writes (sink (codes "a") 1 2) (sink (codes "a<") 2 3) (Err ReplayFault.Memory) }
{}

/// What each status says of a run: runs that it fits, and such as it does not fit.
#[tactic(auto, unfolding(schedule_text::specs::Headers::header_of))]
pub fn worked_endings()
    ensures drawn { EndsAs (quiet_run taken_text [] (codes "<svg>") []) 0 }
    ensures an_untold_text_drawn { EndsAs (untold (quiet_run refused_text [] (codes "<svg>") [])) 0 }
    ensures a_refused_text_drawn { ¬ EndsAs (quiet_run refused_text [] (codes "<svg>") []) 0 }
    ensures drawn_and_complained { ¬ EndsAs (quiet_run taken_text [] (codes "<svg>") memory_line) 0 }
    ensures drawn_and_a_read_hidden { ¬ EndsAs (read_failed (quiet_run taken_text [] (codes "<svg>") [])) 0 }
    ensures drawn_and_a_write_hidden { ¬ EndsAs (out_failed (quiet_run taken_text [] (codes "<") [])) 0 }

    ensures refused { EndsAs (quiet_run refused_text [] [] (codes "line 3: no copy\n")) 3 }
    ensures refused_as_done { ¬ EndsAs (quiet_run refused_text [] [] (codes "line 3: no copy\n")) 0 }
    ensures refused_as_unread { ¬ EndsAs (quiet_run refused_text [] [] (codes "line 3: no copy\n")) 4 }
    ensures another_line { ¬ EndsAs (quiet_run refused_text [] [] (codes "line 2: no copy\n")) 3 }
    ensures another_cause { ¬ EndsAs (quiet_run refused_text [] [] (codes "line 3: text\n")) 3 }
    ensures refused_in_silence { ¬ EndsAs (quiet_run refused_text [] [] []) 3 }
    ensures refused_and_a_front_drawn { ¬ EndsAs (quiet_run refused_text [] (codes "<") (codes "line 3: no copy\n")) 3 }
    ensures refused_and_a_fault_hidden { ¬ EndsAs (err_failed (quiet_run refused_text [] [] (codes "line 3: no copy\n"))) 3 }
    ensures a_taken_text_refused { ¬ EndsAs (quiet_run taken_text [] [] (codes "line 3: no copy\n")) 3 }

    ensures unread { EndsAs (read_failed (quiet_run taken_text (codes "0\n") [] read_failed_line)) 4 }
    ensures unread_uncounted { ¬ EndsAs (quiet_run taken_text (codes "0\n") [] read_failed_line) 4 }
    ensures unread_in_silence { ¬ EndsAs (read_failed (quiet_run taken_text (codes "0\n") [] [])) 4 }
    ensures unread_and_a_front_drawn { ¬ EndsAs (read_failed (quiet_run taken_text (codes "0\n") (codes "<") read_failed_line)) 4 }
    ensures unread_and_a_fault_hidden { ¬ EndsAs (err_failed (read_failed (quiet_run taken_text (codes "0\n") [] read_failed_line))) 4 }

    ensures a_write_failed { EndsAs (out_failed (quiet_run taken_text [] (codes "<") [])) 5 }
    ensures a_complaint_failed { EndsAs (err_failed (quiet_run refused_text [] [] (codes "li"))) 5 }
    ensures no_write_failed { ¬ EndsAs (quiet_run taken_text [] (codes "<") []) 5 }
    ensures wanted { EndsAs (quiet_run taken_text [] (codes "<") memory_line) 8 }
    ensures wanted_for_the_complaint { EndsAs (err_wanted (quiet_run taken_text [] [] (codes "mem"))) 8 }
    ensures wanted_in_silence { ¬ EndsAs (quiet_run taken_text [] (codes "<") []) 8 }
    ensures no_other_status { (r : Run) → ¬ EndsAs r 1 × ¬ EndsAs r 2 }
{}
