ghost use Rattle.std.specs.Prelude.{◌≡◌, [], ◌∷◌, None, Some, codes};
ghost use Rattle.command_line.specs.declared.command.Command.TheVariants as command;
ghost use Rattle.commands.specs.Answers.{answer_by, so_far_by};
ghost use Rattle.schedule_text.specs.ExampleTexts.{groundless_claim, handover, handover_claim};

use line_reader::Why;
use vst_base::StackId;

/// Worked runs: the status, the text on the output and the line on the error stream.
#[tactic(auto, unfolding(schedule_text::specs::Headers::header_of))]
pub fn worked()
    ensures no_command { answer_by None [] ≡ record { status = 2; out = []; err = codes "usage\n" } }
    ensures handed_over { answer_by (Some command.Replay) handover
        ≡ record { status = 0; out = handover_claim; err = [] } }
    ensures delivered_twice { answer_by (Some command.Replay) (codes "schedule 1 bag lock 2\nin 1 lock\ndeliver 0\ndeliver 0\n")
        ≡ record { status = 3; out = codes "in 1 lock\n"; err = codes "line 4: no copy\n" } }
    ensures permitted { answer_by (Some (command.Check StackId.Lock)) (codes "in 1 lock\nbelow\nschedule 1 bag lock 2\nin 1 lock\n")
        ≡ record { status = 0; out = codes "permitted\n"; err = [] } }
    ensures denied { answer_by (Some (command.Check StackId.Lock)) groundless_claim
        ≡ record { status = 1; out = []; err = codes "condition 5 line 1\n" } }
    ensures no_claim { answer_by (Some (command.Check StackId.Lock)) []
        ≡ record { status = 3; out = []; err = codes "line 1: header\n" } }
    ensures no_header { answer_by (Some command.Replay) [] ≡ record { status = 3; out = []; err = codes "line 1: header\n" } }
{}

/// What a command has written for the whole lines of an input that broke off, and which of them is refused.
#[tactic(auto, unfolding(schedule_text::specs::Headers::header_of))]
pub fn worked_breaks()
    ensures replayed { so_far_by (Some command.Replay) (codes "schedule 1 bag lock 2\nin 1 lock\nin 1") ≡ record { out = codes "in 1 lock\n"; refused = None } }
    ensures replayed_up_to_a_refused_line { (so_far_by (Some command.Replay) (codes "schedule 1 bag lock 2\ndeliver 7\nin 1")).refused ≡ Some (2, Why.NoCopy) }
    ensures checked { so_far_by (Some (command.Check StackId.Lock)) (codes "in 1 lock\nin 1") ≡ record { out = []; refused = None } }
    ensures checked_up_to_a_refused_line { so_far_by (Some (command.Check StackId.Lock)) (codes "on 1 lock\nin 1") ≡ record { out = []; refused = Some (1, Why.UnknownWord) } }
    ensures no_command { so_far_by None (codes "on 1 lock\n") ≡ record { out = []; refused = None } }
{}
