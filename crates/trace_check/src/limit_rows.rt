ghost use Rattle.std.specs.Prelude.{◌≡◌, Ok, Err, codes, replicate};
ghost use Rattle.app_text.specs.LockTexts as lock_texts;
ghost use Rattle.check_text.specs.ImageLines.{line_of_image, step_says};
ghost use Rattle.check_text.specs.declared.image_line.ImageLine.TheVariants as image;
ghost use Rattle.line_reader.specs.declared.why.Why.TheVariants as why;
ghost use Rattle.stacks.specs.Checks.{checked};
ghost use Rattle.claim_verdicts.specs.declared.verdict.Verdict.TheVariants.{No, Yes};
ghost use Rattle.vst_base.specs.declared.stack.StackId.TheVariants as stack;
ghost use Rattle.vst_base.specs.declared.step.Step.TheVariants as step;

/// Lines of claims at the borders of their refusals.
#[tactic(auto, unfolding(schedule_text::specs::Headers::header_of))]
pub fn worked_limits()
    ensures longest_line { checked stack.Lock (replicate 4096 97) ≡ Err (1, why.UnknownWord) }
    ensures longer_line { checked stack.Lock (replicate 4097 97) ≡ Err (1, why.LineTooLong) }
    ensures last_image_line { line_of_image (step_says lock_texts.input_of) 5 999999 (codes "tick 1") ≡ image.Says (step.Tick 1) }
    ensures one_image_line_too_many { line_of_image (step_says lock_texts.input_of) 5 1000000 (codes "tick 1") ≡ image.Refused why.TooManyEvents }
    ensures greatest_node { checked stack.Lock (codes "in 4294967295 lock\n") ≡ Err (1, why.NoSuchNode) }
    ensures node_of_more_than_32_bits { checked stack.Lock (codes "in 4294967296 lock\n") ≡ Err (1, why.Number) }
    ensures image_input_without_text { checked stack.Lock (codes "below\nschedule 1 bag lock 2\nin x\n") ≡ Err (3, why.UnknownWord) }
    ensures no_comments { checked stack.Kv (codes "below\nschedule 1 one kv 1\n# x\n") ≡ Err (3, why.UnknownWord) }
    ensures no_request { checked stack.KvRaft (codes "below\norder x\n") ≡ Err (2, why.Text) }
    ensures nothing_ordered { checked stack.KvRaft (codes "below\norder \n") ≡ Err (2, why.Text) }
    ensures one_node { checked stack.Lock (codes "below\nschedule 1 bag lock 1\n") ≡ Err (2, why.Header) }
    ensures two_nodes_alone { checked stack.Kv (codes "below\nschedule 1 one kv 2\n") ≡ Err (2, why.Header) }
{}

/// Claims of which one condition is false, or more, and claims that only look so.
#[tactic(auto, unfolding(schedule_text::specs::Headers::header_of))]
pub fn worked_conditions()
    ensures fifth_node { checked stack.KvRaft (codes "in 4 7 1 get a\nbelow\n") ≡ Ok Yes }
    ensures another_command_first { checked stack.KvRaft (codes "in 0 7 1 get b\nout 0 notleader 7 1\nin 0 7 1 get a\nbelow\norder 7 1 get a\n") ≡ Ok Yes }
    ensures order_before_outputs { checked stack.KvRaft (codes "out 0 reply 9 9 a - -\nbelow\norder 7 1 get a\n") ≡ Ok (No 1 3) }
    ensures server_takes_no_input { checked stack.Lock (codes "below\nschedule 1 bag lock 2\nin 0 lock\n") ≡ Ok (No 4 3) }
    ensures no_such_node_in_the_image { checked stack.Lock (codes "below\nschedule 1 bag lock 2\ntick 4294967295\n") ≡ Ok (No 4 3) }
    ensures backup_redirects_its_own { checked stack.KvPb (codes "in 0 get a\nout 1 redirect\nbelow\nschedule 1 one kv 1\n") ≡ Ok (No 8 2) }
    ensures backup_never_replies { checked stack.KvPb (codes "in 0 get a\nin 1 get a\nout 1 a - -\nbelow\nschedule 1 one kv 1\n") ≡ Ok (No 8 2) }
    ensures inputs_of_the_primary_alone { checked stack.KvPb (codes "in 1 get a\nout 1 redirect\nout 0 a - -\nin 0 get a\nbelow\nschedule 1 one kv 1\nin 0 get a\n") ≡ Ok (No 7 3) }
    ensures answers_before_the_backup { checked stack.KvPb (codes "in 1 get a\nin 0 get a\nout 0 a =x -\nbelow\nschedule 1 one kv 1\nin 0 get a\n") ≡ Ok (No 7 3) }
    ensures image_before_answers { checked stack.KvPb (codes "in 1 get a\nin 0 get a\nout 0 a =x -\nbelow\nschedule 1 one kv 1\n") ≡ Ok (No 6 6) }
    ensures backup_stands_in_no_image { checked stack.KvPb (codes "in 1 get b\nout 1 redirect\nin 0 get a\nout 0 a - -\nbelow\nschedule 1 one kv 1\nin 0 get a\n") ≡ Ok Yes }
{}
