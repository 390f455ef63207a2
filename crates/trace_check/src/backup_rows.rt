ghost use Rattle.std.specs.Prelude.{◌≡◌, Err, Ok, codes};
ghost use Rattle.stacks.specs.Checks.{checked};

use crate::Verdict;
use vst_base::StackId;

/// Commands that explain a trace of a primary and its backup, and those that don't.
#[tactic(auto, unfolding(schedule_text::specs::Headers::header_of))]
pub fn worked_backups()
    ensures acknowledged { checked StackId.KvPb (codes "in 0 put a x\nin 0 get a\nout 0 a =x -\nbelow\nschedule 1 one kv 1\nin 0 put a x\n") ≡ Ok Verdict.Yes }
    ensures redirected { checked StackId.KvPbSeq (codes "in 0 put a x\nout 0 a =x -\nin 1 get a\nout 1 redirect\nbelow\nschedule 1 one kv 1\nin 0 put a x\n") ≡ Ok Verdict.Yes }
    ensures a_table { checked StackId.TablePbSeq (codes "in 0 acquire l bob\nout 0 l =bob yes\nbelow\nschedule 1 one table 1\nin 0 acquire l bob\n") ≡ Ok Verdict.Yes }
    ensures a_table_answers_another { checked StackId.TablePbSeq (codes "in 0 acquire l bob\nout 0 l - no\nbelow\nschedule 1 one table 1\nin 0 acquire l bob\n") ≡ Ok (Verdict.No 7 2) }
    ensures command_missing { checked StackId.KvPb (codes "in 0 get a\nout 0 a - -\nbelow\nschedule 1 one kv 1\n") ≡ Ok (Verdict.No 6 5) }
    ensures command_over { checked StackId.KvPb (codes "in 0 get a\nbelow\nschedule 1 one kv 1\nin 0 get a\n") ≡ Ok (Verdict.No 6 4) }
    ensures another_command { checked StackId.KvPb (codes "in 0 get a\nout 0 a - -\nbelow\nschedule 1 one kv 1\nin 0 get b\n") ≡ Ok (Verdict.No 6 5) }
    ensures no_step_of_the_machine { checked StackId.KvPb (codes "in 0 get a\nout 0 a - -\nbelow\nschedule 1 one kv 1\ntick 0\n") ≡ Ok (Verdict.No 6 5) }
    ensures another_output { checked StackId.KvPb (codes "in 0 get a\nout 0 a =x -\nbelow\nschedule 1 one kv 1\nin 0 get a\n") ≡ Ok (Verdict.No 7 2) }
    ensures answered_too_early { checked StackId.KvPb (codes "out 0 a - -\nin 0 get a\nbelow\nschedule 1 one kv 1\nin 0 get a\n") ≡ Ok (Verdict.No 7 1) }
    ensures answered_twice { checked StackId.KvPb (codes "in 0 get a\nout 0 a - -\nout 0 a - -\nbelow\nschedule 1 one kv 1\nin 0 get a\n") ≡ Ok (Verdict.No 7 3) }
    ensures redirected_by_the_primary { checked StackId.KvPb (codes "in 0 get a\nout 0 redirect\nbelow\nschedule 1 one kv 1\n") ≡ Ok (Verdict.No 7 2) }
    ensures not_redirected { checked StackId.KvPb (codes "in 1 get a\nbelow\nschedule 1 one kv 1\n") ≡ Ok (Verdict.No 8 1) }
    ensures redirected_later { checked StackId.KvPb (codes "in 1 get a\nin 0 get a\nout 1 redirect\nbelow\nschedule 1 one kv 1\n") ≡ Ok (Verdict.No 8 1) }
    ensures answered_by_the_backup { checked StackId.KvPb (codes "in 1 get a\nout 1 a - -\nbelow\nschedule 1 one kv 1\n") ≡ Ok (Verdict.No 8 1) }
    ensures redirected_twice { checked StackId.KvPb (codes "in 1 get a\nout 1 redirect\nout 1 redirect\nbelow\nschedule 1 one kv 1\n") ≡ Ok (Verdict.No 8 3) }
    ensures redirected_out_of_nothing { checked StackId.KvPb (codes "out 1 redirect\nbelow\nschedule 1 one kv 1\n") ≡ Ok (Verdict.No 8 1) }
{}
