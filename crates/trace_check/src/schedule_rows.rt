ghost use Rattle.std.specs.Prelude.{◌≡◌, Err, Ok, codes};
ghost use Rattle.stacks.specs.Checks.{checked};
ghost use Rattle.schedule_text.specs.ExampleTexts.{groundless_claim, handover_claim, mistaken_put_claim, put_claim};

use crate::Verdict;
use vst_base::StackId;

/// Schedules that explain a trace, and those that don't.
#[tactic(auto, unfolding(schedule_text::specs::Headers::header_of))]
pub fn worked_schedules()
    ensures handed_over { checked StackId.Lock handover_claim ≡ Ok Verdict.Yes }
    ensures last_line_not_ended { checked StackId.Lock (codes "in 1 lock\nout 1 locked\nbelow\nschedule 1 bag lock 2\nin 1 lock\ndeliver 0\ndeliver 1") ≡ Ok Verdict.Yes }
    ensures nothing_seen { checked StackId.Lock (codes "below\nschedule 1 bag lock 9\n") ≡ Ok Verdict.Yes }
    ensures without_repeats { checked StackId.LockSeq handover_claim ≡ Ok Verdict.Yes }
    ensures with_a_repeat { checked StackId.LockSeq (codes "in 1 lock\nbelow\nschedule 1 bag lock 2\nin 1 lock\ndup 0\n") ≡ Ok (Verdict.No 4 5) }
    ensures packet_that_was_never_sent { checked StackId.Lock (codes "in 1 lock\nbelow\nschedule 1 bag lock 2\ndeliver 0\n") ≡ Ok (Verdict.No 4 4) }
    ensures copy_that_is_gone { checked StackId.Lock (codes "in 1 lock\nbelow\nschedule 1 bag lock 2\nin 1 lock\ndeliver 0\ndeliver 0\n") ≡ Ok (Verdict.No 4 6) }
    ensures node_past_the_last { checked StackId.Lock (codes "below\nschedule 1 bag lock 2\nin 2 lock\n") ≡ Ok (Verdict.No 4 3) }
    ensures refused_before_it_differs { checked StackId.Lock (codes "out 1 locked\nbelow\nschedule 1 bag lock 2\ndeliver 0\n") ≡ Ok (Verdict.No 4 4) }
    ensures locked_out_of_nothing { checked StackId.Lock groundless_claim ≡ Ok (Verdict.No 5 1) }
    ensures another_node { checked StackId.Lock (codes "in 1 lock\nbelow\nschedule 1 bag lock 3\nin 2 lock\n") ≡ Ok (Verdict.No 5 1) }
    ensures another_input { checked StackId.Lock (codes "in 1 lock\nin 2 unlock\nbelow\nschedule 1 bag lock 3\nin 1 lock\nin 2 lock\n") ≡ Ok (Verdict.No 5 2) }
    ensures trace_too_short { checked StackId.Lock (codes "in 1 lock\nbelow\nschedule 1 bag lock 2\nin 1 lock\ndeliver 0\ndeliver 1\n") ≡ Ok (Verdict.No 5 2) }
    ensures trace_too_long { checked StackId.Lock (codes "in 1 lock\nout 1 locked\nbelow\nschedule 1 bag lock 2\nin 1 lock\ndeliver 0\n") ≡ Ok (Verdict.No 5 2) }
    ensures node_that_the_image_has_not { checked StackId.Lock (codes "in 8 lock\nbelow\nschedule 1 bag lock 2\n") ≡ Ok (Verdict.No 5 1) }
    ensures mirrored { checked StackId.Mirror (codes "in 1 put a\nout 0 from 1 a\nbelow\nschedule 1 ord mirror 2\nin 1 put a\ndeliver 0\n") ≡ Ok Verdict.Yes }
    ensures in_order { checked StackId.MirrorFifo (codes "in 1 put a\nin 1 put b\nout 0 from 1 a\nout 0 from 1 b\nbelow\nschedule 1 ord mirror 2\nin 1 put a\nin 1 put b\ndeliver 0\ndeliver 1\n") ≡ Ok Verdict.Yes }
    ensures outputs_swapped { checked StackId.Mirror (codes "in 1 put a\nin 1 put b\nout 0 from 1 b\nout 0 from 1 a\nbelow\nschedule 1 ord mirror 2\nin 1 put a\nin 1 put b\ndeliver 0\ndeliver 1\n") ≡ Ok (Verdict.No 5 3) }
    ensures second_packet_first { checked StackId.MirrorFifo (codes "in 1 put a\nin 1 put b\nout 0 from 1 b\nbelow\nschedule 1 ord mirror 2\nin 1 put a\nin 1 put b\ndeliver 1\n") ≡ Ok (Verdict.No 4 8) }
    ensures a_copy_of_what_was_sent { checked StackId.LockSeqRetry (codes "in 1 lock\nbelow\nschedule 1 dup lock/seq 2\nin 1 lock\ntick 1\ndup 0\n") ≡ Ok Verdict.Yes }
    ensures a_loss_in_the_image { checked StackId.LockSeqRetry (codes "in 1 lock\nbelow\nschedule 1 dup lock/seq 2\nin 1 lock\nlose 0\n") ≡ Ok (Verdict.No 4 5) }
    ensures nothing_said_below { checked StackId.KvPbSeqRetry (codes "in 0 get a\nout 0 a - -\nbelow\nschedule 1 dup kv/pb/seq 2\nin 0 get a\n") ≡ Ok (Verdict.No 5 2) }
    ensures machine_alone { checked StackId.Kv put_claim ≡ Ok Verdict.Yes }
    ensures another_output { checked StackId.Kv mistaken_put_claim ≡ Ok (Verdict.No 5 2) }
    ensures no_packets { checked StackId.Kv (codes "below\nschedule 1 one kv 1\ndeliver 0\n") ≡ Ok (Verdict.No 4 3) }
{}
