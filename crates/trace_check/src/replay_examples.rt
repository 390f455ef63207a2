ghost use Rattle.std.specs.Prelude.{◌≡◌, ℕ, List, [], length, Ok, Err, None, Some, codes};
ghost use Rattle.trace_check.specs.Examples.{wrote};
ghost use Rattle.trace_check.specs.Permitted.{IsWithinLimits, stack_in};
ghost use Rattle.line_reader.specs.Lines.{lines_of};
ghost use Rattle.line_reader.specs.declared.why.Why.TheVariants.{Header};
ghost use Rattle.schedule_replay.specs.Replays.{replayed};
ghost use Rattle.stacks.specs.Checks.{checked};
ghost use Rattle.claim_verdicts.specs.declared.verdict.Verdict.TheVariants.{Yes};
ghost use Rattle.vst_base.specs.declared.stack.StackId.TheVariants as stack;
ghost use Rattle.schedule_text.specs.ExampleTexts.{handover, idle};

/// Worked schedules, each of which is replayed, and checked again; and what is within the limits of a check.
#[tactic(auto, unfolding(schedule_text::specs::Headers::header_of))]
pub fn worked_replays()
    ensures first_header { stack_in (codes "# two nodes\nschedule 1 bag lock 2\nschedule 1 one kv 1\n") ≡ Some stack.Lock }
    ensures last_line { stack_in (codes "schedule 1 fail kv/raft 3") ≡ Some stack.KvRaft }
    ensures no_header { stack_in (codes "in 1 lock\nschedule 1 bag lock 2\n") ≡ None }
    ensures no_such_stack { stack_in (codes "schedule 1 one tables 1\n") ≡ None }
    ensures nothing { stack_in [] ≡ None }
    ensures few_lines { IsWithinLimits stack.KvRaft (wrote (codes "in 2 7 1 put a x\nout 2 notleader 7 1\nbelow\n") 0) }
    ensures any_lines { (out : List ℕ) (lines : ℕ) → IsWithinLimits stack.Lock (wrote out lines) }
    ensures most_lines { (out : List ℕ) → length (lines_of out) ≡ 8000000 → IsWithinLimits stack.KvRaft (wrote out 9) }
    ensures too_many_lines { (out : List ℕ) → length (lines_of out) ≡ 8000001 → IsWithinLimits stack.KvRaft (wrote out 9) → ⊥ }
    ensures any_order { (out : List ℕ) → length (lines_of out) ≡ 9 → IsWithinLimits stack.KvRaft (wrote out 1000001) }
    ensures longest_image { (out : List ℕ) → IsWithinLimits stack.LockSeqRetry (wrote out 1000000) }
    ensures too_long_an_image { (out : List ℕ) → IsWithinLimits stack.LockSeqRetry (wrote out 1000001) → ⊥ }
    ensures lock { checked stack.Lock (replayed handover).out ≡ Ok Yes }
    ensures copied { checked stack.LockSeq (replayed (codes "schedule 1 dup lock/seq 2\nin 1 lock\ndup 0\n")).out ≡ Ok Yes }
    ensures mirrored { checked stack.Mirror (replayed (codes "schedule 1 ord mirror 2\nin 1 put a\ndeliver 0\n")).out ≡ Ok Yes }
    ensures copied_in_order { checked stack.MirrorFifo (replayed (codes "schedule 1 dup mirror/fifo 2\nin 1 put a\nin 1 put b\ndup 0\ndeliver 0\ndeliver 1\ndeliver 0\n")).out ≡ Ok Yes }
    ensures sent_again { checked stack.LockSeqRetry
        (replayed (codes "schedule 1 loss lock/seq/retry 2\nin 1 lock\nlose 0\ntick 1\ndeliver 1\n")).out ≡ Ok Yes }
    ensures held { checked stack.Table (replayed (codes "schedule 1 one table 1\nin 0 acquire l bob\nin 0 release l al\n")).out ≡ Ok Yes }
    ensures nothing_happens { checked stack.KvRaft (replayed (codes "schedule 1 fail kv/raft 3\n")).out ≡ Ok Yes }
    ensures refused_step { checked stack.Lock (replayed (codes "schedule 1 bag lock 2\nin 1 lock\ndeliver 7\n")).out ≡ Err (2, Header) }
    ensures another_stack { checked stack.Kv (replayed idle).out ≡ Err (2, Header) }
{}
