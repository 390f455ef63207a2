ghost use Rattle.std.specs.Prelude.{◌≡◌, [], ◌∷◌, codes, map};
ghost use Rattle.vst_base.specs.Stacks.{stacks};
ghost use Rattle.vst_base.specs.declared.stack.StackId.{StackId};
ghost use Rattle.made_schedules.specs.MadeTexts.{made_counts, made_header, made_text};

/// On how many nodes schedules of each stack are made, the texts of some, and the counts of their replays.
pub fn worked()
    ensures nodes { map (λ i. (made_header i).nodes) stacks ≡ 4 ∷ 4 ∷ 2 ∷ 2 ∷ 5 ∷ 2 ∷ 5 ∷ 1 ∷ 1 ∷ 4 ∷ 4 ∷ 4 ∷ 2 ∷ 5 ∷ 5 ∷ [] }
    ensures no_step { made_text StackId.KvRaft 5 0 ≡ codes "schedule 1 fail kv/raft 5\n" }
    ensures one_step { made_text StackId.Lock 0 1 ≡ codes "schedule 1 bag lock 4\ntick 1\n" }
    ensures ten_steps { made_text StackId.KvPb 3 10
        ≡ codes "schedule 1 bag kv/pb 2\ntick 1\nin 1 get k5\ntick 0\nin 0 put k3 v3\ntick 0\nin 1 put k5 v5\ndeliver 0\ndeliver 1\nin 1 get k4\ntick 1\n" }
    ensures none_out_of_turn { made_text StackId.Mirror 30 8
        ≡ codes "schedule 1 ord mirror 4\nin 1 put v0\nin 1 put v1\ndeliver 0\nin 3 put v3\nin 1 put v4\ntick 0\ndeliver 2\ndeliver 1\n" }
    ensures in_any_order { made_text StackId.MirrorFifo 131 4
        ≡ codes "schedule 1 dup mirror/fifo 4\nin 3 put v0\ndup 0\nin 3 put v2\ndeliver 1\n" }
    ensures lost_and_sent_again { made_text StackId.LockSeqRetry 1050 5
        ≡ codes "schedule 1 loss lock/seq/retry 4\nin 3 lock\nlose 0\ntick 3\ndeliver 1\ndeliver 2\n" }
    ensures nothing_to_count { made_counts StackId.TablePbSeq 0 0 ≡ record { events = 0; inputs = 0; outputs = 0; replies = 0; image = 0 } }
    ensures redirects_are_no_replies { made_counts StackId.TableRaft 9 5 ≡ record { events = 5; inputs = 1; outputs = 1; replies = 0; image = 0 } }
    ensures replies { made_counts StackId.KvPb 1 50 ≡ record { events = 50; inputs = 13; outputs = 13; replies = 9; image = 9 } }
    ensures each_step_in_the_image { made_counts StackId.Lock 1 50 ≡ record { events = 50; inputs = 13; outputs = 2; replies = 2; image = 50 } }
    ensures a_copy_is_not_in_the_image { made_counts StackId.MirrorFifo 1298 8
        ≡ record { events = 8; inputs = 3; outputs = 3; replies = 3; image = 6 } }
    ensures two_steps_of_the_image_a_delivery { made_counts StackId.LockSeqRetry 1050 5
        ≡ record { events = 5; inputs = 1; outputs = 1; replies = 1; image = 6 } }
{}
