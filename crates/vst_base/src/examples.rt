ghost use Rattle.std.specs.Prelude.{◌≡◌, [], ◌∷◌, ◌++◌, true, false, not, Some, None, filter, length, map, replicate, codes};
ghost use Rattle.vst_base.specs.Examples.{counter, kinds, nets, steps, views};
ghost use Rattle.vst_base.specs.Firsts.{first_of};
ghost use Rattle.vst_base.specs.Machines.{fold, state_after};
ghost use Rattle.vst_base.specs.Nets.{has_kind, keeps_order, kind_of, stops_no_node, view_of};
ghost use Rattle.vst_base.specs.Stacks.{row_of, rows, stack_word};
ghost use Rattle.vst_base.specs.Tokens.{is_token, token_of};

use crate::{Net, StackId, StepKind, StepRefusal};

/// The kinds of step of each network, first answers, and a counter's run.
pub fn worked()
    ensures one_takes_inputs { filter (has_kind Net.One) kinds ≡ StepKind.In ∷ [] }
    ensures bag_delivers_and_ticks { filter (has_kind Net.Bag) kinds ≡ StepKind.In ∷ StepKind.Deliver ∷ StepKind.Tick ∷ [] }
    ensures dup_copies { filter (has_kind Net.Dup) kinds ≡ StepKind.In ∷ StepKind.Deliver ∷ StepKind.Tick ∷ StepKind.Dup ∷ [] }
    ensures fail_has_all { filter (has_kind Net.Fail) kinds ≡ kinds }
    ensures ord_has_as_a_bag { filter (has_kind Net.Ord) kinds ≡ filter (has_kind Net.Bag) kinds }
    ensures loss_loses { filter (has_kind Net.Loss) kinds ≡ filter (has_kind Net.Dup) kinds ++ StepKind.Lose ∷ [] }
    ensures acts_have_no_crash { filter (has_kind Net.Acts) kinds ≡ filter (has_kind Net.Loss) kinds ++ StepKind.Reboot ∷ [] }
    ensures nets_that_stop_nodes { filter (λ net. not (stops_no_node net)) nets ≡ Net.Fail ∷ Net.Acts ∷ [] }
    ensures nets_that_keep_order { filter keeps_order nets ≡ Net.Ord ∷ [] }

    ensures what_steps_are_of { map view_of steps ≡ views }
    ensures kinds_of_steps { map kind_of steps ≡ kinds }

    ensures first_that_applies { first_of ((StepRefusal.NotThisNet, false) ∷ (StepRefusal.NodeDown, true) ∷ (StepRefusal.NoCopy, true) ∷ []) ≡ Some StepRefusal.NodeDown }
    ensures last_that_applies { first_of ((StepRefusal.NotThisNet, false) ∷ (StepRefusal.NodeDown, true) ∷ []) ≡ Some StepRefusal.NodeDown }
    ensures none_applies { first_of ((StepRefusal.NotThisNet, false) ∷ (StepRefusal.NodeDown, false) ∷ []) ≡ None }
    ensures none_to_apply { first_of {R = StepRefusal} [] ≡ None }

    ensures outputs_in_order { fold counter (3 ∷ 4 ∷ 250 ∷ 1 ∷ []) ≡ 0 ∷ 3 ∷ 7 ∷ 255 ∷ [] }
    ensures no_outputs { fold counter [] ≡ [] }
    ensures last_state { state_after counter 5 (3 ∷ 4 ∷ []) ≡ 12 }
    ensures first_state { state_after counter 5 [] ≡ 5 }
{}

/// Stacks: their words, their networks and their numbers of nodes.
pub fn worked_stacks()
    ensures as_many { length rows ≡ 15 }
    ensures word { stack_word StackId.KvPbSeq ≡ codes "kv/pb/seq" }
    ensures own_row { map (λ r. r.stack) rows ≡ StackId.Lock ∷ StackId.LockSeq ∷ StackId.KvPb ∷ StackId.KvPbSeq ∷ StackId.KvRaft ∷ StackId.TablePbSeq ∷ StackId.TableRaft ∷ StackId.Kv ∷ StackId.Table ∷ StackId.Mirror ∷ StackId.MirrorFifo ∷ StackId.LockSeqRetry ∷ StackId.KvPbSeqRetry ∷ StackId.KvRaftRead ∷ StackId.TableRaftRead ∷ [] }
    ensures lock_nodes { row_of StackId.Lock ≡ record { stack = StackId.Lock; net = Net.Bag; least = 2; most = 9 } }
    ensures backup_nodes { row_of StackId.KvPbSeq ≡ record { stack = StackId.KvPbSeq; net = Net.Dup; least = 2; most = 2 } }
    ensures cluster_nodes { row_of StackId.KvRaft ≡ record { stack = StackId.KvRaft; net = Net.Fail; least = 1; most = 9 } }
    ensures table_cluster { row_of StackId.TableRaft ≡ record { stack = StackId.TableRaft; net = Net.Fail; least = 1; most = 9 } }
    ensures table_backup { row_of StackId.TablePbSeq ≡ record { stack = StackId.TablePbSeq; net = Net.Dup; least = 2; most = 2 } }
    ensures mirror_nodes { (stack_word StackId.Mirror ≡ codes "mirror") × (row_of StackId.Mirror ≡ record { stack = StackId.Mirror; net = Net.Ord; least = 2; most = 9 }) }
    ensures fifo_nodes { (stack_word StackId.MirrorFifo ≡ codes "mirror/fifo") × (row_of StackId.MirrorFifo ≡ record { stack = StackId.MirrorFifo; net = Net.Dup; least = 2; most = 9 }) }
    ensures retried_lock_nodes { (stack_word StackId.LockSeqRetry ≡ codes "lock/seq/retry") × (row_of StackId.LockSeqRetry ≡ record { stack = StackId.LockSeqRetry; net = Net.Loss; least = 2; most = 9 }) }
    ensures retried_backup_nodes { (stack_word StackId.KvPbSeqRetry ≡ codes "kv/pb/seq/retry") × (row_of StackId.KvPbSeqRetry ≡ record { stack = StackId.KvPbSeqRetry; net = Net.Loss; least = 2; most = 2 }) }
    ensures reading_cluster_nodes { (stack_word StackId.KvRaftRead ≡ codes "kv/raft/read") × (row_of StackId.KvRaftRead ≡ record { stack = StackId.KvRaftRead; net = Net.Fail; least = 1; most = 9 }) }
    ensures reading_table_nodes { (stack_word StackId.TableRaftRead ≡ codes "table/raft/read") × (row_of StackId.TableRaftRead ≡ record { stack = StackId.TableRaftRead; net = Net.Fail; least = 1; most = 9 }) }
    ensures table_alone { (stack_word StackId.Table ≡ codes "table") × (row_of StackId.Table ≡ record { stack = StackId.Table; net = Net.One; least = 1; most = 1 }) }
{}

/// Which bytes are tokens, at the borders of their number and of each byte.
pub fn worked_tokens()
    ensures no_bytes { is_token 64 [] ≡ false }
    ensures one_byte { is_token 64 (codes "a") ≡ true }
    ensures full_key { is_token 64 (replicate 64 0x61) ≡ true }
    ensures over_full_key { is_token 64 (replicate 65 0x61) ≡ false }
    ensures full_value { is_token 1024 (replicate 1024 0x61) ≡ true }
    ensures over_full_value { is_token 1024 (replicate 1025 0x61) ≡ false }
    ensures space { (is_token 64 (0x20 ∷ []) ≡ false) × (is_token 64 (codes "a b") ≡ false) }
    ensures first_byte { is_token 64 (0x21 ∷ []) ≡ true }
    ensures last_byte { is_token 64 (0x7E ∷ []) ≡ true }
    ensures delete { (is_token 64 (0x7F ∷ []) ≡ false) × (is_token 64 (0x61 ∷ 0x7F ∷ []) ≡ false) }
    ensures newline { is_token 64 (codes "a\n") ≡ false }
    ensures no_ascii { is_token 64 (0x80 ∷ []) ≡ false }
    ensures token { token_of 64 (codes "a") ≡ Some (codes "a") }
    ensures no_token { token_of 64 [] ≡ None }
{}
