ghost use Rattle.std.specs.Prelude.{◌≡◌, Err, Ok, codes};
ghost use Rattle.stacks.specs.Checks.{checked};

use crate::Verdict;
use vst_base::StackId;

/// Orders that explain what clients saw of a cluster, and those that don't.
pub fn worked_clusters()
    ensures told_again_by_a_new_leader { checked StackId.KvRaft (codes "in 0 7 1 put a x\nout 0 reply 7 1 a =x -\nin 1 7 1 put a x\nout 1 reply 7 1 a =x -\nbelow\norder 7 1 put a x\n") ≡ Ok Verdict.Yes }
    ensures nothing_taken { checked StackId.KvRaft (codes "in 2 7 1 put a x\nout 2 notleader 7 1\nout 0 full 7 1\nbelow\n") ≡ Ok Verdict.Yes }
    ensures told_in_another_order { checked StackId.KvRaft (codes "in 0 7 1 put a x\nin 0 8 1 get a\nout 0 reply 8 1 a =x =x\nout 0 reply 7 1 a =x -\nbelow\norder 7 1 put a x\norder 8 1 get a\n") ≡ Ok Verdict.Yes }
    ensures a_table { checked StackId.TableRaft (codes "in 0 1 0 acquire l bob\nout 0 reply 1 0 l =bob yes\nin 0 1 1 acquire l al\nout 0 reply 1 1 l =bob no\nbelow\norder 1 0 acquire l bob\norder 1 1 acquire l al\n") ≡ Ok Verdict.Yes }
    ensures both_told_yes { checked StackId.TableRaft (codes "in 0 1 0 acquire l bob\nout 0 reply 1 0 l =bob yes\nin 0 1 1 acquire l al\nout 0 reply 1 1 l =al yes\nbelow\norder 1 0 acquire l bob\norder 1 1 acquire l al\n") ≡ Ok (Verdict.No 2 4) }
    ensures a_read_without_an_entry { checked StackId.KvRaftRead (codes "in 0 7 1 put a x\nout 0 reply 7 1 a =x -\nin 0 7 2 get a\nout 0 reply 7 2 a =x =x\nbelow\norder 7 1 put a x\norder 7 2 get a\n") ≡ Ok Verdict.Yes }
    ensures a_stale_read { checked StackId.KvRaftRead (codes "in 0 7 1 put a x\nout 0 reply 7 1 a =x -\nin 0 8 1 get a\nout 0 reply 8 1 a - -\nbelow\norder 8 1 get a\norder 7 1 put a x\n") ≡ Ok (Verdict.No 3 6) }
    ensures a_pair_twice { checked StackId.KvRaft (codes "in 0 7 1 put a x\nbelow\norder 7 1 put a x\norder 7 1 put a x\n") ≡ Ok (Verdict.No 1 4) }
    ensures never_put_in { checked StackId.KvRaft (codes "below\norder 7 1 put a x\n") ≡ Ok (Verdict.No 1 2) }
    ensures another_command { checked StackId.KvRaft (codes "in 0 7 1 put a y\nbelow\norder 7 1 put a x\n") ≡ Ok (Verdict.No 1 3) }
    ensures another_request { checked StackId.KvRaft (codes "in 0 7 1 put a x\nbelow\norder 7 2 put a x\n") ≡ Ok (Verdict.No 1 3) }
    ensures told_but_not_taken { checked StackId.KvRaft (codes "in 0 7 1 put a x\nout 0 reply 7 1 a =x -\nbelow\n") ≡ Ok (Verdict.No 2 2) }
    ensures another_output { checked StackId.KvRaft (codes "in 0 7 1 put a x\nout 0 reply 7 1 a =x -\nin 0 8 1 get a\nout 0 reply 8 1 a =x =x\nbelow\norder 8 1 get a\norder 7 1 put a x\n") ≡ Ok (Verdict.No 2 4) }
    ensures told_before_one_before_it { checked StackId.KvRaft (codes "in 0 7 1 put a x\nout 0 reply 7 1 a =x -\nin 0 8 1 get b\nout 0 reply 8 1 b - -\nbelow\norder 8 1 get b\norder 7 1 put a x\n") ≡ Ok (Verdict.No 3 6) }
    ensures told_before_it_was_put_in { checked StackId.KvRaft (codes "out 0 reply 7 1 a =x -\nin 0 7 1 put a x\nbelow\norder 7 1 put a x\n") ≡ Ok (Verdict.No 3 4) }
    ensures put_in_before_with_another_command { checked StackId.KvRaft (codes "in 0 7 1 put a y\nout 0 reply 7 1 a =x -\nin 0 7 1 put a x\nbelow\norder 7 1 put a x\n") ≡ Ok (Verdict.No 3 5) }
    ensures put_in_again_later { checked StackId.KvRaft (codes "in 0 7 1 put a x\nout 0 reply 7 1 a =x -\nin 0 7 1 put a x\nbelow\norder 7 1 put a x\n") ≡ Ok Verdict.Yes }
{}
