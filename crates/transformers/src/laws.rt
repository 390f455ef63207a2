ghost use Rattle.std.specs.Prelude.{ℕ, List};
ghost use Rattle.fifo_xform.specs.Fifo.{fifo};
ghost use Rattle.lock_server.specs.Exclusion.{Excludes};
ghost use Rattle.lock_server.specs.Locks.{lock_server};
ghost use Rattle.mirror.specs.Mirroring.{mirror};
ghost use Rattle.mirror.specs.Prefix.{Mirrors};
ghost use Rattle.vst_base.specs.declared.mirror.MirrorInput.{MirrorInput};
ghost use Rattle.net_semantics.specs.BelowPb.{IsExplainedBy};
ghost use Rattle.net_semantics.specs.Runs.{IsAllowed, no_recovery, trace};
ghost use Rattle.primary_backup.specs.Backup.{primary_backup};
ghost use Rattle.retry_xform.specs.Retransmission.{retrying};
ghost use Rattle.seqnum_xform.specs.Numbering.{sequence_numbered};
ghost use Rattle.transformers.specs.Ordering.{ordering};
ghost use Rattle.transformers.specs.Retransmission.{retransmission};
ghost use Rattle.transformers.specs.Numbering.{numbering};
ghost use Rattle.transformers.specs.Transformers.{Carries, over};
ghost use Rattle.vst_base.specs.Machines.{MachineMeaning};
ghost use Rattle.vst_base.specs.declared.lock.LockInput.{LockInput};
ghost use Rattle.vst_base.specs.declared.step.Step.{Step};

use vst_base::{Machine, Net};

/// Sequence numbering carries all handlers from a bag to a network that copies packets.
pub fn numbering_carries<S, I, O, M>()
    ensures { Carries numbering S I O M }
{}

/// Numbering by destination carries all handlers from a network that keeps the order between two nodes to one that copies and
/// reorders packets.
pub fn ordering_carries<S, I, O, M>()
    ensures { Carries ordering S I O M }
{}

/// Retransmission carries all handlers from a network that loses nothing to one that loses packets.
pub fn retransmission_carries<S, I, O, M>()
    ensures { Carries retransmission S I O M }
{}

/// Retransmission over sequence numbering carries all handlers from a bag to a network that loses packets, and over numbering by
/// destination from one that keeps the order between two nodes.
pub fn two_carry<S, I, O, M>()
    ensures numbered { Carries (over retransmission numbering) S I O M }
    ensures ordered { Carries (over retransmission ordering) S I O M }
{}

/// With numbered packets that are sent again the lock server excludes on every run of a network that loses, copies and reorders
/// packets.
pub fn retried_lock_excludes()
    ensures { (nodes : ℕ) (ss : List (Step LockInput)) → IsAllowed Net.Loss (retrying (sequence_numbered (lock_server nodes))) no_recovery ss
        → Excludes (trace (retrying (sequence_numbered (lock_server nodes))) no_recovery ss) }
{}

/// With numbered packets that are sent again one machine explains what clients see of primary-backup on such a network.
pub fn retried_backup_is_one_machine<M: Machine>()
    ensures { (m : MachineMeaning M.State M.Cmd M.Out) (ss : List (Step M.Cmd))
        → IsAllowed Net.Loss (retrying (sequence_numbered (primary_backup m))) no_recovery ss
        → IsExplainedBy m (trace (retrying (sequence_numbered (primary_backup m))) no_recovery ss) }
{}

/// With numbers by destination, what node 0 of a mirror says of a node is a prefix of what was put there on every run of a network
/// that copies and reorders packets; and with packets that are sent again also where they are lost.
pub fn carried_mirrors_say_a_prefix()
    ensures copied { (nodes : ℕ) (ss : List (Step MirrorInput)) → IsAllowed Net.Dup (fifo (mirror nodes)) no_recovery ss
        → Mirrors (trace (fifo (mirror nodes)) no_recovery ss) }
    ensures lost { (nodes : ℕ) (ss : List (Step MirrorInput)) → IsAllowed Net.Loss (retrying (fifo (mirror nodes))) no_recovery ss
        → Mirrors (trace (retrying (fifo (mirror nodes))) no_recovery ss) }
{}
