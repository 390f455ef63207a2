ghost use Rattle.std.specs.Prelude.{ℕ, ◌+◌, ◌*◌, ◌≤◌, Bool, List, length};
ghost use Rattle.fifo_xform.specs.Fifo.{fifo};
ghost use Rattle.handler_trait.specs.Handling.{Meaning, Recovery};
ghost use Rattle.lock_server.specs.Locks.{lock_server};
ghost use Rattle.mirror.specs.Mirroring.{mirror};
ghost use Rattle.net_semantics.specs.Runs.{run};
ghost use Rattle.primary_backup.specs.Backup.{primary_backup};
ghost use Rattle.raft_reads.specs.ReadRaft.{read_raft};
ghost use Rattle.raft_xform.specs.Raft.{raft};
ghost use Rattle.retry_xform.specs.Retransmission.{retrying};
ghost use Rattle.seqnum_xform.specs.Numbering.{sequence_numbered};
ghost use Rattle.vst_base.specs.Machines.{MachineMeaning};
ghost use Rattle.vst_base.specs.declared.node.TheConstants.{MAX_NODES};
ghost use Rattle.vst_base.specs.declared.step.Step.{Step};
ghost use Rattle.made_schedules.specs.Makes.{own_sends};
ghost use Rattle.made_schedules.specs.Sends.{SendsAtMost, SendsFew};

/// The handlers that schedules are made for send few packets in each event, whatever the machine. Handlers whose messages are numbered or put
/// in order send no more than those within, and retrying ones one more at most. `S` are the machine's states, `I` its commands and `O` its
/// outputs; of transformed handlers `S` are states, `I`, `O` and `M` inputs, outputs and messages.
pub fn events_send_few<S: Drop, I: Drop, O: Drop, M: Drop>()
    ensures lock { (nodes : ℕ) → SendsAtMost own_sends (lock_server nodes) }
    ensures mirror { (nodes : ℕ) → SendsAtMost own_sends (mirror nodes) }
    ensures backup { (m : MachineMeaning S I O) → SendsAtMost own_sends (primary_backup m) }
    ensures raft { (nodes : ℕ) (m : MachineMeaning S I O) → nodes ≤ MAX_NODES → SendsFew (raft nodes m) }
    ensures reads { (nodes : ℕ) (m : MachineMeaning S I O) (is_read : I → Bool) → nodes ≤ MAX_NODES → SendsFew (read_raft nodes m is_read) }
    ensures numbered { (most : ℕ) (m : Meaning S I O M) → SendsAtMost most m → SendsAtMost most (sequence_numbered m) }
    ensures ordered { (most : ℕ) (m : Meaning S I O M) → SendsAtMost most m → SendsAtMost most (fifo m) }
    ensures retried { (most : ℕ) (m : Meaning S I O M) → SendsAtMost most m → SendsAtMost (most + 1) (retrying m) }
{}

/// Where events send few packets, few were sent in the end: at most MAX_NODES for each step, whether a network allows the steps or not.
pub fn packets_are_few<S: Drop, K: Drop, I: Drop, O: Drop, M: Drop>()
    ensures { (m : Meaning S I O M) (r : Recovery S K) (ss : List (Step I)) → SendsFew m
        → length (run m r ss).packets ≤ MAX_NODES * length ss }
{}
