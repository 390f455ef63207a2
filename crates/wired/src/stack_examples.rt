ghost use Rattle.std.specs.Prelude.{ℕ, ◌≤◌, Bool};
ghost use Rattle.fifo_xform.specs.Fifo.{fifo};
ghost use Rattle.kv_machine.specs.declared.cmd.KvCmd.{KvCmd as SpecKvCmd};
ghost use Rattle.lock_server.specs.Locks.{lock_server};
ghost use Rattle.lock_table.specs.declared.cmd.TableCmd.{TableCmd as SpecTableCmd};
ghost use Rattle.mirror.specs.Mirroring.{mirror};
ghost use Rattle.primary_backup.specs.Backup.{primary_backup};
ghost use Rattle.raft_reads.specs.ReadRaft.{read_raft, read_recovery};
ghost use Rattle.raft_types.specs.Messages.{IsClusterSize};
ghost use Rattle.raft_xform.specs.Raft.{raft, raft_recovery};
ghost use Rattle.retry_xform.specs.Retransmission.{retrying};
ghost use Rattle.seqnum_xform.specs.Numbering.{sequence_numbered};
ghost use Rattle.vst_base.specs.Machines.{MachineMeaning};
ghost use Rattle.vst_base.specs.declared.stack.StackId.TheVariants as stack;
ghost use Rattle.wire_messages.specs.KvBytes.{kv_command};
ghost use Rattle.wire_messages.specs.PeerBytes.{backup_message, lock_message, mirror_message, numbered, retried};
ghost use Rattle.wire_messages.specs.RaftBytes.{raft_message};
ghost use Rattle.wire_messages.specs.ReadBytes.{read_message};
ghost use Rattle.wire_messages.specs.TableBytes.{table_command};
ghost use Rattle.wired.specs.RaftSaving.{IsAsked, raft_saving};
ghost use Rattle.wired.specs.Sending.{HasPut};
ghost use Rattle.wired.specs.StackRuns.{RunsAsBytes, RunsOnBytesAlone};

use crate::runs_as_bytes;
use fifo_xform::Fifo;
use lock_server::LockServer;
use mirror::Mirror;
use retry_xform::Retry;
use seqnum_xform::SeqNum;

/// The stacks whose nodes never stop: with packets that are bytes each refuses what it refuses with messages, and clients see the
/// same, on at most 1,000,000 steps. The commands that clients give are to have bytes, as all tokens of a schedule have.
pub fn worked_stacks<S, O>()
    ensures lock { (nodes : ℕ) → nodes ≤ 9 → RunsAsBytes lock_message stack.Lock (λ _. Unit {0}) (lock_server nodes) }
    ensures lock_seq { (nodes : ℕ) → nodes ≤ 9
        → RunsAsBytes (numbered lock_message) stack.LockSeq (λ _. Unit {0}) (sequence_numbered (lock_server nodes)) }
    ensures kv_pb { (m : MachineMeaning S SpecKvCmd O)
        → RunsAsBytes (backup_message kv_command) stack.KvPb kv_command.Fits (primary_backup m) }
    ensures kv_pb_seq { (m : MachineMeaning S SpecKvCmd O)
        → RunsAsBytes (numbered (backup_message kv_command)) stack.KvPbSeq kv_command.Fits (sequence_numbered (primary_backup m)) }
    ensures table_pb_seq { (m : MachineMeaning S SpecTableCmd O)
        → RunsAsBytes (numbered (backup_message table_command)) stack.TablePbSeq table_command.Fits
        (sequence_numbered (primary_backup m)) }
    ensures mirror { (nodes : ℕ) → nodes ≤ 9 → RunsAsBytes mirror_message stack.Mirror HasPut (mirror nodes) }
    ensures mirror_fifo { (nodes : ℕ) → nodes ≤ 9 → RunsAsBytes (numbered mirror_message) stack.MirrorFifo HasPut (fifo (mirror nodes)) }
    ensures lock_seq_retry { (nodes : ℕ) → nodes ≤ 9
        → RunsAsBytes (retried (numbered lock_message)) stack.LockSeqRetry (λ _. Unit {0}) (retrying (sequence_numbered (lock_server nodes))) }
    ensures kv_pb_seq_retry { (m : MachineMeaning S SpecKvCmd O)
        → RunsAsBytes (retried (numbered (backup_message kv_command))) stack.KvPbSeqRetry kv_command.Fits
        (retrying (sequence_numbered (primary_backup m))) }
{
    runs_as_bytes::<LockServer>();
    runs_as_bytes::<SeqNum<LockServer>>();
    runs_as_bytes::<Mirror>();
    runs_as_bytes::<Fifo<Mirror>>();
    runs_as_bytes::<Retry<SeqNum<LockServer>>>();
}

/// The stacks whose nodes stop and start again: on bytes alone, in packets and in what is kept, each refuses what it refuses with
/// messages and states, and clients see the same. The commands that clients give are to have bytes, and the numbers of clients and
/// requests eight at most.
pub fn worked_cluster_stacks<S, O>()
    ensures kv_raft { (nodes : ℕ) (m : MachineMeaning S SpecKvCmd O) → IsClusterSize nodes
        → RunsOnBytesAlone (raft_message kv_command) stack.KvRaft (raft_saving stack.KvRaft kv_command nodes)
        (IsAsked kv_command) (raft nodes m) (raft_recovery m) }
    ensures table_raft { (nodes : ℕ) (m : MachineMeaning S SpecTableCmd O) → IsClusterSize nodes
        → RunsOnBytesAlone (raft_message table_command) stack.TableRaft (raft_saving stack.TableRaft table_command nodes)
        (IsAsked table_command) (raft nodes m) (raft_recovery m) }
    ensures kv_raft_read { (nodes : ℕ) (m : MachineMeaning S SpecKvCmd O) (is_read : SpecKvCmd → Bool) → IsClusterSize nodes
        → RunsOnBytesAlone (read_message kv_command) stack.KvRaftRead (raft_saving stack.KvRaftRead kv_command nodes)
        (IsAsked kv_command) (read_raft nodes m is_read) (read_recovery nodes m) }
    ensures table_raft_read { (nodes : ℕ) (m : MachineMeaning S SpecTableCmd O) (is_read : SpecTableCmd → Bool) → IsClusterSize nodes
        → RunsOnBytesAlone (read_message table_command) stack.TableRaftRead (raft_saving stack.TableRaftRead table_command nodes)
        (IsAsked table_command) (read_raft nodes m is_read) (read_recovery nodes m) }
{}
