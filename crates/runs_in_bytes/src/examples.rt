ghost use Rattle.std.specs.Prelude.{◌≡◌, ◌∷◌, ◌++◌, [], None, Some, IfOk, take};
ghost use Rattle.handler_trait.specs.Echo.{echo};
ghost use Rattle.raft_types.specs.Messages.{IsClusterSize};
ghost use Rattle.vst_base.specs.declared.lock.LockMsg.TheVariants as lock;
ghost use Rattle.wire_codec.specs.Headings.{HasByte};
ghost use Rattle.wire_messages.specs.PeerBytes.{lock_message};
ghost use Rattle.wire_messages.specs.ReadBytes.{read_message};
ghost use Rattle.wired.specs.Examples.{bytes_of};
ghost use Rattle.wired.specs.WiredRuns.{IsFormatOf};
ghost use Rattle.wired.specs.Wiring.{no_name};
ghost use Rattle.runs_in_bytes.specs.Carrying.{IsCarried};
ghost use Rattle.runs_in_bytes.specs.Examples.{IsOwn, as_it_is, cluster_of, put_and_read, reader_after, reader_in_bytes, to_the_server, without_packets};
ghost use Rattle.runs_in_bytes.specs.Within.{TellsTheSame};

use crate::ClusterInBytes;
use read_xform::ReadRaft;
use std::alloc::{AllocError, Global};
use vst_base::{Queries, StackId};
use wired::AlwaysFits;

/// What handlers on bytes owe to those within, on examples.
pub fn worked_worlds()
    ensures tells { TellsTheSame (echo 2) (echo 2) as_it_is }
    ensures not_of_another_node { TellsTheSame (echo 3) (echo 2) as_it_is → ⊥ }
    ensures not_without_packets { TellsTheSame (echo 2) (echo 2) without_packets → ⊥ }
{}

/// Clusters whose packets and bodies are those of their stack, and clusters where these are not.
pub fn worked_clusters()
    ensures own { IsOwn 17186 (cluster_of 3 StackId.KvRaft 0 StackId.KvRaft 0) }
    ensures not_of_another_format { IsOwn 17186 (cluster_of 3 StackId.Lock 0 StackId.Lock 0) → ⊥ }
    ensures not_of_no_packets { IsOwn 17186 (cluster_of 3 StackId.Kv 0 StackId.Kv 0) → ⊥ }
    ensures not_of_two_stacks { IsOwn 17186 (cluster_of 3 StackId.KvRaft 0 StackId.TableRaft 0) → ⊥ }
    ensures not_under_another_name { IsOwn 17186 (cluster_of 3 StackId.KvRaft 7 StackId.KvRaft 7) → ⊥ }
    ensures not_under_two_names { IsOwn 17186 (cluster_of 3 StackId.KvRaft 0 StackId.KvRaft 8) → ⊥ }
    ensures not_of_ten_nodes { IsOwn 17186 (cluster_of 10 StackId.KvRaft 0 StackId.KvRaft 0) → ⊥ }
    ensures not_of_long_messages { IsOwn 59979 (cluster_of 3 StackId.KvRaft 0 StackId.KvRaft 0) → ⊥ }
{}

/// A cluster of one node whose reads take no entry: it keeps a body of what was put, and is not up while it has stopped.
#[tactic(auto, unfolding(wire_fields::specs::Bytes::number_bytes))]
pub fn worked_readers()
    ensures keeps_nothing { (reader_in_bytes (reader_after (take 3 put_and_read))).kept 0 ≡ None }
    ensures keeps_bytes { (reader_in_bytes (reader_after put_and_read)).kept 0 ≡ Some (83 ∷ 2 ∷ 5 ∷ 0 ∷ 1 ∷ (no_name
        ++ 0 ∷ 0 ∷ 0 ∷ 0 ∷ 0 ∷ 0 ∷ 0 ∷ 1 ∷ 0 ∷ 0 ∷ 0 ∷ 0 ∷ 2
        ∷ 0 ∷ 0 ∷ 0 ∷ 0 ∷ 0 ∷ 0 ∷ 0 ∷ 1 ∷ 0
        ∷ 0 ∷ 0 ∷ 0 ∷ 0 ∷ 0 ∷ 0 ∷ 0 ∷ 1 ∷ 1 ∷ 0 ∷ 0 ∷ 0 ∷ 0 ∷ 0 ∷ 0 ∷ 0 ∷ 7 ∷ 0 ∷ 0 ∷ 0 ∷ 0 ∷ 0 ∷ 0 ∷ 0 ∷ 1 ∷ 0 ∷ 2 ∷ 1 ∷ 97 ∷ 0 ∷ 1 ∷ 98 ∷ [])) }
    ensures knows_its_number { ((reader_in_bytes (reader_after put_and_read)).state 0).me ≡ 0 }
    ensures sends_nothing { (reader_in_bytes (reader_after put_and_read)).packets ≡ [] }
{}

/// Handlers whose reads take no entry, on bytes alone, in each stack whose messages are theirs.
pub fn worked_network<M: Queries>(
    alloc: Global,
    machine: M,
    nodes: u8,
    stack: StackId,
) -> Result<ClusterInBytes<ReadRaft<M>>, AllocError>
where
    M::Cmd: AlwaysFits,
    requires size { IsClusterSize nodes }
    requires packets { HasByte stack }
    requires format { IsFormatOf stack (read_message M.Cmd.format) }
    ensures { IfOk result (λ network. network.handlers.inner.inner ≡ record { machine = machine; nodes = nodes }) }
{
    ClusterInBytes::new(alloc, ReadRaft::new(machine, nodes), stack)
}

/// What is held of a message from node 1 to node 0: its bytes while a copy is in flight, and none of a packet that was never sent.
#[tactic(auto, unfolding(wire_fields::specs::Bytes::number_bytes))]
pub fn worked_packets()
    ensures held { IsCarried lock_message StackId.Lock (Some (bytes_of 1 0 1 0 1)) (Some (to_the_server lock.Lock 1)) }
    ensures not_of_another_message { IsCarried lock_message StackId.Lock (Some (bytes_of 1 0 1 0 1))
        (Some (to_the_server lock.Unlock 1)) → ⊥ }
    ensures not_of_another_stack { IsCarried lock_message StackId.LockSeq (Some (bytes_of 1 0 1 0 1))
        (Some (to_the_server lock.Lock 1)) → ⊥ }
    ensures not_gone { IsCarried lock_message StackId.Lock None (Some (to_the_server lock.Lock 2)) → ⊥ }
    ensures gone { IsCarried lock_message StackId.Lock None (Some (to_the_server lock.Lock 0)) }
    ensures not_still_held { IsCarried lock_message StackId.Lock (Some (bytes_of 1 0 1 0 1)) (Some (to_the_server lock.Lock 0)) → ⊥ }
    ensures never_sent { IsCarried lock_message StackId.Lock None None }
    ensures nothing_never_sent { IsCarried lock_message StackId.Lock (Some (bytes_of 1 0 1 0 1)) None → ⊥ }
{}
