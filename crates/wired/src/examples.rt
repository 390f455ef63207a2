ghost use Rattle.std.specs.Prelude.{◌≡◌, ◌∷◌, ◌++◌, [], None, Some, true, false};
ghost use Rattle.lock_server.specs.declared.state.LockState.TheVariants as node;
ghost use Rattle.net_semantics.specs.Runs.{no_recovery};
ghost use Rattle.net_semantics.specs.Steps.{crashed};
ghost use Rattle.vst_base.specs.declared.lock.LockInput.TheVariants as ask;
ghost use Rattle.vst_base.specs.declared.lock.LockMsg.TheVariants as lock;
ghost use Rattle.vst_base.specs.declared.lock.LockOutput.TheVariants as told;
ghost use Rattle.vst_base.specs.declared.stack.StackId.TheVariants as stack;
ghost use Rattle.vst_base.specs.declared.step.Step.TheVariants as step;
ghost use Rattle.wire_messages.specs.PeerBytes.{lock_message};
ghost use Rattle.wired.specs.Examples.{another_name, asked_world, body_with, bytes_of, deaf_locks, keeps_vote, kept_in_term_1, kv_saving, locks_in_bytes, no_effect, runs_as_locks, runs_like_locks, voted_world, wired_locks};
ghost use Rattle.wired.specs.Saving.{seat, world_saved};
ghost use Rattle.wired.specs.WiredRuns.{HasBytes, IsFormatOf};
ghost use Rattle.wired.specs.Wiring.{heard, no_name};

use crate::runs_as_bytes;
use lock_server::LockServer;

/// The packets of a lock server as bytes, and which bytes are none of its packets.
#[tactic(auto, unfolding(wire_fields::specs::Bytes::number_bytes, wire_fields::specs::Bytes::number_in, wire_fields::specs::Bytes::has_bytes, wire_fields::specs::Bytes::read_number))]
pub fn worked_packets()
    ensures asks { wired_locks.input 1 (node.Client false) ask.Lock
        ≡ record { state = node.Client false; outputs = []; sends = (0, 86 ∷ 2 ∷ 1 ∷ 0 ∷ 1 ∷ 0 ∷ (no_name ++ 1 ∷ [])) ∷ [] } }
    ensures is_handed { wired_locks.message 0 (node.Server []) 1 (bytes_of 1 0 1 0 1)
        ≡ record { state = node.Server (1 ∷ []); outputs = []; sends = (1, bytes_of 1 0 0 1 3) ∷ [] } }
    ensures has_it { wired_locks.message 1 (node.Client false) 0 (bytes_of 1 0 0 1 3)
        ≡ record { state = node.Client true; outputs = told.Locked ∷ []; sends = [] } }
    ensures of_no_bytes { wired_locks.message 0 (node.Server []) 1 [] ≡ no_effect (node.Server []) }
    ensures of_no_message { wired_locks.message 0 (node.Server []) 1 (bytes_of 1 0 1 0 4) ≡ no_effect (node.Server []) }
    ensures a_byte_more { wired_locks.message 0 (node.Server []) 1 (bytes_of 1 0 1 0 1 ++ 0 ∷ []) ≡ no_effect (node.Server []) }
    ensures a_byte_less { wired_locks.message 0 (node.Server []) 1 (86 ∷ 2 ∷ 1 ∷ 0 ∷ 1 ∷ 0 ∷ no_name) ≡ no_effect (node.Server []) }
    ensures of_another_version { wired_locks.message 0 (node.Server []) 1 (86 ∷ 1 ∷ 1 ∷ 0 ∷ 1 ∷ 0 ∷ (no_name ++ 1 ∷ [])) ≡ no_effect (node.Server []) }
    ensures of_another_stack { wired_locks.message 0 (node.Server []) 1
        (86 ∷ 2 ∷ 2 ∷ 0 ∷ 1 ∷ 0 ∷ (no_name ++ 0 ∷ 0 ∷ 0 ∷ 0 ∷ 0 ∷ 0 ∷ 0 ∷ 0 ∷ 1 ∷ [])) ≡ no_effect (node.Server []) }
    ensures of_another_kind { wired_locks.message 0 (node.Server []) 1 (bytes_of 1 1 1 0 1) ≡ no_effect (node.Server []) }
    ensures of_another_source { wired_locks.message 0 (node.Server []) 1 (bytes_of 1 0 2 0 1) ≡ no_effect (node.Server []) }
    ensures to_another_node { wired_locks.message 0 (node.Server []) 1 (bytes_of 1 0 1 2 1) ≡ no_effect (node.Server []) }
    ensures of_another_name { wired_locks.message 0 (node.Server []) 1
        (86 ∷ 2 ∷ 1 ∷ 0 ∷ 1 ∷ 0 ∷ (another_name ++ 1 ∷ [])) ≡ no_effect (node.Server []) }
    ensures reads { heard lock_message stack.Lock no_name 1 0 (bytes_of 1 0 1 0 2) ≡ Some lock.Unlock }
    ensures reads_another_stack { heard lock_message stack.LockSeq no_name 1 0 (bytes_of 1 0 1 0 2) ≡ None }
{}

/// What a node of a cluster of three keeps as bytes, and which bytes are no state of its own.
#[tactic(auto, unfolding(wire_fields::specs::Bytes::number_bytes, wire_fields::specs::Bytes::number_in, wire_fields::specs::Bytes::has_bytes, wire_fields::specs::Bytes::read_number))]
pub fn worked_states()
    ensures is_saved { kv_saving.spell 1 (kept_in_term_1 (Some 2)) ≡ body_with 2 5 1 3 no_name 2 }
    ensures without_a_vote { kv_saving.spell 0 (kept_in_term_1 None) ≡ body_with 2 5 0 3 no_name 255 }
    ensures is_found { kv_saving.read 1 (body_with 2 5 1 3 no_name 2) ≡ Some (kept_in_term_1 (Some 2)) }
    ensures of_no_bytes { kv_saving.read 1 [] ≡ None }
    ensures a_byte_more { kv_saving.read 1 (body_with 2 5 1 3 no_name 2 ++ 0 ∷ []) ≡ None }
    ensures of_version_1 { kv_saving.read 1 (body_with 1 5 1 3 [] 2) ≡ None }
    ensures of_another_stack { kv_saving.read 1 (body_with 2 7 1 3 no_name 2) ≡ None }
    ensures of_another_node { kv_saving.read 1 (body_with 2 5 0 3 no_name 2) ≡ None }
    ensures of_another_number_of_nodes { kv_saving.read 1 (body_with 2 5 1 5 no_name 2) ≡ None }
    ensures of_another_name { kv_saving.read 1 (body_with 2 5 1 3 another_name 2) ≡ None }
    ensures a_vote_for_no_node { kv_saving.read 1 (body_with 2 5 1 3 no_name 3) ≡ None }
{}

/// Which messages have bytes between nodes 1 and 0, of which stack a format is, and that nodes that hear nothing do not run the same.
#[tactic(auto, unfolding(wire_fields::specs::Bytes::number_bytes, wire_fields::specs::Bytes::number_in, wire_fields::specs::Bytes::has_bytes, wire_fields::specs::Bytes::read_number))]
pub fn worked_runs()
    ensures has_bytes { HasBytes lock_message stack.Lock no_name 1 0 lock.Lock }
    ensures not_of_another_stack { HasBytes lock_message stack.LockSeq no_name 1 0 lock.Lock → ⊥ }
    ensures not_to_a_tenth_node { HasBytes lock_message stack.Lock no_name 1 9 lock.Lock → ⊥ }
    ensures not_under_no_name { HasBytes lock_message stack.Lock [] 1 0 lock.Lock → ⊥ }
    ensures is_format { IsFormatOf stack.Lock lock_message }
    ensures not_of_numbered { IsFormatOf stack.LockSeq lock_message → ⊥ }
    ensures not_of_no_packets { IsFormatOf stack.Kv lock_message → ⊥ }
    ensures in_bytes { (locks_in_bytes asked_world).packets
        ≡ record { source = 1; destination = 0; content = bytes_of 1 0 1 0 1; copies = 1 } ∷ [] }
    ensures runs_the_same { runs_as_locks wired_locks }
    ensures hears_nothing { runs_as_locks deaf_locks → ⊥ }
    ensures runs_alike { runs_like_locks wired_locks }
    ensures not_alike { runs_like_locks deaf_locks → ⊥ }
{
    runs_as_bytes::<LockServer>();
}

/// What a node that stops has to keep so that it has bytes, and what a world is whose nodes keep bytes.
#[tactic(auto, unfolding(wire_fields::specs::Bytes::number_bytes, wire_fields::specs::Bytes::number_in, wire_fields::specs::Bytes::has_bytes, wire_fields::specs::Bytes::read_number))]
pub fn worked_stops()
    ensures is_up { (world_saved kv_saving (voted_world None)).kept 1 ≡ None }
    ensures is_down { (world_saved kv_saving (crashed no_recovery (voted_world (Some 2)) 1)).kept 1 ≡ Some (body_with 2 5 1 3 no_name 2) }
    ensures has_its_number { (world_saved kv_saving (voted_world None)).state 1 ≡ seat 1 (kept_in_term_1 None) }
    ensures keeps_bytes { keeps_vote (Some 2) (step.Crash 1) }
    ensures keeps_none { keeps_vote (Some 3) (step.Crash 1) → ⊥ }
    ensures a_node_that_does_not_stop { keeps_vote (Some 3) (step.Tick 1) }
{}
