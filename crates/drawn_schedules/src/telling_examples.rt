ghost use Rattle.std.specs.Prelude.{◌≡◌, [], ◌∷◌, true, false};
ghost use Rattle.handler_trait.specs.Echo.{echo};
ghost use Rattle.handler_trait.specs.Examples.{effect};
ghost use Rattle.net_semantics.specs.Runs.{IsAllowed, no_recovery, trace};
ghost use Rattle.lock_server.specs.Locks.{lock_server};
ghost use Rattle.drawn_schedules.specs.Telling.{telling, told};

use lock_server::LockState;
use vst_base::{Item, LockInput, LockMsg, LockOutput, Net, Step};

/// Effects that are told, and handlers that tell: all that is put out is one output, be it nothing, and nothing else is changed.
pub fn worked_telling()
    ensures two_outputs_as_one { told (effect 7 (4 ∷ 5 ∷ []) ((0, 6) ∷ (2, 8) ∷ []))
        ≡ record { state = 7; outputs = (4 ∷ 5 ∷ []) ∷ []; sends = (0, 6) ∷ (2, 8) ∷ [] } }
    ensures not_one_by_one { ¬ (told (effect 7 (4 ∷ 5 ∷ []) []) ≡ record { state = 7; outputs = (4 ∷ []) ∷ (5 ∷ []) ∷ []; sends = [] }) }
    ensures not_the_last_first { ¬ (told (effect 7 (4 ∷ 5 ∷ []) []) ≡ record { state = 7; outputs = (5 ∷ 4 ∷ []) ∷ []; sends = [] }) }
    ensures no_output_is_told { told (effect 7 [] []) ≡ record { state = 7; outputs = [] ∷ []; sends = [] } }
    ensures not_in_silence { ¬ (told (effect 7 [] []) ≡ record { state = 7; outputs = []; sends = [] }) }
    ensures no_packet_is_kept_back { ¬ (told (effect 7 (5 ∷ []) ((0, 6) ∷ []))
        ≡ record { state = 7; outputs = (5 ∷ []) ∷ []; sends = [] }) }
    ensures no_other_state { ¬ (told (effect 7 (5 ∷ []) []) ≡ record { state = 0; outputs = (5 ∷ []) ∷ []; sends = [] }) }

    ensures an_input { (telling (echo 3)).input 1 7 5 ≡ record { state = 7; outputs = (5 ∷ []) ∷ []; sends = (0, 5) ∷ [] } }
    ensures a_message { (telling (echo 3)).message 0 7 2 5 ≡ record { state = 205; outputs = (5 ∷ []) ∷ []; sends = [] } }
    ensures a_message_of_another_node { ¬ ((telling (echo 3)).message 0 7 1 5 ≡ (telling (echo 3)).message 0 7 2 5) }
    ensures a_tick { (telling (echo 3)).timeout 2 7 ≡ record { state = 40; outputs = (40 ∷ []) ∷ []; sends = (2, 9) ∷ [] } }
    ensures the_same_nodes { ((telling (echo 3)).nodes ≡ 3) × ((telling (echo 3)).init 2 ≡ 2) }
    ensures the_same_inputs { ((telling (echo 3)).takes_input 0 ≡ false) × ((telling (echo 3)).takes_input 2 ≡ true) }
    ensures the_server_hands_out { (telling (lock_server 3)).message 0 (LockState.Server []) 2 LockMsg.Lock
        ≡ record { state = LockState.Server (2 ∷ []); outputs = [] ∷ []; sends = (2, LockMsg.Locked) ∷ [] } }
    ensures a_client_is_told { (telling (lock_server 3)).message 2 (LockState.Client false) 0 LockMsg.Locked
        ≡ record { state = LockState.Client true; outputs = (LockOutput.Locked ∷ []) ∷ []; sends = [] } }
{}

/// A run of a lock whose handlers tell: the network allows the same steps, and each event is told, also where nothing is put out.
pub fn worked_runs()
    ensures allowed { IsAllowed Net.Bag (telling (lock_server 2)) no_recovery
        (Step.In 1 LockInput.Lock ∷ Step.Deliver 0 ∷ Step.Deliver 1 ∷ []) }
    ensures no_copy_more { ¬ IsAllowed Net.Bag (telling (lock_server 2)) no_recovery
        (Step.In 1 LockInput.Lock ∷ Step.Deliver 0 ∷ Step.Deliver 0 ∷ []) }
    ensures each_event_told { trace (telling (lock_server 2)) no_recovery (Step.In 1 LockInput.Lock ∷ Step.Deliver 0 ∷ Step.Deliver 1 ∷ [])
        ≡ Item.Input 1 LockInput.Lock ∷ Item.Output 1 [] ∷ Item.Output 0 [] ∷ Item.Output 1 (LockOutput.Locked ∷ []) ∷ [] }
    ensures not_in_silence { ¬ (trace (telling (lock_server 2)) no_recovery
        (Step.In 1 LockInput.Lock ∷ Step.Deliver 0 ∷ Step.Deliver 1 ∷ [])
        ≡ Item.Input 1 LockInput.Lock ∷ Item.Output 1 (LockOutput.Locked ∷ []) ∷ []) }
    ensures not_by_another_node { ¬ (trace (telling (lock_server 2)) no_recovery (Step.In 1 LockInput.Lock ∷ Step.Deliver 0 ∷ [])
        ≡ Item.Input 1 LockInput.Lock ∷ Item.Output 1 [] ∷ Item.Output 1 [] ∷ []) }
{}
