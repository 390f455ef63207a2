ghost use Rattle.std.specs.Prelude.{◌≡◌, [], ◌∷◌, true, false};
ghost use Rattle.net_semantics.specs.Runs.{IsAllowed, no_recovery, trace};
ghost use Rattle.lock_server.specs.Examples.{hand_over, copied_hand_over};
ghost use Rattle.lock_server.specs.Exclusion.{Excludes};
ghost use Rattle.lock_server.specs.Locks.{lock_server};

use crate::LockState;
use vst_base::{Item, LockInput, LockMsg, LockOutput, Net};

/// The rules, on a server and two clients.
pub fn worked()
    ensures first_states { ((lock_server 3).init 0 ≡ LockState.Server []) × ((lock_server 3).init 2 ≡ LockState.Client false) }
    ensures lock_asks_the_server { (lock_server 3).input 1 (LockState.Client false) LockInput.Lock ≡ record { state = LockState.Client false; outputs = []; sends = (0, LockMsg.Lock) ∷ [] } }
    ensures unlock_gives_back { (lock_server 3).input 1 (LockState.Client true) LockInput.Unlock ≡ record { state = LockState.Client false; outputs = []; sends = (0, LockMsg.Unlock) ∷ [] } }
    ensures unlock_of_nothing { (lock_server 3).input 1 (LockState.Client false) LockInput.Unlock ≡ record { state = LockState.Client false; outputs = []; sends = [] } }
    ensures locked_is_told { (lock_server 3).message 1 (LockState.Client false) 0 LockMsg.Locked ≡ record { state = LockState.Client true; outputs = LockOutput.Locked ∷ []; sends = [] } }
    ensures first_gets_it { (lock_server 3).message 0 (LockState.Server []) 1 LockMsg.Lock ≡ record { state = LockState.Server (1 ∷ []); outputs = []; sends = (1, LockMsg.Locked) ∷ [] } }
    ensures second_waits { (lock_server 3).message 0 (LockState.Server (1 ∷ [])) 2 LockMsg.Lock ≡ record { state = LockState.Server (1 ∷ 2 ∷ []); outputs = []; sends = [] } }
    ensures next_gets_it { (lock_server 3).message 0 (LockState.Server (1 ∷ 2 ∷ [])) 1 LockMsg.Unlock ≡ record { state = LockState.Server (2 ∷ []); outputs = []; sends = (2, LockMsg.Locked) ∷ [] } }
    ensures nobody_waits { (lock_server 3).message 0 (LockState.Server (2 ∷ [])) 2 LockMsg.Unlock ≡ record { state = LockState.Server []; outputs = []; sends = [] } }
    ensures nothing_to_take_back { (lock_server 3).message 0 (LockState.Server []) 2 LockMsg.Unlock ≡ record { state = LockState.Server []; outputs = []; sends = [] } }
    ensures a_holder_asks_again { (lock_server 3).input 1 (LockState.Client true) LockInput.Lock ≡ record { state = LockState.Client true; outputs = []; sends = (0, LockMsg.Lock) ∷ [] } }
    ensures asked_at_a_client { (lock_server 3).message 1 (LockState.Client true) 2 LockMsg.Lock ≡ record { state = LockState.Client true; outputs = []; sends = [] } }
    ensures given_back_at_a_client { (lock_server 3).message 1 (LockState.Client true) 2 LockMsg.Unlock ≡ record { state = LockState.Client true; outputs = []; sends = [] } }
    ensures handed_at_the_server { (lock_server 3).message 0 (LockState.Server (1 ∷ [])) 2 LockMsg.Locked ≡ record { state = LockState.Server (1 ∷ []); outputs = []; sends = [] } }
    ensures tick_of_a_client { (lock_server 3).timeout 1 (LockState.Client true) ≡ record { state = LockState.Client true; outputs = []; sends = [] } }
    ensures tick { (lock_server 3).timeout 0 (LockState.Server (1 ∷ [])) ≡ record { state = LockState.Server (1 ∷ []); outputs = []; sends = [] } }
{}

/// A run on a bag on which the lock goes from one client to another, what exclusion takes and refuses, and a
/// run on which a copied packet breaks it.
pub fn worked_exclusion()
    ensures allowed { IsAllowed Net.Bag (lock_server 3) no_recovery hand_over }
    ensures handed_over { trace (lock_server 3) no_recovery hand_over ≡ Item.Input 1 LockInput.Lock ∷ Item.Input 2 LockInput.Lock ∷ Item.Output 1 LockOutput.Locked ∷ Item.Input 1 LockInput.Unlock ∷ Item.Output 2 LockOutput.Locked ∷ [] }

    ensures nothing { Excludes [] }
    ensures unlocked_between { Excludes (Item.Output 1 LockOutput.Locked ∷ Item.Input 2 LockInput.Lock ∷ Item.Input 1 LockInput.Unlock ∷ Item.Output 2 LockOutput.Locked ∷ []) }
    ensures no_other_client { Excludes (Item.Output 1 LockOutput.Locked ∷ Item.Output 1 LockOutput.Locked ∷ []) }
    ensures two_in_a_row { ¬ Excludes (Item.Output 1 LockOutput.Locked ∷ Item.Output 2 LockOutput.Locked ∷ []) }
    ensures asked_between { ¬ Excludes (Item.Output 1 LockOutput.Locked ∷ Item.Input 1 LockInput.Lock ∷ Item.Output 2 LockOutput.Locked ∷ []) }
    ensures unlocked_by_another { ¬ Excludes (Item.Output 1 LockOutput.Locked ∷ Item.Input 2 LockInput.Unlock ∷ Item.Output 2 LockOutput.Locked ∷ []) }
    ensures unlocked_before { ¬ Excludes (Item.Input 1 LockInput.Unlock ∷ Item.Output 1 LockOutput.Locked ∷ Item.Output 2 LockOutput.Locked ∷ []) }
    ensures unlocked_after { ¬ Excludes (Item.Output 1 LockOutput.Locked ∷ Item.Output 2 LockOutput.Locked ∷ Item.Input 1 LockInput.Unlock ∷ []) }

    ensures copied_allowed { IsAllowed Net.Dup (lock_server 3) no_recovery copied_hand_over }
    ensures copied_breaks_it { ¬ Excludes (trace (lock_server 3) no_recovery copied_hand_over) }
{}
