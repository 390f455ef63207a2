ghost use Rattle.std.specs.Prelude.{◌≡◌, ℕ, true, false, [], ◌∷◌, Some, None};
ghost use Rattle.std.specs.FinMap as map;
ghost use Rattle.handler_trait.specs.Echo.{echo};
ghost use Rattle.net_semantics.specs.Runs.{first_refused, no_recovery, trace};
ghost use Rattle.fifo_xform.specs.Image.{fifo_image, goes_with, sent_with};
ghost use Rattle.fifo_xform.specs.Fifo.{FifoState, counted, fifo, numbered_by};
ghost use Rattle.fifo_xform.specs.Peers.{holding, holds, is_early, new_peer, passing, peer_of, ready};

use vst_base::{Item, Net, SeqMsg, Step, StepRefusal};

/// Numbers by destination, and what is ready of a few senders.
#[rattlefmt::skip]
pub fn worked_numbers()
    ensures by_destination { numbered_by {M = ℕ} [] ((0, 9) ∷ (2, 8) ∷ (0, 7) ∷ []) ≡ (0, record { number = 0; inner = 9 }) ∷ (2, record { number = 0; inner = 8 }) ∷ (0, record { number = 1; inner = 7 }) ∷ [] }
    ensures next_of_two { (peer_of (counted {M = ℕ} [] ((0, 9) ∷ (2, 8) ∷ (0, 7) ∷ [])) 0).next ≡ 2 }
    ensures next_of_none { (peer_of (counted {M = ℕ} [] ((0, 9) ∷ (2, 8) ∷ (0, 7) ∷ [])) 1).next ≡ 0 }
    ensures nothing_ready { ready {M = ℕ} 3 [] ≡ None }
    ensures early_is_not_ready { ready {M = ℕ} 3 (holding [] 1 1 9) ≡ None }
    ensures ready_once_passed { ready {M = ℕ} 3 (passing (holding [] 1 1 9) 1) ≡ Some (1, 9) }
    ensures not_of_another_sender { ready {M = ℕ} 3 (passing (holding [] 1 1 9) 2) ≡ None }
    ensures least_sender { ready {M = ℕ} 3 (passing (passing (holding (holding [] 2 1 8) 1 1 9) 1) 2) ≡ Some (1, 9) }
{}

/// Which numbers are early, and what becomes of a held one.
#[rattlefmt::skip]
pub fn worked_held()
    ensures expected_is_not_early { is_early {M = ℕ} new_peer 0 ≡ false }
    ensures above_is_early { is_early {M = ℕ} new_peer 1 ≡ true }
    ensures held_once { is_early {M = ℕ} (holds new_peer 1 9) 1 ≡ false }
    ensures beside_a_held_one { is_early {M = ℕ} (holds new_peer 1 9) 2 ≡ true }
    ensures passed_is_dropped { map.get (peer_of (passing (holding {M = ℕ} [] 1 0 9) 1) 1).held 0 ≡ None }
    ensures another_stays { map.get (peer_of (passing (holding {M = ℕ} [] 1 1 9) 1) 1).held 1 ≡ Some 9 }
{}

/// The packet that went from one node to another with a number.
#[rattlefmt::skip]
pub fn worked_packets()
    ensures goes { goes_with {M = ℕ} 1 0 3 (record { source = 1; destination = 0; content = record { number = 3; inner = 5 }; copies = 1 }) ≡ true }
    ensures goes_without_a_copy_in_flight { goes_with {M = ℕ} 1 0 3 (record { source = 1; destination = 0; content = record { number = 3; inner = 5 }; copies = 0 }) ≡ true }
    ensures from_another { goes_with {M = ℕ} 2 0 3 (record { source = 1; destination = 0; content = record { number = 3; inner = 5 }; copies = 1 }) ≡ false }
    ensures to_another { goes_with {M = ℕ} 1 2 3 (record { source = 1; destination = 0; content = record { number = 3; inner = 5 }; copies = 1 }) ≡ false }
    ensures of_another_number { goes_with {M = ℕ} 1 0 4 (record { source = 1; destination = 0; content = record { number = 3; inner = 5 }; copies = 1 }) ≡ false }
    ensures sent_second { sent_with {M = ℕ} 1 0 3 (record { source = 2; destination = 0; content = record { number = 3; inner = 5 }; copies = 1 } ∷ record { source = 1; destination = 0; content = record { number = 3; inner = 5 }; copies = 1 } ∷ []) ≡ Some 1 }
    ensures never_sent { sent_with {M = ℕ} 1 0 3 (record { source = 2; destination = 0; content = record { number = 3; inner = 5 }; copies = 1 } ∷ record { source = 1; destination = 2; content = record { number = 3; inner = 5 }; copies = 1 } ∷ record { source = 1; destination = 0; content = record { number = 4; inner = 5 }; copies = 1 } ∷ []) ≡ None }
{}

/// Runs of three nodes whose messages come in order, and their images.
#[rattlefmt::skip]
pub fn worked_runs()
    ensures early_waits_for_a_tick { trace (fifo (echo 3)) (no_recovery {S = FifoState ℕ ℕ}) (Step.In 1 5 ∷ Step.In 1 7 ∷ Step.Deliver 1 ∷ Step.Deliver 0 ∷ Step.Tick 0 ∷ [])
        ≡ Item.Input 1 5 ∷ Item.Output 1 5 ∷ Item.Input 1 7 ∷ Item.Output 1 7 ∷ Item.Output 0 5 ∷ Item.Output 0 7 ∷ [] }
    ensures schedule_is_allowed { first_refused Net.Dup (fifo (echo 3)) (no_recovery {S = FifoState ℕ ℕ}) (Step.In 1 5 ∷ Step.In 1 7 ∷ Step.Deliver 1 ∷ Step.Deliver 0 ∷ Step.Tick 0 ∷ []) ≡ None }
    ensures its_image { fifo_image (echo 3) (Step.In 1 5 ∷ Step.In 1 7 ∷ Step.Deliver 1 ∷ Step.Deliver 0 ∷ Step.Tick 0 ∷ [])
        ≡ Step.In 1 5 ∷ Step.In 1 7 ∷ Step.Deliver 0 ∷ Step.Deliver 1 ∷ [] }
    ensures copies_do_nothing { trace (fifo (echo 3)) (no_recovery {S = FifoState ℕ ℕ}) (Step.In 1 5 ∷ Step.Dup 0 ∷ Step.Deliver 0 ∷ Step.Deliver 0 ∷ [])
        ≡ Item.Input 1 5 ∷ Item.Output 1 5 ∷ Item.Output 0 5 ∷ [] }
    ensures copies_are_left_out { fifo_image (echo 3) (Step.In 1 5 ∷ Step.Dup 0 ∷ Step.Deliver 0 ∷ Step.Deliver 0 ∷ [])
        ≡ Step.In 1 5 ∷ Step.Deliver 0 ∷ [] }
    ensures second_tick_is_the_timer { fifo_image (echo 3) (Step.In 1 5 ∷ Step.In 1 7 ∷ Step.Deliver 1 ∷ Step.Deliver 0 ∷ Step.Tick 0 ∷ Step.Tick 0 ∷ [])
        ≡ Step.In 1 5 ∷ Step.In 1 7 ∷ Step.Deliver 0 ∷ Step.Deliver 1 ∷ Step.Tick 0 ∷ [] }
    ensures held_copy_gives_way { fifo_image (echo 3) (Step.In 1 5 ∷ Step.In 1 7 ∷ Step.Dup 1 ∷ Step.Deliver 1 ∷ Step.Deliver 0 ∷ Step.Deliver 1 ∷ Step.Tick 0 ∷ [])
        ≡ Step.In 1 5 ∷ Step.In 1 7 ∷ Step.Deliver 0 ∷ Step.Deliver 1 ∷ Step.Tick 0 ∷ [] }
    ensures of_its_destination { fifo_image (echo 3) (Step.Tick 1 ∷ Step.Tick 1 ∷ Step.In 1 5 ∷ Step.In 1 7 ∷ Step.Deliver 3 ∷ Step.Deliver 2 ∷ Step.Tick 0 ∷ [])
        ≡ Step.Tick 1 ∷ Step.Tick 1 ∷ Step.In 1 5 ∷ Step.In 1 7 ∷ Step.Deliver 2 ∷ Step.Deliver 3 ∷ [] }
    ensures of_its_source { fifo_image (echo 3) (Step.In 2 8 ∷ Step.In 2 9 ∷ Step.In 1 5 ∷ Step.In 1 7 ∷ Step.Deliver 3 ∷ Step.Deliver 2 ∷ Step.Tick 0 ∷ [])
        ≡ Step.In 2 8 ∷ Step.In 2 9 ∷ Step.In 1 5 ∷ Step.In 1 7 ∷ Step.Deliver 2 ∷ Step.Deliver 3 ∷ [] }
    ensures senders_are_apart { fifo_image (echo 3) (Step.In 1 5 ∷ Step.In 2 7 ∷ Step.Deliver 1 ∷ Step.Deliver 0 ∷ [])
        ≡ Step.In 1 5 ∷ Step.In 2 7 ∷ Step.Deliver 1 ∷ Step.Deliver 0 ∷ [] }
    ensures image_is_allowed { first_refused Net.Ord (echo 3) (no_recovery {S = ℕ}) (Step.In 1 5 ∷ Step.In 1 7 ∷ Step.Deliver 0 ∷ Step.Deliver 1 ∷ []) ≡ None }
    ensures schedule_is_not { first_refused Net.Ord (echo 3) (no_recovery {S = ℕ}) (Step.In 1 5 ∷ Step.In 1 7 ∷ Step.Deliver 1 ∷ Step.Deliver 0 ∷ []) ≡ Some (2, StepRefusal.NotFirst) }
{}
