ghost use Rattle.std.specs.Prelude.{◌≡◌, ℕ, [], ◌∷◌, true, false, None};
ghost use Rattle.std.specs.FinSet as set;
ghost use Rattle.handler_trait.specs.Echo.{echo};
ghost use Rattle.net_semantics.specs.Runs.{first_refused, no_recovery, trace};
ghost use Rattle.seqnum_xform.specs.Numbering.{Numbered, has_seen, seen_of, with_seen, numbered_from, sequence_numbered};

use vst_base::{Item, Net, SeqMsg, Step};

/// Numbers, and which were seen, on a few senders; and runs of three nodes whose packets are numbered.
pub fn worked()
    ensures none_seen { has_seen [] 1 0 ≡ false }
    ensures seen { has_seen (with_seen [] 1 0) 1 0 ≡ true }
    ensures other_number { has_seen (with_seen [] 1 0) 1 1 ≡ false }
    ensures earlier_number { has_seen (with_seen [] 1 1) 1 0 ≡ false }
    ensures other_sender { has_seen (with_seen [] 1 0) 0 0 ≡ false }
    ensures later_sender { has_seen (with_seen [] 1 0) 2 0 ≡ false }
    ensures both { has_seen (with_seen (with_seen [] 1 0) 2 0) 1 0 ≡ true }
    ensures of_none { seen_of [] 1 ≡ set.empty }
    ensures of_itself { seen_of (with_seen (with_seen [] 1 1) 2 0) 1 ≡ set.insert set.empty 1 }
    ensures of_another { seen_of (with_seen [] 1 1) 0 ≡ set.empty }
    ensures of_a_later { seen_of (with_seen [] 1 1) 2 ≡ set.empty }
    ensures consecutive { numbered_from {M = ℕ} 4 ((0, 9) ∷ (2, 9) ∷ []) ≡ (0, record { number = 4; inner = 9 }) ∷ (2, record { number = 5; inner = 9 }) ∷ [] }
    ensures copies_do_nothing { trace (sequence_numbered (echo 3)) (no_recovery {S = Numbered ℕ}) (Step.In 1 5 ∷ Step.Dup 0 ∷ Step.Deliver 0 ∷ Step.Deliver 0 ∷ [])
        ≡ Item.Input 1 5 ∷ Item.Output 1 5 ∷ Item.Output 0 5 ∷ [] }
    ensures in_any_order { trace (sequence_numbered (echo 3)) (no_recovery {S = Numbered ℕ}) (Step.In 1 5 ∷ Step.In 1 7 ∷ Step.Deliver 1 ∷ Step.Deliver 0 ∷ [])
        ≡ Item.Input 1 5 ∷ Item.Output 1 5 ∷ Item.Input 1 7 ∷ Item.Output 1 7 ∷ Item.Output 0 7 ∷ Item.Output 0 5 ∷ [] }
    ensures equal_numbers { trace (sequence_numbered (echo 3)) (no_recovery {S = Numbered ℕ}) (Step.In 1 5 ∷ Step.In 2 7 ∷ Step.Deliver 0 ∷ Step.Deliver 1 ∷ [])
        ≡ Item.Input 1 5 ∷ Item.Output 1 5 ∷ Item.Input 2 7 ∷ Item.Output 2 7 ∷ Item.Output 0 5 ∷ Item.Output 0 7 ∷ [] }
    ensures allowed { first_refused Net.Dup (sequence_numbered (echo 3)) (no_recovery {S = Numbered ℕ}) (Step.In 1 5 ∷ Step.Dup 0 ∷ Step.Deliver 0 ∷ Step.Deliver 0 ∷ []) ≡ None }
{}
