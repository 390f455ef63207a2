ghost use Rattle.std.specs.Prelude.{◌≡◌, [], ◌∷◌, None, Some};
ghost use Rattle.net_semantics.specs.Runs.{first_refused, no_recovery, trace};
ghost use Rattle.mirror.specs.Mirroring.{mirror};
ghost use Rattle.mirror.specs.Prefix.{Mirrors, put_at, said_from};

use vst_base::{Item, MirrorInput, MirrorMsg, MirrorOutput, Net, Step, StepRefusal};

/// What each event of the mirror does; a run on a network of FIFO channels, and one that such a network refuses.
#[rattlefmt::skip]
pub fn worked()
    ensures put_goes_to_the_mirror { (mirror 3).input 1 tt (MirrorInput.Put (97 ∷ [])) ≡ record { state = tt; outputs = []; sends = (0, MirrorMsg.Item (97 ∷ [])) ∷ [] } }
    ensures said_with_the_sender { (mirror 3).message 0 tt 2 (MirrorMsg.Item (97 ∷ [])) ≡ record { state = tt; outputs = MirrorOutput.From 2 (97 ∷ []) ∷ []; sends = [] } }
    ensures not_elsewhere { (mirror 3).message 1 tt 2 (MirrorMsg.Item (97 ∷ [])) ≡ record { state = tt; outputs = []; sends = [] } }
    ensures timers_do_nothing { (mirror 3).timeout 0 tt ≡ record { state = tt; outputs = []; sends = [] } }
    ensures first_of_two { trace (mirror 2) no_recovery (Step.In 1 (MirrorInput.Put (97 ∷ [])) ∷ Step.In 1 (MirrorInput.Put (98 ∷ [])) ∷ Step.Deliver 0 ∷ [])
        ≡ Item.Input 1 (MirrorInput.Put (97 ∷ [])) ∷ Item.Input 1 (MirrorInput.Put (98 ∷ [])) ∷ Item.Output 0 (MirrorOutput.From 1 (97 ∷ [])) ∷ [] }
    ensures both_of_two { trace (mirror 2) no_recovery (Step.In 1 (MirrorInput.Put (97 ∷ [])) ∷ Step.In 1 (MirrorInput.Put (98 ∷ [])) ∷ Step.Deliver 0 ∷ Step.Deliver 1 ∷ [])
        ≡ Item.Input 1 (MirrorInput.Put (97 ∷ [])) ∷ Item.Input 1 (MirrorInput.Put (98 ∷ [])) ∷ Item.Output 0 (MirrorOutput.From 1 (97 ∷ [])) ∷ Item.Output 0 (MirrorOutput.From 1 (98 ∷ [])) ∷ [] }
    ensures second_before_first { first_refused Net.Ord (mirror 2) no_recovery (Step.In 1 (MirrorInput.Put (97 ∷ [])) ∷ Step.In 1 (MirrorInput.Put (98 ∷ [])) ∷ Step.Deliver 1 ∷ []) ≡ Some (2, StepRefusal.NotFirst) }
    ensures no_input_at_the_mirror { first_refused Net.Ord (mirror 2) no_recovery (Step.In 0 (MirrorInput.Put (97 ∷ [])) ∷ []) ≡ Some (0, StepRefusal.NoInputHere) }
    ensures put_there { put_at 1 (Item.Input 1 (MirrorInput.Put (97 ∷ [])) ∷ Item.Input 2 (MirrorInput.Put (98 ∷ [])) ∷ Item.Output 0 (MirrorOutput.From 2 (98 ∷ [])) ∷ []) ≡ (97 ∷ []) ∷ [] }
    ensures said_of_it { said_from 2 (Item.Input 1 (MirrorInput.Put (97 ∷ [])) ∷ Item.Output 0 (MirrorOutput.From 2 (98 ∷ [])) ∷ Item.Output 0 (MirrorOutput.From 1 (97 ∷ [])) ∷ []) ≡ (98 ∷ []) ∷ [] }
    ensures said_elsewhere { said_from 2 (Item.Output 1 (MirrorOutput.From 2 (98 ∷ [])) ∷ []) ≡ [] }
{}

/// Traces that the mirror may have, and such that it may not have.
#[rattlefmt::skip]
pub fn worked_traces()
    ensures first_said { Mirrors (Item.Input 1 (MirrorInput.Put (0 ∷ [])) ∷ Item.Input 1 (MirrorInput.Put (1 ∷ [])) ∷ Item.Output 0 (MirrorOutput.From 1 (0 ∷ [])) ∷ []) }
    ensures two_senders { Mirrors (Item.Input 1 (MirrorInput.Put (0 ∷ [])) ∷ Item.Input 2 (MirrorInput.Put (1 ∷ [])) ∷ Item.Output 0 (MirrorOutput.From 2 (1 ∷ [])) ∷ Item.Input 1 (MirrorInput.Put (2 ∷ [])) ∷ Item.Output 0 (MirrorOutput.From 1 (0 ∷ [])) ∷ []) }
    ensures swapped { Mirrors (Item.Input 1 (MirrorInput.Put (0 ∷ [])) ∷ Item.Input 1 (MirrorInput.Put (1 ∷ [])) ∷ Item.Output 0 (MirrorOutput.From 1 (1 ∷ [])) ∷ Item.Output 0 (MirrorOutput.From 1 (0 ∷ [])) ∷ []) → ⊥ }
    ensures second_alone { Mirrors (Item.Input 1 (MirrorInput.Put (0 ∷ [])) ∷ Item.Input 1 (MirrorInput.Put (1 ∷ [])) ∷ Item.Output 0 (MirrorOutput.From 1 (1 ∷ [])) ∷ []) → ⊥ }
    ensures said_twice { Mirrors (Item.Input 1 (MirrorInput.Put (0 ∷ [])) ∷ Item.Output 0 (MirrorOutput.From 1 (0 ∷ [])) ∷ Item.Output 0 (MirrorOutput.From 1 (0 ∷ [])) ∷ []) → ⊥ }
    ensures of_another_sender { Mirrors (Item.Input 1 (MirrorInput.Put (0 ∷ [])) ∷ Item.Output 0 (MirrorOutput.From 2 (0 ∷ [])) ∷ []) → ⊥ }
    ensures never_put { Mirrors (Item.Input 1 (MirrorInput.Put (0 ∷ [])) ∷ Item.Output 0 (MirrorOutput.From 1 (1 ∷ [])) ∷ []) → ⊥ }
{}
