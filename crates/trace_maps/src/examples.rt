ghost use Rattle.std.specs.Prelude.{◌≡◌, ℕ, [], ◌∷◌, Some};
ghost use Rattle.net_semantics.specs.Echo.{adder};
ghost use Rattle.net_semantics.specs.Runs.{first_refused, no_recovery, trace};
ghost use Rattle.trace_maps.specs.SingleNode.{commands, single_node};

use vst_base::{Item, Net, Step, StepRefusal};

/// A machine that answers with the sum of the commands before, at its node and on its network.
pub fn worked()
    ensures answers_at_once { (single_node adder).input 0 3 4 ≡ record { state = 7; outputs = 3 ∷ []; sends = [] } }
    ensures tick { (single_node adder).timeout 0 3 ≡ record { state = 3; outputs = []; sends = [] } }
    ensures commands_in_order { commands {C = ℕ} (Step.In 0 3 ∷ Step.Tick 0 ∷ Step.In 0 4 ∷ []) ≡ 3 ∷ 4 ∷ [] }
    ensures its_trace { trace (single_node adder) (no_recovery {S = ℕ}) (Step.In 0 3 ∷ Step.In 0 4 ∷ []) ≡ Item.Input 0 3 ∷ Item.Output 0 0 ∷ Item.Input 0 4 ∷ Item.Output 0 3 ∷ [] }
    ensures one_node { first_refused Net.One (single_node adder) (no_recovery {S = ℕ}) (Step.In 1 3 ∷ []) ≡ Some (0, StepRefusal.NoSuchNode) }
    ensures no_ticks { first_refused Net.One (single_node adder) (no_recovery {S = ℕ}) (Step.In 0 3 ∷ Step.Tick 0 ∷ []) ≡ Some (1, StepRefusal.NotThisNet) }
{}
