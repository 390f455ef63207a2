ghost use Rattle.std.specs.Prelude.{◌≡◌, ◌≢◌, ℕ, ◌<◌, length};
ghost use Rattle.handler_trait.specs.Handling.{Meaning, Recovery};
ghost use Rattle.net_semantics.specs.Runs.{IsAllowed};
ghost use Rattle.vst_base.specs.declared.net.Net.{Net};
ghost use Rattle.schedule_make.specs.Made.{Inputs, made};

use vst_base::Net;

/// A made schedule has as many steps as were asked for, and a network whose timers fire allows each of them: whatever the handlers,
/// what nodes keep, the inputs and the number that it is made from. `S` are states, `K` what nodes keep, `I`, `O` and `M` inputs,
/// outputs and messages.
pub fn made_schedules_are_allowed<S: Drop, K: Drop, I: Drop, O: Drop, M: Drop>()
    ensures steps { (net : Net) (m : Meaning S I O M) (r : Recovery S K) (inputs : Inputs I) (seed steps : ℕ)
        → length (made net m r inputs seed steps) ≡ steps }
    ensures allowed { (net : Net) (m : Meaning S I O M) (r : Recovery S K) (inputs : Inputs I) (seed steps : ℕ) → net ≢ Net.One
        → 0 < m.nodes → IsAllowed net m r (made net m r inputs seed steps) }
{}
