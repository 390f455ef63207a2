ghost use Rattle.std.specs.Prelude.{◌≡◌, ◌-◌, [], ◌∷◌};
ghost use Rattle.counter.specs.Counter.{counter, greatest};
ghost use Rattle.counter.specs.declared.CounterCmd.TheVariants.{Add, Read};
ghost use Rattle.counter.specs.declared.CounterOut.TheVariants.{Full, Value};
ghost use Rattle.vst_base.specs.Machines.{fold};

/// Runs of commands from the first state on, with what they answer.
pub fn worked()
    ensures first_value { fold counter (Read ∷ []) ≡ Value 0 ∷ [] }
    ensures adds { fold counter (Add 5 ∷ Add 2 ∷ Read ∷ []) ≡ Value 5 ∷ Value 7 ∷ Value 7 ∷ [] }
    ensures reaches_the_greatest { fold counter (Add 1 ∷ Add (greatest - 1) ∷ []) ≡ Value 1 ∷ Value greatest ∷ [] }
    ensures refuses_more { fold counter (Add greatest ∷ Add 1 ∷ Add 0 ∷ []) ≡ Value greatest ∷ Full ∷ Value greatest ∷ [] }
{}
