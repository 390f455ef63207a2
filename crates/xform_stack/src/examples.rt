ghost use Rattle.std.specs.Prelude.{Err, None, Ok, Some};
ghost use Rattle.net_semantics.specs.declared.fault.StepFault.TheVariants as fault;
ghost use Rattle.xform_stack.specs.Running.{IsRunAnswer, IsRunRefusal};

use crate::RunFault;
use vst_base::StepRefusal;

/// What a fault says of the first refused step of a schedule, by its place and its cause, and what an answer to one step after two
/// others says of the first refusal of all three. Want of memory comes where none is refused, and as a fault of a whole schedule
/// it says nothing of the rest of it.
pub fn worked_faults()
    ensures named { IsRunRefusal (RunFault.Step StepRefusal.NoCopy 2) (Some (2, StepRefusal.NoCopy)) }
    ensures at_another_place { IsRunRefusal (RunFault.Step StepRefusal.NoCopy 1) (Some (2, StepRefusal.NoCopy)) → ⊥ }
    ensures for_another_cause { IsRunRefusal (RunFault.Step StepRefusal.NodeDown 2) (Some (2, StepRefusal.NoCopy)) → ⊥ }
    ensures of_an_allowed_schedule { IsRunRefusal (RunFault.Step StepRefusal.NoCopy 2) None → ⊥ }
    ensures wanted { IsRunRefusal RunFault.Memory (Some (2, StepRefusal.NoCopy)) }
    ensures answered { IsRunAnswer {A = Unit {0}} (Err (fault.Refused StepRefusal.NoCopy)) 2 (Some (2, StepRefusal.NoCopy)) }
    ensures answered_at_another_place { IsRunAnswer {A = Unit {0}} (Err (fault.Refused StepRefusal.NoCopy)) 1
        (Some (2, StepRefusal.NoCopy)) → ⊥ }
    ensures answered_for_another_cause { IsRunAnswer {A = Unit {0}} (Err (fault.Refused StepRefusal.NodeDown)) 2
        (Some (2, StepRefusal.NoCopy)) → ⊥ }
    ensures answered_though_allowed { IsRunAnswer {A = Unit {0}} (Err (fault.Refused StepRefusal.NoCopy)) 2 None → ⊥ }
    ensures taken { IsRunAnswer {A = Unit {0}} (Ok tt) 2 None }
    ensures taken_though_refused { IsRunAnswer {A = Unit {0}} (Ok tt) 2 (Some (2, StepRefusal.NoCopy)) → ⊥ }
    ensures wanted_though_allowed { IsRunAnswer {A = Unit {0}} (Err fault.Memory) 2 None }
    ensures wanted_though_refused { IsRunAnswer {A = Unit {0}} (Err fault.Memory) 2 (Some (2, StepRefusal.NoCopy)) → ⊥ }
{}
