ghost use Rattle.std.specs.Prelude.{◌≡◌, ℕ, Option, Err};
ghost use Rattle.vst_base.specs.declared.step.StepRefusal.{StepRefusal};
ghost use Rattle.xform_stack.specs.Running.{IsRunAnswer, IsRunRefusal};

use crate::RunFault;
use net_semantics::StepFault;

/// Why a running schedule took no step at this place, as a fault of the run.
pub fn fault_at(why: StepFault, place: u32) -> RunFault
    ensures told { (first : Option (ℕ × StepRefusal)) → IsRunAnswer {A = Unit {0}} (Err why) place first → IsRunRefusal result first }
    ensures memory { why ≡ StepFault.Memory → result ≡ RunFault.Memory }
{
    match why {
        StepFault::Refused(why) => RunFault::Step(why, place),
        StepFault::Memory => RunFault::Memory,
    }
}
