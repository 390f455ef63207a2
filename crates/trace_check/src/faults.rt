ghost use Rattle.std.specs.Prelude.{◌≡◌};
ghost use Rattle.trace_check.specs.Outcomes.{check_fault};
ghost use Rattle.trace_check.specs.declared.fault.CheckFault.TheVariants.{Memory};

use crate::CheckFault;
use schedule_text::TextFault;
use std::alloc::AllocError;

impl From<AllocError> for CheckFault {
    ghost from_gives = { λ _ fault. fault ≡ Memory };

    fn from(_: AllocError) -> Self {
        CheckFault::Memory
    }
}

// Why a claim was not read, as a fault of a check.
pub(crate) fn check_fault(fault: TextFault) -> CheckFault
    ensures { result ≡ check_fault fault }
{
    match fault {
        TextFault::Read => CheckFault::Read,
        TextFault::Refused { line, why } => CheckFault::Refused { line, why },
        TextFault::Memory => CheckFault::Memory,
    }
}
