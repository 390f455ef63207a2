ghost use Rattle.std.specs.Prelude.{◌≡◌};
ghost use Rattle.schedule_replay.specs.Faults.{replay_fault, write_fault};
ghost use Rattle.schedule_replay.specs.declared.fault.ReplayFault.TheVariants.{Memory};

use crate::ReplayFault;
use schedule_text::{TextFault, WriteFault};
use std::alloc::AllocError;

impl From<AllocError> for ReplayFault {
    ghost from_gives = { λ _ fault. fault ≡ Memory };

    fn from(_: AllocError) -> Self {
        ReplayFault::Memory
    }
}

// A fault of a write as a fault of a replay.
pub(crate) fn write_fault(fault: WriteFault) -> ReplayFault
    ensures { result ≡ write_fault fault }
{
    match fault {
        WriteFault::Write => ReplayFault::Write,
        WriteFault::Memory => ReplayFault::Memory,
    }
}

// Why a header was not read, as a fault of a replay.
pub(crate) fn replay_fault(fault: TextFault) -> ReplayFault
    ensures { result ≡ replay_fault fault }
{
    match fault {
        TextFault::Read => ReplayFault::Read,
        TextFault::Refused { line, why } => ReplayFault::Refused { line, why },
        TextFault::Memory => ReplayFault::Memory,
    }
}
