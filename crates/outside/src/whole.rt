ghost use Rattle.std.specs.Prelude.{◌≡◌, ◌≤◌, OnOk, OnErr, IsErrOf};
ghost use Rattle.outside.specs.Counting.{Rose};
ghost use Rattle.outside.specs.Wholes.{Gained, GainedPrefix};

use crate::{Sink, WriteOutcome};

/// Why bytes were not all written.
#[derive(Clone, Copy, Debug, PartialEq, Eq)]
pub enum WriteFault {
    /// A write failed.
    Failed,
    /// A write answered want of memory.
    Memory,
}

/// Writes all the bytes, in as many writes as it takes. At an `Err` a front of them was written. At `Ok` no write failed
/// or wanted memory, at `Failed` none wanted memory, and at `Memory` none failed.
pub fn write_all<K: Sink>(sink: &mut K, bytes: &[u8]) -> Result<(), WriteFault>
    ensures ok { OnOk result (Gained (K.written sink.old) (K.written sink.new) bytes.now) }
    ensures err { OnErr result (GainedPrefix (K.written sink.old) (K.written sink.new) bytes.now) }
    ensures failed { IsErrOf result WriteFault.Failed → Rose (K.faults sink.old) (K.faults sink.new)
        × (K.wants sink.new ≡ K.wants sink.old) }
    ensures memory { IsErrOf result WriteFault.Memory → (K.faults sink.new ≡ K.faults sink.old)
        × Rose (K.wants sink.old) (K.wants sink.new) }
    ensures quiet { OnOk result ((K.faults sink.new ≡ K.faults sink.old) × (K.wants sink.new ≡ K.wants sink.old)) }
    ensures counts { K.faults sink.old ≤ K.faults sink.new }
    ensures wants { K.wants sink.old ≤ K.wants sink.new }
{
    let mut rest = bytes;
    while !rest.is_empty() {
        match sink.write(rest) {
            WriteOutcome::Took(n) => (_, rest) = rest.split_at(n),
            WriteOutcome::Failed => return Err(WriteFault::Failed),
            WriteOutcome::Memory => return Err(WriteFault::Memory),
        }
    }
    Ok(())
}
