ghost use Rattle.std.specs.Prelude.{◌≡◌, ◌≢◌, ◌≤◌, ℕ, Err, IfOk, IfSome};
ghost use Rattle.line_reader.specs.declared.why.Why.{Why};
ghost use Rattle.outside.specs.Counting.{Rose};

use outside::{ReadOutcome, Source};
use schedule_replay::ReplayFault;
use std::alloc::Global;

/// Reads a source to its end.
pub(crate) fn read_whole<S: Source>(alloc: Global, source: &mut S) -> Result<Vec<u8>, ReplayFault>
    ensures whole { IfOk result (λ bytes. IfSome (S.left source.old) (λ left. left ≡ bytes.items)) }
    ensures failed { result ≡ Err ReplayFault.Read → Rose (S.faults source.old) (S.faults source.new) }
    ensures quiet { result ≢ Err ReplayFault.Read → S.faults source.new ≡ S.faults source.old }
    ensures counts { S.faults source.old ≤ S.faults source.new }
    ensures unwritten { result ≢ Err ReplayFault.Write }
    ensures unrefused { (line : ℕ) (why : Why) → result ≢ Err (ReplayFault.Refused line why) }
{
    let mut bytes = Vec::new(alloc);
    let mut piece = [0; 4096];
    for _ in 0..u64::MAX {
        match source.read(&mut piece) {
            ReadOutcome::Got(0) => return Ok(bytes),
            ReadOutcome::Got(count) => bytes.extend_from_slice(&piece[..count])?,
            ReadOutcome::Failed => return Err(ReplayFault::Read),
        }
    }
    // No memory holds so many pieces.
    Err(ReplayFault::Memory)
}
