ghost use Rattle.std.specs.Prelude.{◌≡◌, ◌-◌, ◌≤◌, length, take, drop, option_map, IfNone, IfSome, OnSome};
ghost use Rattle.outside.specs.Counting.{Rose};
ghost use Rattle.node_config.specs.Outcomes.{Took};

use outside::{ReadOutcome, Source};

/// Reads into a buffer to its end, or to the end of the source where that comes first, and answers how many bytes came.
/// `None` comes exactly where a read failed.
pub(crate) fn fill<S: Source>(source: &mut S, buf: &mut [u8]) -> Option<usize>
    ensures count { IfSome result (λ n. n ≤ length buf.old) }
    ensures bytes { IfSome result (λ n. IfSome (S.left source.old) (λ bytes. take n buf.new ≡ take (length buf.old) bytes)) }
    ensures left { OnSome result (S.left source.new ≡ option_map (drop (length buf.old)) (S.left source.old)) }
    ensures quiet { OnSome result (S.faults source.new ≡ S.faults source.old) }
    ensures broken { IfNone result (Took (S.left source.old) (S.left source.new) (length buf.old - 1)) }
    ensures failed { IfNone result (Rose (S.faults source.old) (S.faults source.new)) }
    ensures counts { S.faults source.old ≤ S.faults source.new }
{
    let mut len = 0;
    while len < buf.len() {
        match source.read(&mut buf[len..]) {
            ReadOutcome::Got(0) => return Some(len),
            ReadOutcome::Got(count) => len += count,
            ReadOutcome::Failed => return None,
        }
    }
    Some(len)
}
