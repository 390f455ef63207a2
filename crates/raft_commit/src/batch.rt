ghost use Rattle.std.specs.Prelude.{◌≡◌, ◌+◌, ◌≤◌, length};
ghost use Rattle.raft_commit.specs.Peers.{batch};

use raft_types::MAX_BATCH;
use vst_base::Entry;

/// The entries of a leader's log from the index next on, `MAX_BATCH` at most. The log has one at
/// next - 1, or next is 1.
pub fn next_batch<C>(entries: &[Entry<C>], next: u32) -> &[Entry<C>]
    requires from_one { 1 ≤ next }
    requires to_the_end { next ≤ length entries.now + 1 }
    ensures batch { result.now ≡ batch entries.now next }
    ensures few { length result.now ≤ MAX_BATCH }
    ensures within { next + length result.now ≤ length entries.now + 1 }
{
    let rest = &entries[next as usize - 1..];
    &rest[..rest.len().min(MAX_BATCH)]
}
