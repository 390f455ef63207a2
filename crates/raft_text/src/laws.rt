ghost use Rattle.std.specs.Prelude.{◌≡◌, ℕ};
ghost use Rattle.raft_types.specs.Messages.{IsClusterSize};
ghost use Rattle.schedule_text.specs.Headers.{IsHeader};
ghost use Rattle.schedule_text.specs.declared.header.Header.{Header};
ghost use Rattle.vst_base.specs.Stacks.{row_of};

use schedule_text::headers_follow_the_rows;
use vst_base::{Net, StackId};

/// The headers of a network on which nodes stop name a number of nodes that a cluster may have, and each such number has its header
/// of each stack on such a network.
pub fn headers_give_cluster_sizes()
    ensures size { (h : Header) → IsHeader h → h.net ≡ Net.Fail → IsClusterSize h.nodes }
    ensures net { (h : Header) → IsHeader h → h.net ≡ (row_of h.stack).net }
    ensures every { (i : StackId) (n : ℕ) → (row_of i).net ≡ Net.Fail → IsClusterSize n
        → IsHeader (record { net = Net.Fail; stack = i; nodes = n }) }
{
    headers_follow_the_rows();
}
