ghost use Rattle.std.specs.Prelude.{◌≡◌, ℕ, true, List};
ghost use Rattle.act_disks.specs.NodeStores.{FoundFits};
ghost use Rattle.act_network.specs.Words.{HoldsOfDisks};
ghost use Rattle.disk.specs.Images.{Trail};
ghost use Rattle.node_acts.specs.Stores.{StoreView};
ghost use Rattle.node_body.specs.declared.who.Who.{Who};
ghost use Rattle.node_disks.specs.Names.{IsName, who_in};
ghost use Rattle.node_disks.specs.NodeTrails.{node_disks};
ghost use Rattle.node_disks.specs.TrailDisks.{IsTrail, left_by_word};
ghost use Rattle.raft_types.specs.Messages.{IsClusterSize};

use node_body::Commands;

/// A word leaves of the disk of a node what a crash may leave, at each moment.
pub fn words_leave_images<C: Commands>()
    // Each disk that acts lead to is areas after some acts.
    ensures holds { (who : ℕ → Who) → HoldsOfDisks (node_disks C.stack C.format who) IsTrail }

    // Of such a disk each word leaves what a crash may leave.
    ensures left { (who : ℕ → Who) (disk : StoreView × Trail) (word : ℕ) → IsTrail disk
        → (node_disks C.stack C.format who).may_leave disk (left_by_word disk word) ≡ true }
{}

/// What a node of a cluster finds in a slot of version 1 has bytes of version 2.
pub fn old_slots_have_bytes<C: Commands>()
    ensures { (nodes : ℕ) (name : List ℕ) → IsClusterSize nodes → IsName name → FoundFits C.stack C.format (who_in C.stack nodes name) }
{}
