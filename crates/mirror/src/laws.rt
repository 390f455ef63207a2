ghost use Rattle.std.specs.Prelude.{ℕ, List};
ghost use Rattle.net_semantics.specs.Runs.{IsAllowed, no_recovery, trace};
ghost use Rattle.mirror.specs.Mirroring.{mirror};
ghost use Rattle.mirror.specs.Prefix.{Mirrors};
ghost use Rattle.vst_base.specs.declared.mirror.MirrorInput.{MirrorInput};
ghost use Rattle.vst_base.specs.declared.step.Step.{Step};

use vst_base::Net;

/// On each run of a network of FIFO channels, with any number of nodes: the values of which node 0 says that they
/// came from a node are a prefix of those that were put there.
pub fn said_is_a_prefix()
    ensures { (nodes : ℕ) (ss : List (Step MirrorInput)) → IsAllowed Net.Ord (mirror nodes) no_recovery ss
        → Mirrors (trace (mirror nodes) no_recovery ss) }
{}
