ghost use Rattle.std.specs.Prelude.{ℕ, List};
ghost use Rattle.net_semantics.specs.Runs.{IsAllowed, no_recovery, trace};
ghost use Rattle.lock_server.specs.Exclusion.{Excludes};
ghost use Rattle.lock_server.specs.Locks.{lock_server};

use vst_base::{LockInput, Net, Step};

/// On each run that a bag allows, with any number of nodes: after `locked` at a client no `locked` comes
/// at another before an `unlock` input at the first.
pub fn excludes()
    ensures { (nodes : ℕ) (ss : List (Step LockInput)) → IsAllowed Net.Bag (lock_server nodes) no_recovery ss
        → Excludes (trace (lock_server nodes) no_recovery ss) }
{}
