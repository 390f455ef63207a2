ghost use Rattle.std.specs.Prelude.{ℕ, List};
ghost use Rattle.lock_server.specs.Exclusion.{Excludes};
ghost use Rattle.lock_server.specs.Locks.{lock_server};
ghost use Rattle.net_semantics.specs.Runs.{IsAllowed, no_recovery, trace};
ghost use Rattle.seqnum_xform.specs.Numbering.{sequence_numbered};
ghost use Rattle.vst_base.specs.declared.step.Step.{Step};

use lock_server::{LockServer, excludes};
use seqnum_xform::repeats_do_nothing;
use vst_base::{LockInput, Net};

/// With numbered packets, the lock server excludes on every run of a network that copies packets: after `locked` at a client
/// no `locked` comes at another before the first gives an `unlock`.
pub fn numbered_lock_excludes()
    ensures { (nodes : ℕ) (ss : List (Step LockInput)) → IsAllowed Net.Dup (sequence_numbered (lock_server nodes)) no_recovery ss
        → Excludes (trace (sequence_numbered (lock_server nodes)) no_recovery ss) }
{
    excludes();
    repeats_do_nothing::<LockServer>();
}
