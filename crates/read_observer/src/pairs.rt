ghost use Rattle.std.specs.Prelude.{◌≡◌, Bool, false, List, [], ◌∷◌, ◌++◌, Some, OnErr, OnOk};
ghost use Rattle.raft_types.specs.declared.client.RaftInput.{RaftInput as Asked};
ghost use Rattle.read_observer.specs.Pairs.{HasNoted, uses_again};

use indexmap::IndexMap;
use raft_types::RaftInput;
use std::alloc::{AllocError, Global};
use std::marker::Model;
use vst_base::{ClientId, ReqId};

/// The pairs of a client and a number that were used, each with whether it was used by a read. Contracts see them in the order in which
/// they came first.
#[derive(Drop)]
pub struct UsedPairs {
    reads: IndexMap<(ClientId, ReqId), bool>,
}

impl Model for UsedPairs {
    ghost use Rattle.std.specs.Prelude.{ℕ, Bool, List};

    ghost Value = { List ((ℕ × ℕ) × Bool) };

    ghost view = { λ p. p.reads.entries };
}

impl UsedPairs {
    /// None were used. It takes no memory.
    pub fn new(alloc: Global) -> Self
        ensures { result ≡ [] }
    {
        UsedPairs {
            reads: IndexMap::new(alloc),
        }
    }

    /// Whether a request, which reads or not, uses a pair again: its pair was used, by a read or for this one. One hash look-up.
    pub fn is_used<C>(&self, request: &RaftInput<C>, reads: bool) -> bool
        ensures { (is_read : C → Bool) (earlier : List (Asked C)) → is_read request.now.cmd ≡ reads → HasNoted is_read self.now earlier
            → result ≡ uses_again is_read earlier (Some request.now) }
    {
        match self.reads.get(&(request.client, request.request)) {
            Some(was_read) => *was_read || reads,
            None => false,
        }
    }

    /// Notes the pair of a request, which reads or not, and does not use a pair again. An `Err` changes nothing.
    pub fn note<C>(&mut self, request: &RaftInput<C>, reads: bool) -> Result<(), AllocError>
        ensures ok { OnOk result ((is_read : C → Bool) (earlier : List (Asked C)) → is_read request.now.cmd ≡ reads
            → uses_again is_read earlier (Some request.now) ≡ false → HasNoted is_read self.old earlier
            → HasNoted is_read self.new (earlier ++ request.now ∷ [])) }
        ensures err { OnErr result (self.new ≡ self.old) }
    {
        self.reads.insert((request.client, request.request), reads)?;
        Ok(())
    }
}
