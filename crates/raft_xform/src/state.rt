ghost use Rattle.std.specs.Prelude.{◌≡◌, ◌≤◌, length};
ghost use Rattle.raft_types.specs.declared.limits.TheConstants.{MAX_INDEX};

use crate::Role;
use raft_clients::Sessions;
use raft_commit::Peer;
use raft_election::Ballot;
use raft_log::Log;
use std::marker::Model;
use vst_base::{Entry, Node};

/// What a node knows (the Raft paper, Figure 2, State): its role; its term, its vote and the votes that it
/// counted; its log, up to which index it knows it to be committed, and up to which it has applied it; what
/// it knows of each node's log as a leader; the machine's state, and the sessions of clients. Contracts see
/// the record of these.
#[derive(Drop)]
pub struct RaftState<S, C, O> {
    pub(crate) role: Role,
    pub(crate) ballot: Ballot,
    pub(crate) log: Log<C>,
    pub(crate) commit: u32,
    pub(crate) applied: u32,
    pub(crate) peers: Vec<Peer>,
    pub(crate) machine: S,
    pub(crate) sessions: Sessions<O>,
}

impl<S, C, O> Model for RaftState<S, C, O> {
    ghost use Rattle.raft_xform.specs.Codes.{raft_code};
    ghost use Rattle.raft_xform.specs.Nodes.{RaftView};

    ghost Value = { RaftView S C O };

    ghost coded = { raft_code S.code C.code O.code };

    ghost view = { λ s. record {
      role = s.role;
      ballot = s.ballot;
      log = s.log;
      commit = s.commit;
      applied = s.applied;
      peers = s.peers.items;
      machine = s.machine;
      sessions = s.sessions;
    } };
}

impl<S, C: Drop, O> RaftState<S, C, O> {
    /// The node's current term, 0 before the first election.
    pub fn term(&self) -> u64
        ensures { result ≡ self.now.ballot.term }
    {
        self.ballot.term()
    }

    /// Whom the node voted for in its term.
    pub fn voted(&self) -> Option<Node>
        ensures { result ≡ self.now.ballot.voted }
    {
        self.ballot.voted()
    }

    /// The entries of the node's log, from index 1 on.
    pub fn log(&self) -> &[Entry<C>]
        ensures entries { result.now ≡ self.now.log }
        ensures in_range { length result.now ≤ MAX_INDEX }
    {
        self.log.entries()
    }
}
