ghost use Rattle.std.specs.Prelude.{◌≡◌};
ghost use Rattle.raft_xform.specs.Nodes as node;

/// What a node is in its term (the Raft paper, Figure 4).
#[derive(Clone, Copy, Debug, PartialEq, Eq)]
pub enum Role {
    Follower,
    Candidate,
    Leader,
}

impl Role {
    /// Whether it is the leader.
    pub fn is_leader(self) -> bool
        ensures { result ≡ node.is_leader self }
    {
        match self {
            Role::Leader => true,
            Role::Follower | Role::Candidate => false,
        }
    }

    /// Whether it is a candidate.
    pub fn is_candidate(self) -> bool
        ensures { result ≡ node.is_candidate self }
    {
        match self {
            Role::Candidate => true,
            Role::Follower | Role::Leader => false,
        }
    }
}
