ghost use Rattle.raft_histories.specs.Claims.{AcceptedIsTaken, CommittedAgree, MajorityIsKept};

/// A log that takes a leader's entries has the leader's up to the last of them, and keeps what the two had
/// in common.
pub fn accepted_logs<C>()
    ensures { AcceptedIsTaken C }
{}

/// What a majority has had is in each later leader's log, so two logs are equal as far as both are
/// committed, in every sound history.
pub fn committed_logs<C>()
    ensures kept { MajorityIsKept C }
    ensures agree { CommittedAgree C }
{}
