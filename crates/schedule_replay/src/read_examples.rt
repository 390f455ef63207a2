ghost use Rattle.std.specs.Prelude.{◌≡◌, Some, codes};
ghost use Rattle.line_reader.specs.declared.why.Why.TheVariants.{NodeDown, PairUsed};
ghost use Rattle.schedule_replay.specs.Replays.{replayed};

/// Worked schedules of clusters whose reads take no entry of the log: reads that are answered and stand in the order, and pairs of a client and a number that are used again.
#[tactic(auto, unfolding(schedule_text::specs::Headers::header_of))]
pub fn worked_reads()
    ensures a_read_is_answered { (replayed (codes "schedule 1 fail kv/raft/read 1\ntick 0\nin 0 7 1 put a x\nin 0 7 2 get a\n")).out
        ≡ codes "in 0 7 1 put a x\nout 0 reply 7 1 a =x -\nin 0 7 2 get a\nout 0 reply 7 2 a =x =x\nbelow\norder 7 1 put a x\norder 7 2 get a\n" }
    ensures counted { (replayed (codes "schedule 1 fail kv/raft/read 1\ntick 0\nin 0 7 1 put a x\nin 0 7 2 get a\n")).counts
        ≡ record { events = 3; inputs = 2; outputs = 2; replies = 2; image = 2 } }
    ensures nobody_holds_it { (replayed (codes "schedule 1 fail table/raft/read 1\ntick 0\nin 0 1 0 acquire l bob\nin 0 1 1 holder l\n")).out
        ≡ codes "in 0 1 0 acquire l bob\nout 0 reply 1 0 l =bob yes\nin 0 1 1 holder l\nout 0 reply 1 1 l =bob yes\nbelow\norder 1 0 acquire l bob\norder 1 1 holder l\n" }
    ensures a_read_has_the_pair_of_a_write { (replayed (codes "schedule 1 fail kv/raft/read 1\ntick 0\nin 0 7 1 put a x\nin 0 7 1 get a\n")).refused
        ≡ Some (4, PairUsed) }
    ensures a_write_has_the_pair_of_a_read { (replayed (codes "schedule 1 fail kv/raft/read 1\nin 0 7 1 get a\nin 0 7 1 put a x\n")).refused
        ≡ Some (3, PairUsed) }
    ensures down_comes_first { (replayed (codes "schedule 1 fail kv/raft/read 1\nin 0 7 1 get a\ncrash 0\nin 0 7 1 get a\n")).refused
        ≡ Some (4, NodeDown) }
    ensures reads_with_entries_may_repeat { (replayed (codes "schedule 1 fail kv/raft 1\nin 0 7 1 get a\nin 0 7 1 get a\n")).counts
        ≡ record { events = 2; inputs = 2; outputs = 2; replies = 0; image = 0 } }
{}
