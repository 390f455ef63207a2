ghost use Rattle.raft_histories.specs.HistoryExamples.{EmptyIsSound, ItsEntryIsCommitted, NoGreaterTerm, OneElectionIsSound, OneHolderCommitsNothing, OneVoteElectsNobody, WhatAVoterHadIsKept};

/// Histories of elections that are sound, whose entry is committed or not, and some that are not sound.
pub fn worked_histories<C>()
    ensures empty_is_sound { EmptyIsSound C }
    ensures one_election_is_sound { OneElectionIsSound C }
    ensures its_entry_is_committed { ItsEntryIsCommitted C }
    ensures one_holder_commits_nothing { OneHolderCommitsNothing C }
    ensures one_vote_elects_nobody { OneVoteElectsNobody C }
    ensures no_greater_term { NoGreaterTerm C }
    ensures what_a_voter_had_is_kept { WhatAVoterHadIsKept C }
{}
