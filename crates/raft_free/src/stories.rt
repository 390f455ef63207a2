ghost use Rattle.raft_free.specs.Stories.{AnyEntriesMayBeSent, AnyoneMayRefuse, BehindGetsNoVote, CandidateStepsDown, CommitOfWhatCame, DoneIsNotDoneAgain, DownDoesNothing, HalfElectsNobody, LateAppendCutsNothing, LaterLeaderHasIt, LeadersBeginAnew, LessMayBeApplied, LessMayBeCommitted, LongerGetsNoVote, ManyAtOnce, NoTermIsLearnedTwice, NothingBehindAnother, OldTermWaits, OutsiderMayLead, OutsidersCountForNothing, OverreachIsRefused, RebootMayKeep, SecondCandidateFails, TwoOfThreeCommit, UncommittedIsNotApplied, UncommittedIsReplaced};

/// Runs, event by event, of three nodes and one of four. So there are runs in which entries are committed and applied, and
/// events that are not allowed.
pub fn worked_runs<C>()
    ensures two_of_three_commit { TwoOfThreeCommit C }
    ensures second_candidate_fails { SecondCandidateFails C }
    ensures behind_gets_no_vote { BehindGetsNoVote C }
    ensures old_term_waits { OldTermWaits C }
    ensures uncommitted_is_replaced { UncommittedIsReplaced C }
    ensures candidate_steps_down { CandidateStepsDown C }
    ensures later_leader_has_it { LaterLeaderHasIt C }
    ensures overreach_is_refused { OverreachIsRefused C }
    ensures down_does_nothing { DownDoesNothing C }
    ensures done_is_not_done_again { DoneIsNotDoneAgain C }
    ensures leaders_begin_anew { LeadersBeginAnew C }
    ensures nothing_behind_another { NothingBehindAnother C }
    ensures uncommitted_is_not_applied { UncommittedIsNotApplied C }
    ensures late_append_cuts_nothing { LateAppendCutsNothing C }
    ensures commit_of_what_came { CommitOfWhatCame C }
    ensures longer_gets_no_vote { LongerGetsNoVote C }
    ensures half_elects_nobody { HalfElectsNobody C }
    ensures no_term_is_learned_twice { NoTermIsLearnedTwice C }
{}

/// What is left free: a node may do each of these, and need not.
pub fn worked_freedoms<C>()
    ensures reboot_may_keep { RebootMayKeep C }
    ensures less_may_be_committed { LessMayBeCommitted C }
    ensures less_may_be_applied { LessMayBeApplied C }
    ensures any_entries_may_be_sent { AnyEntriesMayBeSent C }
    ensures many_at_once { ManyAtOnce C }
    ensures outsiders_count_for_nothing { OutsidersCountForNothing C }
    ensures outsider_may_lead { OutsiderMayLead C }
    ensures anyone_may_refuse { AnyoneMayRefuse C }
{}
