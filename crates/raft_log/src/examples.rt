ghost use Rattle.std.specs.Prelude.{◌≡◌, [], drop, take};
ghost use Rattle.vst_base.specs.LogExamples.{leader, log, one_behind, one_more, parted_early, parted_late};
ghost use Rattle.raft_log.specs.Accepting.{agreed, answer, first_conflict, log_after};
ghost use Rattle.raft_log.specs.declared.accept.Accept.TheVariants.{Taken, Below};

/// What the followers' logs of Figure 7 of the Raft paper answer to the new leader's entries.
pub fn worked_answers()
    ensures agreed_up_to_a_conflict { agreed parted_early leader ≡ 3 }
    ensures agreed_up_to_the_end { agreed one_behind leader ≡ 9 }
    ensures all_agree { agreed one_more leader ≡ 10 }

    ensures missing_are_taken { answer one_behind 9 9 (drop 9 leader) ≡ Taken 10 }
    ensures none_come { answer leader 10 4 [] ≡ Taken 4 }
    ensures an_old_message { answer one_more 11 2 (take 3 (drop 2 leader)) ≡ Taken 5 }
    ensures conflict_past_commit { answer parted_late 5 5 (drop 5 leader) ≡ Taken 10 }
    ensures conflict_at_commit { answer parted_late 6 5 (drop 5 leader) ≡ Below 6 }
    ensures the_first_conflict { answer parted_early 11 0 leader ≡ Below 4 }
    ensures the_end_is_a_conflict { first_conflict one_behind 0 leader ≡ 10 }

    ensures cut_where_taken { log_after parted_late 5 5 (drop 5 leader) ≡ leader }
    ensures longer_where_had { log_after one_more 11 2 (take 3 (drop 2 leader)) ≡ one_more }
    ensures unchanged_where_refused { log_after parted_late 6 5 (drop 5 leader) ≡ parted_late }
{}
