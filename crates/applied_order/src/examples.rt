ghost use Rattle.std.specs.Prelude.{◌≡◌, ℕ, [], ◌∷◌, None, Some, false, true};
ghost use Rattle.std.specs.FinMap as map;
ghost use Rattle.raft_clients.specs.Examples.{asked};
ghost use Rattle.applied_order.specs.Examples.{five_entries, kept_of_another, kept_of_five, kept_of_six, nothing, number, six_entries};
ghost use Rattle.applied_order.specs.Orders.{HasFollowed, is_executed_by, with_entry};

/// What is kept of no entry, of five and of six, and what is not: each entry is counted, a no-op too, but a
/// no-op is no request; a client's number is the greatest and not the last; a request that comes again is not
/// there twice; requests have an order.
pub fn worked_orders()
    ensures none { HasFollowed nothing [] }
    ensures five { HasFollowed kept_of_five five_entries }
    ensures six { HasFollowed kept_of_six six_entries }
    ensures not_the_executed_alone_counted { ¬ HasFollowed (record kept_of_five { entries = 3 }) five_entries }
    ensures not_the_requests_alone_counted { ¬ HasFollowed (record kept_of_five { entries = 4 }) five_entries }
    ensures not_a_noop_as_a_request { ¬ HasFollowed
        (record kept_of_five { requests = asked 7 0 3 ∷ asked 0 0 0 ∷ asked 9 5 1 ∷ asked 7 2 5 ∷ [] }) five_entries }
    ensures not_a_noop_of_client_0 { ¬ HasFollowed (record kept_of_five { sessions = map.insert kept_of_five.sessions 0 (number 0) })
        five_entries }
    ensures not_the_last_number { ¬ HasFollowed (record kept_of_six { sessions = map.insert kept_of_six.sessions 9 (number 4) })
        six_entries }
    ensures not_of_a_client_unseen { ¬ HasFollowed (record kept_of_five { sessions = map.insert kept_of_five.sessions 8 (number 0) })
        five_entries }
    ensures not_again { ¬ HasFollowed (record kept_of_five { requests = asked 7 0 3 ∷ asked 7 0 4 ∷ asked 9 5 1 ∷ asked 7 2 5 ∷ [] })
        five_entries }
    ensures not_in_another_order { ¬ HasFollowed (record kept_of_five { requests = asked 9 5 1 ∷ asked 7 0 3 ∷ asked 7 2 5 ∷ [] })
        five_entries }
    ensures not_from_zero { ¬ HasFollowed (record kept_of_five { indexes = 0 ∷ 3 ∷ 4 ∷ [] }) five_entries }
    ensures not_by_places_among_the_executed { ¬ HasFollowed (record kept_of_five { indexes = 1 ∷ 2 ∷ 3 ∷ [] }) five_entries }
    ensures one_more_is_late { with_entry kept_of_five (Some (asked 9 4 8)) ≡ kept_of_six }
    ensures one_more_is_a_noop { with_entry kept_of_five None ≡ kept_of_six }
    ensures one_more_is_new { with_entry kept_of_five (Some (asked 9 6 2)) ≡ kept_of_another }
    ensures late_is_not_executed { is_executed_by kept_of_five.sessions (Some (asked 9 4 8)) ≡ false }
    ensures a_noop_is_not_executed { is_executed_by {C = ℕ} kept_of_five.sessions None ≡ false }
    ensures new_is_executed { is_executed_by kept_of_five.sessions (Some (asked 9 6 2)) ≡ true }
    ensures a_first_one_is_executed { is_executed_by kept_of_five.sessions (Some (asked 8 0 1)) ≡ true }
{}
