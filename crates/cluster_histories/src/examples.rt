ghost use Rattle.std.specs.Prelude.{◌≡◌, [], ◌∷◌, ◌++◌, None, Some, false, true};
ghost use Rattle.cluster_histories.specs.DeedLaws.{moves_of};
ghost use Rattle.cluster_histories.specs.Deeds.{Answered, Decided, Opened, Said, noted_by};
ghost use Rattle.cluster_histories.specs.Examples.{AllStoreFirstAtThree, AreAllowedAtThree, ClusterDoesItsPart, ClusterStoresFirst, DoTheirPartsAtThree, DoesItsPartAtThree, MayBeKeptAtThree, MayOpenAtThree, NodeDoesItsPart, NodeStoresFirst, StoresFirstAtThree, areas, asked, asks_for_votes, comes_to_5, counted_at_three, elects, has_both, is_asked_by_0, keeps_5, one_is_lost, one_is_not_stored, sends_5, sent_again, tells_as_deeds, told_twice, votes};
ghost use Rattle.cluster_histories.specs.Moves.{ComesTo, Keeps, Sends, StartsAgain, Tells, counted_by, view_of};
ghost use Rattle.linearizability.specs.Examples.{asks, put, put_at, tell};
ghost use Rattle.node_histories.specs.Histories.{Asked, Fired, Heard, Restarts, Takes, own};
ghost use Rattle.raft_types.specs.declared.client.RaftOut.TheVariants as told;

use vst_base::Item;

/// What counts, and what clients note.
pub fn worked_moves()
    ensures counted { counted_by one_is_lost ≡ (1, Takes (Asked 5)) ∷ (2, Restarts) ∷ (1, Restarts) ∷ (0, Takes (Heard 1 5)) ∷ [] }
    ensures noted { view_of one_is_lost ≡ Item.Input 1 5 ∷ Item.Input 2 7 ∷ Item.Output 1 5 ∷ [] }
    ensures allowed { AreAllowedAtThree one_is_lost }
    ensures the_last_counts { counted_at_three (comes_to_5 ∷ (1, ComesTo (Asked 6)) ∷ keeps_5 ∷ keeps_5 ∷ []) ≡
        (1, Takes (Asked 6)) ∷ [] }
    ensures what_is_lost_never_counts { counted_at_three (comes_to_5 ∷ (1, StartsAgain) ∷ keeps_5 ∷ []) ≡ (1, Restarts) ∷ [] }

    ensures not_told_before_it_counts { AreAllowedAtThree (comes_to_5 ∷ (1, Tells 5) ∷ keeps_5 ∷ []) → ⊥ }
    ensures not_sent_before_it_counts { AreAllowedAtThree (comes_to_5 ∷ sends_5 ∷ keeps_5 ∷ []) → ⊥ }
    ensures not_sent_once_it_is_lost { AreAllowedAtThree (comes_to_5 ∷ (1, StartsAgain) ∷ sends_5 ∷ []) → ⊥ }
    ensures not_heard_before_it_goes_out { AreAllowedAtThree (comes_to_5 ∷ keeps_5 ∷ (0, ComesTo (Heard 1 5)) ∷ []) → ⊥ }
    ensures not_forged { AreAllowedAtThree ((0, ComesTo (Heard 1 5)) ∷ []) → ⊥ }
    ensures not_asked_there { AreAllowedAtThree ((0, ComesTo (Asked 5)) ∷ []) → ⊥ }
    ensures no_such_node { AreAllowedAtThree ((3, ComesTo Fired) ∷ []) → ⊥ }
{}

/// What a node may do by its own moves, and what the others have to do with it.
pub fn worked_parts()
    ensures own { own 1 one_is_lost ≡ ComesTo (Asked 5) ∷ Keeps ∷ Tells 5 ∷ Sends 0 5 ∷ StartsAgain ∷ [] }
    ensures does_its_part { DoesItsPartAtThree 1 (own 1 one_is_lost) }
    ensures hears_what_it_may { DoesItsPartAtThree 0 (own 0 one_is_lost) }
    ensures sends_again { DoesItsPartAtThree 1 (own 1 sent_again) }
    ensures not_before_it_keeps { DoesItsPartAtThree 1 (ComesTo (Asked 5) ∷ Tells 5 ∷ Keeps ∷ []) → ⊥ }
    ensures not_what_is_lost { DoesItsPartAtThree 1 (ComesTo (Asked 5) ∷ StartsAgain ∷ Sends 0 5 ∷ []) → ⊥ }
    ensures not_to_another { DoesItsPartAtThree 1 (ComesTo (Asked 5) ∷ Keeps ∷ Sends 2 5 ∷ []) → ⊥ }
    ensures not_another_output { DoesItsPartAtThree 1 (ComesTo (Asked 5) ∷ Keeps ∷ Tells 6 ∷ []) → ⊥ }
    ensures not_asked_there { DoesItsPartAtThree 0 (ComesTo (Asked 5) ∷ []) → ⊥ }
    ensures not_another_message { DoTheirPartsAtThree (comes_to_5 ∷ keeps_5 ∷ sends_5 ∷ (0, ComesTo (Heard 1 6)) ∷ []) → ⊥ }
    ensures not_of_another_node { DoTheirPartsAtThree (comes_to_5 ∷ keeps_5 ∷ sends_5 ∷ (0, ComesTo (Heard 2 5)) ∷ []) → ⊥ }
    ensures not_before_it_went_out { DoTheirPartsAtThree (comes_to_5 ∷ keeps_5 ∷ (0, ComesTo (Heard 1 5)) ∷ sends_5 ∷ []) → ⊥ }
{}

/// What one node may do that stores first, and what it may not: it opens as before only what nobody heard of.
pub fn worked_deeds()
    ensures stays { StoresFirstAtThree 1 (Decided (Asked 8) ∷ Answered 8 ∷ Said 0 8 ∷ Opened 4 ∷ []) }
    ensures not_stored { StoresFirstAtThree 1 (Decided (Asked 8) ∷ Opened 0 ∷ []) }
    ensures stored_and_not_said { StoresFirstAtThree 1 (Decided (Asked 8) ∷ Opened 4 ∷ Decided (Asked 3) ∷ []) }
    ensures the_one_before_stays { StoresFirstAtThree 1 (Decided (Asked 8) ∷ Decided (Asked 20) ∷ Opened 4 ∷ []) }
    ensures opened_twice { StoresFirstAtThree 1 (Decided (Asked 8) ∷ Opened 0 ∷ Opened 0 ∷ []) }
    ensures not_lost_once_told { StoresFirstAtThree 1 (Decided (Asked 8) ∷ Answered 8 ∷ Opened 0 ∷ []) → ⊥ }
    ensures not_lost_once_said { StoresFirstAtThree 1 (Decided (Asked 8) ∷ Said 0 8 ∷ Opened 0 ∷ []) → ⊥ }
    ensures not_two_lost { StoresFirstAtThree 1 (Decided (Asked 8) ∷ Decided (Asked 20) ∷ Opened 0 ∷ []) → ⊥ }
    ensures not_another { StoresFirstAtThree 1 (Decided (Asked 8) ∷ Opened 3 ∷ []) → ⊥ }
    ensures not_said_after_a_start { StoresFirstAtThree 1 (Decided (Asked 8) ∷ Opened 4 ∷ Said 0 8 ∷ []) → ⊥ }
    ensures not_lost_after_it_opened { StoresFirstAtThree 1 (Decided (Asked 8) ∷ Opened 4 ∷ Opened 0 ∷ []) → ⊥ }

    ensures opens_as_after { MayOpenAtThree 1 (Decided (Asked 8) ∷ []) 4 }
    ensures opens_as_before { MayOpenAtThree 1 (Decided (Asked 8) ∷ []) 0 }
    ensures opens_as_after_alone { MayOpenAtThree 1 (Decided (Asked 8) ∷ Said 0 8 ∷ []) 0 → ⊥ }

    ensures together { AllStoreFirstAtThree one_is_not_stored }
    ensures noted { noted_by one_is_not_stored ≡ Item.Input 1 2 ∷ Item.Output 1 2 ∷ Item.Input 1 20 ∷ [] }
    ensures as_moves { moves_of (λ _. true ∷ false ∷ []) one_is_not_stored ≡
        (1, Keeps) ∷ (1, ComesTo (Asked 2)) ∷ (1, Keeps) ∷ (1, Tells 2) ∷ (1, Keeps) ∷ (1, StartsAgain) ∷ (1, Keeps)
        ∷ (1, ComesTo (Asked 20)) ∷ (1, StartsAgain) ∷ [] }
    ensures as_if_all_were_lost { moves_of (λ _. []) one_is_not_stored ≡
        (1, Keeps) ∷ (1, ComesTo (Asked 2)) ∷ (1, Keeps) ∷ (1, Tells 2) ∷ (1, StartsAgain) ∷ (1, Keeps)
        ∷ (1, ComesTo (Asked 20)) ∷ (1, StartsAgain) ∷ [] }
    ensures kept_by_what_counts { MayBeKeptAtThree ((1, Keeps) ∷ (1, ComesTo (Asked 8)) ∷ []) 1 0 }
    ensures kept_with_what_it_came_to { MayBeKeptAtThree ((1, Keeps) ∷ (1, ComesTo (Asked 8)) ∷ []) 1 4 }
    ensures not_kept { MayBeKeptAtThree ((1, Keeps) ∷ (1, ComesTo (Asked 8)) ∷ (1, Keeps) ∷ []) 1 0 → ⊥ }
    ensures not_another_message { StoresFirstAtThree 1 (Decided (Asked 8) ∷ Said 0 9 ∷ []) → ⊥ }
    ensures not_to_another { StoresFirstAtThree 1 (Decided (Asked 8) ∷ Said 2 8 ∷ []) → ⊥ }
    ensures not_another_output { StoresFirstAtThree 1 (Decided (Asked 8) ∷ Answered 9 ∷ []) → ⊥ }
    ensures not_asked_there { StoresFirstAtThree 0 (Decided (Asked 8) ∷ []) → ⊥ }
    ensures no_such_node { AllStoreFirstAtThree ((3, Decided Fired) ∷ []) → ⊥ }
    ensures said_before_it_is_heard { AllStoreFirstAtThree ((1, Decided (Asked 8)) ∷ (0, Decided (Heard 1 8)) ∷ (1, Said 0 8) ∷ []) → ⊥ }
{}

/// Three nodes do their parts, so that the laws are not empty: a leader is elected, a client is told, and another's request is lost. And
/// what no node does: it says nothing that it does not keep, and tells no client before most nodes have its request.
pub fn worked_clusters()
    ensures elects { ClusterDoesItsPart elects }
    ensures told { ClusterDoesItsPart told_twice }
    ensures noted { view_of told_twice ≡ put (asks 7 1 5) ∷ put_at 2 (asks 9 1 3) ∷ tell 7 1 0 ∷ tell 7 1 0 ∷ [] }
    ensures told_by_deeds { ClusterStoresFirst tells_as_deeds }
    ensures noted_by_deeds { noted_by tells_as_deeds ≡ put (asks 7 1 5) ∷ put_at 2 (asks 9 1 3) ∷ tell 7 1 0 ∷ [] }
    ensures not_told_too_early { NodeDoesItsPart 0 (asked ++ (0, Tells (told.Reply 7 1 0)) ∷ []) → ⊥ }
    ensures not_told_another_output { NodeDoesItsPart 0 (told_twice ++ (0, Tells (told.Reply 7 1 5)) ∷ []) → ⊥ }
    ensures not_what_it_does_not_keep { NodeDoesItsPart 1 (asked ++ (1, Sends 0 has_both) ∷ []) → ⊥ }
    ensures vote_not_kept_yet { NodeDoesItsPart 1 ((1, ComesTo (Heard 0 asks_for_votes)) ∷ (1, Sends 0 votes) ∷ (1, Keeps) ∷ []) → ⊥ }
    ensures no_forged_vote { ClusterDoesItsPart ((0, ComesTo Fired) ∷ (0, Keeps) ∷ (0, ComesTo (Heard 2 votes)) ∷ (0, Keeps) ∷ []) → ⊥ }
{}

/// A vote that went out is not forgotten, and one that did not may be.
pub fn worked_votes()
    ensures kept { NodeStoresFirst 1 (is_asked_by_0 ∷ Said 0 votes ∷ Opened (areas 1 (Some 0)) ∷ []) }
    ensures kept_and_not_said { NodeStoresFirst 1 (is_asked_by_0 ∷ Opened (areas 1 (Some 0)) ∷ Opened (areas 1 (Some 0)) ∷ []) }
    ensures lost_and_not_said { NodeStoresFirst 1 (is_asked_by_0 ∷ Opened (areas 0 None) ∷ Decided (Heard 2 asks_for_votes)
        ∷ Said 2 votes ∷ []) }
    ensures not_lost_once_said { NodeStoresFirst 1 (is_asked_by_0 ∷ Said 0 votes ∷ Opened (areas 0 None) ∷ []) → ⊥ }
    ensures no_second_vote { NodeStoresFirst 1 (is_asked_by_0 ∷ Said 0 votes ∷ Opened (areas 1 (Some 0))
        ∷ Decided (Heard 2 asks_for_votes) ∷ Said 2 votes ∷ []) → ⊥ }
{}
