ghost use Rattle.std.specs.Prelude.{◌≡◌, [], ◌∷◌, ◌++◌, None, Some, drop, take};
ghost use Rattle.disk.specs.Acts.{StoreFailed, Sync};
ghost use Rattle.node_acts.specs.Examples.{three_syncs};
ghost use Rattle.node_records.specs.Examples.{first, known, voted};
ghost use Rattle.node_run.specs.Examples.{cluster};
ghost use Rattle.udp_node.specs.Examples.{begun, begun_held, begun_old, fresh_opening, goes_on_from, knows_by, opening_fits};
ghost use Rattle.udp_node.specs.Examples.{opens_told, stopped_with};

use node_state::Opened;

/// What an opening answers that a node goes on from, and its acts by what the device tells.
#[tactic(auto, unfolding(wire_fields::specs::Bytes::number_bytes, wire_fields::specs::Bytes::number_in, wire_fields::specs::Bytes::has_bytes, wire_fields::specs::Bytes::read_number, node_body::specs::Journals::from_gate))]
pub fn worked_openings()
    ensures knows { knows_by (Opened.Held known voted) ≡ known }
    ensures goes_on_from_the_vote { goes_on_from (Opened.Held known voted) ≡ voted }
    ensures forgets_the_vote { goes_on_from (Opened.Held known voted) ≡ first → ⊥ }
    ensures knows_fresh_ones { knows_by (Opened.Fresh known) ≡ known }
    ensures begins_with_the_first_state { goes_on_from (Opened.Fresh known) ≡ first }
    ensures writes_where_fresh { opens_told (Some begun) ≡ fresh_opening }
    ensures syncs_where_held { opens_told (Some begun_held) ≡ three_syncs }
    ensures untold { opens_told None ≡ [] }
{}

/// Openings of empty areas that were cut short: past the third sync only where what they write has bytes. A state has them where the name
/// of the cluster has, and what is not written needs none.
#[tactic(auto, unfolding(wire_fields::specs::Bytes::number_bytes, wire_fields::specs::Bytes::number_in, wire_fields::specs::Bytes::has_bytes, wire_fields::specs::Bytes::read_number, node_body::specs::Journals::from_gate))]
pub fn worked_stops()
    ensures among_the_syncs { stopped_with ⊥ (take 2 three_syncs ++ StoreFailed (Sync 2) ∷ []) }
    ensures past_the_syncs { stopped_with ⊥ (take 4 fresh_opening) → ⊥ }
    ensures past_the_syncs_with_bytes { stopped_with (Unit {0}) (take 4 fresh_opening) }
    ensures with_a_sync_left_out { stopped_with (Unit {0}) (drop 1 fresh_opening) → ⊥ }
    ensures past_a_failure { stopped_with (Unit {0}) (StoreFailed (Sync 0) ∷ drop 1 three_syncs) → ⊥ }
    ensures fits { opening_fits cluster begun }
    ensures fits_without_a_name { opening_fits [] begun → ⊥ }
    ensures fits_what_is_held { opening_fits [] begun_held }
    ensures fits_of_version_one { opening_fits cluster begun_old }
    ensures fits_of_version_one_without_a_name { opening_fits [] begun_old → ⊥ }
{}
