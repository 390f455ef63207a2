ghost use Rattle.std.specs.Prelude.{◌≡◌, ◌++◌, ◌+◌, [], ◌∷◌, Err, None, Ok, Some, codes, replicate};
ghost use Rattle.disk.specs.Acts.{BeginFailed, Now};
ghost use Rattle.commands.specs.NodeComplete.{IsComplete, IsStatusOf, NoneRose, areas_status};
ghost use Rattle.commands.specs.NodeExamples.{alone, begins, comes_of, comes_of_nothing, comes_to, comes_untold, complained, device};
ghost use Rattle.commands.specs.NodeExamples.{err_as, failing, fed, idle, in_silence, out_as, selecting, sink, untouched, wanting, words};
ghost use Rattle.commands.specs.NodeLines.{config_line, line_of, state_line, status_of, turns_line};
ghost use Rattle.commands.specs.NodeSeen.{KeepsAllCounts};
ghost use Rattle.commands.specs.NodeStatuses.{AreAreasRefused, EndsBy, HasListeningFailed, HasWriteFailed, IsConfigRefused, IsDone};
ghost use Rattle.commands.specs.NodeStatuses.{IsNodeStatus, IsOutOfMemory, MaySay, WroteTurnsAtMost};
ghost use Rattle.node_config.specs.Examples.{local, sample_text};
ghost use Rattle.node_config.specs.declared.limits.TheConstants.{MAX_CONFIG};
ghost use Rattle.node_device.specs.Examples.{counts, sends, tells};
ghost use Rattle.slots.specs.Opening.{BadSelector};

use crate::Trouble;
use node_body::Why;
use node_config::{ConfigKey, worked_texts};
use node_state::Refusal;
use udp_node::NodeFault;

/// Lines on the output and the error stream.
pub fn worked_node_lines()
    ensures turns { turns_line 3 ≡ codes "turns 3\n" }
    ensures key { config_line ConfigKey.ElectionMs ≡ codes "config: election_ms\n" }
    ensures selector { state_line Refusal.Selector ≡ codes "state: selector\n" }
    ensures slot { state_line (Refusal.Slot Why.Slot) ≡ codes "state: slot\n" }
    ensures journal { state_line (Refusal.Slot Why.Journal) ≡ codes "state: journal\n" }
    ensures node { state_line (Refusal.Slot (Why.Node 0 1)) ≡ codes "state: node 0 1\n" }
    ensures name { state_line (Refusal.Slot (Why.Name (10 ∷ 255 ∷ []) (0 ∷ 1 ∷ []))) ≡ codes "state: name 0aff 0001\n" }
    ensures receive { line_of (Trouble.Ended NodeFault.Receive) ≡ codes "receive\n" }
    ensures begin { line_of Trouble.Begin ≡ codes "open\n" }
{}

/// Statuses, and runs that one fits and does not fit.
pub fn worked_node_statuses()
    ensures of_a_key { status_of (Trouble.Config ConfigKey.Me) ≡ 3 }
    ensures of_no_beginning { status_of Trouble.Begin ≡ 6 }
    ensures of_a_receive { status_of (Trouble.Ended NodeFault.Receive) ≡ 6 }
    ensures of_areas { status_of (Trouble.Ended (NodeFault.Refused Refusal.Selector)) ≡ 9 }
    ensures never { IsNodeStatus 2 → ⊥ }
    ensures a_key_needs_no_areas { IsStatusOf (Err ConfigKey.Me) None 3 }
    ensures a_key_as_done { IsStatusOf (Err ConfigKey.Me) (Some untouched) 0 → ⊥ }
    ensures fresh_areas { IsStatusOf (Ok alone) (Some untouched) 0 }
    ensures fresh_areas_as_refused { IsStatusOf (Ok alone) (Some untouched) 9 → ⊥ }
    ensures a_selector_of_two_bytes { IsStatusOf (Ok alone) (Some (selecting (0 ∷ 0 ∷ []))) 9 }
    ensures refused_areas { areas_status (Some BadSelector) ≡ 9 }
    ensures opened_areas { areas_status None ≡ 0 }
    ensures unread { EndsBy words (complained 1 (codes "read\n") idle) Trouble.Read }
    ensures unread_uncounted { EndsBy words (complained 0 (codes "read\n") idle) Trouble.Read → ⊥ }
    ensures unread_and_used { EndsBy words (complained 1 (codes "read\n") (device (tells (Now 0 ∷ [])) (counts 1 1))) Trouble.Read → ⊥ }
    ensures unread_in_silence { EndsBy words (complained 1 [] idle) Trouble.Read → ⊥ }
    ensures refused { IsConfigRefused words (complained 0 (codes "config: me\n") idle) }
    ensures refused_after_a_fault { EndsBy words (complained 1 (codes "config: me\n") idle) (Trouble.Config ConfigKey.Me) → ⊥ }
    ensures says_memory { MaySay words (complained 0 [] idle) (codes "memory\n") }
    ensures says_memory_of_a_read { MaySay words (complained 1 [] idle) (codes "memory\n") → ⊥ }
{}

/// Runs that took all turns, that could not listen, and whose areas are refused.
pub fn worked_ends()
    ensures done { IsDone words (out_as (sink (codes "turns 3\n")) (in_silence (counts 1 1) (counts 1 1))) }
    ensures done_without_the_line { IsDone words (in_silence (counts 1 1) (counts 1 1)) → ⊥ }
    ensures done_after_a_failed_write { IsDone words (out_as (failing (codes "turns 3\n")) (in_silence (counts 1 1) (counts 1 1))) → ⊥ }
    ensures done_with_a_complaint { IsDone words (err_as (sink (codes "no\n")) (in_silence (counts 1 1) (counts 1 1))) → ⊥ }
    ensures unbegun { HasListeningFailed words (err_as (sink (codes "open\n")) (in_silence (begins 1) (begins 2))) }
    ensures unbegun_uncounted { HasListeningFailed words (err_as (sink (codes "open\n")) (in_silence (begins 1) (begins 1))) → ⊥ }
    ensures unheard { HasListeningFailed words (err_as (sink (codes "receive\n")) (in_silence (counts 1 1) (counts 2 1))) }
    ensures unheard_for_a_store { HasListeningFailed words (err_as (sink (codes "receive\n")) (in_silence (counts 1 1) (counts 1 2))) → ⊥ }
    ensures areas { AreAreasRefused words (err_as (sink (codes "state: selector\n")) (in_silence (counts 1 1) (counts 1 1))) }
    ensures areas_for_a_store { AreAreasRefused words (err_as (sink (codes "state: selector\n"))
        (in_silence (counts 1 1) (counts 1 2))) → ⊥ }
{}

/// Runs of which a write failed, and that wanted memory.
pub fn worked_failures()
    ensures out_failed { HasWriteFailed words (out_as (failing (codes "tur")) (in_silence (counts 1 1) (counts 1 1))) }
    ensures out_failed_uncounted { HasWriteFailed words (out_as (sink (codes "tur")) (in_silence (counts 1 1) (counts 1 1))) → ⊥ }
    ensures out_wanted_as_failed { HasWriteFailed words (out_as (wanting (codes "tur")) (in_silence (counts 1 1) (counts 1 1))) → ⊥ }
    ensures err_failed { HasWriteFailed words (err_as (failing (codes "re")) (complained 1 [] idle)) }
    ensures err_failed_in_another_line { HasWriteFailed words (err_as (failing (codes "op")) (complained 1 [] idle)) → ⊥ }
    ensures err_failed_uncounted { HasWriteFailed words (complained 1 (codes "re") idle) → ⊥ }
    ensures wrote_at_most { WroteTurnsAtMost words (out_as (wanting (codes "tur")) (in_silence (counts 1 1) (counts 1 1))) }
    ensures wrote_in_part { WroteTurnsAtMost words (out_as (sink (codes "tur")) (in_silence (counts 1 1) (counts 1 1))) → ⊥ }
    ensures wanted { IsOutOfMemory words (complained 0 (codes "memory\n") idle) }
    ensures wanted_in_silence { IsOutOfMemory words (complained 0 [] idle) → ⊥ }
    ensures wanted_after_turns_that_none_took { IsOutOfMemory words
        (out_as (sink (codes "turns 3\n")) (complained 0 (codes "memory\n") (device (tells []) (counts 1 2)))) → ⊥ }
    ensures wanted_for_the_line_of_a_read { IsOutOfMemory words (err_as (wanting (codes "re")) (complained 1 [] idle)) }
    ensures wanted_in_another_line { IsOutOfMemory words (err_as (wanting (codes "op")) (complained 1 [] idle)) → ⊥ }
    ensures wanted_for_a_read { IsOutOfMemory words (complained 1 (codes "memory\n") idle) → ⊥ }
    ensures wanted_for_a_failed_write { IsOutOfMemory words (err_as (failing (codes "memory\n")) (complained 0 [] idle)) → ⊥ }
    ensures wanted_for_a_beginning { IsOutOfMemory words (err_as (sink (codes "memory\n")) (in_silence (begins 1) (begins 2))) → ⊥ }
    ensures wanted_for_a_receive { IsOutOfMemory words (err_as (sink (codes "memory\n")) (in_silence (counts 1 1) (counts 2 1))) → ⊥ }
{}

/// Runs in which no call failed but sends, what they answer, and counts that stay.
pub fn worked_node_counts()
    ensures none_rose { NoneRose (in_silence (sends 1) (sends 2)) }
    ensures one_rose { NoneRose (in_silence (begins 1) (begins 2)) → ⊥ }
    ensures refused { IsComplete words (fed [] (in_silence (sends 1) (sends 2))) 3 }
    ensures refused_as_done { IsComplete words (fed [] (in_silence (sends 1) (sends 2))) 0 → ⊥ }
    ensures kept { KeepsAllCounts (in_silence (sends 1) (sends 2)) }
    ensures a_send_found_again { KeepsAllCounts (in_silence (sends 2) (sends 1)) → ⊥ }
    ensures a_beginning_found_again { KeepsAllCounts (in_silence (begins 2) (begins 1)) → ⊥ }
    ensures a_receive_found_again { KeepsAllCounts (in_silence (counts 2 1) (counts 1 1)) → ⊥ }
    ensures a_store_found_again { KeepsAllCounts (in_silence (counts 1 2) (counts 1 1)) → ⊥ }
{
    worked_texts();
}

/// What reading the configuration, beginning and taking turns come to, by the calls that failed. A device that told goes on to the
/// end.
pub fn worked_comings()
    ensures served { comes_to 0 (counts 1 1) (counts 1 1) (Ok tt) }
    ensures served_though_a_send_failed { comes_to 0 (sends 1) (sends 2) (Ok tt) }
    ensures not_served_where_a_store_failed { comes_to 0 (counts 1 1) (counts 1 2) (Ok tt) → ⊥ }
    ensures not_served_where_the_device_stopped_telling { comes_untold (Ok tt) → ⊥ }
    ensures ended { comes_to 0 (counts 1 1) (counts 2 1) (Err (Trouble.Ended NodeFault.Receive)) }
    ensures not_ended_uncounted { comes_to 0 (counts 1 1) (counts 1 1) (Err (Trouble.Ended NodeFault.Receive)) → ⊥ }
    ensures not_ended_by_another { comes_to 0 (counts 1 1) (counts 2 2) (Err (Trouble.Ended NodeFault.Receive)) → ⊥ }
    ensures unbegun { comes_to 0 (begins 1) (begins 2) (Err Trouble.Begin) }
    ensures not_unbegun_uncounted { comes_to 0 (begins 1) (begins 1) (Err Trouble.Begin) → ⊥ }
    ensures unbegun_where_it_is_configured { comes_of sample_text (BeginFailed (local 7000) (codes "d") ∷ []) (Err Trouble.Begin) }
    ensures not_unbegun_at_another_address { comes_of sample_text (BeginFailed (local 7001) (codes "d") ∷ []) (Err Trouble.Begin) → ⊥ }
    ensures not_unbegun_in_another_directory { comes_of sample_text (BeginFailed (local 7000) (codes "e") ∷ []) (Err Trouble.Begin) → ⊥ }
    ensures not_unbegun_in_silence { comes_of sample_text [] (Err Trouble.Begin) → ⊥ }
    ensures refused { comes_of_nothing (Err (Trouble.Config ConfigKey.Stack)) }
    ensures not_refused_where_more_was_read { comes_of (replicate (MAX_CONFIG + 1) 35 ++ codes "a") []
        (Err (Trouble.Config ConfigKey.Text)) → ⊥ }
    ensures not_refused_for_another_key { comes_of_nothing (Err (Trouble.Config ConfigKey.Me)) → ⊥ }
    ensures not_refused_where_a_read_failed { comes_to 1 (counts 1 1) (counts 1 1) (Err (Trouble.Config ConfigKey.Stack)) → ⊥ }
    ensures not_refused_where_a_receive_failed { comes_to 0 (counts 1 1) (counts 2 1) (Err (Trouble.Config ConfigKey.Stack)) → ⊥ }
    ensures unread { comes_to 1 (counts 1 1) (counts 1 1) (Err Trouble.Read) }
    ensures not_unread_uncounted { comes_to 0 (counts 1 1) (counts 1 1) (Err Trouble.Read) → ⊥ }
    ensures not_unread_where_a_receive_failed { comes_to 1 (counts 1 1) (counts 2 1) (Err Trouble.Read) → ⊥ }
    ensures wanted { comes_to 0 (counts 1 1) (counts 1 1) (Err Trouble.Memory) }
    ensures not_wanted_where_a_read_failed { comes_to 1 (counts 1 1) (counts 1 1) (Err Trouble.Memory) → ⊥ }
    ensures not_wanted_where_a_receive_failed { comes_to 0 (counts 1 1) (counts 2 1) (Err Trouble.Memory) → ⊥ }
{
    worked_texts();
}
