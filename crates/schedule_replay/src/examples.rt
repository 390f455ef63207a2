ghost use Rattle.std.specs.Prelude.{◌≡◌, ℕ, true, false, List, [], Option, Some, None, codes};
ghost use Rattle.schedule_replay.specs.Explained.{IsReplay};
ghost use Rattle.line_reader.specs.declared.why.Why.TheVariants.{Header, NoCopy, NodeDown, NodeUp, NoInputHere, NoSuchNode, NotFirst, NotThisNet, Number, Text, UnknownWord};
ghost use Rattle.schedule_replay.specs.Examples.{WritesLocks, asked, cleared, inputs, read_ahead};
ghost use Rattle.schedule_replay.specs.Playing.{Waits, is_failed_read};
ghost use Rattle.schedule_replay.specs.Replays.{replayed, replayed_so_far};
ghost use Rattle.schedule_replay.specs.declared.halt.Halt.TheVariants.{Read, Refused};
ghost use Rattle.schedule_replay.specs.declared.tally.Tally.{Tally};
ghost use Rattle.schedule_text.specs.ExampleTexts.{handover, handover_claim, idle, idle_claim, mistaken_put_claim, put, put_claim, unsent};

use crate::replays_are_explained;

/// Worked schedules of each stack: what is written, and which line is refused.
#[tactic(auto, unfolding(schedule_text::specs::Headers::header_of))]
pub fn worked()
    ensures handed_over { (replayed (codes "schedule 1 bag lock 2\nin 1 lock\ndeliver 0\ndeliver 1")).out
        ≡ handover_claim }
    ensures taken_whole { (replayed handover).refused ≡ None }
    ensures nothing_happens { (replayed idle).out ≡ idle_claim }
    ensures no_packet { (replayed unsent).refused ≡ Some (2, NoCopy) }
    ensures no_packet_no_trace { (replayed unsent).out ≡ [] }
    ensures delivered_twice { (replayed (codes "schedule 1 bag lock 2\nin 1 lock\ndeliver 0\ndeliver 0\n")).refused ≡ Some (4, NoCopy) }
    ensures trace_before_it { (replayed (codes "schedule 1 bag lock 2\nin 1 lock\ndeliver 0\ndeliver 0\n")).out ≡ codes "in 1 lock\n" }
    ensures server_takes_no_input { (replayed (codes "schedule 1 bag lock 2\nin 0 lock\n")).refused ≡ Some (2, NoInputHere) }
    ensures no_node { (replayed (codes "schedule 1 bag lock 2\ntick 5\n")).refused ≡ Some (2, NoSuchNode) }
    ensures nothing_to_read { (replayed []).refused ≡ Some (1, Header) }
    ensures leading_zero { (replayed (codes "schedule 1 bag lock 2\ndeliver 01\n")).refused ≡ Some (2, Number) }
    ensures no_such_input { (replayed (codes "schedule 1 bag lock 2\nin 1 grab\n")).refused ≡ Some (2, Text) }
    ensures no_acts_on_a_bag { (replayed (codes "schedule 1 bag lock 2\nact 1\n")).refused ≡ Some (2, NotThisNet) }
    ensures no_stops_on_a_cluster { (replayed (codes "schedule 1 fail kv/raft 1\ntick 0\nstop 0 1\n")).refused ≡ Some (3, NotThisNet) }
    ensures no_copies_on_a_bag { (replayed (codes "schedule 1 bag lock 2\nin 1 lock\ndup 0\n")).refused ≡ Some (3, NotThisNet) }
    ensures word_cut_short { (replayed (codes "schedule 1 bag lock 2\ni 1 lock\n")).refused ≡ Some (2, UnknownWord) }
    ensures word_too_long { (replayed (codes "schedule 1 bag lock 2\nticks 0\n")).refused ≡ Some (2, UnknownWord) }
    ensures no_second_space { (replayed (codes "schedule 1 bag lock 2\nin 1\n")).refused ≡ Some (2, UnknownWord) }
    ensures one_node { (replayed (codes "schedule 1 bag lock 1\n")).refused ≡ Some (1, Header) }
    ensures ten_nodes { (replayed (codes "#\nschedule 1 bag lock 10\n")).refused ≡ Some (2, Header) }
    ensures only_comments { (replayed (codes "#\n#\n")).refused ≡ Some (3, Header) }
    ensures counted { (replayed handover).counts
        ≡ record { events = 3; inputs = 1; outputs = 1; replies = 1; image = 3 } }
    ensures comments_are_no_events { (replayed (codes "# two nodes\n\nschedule 1 bag lock 2\n# nothing\ndeliver 7\n")).refused ≡ Some (5, NoCopy) }

    // Two clients: the second waits until the first gives the lock back.
    ensures waits { (replayed (codes "schedule 1 bag lock 3\nin 1 lock\nin 2 lock\ndeliver 0\ndeliver 1\ndeliver 2\nin 1 unlock\ndeliver 3\ndeliver 4\n")).out
        ≡ codes "in 1 lock\nin 2 lock\nout 1 locked\nin 1 unlock\nout 2 locked\nbelow\nschedule 1 bag lock 3\nin 1 lock\nin 2 lock\ndeliver 0\ndeliver 1\ndeliver 2\nin 1 unlock\ndeliver 3\ndeliver 4\n" }

    // Packets overtake one another: the second client's comes first.
    ensures overtakes { (replayed (codes "schedule 1 bag lock 3\nin 1 lock\nin 2 lock\ndeliver 1\ndeliver 0\ndeliver 2\n")).out
        ≡ codes "in 1 lock\nin 2 lock\nout 2 locked\nbelow\nschedule 1 bag lock 3\nin 1 lock\nin 2 lock\ndeliver 1\ndeliver 0\ndeliver 2\n" }

    // A copy does nothing; packets overtake one another; two senders have equal numbers.
    ensures copied { (replayed (codes "schedule 1 dup lock/seq 2\nin 1 lock\ndup 0\ndeliver 0\ndeliver 1\ndeliver 0\n")).out
        ≡ handover_claim }
    ensures copies_counted { (replayed (codes "schedule 1 dup lock/seq 2\nin 1 lock\ndup 0\ndeliver 0\ndeliver 1\ndeliver 0\n")).counts
        ≡ record { events = 5; inputs = 1; outputs = 1; replies = 1; image = 3 } }
    ensures late_first_delivery { (replayed (codes "schedule 1 dup lock/seq 2\nin 1 lock\nin 1 lock\ndeliver 1\ndeliver 0\ndeliver 2\nin 1 unlock\ndeliver 3\ndeliver 4\n")).out
        ≡ codes "in 1 lock\nin 1 lock\nout 1 locked\nin 1 unlock\nout 1 locked\nbelow\nschedule 1 bag lock 2\nin 1 lock\nin 1 lock\ndeliver 1\ndeliver 0\ndeliver 2\nin 1 unlock\ndeliver 3\ndeliver 4\n" }
    ensures equal_numbers { (replayed (codes "schedule 1 dup lock/seq 3\nin 1 lock\nin 2 lock\ndeliver 0\ndeliver 1\ndeliver 2\nin 1 unlock\ndeliver 3\ndeliver 4\n")).out
        ≡ codes "in 1 lock\nin 2 lock\nout 1 locked\nin 1 unlock\nout 2 locked\nbelow\nschedule 1 bag lock 3\nin 1 lock\nin 2 lock\ndeliver 0\ndeliver 1\ndeliver 2\nin 1 unlock\ndeliver 3\ndeliver 4\n" }
    ensures nothing_is_lost { (replayed (codes "schedule 1 dup lock/seq 2\nin 1 lock\nlose 0\n")).refused ≡ Some (3, NotThisNet) }

    // Of two values that are put at a node, the second waits for the first: a network of FIFO channels delivers it only then, and over
    // numbers it is held until a tick.
    ensures not_before_the_first { (replayed (codes "schedule 1 ord mirror 2\nin 1 put a\nin 1 put b\ndeliver 1\n")).refused
        ≡ Some (4, NotFirst) }
    ensures held_until_a_tick { (replayed (codes "schedule 1 dup mirror/fifo 2\nin 1 put a\nin 1 put b\ndeliver 1\ndeliver 0\ntick 0\n")).out
        ≡ codes "in 1 put a\nin 1 put b\nout 0 from 1 a\nout 0 from 1 b\nbelow\nschedule 1 ord mirror 2\nin 1 put a\nin 1 put b\ndeliver 0\ndeliver 1\n" }

    // A packet that was lost is sent again by a tick. In the image a packet that comes is copied first, since it may come again; the
    // acknowledgement is left out.
    ensures sent_again { (replayed (codes "schedule 1 loss lock/seq/retry 2\nin 1 lock\nlose 0\ntick 1\ndeliver 1\ndeliver 2\ndeliver 3\n")).out
        ≡ codes "in 1 lock\nout 1 locked\nbelow\nschedule 1 dup lock/seq 2\nin 1 lock\ntick 1\ndup 0\ndeliver 0\ndup 1\ndeliver 1\n" }
    ensures applied_again { (replayed (codes "schedule 1 loss kv/pb/seq/retry 2\nin 0 put a x\ntick 0\ndeliver 0\ndeliver 1\nlose 2\ntick 1\ndeliver 5\n")).out
        ≡ codes "in 0 put a x\nout 0 a =x -\nbelow\nschedule 1 dup kv/pb/seq 2\nin 0 put a x\ntick 0\ndup 0\ndeliver 0\ndup 0\ndeliver 0\ntick 1\ndup 1\ndeliver 1\n" }
    ensures no_node_stops { (replayed (codes "schedule 1 loss lock/seq/retry 2\ncrash 0\n")).refused ≡ Some (2, NotThisNet) }

    // A command waits for the backup to apply it; an acknowledgement that is copied does nothing, and the backup redirects.
    ensures acknowledged { (replayed (codes "schedule 1 bag kv/pb 2\nin 0 put a x\nin 0 get a\ndeliver 0\ndeliver 1\n")).out
        ≡ codes "in 0 put a x\nin 0 get a\nout 0 a =x -\nbelow\nschedule 1 one kv 1\nin 0 put a x\n" }
    ensures acknowledged_twice { (replayed (codes "schedule 1 dup kv/pb/seq 2\nin 0 put a x\nin 0 get a\ndeliver 0\ndup 1\ndeliver 1\ndeliver 1\nin 1 get a\n")).out
        ≡ codes "in 0 put a x\nin 0 get a\nout 0 a =x -\nin 1 get a\nout 1 redirect\nbelow\nschedule 1 one kv 1\nin 0 put a x\n" }
    ensures redirects_are_no_replies { (replayed (codes "schedule 1 bag kv/pb 2\nin 1 get a\n")).counts ≡ record { events = 1; inputs = 1; outputs = 1; replies = 0; image = 0 } }

    // A machine alone answers each command at once.
    ensures at_once { (replayed (codes "schedule 1 one kv 1\nin 0 cas a - x\nin 0 cas a =y z\nin 0 cad a x\nin 0 del a\n")).out
        ≡ codes "in 0 cas a - x\nout 0 a =x -\nin 0 cas a =y z\nout 0 a =x =x\nin 0 cad a x\nout 0 a - =x\nin 0 del a\nout 0 a - -\nbelow\nschedule 1 one kv 1\nin 0 cas a - x\nin 0 cas a =y z\nin 0 cad a x\nin 0 del a\n" }
    ensures one_node_alone { (replayed (codes "schedule 1 one kv 1\nin 1 get a\n")).refused ≡ Some (2, NoSuchNode) }
    ensures a_table_at_once { (replayed (codes "schedule 1 one table 1\nin 0 acquire l bob\nin 0 acquire l al\nin 0 holder m\n")).out
        ≡ codes "in 0 acquire l bob\nout 0 l =bob yes\nin 0 acquire l al\nout 0 l =bob no\nin 0 holder m\nout 0 m - no\nbelow\nschedule 1 one table 1\nin 0 acquire l bob\nin 0 acquire l al\nin 0 holder m\n" }
    ensures a_table_acknowledged { (replayed (codes "schedule 1 dup table/pb/seq 2\nin 0 acquire l bob\ndeliver 0\ndeliver 1\n")).out
        ≡ codes "in 0 acquire l bob\nout 0 l =bob yes\nbelow\nschedule 1 one table 1\nin 0 acquire l bob\n" }
    ensures no_key_value_machine_on_a_bag { (replayed (codes "schedule 1 bag kv 1\n")).refused ≡ Some (1, Header) }

    // A cluster of one node answers at once, and its order is what it executed. A number that comes again is answered as it was,
    // also once the node has stopped and started again; it leads again with a no-op, applies its log, and answers by that too.
    ensures one_node_cluster { (replayed (codes "schedule 1 fail kv/raft 1\ntick 0\nin 0 7 1 put a x\n")).out
        ≡ codes "in 0 7 1 put a x\nout 0 reply 7 1 a =x -\nbelow\norder 7 1 put a x\n" }
    ensures one_node_cluster_counted { (replayed (codes "schedule 1 fail kv/raft 1\ntick 0\nin 0 7 1 put a x\n")).counts
        ≡ record { events = 2; inputs = 1; outputs = 1; replies = 1; image = 1 } }
    ensures asked_again { (replayed (codes "schedule 1 fail kv/raft 1\ntick 0\nin 0 7 1 put a x\ncrash 0\nreboot 0\ntick 0\nin 0 7 1 put a y\n")).out
        ≡ codes "in 0 7 1 put a x\nout 0 reply 7 1 a =x -\nout 0 reply 7 1 a =x -\nin 0 7 1 put a y\nout 0 reply 7 1 a =x -\nbelow\norder 7 1 put a x\n" }
    ensures a_table_on_a_cluster { (replayed (codes "schedule 1 fail table/raft 1\ntick 0\nin 0 1 0 acquire l bob\nin 0 1 1 acquire l al\nin 0 1 2 release l bob\nin 0 1 3 holder l\n")).out
        ≡ codes "in 0 1 0 acquire l bob\nout 0 reply 1 0 l =bob yes\nin 0 1 1 acquire l al\nout 0 reply 1 1 l =bob no\nin 0 1 2 release l bob\nout 0 reply 1 2 l - yes\nin 0 1 3 holder l\nout 0 reply 1 3 l - no\nbelow\norder 1 0 acquire l bob\norder 1 1 acquire l al\norder 1 2 release l bob\norder 1 3 holder l\n" }
    ensures a_vote_outlives_a_reboot { (replayed (codes "schedule 1 fail kv/raft 3\ntick 0\ndeliver 0\ncrash 1\nreboot 1\ntick 2\ndeliver 4\ndeliver 5\nin 2 7 1 put a x\n")).out
        ≡ codes "in 2 7 1 put a x\nout 2 notleader 7 1\nbelow\n" }
    ensures redirected_requests_are_no_replies { (replayed (codes "schedule 1 fail kv/raft 2\nin 1 7 1 get a\n")).counts ≡ record { events = 1; inputs = 1; outputs = 1; replies = 0; image = 0 } }
    ensures node_down { (replayed (codes "schedule 1 fail kv/raft 1\ncrash 0\ncrash 0\n")).refused ≡ Some (3, NodeDown) }
    ensures node_up { (replayed (codes "schedule 1 fail kv/raft 1\nreboot 0\n")).refused ≡ Some (2, NodeUp) }
    ensures nothing_to_lose { (replayed (codes "schedule 1 fail kv/raft 1\nlose 0\n")).refused ≡ Some (2, NoCopy) }
    ensures ten_node_cluster { (replayed (codes "schedule 1 fail kv/raft 10\n")).refused ≡ Some (1, Header) }

    // A text that broke off: its whole lines alone.
    ensures broken_off { (replayed_so_far (codes "schedule 1 bag lock 2\nin 1 lock\nin 1 lo")).out ≡ codes "in 1 lock\n" }
    ensures broken_off_in_order { (replayed_so_far (codes "schedule 1 bag lock 2\nin 1 lock\nin 1 lo")).refused ≡ None }
    ensures broken_off_after_a_refused_line { (replayed_so_far (codes "schedule 1 bag lock 2\nin 1 lock\ndeliver 7\nin 1 lo")).refused ≡ Some (3, NoCopy) }
    ensures the_trace_before_that_line { (replayed_so_far (codes "schedule 1 bag lock 2\nin 1 lock\ndeliver 7\nin 1 lo")).out ≡ codes "in 1 lock\n" }
    ensures broken_off_in_a_refused_line { (replayed_so_far (codes "schedule 1 bag lock 2\ndeliver 7")).refused ≡ None }
    ensures broken_off_before_the_header { (replayed_so_far (codes "# nothing\nsched")).refused ≡ None }
    ensures broken_off_after_no_header { (replayed_so_far (codes "schedule 1\nin 1 lo")).refused ≡ Some (1, Header) }
{}

/// What a replay is: the text of a trace and an image that explains it, and no other text; none of a text that is refused.
#[tactic(auto, unfolding(schedule_text::specs::Headers::header_of))]
pub fn worked_replays()
    ensures handed_over { IsReplay handover handover_claim }
    ensures not_silent { ¬ IsReplay handover (codes "below\nschedule 1 bag lock 2\nin 1 lock\ndeliver 0\ndeliver 1\n") }
    ensures not_another_image { ¬ IsReplay idle (codes "below\nschedule 1 bag lock 3\n") }
    ensures not_without_an_image { ¬ IsReplay idle [] }
    ensures at_once { IsReplay put put_claim }
    ensures not_another_answer { ¬ IsReplay put mistaken_put_claim }
    ensures acknowledged { IsReplay (codes "schedule 1 dup kv/pb/seq 2\nin 0 put a x\ndup 0\ndeliver 0\ndeliver 1\n") put_claim }
    ensures not_without_its_command { ¬ IsReplay (codes "schedule 1 dup kv/pb/seq 2\nin 0 put a x\ndup 0\ndeliver 0\ndeliver 1\n") (codes "in 0 put a x\nout 0 a =x -\nbelow\nschedule 1 one kv 1\n") }
    ensures not_of_a_refused_step { (text : List ℕ) → ¬ IsReplay (codes "schedule 1 bag lock 2\nin 1 lock\ndeliver 7\n") text }
    ensures not_of_a_refused_line { (text : List ℕ) → ¬ IsReplay (codes "schedule 1 bag lock 2\nin 1 grab\n") text }
    ensures not_of_another_header { (text : List ℕ) → ¬ IsReplay (codes "schedule 1 bag kv/raft 1\n") text }
    ensures not_of_nothing { (text : List ℕ) → ¬ IsReplay [] text }
{
    replays_are_explained();
}

/// What is done with what clients saw: it waits while a whole line is at hand that is not skipped, or it is written, counted and cleared.
pub fn worked_playing()
    ensures failed_read { is_failed_read Read ≡ true }
    ensures refused_line_is_no_failed_read { is_failed_read (Refused 3 NoCopy) ≡ false }
    ensures waits { (v : ℕ) (n : Tally) (out : Option (List ℕ)) → Waits (read_ahead (codes "tick 0\n")) v v n n out out }
    ensures not_without_a_newline { (v u : ℕ) (n m : Tally) (out after : Option (List ℕ))
        → ¬ Waits (read_ahead (codes "tick 0")) v u n m out after }
    ensures not_with_a_skipped_line { (v u : ℕ) (n m : Tally) (out after : Option (List ℕ))
        → ¬ Waits (read_ahead (codes "# no step\n")) v u n m out after }
    ensures nothing_is_written_while_it_waits { (v : ℕ) (n : Tally)
        → ¬ Waits (read_ahead (codes "tick 0\n")) v v n n (Some []) (Some (codes "in 1 lock\n")) }
    ensures writes { WritesLocks asked cleared (inputs 4) (inputs 5) (Some (codes "in 2 lock\n")) (Some (codes "in 2 lock\nin 1 lock\n")) }
    ensures not_without_its_text { ¬ WritesLocks asked cleared (inputs 4) (inputs 5) (Some []) (Some []) }
    ensures not_uncleared { ¬ WritesLocks asked asked (inputs 4) (inputs 5) (Some []) (Some (codes "in 1 lock\n")) }
    ensures not_uncounted { ¬ WritesLocks asked cleared (inputs 4) (inputs 4) (Some []) (Some (codes "in 1 lock\n")) }
{}
