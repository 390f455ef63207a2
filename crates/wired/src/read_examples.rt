ghost use Rattle.std.specs.Prelude.{◌≡◌, ◌∷◌, ◌++◌, [], None, Some, true, false};
ghost use Rattle.net_semantics.specs.Runs.{trace};
ghost use Rattle.raft_reads.specs.Examples.{idle, of_three, one_waits, read, reading};
ghost use Rattle.raft_types.specs.declared.client.RaftOut.TheVariants as told;
ghost use Rattle.raft_xform.specs.Examples.{asked, follower, noop};
ghost use Rattle.vst_base.specs.declared.step.Item.TheVariants as item;
ghost use Rattle.wired.specs.ReadExamples.{appended_with, between, entries_after, in_eight, nothing_of, put_and_read, reader_saving, readers_recovery, saved_readers, wired_readers};
ghost use Rattle.wired.specs.Saving.{seat};

/// A leader of three whose reads take no entry, with its packets as bytes: a read begins a round, which its packets have, and which an
/// answer gives back.
#[tactic(auto, unfolding(wire_fields::specs::Bytes::number_bytes, wire_fields::specs::Bytes::number_in, wire_fields::specs::Bytes::has_bytes, wire_fields::specs::Bytes::read_number))]
pub fn worked_rounds()
    ensures a_read_begins_a_round { (wired_readers 3).input 0 (idle 3 of_three) (asked 1 0) ≡ record {
      state = one_waits;
      outputs = [];
      sends = (1, between 0 1 (entries_after 1 1 1 (0 ∷ [])))
          ∷ (2, between 0 2 (entries_after 0 0 1 (1 ∷ (in_eight 1 ++ 0 ∷ [])))) ∷ [];
    } }
    ensures it_is_given_back { ((wired_readers 3).message 1 (idle 3 (follower 1 (Some 0) (noop 1 ∷ []))) 0
        (between 0 1 (entries_after 1 1 9 (0 ∷ [])))).sends ≡ (0, between 1 0 (appended_with (in_eight 9))) ∷ [] }
    ensures an_answer_of_it { (wired_readers 3).message 0 one_waits 1 (between 1 0 (appended_with (in_eight 1))) ≡ record {
      state = reading of_three 1 (0 ∷ 1 ∷ 0 ∷ []) [] (read 1 1 1 ∷ []);
      outputs = told.Reply 7 1 0 ∷ [];
      sends = [];
    } }
    ensures an_answer_of_none { (wired_readers 3).message 0 one_waits 1 (between 1 0 (appended_with (in_eight 0))) ≡ nothing_of one_waits }
    ensures an_answer_without_one { (wired_readers 3).message 0 one_waits 1 (between 1 0 (appended_with [])) ≡ nothing_of one_waits }
    ensures past_the_greatest { (wired_readers 3).message 0 one_waits 1
        (between 1 0 (appended_with (64 ∷ 0 ∷ 0 ∷ 0 ∷ 0 ∷ 0 ∷ 0 ∷ 1 ∷ []))) ≡ nothing_of one_waits }
{}

/// A node whose reads take no entry keeps what a node of Raft keeps, and starts without reads; and alone it answers a read on bytes.
#[tactic(auto, unfolding(wire_fields::specs::Bytes::number_bytes, wire_fields::specs::Bytes::number_in, wire_fields::specs::Bytes::has_bytes, wire_fields::specs::Bytes::read_number))]
pub fn worked_readers()
    ensures reads_are_not_kept { (readers_recovery 3).keep (seat 0 one_waits) ≡ (readers_recovery 3).keep (seat 0 (idle 3 of_three)) }
    ensures starts_without_reads { (readers_recovery 3).reboot 0 ((readers_recovery 3).keep (seat 0 one_waits))
        ≡ seat 0 (idle 3 (follower 1 (Some 0) (noop 1 ∷ []))) }
    ensures not_of_another_node { (reader_saving 3).read 1 ((readers_recovery 3).keep (seat 0 one_waits)) ≡ None }
    ensures put_and_read { trace (saved_readers 1) (readers_recovery 1) put_and_read
        ≡ item.Input 0 (asked 1 5) ∷ item.Output 0 (told.Reply 7 1 0) ∷ item.Output 0 (told.Reply 7 1 0)
        ∷ item.Input 0 (asked 2 0) ∷ item.Output 0 (told.Reply 7 2 5) ∷ [] }
{}
