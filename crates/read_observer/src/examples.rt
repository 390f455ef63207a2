ghost use Rattle.std.specs.Prelude.{◌≡◌, ℕ, [], ◌∷◌, ◌++◌, map, None, Some};
ghost use Rattle.linearizability.specs.Examples.{asks};
ghost use Rattle.raft_reads.specs.Examples.{adds_nothing};
ghost use Rattle.read_observer.specs.Examples.{reads_with_its_number, two_reads, writes_with_its_number};
ghost use Rattle.read_observer.specs.Pairs.{first_of_both, first_used};
ghost use Rattle.reads_safety.specs.Examples.{acknowledged, counters, eight_reads, five, nine_reads, read_twice, six};
ghost use Rattle.reads_safety.specs.Orders.{insert_all, order};
ghost use Rattle.vst_base.specs.declared.step.Step.TheVariants as step;

use vst_base::StepRefusal;

/// Requests and reads by their places: a read that comes late stands in the middle, behind those of its place, and reads of one
/// place stand as they were answered.
pub fn worked_orders()
    ensures late_in_the_middle { map (λ p. p.1) (insert_all [] ((2, five) ∷ (4, six) ∷ (2, eight_reads) ∷ []))
        ≡ five ∷ eight_reads ∷ six ∷ [] }
    ensures two_of_one_place { map (λ p. p.1) (insert_all [] ((2, five) ∷ (4, six) ∷ (2, nine_reads) ∷ (2, eight_reads) ∷ []))
        ≡ five ∷ nine_reads ∷ eight_reads ∷ six ∷ [] }
    ensures before_all { map (λ p. p.1) (insert_all [] ((2, five) ∷ (4, six) ∷ (3, nine_reads) ∷ (1, eight_reads) ∷ []))
        ≡ eight_reads ∷ five ∷ nine_reads ∷ six ∷ [] }
    ensures of_a_node_alone { order (counters 1) two_reads ≡ five ∷ eight_reads ∷ nine_reads ∷ [] }
{}

/// Which step uses a pair again where a read is concerned: a read or a write whose pair a read had, and a read whose pair a write had.
/// A request may come again, and a client may go on.
pub fn worked_pairs()
    ensures by_a_read { first_used adds_nothing reads_with_its_number ≡ Some 1 }
    ensures by_a_write { first_used adds_nothing writes_with_its_number ≡ Some 2 }
    ensures by_the_same_read { first_used adds_nothing read_twice ≡ Some 11 }
    ensures two_writes { first_used adds_nothing (step.In 0 five ∷ step.In 0 five ∷ step.In 1 (asks 7 1 9) ∷ []) ≡ None }
    ensures of_another_number { first_used adds_nothing (step.In 0 five ∷ step.In 0 (asks 7 2 0) ∷ []) ≡ None }
    ensures of_another_client { first_used adds_nothing (step.In 0 eight_reads ∷ step.In 0 nine_reads ∷ []) ≡ None }
    ensures never { first_used adds_nothing acknowledged ≡ None }
    ensures the_first_of_both { first_of_both (Some (2, StepRefusal.NodeDown)) (Some 1) ≡ Some (1, StepRefusal.PairUsed) }
    ensures the_refusal_before { first_of_both (Some (0, StepRefusal.NoCopy)) (Some 1) ≡ Some (0, StepRefusal.NoCopy) }
    ensures the_refusal_at_one_step { first_of_both (Some (1, StepRefusal.NodeDown)) (Some 1) ≡ Some (1, StepRefusal.NodeDown) }
    ensures the_pair_alone { first_of_both None (Some 0) ≡ Some (0, StepRefusal.PairUsed) }
{}
