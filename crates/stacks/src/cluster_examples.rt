ghost use Rattle.std.specs.Prelude.{◌≡◌, [], ◌∷◌, None, Some};
ghost use Rattle.reads_safety.specs.Examples.{alone, deposed, eight_reads, five};
ghost use Rattle.stacks.specs.ClusterExamples.{counting, read_again, read_while_down, reading};
ghost use Rattle.vst_base.specs.declared.step.StepRefusal.TheVariants as refusal;

/// Clusters with entries for reads and without: where reads take none, a read that is put in again is refused, unless the network refuses
/// the step already; and the order has the reads that were answered, and no read that was not.
pub fn worked_clusters()
    ensures entries_may_repeat { counting.refused 1 read_again ≡ None }
    ensures reads_may_not { reading.refused 1 read_again ≡ Some (3, refusal.PairUsed) }
    ensures the_network_comes_first { reading.refused 1 read_while_down ≡ Some (4, refusal.NodeDown) }
    ensures allowed { reading.refused 1 alone ≡ None }
    ensures ordered { reading.order 1 alone ≡ five ∷ eight_reads ∷ [] }
    ensures without_the_unanswered { reading.order 3 deposed ≡ five ∷ [] }
{}
