ghost use Rattle.std.specs.Prelude.{◌≡◌};
ghost use Rattle.stacks.specs.Examples.{as_itself, copied, delivered, in_order, in_turn, lost, over_itself, repeated, retried, swapped, through};

/// Images of layers over the lock server: through numbered packets the schedule without its repeats; where layers are a stack whose image
/// is its own schedule, that schedule; and through numbered packets over such a stack, the schedule within. Of the mirror over FIFO
/// channels the schedule in which packets come in order. And of such a stack with packets that are sent again its own schedule, with a copy
/// before each delivery.
pub fn worked_layers()
    ensures through { through repeated ≡ delivered }
    ensures not_with_repeats { through repeated ≡ repeated → ⊥ }
    ensures as_itself { as_itself repeated ≡ repeated }
    ensures not_without_repeats { as_itself repeated ≡ delivered → ⊥ }
    ensures over_itself { over_itself repeated ≡ delivered }
    ensures not_as_it_runs { over_itself repeated ≡ repeated → ⊥ }
    ensures in_order { in_order swapped ≡ in_turn }
    ensures not_as_they_come { in_order swapped ≡ swapped → ⊥ }
    ensures retried { retried lost ≡ copied }
    ensures not_as_sent { retried lost ≡ lost → ⊥ }
{}
