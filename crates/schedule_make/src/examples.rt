ghost use Rattle.std.specs.Prelude.{◌≡◌, ◌+◌, ℕ, [], ◌∷◌, true, false, None, Some, codes, map};
ghost use Rattle.handler_trait.specs.Echo.{echo, echo_recovery};
ghost use Rattle.kv_machine.specs.declared.cmd.KvCmd.{KvCmd};
ghost use Rattle.lock_table.specs.declared.cmd.TableCmd.{TableCmd};
ghost use Rattle.vst_base.specs.declared.mirror.MirrorInput.{MirrorInput};
ghost use Rattle.net_semantics.specs.Echo.{echo_after};
ghost use Rattle.net_semantics.specs.Worlds.{first_world};
ghost use Rattle.vst_base.specs.declared.lock.LockInput.{LockInput};
ghost use Rattle.vst_base.specs.declared.net.Net.{Net};
ghost use Rattle.vst_base.specs.declared.step.Step.{Step};
ghost use Rattle.vst_base.specs.declared.step.StepKind.{StepKind};
ghost use Rattle.schedule_make.specs.Candidates.{candidates, chosen, drawn_kind, in_turn, made_kind, may_act};
ghost use Rattle.schedule_make.specs.Examples.{all_stopped, first_came, flights, half_stopped, two_lanes};
ghost use Rattle.schedule_make.specs.Flying.{IsInTurn, KnowsFlights, KnowsTurns, flights_of, seen, seen_in_order, turns_of, ways_of};
ghost use Rattle.schedule_make.specs.Inputs.{kv_input, lock_input, mirror_input, table_input};
ghost use Rattle.schedule_make.specs.Made.{made, made_step};
ghost use Rattle.schedule_make.specs.Offers.{offered, picked};

/// Kinds by words, and which candidate a word takes.
pub fn worked()
    ensures kinds { map drawn_kind (0 ∷ 3 ∷ 4 ∷ 5 ∷ 6 ∷ 7 ∷ 8 ∷ 9 ∷ 15 ∷ 16 ∷ 21 ∷ [])
        ≡ StepKind.In ∷ StepKind.In ∷ StepKind.Tick ∷ StepKind.Dup ∷ StepKind.Lose ∷ StepKind.Crash ∷ StepKind.Reboot
        ∷ StepKind.Deliver ∷ StepKind.Deliver ∷ StepKind.In ∷ StepKind.Dup ∷ [] }
    ensures counted_round { map (chosen (3 ∷ 5 ∷ 8 ∷ [])) (0 ∷ 2 ∷ 3 ∷ 7 ∷ []) ≡ 3 ∷ 8 ∷ 3 ∷ 5 ∷ [] }
{}

/// The inputs of some words and places.
pub fn worked_inputs()
    ensures lock { map (λ x. lock_input x 9) (0 ∷ 1 ∷ 6 ∷ []) ≡ LockInput.Lock ∷ LockInput.Unlock ∷ LockInput.Lock ∷ [] }
    ensures put { kv_input 15 19 ≡ KvCmd.Put (codes "k7") (codes "v19") }
    ensures cas { kv_input 25 1 ≡ KvCmd.Cas (codes "k1") None (codes "v1") }
    ensures get { kv_input 32 4 ≡ KvCmd.Get (codes "k0") }
    ensures del { kv_input 23 4 ≡ KvCmd.Del (codes "k7") }
    ensures release { table_input 207 0 ≡ TableCmd.Release (codes "l7") (codes "o3") }
    ensures holder { table_input 17 0 ≡ TableCmd.Holder (codes "l1") }
    ensures acquire { table_input 216 0 ≡ TableCmd.Acquire (codes "l0") (codes "o3") }
    ensures put_for_the_mirror { mirror_input 5 7 ≡ MirrorInput.Put (codes "v7") }
    ensures of_any_word { mirror_input 4294967295 0 ≡ MirrorInput.Put (codes "v0") }
    ensures of_a_later_place { mirror_input 0 12 ≡ MirrorInput.Put (codes "v12") }
{}

/// Which steps there are of each kind where a node has stopped, and which kind is made where there is none.
pub fn worked_candidates()
    ensures inputs { candidates Net.Fail (echo 2) half_stopped StepKind.In ≡ [] }
    ensures inputs_at_first { candidates Net.Fail (echo 2) (first_world {K = ℕ} (echo 2)) StepKind.In ≡ 1 ∷ [] }
    ensures ticks { candidates Net.Fail (echo 2) half_stopped StepKind.Tick ≡ 0 ∷ [] }
    ensures crashes { candidates Net.Fail (echo 2) half_stopped StepKind.Crash ≡ 0 ∷ [] }
    ensures reboots { candidates Net.Fail (echo 2) half_stopped StepKind.Reboot ≡ 1 ∷ [] }
    ensures copies { candidates Net.Fail (echo 2) half_stopped StepKind.Dup ≡ 1 ∷ 2 ∷ [] }
    ensures losses { candidates Net.Fail (echo 2) half_stopped StepKind.Lose ≡ 1 ∷ 2 ∷ [] }
    ensures deliveries { candidates Net.Fail (echo 2) half_stopped StepKind.Deliver ≡ 2 ∷ [] }
    ensures at_a_node { map (may_act (echo 2) half_stopped StepKind.Tick) (0 ∷ 1 ∷ []) ≡ true ∷ false ∷ [] }
    ensures of_a_packet { may_act (echo 2) half_stopped StepKind.Deliver 0 ≡ false }
    ensures there_is_one { made_kind Net.Fail (echo 2) half_stopped StepKind.Reboot ≡ StepKind.Reboot }
    ensures there_is_none { made_kind Net.Fail (echo 2) half_stopped StepKind.In ≡ StepKind.Tick }
    ensures not_on_this_network { made_kind Net.Bag (echo 2) half_stopped StepKind.Dup ≡ StepKind.Tick }
    ensures no_tick_either { made_kind Net.Fail (echo 2) all_stopped StepKind.Deliver ≡ StepKind.Reboot }
    ensures picks { map (picked (3 ∷ 5 ∷ 8 ∷ [])) (2 ∷ 3 ∷ []) ≡ Some 8 ∷ Some 3 ∷ [] }
    ensures nothing_to_pick { picked [] 7 ≡ None }
    ensures offers { offered Net.Dup (echo 2) half_stopped StepKind.Dup 5 ≡ Some 2 }
    ensures offers_none { offered Net.Bag (echo 2) half_stopped StepKind.Dup 5 ≡ None }
    ensures steps { made_step Net.Fail (echo 2) (λ x i. x + i) half_stopped 7 (record { kind = 6; number = 4; input = 0 }) ≡ Step.Lose 1 }
    ensures step_with_an_input { made_step Net.Bag (echo 2) (λ x i. x + i) (first_world {K = ℕ} (echo 2)) 7 (record { kind = 16; number = 9; input = 20 }) ≡ Step.In 1 27 }
{}

/// What is known of the packets in flight, and what steps do to it.
pub fn worked_flights()
    ensures in_flight { flights_of half_stopped.packets ≡ None ∷ Some 1 ∷ Some 0 ∷ [] }
    ensures known { KnowsFlights (flights (None ∷ Some 1 ∷ Some 0 ∷ []) false) half_stopped }
    ensures a_packet_forgotten { KnowsFlights (flights (None ∷ None ∷ Some 0 ∷ []) false) half_stopped → ⊥ }
    ensures up_though_it_stopped { KnowsFlights (flights (None ∷ Some 1 ∷ Some 0 ∷ []) true) half_stopped → ⊥ }
    ensures came { seen {I = ℕ} half_stopped (Step.Deliver 0) (flights (Some 0 ∷ Some 1 ∷ []) true) ≡ flights (None ∷ Some 1 ∷ []) true }
    ensures a_copy_is_left { seen {I = ℕ} half_stopped (Step.Lose 2) (flights (None ∷ Some 1 ∷ Some 0 ∷ []) true) ≡ flights (None ∷ Some 1 ∷ Some 0 ∷ []) true }
    ensures stopped { seen {I = ℕ} half_stopped (Step.Crash 1) (flights [] true) ≡ flights [] false }
    ensures started { seen {I = ℕ} half_stopped (Step.Reboot 1) (flights [] false) ≡ flights [] true }
    ensures ticked { seen {I = ℕ} half_stopped (Step.Tick 1) (flights (Some 0 ∷ []) true) ≡ flights (Some 0 ∷ []) true }
{}

/// Where the order of packets is kept: which may be delivered, what is known of them, and what a step does to it.
pub fn worked_order()
    ensures first_of_each { candidates Net.Ord (echo 2) two_lanes StepKind.Deliver ≡ 0 ∷ 1 ∷ [] }
    ensures the_next { candidates Net.Ord (echo 2) first_came StepKind.Deliver ≡ 1 ∷ 2 ∷ [] }
    ensures one_lane { candidates Net.Ord (echo 2) (echo_after (Step.In 1 5 ∷ Step.In 1 7 ∷ [])) StepKind.Deliver ≡ 0 ∷ [] }
    ensures in_any_order { candidates Net.Bag (echo 2) two_lanes StepKind.Deliver ≡ 0 ∷ 1 ∷ 2 ∷ [] }
    ensures of_these { in_turn Net.Ord two_lanes (0 ∷ 1 ∷ 2 ∷ []) ≡ 0 ∷ 1 ∷ [] }
    ensures step { made_step Net.Ord (echo 2) (λ x i. x + i) two_lanes 7 (record { kind = 9; number = 2; input = 0 }) ≡ Step.Deliver 0 }
    ensures in_flight { ways_of first_came.packets ≡ None ∷ Some (0, 0) ∷ Some (1, 0) ∷ [] }
    ensures known { KnowsTurns Net.Ord (Some (Some (1, 0) ∷ Some (0, 0) ∷ Some (1, 0) ∷ [])) two_lanes }
    ensures nothing_known { KnowsTurns Net.Ord None two_lanes → ⊥ }
    ensures not_where_they_come_in_any { turns_of Net.Bag two_lanes.packets ≡ None }
    ensures came { seen_in_order {I = ℕ} first_came (Step.Deliver 0) (Some (Some (1, 0) ∷ Some (0, 0) ∷ [])) ≡ Some (None ∷ Some (0, 0) ∷ []) }
    ensures ticked { seen_in_order {I = ℕ} two_lanes (Step.Tick 0) (Some (Some (1, 0) ∷ [])) ≡ Some (Some (1, 0) ∷ []) }
    ensures its_turn { IsInTurn {I = ℕ} (Some (Some (1, 0) ∷ Some (1, 0) ∷ [])) (Step.Deliver 0) }
    ensures not_its_turn { IsInTurn {I = ℕ} (Some (Some (1, 0) ∷ Some (1, 0) ∷ [])) (Step.Deliver 1) → ⊥ }
    ensures made { made Net.Ord (echo 2) echo_recovery (λ x i. i) 1 16
        ≡ Step.In 1 0 ∷ Step.In 1 1 ∷ Step.Tick 1 ∷ Step.Deliver 2 ∷ Step.Deliver 0 ∷ Step.Tick 0 ∷ Step.Deliver 1 ∷ Step.In 1 7 ∷
        Step.Tick 0 ∷ Step.Deliver 4 ∷ Step.Deliver 3 ∷ Step.Tick 0 ∷ Step.Deliver 5 ∷ Step.Tick 0 ∷ Step.In 1 14 ∷ Step.Deliver 8 ∷ [] }
    ensures made_of_2 { made Net.Ord (echo 2) echo_recovery (λ x i. i) 2 14
        ≡ Step.Tick 0 ∷ Step.Deliver 0 ∷ Step.Tick 0 ∷ Step.Deliver 1 ∷ Step.Tick 0 ∷ Step.Tick 1 ∷ Step.Deliver 3 ∷ Step.Tick 1 ∷
        Step.Tick 1 ∷ Step.Tick 0 ∷ Step.Deliver 4 ∷ Step.In 1 11 ∷ Step.Deliver 5 ∷ Step.In 1 13 ∷ [] }
{}
