ghost use Rattle.std.specs.Prelude.{ℕ, ◌≤◌};
ghost use Rattle.stacks.specs.Plays.{IfFound};
ghost use Rattle.stacks.specs.Made.{makes};
ghost use Rattle.stacks.specs.Table.{kind_at};
ghost use Rattle.vst_base.specs.Stacks.{row_of};
ghost use Rattle.vst_base.specs.declared.node.TheConstants.{MAX_NODES};
ghost use Rattle.vst_base.specs.declared.stack.StackId.{StackId};
ghost use Rattle.made_schedules.specs.Makes.{AllHaveLines, KindMakes};

/// Schedules are made for the kind of each stack: its events send few packets, and its inputs have short texts that are read back. So
/// they have lines, whatever number of nodes it has.
pub fn each_stack_has_lines()
    ensures makes { (i : StackId) → IfFound (kind_at (row_of i).net i) KindMakes }
    ensures lines { (i : StackId) (nodes : ℕ) → nodes ≤ MAX_NODES
        → IfFound (kind_at (row_of i).net i) (λ k. AllHaveLines (makes k nodes)) }
{}
