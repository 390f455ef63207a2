ghost use Rattle.std.specs.Prelude.{◌≡◌, ◌-◌, ◌^◌, true, false, [], ◌∷◌};
ghost use Rattle.outside_mem.specs.Counts.{is_due};
ghost use Rattle.outside_mem.specs.Examples.{sink, source, steady};
ghost use Rattle.outside_mem.specs.Sinks.{MayAnswer, WritesSteadily, after_write};
ghost use Rattle.outside_mem.specs.Sources.{after_read, filled, read_outcome};

use outside::{ReadOutcome, WriteOutcome};

/// Calls are counted from 1.
pub fn worked_scripts()
    ensures third { is_due (3 ∷ 5 ∷ []) 2 ≡ true }
    ensures fourth { is_due (3 ∷ 5 ∷ []) 3 ≡ false }
    ensures fifth { is_due (3 ∷ 5 ∷ []) 4 ≡ true }
    ensures none { is_due [] 0 ≡ false }
    ensures at_the_greatest { is_due ((2 ^ 64 - 1) ∷ []) (2 ^ 64 - 1) ≡ true }
{}

/// Reads into a buffer, of three bytes that are left: at most two in a read, and the third read fails.
pub fn worked_reads()
    ensures cut { read_outcome (source 0) 4 ≡ ReadOutcome.Got 2 }
    ensures into_one { read_outcome (source 0) 1 ≡ ReadOutcome.Got 1 }
    ensures into_none { read_outcome (source 0) 0 ≡ ReadOutcome.Got 0 }
    ensures fails { read_outcome (source 2) 4 ≡ ReadOutcome.Failed }
    ensures left { (after_read (source 0) (ReadOutcome.Got 2)).left ≡ 9 ∷ [] }
    ensures called { (after_read (source 0) (ReadOutcome.Got 2)).calls ≡ 1 }
    ensures not_counted { (after_read (source 0) (ReadOutcome.Got 2)).faults ≡ 5 }
    ensures counted { (after_read (source 2) ReadOutcome.Failed).faults ≡ 6 }
    ensures left_still { (after_read (source 2) ReadOutcome.Failed).left ≡ 7 ∷ 8 ∷ 9 ∷ [] }
    ensures front { filled (7 ∷ 8 ∷ 9 ∷ []) (ReadOutcome.Got 2) (0 ∷ 0 ∷ 0 ∷ 0 ∷ []) ≡ 7 ∷ 8 ∷ 0 ∷ 0 ∷ [] }
    ensures unfilled { filled (7 ∷ 8 ∷ 9 ∷ []) ReadOutcome.Failed (0 ∷ 0 ∷ []) ≡ 0 ∷ 0 ∷ [] }
{}

/// Writes of three bytes: at most two are taken, the second write wants memory, and the third fails though it is to want memory too.
pub fn worked_writes()
    ensures takes { MayAnswer (sink 0) 3 (WriteOutcome.Took 2) }
    ensures takes_more { MayAnswer (sink 0) 3 (WriteOutcome.Took 3) → ⊥ }
    ensures takes_less { MayAnswer (sink 0) 3 (WriteOutcome.Took 1) → ⊥ }
    ensures wants_unasked { MayAnswer (sink 0) 3 WriteOutcome.Memory }
    ensures wants { MayAnswer (sink 1) 3 WriteOutcome.Memory }
    ensures takes_where_it_wants { MayAnswer (sink 1) 3 (WriteOutcome.Took 2) → ⊥ }
    ensures fails_where_it_wants { MayAnswer (sink 1) 3 WriteOutcome.Failed → ⊥ }
    ensures fails { MayAnswer (sink 2) 3 WriteOutcome.Failed }
    ensures wants_where_it_fails { MayAnswer (sink 2) 3 WriteOutcome.Memory → ⊥ }
    ensures written { (after_write (sink 0) (7 ∷ 8 ∷ 9 ∷ []) (WriteOutcome.Took 2)).written ≡ 1 ∷ 7 ∷ 8 ∷ [] }
    ensures unwritten { (after_write (sink 2) (7 ∷ []) WriteOutcome.Failed).written ≡ 1 ∷ [] }
    ensures fault { (after_write (sink 2) (7 ∷ []) WriteOutcome.Failed).faults ≡ 6 }
    ensures no_want { (after_write (sink 2) (7 ∷ []) WriteOutcome.Failed).wants ≡ 6 }
    ensures want { (after_write (sink 1) (7 ∷ []) WriteOutcome.Memory).wants ≡ 7 }
    ensures no_fault { (after_write (sink 1) (7 ∷ []) WriteOutcome.Memory).faults ≡ 5 }
    ensures called { (after_write (sink 1) (7 ∷ []) WriteOutcome.Memory).calls ≡ 2 }
{}

/// A steady sink takes a piece whole, or wants memory for it.
pub fn worked_steady_writes()
    ensures takes { WritesSteadily (steady (1 ∷ []) 0) (steady (1 ∷ 7 ∷ 8 ∷ []) 0) (7 ∷ 8 ∷ []) (WriteOutcome.Took 2) }
    ensures takes_a_part { WritesSteadily (steady (1 ∷ []) 0) (steady (1 ∷ 7 ∷ []) 0) (7 ∷ 8 ∷ []) (WriteOutcome.Took 1) → ⊥ }
    ensures loses_a_part { WritesSteadily (steady (1 ∷ []) 0) (steady (1 ∷ 7 ∷ []) 0) (7 ∷ 8 ∷ []) (WriteOutcome.Took 2) → ⊥ }
    ensures never_fails { WritesSteadily (steady [] 0) (steady [] 0) (7 ∷ []) WriteOutcome.Failed → ⊥ }
    ensures wants { WritesSteadily (steady [] 0) (steady [] 1) (7 ∷ []) WriteOutcome.Memory }
    ensures wants_uncounted { WritesSteadily (steady [] 0) (steady [] 0) (7 ∷ []) WriteOutcome.Memory → ⊥ }
    ensures wants_and_takes { WritesSteadily (steady [] 0) (steady (7 ∷ []) 1) (7 ∷ []) WriteOutcome.Memory → ⊥ }
{}
