ghost use Rattle.std.specs.Prelude.{◌≡◌, [], ◌∷◌, ◌++◌, None, Some, false, true, codes, replicate};
ghost use Rattle.vst_base.specs.Firsts.{first_of};
ghost use Rattle.line_reader.specs.Lines.{LastEnds, cut_at, has_cut, after_lines, decided, lines_of, whole_lines};
ghost use Rattle.line_reader.specs.Whys.{line_refusals, why_text};

use crate::Why;

/// Lines, what decides them and their limits, on examples.
pub fn worked()
    ensures no_line { lines_of (codes "") ≡ [] }
    ensures last_line { lines_of (codes "a") ≡ codes "a" ∷ [] }
    ensures ended_line { lines_of (codes "a\n") ≡ codes "a" ∷ [] }
    ensures empty_line_between { lines_of (codes "a\n\nb") ≡ codes "a" ∷ [] ∷ codes "b" ∷ [] }
    ensures empty_lines { lines_of (codes "\n\n") ≡ [] ∷ [] ∷ [] }
    ensures whole { whole_lines (codes "a\nb") ≡ codes "a" ∷ [] }
    ensures cut { (cut_at 32 (codes "in 1 lock") ≡ Some (codes "in", codes "1 lock")) × (cut_at 32 (codes "in") ≡ None) }
    ensures after { (after_lines 1 (codes "a\nb\nc") ≡ codes "b\nc") × (after_lines 3 (codes "a\nb\nc") ≡ []) }
    ensures decided_by_newline { (decided 1 (codes "ab\nc\n") ≡ 3) × (decided 2 (codes "ab\nc\n") ≡ 5) }
    ensures decided_by_end { (decided 2 (codes "ab\nc") ≡ 4) × (decided 3 (codes "ab\nc") ≡ 4) × (decided 1 [] ≡ 0) }
    ensures decided_by_length { (decided 1 (replicate 4100 35) ≡ 4097) × (decided 1 (replicate 4096 35 ++ 10 ∷ codes "ab") ≡ 4097) × (decided 1 (replicate 4095 35 ++ 10 ∷ codes "ab") ≡ 4096) }
    ensures longest { first_of (line_refusals 2000000 1 (replicate 4096 35)) ≡ None }
    ensures too_long { first_of (line_refusals 2000000 1 (replicate 4097 35)) ≡ Some Why.LineTooLong }
    ensures last { first_of (line_refusals 2000000 2000000 []) ≡ None }
    ensures too_many { first_of (line_refusals 2000000 2000001 []) ≡ Some Why.TooManyEvents }
    ensures length_first { first_of (line_refusals 2000000 2000001 (replicate 4097 35)) ≡ Some Why.LineTooLong }
    ensures words { (why_text Why.NotFirst ≡ codes "not first") × (why_text Why.NodeBusy ≡ codes "node busy") × (why_text Why.NodeIdle ≡ codes "node idle") }
    ensures last_word { why_text Why.PairUsed ≡ codes "pair used" }
{}

/// Where the last newline of some bytes ends, on examples.
pub fn worked_ends()
    ensures there_is_one { has_cut 10 (codes "a\nb") ≡ true }
    ensures there_is_none { (has_cut 10 (codes "ab") ≡ false) × (has_cut 10 [] ≡ false) }
    ensures last_of_two { LastEnds 10 (codes "a\nb\nc") 4 }
    ensures at_the_end { LastEnds 10 (codes "\n") 1 }
    ensures of_none { LastEnds 10 (codes "ab") 0 }
    ensures not_the_first_of_two { LastEnds 10 (codes "a\nb\nc") 2 → ⊥ }
    ensures not_before_it_ends { LastEnds 10 (codes "a\n") 1 → ⊥ }
    ensures not_where_there_is_none { LastEnds 10 (codes "ab") 1 → ⊥ }
{}
