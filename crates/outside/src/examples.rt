ghost use Rattle.std.specs.Prelude.{◌≡◌, ◌-◌, ◌^◌, [], Some, None, codes};
ghost use Rattle.outside.specs.Counting.{Rose, counted};
ghost use Rattle.outside.specs.Streams.{HasCause, IsRead, IsWritten};
ghost use Rattle.outside.specs.Wholes.{Gained};

use crate::{ReadOutcome, WriteOutcome};

/// Counts after one more, and what counts as risen.
pub fn worked_counts()
    ensures one_more { counted 4 ≡ 5 }
    ensures stops { counted (2 ^ 64 - 1) ≡ 2 ^ 64 - 1 }
    ensures rises { Rose 4 5 }
    ensures as_it_was { Rose 4 4 → ⊥ }
    ensures at_the_greatest { Rose (2 ^ 64 - 1) (2 ^ 64 - 1) }
{}

/// Reads of `abc` into a buffer, at its end, and of a source that tells nothing.
pub fn worked_reads()
    ensures two_of_three { IsRead (Some (codes "abc")) (Some (codes "c")) 0 0 (codes "....") (codes "ab..") (ReadOutcome.Got 2) }
    ensures other_bytes { IsRead (Some (codes "abc")) (Some (codes "c")) 0 0 (codes "....") (codes "ac..") (ReadOutcome.Got 2) → ⊥ }
    ensures a_byte_lost { IsRead (Some (codes "abc")) (Some []) 0 0 (codes "....") (codes "ab..") (ReadOutcome.Got 2) → ⊥ }
    ensures more_than_there_is { IsRead (Some (codes "a")) (Some []) 0 0 (codes "....") (codes "a...") (ReadOutcome.Got 2) → ⊥ }
    ensures the_end { IsRead (Some []) (Some []) 0 0 (codes ".") (codes ".") (ReadOutcome.Got 0) }
    ensures the_end_though_a_byte_is_left { IsRead (Some (codes "a")) (Some (codes "a")) 0 0 (codes ".") (codes ".") (ReadOutcome.Got 0) → ⊥ }
    ensures no_room { IsRead (Some (codes "a")) (Some (codes "a")) 0 0 [] [] (ReadOutcome.Got 0) }
    ensures failed { IsRead (Some (codes "a")) (Some (codes "a")) 0 1 (codes ".") (codes ".") ReadOutcome.Failed }
    ensures failed_uncounted { IsRead (Some (codes "a")) (Some (codes "a")) 0 0 (codes ".") (codes ".") ReadOutcome.Failed → ⊥ }
    ensures counted_though_it_gave { IsRead (Some (codes "a")) (Some []) 0 1 (codes ".") (codes "a") (ReadOutcome.Got 1) → ⊥ }
    ensures untold { IsRead None None 0 0 (codes ".") (codes "x") (ReadOutcome.Got 1) }
{}

/// Writes to a sink that holds `a`, and their causes.
pub fn worked_writes()
    ensures two_of_three { IsWritten (Some (codes "a")) (Some (codes "abc")) (codes "bcd") (WriteOutcome.Took 2) }
    ensures other_bytes { IsWritten (Some (codes "a")) (Some (codes "acd")) (codes "bcd") (WriteOutcome.Took 2) → ⊥ }
    ensures none_of_a_piece { IsWritten (Some (codes "a")) (Some (codes "a")) (codes "b") (WriteOutcome.Took 0) → ⊥ }
    ensures none_of_nothing { IsWritten (Some (codes "a")) (Some (codes "a")) [] (WriteOutcome.Took 0) }
    ensures more_than_there_is { IsWritten (Some (codes "a")) (Some (codes "ab")) (codes "b") (WriteOutcome.Took 2) → ⊥ }
    ensures failed { IsWritten (Some (codes "a")) (Some (codes "a")) (codes "b") WriteOutcome.Failed }
    ensures failed_though_it_took { IsWritten (Some (codes "a")) (Some (codes "ab")) (codes "b") WriteOutcome.Failed → ⊥ }
    ensures failure_has_a_fault { HasCause 0 1 0 0 WriteOutcome.Failed }
    ensures failure_without_a_fault { HasCause 0 0 0 0 WriteOutcome.Failed → ⊥ }
    ensures want_is_no_fault { HasCause 0 0 0 1 WriteOutcome.Memory }
    ensures want_told_as_a_fault { HasCause 0 1 0 1 WriteOutcome.Memory → ⊥ }
    ensures whole { Gained (Some (codes "a")) (Some (codes "abc")) (codes "bc") }
    ensures not_whole { Gained (Some (codes "a")) (Some (codes "ab")) (codes "bc") → ⊥ }
{}
