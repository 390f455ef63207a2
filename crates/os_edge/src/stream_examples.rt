ghost use Rattle.std.specs.Prelude.{◌≡◌, ◌-◌, ◌^◌, [], None, Some, codes};
ghost use Rattle.os_edge.specs.StreamExamples.{reads_abc, writes_bcd};
ghost use Rattle.os_edge.specs.Faults.{after_read, after_write};
ghost use Rattle.os_edge.specs.Streams.{ReadsThrough, WritesThrough};

use outside::{ReadOutcome, WriteOutcome};

/// Counts of faults after a read or a write: a failure is one more, up to the greatest, and no other answer is.
pub fn worked_faults()
    ensures a_read { after_read 5 (ReadOutcome.Got 3) ≡ 5 }
    ensures a_failed_read { after_read 5 ReadOutcome.Failed ≡ 6 }
    ensures a_failed_read_at_the_greatest { after_read (2 ^ 64 - 1) ReadOutcome.Failed ≡ 2 ^ 64 - 1 }
    ensures a_failed_read_uncounted { after_read 5 ReadOutcome.Failed ≡ 5 → ⊥ }
    ensures a_write { after_write 5 (WriteOutcome.Took 3) ≡ 5 }
    ensures a_failed_write { after_write 5 WriteOutcome.Failed ≡ 6 }
    ensures a_failed_write_at_the_greatest { after_write (2 ^ 64 - 1) WriteOutcome.Failed ≡ 2 ^ 64 - 1 }
    ensures a_failed_write_uncounted { after_write 5 WriteOutcome.Failed ≡ 5 → ⊥ }
    ensures want_of_memory { after_write 5 WriteOutcome.Memory ≡ 5 }
    ensures want_counted_as_a_fault { after_write 5 WriteOutcome.Memory ≡ 6 → ⊥ }
{}

/// Reads of a stream that has `abc`, of one at its end, and of one whose bytes are not known.
pub fn worked_reads()
    ensures two_of_three { reads_abc (codes "c") (codes "ab..") (ReadOutcome.Got 2) }
    ensures other_bytes { reads_abc (codes "c") (codes "ac..") (ReadOutcome.Got 2) → ⊥ }
    ensures a_byte_lost { reads_abc [] (codes "ab..") (ReadOutcome.Got 2) → ⊥ }
    ensures a_byte_given_and_left { reads_abc (codes "bc") (codes "ab..") (ReadOutcome.Got 2) → ⊥ }
    ensures none_though_there_are_some { reads_abc (codes "abc") (codes "....") (ReadOutcome.Got 0) → ⊥ }
    ensures without_room { reads_abc (codes "abc") [] (ReadOutcome.Got 0) }
    ensures the_end { ReadsThrough (Some []) (Some []) (codes "..") (ReadOutcome.Got 0) }
    ensures failed { reads_abc (codes "abc") (codes "....") ReadOutcome.Failed }
    ensures failed_though_it_took { reads_abc (codes "bc") (codes "a...") ReadOutcome.Failed → ⊥ }
    ensures known_no_more { ReadsThrough (Some (codes "abc")) None (codes "ab..") (ReadOutcome.Got 2) → ⊥ }
    ensures unknown { ReadsThrough None None (codes "xy..") (ReadOutcome.Got 2) }
{}

/// Writes of `bcd` to a stream that holds `a`, and to one whose bytes are not known.
pub fn worked_writes()
    ensures two_of_three { writes_bcd (codes "abc") (WriteOutcome.Took 2) }
    ensures all_three { writes_bcd (codes "abcd") (WriteOutcome.Took 3) }
    ensures other_bytes { writes_bcd (codes "acd") (WriteOutcome.Took 2) → ⊥ }
    ensures over_what_was_there { writes_bcd (codes "bc") (WriteOutcome.Took 2) → ⊥ }
    ensures less_than_it_says { writes_bcd (codes "ab") (WriteOutcome.Took 2) → ⊥ }
    ensures failed { writes_bcd (codes "a") WriteOutcome.Failed }
    ensures failed_though_it_took { writes_bcd (codes "ab") WriteOutcome.Failed → ⊥ }
    ensures wants_memory { writes_bcd (codes "a") WriteOutcome.Memory → ⊥ }
    ensures known_no_more { WritesThrough (Some (codes "a")) None (codes "bcd") (WriteOutcome.Took 2) → ⊥ }
    ensures unknown { WritesThrough None None (codes "bcd") (WriteOutcome.Took 2) }
    ensures unknown_and_wants_memory { WritesThrough None None (codes "bcd") WriteOutcome.Memory → ⊥ }
{}
