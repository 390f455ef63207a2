ghost use Rattle.std.specs.Prelude.{[], ◌∷◌, Err, None, Ok, Some, codes, false, replicate, true};
ghost use Rattle.line_reader.specs.Examples.{reader, reads};
ghost use Rattle.line_reader.specs.Outcomes.{HasReadCause, LineIsNear, StopsAt};
ghost use Rattle.line_reader.specs.Readers.{fresh};

use crate::{ReadFault, Why};

/// The first line of a text, with what stands after it ahead or left with the source; it is no other line, and no byte is lost. A read
/// that failed in it, and the end of a text.
pub fn worked_reading()
    ensures a_line { reads (codes "ab\nc") (reader (codes "c") (codes "ab") 1 false) (Some []) (Ok tt) }
    ensures a_line_of_the_source { reads (codes "ab\nc") (reader [] (codes "ab") 1 false) (Some (codes "c")) (Ok tt) }
    ensures another_line { reads (codes "ab\nc") (reader (codes "c") (codes "a") 1 false) (Some []) (Ok tt) → ⊥ }
    ensures a_byte_lost { reads (codes "ab\nc") (reader [] (codes "ab") 1 false) (Some []) (Ok tt) → ⊥ }
    ensures uncounted { reads (codes "ab\nc") (reader (codes "c") (codes "ab") 0 false) (Some []) (Ok tt) → ⊥ }
    ensures untold { reads (codes "ab\nc") (reader (codes "c") (codes "ab") 1 false) None (Ok tt) → ⊥ }
    ensures broke_off { reads (codes "abc") (reader [] (codes "ab") 0 false) (Some (codes "c")) (Err ReadFault.Read) }
    ensures broke_off_after_it { reads (codes "a\nc") (reader [] [] 0 false) (Some (codes "c")) (Err ReadFault.Read) → ⊥ }
    ensures the_end { reads [] (reader [] [] 0 true) (Some []) (Err ReadFault.End) }
    ensures the_end_before_it { reads (codes "a") (reader [] [] 0 true) (Some []) (Err ReadFault.End) → ⊥ }
    ensures the_end_unmet { reads [] (reader [] [] 0 false) (Some []) (Err ReadFault.End) → ⊥ }
{}

/// Where a reader stops that has no line, and why.
pub fn worked_stopping()
    ensures at_the_end { StopsAt (reader [] [] 3 true) ReadFault.End }
    ensures at_the_end_with_more { StopsAt (reader (codes "a") [] 3 true) ReadFault.End → ⊥ }
    ensures at_an_end_unmet { StopsAt (reader [] [] 3 false) ReadFault.End → ⊥ }
    ensures at_a_failed_read { StopsAt (reader [] (codes "ab") 3 false) ReadFault.Read }
    ensures at_a_failed_read_with_a_line { StopsAt (reader [] (codes "a\nb") 3 false) ReadFault.Read → ⊥ }
    ensures at_a_failed_read_past_the_end { StopsAt (reader [] (codes "ab") 3 true) ReadFault.Read → ⊥ }
    ensures at_a_refusal { StopsAt (reader (codes "c") (codes "ab") 3 false) (ReadFault.Refused 4 Why.LineTooLong) }
    ensures failed { HasReadCause (fresh 9) 2 3 ReadFault.Read }
    ensures failed_uncounted { HasReadCause (fresh 9) 2 2 ReadFault.Read → ⊥ }
    ensures failed_past_the_end { HasReadCause (reader [] [] 3 true) 2 3 ReadFault.Read → ⊥ }
{}

/// How far past the bytes of a line was read: all of a short text, all but what is left, and no more than 4,096 bytes past the last
/// whole line.
pub fn worked_nearness()
    ensures all { LineIsNear (Some []) (codes "ab\nc") }
    ensures some { LineIsNear (Some (codes "c")) (codes "ab\nc") }
    ensures another_left { LineIsNear (Some (codes "d")) (codes "ab\nc") → ⊥ }
    ensures untold { LineIsNear None (codes "ab\nc") → ⊥ }
    ensures a_buffer { LineIsNear (Some []) (10 ∷ replicate 4095 35) }
    ensures more_than_a_buffer { LineIsNear (Some []) (10 ∷ replicate 4096 35) → ⊥ }
    ensures a_long_line { LineIsNear (Some []) (replicate 4097 35) }
{}
