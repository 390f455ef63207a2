ghost use Rattle.std.specs.Prelude.{◌≡◌, ◌≢◌, ◌+◌, ◌≤◌, ℕ, List, true, length, Err, Some, IfErr, OnOk, OnErr};
ghost use Rattle.line_reader.specs.Lines.{cut_at, has_cut};
ghost use Rattle.line_reader.specs.Outcomes.{HasReadCause, LineIsNear, ReadsLine, StopsAt};
ghost use Rattle.line_reader.specs.Readers.{HasRest};

use crate::piece::Piece;
use crate::{ReadFault, Reader, Why};
use outside::Source;

/// Reads the next line: up to its newline, or to the end of the source where that comes first. `End` comes exactly where
/// no byte is left. A line of more than 4,096 bytes is refused at its 4,097th byte, and one whose number is over the
/// greatest once it was read. A line that a failed read breaks off is given up. A read failed only where `Read` is
/// answered, and never where the newline of the line was read ahead: then the source is left as it is. Whatever comes, at most
/// 4,096 bytes were read past bytes of the line without its newline.
pub fn next_line<S: Source>(reader: &mut Reader, source: &mut S) -> Result<(), ReadFault>
    ensures told { (rest : List ℕ) → HasRest reader.old (S.left source.old) rest
        → ReadsLine reader.old reader.new (S.left source.new) rest result }
    ensures ahead { (cut : List ℕ × List ℕ) → cut_at 10 reader.old.ahead ≡ Some cut
        → (result ≢ Err ReadFault.Read) × OnOk result (reader.new.line ≡ cut.0) }
    ensures near { (rest : List ℕ) → HasRest reader.old (S.left source.old) rest → LineIsNear (S.left source.new) rest }
    ensures unread { has_cut 10 reader.old.ahead ≡ true → source.new ≡ source.old }
    ensures few { length reader.new.ahead ≤ 4096 }
    ensures number { OnOk result ((reader.new.number ≡ reader.old.number + 1) × (reader.new.number ≤ reader.new.most)) }
    ensures still { OnErr result (reader.new.number ≡ reader.old.number) }
    ensures length { OnOk result (length reader.new.line ≤ 4096) }
    ensures kept { (reader.new.most ≡ reader.old.most) × (reader.new.events ≡ reader.old.events) }
    ensures stays { reader.old.ended ≡ true → reader.new.ended ≡ true }
    ensures after { IfErr result (StopsAt reader.new) }
    ensures fault { IfErr result (HasReadCause reader.old (S.faults source.old) (S.faults source.new)) }
    ensures quiet { result ≢ Err ReadFault.Read → S.faults source.new ≡ S.faults source.old }
    ensures counts { S.faults source.old ≤ S.faults source.new }
{
    reader.begin_line();
    while reader.fill(source)? {
        match reader.take_piece()? {
            Piece::Newline => return reader.end_line(),
            Piece::GoesOn => {}
            Piece::TooLong => return Err(reader.refuse_next(Why::LineTooLong)),
        }
    }
    if reader.line().is_empty() {
        return Err(ReadFault::End);
    }
    reader.end_line()
}
