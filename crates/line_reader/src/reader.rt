ghost use Rattle.std.specs.Prelude.{◌≡◌, ◌≢◌, ◌+◌, ◌-◌, ◌≤◌, ◌<◌, ◌^◌, ℕ, List, [], ◌++◌, false, true, length, drop, IfOk, IfErr, OnOk, Ok, Err};
ghost use Rattle.line_reader.specs.Lines.{has_cut};
ghost use Rattle.line_reader.specs.Outcomes.{CannotRead, EndsLine, TakesPiece};
ghost use Rattle.line_reader.specs.Readers.{HasRest, fresh};

use crate::ahead::Ahead;
use crate::cuts::{NEWLINE, cut_at};
use crate::piece::Piece;
use crate::{ReadFault, Why};
use outside::{ReadOutcome, Source};
use std::alloc::{AllocError, Global};
use std::marker::Model;

/// The greatest number of bytes of a line, its newline left out.
pub const MAX_LINE: usize = 4_096;

/// Reads a text line by line from a source, with a buffer of 4,096 bytes. Contracts see the bytes that were read ahead,
/// the line that was read last, its number, the greatest number that a line may have, how many events were counted, and
/// whether the end of the source was met.
#[derive(Drop)]
pub struct Reader {
    ahead: Ahead,
    line: Vec<u8>,
    number: u32,
    most: u32,
    events: u32,
    ended: bool,
}

impl Model for Reader {
    ghost use Rattle.std.specs.Prelude.{◌≡◌, ◌≤◌, ◌<◌, ◌-◌, ◌^◌, [], true, length};
    ghost use Rattle.line_reader.specs.Readers.{ReaderView};

    ghost Value = { ReaderView };

    ghost view = { λ r. record {
      ahead = r.ahead;
      line = r.line.items;
      number = r.number;
      most = r.most;
      events = r.events;
      ended = r.ended;
    } };

    ghost invariant = { λ r. (r.number ≤ r.most) × (r.most < 2 ^ 32 - 1) × (length r.ahead ≤ 4096) × (r.ended ≡ true → r.ahead ≡ []) };
}

// Adds a part to a line, if the line stays short enough.
fn join(line: &mut Vec<u8>, part: &[u8]) -> Result<bool, AllocError>
    requires room { length line.old.items ≤ 4096 }
    ensures joined { result ≡ Ok true → (line.new.items ≡ line.old.items ++ part.now) × (length line.old.items + length part.now ≤ 4096) }
    ensures long { result ≡ Ok false → (line.new.items ≡ line.old.items) × (4096 < length line.old.items + length part.now) }
{
    let room = MAX_LINE - line.len();
    if part.len() > room {
        return Ok(false);
    }
    line.extend_from_slice(part)?;
    Ok(true)
}

// Uses the bytes that show that a line is too long, up to its 4,097th.
fn cut_short(ahead: &mut Ahead, line: &[u8]) -> Piece
    requires line { length line.now ≤ 4096 }
    requires more { 4096 < length line.now + length ahead.old }
    ensures is { result ≡ Piece.TooLong }
    ensures used { ahead.new ≡ drop (4097 - length line.now) ahead.old }
{
    let room = MAX_LINE - line.len();
    ahead.skip(room + 1);
    Piece::TooLong
}

impl Reader {
    /// A reader that has read nothing, of a text whose lines have at most this number.
    pub fn new(alloc: Global, most: u32) -> Result<Self, AllocError>
        requires { most < 2 ^ 32 - 1 }
        ensures { IfOk result (λ reader. reader ≡ fresh most) }
    {
        Ok(Reader {
            ahead: Ahead::new(),
            line: Vec::with_capacity(alloc, MAX_LINE)?,
            number: 0,
            most,
            events: 0,
            ended: false,
        })
    }

    /// The line that was read last, without its newline.
    pub fn line(&self) -> &[u8]
        ensures { result.now ≡ self.now.line }
    {
        &self.line
    }

    /// Its number, from 1; 0 before the first.
    pub fn number(&self) -> u32
        ensures { result ≡ self.now.number }
    {
        self.number
    }

    /// The number of the line after it.
    pub fn next_number(&self) -> u32
        ensures { result ≡ self.now.number + 1 }
    {
        self.number + 1
    }

    /// The bytes that were read ahead of the next line.
    pub fn ahead(&self) -> &[u8]
        ensures { result.now ≡ self.now.ahead }
    {
        self.ahead.bytes()
    }

    /// Whether the newline of the next line was read ahead.
    pub fn is_line_ahead(&self) -> bool
        ensures is { result ≡ has_cut 10 self.now.ahead }
        ensures few { length self.now.ahead ≤ 4096 }
    {
        self.ahead.has_newline()
    }

    /// How many events were counted.
    pub fn events(&self) -> u32
        ensures { result ≡ self.now.events }
    {
        self.events
    }

    /// Counts one more event.
    pub fn count_event(&mut self)
        requires { self.old.events < 2 ^ 32 - 1 }
        ensures { self.new ≡ record self.old { events = self.old.events + 1 } }
    {
        self.events += 1;
    }

    // Begins a line.
    pub(crate) fn begin_line(&mut self)
        ensures { self.new ≡ record self.old { line = [] } }
    {
        self.line.clear();
    }

    // Sees to it that some bytes are read ahead, and answers false where the end of the source was met.
    pub(crate) fn fill<S: Source>(&mut self, source: &mut S) -> Result<bool, ReadFault>
        ensures told { (rest : List ℕ) → HasRest self.old (S.left source.old) rest → HasRest self.new (S.left source.new) rest }
        ensures kept { self.new ≡ record self.old { ahead = self.new.ahead; ended = self.new.ended } }
        ensures stays { self.old.ended ≡ true → self.new.ended ≡ true }
        ensures still { self.old.ahead ≢ [] → (result ≡ Ok true) × (self.new ≡ self.old) }
        ensures unread { self.old.ahead ≢ [] → source.new ≡ source.old }
        ensures few { length self.new.ahead ≤ 4096 }
        ensures going { result ≡ Ok true → (0 < length self.new.ahead) × (self.new.ended ≡ self.old.ended) }
        ensures over { result ≡ Ok false → (self.new.ahead ≡ []) × (self.new.ended ≡ true) }
        ensures failed { IfErr result (CannotRead self.old self.new (S.faults source.old) (S.faults source.new)) }
        ensures quiet { result ≢ Err ReadFault.Read → S.faults source.new ≡ S.faults source.old }
        ensures counts { S.faults source.old ≤ S.faults source.new }
    {
        if self.ended {
            return Ok(false);
        }
        if !self.ahead.bytes().is_empty() {
            return Ok(true);
        }
        match self.ahead.refill(source) {
            ReadOutcome::Got(0) => {
                self.ended = true;
                Ok(false)
            }
            ReadOutcome::Got(_) => Ok(true),
            ReadOutcome::Failed => Err(ReadFault::Read),
        }
    }

    // Takes what was read ahead into the line, up to its newline.
    pub(crate) fn take_piece(&mut self) -> Result<Piece, AllocError>
        requires room { length self.old.line ≤ 4096 }
        ensures takes { IfOk result (λ piece. TakesPiece self.old self.new piece) }
        ensures kept { self.new ≡ record self.old { ahead = self.new.ahead; line = self.new.line } }
        ensures room { OnOk result (length self.new.line ≤ 4096) }
        ensures few { length self.new.ahead ≤ 4096 }
    {
        match cut_at(self.ahead.bytes(), NEWLINE) {
            Some((part, _)) => {
                if !join(&mut self.line, part)? {
                    return Ok(cut_short(&mut self.ahead, &self.line));
                }
                let used = part.len() + 1;
                self.ahead.skip(used);
                Ok(Piece::Newline)
            }
            None => {
                if !join(&mut self.line, self.ahead.bytes())? {
                    return Ok(cut_short(&mut self.ahead, &self.line));
                }
                self.ahead.clear();
                Ok(Piece::GoesOn)
            }
        }
    }

    // Ends a line that is not too long: it has the next number, unless that is over the greatest.
    pub(crate) fn end_line(&mut self) -> Result<(), ReadFault>
        ensures ends { EndsLine self.old self.new result }
    {
        if self.number >= self.most {
            return Err(self.refuse_next(Why::TooManyEvents));
        }
        self.number += 1;
        Ok(())
    }

    /// The refusal of the line that was read last.
    pub fn refuse(&self, why: Why) -> ReadFault
        ensures { result ≡ ReadFault.Refused self.now.number why }
    {
        ReadFault::Refused {
            line: self.number,
            why,
        }
    }

    // The refusal of the line after it.
    pub(crate) fn refuse_next(&self, why: Why) -> ReadFault
        ensures is { result ≡ ReadFault.Refused (self.now.number + 1) why }
        ensures few { length self.now.ahead ≤ 4096 }
    {
        ReadFault::Refused {
            line: self.number + 1,
            why,
        }
    }
}
