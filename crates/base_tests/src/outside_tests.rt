ghost use Rattle.std.specs.Prelude.{Some};

use outside::{Sink, WriteFault, WriteOutcome, write_all};
use std::alloc::Global;
use std::test::Fail;

// Takes a byte a write, and once so many were taken has this fault.
#[derive(Drop)]
struct Nibbles {
    written: Vec<u8>,
    room: usize,
    then: WriteFault,
    faults: u64,
    wants: u64,
}

impl Nibbles {
    fn new(alloc: Global, room: usize, then: WriteFault) -> Self {
        Nibbles {
            written: Vec::new(alloc),
            room,
            then,
            faults: 0,
            wants: 0,
        }
    }
}

impl Sink for Nibbles {
    ghost written = { λ sink. Some sink.written.items };

    ghost faults = { λ sink. sink.faults };

    ghost wants = { λ sink. sink.wants };

    fn write(&mut self, piece: &[u8]) -> WriteOutcome {
        let Some(first) = piece.first() else {
            return WriteOutcome::Took(0);
        };
        let fault = if self.written.len() < self.room {
            match self.written.push(*first) {
                Ok(()) => return WriteOutcome::Took(1),
                Err(_) => WriteFault::Memory,
            }
        } else {
            self.then
        };
        match fault {
            WriteFault::Failed => {
                self.faults = self.faults.saturating_add(1);
                WriteOutcome::Failed
            }
            WriteFault::Memory => {
                self.wants = self.wants.saturating_add(1);
                WriteOutcome::Memory
            }
        }
    }
}

#[test]
fn all_is_written_in_small_writes(rt: HostRuntime) -> Result<(), Fail> {
    let mut sink = Nibbles::new(rt.alloc(), 3, WriteFault::Failed);
    assert!(rt; write_all(&mut sink, b"") == Ok(()));
    assert!(rt; write_all(&mut sink, b"abc") == Ok(()));
    assert!(rt; sink.written.as_slice() == b"abc".as_slice());
    assert!(rt; (sink.faults, sink.wants) == (0, 0));
    Ok(())
}

#[test]
fn a_fault_leaves_a_front_written(rt: HostRuntime) {
    for (fault, counts) in [(WriteFault::Failed, (1, 0)), (WriteFault::Memory, (0, 1))] {
        let mut sink = Nibbles::new(rt.alloc(), 2, fault);
        assert!(rt; write_all(&mut sink, b"abc") == Err(fault));
        assert!(rt; sink.written.as_slice() == b"ab".as_slice());
        assert!(rt; (sink.faults, sink.wants) == counts);
    }
}
