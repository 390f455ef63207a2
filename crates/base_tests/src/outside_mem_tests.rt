use outside::{ReadOutcome, Sink, Source, WriteOutcome};
use outside_mem::{MemorySink, MemorySource, SteadySink, SteadySource};
use std::test::Fail;

// What a read with room for four bytes comes to, and the room after it, which was filled with bars.
fn read_four<S: Source>(source: &mut S) -> (ReadOutcome, [u8; 4]) {
    let mut room = [b'|'; 4];
    let outcome = source.read(&mut room);
    (outcome, room)
}

// What the write of a piece comes to.
fn write_piece<S: Sink>(sink: &mut S, piece: &[u8]) -> WriteOutcome {
    sink.write(piece)
}

#[test]
fn a_source_cuts_its_reads_and_fails_at_its_calls(rt: HostRuntime) -> Result<(), Fail> {
    let alloc = rt.alloc();
    let failing = vec![in alloc; 2, 3]?;
    let mut source = MemorySource::new(Vec::from_slice(alloc, b"abcdefg")?, 3, failing);
    for wanted in [
        (ReadOutcome::Got(3), [b'a', b'b', b'c', b'|']),
        (ReadOutcome::Failed, [b'|'; 4]),
        (ReadOutcome::Failed, [b'|'; 4]),
        (ReadOutcome::Got(3), [b'd', b'e', b'f', b'|']),
    ] {
        assert!(rt; read_four(&mut source) == wanted);
    }
    assert!(rt; source.left() == b"g".as_slice());
    assert!(rt; (source.calls(), source.faults()) == (4, 2));
    Ok(())
}

#[test]
fn a_steady_source_fills_the_buffer_until_its_end(rt: HostRuntime) -> Result<(), Fail> {
    let mut source = SteadySource::new(Vec::from_slice(rt.alloc(), b"abcdefg")?);
    for wanted in [
        (ReadOutcome::Got(4), [b'a', b'b', b'c', b'd']),
        (ReadOutcome::Got(3), [b'e', b'f', b'g', b'|']),
        (ReadOutcome::Got(0), [b'|'; 4]),
    ] {
        assert!(rt; read_four(&mut source) == wanted);
    }
    assert!(rt; source.left().is_empty());
    Ok(())
}

#[test]
fn a_sink_cuts_its_writes_and_follows_its_script(rt: HostRuntime) -> Result<(), Fail> {
    let alloc = rt.alloc();
    let failing = vec![in alloc; 2]?;
    let mut sink = MemorySink::new(alloc, 4, failing, vec![in alloc; 2, 3]?);
    for wanted in [
        WriteOutcome::Took(4),
        WriteOutcome::Failed,
        WriteOutcome::Memory,
        WriteOutcome::Took(4),
    ] {
        assert!(rt; write_piece(&mut sink, b"hello") == wanted);
    }
    assert!(rt; sink.written() == b"hellhell".as_slice());
    assert!(rt; (sink.calls(), sink.faults(), sink.wants()) == (4, 1, 1));
    Ok(())
}

#[test]
fn a_steady_sink_takes_whole_pieces(rt: HostRuntime) {
    let mut sink = SteadySink::new(rt.alloc());
    for _ in 0..2 {
        assert!(rt; write_piece(&mut sink, b"hello") == WriteOutcome::Took(5));
    }
    assert!(rt; sink.written() == b"hellohello".as_slice());
    assert!(rt; sink.wants() == 0);
}
