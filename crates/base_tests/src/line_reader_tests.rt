use line_reader::{ReadFault, Reader, Why, next_line};
use outside_mem::MemorySource;
use std::alloc::{AllocError, Global};
use std::test::Fail;

// A source of a text that gives at most so many bytes a read, and fails at these reads.
fn source(
    alloc: Global,
    text: &[u8],
    most_per_read: usize,
    failing: Vec<u64>,
) -> Result<MemorySource, AllocError> {
    let bytes = Vec::from_slice(alloc, text)?;
    Ok(MemorySource::new(bytes, most_per_read.max(1), failing))
}

// Adds a line to a text, with a bar after it.
fn add_line(lines: &mut Vec<u8>, line: &[u8]) -> Result<(), AllocError> {
    lines.extend_from_slice(line)?;
    lines.push(b'|')?;
    Ok(())
}

// Adds the lines of a source to a text, a bar after each, as far as they are read, and answers why no more were.
fn read_lines(
    reader: &mut Reader,
    source: &mut MemorySource,
    lines: &mut Vec<u8>,
) -> Result<ReadFault, Fail> {
    for _ in 0..10 {
        if let Err(fault) = next_line(reader, source) {
            return Ok(fault);
        }
        add_line(lines, reader.line())?;
    }
    Err(Fail::from("no end"))
}

// Whether these are the lines of a source that are read, and why no more are.
fn reads(
    mut reader: Reader,
    source: &mut MemorySource,
    mut lines: Vec<u8>,
    wanted: &[u8],
    why: ReadFault,
) -> Result<bool, Fail> {
    let fault = read_lines(&mut reader, source, &mut lines)?;
    Ok(lines.as_slice() == wanted && fault == why)
}

// Whether a text that comes in pieces of at most so many bytes has these lines, and is read to its end.
fn has_lines(alloc: Global, text: &[u8], most: usize, wanted: &[u8]) -> Result<bool, Fail> {
    let mut source = source(alloc, text, most, Vec::new(alloc))?;
    let reader = Reader::new(alloc, 2_000_000)?;
    let are_read = reads(reader, &mut source, Vec::new(alloc), wanted, ReadFault::End)?;
    Ok(are_read && source.left().is_empty())
}

#[test]
fn lines_come_whole_however_the_source_cuts_them(rt: HostRuntime) -> Result<(), Fail> {
    for most in [1, 2, 3, 7, 5_000] {
        for (text, wanted) in [
            ("", ""),
            ("\n", "|"),
            ("a\n\nbc\nd", "a||bc|d|"),
            ("a\n\nbc\nd\n", "a||bc|d|"),
        ] {
            assert!(rt; has_lines(rt.alloc(), text.as_bytes(), most, wanted.as_bytes())?);
        }
    }
    Ok(())
}

// A line of so many bytes and its newline.
fn long_line(alloc: Global, size: usize) -> Result<Vec<u8>, AllocError> {
    let mut text = vec![in alloc; b'#'; size]?;
    text.push(b'\n')?;
    Ok(text)
}

// What reading a line of so many bytes, in pieces of at most so many, comes to; and the length and number of the line.
fn read_long(
    alloc: Global,
    size: usize,
    most: usize,
) -> Result<(Result<(), ReadFault>, usize, u32), AllocError> {
    let text = long_line(alloc, size)?;
    let mut source = source(alloc, &text, most, Vec::new(alloc))?;
    let mut reader = Reader::new(alloc, 2_000_000)?;
    let read = next_line(&mut reader, &mut source);
    Ok((read, reader.line().len(), reader.number()))
}

#[test]
fn a_line_has_at_most_4096_bytes(rt: HostRuntime) -> Result<(), Fail> {
    let refused = ReadFault::Refused {
        line: 1,
        why: Why::LineTooLong,
    };
    for most in [1, 4_000, 10_000] {
        let longest = read_long(rt.alloc(), 4_096, most)?;
        assert!(rt; longest == (Ok(()), 4_096, 1));
        let longer = read_long(rt.alloc(), 4_097, most)?;
        assert!(rt; longer.0 == Err(refused));
    }
    Ok(())
}

#[test]
fn a_line_past_the_greatest_number_is_refused(rt: HostRuntime) -> Result<(), Fail> {
    let alloc = rt.alloc();
    let mut source = source(alloc, b"a\nb\nc\n", 100, Vec::new(alloc))?;
    let reader = Reader::new(alloc, 2)?;
    let refused = ReadFault::Refused {
        line: 3,
        why: Why::TooManyEvents,
    };
    assert!(rt; reads(reader, &mut source, Vec::new(alloc), b"a|b|", refused)?);
    Ok(())
}

// Whether these are the lines of a text that come before a read that fails.
fn has_lines_before(alloc: Global, call: u64, wanted: &[u8]) -> Result<bool, Fail> {
    let mut source = source(alloc, b"ab\ncde\nf", 3, vec![in alloc; call]?)?;
    let reader = Reader::new(alloc, 2_000_000)?;
    reads(
        reader,
        &mut source,
        Vec::new(alloc),
        wanted,
        ReadFault::Read,
    )
}

#[test]
fn a_failed_read_comes_after_the_whole_lines(rt: HostRuntime) -> Result<(), Fail> {
    for (call, wanted) in [(1, ""), (2, "ab|"), (3, "ab|"), (4, "ab|cde|")] {
        assert!(rt; has_lines_before(rt.alloc(), call, wanted.as_bytes())?);
    }
    Ok(())
}

#[test]
fn nothing_is_read_after_the_end(rt: HostRuntime) -> Result<(), Fail> {
    let alloc = rt.alloc();
    let mut source = source(alloc, b"a", 10, Vec::new(alloc))?;
    let mut reader = Reader::new(alloc, 2_000_000)?;
    let first = next_line(&mut reader, &mut source);
    let calls = source.calls();
    assert!(rt; (first, calls) == (Ok(()), 2));
    let second = next_line(&mut reader, &mut source);
    assert!(rt; (second, source.calls()) == (Err(ReadFault::End), 2));
    Ok(())
}
