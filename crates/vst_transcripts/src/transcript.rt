use crate::answers::add_answer;
use crate::case::Case;
use crate::page::Page;
use outside::{ReadOutcome, Sink, Source, write_all};
use std::alloc::{AllocError, Global};
use std::str::from_utf8;

/// The statuses of the program: all cases were run, one can't be read, the input or the output failed, want of memory.
const RAN: u8 = 0;

const BAD: u8 = 1;

const NOT_READ: u8 = 4;

const NOT_WRITTEN: u8 = 5;

const NO_MEMORY: u8 = 8;

// What is written so far, the case whose lines are read, what the case before wrote on its output, the lines so far, and those of them that
// can't be read.
#[derive(Drop)]
struct Transcript {
    page: Page,
    case: Option<Case>,
    before: Vec<u8>,
    line: u64,
    bad: Vec<u64>,
}

impl Transcript {
    fn new(alloc: Global) -> Self {
        Transcript {
            page: Page::new(alloc),
            case: None,
            before: Vec::new(alloc),
            line: 0,
            bad: Vec::new(alloc),
        }
    }

    // Runs the case whose lines were read, if there is one.
    fn end_case(&mut self, alloc: Global) -> Result<(), AllocError> {
        if let Some(case) = self.case.take() {
            self.page.add_line("----")?;
            self.before = add_answer(alloc, &mut self.page, &case)?;
        }
        Ok(())
    }

    // Notes that a line can't be read.
    fn refuse(&mut self) -> Result<(), AllocError> {
        self.bad.push(self.line)?;
        self.page.add_number("bad case: line ", self.line)?;
        self.page.add("\n")
    }

    // Takes a line of a case. Answers whether it can be read.
    fn take_line(&mut self, alloc: Global, line: &str) -> Result<bool, AllocError> {
        let Some(case) = &mut self.case else {
            return Ok(false);
        };
        if line == "pipe" {
            case.input.extend_from_slice(&self.before)?;
            return Ok(true);
        }
        case.take(alloc, line)
    }

    // Takes a line that is no heading. It is echoed.
    fn take(&mut self, alloc: Global, line: &str) -> Result<(), AllocError> {
        self.page.add_line(line)?;
        if line.starts_with("case ") {
            self.case = Some(Case::new(alloc)?);
            return Ok(());
        }
        if !self.take_line(alloc, line)? {
            self.refuse()?;
        }
        Ok(())
    }

    // Takes the next line of the text.
    fn next(&mut self, alloc: Global, line: &str) -> Result<(), AllocError> {
        self.line = self.line.saturating_add(1);
        if line.is_empty() || line.starts_with('#') {
            self.end_case(alloc)?;
            return self.page.add_line(line);
        }
        if line.starts_with("case ") {
            self.end_case(alloc)?;
        }
        self.take(alloc, line)
    }

    // The status of what was read.
    fn status(&self) -> u8 {
        if self.bad.is_empty() { RAN } else { BAD }
    }
}

// Runs the cases of a text.
fn run_all(alloc: Global, text: &str) -> Result<Transcript, AllocError> {
    let mut transcript = Transcript::new(alloc);
    for line in text.lines() {
        transcript.next(alloc, line)?;
    }
    transcript.end_case(alloc)?;
    Ok(transcript)
}

// Adds what a source gives in one read, and answers how many bytes these are; none, if it fails.
fn read_more<S: Source>(input: &mut S, bytes: &mut Vec<u8>) -> Result<Option<usize>, AllocError> {
    let mut piece = [0; 4096];
    match input.read(&mut piece) {
        ReadOutcome::Got(count) => {
            bytes.extend_from_slice(&piece[..count])?;
            Ok(Some(count))
        }
        ReadOutcome::Failed => Ok(None),
    }
}

// All that a source gives, if no read fails.
fn read_whole<S: Source>(alloc: Global, input: &mut S) -> Result<Option<Vec<u8>>, AllocError> {
    let mut bytes = Vec::new(alloc);
    for _ in 0..u64::MAX {
        match read_more(input, &mut bytes)? {
            Some(0) => return Ok(Some(bytes)),
            Some(_) => {}
            None => return Ok(None),
        }
    }
    Err(AllocError)
}

// Writes a text, and answers the status then.
fn write<O: Sink>(out: &mut O, text: &[u8], status: u8) -> u8 {
    match write_all(out, text) {
        Ok(()) => status,
        Err(_) => NOT_WRITTEN,
    }
}

// Runs the cases of a text, writes what came of them, and answers the status.
fn transcribe_text<O: Sink>(alloc: Global, out: &mut O, text: &str) -> u8 {
    match run_all(alloc, text) {
        Ok(transcript) => write(out, transcript.page.bytes(), transcript.status()),
        Err(AllocError) => write(out, b"memory\n", NO_MEMORY),
    }
}

// The same of bytes.
fn transcribe_bytes<O: Sink>(alloc: Global, out: &mut O, bytes: &[u8]) -> u8 {
    match from_utf8(bytes) {
        Ok(text) => transcribe_text(alloc, out, text),
        Err(_) => write(out, b"bad case: no text\n", BAD),
    }
}

/// Runs the cases of the input, writes each with what came of it, and answers the status: 0 they ran, 1 a line can't be read, 4 the input
/// could not be read, 5 a write failed, 8 want of memory.
pub(crate) fn transcribe<S: Source, O: Sink>(alloc: Global, input: &mut S, out: &mut O) -> u8 {
    match read_whole(alloc, input) {
        Ok(Some(bytes)) => transcribe_bytes(alloc, out, &bytes),
        Ok(None) => NOT_READ,
        Err(AllocError) => write(out, b"memory\n", NO_MEMORY),
    }
}
