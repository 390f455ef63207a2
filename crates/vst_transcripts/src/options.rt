// How a case is written, and how what came is told.
//
// A line that begins with `#` and an empty line are echoed. `case WORDS` begins a case, which ends at an empty line, a line that begins
// with `#`, the next case or the end. It is echoed, and behind a line `----` stands what came of it. Its other lines, in any order:
//
// - `words W W ..`: the words after the name `vst`; without this line it is `replay`. `call W W ..` says all words, the name first, and
//   alone that there are none. `""` is the empty word.
// - `| TEXT`: the next line of the input. `|` is an empty line, `|\ TEXT` has no newline, `|*N TEXT` stands N times, `|\*N TEXT` N times
//   without newlines, `|x HEX` are bytes. `pipe`: what the case before wrote on its output comes next.
// - `read N`, `write N`: the most bytes that a read gives and that a write takes, else 4096.
// - `fail read N ..`, `fail out N ..`, `fail err N ..`, `fail call N ..`: these reads, writes of the output, writes of the error stream and calls
//   of the device fail, each counted from 1. `want out N ..`, `want err N ..`: these writes want memory. `stop N`: all calls of the device fail after
//   so many acts.
// - `area N HEX`, `clock N ..`: what area 0, 1 or 2 of a node holds, and the values of its clock, of which the last comes again.
//   `arrive PORT HEX`: a datagram comes from this port of the machine; `arrive -`: none comes in time.
// - `each WHAT A B`, where WHAT is `read`, `out`, `err`, `call` or `stop`: it is run for each number from A to B with that one failing too, and a
//   line says what came, of a node with what it sent and its areas. Numbers with the same answer share a line.
// - `brief`: of the output and the error stream the numbers of lines and bytes are told. `show`: the steps of the schedule are told as its
//   picture has them. `draw`: the input is drawn as `vst_draw` does, and the picture told without its head.
//
// What came: `status N`; the output behind `> ` and the error stream behind `! `, where a byte that does not print is `\xHH`, a backslash
// `\\`, and a lone backslash ends a last line without a newline; `calls read N out N err N` where a case cuts or fails these calls; `left N` where
// N bytes of the input were not read; of a node its acts, in order, and its areas. Bytes stand in lines of 32. A line that can't be read is
// told as `bad case: line N`, and the program's status is then 1; want of memory is told as `memory`, with status 8.

use crate::case::{Case, Coming, Counted, Each, Scripted};
use crate::inputs::{bytes_of, cut_word, take_input};
use std::alloc::{AllocError, Global};

// The words of a line, behind these.
fn words_of(alloc: Global, name: &str, rest: &str) -> Result<Vec<String>, AllocError> {
    let mut words = Vec::new(alloc);
    if !name.is_empty() {
        words.push(String::from_str(alloc, name)?)?;
    }
    for word in rest.split_whitespace() {
        let said = if word == "\"\"" { "" } else { word };
        words.push(String::from_str(alloc, said)?)?;
    }
    Ok(words)
}

// The numbers of a line, if all its words are such.
fn numbers_of(alloc: Global, rest: &str) -> Result<Option<Vec<u64>>, AllocError> {
    let mut numbers = Vec::new(alloc);
    for word in rest.split_whitespace() {
        match word.parse::<u64>() {
            Ok(number) => numbers.push(number)?,
            Err(_) => return Ok(None),
        }
    }
    Ok(Some(numbers))
}

// What a word counts.
fn counted(word: &str) -> Option<Counted> {
    match word {
        "read" => Some(Counted::Read),
        "out" => Some(Counted::Out),
        "err" => Some(Counted::Err),
        "call" => Some(Counted::Call),
        "stop" => Some(Counted::Stop),
        _ => None,
    }
}

// Adds these numbers of what is counted.
fn add_all(list: &mut Vec<Scripted>, what: Counted, numbers: &[u64]) -> Result<(), AllocError> {
    for number in numbers {
        list.push(Scripted {
            what,
            number: *number,
        })?;
    }
    Ok(())
}

// Adds what a line scripts, as `out 1 2`, if it can be read.
fn script(alloc: Global, list: &mut Vec<Scripted>, line: &str) -> Result<bool, AllocError> {
    let (word, rest) = cut_word(line);
    let Some(what) = counted(word) else {
        return Ok(false);
    };
    let Some(numbers) = numbers_of(alloc, rest)? else {
        return Ok(false);
    };
    add_all(list, what, &numbers)?;
    Ok(true)
}

// Sets a number, if the word is one.
fn set_size(size: &mut usize, word: &str) -> bool {
    match word.parse::<usize>() {
        Ok(number) => {
            *size = number;
            true
        }
        Err(_) => false,
    }
}

// What a line goes through, as `out 1 9`.
fn each_of(line: &str) -> Option<Each> {
    let (word, rest) = cut_word(line);
    let (first, last) = cut_word(rest);
    Some(Each {
        what: counted(word)?,
        first: first.parse::<u64>().ok()?,
        last: last.parse::<u64>().ok()?,
    })
}

// The datagram of a line, or that none comes.
fn coming(alloc: Global, line: &str) -> Result<Option<Coming>, AllocError> {
    let (word, digits) = cut_word(line);
    let Some(bytes) = bytes_of(alloc, digits)? else {
        return Ok(None);
    };
    if word == "-" {
        return Ok(Some(Coming { from: None, bytes }));
    }
    match word.parse::<u16>() {
        Ok(port) => Ok(Some(Coming {
            from: Some(port),
            bytes,
        })),
        Err(_) => Ok(None),
    }
}

impl Case {
    // Takes what an area holds, if the line can be read.
    fn take_area(&mut self, alloc: Global, line: &str) -> Result<bool, AllocError> {
        let (word, digits) = cut_word(line);
        let Some(bytes) = bytes_of(alloc, digits)? else {
            return Ok(false);
        };
        match word {
            "0" => self.areas.slot0 = bytes,
            "1" => self.areas.slot1 = bytes,
            "2" => self.areas.selector = bytes,
            _ => return Ok(false),
        }
        Ok(true)
    }

    // Takes what comes, if the line can be read.
    fn take_coming(&mut self, alloc: Global, line: &str) -> Result<bool, AllocError> {
        match coming(alloc, line)? {
            Some(coming) => {
                self.comes.push(coming)?;
                Ok(true)
            }
            None => Ok(false),
        }
    }

    // Takes the values of the clock, if the line can be read.
    fn take_clock(&mut self, alloc: Global, line: &str) -> Result<bool, AllocError> {
        match numbers_of(alloc, line)? {
            Some(numbers) => {
                self.clock = numbers;
                Ok(true)
            }
            None => Ok(false),
        }
    }

    // Takes after how many acts all calls fail, if the line can be read.
    fn take_stop(&mut self, line: &str) -> Result<bool, AllocError> {
        match line.parse::<u64>() {
            Ok(number) => {
                add_all(&mut self.fails, Counted::Stop, &[number])?;
                Ok(true)
            }
            Err(_) => Ok(false),
        }
    }

    // Takes the words, of which these come first.
    fn take_words(&mut self, alloc: Global, name: &str, line: &str) -> Result<bool, AllocError> {
        self.words = words_of(alloc, name, line)?;
        Ok(true)
    }

    // Takes a line of a word alone, if it can be read.
    fn take_flag(&mut self, word: &str) -> bool {
        match word {
            "brief" => self.telling.is_brief = true,
            "show" => self.telling.shows = true,
            "draw" => self.telling.draws = true,
            _ => return false,
        }
        true
    }

    // Takes the numbers of runs, if the line can be read.
    fn take_each(&mut self, line: &str) -> bool {
        self.telling.each = each_of(line);
        self.telling.each.is_some()
    }

    /// Takes a line of a case. Answers whether it can be read.
    pub(crate) fn take(&mut self, alloc: Global, line: &str) -> Result<bool, AllocError> {
        if let Some(input) = line.strip_prefix('|') {
            return take_input(alloc, &mut self.input, input);
        }
        let (word, rest) = cut_word(line);
        match word {
            "words" => self.take_words(alloc, "vst", rest),
            "call" => self.take_words(alloc, "", rest),
            "read" => Ok(set_size(&mut self.read, rest)),
            "write" => Ok(set_size(&mut self.write, rest)),
            "fail" => script(alloc, &mut self.fails, rest),
            "want" => script(alloc, &mut self.wants, rest),
            "stop" => self.take_stop(rest),
            "area" => self.take_area(alloc, rest),
            "arrive" => self.take_coming(alloc, rest),
            "clock" => self.take_clock(alloc, rest),
            "each" => Ok(self.take_each(rest)),
            _ => Ok(self.take_flag(line)),
        }
    }
}
