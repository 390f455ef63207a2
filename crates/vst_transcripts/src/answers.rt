use crate::acts::{add_acts, add_areas, add_sent};
use crate::case::{Case, Each, Scripted};
use crate::page::Page;
use crate::rows::add_rows;
use crate::runs::{Ran, run_case};
use std::alloc::{AllocError, Global};

// How many lines a text has.
fn lines_of(text: &[u8]) -> u64 {
    let mut lines = 0u64;
    for byte in text {
        lines = lines.saturating_add(if *byte == b'\n' { 1 } else { 0 });
    }
    lines
}

// Adds how many lines and bytes a text has.
fn add_size(page: &mut Page, name: &str, text: &[u8]) -> Result<(), AllocError> {
    page.add(name)?;
    page.add_number(" lines ", lines_of(text))?;
    page.add_number(" bytes ", text.len() as u64)?;
    page.add("\n")
}

// The end of the last line of the part of a picture that is the same in each.
const HEAD_END: &[u8] = b"fill=\"#fff\"/>\n<text";

// How many bytes the part of a picture has that is the same in each, before `<text`.
fn head_of(picture: &[u8]) -> usize {
    let mut size = 0usize;
    for piece in picture.windows(HEAD_END.len()) {
        if piece == HEAD_END {
            return size.saturating_add(HEAD_END.len() - b"<text".len());
        }
        size = size.saturating_add(1);
    }
    0
}

// What is told of the output.
fn told_of<'a>(case: &Case, out: &'a [u8]) -> &'a [u8] {
    if case.telling.draws {
        &out[head_of(out).min(out.len())..]
    } else {
        out
    }
}

// Adds the output and the error stream.
fn add_texts(page: &mut Page, case: &Case, ran: &Ran) -> Result<(), AllocError> {
    if case.telling.is_brief {
        add_size(page, "out", ran.out.written())?;
        return add_size(page, "err", ran.err.written());
    }
    page.add_marked("> ", told_of(case, ran.out.written()))?;
    page.add_marked("! ", ran.err.written())
}

// Adds how often was read and written.
fn add_calls(page: &mut Page, ran: &Ran) -> Result<(), AllocError> {
    page.add_number("calls read ", ran.source.calls())?;
    page.add_number(" out ", ran.out.calls())?;
    page.add_number(" err ", ran.err.calls())?;
    page.add("\n")
}

// Adds what a case cut or failed, and how much of the input was left.
fn add_counts(page: &mut Page, case: &Case, ran: &Ran) -> Result<(), AllocError> {
    if case.is_scripted() {
        add_calls(page, ran)?;
    }
    let left = ran.source.left().len();
    if left == 0 {
        return Ok(());
    }
    page.add_number("left ", left as u64)?;
    page.add("\n")
}

// Adds what became of a node.
fn add_node(page: &mut Page, case: &Case, ran: &Ran) -> Result<(), AllocError> {
    if !case.is_node() {
        return Ok(());
    }
    add_acts(page, &ran.device, &case.clock)?;
    add_areas(page, "", &ran.device)
}

// Adds what came of a case. Gives what it wrote on its output.
fn add_one(alloc: Global, page: &mut Page, case: &Case) -> Result<Vec<u8>, AllocError> {
    let ran = run_case(alloc, case, None)?;
    page.add_number("status ", u64::from(ran.status))?;
    page.add("\n")?;
    add_texts(page, case, &ran)?;
    add_counts(page, case, &ran)?;
    add_node(page, case, &ran)?;
    if case.telling.shows {
        add_rows(alloc, page, &case.input)?;
    }
    Vec::from_slice(alloc, ran.out.written())
}

// Adds what was written behind a mark in one line, if it is not empty.
fn add_line(page: &mut Page, mark: &str, text: &[u8]) -> Result<(), AllocError> {
    if text.is_empty() {
        return Ok(());
    }
    page.add(mark)?;
    page.add_shown(text)
}

// What one of many runs of a case came to, in a line. Of a node what it sent and its areas follow.
fn line_of(alloc: Global, case: &Case, number: u64) -> Result<Page, AllocError> {
    let mut page = Page::new(alloc);
    let also = case.telling.each.map(|each| Scripted {
        what: each.what,
        number,
    });
    let ran = run_case(alloc, case, also)?;
    page.add_number(": status ", u64::from(ran.status))?;
    add_line(&mut page, " > ", ran.out.written())?;
    add_line(&mut page, " ! ", ran.err.written())?;
    page.add("\n")?;
    if case.is_node() {
        add_sent(&mut page, &ran.device)?;
        add_areas(&mut page, "  ", &ran.device)?;
    }
    Ok(page)
}

// Runs with the same answer.
#[derive(Drop)]
struct Group {
    first: u64,
    last: u64,
    answer: Page,
}

// Adds the numbers of runs and their answer.
fn add_group(page: &mut Page, group: &Group) -> Result<(), AllocError> {
    page.add_number("", group.first)?;
    if group.first != group.last {
        page.add_number("..", group.last)?;
    }
    page.add_page(&group.answer)
}

// The next run stands in the group if its answer is the same. Else the group is added, and the next one begins.
fn follow(page: &mut Page, group: &mut Group, number: u64, answer: Page) -> Result<(), AllocError> {
    if answer.bytes() == group.answer.bytes() {
        group.last = number;
        return Ok(());
    }
    add_group(page, group)?;
    group.first = number;
    group.last = number;
    group.answer = answer;
    Ok(())
}

// Adds what came of each run of a case.
fn add_each(alloc: Global, page: &mut Page, case: &Case, each: Each) -> Result<(), AllocError> {
    let mut group = Group {
        first: each.first,
        last: each.first,
        answer: line_of(alloc, case, each.first)?,
    };
    for number in each.first..=each.last {
        let answer = line_of(alloc, case, number)?;
        follow(page, &mut group, number, answer)?;
    }
    add_group(page, &group)
}

/// Runs a case, and adds what came of it. Gives what it wrote on its output, if it ran once.
pub(crate) fn add_answer(
    alloc: Global,
    page: &mut Page,
    case: &Case,
) -> Result<Vec<u8>, AllocError> {
    match case.telling.each {
        Some(each) => {
            add_each(alloc, page, case, each)?;
            Ok(Vec::new(alloc))
        }
        None => add_one(alloc, page, case),
    }
}
