ghost use Rattle.std.specs.Prelude.{◌≡◌, nat_lt, IfOk, Some, None, if◌then◌else◌};
ghost use Rattle.vst_base.specs.Firsts.{first_of};
ghost use Rattle.check_text.specs.ItemViews.{parts_view};
ghost use Rattle.check_text.specs.TraceLines.{begins_as_input, counted_says, first_word, item_or_refusal, item_of, item_parts, item_refusals, item_with, parts_after, side_named, trace_says};

use crate::item_parts::ItemParts;
use crate::trace_line::TraceLine;
use app_text::{AppText, TextFault};
use line_reader::cut_at;
use schedule_text::{SPACE, Why, number_of};
use std::alloc::{AllocError, Global};
use vst_base::{Item, MAX_STEPS, Node};

// What stands before the first space, or the whole line.
pub(crate) fn first_word(line: &[u8]) -> &[u8]
    ensures { result.now ≡ first_word line.now }
{
    match cut_at(line, SPACE) {
        Some((word, _)) => word,
        None => line,
    }
}

// Whether a line is an input by its first word, whatever follows it.
fn begins_as_input(line: &[u8]) -> bool
    ensures { result ≡ begins_as_input line.now }
{
    first_word(line) == b"in".as_slice()
}

// Whether a word names an input, or else an output.
fn side_named(word: &[u8]) -> Option<bool>
    ensures { result ≡ side_named word.now }
{
    if word == b"in".as_slice() {
        Some(true)
    } else if word == b"out".as_slice() {
        Some(false)
    } else {
        None
    }
}

// The parts after the word of an input or an output.
fn parts_after(rest: &[u8], is_input: bool) -> Option<ItemParts<'_>>
    ensures { parts_view result ≡ parts_after rest.now is_input }
{
    match cut_at(rest, SPACE) {
        Some((number, text)) => Some(ItemParts {
            is_input,
            number,
            text,
        }),
        None => None,
    }
}

// The parts of an input or an output. `None` comes where the first word names neither, or a space is missing.
fn item_parts(line: &[u8]) -> Option<ItemParts<'_>>
    ensures { parts_view result ≡ item_parts line.now }
{
    match cut_at(line, SPACE) {
        Some((word, rest)) => match side_named(word) {
            Some(is_input) => parts_after(rest, is_input),
            None => None,
        },
        None => None,
    }
}

// Node `n`, if there are more nodes.
fn node_below(n: u32, nodes: u8) -> Option<Node>
    ensures { result ≡ (if nat_lt n nodes then Some n else None) }
{
    match u8::try_from(n) {
        Ok(n) => Node::new(n, nodes),
        Err(_) => None,
    }
}

// An input or an output of a node, by its text.
fn item_with<A: AppText>(
    alloc: Global,
    node: Node,
    is_input: bool,
    text: &[u8],
) -> Result<TraceLine<A::Input, A::Output>, AllocError>
    ensures { IfOk result (λ l. l ≡ item_or_refusal None (item_with A.input_of A.output_of node is_input text.now)) }
{
    if is_input {
        match A::read_input(alloc, text) {
            Ok(input) => Ok(TraceLine::IsItem(Item::Input(node, input))),
            Err(TextFault::NotText) => Ok(TraceLine::Refused(Why::Text)),
            Err(TextFault::Memory) => Err(AllocError),
        }
    } else {
        match A::read_output(alloc, text) {
            Ok(output) => Ok(TraceLine::IsItem(Item::Output(node, output))),
            Err(TextFault::NotText) => Ok(TraceLine::Refused(Why::Text)),
            Err(TextFault::Memory) => Err(AllocError),
        }
    }
}

// A line that is not `below`.
fn item_line<A: AppText>(
    alloc: Global,
    nodes: u8,
    line: &[u8],
) -> Result<TraceLine<A::Input, A::Output>, AllocError>
    ensures { IfOk result (λ l. l ≡ item_or_refusal (first_of (item_refusals A.input_of A.output_of nodes line.now))
        (item_of A.input_of A.output_of line.now)) }
{
    let Some(parts) = item_parts(line) else {
        return Ok(TraceLine::Refused(Why::UnknownWord));
    };
    let Some(n) = number_of(parts.number) else {
        return Ok(TraceLine::Refused(Why::Number));
    };
    let Some(node) = node_below(n, nodes) else {
        return Ok(TraceLine::Refused(Why::NoSuchNode));
    };
    item_with::<A>(alloc, node, parts.is_input, parts.text)
}

// What a line says that is neither too long nor one too many.
fn trace_says<A: AppText>(
    alloc: Global,
    nodes: u8,
    line: &[u8],
) -> Result<TraceLine<A::Input, A::Output>, AllocError>
    ensures { IfOk result (λ l. l ≡ trace_says A.input_of A.output_of nodes line.now) }
{
    if line == b"below".as_slice() {
        return Ok(TraceLine::Below);
    }
    item_line::<A>(alloc, nodes, line)
}

// And after so many inputs.
pub(crate) fn counted_says<A: AppText>(
    alloc: Global,
    nodes: u8,
    inputs: usize,
    line: &[u8],
) -> Result<TraceLine<A::Input, A::Output>, AllocError>
    ensures { IfOk result (λ l. l ≡ counted_says A.input_of A.output_of nodes inputs line.now) }
{
    if inputs >= MAX_STEPS as usize && begins_as_input(line) {
        return Ok(TraceLine::Refused(Why::TooManyEvents));
    }
    trace_says::<A>(alloc, nodes, line)
}
