ghost use Rattle.std.specs.Prelude.{◌≡◌, ◌≤◌, ◌<◌, ◌^◌, ◌++◌, OnOk, OnErr};
ghost use Rattle.schedule_text.specs.Headers.{strip_prefix, header_among, header_by, header_front, header_of, header_text, net_word, nodes_within, spaced};
ghost use Rattle.vst_base.specs.Stacks.{stack_word};
ghost use Rattle.line_reader.specs.Slices.{one};

use crate::Header;
use crate::numbers::push_number;
use crate::words::number_of;
use std::alloc::AllocError;
use vst_base::{Net, StackId, StackRow};

fn net_word(net: Net) -> &'static [u8]
    ensures { result.now ≡ net_word net }
{
    match net {
        Net::One => b"one",
        Net::Bag => b"bag",
        Net::Dup => b"dup",
        Net::Fail => b"fail",
        Net::Ord => b"ord",
        Net::Loss => b"loss",
        Net::Acts => b"acts",
    }
}

fn stack_word(stack: StackId) -> &'static [u8]
    ensures { result.now ≡ stack_word stack }
{
    stack.word().as_bytes()
}

// What stands after a front.
fn strip_prefix<'a>(front: &[u8], line: &'a [u8]) -> Option<&'a [u8]>
    ensures { one result ≡ strip_prefix front.now line.now }
{
    if line.len() < front.len() {
        return None;
    }
    let (start, rest) = line.split_at(front.len());
    if start == front { Some(rest) } else { None }
}

// What stands after a word and its space.
fn after_word<'a>(word: &[u8], line: &'a [u8]) -> Option<&'a [u8]>
    ensures { one result ≡ strip_prefix (spaced word.now) line.now }
{
    match strip_prefix(word, line) {
        Some(rest) => strip_prefix(b" ", rest),
        None => None,
    }
}

// What stands after the words of a network and a stack.
fn after_names(net: Net, stack: StackId, line: &[u8]) -> Option<&[u8]>
    ensures { one result ≡ strip_prefix (spaced (net_word net) ++ spaced (stack_word stack)) line.now }
{
    match after_word(net_word(net), line) {
        Some(rest) => after_word(stack_word(stack), rest),
        None => None,
    }
}

// What stands after a header up to its number of nodes.
fn after_front(net: Net, stack: StackId, line: &[u8]) -> Option<&[u8]>
    ensures { one result ≡ strip_prefix (header_front net stack) line.now }
{
    match strip_prefix(b"schedule 1 ", line) {
        Some(rest) => after_names(net, stack, rest),
        None => None,
    }
}

// The number of nodes, if it is in range.
fn nodes_within(least: u8, most: u8, n: u32) -> Option<u8>
    ensures { result ≡ nodes_within least most n }
{
    if u32::from(least) <= n && n <= u32::from(most) {
        Some(n as u8)
    } else {
        None
    }
}

// The header that a line is by this pairing, if it is one.
fn header_by(row: &StackRow, line: &[u8]) -> Option<Header>
    ensures { result ≡ header_by row.now line.now }
{
    let digits = after_front(row.net, row.stack, line)?;
    let n = number_of(digits)?;
    let nodes = nodes_within(row.least, row.most, n)?;
    Some(Header {
        net: row.net,
        stack: row.stack,
        nodes,
    })
}

// The header that a line is by the first pairing that it fits.
fn header_among(rows: &[StackRow], line: &[u8]) -> Option<Header>
    ensures { result ≡ header_among rows.now line.now }
{
    for row in rows {
        if let Some(header) = header_by(row, line) {
            return Some(header);
        }
    }
    None
}

/// The header that a line is: `schedule 1 <net> <stack> <nodes>`, with a pairing and a number of nodes that
/// there is. `None` comes exactly where it is no header.
#[tactic(auto, unfolding(crate::specs::Headers::header_of))]
pub fn header_of(line: &[u8]) -> Option<Header>
    ensures { result ≡ header_of line.now }
{
    header_among(StackRow::all(), line)
}

impl Header {
    /// Adds its line at the end, without a newline.
    pub fn push_text(&self, out: &mut Vec<u8>) -> Result<(), AllocError>
        ensures added { OnOk result (out.new.items ≡ out.old.items ++ header_text self.now) }
    {
        out.extend_from_slice(b"schedule 1 ")?;
        out.extend_from_slice(net_word(self.net))?;
        out.extend_from_slice(b" ")?;
        out.extend_from_slice(stack_word(self.stack))?;
        out.extend_from_slice(b" ")?;
        push_number(out, u32::from(self.nodes))
    }
}
