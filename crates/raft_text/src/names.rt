ghost use Rattle.std.specs.Prelude.{◌≡◌, ◌++◌, IfOk};
ghost use Rattle.raft_text.specs.NameViews.{front_view, named_view};
ghost use Rattle.raft_text.specs.RaftTexts.{front_number, named_of, named_text, names_of, names_text};

use itoa::Buffer;
use line_reader::cut_at;
use schedule_text::{SPACE, number_up_to};
use std::alloc::{AllocError, Global};
use vst_base::{ClientId, ReqId};

// How many bytes a text has room for from the first: one of short tokens takes no more.
const LINE_ROOM: usize = 96;

// The number before the first space, and what stands after it.
fn front_number(text: &[u8]) -> Option<(u64, &[u8])>
    ensures { front_view result ≡ front_number text.now }
{
    let (word, rest) = cut_at(text, SPACE)?;
    let number = number_up_to(word, u64::MAX)?;
    Some((number, rest))
}

// A client and a request of its own, and nothing after them.
pub(crate) fn names_of(text: &[u8]) -> Option<(ClientId, ReqId)>
    ensures { result ≡ names_of text.now }
{
    let (client, rest) = front_number(text)?;
    let request = number_up_to(rest, u64::MAX)?;
    Some((ClientId::new(client), ReqId::new(request)))
}

// A client, a request of its own, and what stands after the space after them.
pub(crate) fn named_of(text: &[u8]) -> Option<(ClientId, ReqId, &[u8])>
    ensures { named_view result ≡ named_of text.now }
{
    let (client, rest) = front_number(text)?;
    let (request, rest) = front_number(rest)?;
    Some((ClientId::new(client), ReqId::new(request), rest))
}

// A client's and a request's number after a word, with room for what comes after them.
pub(crate) fn names_text(
    alloc: Global,
    word: &[u8],
    client: u64,
    request: u64,
) -> Result<Vec<u8>, AllocError>
    ensures { IfOk result (λ text. text.items ≡ word.now ++ names_text client request) }
{
    let mut digits = Buffer::new();
    let mut text = Vec::with_capacity(alloc, LINE_ROOM)?;
    text.extend_from_slice(word)?;
    text.extend_from_slice(digits.format(client).as_bytes())?;
    text.push(SPACE)?;
    text.extend_from_slice(digits.format(request).as_bytes())?;
    Ok(text)
}

// The same, with a text after them.
pub(crate) fn named_text(
    alloc: Global,
    word: &[u8],
    client: u64,
    request: u64,
    text: &[u8],
) -> Result<Vec<u8>, AllocError>
    ensures { IfOk result (λ named. named.items ≡ word.now ++ named_text client request text.now) }
{
    let mut named = names_text(alloc, word, client, request)?;
    named.push(SPACE)?;
    named.extend_from_slice(text)?;
    Ok(named)
}
