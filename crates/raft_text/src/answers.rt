ghost use Rattle.std.specs.Prelude.{option_map};
ghost use Rattle.app_text.specs.Reads.{Reads};
ghost use Rattle.raft_text.specs.RaftTexts.{answer_of, names_of, reply_of};

use crate::names::{named_of, names_of};
use app_text::{AppText, TextFault};
use raft_types::RaftOut;
use std::alloc::Global;
use vst_base::{ClientId, ReqId};

// A client and a request of its own, and nothing after them.
fn read_names(text: &[u8]) -> Result<(ClientId, ReqId), TextFault>
    ensures { Reads result (names_of text.now) }
{
    match names_of(text) {
        Some(names) => Ok(names),
        None => Err(TextFault::NotText),
    }
}

// The reply whose two numbers and output stand after its word.
fn read_reply<A: AppText>(alloc: Global, text: &[u8]) -> Result<RaftOut<A::Output>, TextFault>
    ensures { Reads result (reply_of A.output_of text.now) }
{
    let Some((client, request, text)) = named_of(text) else {
        return Err(TextFault::NotText);
    };
    let output = A::read_output(alloc, text)?;
    Ok(RaftOut::Reply {
        client,
        request,
        output,
    })
}

// The answer of a word and what stands after it.
pub(crate) fn read_answer<A: AppText>(
    alloc: Global,
    word: &[u8],
    rest: &[u8],
) -> Result<RaftOut<A::Output>, TextFault>
    ensures { Reads result (answer_of A.output_of word.now rest.now) }
{
    if word == b"reply".as_slice() {
        read_reply::<A>(alloc, rest)
    } else if word == b"notleader".as_slice() {
        let (client, request) = read_names(rest)?;
        Ok(RaftOut::NotLeader { client, request })
    } else if word == b"full".as_slice() {
        let (client, request) = read_names(rest)?;
        Ok(RaftOut::Full { client, request })
    } else {
        Err(TextFault::NotText)
    }
}
