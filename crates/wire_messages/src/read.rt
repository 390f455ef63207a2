ghost use Rattle.std.specs.Prelude.{◌≡◌, ◌≤◌, ◌++◌, OnErr, OnOk, IfOk, IfSome};
ghost use Rattle.lists.specs.Prefixes.{IsPrefix};
ghost use Rattle.raft_types.specs.declared.limits.TheConstants.{MAX_ROUND};
ghost use Rattle.wire_fields.specs.Formats.{pair};
ghost use Rattle.wire_messages.specs.RaftBytes.{appended};
ghost use Rattle.wire_messages.specs.ReadBytes.{a_round, read_append, read_append_front, read_message};
ghost use Rattle.wire_messages.specs.ReadByteLaws.{read_message_is_format};
ghost use Rattle.wire_messages.specs.Wires.{Takes};

use crate::Wire;
use crate::entries::{put_each, take_entries};
use crate::front::{FRONT_LEN, Front};
use byteorder::{ByteOrder, NetworkEndian};
use raft_types::{Append, Appended, MAX_ROUND, RaftMsg, ReadMsg, RequestVote, Vote};
use std::alloc::{AllocError, Global};
use wire_fields::{Input, put_u64};

// Adds what stands before the entries at the end, or nothing.
#[tactic(auto, unfolding(wire_fields::specs::Bytes::number_bytes))]
fn put_read_front(out: &mut Vec<u8>, front: Front, round: u64, count: u8) -> Result<(), AllocError>
    ensures ok { OnOk result (out.new.items ≡ out.old.items ++ read_append_front front round count) }
    ensures err { OnErr result (out.new.items ≡ out.old.items) }
{
    let mut bytes = [0; FRONT_LEN + 9];
    NetworkEndian::write_u64(&mut bytes[FRONT_LEN..], round);
    front.write(&mut bytes);
    bytes[FRONT_LEN + 8] = count;
    out.extend_from_slice(&bytes)
}

// Adds the entries of a leader with its round at the end, or a part of their bytes.
#[tactic(auto, using(wire_fields::specs::Fronts::front_stays))]
fn put_append<C: Wire>(out: &mut Vec<u8>, append: &Append<C>, round: u64) -> Result<(), AllocError>
    requires { round ≤ MAX_ROUND }
    ensures ok { OnOk result (out.new.items ≡ out.old.items ++ (read_append C.format).spell (append.now, round)) }
    ensures fits { OnOk result ((read_append C.format).Fits (append.now, round)) }
    ensures err { OnErr result (IsPrefix out.old.items out.new.items) }
{
    put_read_front(out, Front::of(append), round, append.entries().len() as u8)?;
    put_each(out, append.entries())
}

// The entries of a leader that stand in front, and its round.
fn take_append<C: Wire>(
    alloc: Global,
    input: &mut Input<'_>,
) -> Result<Option<(Append<C>, u64)>, AllocError>
    ensures value { Takes (read_append C.format) input.old input.new result }
    ensures in_range { IfOk result (λ there. IfSome there (λ m. m.1 ≤ MAX_ROUND)) }
{
    let Some(front) = Front::read(input) else {
        return Ok(None);
    };
    let Some(round) = input.u64(0, MAX_ROUND) else {
        return Ok(None);
    };
    let Some(entries) = take_entries(alloc, input)? else {
        return Ok(None);
    };
    match front.with_entries(entries) {
        Some(append) => Ok(Some((append, round))),
        None => Ok(None),
    }
}

// The answer to a leader that stands in front, and the round that it acknowledges.
fn take_appended(
    alloc: Global,
    input: &mut Input<'_>,
) -> Result<Option<(Appended, u64)>, AllocError>
    ensures value { Takes (pair appended a_round) input.old input.new result }
    ensures in_range { IfOk result (λ there. IfSome there (λ m. m.1 ≤ MAX_ROUND)) }
{
    let Some(appended) = Appended::take(alloc, input)? else {
        return Ok(None);
    };
    match input.u64(0, MAX_ROUND) {
        Some(round) => Ok(Some((appended, round))),
        None => Ok(None),
    }
}

impl<C: Wire> Wire for ReadMsg<C> {
    ghost format = { read_message C.format };

    #[tactic(auto, using(wire_fields::specs::Fronts::front_stays))]
    fn put(&self, out: &mut Vec<u8>) -> Result<(), AllocError> {
        let round = self.round();
        let raft = self.raft();
        match raft {
            RaftMsg::RequestVote(_) | RaftMsg::Vote(_) => raft.put(out),
            RaftMsg::Append(append) => {
                out.push(3)?;
                put_append(out, append, round)
            }
            RaftMsg::Appended(_) => {
                raft.put(out)?;
                put_u64(out, round)
            }
        }
    }

    fn take(alloc: Global, input: &mut Input<'_>) -> Result<Option<ReadMsg<C>>, AllocError> {
        match input.byte() {
            Some(1) => match RequestVote::take(alloc, input)? {
                Some(request) => Ok(Some(ReadMsg::new(RaftMsg::RequestVote(request), 0))),
                None => Ok(None),
            },
            Some(2) => match Vote::take(alloc, input)? {
                Some(vote) => Ok(Some(ReadMsg::new(RaftMsg::Vote(vote), 0))),
                None => Ok(None),
            },
            Some(3) => match take_append(alloc, input)? {
                Some((append, round)) => Ok(Some(ReadMsg::new(RaftMsg::Append(append), round))),
                None => Ok(None),
            },
            Some(4) => match take_appended(alloc, input)? {
                Some((appended, round)) => Ok(Some(ReadMsg::new(
                    RaftMsg::Appended(appended),
                    round,
                ))),
                None => Ok(None),
            },
            _ => Ok(None),
        }
    }

    ghost is_format = { read_message_is_format C.format C.is_format };
}
