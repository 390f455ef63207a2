ghost use Rattle.wire_messages.specs.RaftBytes.{raft_message};
ghost use Rattle.wire_messages.specs.RaftByteLaws.{raft_message_is_format};

use crate::Wire;
use raft_types::{Append, Appended, RaftMsg, RequestVote, Vote};
use std::alloc::{AllocError, Global};
use wire_fields::Input;

impl<C: Wire> Wire for RaftMsg<C> {
    ghost format = { raft_message C.format };

    #[tactic(auto, using(wire_fields::specs::Fronts::front_stays))]
    fn put(&self, out: &mut Vec<u8>) -> Result<(), AllocError> {
        match self {
            RaftMsg::RequestVote(request) => {
                out.push(1)?;
                request.put(out)
            }
            RaftMsg::Vote(vote) => {
                out.push(2)?;
                vote.put(out)
            }
            RaftMsg::Append(append) => {
                out.push(3)?;
                append.put(out)
            }
            RaftMsg::Appended(appended) => {
                out.push(4)?;
                appended.put(out)
            }
        }
    }

    fn take(alloc: Global, input: &mut Input<'_>) -> Result<Option<RaftMsg<C>>, AllocError> {
        match input.byte() {
            Some(1) => match RequestVote::take(alloc, input)? {
                Some(request) => Ok(Some(RaftMsg::RequestVote(request))),
                None => Ok(None),
            },
            Some(2) => match Vote::take(alloc, input)? {
                Some(vote) => Ok(Some(RaftMsg::Vote(vote))),
                None => Ok(None),
            },
            Some(3) => match Append::take(alloc, input)? {
                Some(append) => Ok(Some(RaftMsg::Append(append))),
                None => Ok(None),
            },
            Some(4) => match Appended::take(alloc, input)? {
                Some(appended) => Ok(Some(RaftMsg::Appended(appended))),
                None => Ok(None),
            },
            _ => Ok(None),
        }
    }

    ghost is_format = { raft_message_is_format C.format C.is_format };
}
