ghost use Rattle.wire_messages.specs.ClientBytes.{answer, client_reply, client_request};
ghost use Rattle.wire_messages.specs.ClientByteLaws.{answer_is_format, client_reply_is_format, client_request_is_format};

use crate::Wire;
use std::alloc::{AllocError, Global};
use vst_base::ReqId;
use wire_fields::{Input, put_u64};

/// What a client asks a node of a cluster, over commands of a machine.
#[derive(Debug, Drop, PartialEq, Eq)]
pub struct ClientRequest<C> {
    /// The client's number of the request.
    pub request: ReqId,
    pub cmd: C,
}

/// What a node answers a request, over outputs of a machine.
#[derive(Debug, Drop, PartialEq, Eq)]
pub enum Answer<O> {
    /// The machine's output.
    Reply(O),
    /// The node is not the leader.
    NotLeader,
    /// The leader's log is full.
    Full,
}

/// What a node of a cluster tells a client of a request.
#[derive(Debug, Drop, PartialEq, Eq)]
pub struct ClientReply<O> {
    /// The client's number of the request.
    pub request: ReqId,
    pub answer: Answer<O>,
}

impl<C: Wire> Wire for ClientRequest<C> {
    ghost format = { client_request C.format };

    #[tactic(auto, using(wire_fields::specs::Fronts::front_stays))]
    fn put(&self, out: &mut Vec<u8>) -> Result<(), AllocError> {
        put_u64(out, self.request.number())?;
        self.cmd.put(out)
    }

    fn take(alloc: Global, input: &mut Input<'_>) -> Result<Option<ClientRequest<C>>, AllocError> {
        let Some(request) = input.u64(0, u64::MAX) else {
            return Ok(None);
        };
        let Some(cmd) = C::take(alloc, input)? else {
            return Ok(None);
        };
        Ok(Some(ClientRequest {
            request: ReqId::new(request),
            cmd,
        }))
    }

    ghost is_format = { client_request_is_format C.format C.is_format };
}

impl<O: Wire> Wire for Answer<O> {
    ghost format = { answer O.format };

    #[tactic(auto, using(wire_fields::specs::Fronts::front_stays))]
    fn put(&self, out: &mut Vec<u8>) -> Result<(), AllocError> {
        match self {
            Answer::Reply(output) => {
                out.push(1)?;
                output.put(out)
            }
            Answer::NotLeader => Ok(out.push(2)?),
            Answer::Full => Ok(out.push(3)?),
        }
    }

    fn take(alloc: Global, input: &mut Input<'_>) -> Result<Option<Answer<O>>, AllocError> {
        match input.byte() {
            Some(1) => match O::take(alloc, input)? {
                Some(output) => Ok(Some(Answer::Reply(output))),
                None => Ok(None),
            },
            Some(2) => Ok(Some(Answer::NotLeader)),
            Some(3) => Ok(Some(Answer::Full)),
            _ => Ok(None),
        }
    }

    ghost is_format = { answer_is_format O.format O.is_format };
}

impl<O: Wire> Wire for ClientReply<O> {
    ghost format = { client_reply O.format };

    #[tactic(auto, using(wire_fields::specs::Fronts::front_stays))]
    fn put(&self, out: &mut Vec<u8>) -> Result<(), AllocError> {
        put_u64(out, self.request.number())?;
        self.answer.put(out)
    }

    fn take(alloc: Global, input: &mut Input<'_>) -> Result<Option<ClientReply<O>>, AllocError> {
        let Some(request) = input.u64(0, u64::MAX) else {
            return Ok(None);
        };
        let Some(answer) = Answer::take(alloc, input)? else {
            return Ok(None);
        };
        Ok(Some(ClientReply {
            request: ReqId::new(request),
            answer,
        }))
    }

    ghost is_format = { client_reply_is_format O.format O.is_format };
}
