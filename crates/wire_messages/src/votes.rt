ghost use Rattle.std.specs.Prelude.{◌≡◌};
ghost use Rattle.wire_fields.specs.Fields.{Reads};
ghost use Rattle.wire_messages.specs.RaftBytes.{appended, request_vote, vote};
ghost use Rattle.wire_messages.specs.RaftByteLaws.{appended_is_format, request_vote_is_format, vote_is_format};

use crate::Wire;
use raft_types::{Appended, MAX_INDEX, RequestVote, Vote};
use std::alloc::{AllocError, Global};
use vst_base::MAX_TERM;
use wire_fields::{Input, put_flag, put_u32, put_u64};

fn read_request_vote(input: &mut Input<'_>) -> Option<RequestVote>
    ensures { Reads request_vote input.old input.new result }
{
    let term = input.u64(1, MAX_TERM)?;
    let last_index = input.u32(0, MAX_INDEX)?;
    let last_term = input.u64(0, MAX_TERM)?;
    Some(RequestVote::new(term, last_index, last_term))
}

fn read_vote(input: &mut Input<'_>) -> Option<Vote>
    ensures { Reads vote input.old input.new result }
{
    let term = input.u64(1, MAX_TERM)?;
    let granted = input.flag()?;
    Some(Vote::new(term, granted))
}

fn read_appended(input: &mut Input<'_>) -> Option<Appended>
    ensures { Reads appended input.old input.new result }
{
    let term = input.u64(1, MAX_TERM)?;
    let ok = input.flag()?;
    let index = input.u32(0, MAX_INDEX)?;
    Some(Appended::new(term, ok, index))
}

impl Wire for RequestVote {
    ghost format = { request_vote };

    #[tactic(auto, using(wire_fields::specs::Fronts::front_stays))]
    fn put(&self, out: &mut Vec<u8>) -> Result<(), AllocError> {
        put_u64(out, self.term())?;
        put_u32(out, self.last_index())?;
        put_u64(out, self.last_term())
    }

    fn take(_alloc: Global, input: &mut Input<'_>) -> Result<Option<RequestVote>, AllocError> {
        Ok(read_request_vote(input))
    }

    ghost is_format = { request_vote_is_format };
}

impl Wire for Vote {
    ghost format = { vote };

    #[tactic(auto, using(wire_fields::specs::Fronts::front_stays))]
    fn put(&self, out: &mut Vec<u8>) -> Result<(), AllocError> {
        put_u64(out, self.term())?;
        put_flag(out, self.granted())
    }

    fn take(_alloc: Global, input: &mut Input<'_>) -> Result<Option<Vote>, AllocError> {
        Ok(read_vote(input))
    }

    ghost is_format = { vote_is_format };
}

impl Wire for Appended {
    ghost format = { appended };

    #[tactic(auto, using(wire_fields::specs::Fronts::front_stays))]
    fn put(&self, out: &mut Vec<u8>) -> Result<(), AllocError> {
        put_u64(out, self.term())?;
        put_flag(out, self.ok())?;
        put_u32(out, self.index())
    }

    fn take(_alloc: Global, input: &mut Input<'_>) -> Result<Option<Appended>, AllocError> {
        Ok(read_appended(input))
    }

    ghost is_format = { appended_is_format };
}
