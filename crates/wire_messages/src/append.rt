ghost use Rattle.std.specs.Prelude.{◌≡◌, ◌++◌, OnErr, OnOk};
ghost use Rattle.wire_messages.specs.RaftBytes.{append, append_front};
ghost use Rattle.wire_messages.specs.RaftByteLaws.{append_is_format};

use crate::Wire;
use crate::entries::{put_each, take_entries};
use crate::front::{FRONT_LEN, Front};
use raft_types::Append;
use std::alloc::{AllocError, Global};
use wire_fields::Input;

// Adds what stands before the entries at the end, or nothing.
#[tactic(auto, unfolding(wire_fields::specs::Bytes::number_bytes))]
fn put_append_front(out: &mut Vec<u8>, front: Front, count: u8) -> Result<(), AllocError>
    ensures ok { OnOk result (out.new.items ≡ out.old.items ++ append_front front count) }
    ensures err { OnErr result (out.new.items ≡ out.old.items) }
{
    let mut bytes = [0; FRONT_LEN + 1];
    front.write(&mut bytes);
    bytes[FRONT_LEN] = count;
    out.extend_from_slice(&bytes)
}

impl<C: Wire> Wire for Append<C> {
    ghost format = { append C.format };

    #[tactic(auto, using(wire_fields::specs::Fronts::front_stays))]
    fn put(&self, out: &mut Vec<u8>) -> Result<(), AllocError> {
        put_append_front(out, Front::of(self), self.entries().len() as u8)?;
        put_each(out, self.entries())
    }

    fn take(alloc: Global, input: &mut Input<'_>) -> Result<Option<Append<C>>, AllocError> {
        let Some(front) = Front::read(input) else {
            return Ok(None);
        };
        let Some(entries) = take_entries(alloc, input)? else {
            return Ok(None);
        };
        Ok(front.with_entries(entries))
    }

    ghost is_format = { append_is_format C.format C.is_format };
}
