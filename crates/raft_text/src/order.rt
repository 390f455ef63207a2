ghost use Rattle.raft_text.specs.RaftTexts.{order_text};

use crate::RaftText;
use app_text::AppText;
use raft_types::RaftInput;
use schedule_text::Printed;
use std::alloc::AllocError;

// A request has the line of its place in the order of all.
impl<A: AppText> Printed<RaftText<A>> for RaftInput<A::Input> {
    ghost text = { order_text A.input_text };

    fn push_text(&self, out: &mut Vec<u8>) -> Result<(), AllocError> {
        out.extend_from_slice(b"order ")?;
        RaftText::<A>::print_input(self, out)
    }
}
