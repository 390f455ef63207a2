ghost use Rattle.std.specs.Prelude.{◌≡◌};
ghost use Rattle.node_growth.specs.Growth as growth;

use node_run::Event;
use raft_types::RaftMsg;

/// How many entries at the front of a node's log an event leaves at least, by the length of the log before and after it.
pub fn left_by<C: Drop>(event: &Event<C>, old: usize, new: usize) -> usize
    ensures { result ≡ growth.left_by event.now old new }
{
    match event {
        Event::Peer {
            message: RaftMsg::Append(append),
            ..
        } if new == append.prev_index() as usize + append.entries().len() => {
            old.min(append.prev_index() as usize)
        }
        _ => old.min(new),
    }
}
