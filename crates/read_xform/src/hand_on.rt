ghost use Rattle.std.specs.Prelude.{◌≡◌, ◌≤◌, ◌++◌, length, map, vec_len};
ghost use Rattle.handler_trait.specs.declared.handlers.TheConstants.{SPENT_MAX};
ghost use Rattle.raft_reads.specs.ReadRaft.{with_round};

use crate::rounds::Rounds;
use handler_trait::Effects;
use raft_types::{RaftMsg, ReadMsg};
use vst_base::Node;

// Hands on the packets, in order, each with its round.
fn sends<C: Drop, O: Drop>(
    within: Vec<(Node, RaftMsg<C>)>,
    rounds: Rounds,
    effects: &mut Effects<O, ReadMsg<C>>,
)
    requires room { vec_len within ≤ effects.old.send_places }
    requires own { rounds.own ≤ SPENT_MAX }
    requires heard { rounds.heard ≤ SPENT_MAX }
    ensures sends { effects.new.sends ≡ effects.old.sends ++ map (with_round rounds.own rounds.term rounds.heard) within.items }
    ensures outputs { effects.new.outputs ≡ effects.old.outputs }
{
    for (to, message) in within {
        let round = rounds.of(&message);
        effects.send(to, ReadMsg::new(message, round));
    }
}

/// Hands on what Raft made of an event, where the outputs were lent to it: takes these back, and gives each packet its round. Messages
/// are moved, and none is copied.
pub(crate) fn hand_on<C: Drop, O: Drop>(
    within: Effects<O, RaftMsg<C>>,
    rounds: Rounds,
    effects: &mut Effects<O, ReadMsg<C>>,
)
    requires room { length within.sends ≤ effects.old.send_places }
    requires own { rounds.own ≤ SPENT_MAX }
    requires heard { rounds.heard ≤ SPENT_MAX }
    ensures outputs { effects.new.outputs ≡ within.outputs }
    ensures sends { effects.new.sends ≡ effects.old.sends ++ map (with_round rounds.own rounds.term rounds.heard) within.sends }
{
    let sent = effects.take_back(within);
    sends(sent, rounds, effects);
}
