ghost use Rattle.handler_trait.specs.Handling.{Effect};
ghost use Rattle.lists.specs.Each.{Each};
ghost use Rattle.node_run.specs.Events.{reply_of, said_by};
ghost use Rattle.node_run.specs.Saying.{IsInGrammar, MaySay, PacketIsHeard, ReplyIsRead, SaysFewBytes};
ghost use Rattle.node_run.specs.Settings.{Settings};
ghost use Rattle.raft_types.specs.declared.client.RaftOut.{RaftOut};
ghost use Rattle.raft_types.specs.declared.msg.RaftMsg.{RaftMsg};

use wire_messages::Wire;

/// What a node says is in the grammar, and who it is said to reads just that, whatever it makes of events: where its configuration is in
/// range, and what is sent and told has bytes, no more than stand behind a heading.
pub fn what_is_said_is_heard<S, C: Wire, O: Wire>()
    // The node that a packet is sent to hears its message.
    ensures packets { (settings : Settings) (effect : Effect S (RaftOut O) (RaftMsg C)) → MaySay C.format O.format settings
        → SaysFewBytes C.format O.format effect → Each (PacketIsHeard C.format settings) effect.sends }

    // A client reads what it is told.
    ensures replies { (settings : Settings) (effect : Effect S (RaftOut O) (RaftMsg C)) → MaySay C.format O.format settings
        → SaysFewBytes C.format O.format effect → Each (λ o. ReplyIsRead O.format settings (reply_of o)) effect.outputs }

    // So no datagram is said that is not in the grammar.
    ensures in_grammar { (settings : Settings) (effect : Effect S (RaftOut O) (RaftMsg C)) → MaySay C.format O.format settings
        → SaysFewBytes C.format O.format effect
        → Each (IsInGrammar C.format O.format settings) (said_by settings C.format O.format effect) }
{}
