ghost use Rattle.std.specs.Prelude.{◌≡◌, ◌≤◌, [], ◌∷◌, ◌++◌, length, vec_len, OnOk};

use crate::{Says, Sent, Told};
use handler_trait::Effects;
use std::alloc::{AllocError, Global};
use vst_base::Node;

// What these packets say.
fn words_of<M: Says>(alloc: Global, sends: &[(Node, M)]) -> Result<Vec<Sent>, AllocError> {
    let mut sent = Vec::new(alloc);
    for (to, message) in sends {
        let mut words = Vec::new(alloc);
        message.say(&mut words)?;
        sent.push(Sent { to: *to, words })?;
    }
    Ok(sent)
}

// Hands on the packets, in order.
fn send_all<O: Drop, M: Drop>(sends: Vec<(Node, M)>, effects: &mut Effects<O, M>)
    requires room { vec_len sends ≤ effects.old.send_places }
    ensures sends { effects.new.sends ≡ effects.old.sends ++ sends.items }
    ensures outputs { effects.new.outputs ≡ effects.old.outputs }
{
    for (to, message) in sends {
        effects.send(to, message);
    }
}

/// Hands on what the handlers within made of an event, and tells it as one output.
pub(crate) fn hand_on<O: Drop, M: Says + Drop>(
    alloc: Global,
    within: Effects<O, M>,
    effects: &mut Effects<Told<O>, M>,
) -> Result<(), AllocError>
    requires room { length within.sends ≤ effects.old.send_places }
    ensures outputs { OnOk result (effects.new.outputs ≡ effects.old.outputs ++ within.outputs ∷ []) }
    ensures sends { OnOk result (effects.new.sends ≡ effects.old.sends ++ within.sends) }
{
    let (outputs, sends) = within.into_parts();
    let sent = words_of(alloc, &sends)?;
    effects.output(Told { outputs, sent })?;
    send_all(sends, effects);
    Ok(())
}
