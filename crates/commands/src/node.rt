ghost use Rattle.command_line.specs.CommandSet.{CanBeRun};
ghost use Rattle.commands.specs.NodeOutcomes.{AnswersNode};
ghost use Rattle.commands.specs.NodeSeen.{node_ran};
ghost use Rattle.commands.specs.NodeTelling.{Ends};
ghost use Rattle.commands.specs.Seen.{ran};

use crate::node_running::take_turns;
use crate::node_telling::{tell_trouble, tell_turns};
use command_line::NodeWords;
use node_device::Device;
use outside::{Sink, Source};
use std::alloc::Global;

// The run of a node, and what it came to.
fn run_and_tell<S: Source, O: Sink, E: Sink, D: Device>(
    alloc: Global,
    words: &NodeWords,
    input: &mut S,
    out: &mut O,
    err: &mut E,
    device: &mut D,
) -> u8
    requires { CanBeRun words.now }
    ensures { let streams = ran S.Source O.Sink E.Sink input.old input.new out.old out.new err.old err.new in
        Ends words.now (node_ran streams D.Device device.old device.new) result }
{
    match take_turns(alloc, words.me, words.turns, &words.state, input, device) {
        Ok(()) => tell_turns(alloc, words.turns, out, err),
        Err(trouble) => tell_trouble(alloc, err, trouble),
    }
}

/// The command `node`: reads the configuration from the input, begins at the address of its node and the words' directory, and takes as many
/// turns as the words say. Answers the status: 0 after the last of them, 3 the configuration is refused, 4 it could not be read, 5 a write
/// failed, 6 the device could not begin or a receive failed, 7 a store call failed, 8 want of memory, 9 the areas are refused.
pub fn run_node<S: Source, O: Sink, E: Sink, D: Device>(
    alloc: Global,
    words: &NodeWords,
    input: &mut S,
    out: &mut O,
    err: &mut E,
    device: &mut D,
) -> u8
    requires { CanBeRun words.now }
    ensures answers { let streams = ran S.Source O.Sink E.Sink input.old input.new out.old out.new err.old err.new in
        AnswersNode words.now (node_ran streams D.Device device.old device.new) result }
{
    run_and_tell(alloc, words, input, out, err, device)
}
