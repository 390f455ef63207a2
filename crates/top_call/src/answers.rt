ghost use Rattle.std.specs.Prelude.{◌≡◌, None, Some, map, string_bytes};
ghost use Rattle.std.specs.Bool.{OnFalse};
ghost use Rattle.command_line.specs.declared.asked.Asked.TheVariants.{Texts};
ghost use Rattle.command_line.specs.declared.command.Command.TheVariants as command;
ghost use Rattle.commands.specs.NodeSeen.{node_ran};
ghost use Rattle.commands.specs.Seen.{ran};
ghost use Rattle.commands.specs.Answers.{reads};
ghost use Rattle.top_call.specs.Headline.{ShowsHeadline};
ghost use Rattle.top_call.specs.Outcomes.{Answers, IsStatus};
ghost use Rattle.top_call.specs.Requests.{By, asked};

use command_line::{Asked, read_words};
use commands::{Complaint, run_command, run_node, tell};
use node_device::Device;
use outside::{Sink, Source};
use std::alloc::{AllocError, Global};

/// Runs the program: its words, its input, its output, its error stream and the device that a node runs on, which no other command
/// uses. Answers the status: 0 done, 1 a condition of a claim is false, 2 the words are refused, 3 a line or the configuration is
/// refused, 4 the input could not be read, 5 a write failed, 6 the device could not begin or a receive failed, 7 a store call failed,
/// 8 want of memory, 9 the areas of a node are refused.
pub fn run<S: Source, O: Sink, E: Sink, D: Device>(
    alloc: Global,
    words: &[String],
    input: &mut S,
    out: &mut O,
    err: &mut E,
    device: &mut D,
) -> u8
    ensures status { IsStatus result }
    ensures answers { let streams = ran S.Source O.Sink E.Sink input.old input.new out.old out.new err.old err.new in
        Answers (map string_bytes words.now) (node_ran streams D.Device device.old device.new) result }
    ensures headline { asked words.now ≡ Some (Texts command.Replay) → result ≡ 0
        → ShowsHeadline (S.left input.old) (O.written out.old) (O.written out.new) }
    ensures unread { By (asked words.now) (λ command. OnFalse (reads command) (input.new ≡ input.old)) (λ w. Unit {0}) }
    ensures unwritten { asked words.now ≡ None → out.new ≡ out.old }
    ensures device { By (asked words.now) (λ command. device.new ≡ device.old) (λ w. Unit {0}) }
{
    match read_words(alloc, words) {
        Ok(Some(Asked::Texts(command))) => run_command(alloc, command, input, out, err),
        Ok(Some(Asked::Node(node))) => run_node(alloc, &node, input, out, err, device),
        Ok(None) => tell(alloc, err, Complaint::Words),
        Err(AllocError) => tell(alloc, err, Complaint::Memory),
    }
}
