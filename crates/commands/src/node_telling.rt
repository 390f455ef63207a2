ghost use Rattle.std.specs.Prelude.{◌≤◌};
ghost use Rattle.commands.specs.NodeTelling.{TellsLine, TellsTurns};
ghost use Rattle.commands.specs.declared.trouble.Trouble.TheVariants as trouble;
ghost use Rattle.commands.specs.Seen.{sink_seen};

use crate::node_lines::{config_line, state_line, turns_line};
use crate::{
    AREAS_REFUSED, DONE, INPUT_REFUSED, LISTENING_FAILED, READ_FAILED, STORE_FAILED, Trouble,
    WRITE_FAILED, say, say_made, say_memory,
};
use outside::{Sink, WriteFault, write_all};
use std::alloc::{AllocError, Global};
use udp_node::NodeFault;

// Says on the error stream by what a node ended.
fn tell_fault<E: Sink>(alloc: Global, err: &mut E, fault: NodeFault) -> u8
    ensures told { TellsLine (trouble.Ended fault) (sink_seen E.Sink err.old) (sink_seen E.Sink err.new) result }
    ensures counts { E.faults err.old ≤ E.faults err.new }
{
    match fault {
        NodeFault::Receive => say(err, b"receive\n", LISTENING_FAILED),
        NodeFault::Store => say(err, b"store\n", STORE_FAILED),
        NodeFault::Refused(why) => say_made(err, state_line(alloc, why), AREAS_REFUSED),
        NodeFault::Memory => say_memory(err),
    }
}

// Says on the error stream why not all turns were taken.
pub(crate) fn tell_trouble<E: Sink>(alloc: Global, err: &mut E, trouble: Trouble) -> u8
    ensures told { TellsLine trouble (sink_seen E.Sink err.old) (sink_seen E.Sink err.new) result }
    ensures counts { E.faults err.old ≤ E.faults err.new }
{
    match trouble {
        Trouble::Read => say(err, b"read\n", READ_FAILED),
        Trouble::Config(key) => say_made(err, config_line(alloc, key), INPUT_REFUSED),
        Trouble::Begin => say(err, b"open\n", LISTENING_FAILED),
        Trouble::Ended(fault) => tell_fault(alloc, err, fault),
        Trouble::Memory => say_memory(err),
    }
}

// Writes the line of the turns that were taken.
pub(crate) fn tell_turns<O: Sink, E: Sink>(
    alloc: Global,
    turns: u32,
    out: &mut O,
    err: &mut E,
) -> u8
    ensures told { TellsTurns turns (sink_seen O.Sink out.old) (sink_seen O.Sink out.new) (sink_seen E.Sink err.old)
        (sink_seen E.Sink err.new) result }
    ensures writes { O.faults out.old ≤ O.faults out.new }
    ensures counts { E.faults err.old ≤ E.faults err.new }
{
    let text = match turns_line(alloc, turns) {
        Ok(text) => text,
        Err(AllocError) => return say_memory(err),
    };
    match write_all(out, &text) {
        Ok(()) => DONE,
        Err(WriteFault::Failed) => WRITE_FAILED,
        Err(WriteFault::Memory) => say_memory(err),
    }
}
