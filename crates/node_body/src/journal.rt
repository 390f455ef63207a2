ghost use Rattle.std.specs.Prelude.{◌≡◌, IfOk};
ghost use Rattle.node_body.specs.Bodies.{entry_in};
ghost use Rattle.node_body.specs.Journals.{change, next_state, read_journal, from_gate};
ghost use Rattle.node_body.specs.Steps.{Steps};

use crate::Version;
use crate::records::{apply, take_record};
use raft_types::Kept;
use std::alloc::{AllocError, Global};
use wire_fields::Input;
use wire_messages::Wire;

/// How many records a journal has at most.
pub const MAX_RECORDS: u32 = 1000;

/// What a slot holds after its records: the state, how many records more may follow, which is none where there is no gate, and how
/// many bytes the last gate hides.
#[derive(Debug, Drop)]
pub struct Journal<C> {
    pub kept: Kept<C>,
    pub left: u32,
    pub hidden: usize,
}

// The state after the record that stands in front.
fn next_state<C: Wire>(
    alloc: Global,
    input: &mut Input<'_>,
    version: Version,
    nodes: u8,
    kept: Kept<C>,
) -> Result<Option<Kept<C>>, AllocError>
    ensures { Steps (next_state (change nodes (entry_in version C.format)) kept input.old) input.new result }
{
    let Some(record) = take_record(alloc, input, version, nodes)? else {
        return Ok(None);
    };
    if record.keep as usize > kept.log().len() {
        return Ok(None);
    }
    Ok(Some(apply(record, kept)?))
}

// From a gate on.
fn follow_gates<C: Wire>(
    alloc: Global,
    bytes: &[u8],
    version: Version,
    nodes: u8,
    first: Kept<C>,
) -> Result<Option<Journal<C>>, AllocError>
    ensures { IfOk result (λ journal. journal ≡ from_gate (change nodes (entry_in version C.format)) MAX_RECORDS first bytes.now) }
{
    let mut input = Input::new(bytes);
    let mut kept = first;
    let mut left = MAX_RECORDS;
    'gates: loop {
        let Some(gate) = input.byte() else {
            return Ok(None);
        };
        if gate % 2 == 0 {
            let hidden = input.rest().len();
            return Ok(Some(Journal { kept, left, hidden }));
        }
        if left == 0 {
            return Ok(None);
        }
        let Some(next) = next_state(alloc, &mut input, version, nodes, kept)? else {
            return Ok(None);
        };
        kept = next;
        left -= 1;
    }
}

/// What stands after the body of a node of so many, which keeps this: nothing, or a gate. `None` comes exactly where an odd gate is
/// not followed by a whole record in its ranges and a gate, or more than `MAX_RECORDS` are.
pub fn read_journal<C: Wire>(
    alloc: Global,
    bytes: &[u8],
    version: Version,
    nodes: u8,
    kept: Kept<C>,
) -> Result<Option<Journal<C>>, AllocError>
    ensures { IfOk result (λ journal. journal ≡ read_journal (change nodes (entry_in version C.format)) kept bytes.now) }
{
    match bytes {
        [] => Ok(Some(Journal {
            kept,
            left: 0,
            hidden: 0,
        })),
        [_, ..] => follow_gates(alloc, bytes, version, nodes, kept),
    }
}
