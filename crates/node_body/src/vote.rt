ghost use Rattle.std.specs.Prelude.{◌≡◌, ◌++◌, OnErr, OnOk};
ghost use Rattle.node_body.specs.Bodies.{spell_vote, vote};
ghost use Rattle.wire_fields.specs.Fields.{Reads};

use std::alloc::AllocError;
use vst_base::Node;
use wire_fields::Input;

/// The byte of a node that voted for none.
pub const NO_VOTE: u8 = 255;

// For whom a node of so many voted.
pub fn read_vote(input: &mut Input<'_>, nodes: u8) -> Option<Option<Node>>
    ensures { Reads (vote nodes) input.old input.new result }
{
    let byte = input.byte()?;
    if byte == NO_VOTE {
        return Some(None);
    }
    Some(Some(Node::new(byte, nodes)?))
}

// Adds a vote at the end, or nothing.
pub fn put_vote(out: &mut Vec<u8>, voted: Option<Node>) -> Result<(), AllocError>
    ensures ok { OnOk result (out.new.items ≡ out.old.items ++ spell_vote voted) }
    ensures err { OnErr result (out.new.items ≡ out.old.items) }
{
    let byte = match voted {
        Some(node) => node.index(),
        None => NO_VOTE,
    };
    Ok(out.push(byte)?)
}
