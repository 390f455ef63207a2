ghost use Rattle.std.specs.Prelude.{◌≡◌, ◌++◌, OnErr, OnOk};
ghost use Rattle.wire_codec.specs.Headings.{any_kind, has_clients, has_kind, heading, kind_field, mark, stack_byte, stack_field};
ghost use Rattle.wire_fields.specs.Fields.{Reads};

use crate::Kind;
use std::alloc::AllocError;
use vst_base::StackId;
use wire_fields::{Input, NAME_LEN};

// How many bytes stand before the name.
const PARTIES_LEN: usize = 6;

// How many bytes a heading has.
const HEADING_LEN: usize = PARTIES_LEN + NAME_LEN;

/// What stands before a datagram's message: its stack and kind, the numbers of the node or client that sends it and
/// of the one that it is sent to, and the name of the cluster.
#[derive(Clone, Copy, Debug, PartialEq, Eq)]
pub struct Heading {
    pub stack: StackId,
    pub kind: Kind,
    pub from: u8,
    pub to: u8,
    pub name: [u8; NAME_LEN],
}

fn read_mark(input: &mut Input<'_>) -> Option<()>
    ensures { Reads mark input.old input.new result }
{
    match (input.byte()?, input.byte()?) {
        (b'V', 2) => Some(()),
        _ => None,
    }
}

fn read_stack(input: &mut Input<'_>) -> Option<StackId>
    ensures { Reads stack_field input.old input.new result }
{
    match input.byte()? {
        1 => Some(StackId::Lock),
        2 => Some(StackId::LockSeq),
        3 => Some(StackId::KvPb),
        4 => Some(StackId::KvPbSeq),
        5 => Some(StackId::KvRaft),
        6 => Some(StackId::TablePbSeq),
        7 => Some(StackId::TableRaft),
        8 => Some(StackId::Mirror),
        9 => Some(StackId::MirrorFifo),
        10 => Some(StackId::LockSeqRetry),
        11 => Some(StackId::KvPbSeqRetry),
        13 => Some(StackId::KvRaftRead),
        14 => Some(StackId::TableRaftRead),
        _ => None,
    }
}

fn read_any_kind(input: &mut Input<'_>) -> Option<Kind>
    ensures { Reads any_kind input.old input.new result }
{
    match input.byte()? {
        0 => Some(Kind::Peer),
        1 => Some(Kind::Request),
        2 => Some(Kind::Reply),
        _ => None,
    }
}

// Whether clients have to do with the stack's nodes.
fn has_clients(stack: StackId) -> bool
    ensures { result ≡ has_clients stack }
{
    match stack {
        StackId::KvRaft | StackId::TableRaft => true,
        _ => false,
    }
}

// Whether datagrams of the stack are of the kind.
fn has_kind(stack: StackId, kind: Kind) -> bool
    ensures { result ≡ has_kind stack kind }
{
    match kind {
        Kind::Peer => true,
        Kind::Request | Kind::Reply => has_clients(stack),
    }
}

fn read_kind(input: &mut Input<'_>, stack: StackId) -> Option<Kind>
    ensures { Reads (kind_field stack) input.old input.new result }
{
    let kind = read_any_kind(input)?;
    if !has_kind(stack, kind) {
        return None;
    }
    Some(kind)
}

/// The byte of a stack whose nodes send packets, and 0 of a machine alone.
pub fn stack_byte(stack: StackId) -> u8
    ensures { result ≡ stack_byte stack }
{
    match stack {
        StackId::Lock => 1,
        StackId::LockSeq => 2,
        StackId::KvPb => 3,
        StackId::KvPbSeq => 4,
        StackId::KvRaft => 5,
        StackId::TablePbSeq => 6,
        StackId::TableRaft => 7,
        StackId::Mirror => 8,
        StackId::MirrorFifo => 9,
        StackId::LockSeqRetry => 10,
        StackId::KvPbSeqRetry => 11,
        StackId::KvRaftRead => 13,
        StackId::TableRaftRead => 14,
        StackId::Kv | StackId::Table => 0,
    }
}

impl Heading {
    /// The heading that stands in front. `None` comes exactly where none does.
    pub fn read(input: &mut Input<'_>) -> Option<Heading>
        ensures { Reads heading input.old input.new result }
    {
        // One test of the length stands for those of the fields.
        if input.rest().len() < HEADING_LEN {
            return None;
        }
        read_mark(input)?;
        let stack = read_stack(input)?;
        let kind = read_kind(input, stack)?;
        let from = input.u8(0, kind.most_from())?;
        let to = input.u8(0, kind.most_to())?;
        let name = input.name()?;
        Some(Heading {
            stack,
            kind,
            from,
            to,
            name,
        })
    }

    /// Adds the heading at the end, or nothing.
    #[tactic(auto, unfolding(wire_fields::specs::Bytes::number_bytes))]
    pub fn put(&self, out: &mut Vec<u8>) -> Result<(), AllocError>
        ensures ok { OnOk result (out.new.items ≡ out.old.items ++ heading.spell self.now) }
        ensures err { OnErr result (out.new.items ≡ out.old.items) }
    {
        let mut bytes = [0; HEADING_LEN];
        bytes[0] = b'V';
        bytes[1] = 2;
        bytes[2] = stack_byte(self.stack);
        bytes[3] = self.kind.byte();
        bytes[4] = self.from;
        bytes[5] = self.to;
        bytes[PARTIES_LEN..].copy_from_slice(&self.name);
        out.extend_from_slice(&bytes)
    }
}
