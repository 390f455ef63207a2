ghost use Rattle.std.specs.Prelude.{◌≡◌, ◌<◌, ◌∷◌, ◌++◌, IfOk, IfSome, OnErr, OnOk, Some, length};
ghost use Rattle.node_body.specs.Bodies.{VoteAmong, a_name, body, body_of, kept_as, label, mark, owner, owner_of, read_body};
ghost use Rattle.node_body.specs.VoteLaws.{MayKeep};
ghost use Rattle.raft_types.specs.Messages.{IsClusterSize, IsIndex, IsTerm};
ghost use Rattle.wire_codec.specs.Headings.{stack_byte};
ghost use Rattle.wire_fields.specs.Bytes.{number_bytes};
ghost use Rattle.wire_fields.specs.Fields.{Reads};
ghost use Rattle.wire_messages.specs.Wires.{Takes, read_whole};
ghost use Rattle.lists.specs.Prefixes.{IsPrefix};

use crate::kept::take_kept;
use crate::log::put_log;
use crate::vote::put_vote;
use crate::{Owner, Version, Who};
use raft_types::Kept;
use std::alloc::{AllocError, Global};
use vst_base::{Entry, Node, StackId};
use wire_codec::stack_byte;
use wire_fields::{Input, NAME_LEN, put_u8, put_u64};
use wire_messages::Wire;

/// A node's state as its bytes say it: the version that they are spelled in, whose it is, and what the node keeps.
#[derive(Debug, Drop)]
pub struct Body<C> {
    pub version: Version,
    pub owner: Owner,
    pub kept: Kept<C>,
}

fn read_mark(input: &mut Input<'_>) -> Option<Version>
    ensures { Reads mark input.old input.new result }
{
    match (input.byte()?, input.byte()?) {
        (b'S', 1) => Some(Version::One),
        (b'S', 2) => Some(Version::Two),
        _ => None,
    }
}

// The name of the cluster, where the version has one.
fn read_label(input: &mut Input<'_>, version: Version) -> Option<Option<[u8; NAME_LEN]>>
    ensures { Reads (label version) input.old input.new result }
{
    match version {
        Version::One => Some(None),
        Version::Two => Some(Some(input.name()?)),
    }
}

// Whose state it is, where it is one of the stack.
fn read_owner(input: &mut Input<'_>, stack: StackId, version: Version) -> Option<Owner>
    ensures { Reads (owner stack version) input.old input.new result }
{
    if input.byte()? != stack_byte(stack) {
        return None;
    }
    let me = input.u8(0, 255)?;
    let nodes = input.u8(1, version.most_nodes())?;
    let name = read_label(input, version)?;
    if !version.spells(stack) || me >= nodes {
        return None;
    }
    Some(Owner {
        stack,
        me,
        nodes,
        name,
    })
}

// The body that stands in front.
fn take_front<C: Wire>(
    alloc: Global,
    stack: StackId,
    input: &mut Input<'_>,
) -> Result<Option<Body<C>>, AllocError>
    ensures { Takes (body stack C.format) input.old input.new result }
{
    let Some(version) = read_mark(input) else {
        return Ok(None);
    };
    let Some(owner) = read_owner(input, stack, version) else {
        return Ok(None);
    };
    let Some(kept) = take_kept(alloc, input, version, owner.nodes)? else {
        return Ok(None);
    };
    Ok(Some(Body {
        version,
        owner,
        kept,
    }))
}

/// The body of either version that all of the bytes are. `None` comes exactly where they are no body of the stack with
/// these commands, or its node is not one of its nodes.
pub fn take_any_body<C: Wire>(
    alloc: Global,
    stack: StackId,
    bytes: &[u8],
) -> Result<Option<Body<C>>, AllocError>
    ensures { IfOk result (λ found. found ≡ read_whole (body stack C.format) bytes.now) }
{
    let mut input = Input::new(bytes);
    let Some(found) = take_front(alloc, stack, &mut input)? else {
        return Ok(None);
    };
    match input.rest() {
        [] => Ok(Some(found)),
        [_, ..] => Ok(None),
    }
}

// Whose state all of the bytes are in version 2, and the state. That these are in range follows.
fn take_named<C: Wire>(
    alloc: Global,
    stack: StackId,
    bytes: &[u8],
) -> Result<Option<(Who, Kept<C>)>, AllocError>
    ensures { IfOk result (λ found. found ≡ read_body stack C.format bytes.now) }
{
    let Some(found) = take_any_body::<C>(alloc, stack, bytes)? else {
        return Ok(None);
    };
    let Some(name) = found.owner.name else {
        return Ok(None);
    };
    Ok(Some((found.owner.named(name), found.kept)))
}

/// Whose state all of the bytes are, and the state. `None` comes exactly where they are no body of version 2 of the stack
/// with these commands, or its node is not one of its nodes.
pub fn take_body<C: Wire>(
    alloc: Global,
    stack: StackId,
    bytes: &[u8],
) -> Result<Option<(Who, Kept<C>)>, AllocError>
    ensures found { IfOk result (λ found. found ≡ read_body stack C.format bytes.now) }
    ensures keeps { IfOk result (λ found. IfSome found (λ p. MayKeep stack p.0 p.1)) }
{
    take_named(alloc, stack, bytes)
}

// Adds the name of a cluster at the end, or nothing.
fn put_name(out: &mut Vec<u8>, name: &[u8; NAME_LEN]) -> Result<(), AllocError>
    ensures ok { OnOk result (out.new.items ≡ out.old.items ++ name.now) }
    ensures fits { OnOk result (a_name.Fits (Some name.now)) }
    ensures err { OnErr result (out.new.items ≡ out.old.items) }
{
    out.extend_from_slice(name)
}

// Adds the mark and the node at the end, or a part of it.
#[tactic(auto, using(wire_fields::specs::Fronts::front_stays))]
fn put_node(out: &mut Vec<u8>, who: &Who) -> Result<(), AllocError>
    ensures ok { OnOk result (out.new.items ≡ out.old.items
        ++ (mark.spell Version.Two ++ (stack_byte who.now.stack ∷ (number_bytes 1 who.now.me ++ number_bytes 1 who.now.nodes)))) }
    ensures err { OnErr result (IsPrefix out.old.items out.new.items) }
{
    out.extend_from_slice(&[b'S', 2, stack_byte(who.stack)])?;
    put_u8(out, who.me)?;
    put_u8(out, who.nodes)
}

// Adds what stands before the state at the end, or a part of it.
#[tactic(auto, using(wire_fields::specs::Fronts::front_stays))]
fn put_owner(out: &mut Vec<u8>, who: &Who) -> Result<(), AllocError>
    ensures ok { OnOk result (out.new.items ≡ out.old.items
        ++ (mark.spell Version.Two ++ (owner who.now.stack Version.Two).spell (owner_of who.now))) }
    ensures fits { OnOk result (a_name.Fits (Some who.now.name)) }
    ensures err { OnErr result (IsPrefix out.old.items out.new.items) }
{
    put_node(out, who)?;
    put_name(out, &who.name)
}

/// Adds the body of version 2 of a node that keeps this term, vote and log at the end, or a part of it.
#[tactic(auto, using(wire_fields::specs::Fronts::front_stays))]
pub fn put_state<C: Wire>(
    out: &mut Vec<u8>,
    who: &Who,
    term: u64,
    voted: Option<Node>,
    log: &[Entry<C>],
) -> Result<(), AllocError>
    requires nodes { IsClusterSize who.now.nodes }
    requires me { who.now.me < who.now.nodes }
    requires term { IsTerm term }
    requires voted { VoteAmong who.now.nodes voted }
    requires log { IsIndex (length log.now) }
    ensures ok { OnOk result (out.new.items ≡ out.old.items
        ++ (body who.now.stack C.format).spell (body_of who.now (kept_as term voted log.now))) }
    ensures fits { OnOk result ((body who.now.stack C.format).Fits (body_of who.now (kept_as term voted log.now))) }
    ensures err { OnErr result (IsPrefix out.old.items out.new.items) }
{
    put_owner(out, who)?;
    put_u64(out, term)?;
    put_vote(out, voted)?;
    put_log(out, log)
}

/// Adds the body of version 2 of a node that keeps this at the end, or a part of it.
pub fn put_body<C: Wire>(out: &mut Vec<u8>, who: &Who, kept: &Kept<C>) -> Result<(), AllocError>
    requires nodes { IsClusterSize who.now.nodes }
    requires me { who.now.me < who.now.nodes }
    requires voted { VoteAmong who.now.nodes kept.now.voted }
    ensures ok { OnOk result (out.new.items ≡ out.old.items ++ (body who.now.stack C.format).spell (body_of who.now kept.now)) }
    ensures fits { OnOk result ((body who.now.stack C.format).Fits (body_of who.now kept.now)) }
    ensures err { OnErr result (IsPrefix out.old.items out.new.items) }
{
    put_state(out, who, kept.term(), kept.voted(), kept.log())
}
