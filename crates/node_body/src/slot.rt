ghost use Rattle.std.specs.Prelude.{◌≡◌, IfOk, IfSome, MatchOption, Some, None};
ghost use Rattle.node_body.specs.Bodies.{VoteAmong};
ghost use Rattle.node_body.specs.Fronts.{found_in_front, has_gate};
ghost use Rattle.node_body.specs.Slots.{difference, of_own, or_next, read_slot, sized, slot_byte, slot_found, stack_of_slot};

use crate::{Commands, Journal, Owner, Version, Who, Why, read_journal, take_any_body};
use kv_machine::KvCmd;
use lock_table::TableCmd;
use std::alloc::{AllocError, Global};
use vst_base::StackId;
use wire_codec::stack_byte;
use wire_fields::Input;
use wire_messages::Wire;

/// What a slot holds: whose state it is, the version that it is spelled in, and the state after its records.
#[derive(Debug, Drop)]
pub struct Held<C> {
    pub version: Version,
    pub owner: Owner,
    pub journal: Journal<C>,
}

// The bytes whose number stands in front, and what stands after them.
#[tactic(auto, using(crate::proofs::Parts::part_there, crate::proofs::Parts::part_short))]
fn split(bytes: &[u8]) -> Option<(&[u8], &[u8])>
    ensures { MatchOption result (sized.read bytes.now ≡ None) (λ p. sized.read bytes.now ≡ Some (p.0.now, p.1.now)) }
{
    let mut input = Input::new(bytes);
    let len = input.u32(0, u32::MAX)? as usize;
    let rest = input.rest();
    if rest.len() < len {
        return None;
    }
    Some((&rest[..len], &rest[len..]))
}

/// What a slot of a stack with these commands holds, or the first why of `Slot`, `Body` and `Journal` that applies.
pub fn read_slot<C: Wire>(
    alloc: Global,
    stack: StackId,
    bytes: &[u8],
) -> Result<Result<Held<C>, Why>, AllocError>
    ensures { IfOk result (λ slot. slot ≡ read_slot stack C.format bytes.now) }
{
    let Some((body, rest)) = split(bytes) else {
        return Ok(Err(Why::Slot));
    };
    let Some(body) = take_any_body::<C>(alloc, stack, body)? else {
        return Ok(Err(Why::Body));
    };
    let version = body.version;
    let owner = body.owner;
    let Some(journal) = read_journal(alloc, rest, version, owner.nodes, body.kept)? else {
        return Ok(Err(Why::Journal));
    };
    Ok(Ok(Held {
        version,
        owner,
        journal,
    }))
}

// The first in which the owner differs from the node that asks.
fn difference(who: &Who, owner: &Owner) -> Option<Why>
    ensures { result ≡ difference who.now owner.now }
{
    if owner.me != who.me {
        return Some(Why::Node {
            kept: owner.me,
            configured: who.me,
        });
    }
    if owner.nodes != who.nodes {
        return Some(Why::Cluster {
            kept: owner.nodes,
            configured: who.nodes,
        });
    }
    match owner.name {
        Some(name) if name != who.name => Some(Why::Name {
            kept: name,
            configured: who.name,
        }),
        _ => None,
    }
}

// The byte of a stack with these commands where the bytes are a slot of it, or the first why.
fn slot_byte<C: Wire>(
    alloc: Global,
    stack: StackId,
    bytes: &[u8],
) -> Result<Result<u8, Why>, AllocError>
    ensures { IfOk result (λ found. found ≡ slot_byte stack C.format bytes.now) }
{
    match read_slot::<C>(alloc, stack, bytes)? {
        Ok(_held) => Ok(Ok(stack_byte(stack))),
        Err(why) => Ok(Err(why)),
    }
}

// What was found, or, where no body was, what is found for a stack with these commands.
fn or_next<C: Wire>(
    alloc: Global,
    stack: StackId,
    bytes: &[u8],
    found: Result<u8, Why>,
) -> Result<Result<u8, Why>, AllocError>
    ensures { IfOk result (λ next. next ≡ or_next found (slot_byte stack C.format bytes.now)) }
{
    match found {
        Err(Why::Body) => slot_byte::<C>(alloc, stack, bytes),
        Ok(_) | Err(_) => Ok(found),
    }
}

/// The byte of the stack whose slot the bytes are, of those whose nodes keep logs, or the first why of `Slot`, `Body` and `Journal` that
/// applies.
pub fn stack_of_slot(alloc: Global, bytes: &[u8]) -> Result<Result<u8, Why>, AllocError>
    ensures { IfOk result (λ found. found ≡ stack_of_slot bytes.now) }
{
    let found = Err(Why::Body);
    // A line for each stack.
    let found = or_next::<KvCmd>(alloc, StackId::KvRaft, bytes, found)?;
    let found = or_next::<TableCmd>(alloc, StackId::TableRaft, bytes, found)?;
    let found = or_next::<KvCmd>(alloc, StackId::KvRaftRead, bytes, found)?;
    let found = or_next::<TableCmd>(alloc, StackId::TableRaftRead, bytes, found)?;
    Ok(found)
}

// What a slot is for a node that asks. That its vote is in range follows.
fn slot_for<C: Commands>(
    alloc: Global,
    who: &Who,
    bytes: &[u8],
) -> Result<Result<Held<C>, Why>, AllocError>
    ensures { IfOk result (λ slot. slot ≡ slot_found C.stack C.format who.now bytes.now) }
{
    match read_slot::<C>(alloc, C::stack(), bytes)? {
        Ok(held) => match difference(who, &held.owner) {
            None => Ok(Ok(held)),
            Some(why) => Ok(Err(why)),
        },
        Err(Why::Body) => match stack_of_slot(alloc, bytes)? {
            Ok(kept) => Ok(Err(Why::Stack {
                kept,
                configured: stack_byte(C::stack()),
            })),
            Err(why) => Ok(Err(why)),
        },
        Err(why) => Ok(Err(why)),
    }
}

/// What a slot is for a node that asks, of the stack of `C`: the state that it holds, or the first why that applies. A slot of another
/// stack whose nodes keep logs is `Why::Stack`. The stack that `who` names is not read: `found_states_are_own` says what is found where
/// it is that of `C`.
pub fn find_slot<C: Commands>(
    alloc: Global,
    who: &Who,
    bytes: &[u8],
) -> Result<Result<Held<C>, Why>, AllocError>
    ensures found { IfOk result (λ slot. slot ≡ slot_found C.stack C.format who.now bytes.now) }
    ensures voted { IfOk result (λ slot. IfOk slot (λ held. VoteAmong who.now.nodes held.journal.kept.voted)) }
{
    slot_for::<C>(alloc, who, bytes)
}

// Whether a gate stands after the body.
fn has_gate(bytes: &[u8]) -> bool
    ensures { result ≡ has_gate bytes.now }
{
    match split(bytes) {
        Some((_, [_, ..])) => true,
        Some((_, [])) | None => false,
    }
}

/// What each slot that begins with these bytes is for a node that asks, as `find_slot` says. `None` comes where bytes more may change that,
/// since there is no whole body yet, or no closed gate after one. `fronts_decide` says what is the same of the whole slot.
pub fn find_in_front<C: Commands>(
    alloc: Global,
    who: &Who,
    bytes: &[u8],
) -> Result<Option<Result<Held<C>, Why>>, AllocError>
    ensures found { IfOk result (λ found. found ≡ found_in_front C.stack C.format who.now bytes.now) }
    ensures voted { IfOk result (λ found. IfSome found (λ slot. IfOk slot (λ held. VoteAmong who.now.nodes held.journal.kept.voted))) }
{
    match find_slot::<C>(alloc, who, bytes)? {
        Err(Why::Body) => Ok(Some(Err(Why::Body))),
        Err(Why::Journal) => Ok(None),
        found => {
            if has_gate(bytes) {
                Ok(Some(found))
            } else {
                Ok(None)
            }
        }
    }
}
