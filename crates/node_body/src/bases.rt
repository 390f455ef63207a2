ghost use Rattle.std.specs.Prelude.{◌≡◌, ◌+◌, ◌<◌, ◌≤◌, ℕ, [], ◌∷◌, ◌++◌, IfOk, OnOk, length, vec_len};
ghost use Rattle.node_body.specs.Bodies.{VoteAmong, body, body_of, kept_as};
ghost use Rattle.node_body.specs.Journals.{change, change_as, spell_change};
ghost use Rattle.node_body.specs.Slots.{base_of};
ghost use Rattle.node_body.specs.declared.bases.TheConstants.{MAX_BASE_LEN, MAX_RECORD_LEN};
ghost use Rattle.raft_types.specs.Messages.{IsClusterSize, IsIndex, IsTerm};
ghost use Rattle.vst_base.specs.declared.node.TheConstants.{MAX_NODES};
ghost use Rattle.wire_messages.specs.EntryBytes.{entry};

use crate::{Commands, Who, put_record, put_state};
use raft_types::Kept;
use std::alloc::{AllocError, Global};
use vst_base::{Entry, Node};
use wire_fields::put_u32;

/// How many bytes a base has at most: four of the length of its body, a body of at most 4,294,967,295, and a gate.
pub const MAX_BASE_LEN: u64 = 4_294_967_300;

/// A bound on the bytes of a record with the gate after it, which are 2,145,000,018 at most.
pub const MAX_RECORD_LEN: u64 = 2_147_483_647;

/// The bytes of a slot that begins anew with this term, vote and log: its body of version 2 after its length, and a closed gate.
pub fn make_base_of<C: Commands>(
    alloc: Global,
    who: &Who,
    term: u64,
    voted: Option<Node>,
    log: &[Entry<C>],
) -> Result<Vec<u8>, AllocError>
    requires stack { who.now.stack ≡ C.stack }
    requires nodes { IsClusterSize who.now.nodes }
    requires me { who.now.me < who.now.nodes }
    requires term { IsTerm term }
    requires voted { VoteAmong who.now.nodes voted }
    requires log { IsIndex (length log.now) }
    ensures base { IfOk result (λ slot. slot.items ≡ base_of C.stack C.format who.now (kept_as term voted log.now)) }
    ensures fits { OnOk result ((body C.stack C.format).Fits (body_of who.now (kept_as term voted log.now))) }
    ensures short { IfOk result (λ slot. vec_len slot ≤ MAX_BASE_LEN) }
{
    let mut body = Vec::new(alloc);
    put_state(&mut body, who, term, voted, log)?;
    let mut slot = Vec::new(alloc);
    put_u32(&mut slot, body.len() as u32)?;
    slot.extend_from_slice(&body)?;
    slot.push(0)?;
    Ok(slot)
}

/// The bytes of a slot that begins anew with this state.
pub fn make_base<C: Commands>(
    alloc: Global,
    who: &Who,
    kept: &Kept<C>,
) -> Result<Vec<u8>, AllocError>
    requires stack { who.now.stack ≡ C.stack }
    requires nodes { IsClusterSize who.now.nodes }
    requires me { who.now.me < who.now.nodes }
    requires voted { VoteAmong who.now.nodes kept.now.voted }
    ensures base { IfOk result (λ slot. slot.items ≡ base_of C.stack C.format who.now kept.now) }
    ensures fits { OnOk result ((body C.stack C.format).Fits (body_of who.now kept.now)) }
    ensures short { IfOk result (λ slot. vec_len slot ≤ MAX_BASE_LEN) }
{
    make_base_of(alloc, who, kept.term(), kept.voted(), kept.log())
}

/// The bytes that follow the last gate of a slot of version 2 for one record more: the record, and a closed gate.
pub fn make_record<C: Commands>(
    alloc: Global,
    term: u64,
    voted: Option<Node>,
    keep: u32,
    entries: &[Entry<C>],
) -> Result<Vec<u8>, AllocError>
    requires term { IsTerm term }
    requires voted { VoteAmong MAX_NODES voted }
    requires index { IsIndex (keep + length entries.now) }
    ensures record { IfOk result (λ bytes. bytes.items
        ≡ spell_change (entry C.format) (change_as term voted keep entries.now) ++ 0 ∷ []) }
    ensures fits { OnOk result ((nodes : ℕ) → nodes ≤ MAX_NODES → VoteAmong nodes voted
        → (change nodes (entry C.format)).Fits (change_as term voted keep entries.now)) }
    ensures short { IfOk result (λ bytes. vec_len bytes ≤ MAX_RECORD_LEN) }
{
    let mut bytes = Vec::new(alloc);
    put_record(&mut bytes, term, voted, keep, entries)?;
    bytes.push(0)?;
    Ok(bytes)
}
