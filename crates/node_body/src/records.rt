ghost use Rattle.std.specs.Prelude.{◌≡◌, ◌≤◌, ◌+◌, ◌++◌, ℕ, IfOk, IfSome, OnErr, OnOk, length};
ghost use Rattle.node_body.specs.Bodies.{VoteAmong, entry_in};
ghost use Rattle.node_body.specs.Journals.{change, change_as, patched, spell_change};
ghost use Rattle.raft_types.specs.Messages.{IsIndex, IsTerm};
ghost use Rattle.vst_base.specs.declared.node.TheConstants.{MAX_NODES};
ghost use Rattle.wire_messages.specs.EntryBytes.{entry};
ghost use Rattle.wire_messages.specs.Wires.{Takes};
ghost use Rattle.lists.specs.Prefixes.{IsPrefix};

use crate::Version;
use crate::log::{put_log, take_log};
use crate::vote::{put_vote, read_vote};
use raft_types::{Entries, Kept, MAX_INDEX};
use std::alloc::{AllocError, Global};
use vst_base::{Entry, MAX_TERM, Node};
use wire_fields::{Input, put_u32, put_u64};
use wire_messages::Wire;

/// What a journal adds to a state: the term, at most `MAX_TERM`, the vote in it, and the entries that stand in the log after
/// the first `keep` of those before.
#[derive(Debug, Drop)]
pub struct Record<C> {
    pub term: u64,
    pub voted: Option<Node>,
    pub keep: u32,
    pub entries: Entries<C>,
}

/// The record of a node of so many that stands in front, as the version has it.
pub fn take_record<C: Wire>(
    alloc: Global,
    input: &mut Input<'_>,
    version: Version,
    nodes: u8,
) -> Result<Option<Record<C>>, AllocError>
    ensures record { Takes (change nodes (entry_in version C.format)) input.old input.new result }
    ensures in_range { IfOk result (λ there. IfSome there (λ r. IsTerm r.term × IsIndex (r.keep + length r.entries))) }
{
    let Some(term) = input.u64(0, MAX_TERM) else {
        return Ok(None);
    };
    let Some(voted) = read_vote(input, nodes) else {
        return Ok(None);
    };
    let Some(keep) = input.u32(0, MAX_INDEX) else {
        return Ok(None);
    };
    let Some(entries) = take_log(alloc, input, version)? else {
        return Ok(None);
    };
    let count = entries.as_slice().len() as u32;
    if keep + count > MAX_INDEX {
        return Ok(None);
    }
    Ok(Some(Record {
        term,
        voted,
        keep,
        entries,
    }))
}

/// The state that the record makes of this one.
pub fn apply<C: Drop>(added: Record<C>, kept: Kept<C>) -> Result<Kept<C>, AllocError>
    requires term { IsTerm added.term }
    requires index { IsIndex (added.keep + length added.entries) }
    ensures { IfOk result (λ k. k ≡ patched added kept) }
{
    let mut log = kept.into_log().into_vec();
    log.truncate(added.keep as usize);
    let mut entries = added.entries.into_vec();
    log.append(&mut entries)?;
    Ok(Kept::new(added.term, added.voted, Entries::new(log)))
}

/// Adds a record of version 2 at the end, or a part of it.
pub fn put_record<C: Wire>(
    out: &mut Vec<u8>,
    term: u64,
    voted: Option<Node>,
    keep: u32,
    entries: &[Entry<C>],
) -> Result<(), AllocError>
    requires term { IsTerm term }
    requires index { IsIndex (keep + length entries.now) }
    ensures ok { OnOk result (out.new.items ≡ out.old.items
        ++ spell_change (entry C.format) (change_as term voted keep entries.now)) }
    ensures fits { OnOk result ((nodes : ℕ) → nodes ≤ MAX_NODES → VoteAmong nodes voted
        → (change nodes (entry C.format)).Fits (change_as term voted keep entries.now)) }
    ensures err { OnErr result (IsPrefix out.old.items out.new.items) }
{
    put_u64(out, term)?;
    put_vote(out, voted)?;
    put_u32(out, keep)?;
    put_log(out, entries)
}
