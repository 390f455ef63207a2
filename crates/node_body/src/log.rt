ghost use Rattle.std.specs.Prelude.{◌≡◌, ◌++◌, IfOk, IfSome, OnErr, OnOk, length};
ghost use Rattle.node_body.specs.Bodies.{entry_in, log};
ghost use Rattle.raft_types.specs.Messages.{IsIndex};
ghost use Rattle.wire_fields.specs.Formats.{listed};
ghost use Rattle.wire_messages.specs.EntryBytes.{entry};
ghost use Rattle.wire_messages.specs.Wires.{Takes, TakesBy};
ghost use Rattle.lists.specs.Prefixes.{IsPrefix};

use crate::Version;
use raft_types::{Entries, MAX_INDEX};
use std::alloc::{AllocError, Global};
use vst_base::Entry;
use wire_fields::{Input, put_u32};
use wire_messages::{Wire, put_each, take_old_entry};

// The entry that stands in front, as the version has it.
fn take_entry<C: Wire>(
    alloc: Global,
    input: &mut Input<'_>,
    version: Version,
) -> Result<Option<Entry<C>>, AllocError>
    ensures { Takes (entry_in version C.format) input.old input.new result }
{
    match version {
        Version::One => take_old_entry(alloc, input),
        Version::Two => Entry::take(alloc, input),
    }
}

// So many entries.
#[tactic(auto, using(wire_messages::specs::Lists::list_next, wire_messages::specs::Lists::list_stops))]
fn take_each<C: Wire>(
    alloc: Global,
    input: &mut Input<'_>,
    version: Version,
    count: u32,
) -> Result<Option<Vec<Entry<C>>>, AllocError>
    ensures items { TakesBy (λ v. v.items) (listed (entry_in version C.format) count) input.old input.new result }
    ensures count { IfOk result (λ there. IfSome there (λ v. length v.items ≡ count)) }
{
    let mut items = Vec::new(alloc);
    for _taken in 0..count {
        let Some(item) = take_entry(alloc, input, version)? else {
            return Ok(None);
        };
        items.push(item)?;
    }
    Ok(Some(items))
}

// The entries that stand in front after their number.
pub fn take_log<C: Wire>(
    alloc: Global,
    input: &mut Input<'_>,
    version: Version,
) -> Result<Option<Entries<C>>, AllocError>
    ensures { Takes (log (entry_in version C.format)) input.old input.new result }
{
    let Some(count) = input.u32(0, MAX_INDEX) else {
        return Ok(None);
    };
    let Some(items) = take_each(alloc, input, version, count)? else {
        return Ok(None);
    };
    Ok(Some(Entries::new(items)))
}

// Adds entries after their number at the end, or a part of their bytes.
#[tactic(auto, using(wire_fields::specs::Fronts::front_stays))]
pub fn put_log<C: Wire>(out: &mut Vec<u8>, items: &[Entry<C>]) -> Result<(), AllocError>
    requires { IsIndex (length items.now) }
    ensures ok { OnOk result (out.new.items ≡ out.old.items ++ (log (entry C.format)).spell items.now) }
    ensures fits { OnOk result ((log (entry C.format)).Fits items.now) }
    ensures err { OnErr result (IsPrefix out.old.items out.new.items) }
{
    put_u32(out, items.len() as u32)?;
    put_each(out, items)
}
