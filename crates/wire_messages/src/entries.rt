ghost use Rattle.std.specs.Prelude.{◌≡◌, ◌≤◌, ◌++◌, All, IfOk, IfSome, OnErr, OnOk, length};
ghost use Rattle.std.specs.List.{flat_map};
ghost use Rattle.raft_types.specs.declared.limits.TheConstants.{MAX_BATCH};
ghost use Rattle.wire_fields.specs.Formats.{listed};
ghost use Rattle.wire_messages.specs.RaftBytes.{entries};
ghost use Rattle.wire_messages.specs.Wires.{Takes, TakesBy};
ghost use Rattle.lists.specs.Prefixes.{IsPrefix};

use crate::Wire;
use raft_types::{Entries, MAX_BATCH};
use std::alloc::{AllocError, Global};
use wire_fields::Input;

/// Adds each value at the end, or a part of their bytes.
#[tactic(auto, using(wire_fields::specs::Fronts::front_stays))]
pub fn put_each<T: Wire>(out: &mut Vec<u8>, items: &[T]) -> Result<(), AllocError>
    ensures ok { OnOk result (out.new.items ≡ out.old.items ++ flat_map T.format.spell items.now) }
    ensures fits { OnOk result (All T.format.Fits items.now) }
    ensures err { OnErr result (IsPrefix out.old.items out.new.items) }
{
    for item in items {
        item.put(out)?;
    }
    Ok(())
}

/// So many values, one after the other, and `None` where they don't stand in front. What is left of the input after a `None`
/// or an `Err` is not said.
#[tactic(auto, using(crate::specs::Lists::list_next, crate::specs::Lists::list_stops))]
pub fn take_list<T: Wire>(
    alloc: Global,
    input: &mut Input<'_>,
    count: u32,
) -> Result<Option<Vec<T>>, AllocError>
    ensures items { TakesBy (λ v. v.items) (listed T.format count) input.old input.new result }
    ensures count { IfOk result (λ there. IfSome there (λ v. length v.items ≡ count)) }
{
    let mut items = Vec::new(alloc);
    for _taken in 0..count {
        let Some(item) = T::take(alloc, input)? else {
            return Ok(None);
        };
        items.push(item)?;
    }
    Ok(Some(items))
}

/// The entries that stand in front after their number, at most `MAX_BATCH`.
pub fn take_entries<C: Wire>(
    alloc: Global,
    input: &mut Input<'_>,
) -> Result<Option<Entries<C>>, AllocError>
    ensures items { Takes (entries C.format) input.old input.new result }
    ensures count { IfOk result (λ there. IfSome there (λ items. length items ≤ MAX_BATCH)) }
{
    let Some(count) = input.u8(0, MAX_BATCH as u8) else {
        return Ok(None);
    };
    let Some(items) = take_list(alloc, input, u32::from(count))? else {
        return Ok(None);
    };
    Ok(Some(Entries::new(items)))
}
