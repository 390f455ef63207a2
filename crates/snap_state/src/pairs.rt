ghost use Rattle.std.specs.Prelude.{◌≡◌, ◌≤◌, ◌++◌, length, true, false, IfOk, MatchOption, OnErr, OnOk};
ghost use Rattle.std.specs.BTreeMap.{btree_map_len};
ghost use Rattle.std.specs.FinMap.{is_sorted};
ghost use Rattle.lists.specs.Prefixes.{IsPrefix};
ghost use Rattle.raft_types.specs.declared.limits.TheConstants.{MAX_INDEX};
ghost use Rattle.wire_messages.specs.Wires.{TakesBy};
ghost use Rattle.wire_fields.specs.Formats.{pair};
ghost use Rattle.snap_state.specs.Tables.{at_most, goes_first, in_order};

use raft_types::MAX_INDEX;
use std::alloc::{AllocError, Global};
use std::collections::BTreeMap;
use wire_fields::{Input, put_u32};
use wire_messages::{Wire, take_list};

// Adds a key and its value at the end, or a part of their bytes.
#[tactic(auto, using(wire_fields::specs::Fronts::front_stays))]
fn put_pair<K: Wire, V: Wire>(out: &mut Vec<u8>, key: &K, value: &V) -> Result<(), AllocError>
    ensures ok { OnOk result (out.new.items ≡ out.old.items ++ (pair K.format V.format).spell (key.now, value.now)) }
    ensures fits { OnOk result ((pair K.format V.format).Fits (key.now, value.now)) }
    ensures err { OnErr result (IsPrefix out.old.items out.new.items) }
{
    key.put(out)?;
    value.put(out)
}

/// Adds the pairs of a tree at the end, after their number, or a part of their bytes.
#[tactic(auto, using(wire_fields::specs::Fronts::front_stays))]
pub fn put_pairs<K: Ord + Wire, V: Wire>(
    out: &mut Vec<u8>,
    tree: &BTreeMap<K, V>,
) -> Result<(), AllocError>
    requires { btree_map_len tree.now ≤ MAX_INDEX }
    ensures ok { OnOk result (out.new.items ≡ out.old.items ++ (in_order K.cmp K.format V.format).spell tree.now.entries) }
    ensures fits { OnOk result ((in_order K.cmp K.format V.format).Fits tree.now.entries) }
    ensures err { OnErr result (IsPrefix out.old.items out.new.items) }
{
    put_u32(out, tree.len() as u32)?;
    for (key, value) in tree {
        put_pair(out, key, value)?;
    }
    Ok(())
}

// Whether the key stands before all of the tree's.
#[tactic(auto, using(crate::specs::TableLaws::first_there, crate::specs::TableLaws::none_before))]
fn goes_first<K: Ord, V>(key: &K, tree: &BTreeMap<K, V>) -> bool
    ensures { result ≡ goes_first K.cmp key.now tree.now.entries }
{
    match tree.first_key_value() {
        Some((least, _)) => key.cmp(least).is_lt(),
        None => true,
    }
}

// The tree of these pairs, and `None` where they are not in the order of their keys.
fn tree_of<K: Ord + Drop, V: Drop>(
    alloc: Global,
    items: Vec<(K, V)>,
) -> Result<Option<BTreeMap<K, V>>, AllocError>
    ensures { IfOk result (λ there. MatchOption there (is_sorted K.cmp items.items ≡ false)
        (λ t. (t.entries ≡ items.items) × (is_sorted K.cmp items.items ≡ true))) }
{
    let mut items = items;
    let mut tree = BTreeMap::new(alloc);
    while let Some((key, value)) = items.pop() {
        if !goes_first(&key, &tree) {
            return Ok(None);
        }
        tree.insert(key, value)?;
    }
    Ok(Some(tree))
}

/// The pairs that stand in front after their number, at most so many, each key over the one before, and `None` where none do. What
/// is left of the input after a `None` or an `Err` is not said.
#[tactic(auto, using(crate::specs::TableLaws::all_listed, crate::specs::TableLaws::none_sorted, crate::specs::TableLaws::none_listed, crate::specs::TableLaws::none_counted))]
pub fn take_pairs<K: Ord + Wire, V: Wire>(
    alloc: Global,
    input: &mut Input<'_>,
    most: u32,
) -> Result<Option<BTreeMap<K, V>>, AllocError>
    ensures { TakesBy (λ t. t.entries) (at_most length most (in_order K.cmp K.format V.format)) input.old input.new result }
{
    let Some(count) = input.u32(0, MAX_INDEX) else {
        return Ok(None);
    };
    if count > most {
        return Ok(None);
    }
    let Some(items) = take_list::<(K, V)>(alloc, input, count)? else {
        return Ok(None);
    };
    match tree_of(alloc, items)? {
        Some(tree) => Ok(Some(tree)),
        None => Ok(None),
    }
}
