ghost use Rattle.std.specs.Prelude.{◌≡◌, IfOk, OnOk};
ghost use Rattle.std.specs.Option.{option_copied};
ghost use Rattle.lock_table.specs.Table.{acquires, releases, tells, told};

use crate::{TableOut, TableState};
use key_map::copy_token;
use std::alloc::{AllocError, Global};
use vst_base::Key;

// A reply of these parts.
fn reply(alloc: Global, name: &Key, holder: Option<&Key>, yes: bool) -> Result<TableOut, AllocError>
    ensures { IfOk result (λ out. out ≡ told name.now (option_copied holder.entry) yes) }
{
    Ok(TableOut {
        name: name.copy(alloc)?,
        holder: copy_token(alloc, holder)?,
        yes,
    })
}

// The owner holds the name from now on, if nobody does.
#[tactic(auto, using(key_map::proofs::Lookups::lookups))]
pub fn acquires(
    alloc: Global,
    state: &mut TableState,
    name: &Key,
    owner: &Key,
) -> Result<TableOut, AllocError>
    ensures state { OnOk result (state.new ≡ (acquires state.old name.now owner.now).0) }
    ensures output { IfOk result (λ out. out ≡ (acquires state.old name.now owner.now).1) }
{
    match state.get(name) {
        Some(holder) => reply(alloc, name, Some(holder), false),
        None => {
            state.insert(name.copy(alloc)?, owner.copy(alloc)?)?;
            reply(alloc, name, Some(owner), true)
        }
    }
}

// Nobody holds the name from now on, if the owner does.
#[tactic(auto, using(key_map::proofs::Lookups::lookups))]
pub fn releases(
    alloc: Global,
    state: &mut TableState,
    name: &Key,
    owner: &Key,
) -> Result<TableOut, AllocError>
    ensures state { OnOk result (state.new ≡ (releases state.old name.now owner.now).0) }
    ensures output { IfOk result (λ out. out ≡ (releases state.old name.now owner.now).1) }
{
    if !state.holds(name, Some(owner)) {
        return reply(alloc, name, state.get(name), false);
    }
    let _ = state.remove(name);
    reply(alloc, name, None, true)
}

// Whether somebody holds the name, and who. The table stays as it is.
pub fn tells(alloc: Global, state: &TableState, name: &Key) -> Result<TableOut, AllocError>
    ensures { IfOk result (λ out. out ≡ (tells state.now name.now).1) }
{
    let holder = state.get(name);
    reply(alloc, name, holder, holder.is_some())
}
