ghost use Rattle.std.specs.Prelude.{◌≡◌, ◌≤◌, IfOk, length};
ghost use Rattle.node_acts.specs.Stores.{common, terms_of};

use std::alloc::{AllocError, Global};
use vst_base::Entry;

// How many of the terms the first entries of a log have, where they are known to have so many.
pub fn common<C>(terms: &[u64], log: &[Entry<C>], same: usize) -> usize
    requires { same ≤ common terms.now log.now }
    ensures common { result ≡ common terms.now log.now }
    ensures in_range { (result ≤ length terms.now) × (result ≤ length log.now) }
{
    let mut count = same;
    while count < terms.len() && count < log.len() && terms[count] == log[count].term() {
        count += 1;
    }
    count
}

// The terms of entries.
pub fn terms_of<C>(alloc: Global, entries: &[Entry<C>]) -> Result<Vec<u64>, AllocError>
    ensures { IfOk result (λ terms. terms.items ≡ terms_of entries.now) }
{
    let mut terms = Vec::with_capacity(alloc, entries.len())?;
    for entry in entries {
        terms.push(entry.term())?;
    }
    Ok(terms)
}
