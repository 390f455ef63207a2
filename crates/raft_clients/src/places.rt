ghost use Rattle.std.specs.Prelude.{◌≡◌, IfOk};
ghost use Rattle.raft_clients.specs.Executed.{executed_places};

use crate::Sessions;
use std::alloc::{AllocError, Global};
use vst_base::{Entry, What};

/// The places, from 0 and ascending, of the entries whose requests are executed: those whose number exceeds
/// every earlier one of their client. It takes a hash look-up or two for each entry.
pub fn executed<C>(alloc: Global, entries: &[Entry<C>]) -> Result<Vec<usize>, AllocError>
    ensures { IfOk result (λ places. places.items ≡ executed_places entries.now) }
{
    let mut last = Sessions::new(alloc);
    let mut places = Vec::new(alloc);
    for (place, entry) in entries.iter().enumerate() {
        match entry.what() {
            What::Noop => {}
            What::Request {
                client,
                request,
                ..
            } => {
                if last.note(*client, *request)? {
                    places.push(place)?;
                }
            }
        }
    }
    Ok(places)
}
