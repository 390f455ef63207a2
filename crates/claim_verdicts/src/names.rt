ghost use Rattle.std.specs.Prelude.{◌≡◌, ◌<◌, ◌^◌, ◌++◌, IfSome, ◌∷◌, [], IfOk, length, not, if◌then◌else◌};
ghost use Rattle.std.specs.List.{list_any};
ghost use Rattle.claim_verdicts.specs.Marks.{is_name, named};
ghost use Rattle.claim_verdicts.specs.Places.{place_of};

use crate::name::Name;
use indexmap::IndexSet;
use std::alloc::{AllocError, Global};
use std::marker::Model;
use vst_base::{ClientId, ReqId};

/// Names of requests, none of them twice, each with its place. Contracts see the list.
#[derive(Drop)]
pub(crate) struct Names {
    names: IndexSet<Name>,
}

impl Model for Names {
    ghost use Rattle.std.specs.Prelude.{List};
    ghost use Rattle.claim_verdicts.specs.declared.name.Name.{Name};

    ghost Value = { List Name };

    ghost view = { λ n. n.names.keys };
}

impl Names {
    /// No names. It takes no memory.
    pub fn new(alloc: Global) -> Self
        ensures { result ≡ [] }
    {
        Names {
            names: IndexSet::new(alloc),
        }
    }

    /// How many there are.
    pub fn len(&self) -> usize
        ensures len { result ≡ length self.now }
        ensures small { result < 2 ^ 63 }
    {
        self.names.len()
    }

    /// The place of a name, from 0: one hash look-up.
    pub fn place(&self, client: ClientId, request: ReqId) -> Option<usize>
        ensures place { result ≡ place_of (is_name client request) self.now }
        ensures within { IfSome result (λ place. place < length self.now) }
    {
        let name = Name {
            client: client.number(),
            request: request.number(),
        };
        self.names.get_index_of(&name)
    }

    /// Adds a name after the others, and answers false where it is there already.
    pub fn add(&mut self, client: ClientId, request: ReqId) -> Result<bool, AllocError>
        ensures new { IfOk result (λ new. new ≡ not (list_any (is_name client request) self.old)) }
        ensures added { IfOk result (λ new. self.new ≡ (if new then self.old ++ named client request ∷ [] else self.old)) }
    {
        let name = Name {
            client: client.number(),
            request: request.number(),
        };
        let new = self.names.insert(name)?;
        Ok(new)
    }
}
