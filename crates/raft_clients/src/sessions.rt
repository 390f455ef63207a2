ghost use Rattle.std.specs.Prelude.{◌≡◌, false, IfOk, IsOk, OnErr, OnOk, if◌then◌else◌};
ghost use Rattle.std.specs.FinMap as map;
ghost use Rattle.std.specs.Option.{option_copied};
ghost use Rattle.raft_clients.specs.Sessions.{is_new};

use crate::Session;
use indexmap::IndexMap;
use std::alloc::{AllocError, Global};
use std::marker::Model;
use vst_base::{ClientId, ReqId};

/// The session of each client that has one. Contracts see a finite map from the clients' numbers.
#[derive(Drop)]
pub struct Sessions<O> {
    by_client: IndexMap<ClientId, Session<O>>,
}

impl<O> Model for Sessions<O> {
    ghost use Rattle.std.specs.FinMap as map;
    ghost use Rattle.raft_clients.specs.Sessions.{Sessions as Clients, sessions_code};

    ghost Value = { Clients O };

    ghost coded = { sessions_code O.code };

    ghost view = { λ s. map.from_entries s.by_client.entries };
}

impl<O: Drop> Sessions<O> {
    /// No client has a session. It takes no memory.
    pub fn new(alloc: Global) -> Self
        ensures { result ≡ map.empty }
    {
        Sessions {
            by_client: IndexMap::new(alloc),
        }
    }

    /// The client's session: one hash look-up.
    pub fn get(&self, client: ClientId) -> Option<&Session<O>>
        ensures { option_copied result ≡ map.get self.now client }
    {
        self.by_client.get(&client)
    }

    // Whether the request is new to the client.
    pub(crate) fn is_new(&self, client: ClientId, request: ReqId) -> bool
        ensures { result ≡ is_new (map.get self.now client) request }
    {
        match self.get(client) {
            Some(session) => session.is_passed_by(request),
            None => true,
        }
    }

    // From now on this is the client's session. An `Err` changes nothing.
    pub(crate) fn keep(&mut self, client: ClientId, session: Session<O>) -> Result<(), AllocError>
        ensures ok { OnOk result (self.new ≡ map.insert self.old client session) }
        ensures err { OnErr result (self.new ≡ self.old) }
    {
        self.by_client.insert(client, session)?;
        Ok(())
    }
}

impl Sessions<()> {
    /// Notes a request, and tells whether it is new to its client: over its last one. Then it is the client's
    /// last one from now on. It takes no memory where it is not new, and an `Err` changes nothing.
    pub fn note(&mut self, client: ClientId, request: ReqId) -> Result<bool, AllocError>
        ensures answer { IfOk result (λ new. new ≡ is_new (map.get self.old client) request) }
        ensures noted { IfOk result (λ new. self.new ≡ (if new then map.insert self.old client (record { request = request; output = tt })
            else self.old)) }
        ensures known { is_new (map.get self.old client) request ≡ false → IsOk result }
        ensures err { OnErr result (self.new ≡ self.old) }
    {
        let new = self.is_new(client, request);
        if new {
            let output = ();
            self.keep(client, Session { request, output })?;
        }
        Ok(new)
    }
}
