ghost use Rattle.std.specs.Prelude.{◌≡◌, ◌+◌, ◌<◌, List, [], ◌∷◌, ◌++◌, false, IsOk, OnOk};
ghost use Rattle.vst_base.specs.declared.entry.Entry.{Entry as EntryView};
ghost use Rattle.raft_clients.specs.Executed.{asked_by, request_of};
ghost use Rattle.applied_order.specs.Orders.{HasFollowed, is_executed_by, with_entry};

use raft_clients::Sessions;
use raft_types::RaftInput;
use std::alloc::{AllocError, Global};
use std::marker::Model;
use vst_base::{Entry, Machine, What};

/// What a cluster has applied so far, the longest list of entries that one of its nodes had applied at any
/// moment: how many entries, each client's last request in them that was executed, and the executed requests
/// in order, each with the index of its entry. Contracts see the record of these.
#[derive(Drop)]
pub struct AppliedOrder<C> {
    entries: u32,
    sessions: Sessions<()>,
    requests: Vec<RaftInput<C>>,
    indexes: Vec<u32>,
}

impl<C> Model for AppliedOrder<C> {
    ghost use Rattle.applied_order.specs.Orders.{OrderView, order_code};

    ghost Value = { OrderView C };

    ghost coded = { order_code C.code };

    ghost view = { λ o. record {
      entries = o.entries;
      sessions = o.sessions;
      requests = o.requests.items;
      indexes = o.indexes.items;
    } };
}

impl<C: Drop> AppliedOrder<C> {
    /// Nothing is applied yet. It takes no memory.
    pub fn new(alloc: Global) -> Self
        ensures { HasFollowed {C = C} result [] }
    {
        AppliedOrder {
            entries: 0,
            sessions: Sessions::new(alloc),
            requests: Vec::new(alloc),
            indexes: Vec::new(alloc),
        }
    }

    // Counts the next entry, and keeps its request, if it holds one and that is new to its client.
    fn take<M: Machine<Cmd = C>>(
        &mut self,
        alloc: Global,
        machine: &M,
        what: &What<C>,
    ) -> Result<(), AllocError>
        requires { self.old.entries < u32.MAX }
        ensures does { OnOk result (self.new ≡ with_entry self.old (asked_by what.now)) }
        ensures not_executed { is_executed_by self.old.sessions (asked_by what.now) ≡ false → IsOk result }
    {
        match what {
            What::Noop => {}
            What::Request {
                client,
                request,
                cmd,
                ..
            } => {
                if self.sessions.note(*client, *request)? {
                    self.requests.push(RaftInput {
                        client: *client,
                        request: *request,
                        cmd: machine.copy_cmd(alloc, cmd)?,
                    })?;
                    self.indexes.push(self.entries + 1)?;
                }
            }
        }
        self.entries += 1;
        Ok(())
    }

    /// One more entry is applied. Where its request is executed, the machine, which may be any with this
    /// command, copies the command. After an `Err` the order is given up. An entry by which no request is
    /// executed takes no memory.
    pub fn add<M: Machine<Cmd = C>>(
        &mut self,
        alloc: Global,
        machine: &M,
        entry: &Entry<C>,
    ) -> Result<(), AllocError>
        requires { self.old.entries < u32.MAX }
        ensures followed { OnOk result ((es : List (EntryView C)) → HasFollowed self.old es
            → HasFollowed self.new (es ++ entry.now ∷ [])) }
        ensures entries { OnOk result (self.new.entries ≡ self.old.entries + 1) }
        ensures not_executed { is_executed_by self.old.sessions (request_of entry.now) ≡ false → IsOk result }
    {
        self.take(alloc, machine, entry.what())
    }

    // How many entries are applied.
    pub(crate) fn entries(&self) -> u32
        ensures { result ≡ self.now.entries }
    {
        self.entries
    }

    /// The executed requests, in order.
    pub fn requests(&self) -> &[RaftInput<C>]
        ensures { result.now ≡ self.now.requests }
    {
        &self.requests
    }

    /// Gives up the order for the executed requests.
    pub fn into_requests(self) -> Vec<RaftInput<C>>
        ensures { result.items ≡ self.requests }
    {
        self.requests
    }

    /// Gives up the order for the executed requests and the indexes of their entries, from 1, in order.
    pub fn into_indexed(self) -> (Vec<u32>, Vec<RaftInput<C>>)
        ensures indexes { result.0.items ≡ self.indexes }
        ensures requests { result.1.items ≡ self.requests }
    {
        (self.indexes, self.requests)
    }
}
