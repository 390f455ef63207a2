ghost use Rattle.std.specs.Prelude.{◌≡◌, ◌≤◌, ◌==◌, length, IfOk, IsTrue, OnOk};
ghost use Rattle.vst_base.specs.Logs.{term_at};

use crate::{Raft, RaftState};
use std::alloc::{AllocError, Global};
use vst_base::Queries;

impl<S, C: Drop, O> RaftState<S, C, O> {
    /// Up to which index the node knows its log to be committed.
    pub fn commit(&self) -> u32
        ensures { result ≡ self.now.commit }
    {
        self.commit
    }

    /// Whether the last entry that the node knows to be committed is of its term.
    pub fn has_committed_own(&self) -> bool
        requires { self.now.commit ≤ length self.now.log }
        ensures { result ≡ (term_at self.now.log self.now.commit == self.now.ballot.term) }
    {
        self.log.term_at(self.commit).unwrap_or(0) == self.ballot.term()
    }
}

impl<M: Queries> Raft<M> {
    /// What the machine answers to a command that reads, from the state that the node's applied entries made. It leaves the
    /// state as it is.
    pub fn query(
        &self,
        alloc: Global,
        state: &mut RaftState<M::State, M::Cmd, M::Out>,
        cmd: &M::Cmd,
    ) -> Result<M::Out, AllocError>
        requires reads { IsTrue (M.reads self.now.machine cmd.now) }
        ensures output { IfOk result (λ out. out ≡ ((M.meaning self.now.machine).apply state.old.machine cmd.now).1) }
        ensures state { OnOk result (state.new ≡ state.old) }
    {
        self.machine().apply(alloc, &mut state.machine, cmd)
    }
}
