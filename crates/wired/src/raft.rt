ghost use Rattle.wired.specs.RaftSaving.{raft_saving};
ghost use Rattle.wired.specs.RaftSavingLaws.{raft_found_fits, raft_reads_back};

use crate::body_bytes::{bytes_of, kept_in, who_at};
use crate::{Cluster, Saves};
use handler_trait::{Handlers, Rebootable};
use raft_types::Kept;
use raft_xform::{Raft, RaftState};
use read_xform::{ReadRaft, ReadState};
use std::alloc::{AllocError, Global};
use vst_base::{Machine, Node, Queries};
use wire_messages::Wire;

impl<M: Machine> Saves for Raft<M>
where
    M::Cmd: Wire,
{
    ghost saving = { λ r stack name. raft_saving stack M.Cmd.format r.nodes name };

    fn save(
        &self,
        alloc: Global,
        cluster: &Cluster,
        node: Node,
        state: &RaftState<M::State, M::Cmd, M::Out>,
    ) -> Result<Vec<u8>, AllocError> {
        let kept = self.keep(alloc, state)?;
        bytes_of(alloc, &who_at(cluster, node, self.nodes()), &kept)
    }

    fn restore(
        &self,
        alloc: Global,
        cluster: &Cluster,
        node: Node,
        bytes: &[u8],
    ) -> Result<Option<Kept<M::Cmd>>, AllocError> {
        kept_in(alloc, &who_at(cluster, node, self.nodes()), bytes)
    }

    ghost reads_back = { λ r stack name. raft_reads_back stack M.Cmd.format M.Cmd.is_format r.nodes name };

    ghost found_fits = { λ r stack name. raft_found_fits stack M.Cmd.format M.Cmd.is_format r.nodes name };
}

impl<M: Queries> Saves for ReadRaft<M>
where
    M::Cmd: Wire,
{
    ghost saving = { λ r stack name. raft_saving stack M.Cmd.format r.nodes name };

    fn save(
        &self,
        alloc: Global,
        cluster: &Cluster,
        node: Node,
        state: &ReadState<M::State, M::Cmd, M::Out>,
    ) -> Result<Vec<u8>, AllocError> {
        let kept = self.keep(alloc, state)?;
        bytes_of(alloc, &who_at(cluster, node, self.nodes()), &kept)
    }

    fn restore(
        &self,
        alloc: Global,
        cluster: &Cluster,
        node: Node,
        bytes: &[u8],
    ) -> Result<Option<Kept<M::Cmd>>, AllocError> {
        kept_in(alloc, &who_at(cluster, node, self.nodes()), bytes)
    }

    ghost reads_back = { λ r stack name. raft_reads_back stack M.Cmd.format M.Cmd.is_format r.nodes name };

    ghost found_fits = { λ r stack name. raft_found_fits stack M.Cmd.format M.Cmd.is_format r.nodes name };
}
