ghost use Rattle.std.specs.Prelude.{◌≡◌, ◌≤◌, ◌+◌, [], IfOk, length, refl};
ghost use Rattle.linearizability.specs.Linearizable.{IsLinearizable};
ghost use Rattle.raft_types.specs.Messages.{IsClusterSize};
ghost use Rattle.stacks.specs.Claimed.{cluster_claimed};
ghost use Rattle.stacks.specs.Kinds.{application, cluster_play};
ghost use Rattle.stacks.specs.Made.{cluster_made};
ghost use Rattle.stacks.specs.Plays.{texts_of};
ghost use Rattle.stacks.specs.Reads.{reads_of};
ghost use Rattle.wire_codec.specs.Headings.{HasByte};
ghost use Rattle.wire_messages.specs.ReadBytes.{read_message};
ghost use Rattle.wired.specs.WiredRuns.{IsFormatOf};

use crate::{Application, Judged, Plays, ReadRun, StackCode};
use check_text::{Claim, Orders};
use claim_verdicts::{Verdict, cluster_verdict};
use raft_text::RaftText;
use raft_types::{RaftInput, RaftOut};
use read_xform::ReadRaft;
use runs_in_bytes::ClusterInBytes;
use schedule_make::ByClients;
use schedule_text::Header;
use std::alloc::{AllocError, Global};
use std::marker::PhantomData;
use vst_base::StackId;
use wired::AlwaysFits;

/// A machine on a Raft cluster whose reads take no entry of the log: the image is the order in which one machine takes the requests and
/// the reads that were answered.
pub struct Reading<M> {
    machine: PhantomData<M>,
}

impl<M: Application> Plays for Reading<M>
where
    M::Cmd: AlwaysFits,
{
    type Input = RaftInput<M::Cmd>;

    type Output = RaftOut<M::Out>;

    type Line = RaftInput<M::Cmd>;

    type Text = RaftText<M::Text>;

    type Running = ReadRun<M>;

    ghost play = { cluster_play (reads_of (application M.own (M.meaning M.machine)
        (texts_of M.Text.input_of M.Text.input_text M.Text.output_of M.Text.output_text M.Text.replies) M.Inputs.inputs)
        (M.reads M.machine)) };

    ghost Explains = { λ c. IsLinearizable (M.meaning M.machine) c.image c.trace };

    ghost ready = { λ i n. IsClusterSize n × HasByte i × IsFormatOf i (read_message M.Cmd.format) };

    fn below(_nodes: u8) -> Option<Header> {
        None
    }

    fn start(alloc: Global, stack: StackId, nodes: u8) -> Result<Self::Running, AllocError> {
        let network = ClusterInBytes::new(alloc, ReadRaft::new(M::machine(), nodes), stack)?;
        Ok(ReadRun::new(alloc, M::machine(), network))
    }
}

impl<M: Application> Judged for Reading<M>
where
    M::Cmd: AlwaysFits,
{
    type Lines = Orders<RaftText<M::Text>>;

    ghost claimed = { cluster_claimed (application M.own (M.meaning M.machine)
        (texts_of M.Text.input_of M.Text.input_text M.Text.output_of M.Text.output_text M.Text.replies) M.Inputs.inputs) };

    fn verdict(
        alloc: Global,
        _nodes: u8,
        claim: &Claim<RaftInput<M::Cmd>, RaftOut<M::Out>, RaftInput<M::Cmd>>,
    ) -> Result<Verdict, AllocError> {
        cluster_verdict::<M, M::Text>(alloc, &M::machine(), claim)
    }

    ghost says = { refl };
}

impl<M: Application> StackCode for Reading<M>
where
    M::Cmd: AlwaysFits,
{
    type Handlers = ReadRaft<M>;

    type Network = ClusterInBytes<ReadRaft<M>>;

    type Inputs = ByClients<M::Inputs>;

    ghost made = { cluster_made (reads_of (application M.own (M.meaning M.machine)
        (texts_of M.Text.input_of M.Text.input_text M.Text.output_of M.Text.output_text M.Text.replies) M.Inputs.inputs)
        (M.reads M.machine)) };

    fn network(alloc: Global, stack: StackId, nodes: u8) -> Result<Self::Network, AllocError> {
        ClusterInBytes::new(alloc, ReadRaft::new(M::machine(), nodes), stack)
    }
}
