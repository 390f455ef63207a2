ghost use Rattle.std.specs.Prelude.{◌≡◌, IsTrue};
ghost use Rattle.vst_base.specs.Nets.{stops_no_node};

use crate::pictures::Rest;
use crate::{Says, Telling};
use app_text::{AppText, KvText, LockText, MirrorText, PbText, TableText};
use drawing::Picture;
use fifo_xform::Fifo;
use handler_trait::Handlers;
use kv_machine::KvMachine;
use lock_server::LockServer;
use lock_table::TableMachine;
use mirror::Mirror;
use net_semantics::FailWorld;
use primary_backup::PrimaryBackup;
use raft_text::RaftText;
use raft_xform::Raft;
use read_xform::ReadRaft;
use retry_xform::Retry;
use schedule_text::Header;
use seqnum_xform::SeqNum;
use std::alloc::AllocError;
use trace_maps::SingleNode;
use vst_base::{MAX_NODES, Machine, Net, Queries, StackId};
use xform_stack::SteadyWorld;

impl Rest {
    // On a network that stops no node.
    fn on<H, A>(self, net: Net, handlers: H) -> Result<Picture, AllocError>
    where
        H: Handlers<Input = A::Input, Output = A::Output>,
        H::Msg: Says,
        A: AppText,
        requires net { IsTrue (stops_no_node net) }
        requires alone { net ≡ Net.One → (H.meaning handlers).nodes ≡ 1 }
    {
        let world = SteadyWorld::new(self.alloc, Telling::new(handlers), net)?;
        self.draw::<Telling<H>, SteadyWorld<Telling<H>>, A>(world)
    }

    // On a cluster.
    fn on_cluster<M, A>(self, machine: M, nodes: u8) -> Result<Picture, AllocError>
    where
        M: Machine,
        M::Cmd: Says,
        A: AppText<Input = M::Cmd, Output = M::Out>,
    {
        // A header of a cluster names no other number of nodes.
        let raft = Raft::new(machine, nodes.max(1).min(MAX_NODES));
        let world = FailWorld::new(self.alloc, Telling::new(raft))?;
        self.draw::<Telling<Raft<M>>, FailWorld<Telling<Raft<M>>>, RaftText<A>>(world)
    }

    // On a cluster whose reads take no entry of the log.
    fn on_reading_cluster<M, A>(self, machine: M, nodes: u8) -> Result<Picture, AllocError>
    where
        M: Queries,
        M::Cmd: Says,
        A: AppText<Input = M::Cmd, Output = M::Out>,
    {
        // A header of a cluster names no other number of nodes.
        let cluster = ReadRaft::new(machine, nodes.max(1).min(MAX_NODES));
        let world = FailWorld::new(self.alloc, Telling::new(cluster))?;
        self.draw::<Telling<ReadRaft<M>>, FailWorld<Telling<ReadRaft<M>>>, RaftText<A>>(world)
    }

    /// The picture of the steps after a header, by its stack.
    pub(crate) fn draw_stack(self, header: &Header) -> Result<Picture, AllocError> {
        let net = header.stack.row().net;
        let n = header.nodes;
        let kv = PrimaryBackup::new(KvMachine);
        let table = PrimaryBackup::new(TableMachine);
        // A header of a mirror names at most so many nodes.
        let mirror = Mirror::new(n.min(MAX_NODES));
        match header.stack {
            StackId::Lock => self.on::<_, LockText>(net, LockServer::new(n)),
            StackId::LockSeq => self.on::<_, LockText>(net, SeqNum::new(LockServer::new(n))),
            StackId::KvPb => self.on::<_, PbText<KvText>>(net, kv),
            StackId::KvPbSeq => self.on::<_, PbText<KvText>>(net, SeqNum::new(kv)),
            StackId::TablePbSeq => self.on::<_, PbText<TableText>>(net, SeqNum::new(table)),
            StackId::KvRaft => self.on_cluster::<_, KvText>(KvMachine, n),
            StackId::TableRaft => self.on_cluster::<_, TableText>(TableMachine, n),
            StackId::KvRaftRead => self.on_reading_cluster::<_, KvText>(KvMachine, n),
            StackId::TableRaftRead => self.on_reading_cluster::<_, TableText>(TableMachine, n),
            StackId::Kv => self.on::<_, KvText>(net, SingleNode::new(KvMachine)),
            StackId::Table => self.on::<_, TableText>(net, SingleNode::new(TableMachine)),
            StackId::Mirror => self.on::<_, MirrorText>(net, mirror),
            StackId::MirrorFifo => self.on::<_, MirrorText>(net, Fifo::new(mirror)),
            StackId::LockSeqRetry => {
                self.on::<_, LockText>(net, Retry::new(SeqNum::new(LockServer::new(n))))
            }
            StackId::KvPbSeqRetry => {
                self.on::<_, PbText<KvText>>(net, Retry::new(SeqNum::new(kv)))
            }
        }
    }
}
