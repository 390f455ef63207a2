ghost use Rattle.std.specs.Prelude.{◌≡◌, ◌∷◌, ◌+◌, ◌<◌, ◌^◌, ◌&&◌, length, nat_le, slice_index_or, IfNone, IfOk, IfSome, IsTrue, OnOk};
ghost use Rattle.vst_base.specs.Elections as elections;
ghost use Rattle.vst_base.specs.Elections.{is_majority};
ghost use Rattle.raft_reads.specs.Reads.{no_reads, with_ack, with_read};
ghost use Rattle.read_xform.specs.Rounds.{IsBlocked, may_answer};

use crate::Waiting;
use raft_types::RaftInput;
use std::alloc::{AllocError, Global};
use std::collections::VecDeque;
use std::marker::Model;
use vst_base::Node;

/// What a node knows of reads: the round that it is in, the greatest round that each node acknowledged, and the reads that wait,
/// in the order in which they came. Contracts see the record of these.
#[derive(Drop)]
pub(crate) struct Reads<C> {
    round: u64,
    acked: Vec<u64>,
    waiting: VecDeque<Waiting<C>>,
}

impl<C> Model for Reads<C> {
    ghost use Rattle.raft_reads.specs.Reads.{Reads as Record};
    ghost use Rattle.read_xform.specs.Codes.{reads_code};

    ghost Value = { Record C };

    ghost coded = { reads_code C.code };

    ghost view = { λ r. record { round = r.round; acked = r.acked.items; waiting = r.waiting.items } };
}

// Whether this leader and the nodes that acknowledged at least this round are a quorum.
fn is_quorum(acked: &[u64], me: Node, round: u64) -> bool
    ensures { result ≡ is_majority (length acked.now) (elections.holders me (λ node. slice_index_or acked.now node 0) round) }
{
    let mut count = 0;
    for (n, greatest) in acked.iter().enumerate() {
        if n == usize::from(me.index()) || round <= *greatest {
            count += 1;
        }
    }
    2 * count > acked.len()
}

// Whether a read may be answered at this leader, which has applied so much of its log.
fn is_ready<C>(acked: &[u64], me: Node, applied: u32, read: &Waiting<C>) -> bool
    ensures { result ≡ (is_majority (length acked.now) (elections.holders me (λ node. slice_index_or acked.now node 0) read.now.round)
        && nat_le read.now.read_index applied) }
{
    is_quorum(acked, me, read.round()) && read.read_index() <= applied
}

impl<C: Drop> Reads<C> {
    /// Those of a node that does not lead, of so many nodes.
    pub(crate) fn none(alloc: Global, nodes: u8) -> Result<Self, AllocError>
        ensures { IfOk result (λ reads. reads ≡ no_reads nodes) }
    {
        Ok(Reads {
            round: 0,
            acked: vec![in alloc; 0; usize::from(nodes)]?,
            waiting: VecDeque::new(alloc),
        })
    }

    /// The round that the node is in.
    pub(crate) fn round(&self) -> u64
        ensures { result ≡ self.now.round }
    {
        self.round
    }

    /// The node does not lead on: its reads are dropped, and it is in round 0. It takes no memory.
    pub(crate) fn clear(&mut self)
        ensures { self.new ≡ no_reads (length self.old.acked) }
    {
        self.round = 0;
        self.acked.fill(0);
        self.waiting.clear();
    }

    /// A read begins a round, and waits with its read index.
    pub(crate) fn wait(&mut self, input: RaftInput<C>, read_index: u32) -> Result<(), AllocError>
        requires { self.old.round + 1 < 2 ^ 64 }
        ensures { OnOk result (self.new ≡ with_read self.old input read_index) }
    {
        self.round += 1;
        self.waiting
            .push_back(Waiting::new(input, self.round, read_index))?;
        Ok(())
    }

    /// A node acknowledges a round.
    pub(crate) fn acknowledge(&mut self, from: Node, round: u64)
        requires { from < length self.old.acked }
        ensures { self.new ≡ with_ack self.old from round }
    {
        let greatest = &mut self.acked[usize::from(from.index())];
        *greatest = (*greatest).max(round);
    }

    /// Takes the first read out, if one waits and it may be answered at this leader, which has applied so much of its log. It costs a
    /// look at what each node acknowledged, however many reads wait.
    pub(crate) fn take_ready(&mut self, me: Node, applied: u32) -> Option<Waiting<C>>
        ensures taken { IfSome result (λ read. self.old.waiting ≡ read ∷ self.new.waiting) }
        ensures ready { IfSome result (λ read. IsTrue (may_answer me applied self.old read)) }
        ensures left { IfNone result (self.new.waiting ≡ self.old.waiting) }
        ensures blocked { IfNone result (IsBlocked (may_answer me applied self.old) self.old.waiting) }
        ensures round { self.new.round ≡ self.old.round }
        ensures acked { self.new.acked ≡ self.old.acked }
    {
        let first = self.waiting.front()?;
        let ready = is_ready(&self.acked, me, applied, first);
        if ready {
            return self.waiting.pop_front();
        }
        None
    }
}
