ghost use Rattle.std.specs.Prelude.{◌≡◌};
ghost use Rattle.vst_base.specs.Stacks.{named_among, row_of, rows, stack_named, stack_word};

use crate::{MAX_NODES, Net};

/// The stacks of handlers, and the machines that also run alone.
#[derive(Clone, Copy, Debug, PartialEq, Eq)]
pub enum StackId {
    /// The lock server.
    Lock,
    /// The lock server under sequence numbering.
    LockSeq,
    /// The key-value store under primary-backup.
    KvPb,
    /// The same under sequence numbering.
    KvPbSeq,
    /// The key-value store under Raft.
    KvRaft,
    /// The table of named locks under primary-backup and sequence numbering.
    TablePbSeq,
    /// The table of named locks under Raft.
    TableRaft,
    /// The key-value store alone.
    Kv,
    /// The table of named locks alone.
    Table,
    /// The mirror.
    Mirror,
    /// The mirror over FIFO channels.
    MirrorFifo,
    /// The lock server under sequence numbering and retransmission.
    LockSeqRetry,
    /// The key-value store under primary-backup, sequence numbering and retransmission.
    KvPbSeqRetry,
    /// The key-value store under Raft, with reads that take no entry of the log.
    KvRaftRead,
    /// The table of named locks under Raft, with reads that take no entry of the log.
    TableRaftRead,
}

/// A stack on its network, with the least and the greatest number of nodes that it runs on.
#[derive(Clone, Copy, Debug, PartialEq, Eq)]
pub struct StackRow {
    pub stack: StackId,
    pub net: Net,
    pub least: u8,
    pub most: u8,
}

// A lock server and its clients.
const LOCK: StackRow = StackRow {
    stack: StackId::Lock,
    net: Net::Bag,
    least: 2,
    most: 9,
};

const LOCK_SEQ: StackRow = StackRow {
    stack: StackId::LockSeq,
    net: Net::Dup,
    least: 2,
    most: 9,
};

// A primary and its backup.
const KV_PB: StackRow = StackRow {
    stack: StackId::KvPb,
    net: Net::Bag,
    least: 2,
    most: 2,
};

const KV_PB_SEQ: StackRow = StackRow {
    stack: StackId::KvPbSeq,
    net: Net::Dup,
    least: 2,
    most: 2,
};

const KV_RAFT: StackRow = StackRow {
    stack: StackId::KvRaft,
    net: Net::Fail,
    least: 1,
    most: MAX_NODES,
};

const TABLE_PB_SEQ: StackRow = StackRow {
    stack: StackId::TablePbSeq,
    net: Net::Dup,
    least: 2,
    most: 2,
};

const TABLE_RAFT: StackRow = StackRow {
    stack: StackId::TableRaft,
    net: Net::Fail,
    least: 1,
    most: MAX_NODES,
};

const KV: StackRow = StackRow {
    stack: StackId::Kv,
    net: Net::One,
    least: 1,
    most: 1,
};

const TABLE: StackRow = StackRow {
    stack: StackId::Table,
    net: Net::One,
    least: 1,
    most: 1,
};

// A mirror and the nodes whose values it says.
const MIRROR: StackRow = StackRow {
    stack: StackId::Mirror,
    net: Net::Ord,
    least: 2,
    most: 9,
};

const MIRROR_FIFO: StackRow = StackRow {
    stack: StackId::MirrorFifo,
    net: Net::Dup,
    least: 2,
    most: 9,
};

const LOCK_SEQ_RETRY: StackRow = StackRow {
    stack: StackId::LockSeqRetry,
    net: Net::Loss,
    least: 2,
    most: 9,
};

const KV_PB_SEQ_RETRY: StackRow = StackRow {
    stack: StackId::KvPbSeqRetry,
    net: Net::Loss,
    least: 2,
    most: 2,
};

const KV_RAFT_READ: StackRow = StackRow {
    stack: StackId::KvRaftRead,
    net: Net::Fail,
    least: 1,
    most: MAX_NODES,
};

const TABLE_RAFT_READ: StackRow = StackRow {
    stack: StackId::TableRaftRead,
    net: Net::Fail,
    least: 1,
    most: MAX_NODES,
};

const ROWS: &[StackRow] = &[
    LOCK,
    LOCK_SEQ,
    KV_PB,
    KV_PB_SEQ,
    KV_RAFT,
    TABLE_PB_SEQ,
    TABLE_RAFT,
    KV,
    TABLE,
    MIRROR,
    MIRROR_FIFO,
    LOCK_SEQ_RETRY,
    KV_PB_SEQ_RETRY,
    KV_RAFT_READ,
    TABLE_RAFT_READ,
];

impl StackRow {
    /// The stacks that there are.
    pub fn all() -> &'static [StackRow]
        ensures { result.now ≡ rows }
    {
        ROWS
    }
}

// The stack of the first of these rows that has a word.
fn named_among(rows: &[StackRow], word: &str) -> Option<StackId>
    ensures { result ≡ named_among rows.now word.now }
{
    for row in rows {
        if word == row.stack.word() {
            return Some(row.stack);
        }
    }
    None
}

impl StackId {
    /// The stack of a word, where it names one.
    pub fn named(word: &str) -> Option<Self>
        ensures { result ≡ stack_named word.now }
    {
        named_among(StackRow::all(), word)
    }

    /// The word that names it, in the header of a schedule and on the command line.
    pub fn word(self) -> &'static str
        ensures { result.now ≡ stack_word self }
    {
        match self {
            StackId::Lock => "lock",
            StackId::LockSeq => "lock/seq",
            StackId::KvPb => "kv/pb",
            StackId::KvPbSeq => "kv/pb/seq",
            StackId::KvRaft => "kv/raft",
            StackId::TablePbSeq => "table/pb/seq",
            StackId::TableRaft => "table/raft",
            StackId::Kv => "kv",
            StackId::Table => "table",
            StackId::Mirror => "mirror",
            StackId::MirrorFifo => "mirror/fifo",
            StackId::LockSeqRetry => "lock/seq/retry",
            StackId::KvPbSeqRetry => "kv/pb/seq/retry",
            StackId::KvRaftRead => "kv/raft/read",
            StackId::TableRaftRead => "table/raft/read",
        }
    }

    /// Its network and its numbers of nodes.
    pub fn row(self) -> StackRow
        ensures { result ≡ row_of self }
    {
        match self {
            StackId::Lock => LOCK,
            StackId::LockSeq => LOCK_SEQ,
            StackId::KvPb => KV_PB,
            StackId::KvPbSeq => KV_PB_SEQ,
            StackId::KvRaft => KV_RAFT,
            StackId::TablePbSeq => TABLE_PB_SEQ,
            StackId::TableRaft => TABLE_RAFT,
            StackId::Kv => KV,
            StackId::Table => TABLE,
            StackId::Mirror => MIRROR,
            StackId::MirrorFifo => MIRROR_FIFO,
            StackId::LockSeqRetry => LOCK_SEQ_RETRY,
            StackId::KvPbSeqRetry => KV_PB_SEQ_RETRY,
            StackId::KvRaftRead => KV_RAFT_READ,
            StackId::TableRaftRead => TABLE_RAFT_READ,
        }
    }
}
