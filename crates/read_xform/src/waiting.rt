ghost use Rattle.std.specs.Prelude.{◌≡◌};

use raft_types::RaftInput;
use std::marker::Model;

/// A read that a leader took: what the client put in, the round that the read began, and its read index, up to where the leader
/// knew its log to be committed when the read came. Contracts see the record of these.
#[derive(Debug, Drop)]
pub struct Waiting<C> {
    input: RaftInput<C>,
    round: u64,
    read_index: u32,
}

impl<C> Model for Waiting<C> {
    ghost use Rattle.raft_reads.specs.Reads.{Waiting as Read};

    ghost Value = { Read C };

    ghost view = { λ x. record { input = x.input; round = x.round; read_index = x.read_index } };

    ghost inverse = { λ v. record { input = v.input; round = v.round; read_index = v.read_index } };
}

impl<C> Waiting<C> {
    /// The read that this input is, with its round and its read index.
    pub(crate) fn new(input: RaftInput<C>, round: u64, read_index: u32) -> Self
        ensures { result ≡ record { input = input; round = round; read_index = read_index } }
    {
        Waiting {
            input,
            round,
            read_index,
        }
    }

    /// What the client put in.
    pub fn input(&self) -> &RaftInput<C>
        ensures { result.now ≡ self.now.input }
    {
        &self.input
    }

    /// The round that the read began.
    pub fn round(&self) -> u64
        ensures { result ≡ self.now.round }
    {
        self.round
    }

    /// Up to which index the log has to be applied before the read is answered.
    pub fn read_index(&self) -> u32
        ensures { result ≡ self.now.read_index }
    {
        self.read_index
    }
}
