use std::collections::VecDeque;
use std::marker::Model;

/// What a node remembers: the machine's state, the request that is out, and those that wait after it.
#[derive(Drop)]
pub struct PbState<S, C> {
    pub(crate) machine: S,
    pub(crate) out: Option<C>,
    pub(crate) waiting: VecDeque<C>,
}

impl<S, C> Model for PbState<S, C> {
    ghost use Rattle.primary_backup.specs.Backup.{Backed};

    ghost Value = { Backed S C };

    ghost view = { λ s. record { machine = s.machine; out = s.out; waiting = s.waiting.items } };
}
